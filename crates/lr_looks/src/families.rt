// The looks at the families of logs.
ghost use Rattle.std.specs.Prelude.{◌≡◌, ◌≢◌, ◌≤◌, ◌<◌, ◌++◌, ◌∷◌, [], true, OnOk, OnErr, IfOk, IfErr, Err, length};
ghost use Rattle.lr_rules.specs.Limits.{is_format, or_none};
ghost use Rattle.lr_host.specs.Told.{Left, Onward, Rose};
ghost use Rattle.lr_family.specs.Stands.{IsFailedStand};
ghost use Rattle.lr_family.specs.declared.stand.StandStop.TheVariants as stop;
ghost use Rattle.lr_host.specs.Counted.{WentBy};
ghost use Rattle.lr_looks.specs.Families.{ShowsAside, ShowsNoAside, ShowsMembersIn, ShowsFamily, sight_of};
ghost use Rattle.lr_looks.specs.Families.{looked_at, stop_fault, LookedAtSomeFamilies};
ghost use Rattle.lr_plan.specs.Planned.{AreMembersOf};
ghost use Rattle.lr_looks.specs.Found.{found_in, all_found_in, paths_of, HasBounds, HasLogPath, HaveBounds, HaveLogPaths};
ghost use Rattle.lr_looks.specs.Internal.{AreListings, FamilyPart, AddsLooked, AddsFamily, AddsFamilies, LooksBySets, AreOf};
ghost use Rattle.lr_looks.specs.Ready.{AreReady};
ghost use Rattle.lr_looks.specs.Sets.{HaveLooks};

use crate::aside::look_aside;
use crate::found::Found;
use crate::listing::listing_at;
use crate::listings::Listings;
use crate::standing::Standing;
use indexmap::IndexMap;
use lr_family::{Family, Listing, Stand, StandStop};
use lr_host::Host;
use lr_plan::{LogLook, Looks, SetLooks};
use lr_rules::{Fault, Listed, Memory, Path};
use std::alloc::Global;

// What stands where the log waits, beside what stands of its family.
fn with_aside<H: Host>(
    alloc: Global,
    host: &mut H,
    family: &Family,
    stand: Stand,
) -> Result<Standing, StandStop>
    requires { length family.now.log ≤ 2048 }
    ensures told { IfOk result (λ standing. Left (ShowsAside family.now.naming.aside family.now.log standing.tmp)
        (H.told host.old) (H.told host.new)) }
    ensures stand { IfOk result (λ standing. standing.stand ≡ stand) }
    ensures stopped { IfErr result (λ why. Left (ShowsNoAside family.now.naming.aside family.now.log why) (H.told host.old)
        (H.told host.new)) }
    ensures cause { IfErr result (λ why. IsFailedStand why → Rose (H.counts host.old).faults (H.counts host.new).faults) }
    ensures counts { Onward (H.counts host.old) (H.counts host.new) }
{
    match look_aside(alloc, host, family) {
        Ok(tmp) => Ok(Standing { stand, tmp }),
        Err(why) => Err(why),
    }
}

// What stands in a directory that was listed, and then what stands where the log waits.
fn standing_in<H: Host>(
    alloc: Global,
    host: &mut H,
    family: &Family,
    listing: &Listing,
) -> Result<Standing, StandStop>
    requires format { or_none is_format family.now.naming.dated ≡ true }
    requires dir { listing.now.dir ≡ family.now.naming.dir }
    requires size { length family.now.log ≤ 2048 }
    ensures told { Left (ShowsMembersIn family.now.log family.now.naming listing.now (sight_of result)) (H.told host.old)
        (H.told host.new) }
    ensures named { IfOk result (λ standing. AreMembersOf family.now.naming standing.stand.members) }
    ensures cause { IfErr result (λ why. IsFailedStand why → Rose (H.counts host.old).faults (H.counts host.new).faults) }
    ensures counts { Onward (H.counts host.old) (H.counts host.new) }
{
    match family.stand_in(alloc, host, listing) {
        Ok(stand) => with_aside(alloc, host, family, stand),
        Err(why) => Err(why),
    }
}

// The same of a family whose directory is listed where it wasn't before.
fn stand_at<H: Host>(
    alloc: Global,
    host: &mut H,
    listings: &mut Listings,
    family: &Family,
) -> Result<Standing, StandStop>
    requires known { AreListings listings.old }
    requires format { or_none is_format family.now.naming.dated ≡ true }
    requires size { length family.now.log ≤ 2048 }
    ensures told { result ≢ Err stop.Memory → Left (ShowsFamily listings.old.taken.items family.now.log family.now.naming
        listings.new.taken.items (sight_of result)) (H.told host.old) (H.told host.new) }
    ensures part { Left (FamilyPart listings.old.taken.items family.now.log family.now.naming (sight_of result))
        (H.told host.old) (H.told host.new) }
    ensures known { result ≢ Err stop.Memory → AreListings listings.new }
    ensures named { IfOk result (λ standing. AreMembersOf family.now.naming standing.stand.members) }
    ensures cause { IfErr result (λ why. IsFailedStand why → Rose (H.counts host.old).faults (H.counts host.new).faults) }
    ensures counts { Onward (H.counts host.old) (H.counts host.new) }
{
    match listing_at(alloc, host, listings, &family.naming().dir) {
        Ok(place) => standing_in(alloc, host, family, &listings.taken[place]),
        Err(why) => Err(why),
    }
}

// Adds the fault of a family of which it isn't known what stands.
fn add_stop(faults: &mut Vec<Fault>, why: StandStop) -> Result<(), Memory>
    ensures known { OnOk result (why ≢ stop.Memory) }
    ensures faults { OnOk result (faults.new.items ≡ faults.old.items ++ stop_fault why) }
{
    match why {
        StandStop::Call(kind, path) => {
            faults.push(Fault::Call(kind, path))?;
            Ok(())
        }
        StandStop::NotFile(path) => {
            faults.push(Fault::NotFile(path))?;
            Ok(())
        }
        StandStop::Memory => Err(Memory),
    }
}

// Adds a log that was looked at whole to those of its definition.
fn add_look(
    alloc: Global,
    sets: &mut Vec<SetLooks>,
    found: Found,
    standing: Standing,
) -> Result<(), Memory>
    requires set { found.set < length sets.old.items }
    requires bounds { HasBounds (found_in found) }
    requires path { HasLogPath (found_in found) }
    requires named { AreMembersOf found.family.naming standing.stand.members }
    ensures looked { OnOk result (AddsLooked (looked_at (found_in found) standing.stand standing.tmp ∷ []) sets.old.items
        sets.new.items) }
    ensures many { OnOk result (length sets.new.items ≡ length sets.old.items) }
    ensures ready { OnOk result (AreReady sets.old.items → AreReady sets.new.items) }
{
    let Found {
        set,
        family,
        seen,
        ..
    } = found;
    let Standing { stand, tmp } = standing;
    let path = family.log().copy(alloc)?;
    sets[set].logs.push(LogLook {
        path,
        seen,
        family,
        stand,
        tmp,
    })?;
    Ok(())
}

// Looks at the family of a log: adds the log with what stands, or a fault.
fn look_at_family<H: Host>(
    alloc: Global,
    host: &mut H,
    listings: &mut Listings,
    found: Found,
    sets: &mut Vec<SetLooks>,
    faults: &mut Vec<Fault>,
) -> Result<(), Memory>
    requires known { AreListings listings.old }
    requires set { found.set < length sets.old.items }
    requires bounds { HasBounds (found_in found) }
    requires path { HasLogPath (found_in found) }
    ensures told { OnOk result (AddsFamily listings.old.taken.items listings.new.taken.items (found_in found) faults.old.items
        faults.new.items sets.old.items sets.new.items (H.told host.old) (H.told host.new)) }
    ensures some { OnErr result (Left (LookedAtSomeFamilies listings.old.taken.items (found_in found ∷ [])) (H.told host.old)
        (H.told host.new)) }
    ensures known { OnOk result (AreListings listings.new) }
    ensures many { OnOk result (length sets.new.items ≡ length sets.old.items) }
    ensures ready { OnOk result (AreReady sets.old.items → AreReady sets.new.items) }
    ensures went { WentBy result faults.old.items faults.new.items (H.counts host.old) (H.counts host.new) }
{
    match stand_at(alloc, host, listings, &found.family) {
        Ok(standing) => add_look(alloc, sets, found, standing),
        Err(why) => add_stop(faults, why),
    }
}

// Each definition without a log so far.
fn no_looks(alloc: Global, count: usize) -> Result<Vec<SetLooks>, Memory>
    ensures none { IfOk result (λ sets. HaveLooks [] sets.items) }
    ensures many { IfOk result (λ sets. length sets.items ≡ count) }
    ensures ready { IfOk result (λ sets. AreReady sets.items) }
{
    let mut sets = Vec::new(alloc);
    for _at in 0..count {
        sets.push(SetLooks {
            logs: Listed::new(alloc),
        })?;
    }
    Ok(sets)
}

// Looks at the families of these logs, in order, and adds each to those of its definition.
fn look_at_each<H: Host>(
    alloc: Global,
    host: &mut H,
    found: Vec<Found>,
    sets: &mut Vec<SetLooks>,
    faults: &mut Vec<Fault>,
) -> Result<(), Memory>
    requires sets { AreOf (length sets.old.items) (all_found_in found.items) }
    requires bounds { HaveBounds (all_found_in found.items) }
    requires paths { HaveLogPaths (all_found_in found.items) }
    ensures told { OnOk result (AddsFamilies (all_found_in found.items) faults.old.items faults.new.items sets.old.items
        sets.new.items (H.told host.old) (H.told host.new)) }
    ensures some { OnErr result (Left (LookedAtSomeFamilies [] (all_found_in found.items)) (H.told host.old) (H.told host.new)) }
    ensures many { OnOk result (length sets.new.items ≡ length sets.old.items) }
    ensures ready { OnOk result (AreReady sets.old.items → AreReady sets.new.items) }
    ensures went { WentBy result faults.old.items faults.new.items (H.counts host.old) (H.counts host.new) }
{
    let mut listings = Listings {
        places: IndexMap::new(alloc),
        taken: Vec::new(alloc),
    };
    for item in found {
        look_at_family(alloc, host, &mut listings, item, sets, faults)?;
    }
    Ok(())
}

// The paths of these logs.
fn paths_of(alloc: Global, found: &[Found]) -> Result<Listed<Path>, Memory>
    ensures { IfOk result (λ paths. paths ≡ paths_of (all_found_in found.now)) }
{
    let mut paths = Vec::new(alloc);
    for item in found {
        paths.push(item.family.log().copy(alloc)?)?;
    }
    Ok(Listed::from_vec(paths))
}

/// Looks at the families of these logs, in order, and behind each family at the path where its log waits that is set aside:
/// the paths of all, and the logs of each of so many definitions with what stands of them. The faults of those of which it
/// isn't known are added. No directory is listed twice; one that couldn't be is tried again at the next log in it.
pub fn look_at_families<H: Host>(
    alloc: Global,
    host: &mut H,
    found: Vec<Found>,
    count: usize,
    faults: &mut Vec<Fault>,
) -> Result<Looks, Memory>
    requires sets { AreOf count (all_found_in found.items) }
    requires bounds { HaveBounds (all_found_in found.items) }
    requires paths { HaveLogPaths (all_found_in found.items) }
    ensures told { IfOk result (λ looks. LooksBySets (all_found_in found.items) faults.old.items faults.new.items looks.sets
        (H.told host.old) (H.told host.new)) }
    ensures some { OnErr result (Left (LookedAtSomeFamilies [] (all_found_in found.items)) (H.told host.old) (H.told host.new)) }
    ensures kept { IfOk result (λ looks. looks.kept ≡ paths_of (all_found_in found.items)) }
    ensures many { IfOk result (λ looks. length looks.sets ≡ count) }
    ensures ready { IfOk result (λ looks. AreReady looks.sets) }
    ensures went { WentBy result faults.old.items faults.new.items (H.counts host.old) (H.counts host.new) }
{
    let kept = paths_of(alloc, &found)?;
    let mut sets = no_looks(alloc, count)?;
    look_at_each(alloc, host, found, &mut sets, faults)?;
    Ok(Looks {
        sets: Listed::from_vec(sets),
        kept,
    })
}
