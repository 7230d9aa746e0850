// What makes the rotation of a numbered family ready.
ghost use Rattle.std.specs.Prelude.{◌≡◌, ◌≤◌, [], ◌∷◌, None, OnOk, IfOk, IfErr, MatchOption};
ghost use Rattle.lr_rules.specs.declared.fault.Fault.TheVariants as fault;
ghost use Rattle.lr_rules.specs.Limits.{IsCount};
ghost use Rattle.lr_family.specs.Places.{AreNamed};
ghost use Rattle.lr_chain.specs.Hindrances.{number_hindrances, IsHindered};
ghost use Rattle.lr_chain.specs.Prepared.{numbered_ready};
ghost use Rattle.lr_chain.specs.Ready.{HaveNames, HaveNext, HaveNewNames, NoneTooHigh, at_rest, with_members};

use crate::keeping::Kept;
use crate::numbered_parts::{last_removals, leftover_removals, moves_of};
use crate::numbered_places::{going, highest, path_there, places};
use crate::ready::{PrepareStop, Ready};
use crate::refusals::too_high;
use lr_family::{Family, Member};
use lr_rules::{Count, Listed, Make, Memory, Naming, Path};
use std::alloc::Global;

// The path of a member whose number would have to become too high.
fn highest_kept<'a>(naming: &Naming, count: Count, members: &'a [Member]) -> Option<&'a Path>
    requires numbered { naming.now.dated ≡ None }
    requires named { AreNamed naming.now members.now }
    ensures { MatchOption result (number_hindrances naming.now count members.now ≡ [])
        (λ path. number_hindrances naming.now count members.now ≡ fault.TooHigh path.now ∷ []) }
{
    match count {
        Count::Keep(_) => None,
        Count::Always => highest(naming, members),
    }
}

// The rotation where no member stands and none is kept: the log's way alone.
fn at_rest(alloc: Global, family: &Family, anew: Make) -> Result<Ready, Memory>
    requires numbered { family.now.naming.dated ≡ None }
    requires start { family.now.naming.start ≤ 999999 }
    ensures { IfOk result (λ ready. ready ≡ at_rest family.now.log family.now.naming anew) }
{
    let log = family.log().copy(alloc)?;
    let target = path_there(alloc, family, 0)?;
    Ok(Ready {
        leftovers: Listed::new(alloc),
        dir: None,
        moves: Listed::new(alloc),
        log,
        target,
        make: anew,
        retire: Listed::new(alloc),
    })
}

// Puts in what is to be done with the members at these places, of which those that come from the second go.
fn put_members(
    alloc: Global,
    family: &Family,
    count: Count,
    places: &[u32],
    from: &[u32],
    ready: &mut Ready,
) -> Result<(), Memory>
    requires numbered { family.now.naming.dated ≡ None }
    requires start { family.now.naming.start ≤ 999999 }
    requires named { HaveNames family.now.naming places.now }
    requires next { HaveNext family.now.naming count places.now }
    requires behind { HaveNewNames family.now.naming from.now }
    ensures { OnOk result (ready.new ≡ with_members family.now.naming count places.now from.now ready.old) }
{
    ready.leftovers = Listed::from_vec(leftover_removals(alloc, family, count, places)?);
    ready.moves = Listed::from_vec(moves_of(alloc, family, count, places)?);
    ready.retire = Listed::from_vec(last_removals(alloc, family, count, from)?);
    Ok(())
}

// The rotation, with all its paths.
fn numbered_ready(
    alloc: Global,
    family: &Family,
    kept: Kept,
    members: &[Member],
    anew: Make,
) -> Result<Ready, Memory>
    requires numbered { family.now.naming.dated ≡ None }
    requires start { family.now.naming.start ≤ 999999 }
    requires count { IsCount kept.count }
    requires named { AreNamed family.now.naming members.now }
    requires low { NoneTooHigh family.now.naming kept.count members.now }
    ensures { IfOk result (λ ready. ready ≡ numbered_ready family.now.log family.now.naming kept.count kept.maxage kept.now anew
        members.now) }
{
    let places = places(alloc, members)?;
    let from = going(alloc, kept, members)?;
    let mut ready = at_rest(alloc, family, anew)?;
    put_members(alloc, family, kept.count, &places, &from, &mut ready)?;
    Ok(ready)
}

/// Makes the rotation of a numbered family ready, whose directory is there and where these members stand.
pub fn prepare_numbered(
    alloc: Global,
    family: &Family,
    kept: Kept,
    members: &[Member],
    anew: Make,
) -> Result<Ready, PrepareStop>
    requires numbered { family.now.naming.dated ≡ None }
    requires start { family.now.naming.start ≤ 999999 }
    requires count { IsCount kept.count }
    requires named { AreNamed family.now.naming members.now }
    ensures ready { IfOk result (λ ready. ready ≡ numbered_ready family.now.log family.now.naming kept.count kept.maxage kept.now
        anew members.now) }
    ensures free { OnOk result (number_hindrances family.now.naming kept.count members.now ≡ []) }
    ensures hindered { IfErr result (IsHindered (number_hindrances family.now.naming kept.count members.now)) }
{
    if let Some(path) = highest_kept(family.naming(), kept.count, members) {
        return Err(too_high(alloc, path));
    }
    match numbered_ready(alloc, family, kept, members, anew) {
        Ok(ready) => Ok(ready),
        Err(_) => Err(PrepareStop::Memory),
    }
}
