// The places of numbered members, and of those that go behind the moves.
ghost use Rattle.std.specs.Prelude.{◌≡◌, ◌+◌, ◌==◌, ◌≤◌, suc, map, filter, reverse, false, true, MatchOption, IfOk, None};
ghost use Rattle.std.specs.List.{list_any};
ghost use Rattle.lr_family.specs.Places.{AreNamed};
ghost use Rattle.lr_family.specs.Spots.{path_at};
ghost use Rattle.lr_family.specs.Stands.{number_in};
ghost use Rattle.lr_chain.specs.Rotation.{places_of, is_left, goes, going};
ghost use Rattle.lr_chain.specs.Ready.{is_highest, highest_path};

use crate::keeping::{Kept, is_expired};
use lr_family::{Family, Member, number_at};
use lr_rules::{Count, Memory, Naming, Path};
use std::alloc::Global;

/// The places of the members, from the last of them to the first.
pub fn places(alloc: Global, members: &[Member]) -> Result<Vec<u32>, Memory>
    ensures { IfOk result (λ places. places.items ≡ places_of members.now) }
{
    let places = members
        .iter()
        .map(|member| number_at(member.place))
        .rev()
        .collect(alloc)?;
    Ok(places)
}

/// Whether the count leaves no room for a member at this place.
pub fn has_no_room(count: Count, place: u32) -> bool
    ensures { result ≡ is_left count place }
{
    match count {
        Count::Keep(kept) => kept <= place,
        Count::Always => false,
    }
}

// Whether the member has the highest number that there is.
fn stands_highest(naming: &Naming, member: &Member) -> bool
    ensures { result ≡ is_highest naming.now member.now }
{
    naming.start.checked_add(number_at(member.place)) == Some(u32::MAX)
}

/// The path of a member that has the highest number that there is.
pub fn highest<'a>(naming: &Naming, members: &'a [Member]) -> Option<&'a Path>
    requires numbered { naming.now.dated ≡ None }
    requires named { AreNamed naming.now members.now }
    ensures { MatchOption result (list_any (is_highest naming.now) members.now ≡ false)
        (λ path. (list_any (is_highest naming.now) members.now ≡ true) × (path.now ≡ highest_path naming.now)) }
{
    for member in members {
        if stands_highest(naming, member) {
            return Some(&member.path);
        }
    }
    None
}

/// The path of the member at this place.
pub fn path_there(alloc: Global, family: &Family, place: u32) -> Result<Path, Memory>
    requires numbered { family.now.naming.dated ≡ None }
    requires bound { family.now.naming.start + place ≤ 4294967295 }
    ensures { IfOk result (λ path. path ≡ path_at family.now.naming place) }
{
    match family.name_at(alloc, place) {
        Ok(path) => Ok(path),
        // The number isn't too high, so this is want of memory.
        Err(_) => Err(Memory),
    }
}

// Whether the count leaves no room for a member at the next place.
fn has_no_room_next(count: Count, place: u32) -> bool
    ensures { result ≡ is_left count (suc place) }
{
    match count {
        Count::Keep(kept) => kept == 0 || kept - 1 <= place,
        Count::Always => false,
    }
}

fn goes(kept: Kept, member: &Member) -> bool
    ensures { result ≡ goes kept.count kept.maxage kept.now member.now }
{
    let place = number_at(member.place);
    !has_no_room(kept.count, place)
        && (has_no_room_next(kept.count, place) || is_expired(kept.maxage, kept.now, member))
}

// The places that they come from, the lowest first.
fn rising(alloc: Global, kept: Kept, members: &[Member]) -> Result<Vec<u32>, Memory>
    ensures { IfOk result (λ from. from.items ≡ map (λ m. number_in m.place)
        (filter (goes kept.count kept.maxage kept.now) members.now)) }
{
    let from = members
        .iter()
        .filter(|member| goes(kept, *member))
        .map(|member| number_at(member.place))
        .collect(alloc)?;
    Ok(from)
}

/// The places that the members come from that go behind the moves, the highest first.
pub fn going(alloc: Global, kept: Kept, members: &[Member]) -> Result<Vec<u32>, Memory>
    ensures { IfOk result (λ from. from.items ≡ going kept.count kept.maxage kept.now members.now) }
{
    let mut from = rising(alloc, kept, members)?;
    from.reverse();
    Ok(from)
}
