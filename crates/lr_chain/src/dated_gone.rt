// Which of dated members go, once the log is one of them.
ghost use Rattle.std.specs.Prelude.{◌≡◌, ◌≤◌, ◌<◌, ◌+◌, ◌^◌, ◌||◌, ℕ, ℤ, Option, [], ◌∷◌, ◌++◌, map, reverse, take, drop, length};
ghost use Rattle.std.specs.Prelude.{int_lt, IfOk, OnOk, if◌then◌else◌};
ghost use Rattle.lr_rules.specs.declared.path.Path.{Path};
ghost use Rattle.lr_rules.specs.Dated.{stamp_key};
ghost use Rattle.lr_family.specs.Stands.{key_in};
ghost use Rattle.lr_chain.specs.Rotation.{is_expired, is_left};
ghost use Rattle.lr_chain.specs.DatedRotation.{gone};
ghost use Rattle.lr_chain.specs.DatedReady.{ranked, renamed, all_of, removal_of, plain_removal};

use crate::dated_target::Target;
use crate::keeping::{Kept, is_expired};
use lr_family::{Member, Place, key_of};
use lr_rules::{Count, Memory, Path};
use lr_scripts::Removal;
use std::alloc::Global;

// Whether the place is later than this moment and serial number.
fn is_later(place: Place, seconds: i64, serial: u32) -> bool
    ensures { result ≡ int_lt (stamp_key seconds serial) (key_in place) }
{
    key_of(&Place::Stamp(seconds, serial)) < key_of(&place)
}

// How many of the members, the newest first, are later than this moment and serial number, before the first that isn't.
fn later_than(members: &[Member], target: &Target) -> usize
    ensures bound { result ≤ length members.now }
    ensures place { (maxage : Option ℕ) (now : ℤ) → all_of maxage now target.now.seconds target.now.serial target.now.path
        members.now ≡ map (ranked maxage now) (take result members.now)
        ++ renamed target.now.seconds target.now.serial target.now.path ∷ map (ranked maxage now) (drop result members.now) }
{
    let mut later = 0;
    for member in members {
        if !is_later(member.place, target.seconds, target.serial) {
            return later;
        }
        later += 1;
    }
    later
}

fn has_no_room(count: Count, later: usize) -> bool
    ensures { result ≡ is_left count later }
{
    match count {
        Count::Keep(kept) => kept as usize <= later,
        Count::Always => false,
    }
}

// Whether the member goes, which so many later ones follow.
fn goes(kept: Kept, later: usize, member: &Member) -> bool
    ensures { result ≡ (is_left kept.count later || is_expired kept.maxage kept.now member.now) }
{
    has_no_room(kept.count, later) || is_expired(kept.maxage, kept.now, member)
}

// Adds the removal of what has this path, where it goes.
fn add_one(alloc: Global, into: &mut Vec<Removal>, goes: bool, path: &Path) -> Result<(), Memory>
    ensures { OnOk result (into.new.items ≡ into.old.items ++ (if goes then plain_removal path.now ∷ [] else [])) }
{
    if goes {
        into.push(Removal {
            path: path.copy(alloc)?,
            preremove: None,
            mail: None,
        })?;
    }
    Ok(())
}

// Adds the removals of those of these members that go, of which the first has so many later ones.
fn add_gone(
    alloc: Global,
    into: &mut Vec<Removal>,
    kept: Kept,
    first: usize,
    members: &[Member],
) -> Result<(), Memory>
    requires { first + length members.now < 2 ^ 64 }
    ensures { OnOk result (into.new.items ≡ into.old.items ++ map removal_of
        (gone kept.count first (map (ranked kept.maxage kept.now) members.now))) }
{
    let mut later = first;
    for member in members {
        add_one(alloc, into, goes(kept, later, member), &member.path)?;
        later += 1;
    }
    Ok(())
}

/// The removals of those that go, the oldest first, once the log is one of the members. Its age isn't tested.
pub fn removals_of(
    alloc: Global,
    kept: Kept,
    members: &[Member],
    target: &Target,
) -> Result<Vec<Removal>, Memory>
    ensures { IfOk result (λ removals. removals.items ≡ map removal_of
        (reverse (gone kept.count 0 (all_of kept.maxage kept.now target.now.seconds target.now.serial target.now.path
        members.now)))) }
{
    let place = later_than(members, target);
    let mut removals = Vec::new(alloc);
    add_gone(alloc, &mut removals, kept, 0, &members[..place])?;
    add_one(
        alloc,
        &mut removals,
        has_no_room(kept.count, place),
        &target.path,
    )?;
    add_gone(alloc, &mut removals, kept, place + 1, &members[place..])?;
    removals.reverse();
    Ok(removals)
}
