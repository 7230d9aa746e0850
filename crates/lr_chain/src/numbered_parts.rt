// The parts of a rotation of numbered members, made before the first of them is used.
ghost use Rattle.std.specs.Prelude.{◌≡◌, ◌+◌, ◌≤◌, ◌∷◌, ◌++◌, [], suc, map, None, OnOk, IfOk};
ghost use Rattle.lr_chain.specs.Rotation.{leftovers, kept, retired};
ghost use Rattle.lr_chain.specs.Ready.{removal_at, move_from, HaveNames, HaveNext, HaveNewNames};

use crate::numbered_places::{has_no_room, path_there};
use crate::ready::Move;
use lr_family::Family;
use lr_rules::{Count, Memory};
use lr_scripts::Removal;
use std::alloc::Global;

fn removal(alloc: Global, family: &Family, place: u32) -> Result<Removal, Memory>
    requires numbered { family.now.naming.dated ≡ None }
    requires bound { family.now.naming.start + place ≤ 4294967295 }
    ensures { IfOk result (λ removal. removal ≡ removal_at family.now.naming place) }
{
    Ok(Removal {
        path: path_there(alloc, family, place)?,
        preremove: None,
        mail: None,
    })
}

fn next(alloc: Global, family: &Family, place: u32) -> Result<Move, Memory>
    requires numbered { family.now.naming.dated ≡ None }
    requires bound { family.now.naming.start + (place + 1) ≤ 4294967295 }
    ensures { IfOk result (λ step. step ≡ move_from family.now.naming place) }
{
    Ok(Move {
        from: path_there(alloc, family, place)?,
        to: path_there(alloc, family, place + 1)?,
    })
}

// Adds the removal of the member at this place, where it is a leftover.
fn add_leftover(
    alloc: Global,
    into: &mut Vec<Removal>,
    family: &Family,
    count: Count,
    place: u32,
) -> Result<(), Memory>
    requires numbered { family.now.naming.dated ≡ None }
    requires bound { family.now.naming.start + place ≤ 4294967295 }
    ensures { OnOk result (into.new.items ≡ into.old.items ++ map (removal_at family.now.naming) (leftovers count (place ∷ []))) }
{
    if has_no_room(count, place) {
        into.push(removal(alloc, family, place)?)?;
    }
    Ok(())
}

/// The removals of the leftovers among the members at these places.
pub fn leftover_removals(
    alloc: Global,
    family: &Family,
    count: Count,
    places: &[u32],
) -> Result<Vec<Removal>, Memory>
    requires numbered { family.now.naming.dated ≡ None }
    requires named { HaveNames family.now.naming places.now }
    ensures { IfOk result (λ removals. removals.items ≡ map (removal_at family.now.naming) (leftovers count places.now)) }
{
    let mut removals = Vec::new(alloc);
    for place in places {
        add_leftover(alloc, &mut removals, family, count, *place)?;
    }
    Ok(removals)
}

// Adds the move of the member at this place, where it is no leftover.
fn add_move(
    alloc: Global,
    into: &mut Vec<Move>,
    family: &Family,
    count: Count,
    place: u32,
) -> Result<(), Memory>
    requires numbered { family.now.naming.dated ≡ None }
    requires bound { HaveNext family.now.naming count (place ∷ []) }
    ensures { OnOk result (into.new.items ≡ into.old.items ++ map (move_from family.now.naming) (kept count (place ∷ []))) }
{
    if !has_no_room(count, place) {
        into.push(next(alloc, family, place)?)?;
    }
    Ok(())
}

/// The moves of the members at these places that are no leftovers.
pub fn moves_of(
    alloc: Global,
    family: &Family,
    count: Count,
    places: &[u32],
) -> Result<Vec<Move>, Memory>
    requires numbered { family.now.naming.dated ≡ None }
    requires bound { HaveNext family.now.naming count places.now }
    ensures { IfOk result (λ moves. moves.items ≡ map (move_from family.now.naming) (kept count places.now)) }
{
    let mut moves = Vec::new(alloc);
    for place in places {
        add_move(alloc, &mut moves, family, count, *place)?;
    }
    Ok(moves)
}

// The removal of the member that comes from this place.
fn removal_next(alloc: Global, family: &Family, place: u32) -> Result<Removal, Memory>
    requires numbered { family.now.naming.dated ≡ None }
    requires bound { family.now.naming.start + (place + 1) ≤ 4294967295 }
    ensures { IfOk result (λ removal. removal ≡ removal_at family.now.naming (suc place)) }
{
    removal(alloc, family, place + 1)
}

/// The removals behind the moves, where the members that come from these places go.
pub fn last_removals(
    alloc: Global,
    family: &Family,
    count: Count,
    from: &[u32],
) -> Result<Vec<Removal>, Memory>
    requires numbered { family.now.naming.dated ≡ None }
    requires start { family.now.naming.start ≤ 999999 }
    requires next { HaveNewNames family.now.naming from.now }
    ensures { IfOk result (λ removals. removals.items ≡ map (removal_at family.now.naming) (retired count from.now)) }
{
    let mut removals = Vec::new(alloc);
    for place in from {
        removals.push(removal_next(alloc, family, *place)?)?;
    }
    if has_no_room(count, 0) {
        removals.push(removal(alloc, family, 0)?)?;
    }
    Ok(removals)
}
