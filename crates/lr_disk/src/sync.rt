// What the sync of a directory makes durable: the changes with a path right in it, and each older one that shares a name
// with one of these.
ghost use Rattle.std.specs.Prelude.{◌≡◌, ◌≤◌, ◌+◌, [], length, map, vec_capacity};
ghost use Rattle.std.specs.List.{list_any};
ghost use Rattle.lr_host.specs.World.{paths_in, kept_at, undone_at, settled, is_bound, has_parent};
ghost use Rattle.lr_disk.specs.Pending.{as_change, pending_of};

use crate::pending::{Pending, share};
use lr_rules::Path;

// Whether the change has a path right in the directory, or one of the newer ones shares a name with it.
fn is_held_by(dir: &Path, newer: &[Pending], change: &Pending) -> bool
    ensures { result ≡ is_bound dir.now (pending_of newer.now) (as_change change.now) }
{
    if stands_in(dir, change) {
        return true;
    }
    for i in 0..newer.len() {
        if share(&newer[i], change) {
            return true;
        }
    }
    false
}

// Whether a path of the change stands right in the directory.
fn stands_in(dir: &Path, change: &Pending) -> bool
    ensures { result ≡ list_any (has_parent dir.now) (paths_in (as_change change.now)) }
{
    match change {
        Pending::Puts(x, _) => x.parent_bytes() == dir.bytes(),
        Pending::Moves(from, to) => {
            from.parent_bytes() == dir.bytes() || to.parent_bytes() == dir.bytes()
        }
        Pending::Drops(x) => x.parent_bytes() == dir.bytes(),
    }
}

/// Parts the changes: those of the smallest closed set that holds each with a path right in the directory, and the
/// others, both the newest first.
pub fn part(
    dir: &Path,
    changes: &mut Vec<Pending>,
    bound: &mut Vec<Pending>,
    rest: &mut Vec<Pending>,
)
    requires none { bound.old.items ≡ [] }
    requires no_rest { rest.old.items ≡ [] }
    requires room { length changes.old.items ≤ vec_capacity bound.old }
    requires room_too { length changes.old.items ≤ vec_capacity rest.old }
    ensures bound { let all = pending_of changes.old.items in map as_change bound.new.items ≡ kept_at (settled dir.now [] all) all }
    ensures rest { let all = pending_of changes.old.items in map as_change rest.new.items ≡ undone_at (settled dir.now [] all) all }
    ensures taken { changes.new.items ≡ [] }
    ensures count { length bound.new.items + length rest.new.items ≡ length changes.old.items }
    ensures changes_room { vec_capacity changes.new ≡ vec_capacity changes.old }
    ensures bound_room { vec_capacity bound.old ≤ vec_capacity bound.new }
    ensures rest_room { vec_capacity rest.old ≤ vec_capacity rest.new }
{
    while let Some(change) = changes.pop() {
        if is_held_by(dir, bound, &change) {
            bound.push(change).unwrap();
        } else {
            rest.push(change).unwrap();
        }
    }
}

/// Puts the changes back, which stand the newest first.
pub fn put_back(changes: &mut Vec<Pending>, rest: &mut Vec<Pending>)
    requires none { changes.old.items ≡ [] }
    requires room { length rest.old.items ≤ vec_capacity changes.old }
    ensures back { pending_of changes.new.items ≡ map as_change rest.old.items }
    ensures taken { rest.new.items ≡ [] }
    ensures count { length changes.new.items ≡ length rest.old.items }
    ensures rest_room { vec_capacity rest.new ≡ vec_capacity rest.old }
{
    while let Some(change) = rest.pop() {
        changes.push(change).unwrap();
    }
}
