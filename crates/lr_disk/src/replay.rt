// Names after pending changes.
ghost use Rattle.std.specs.Prelude.{◌≡◌, [], List, ℕ, map, vec_capacity};
ghost use Rattle.lr_host.specs.World.{kept_at, changed, names_after};
ghost use Rattle.lr_disk.specs.Pairs.{keys};
ghost use Rattle.lr_disk.specs.Names.{named_in};
ghost use Rattle.lr_disk.specs.Pending.{as_change, pending_of, AreKnown, HasPairs};

use crate::closed::lists;
use crate::names::{set_name, thing_at};
use crate::pending::Pending;
use lr_host::Thing;
use lr_rules::Path;

/// Does the change.
pub fn replay(names: &mut [(Path, Thing)], change: &Pending)
    requires { HasPairs names.old (as_change change.now) }
    ensures named { (x : List ℕ) → named_in names.new x ≡ changed (as_change change.now) (named_in names.old) x }
    ensures keys { keys names.new ≡ keys names.old }
{
    match change {
        Pending::Puts(x, thing) => set_name(names, x, *thing),
        Pending::Moves(from, to) => {
            let thing = thing_at(names, from.bytes());
            set_name(names, from, Thing::Nothing);
            set_name(names, to, thing);
        }
        Pending::Drops(x) => set_name(names, x, Thing::Nothing),
    }
}

/// Does the changes at these places, in order.
pub fn keep(names: &mut [(Path, Thing)], changes: &[Pending], kept: &[usize])
    requires { AreKnown names.old (pending_of changes.now) }
    ensures named { (x : List ℕ) → named_in names.new x ≡ names_after (named_in names.old)
        (kept_at kept.now (pending_of changes.now)) x }
    ensures keys { keys names.new ≡ keys names.old }
{
    for i in 0..changes.len() {
        if lists(kept, i) {
            replay(names, &changes[i]);
        }
    }
}

/// Does the changes, which stand the newest first, and takes them.
pub fn replay_all(names: &mut [(Path, Thing)], changes: &mut Vec<Pending>)
    requires { AreKnown names.old (map as_change changes.old.items) }
    ensures named { (x : List ℕ) → named_in names.new x ≡ names_after (named_in names.old) (map as_change changes.old.items) x }
    ensures keys { keys names.new ≡ keys names.old }
    ensures none { changes.new.items ≡ [] }
    ensures room { vec_capacity changes.new ≡ vec_capacity changes.old }
{
    while let Some(change) = changes.pop() {
        replay(names, &change);
    }
}
