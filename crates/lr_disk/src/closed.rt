// Closed sets of the pending changes, as lists of their places: the oldest has place 0.
ghost use Rattle.std.specs.Prelude.{◌≡◌, ◌↔◌, false, IsTrue};
ghost use Rattle.std.specs.List.{list_any};
ghost use Rattle.lr_host.specs.World.{shares, is_listed, undone_at, IsClosed};
ghost use Rattle.lr_host.specs.Fits.{AreRising};
ghost use Rattle.lr_disk.specs.Pending.{as_change, pending_of};

use crate::pending::{Pending, share};

/// Whether the places rise and stay below the count.
pub fn are_rising(kept: &[usize], count: usize) -> bool
    ensures { IsTrue result ↔ AreRising 0 kept.now count }
{
    let mut from = 0;
    for place in kept {
        if *place < from {
            return false;
        }
        if *place >= count {
            return false;
        }
        from = *place + 1;
    }
    true
}

/// Whether the place is listed.
pub fn lists(kept: &[usize], place: usize) -> bool
    ensures { result ≡ is_listed kept.now place }
{
    for k in kept {
        if place == *k {
            return true;
        }
    }
    false
}

// Whether the change shares no name with one of these that isn't kept.
fn is_apart(change: &Pending, earlier: &[Pending], kept: &[usize]) -> bool
    ensures { IsTrue result ↔ (list_any (shares (as_change change.now)) (undone_at kept.now (pending_of earlier.now)) ≡ false) }
{
    for i in 0..earlier.len() {
        if !lists(kept, i) && share(change, &earlier[i]) {
            return false;
        }
    }
    true
}

/// Whether the changes at these places are a closed set: with each they hold every older one that shares a name with it.
pub fn is_closed(changes: &[Pending], kept: &[usize]) -> bool
    ensures { IsTrue result ↔ IsClosed kept.now (pending_of changes.now) }
{
    for j in 0..changes.len() {
        if lists(kept, j) && !is_apart(&changes[j], &changes[..j], kept) {
            return false;
        }
    }
    true
}
