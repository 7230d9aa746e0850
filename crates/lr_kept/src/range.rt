// Which of the fronts begin with given bytes.
ghost use Rattle.std.specs.Prelude.{◌≡◌, ◌≤◌, ◌<◌, ◌↔◌, ℕ, false, Some, length, slice_get, nat_eq};
ghost use Rattle.std.specs.Ordering.{nat_cmp, is_lt};
ghost use Rattle.std.specs.Cmp.Lexicographic.{slice_cmp};
ghost use Rattle.std.specs.List.{starts_with};
ghost use Rattle.lr_shapes.specs.Fronts.{Begins};
ghost use Rattle.lr_kept.specs.declared.front.Front.{Front};
ghost use Rattle.lr_kept.specs.Fronts.{AreBegunWithin, AreInOrder};

use crate::front::Front;
use std::cmp::Ordering;

// Whether the front stands before these bytes.
fn is_before(front: &Front, begin: &[u8]) -> bool
    ensures { result ≡ is_lt (slice_cmp nat_cmp front.now.bytes begin.now) }
{
    match front.bytes.as_slice().cmp(begin) {
        Ordering::Less => true,
        Ordering::Equal | Ordering::Greater => false,
    }
}

// Whether the front begins with these bytes.
fn is_begun(front: &Front, begin: &[u8]) -> bool
    ensures { result ≡ starts_with nat_eq front.now.bytes begin.now }
{
    front.bytes.as_slice().starts_with(begin)
}

// Up to which place, from this one on, each front begins with these bytes.
fn begun_up_to(fronts: &[Front], from: usize, begin: &[u8]) -> usize
    requires { from ≤ length fronts.now }
    ensures bound { (from ≤ result) × (result ≤ length fronts.now) }
    ensures begun { AreBegunWithin fronts.now begin.now from result }
    ensures ends { (f : Front) → slice_get fronts.now result ≡ Some f → starts_with nat_eq f.bytes begin.now ≡ false }
{
    for at in from..fronts.len() {
        if !is_begun(&fronts[at], begin) {
            return at;
        }
    }
    fronts.len()
}

/// From which place on, and up to which, the fronts begin with these bytes.
pub fn beginning_with(fronts: &[Front], begin: &[u8]) -> (usize, usize)
    requires { AreInOrder fronts.now }
    ensures exactly { (t : ℕ) (f : Front) → slice_get fronts.now t ≡ Some f
        → ((result.0 ≤ t) × (t < result.1)) ↔ Begins begin.now f.bytes }
    ensures bound { result.1 ≤ length fronts.now }
{
    let from = fronts.partition_point(|front| is_before(front, begin));
    // They are few mostly, and each of them is asked for later: so they are walked, and their end isn't searched for.
    let to = begun_up_to(fronts, from, begin);
    (from, to)
}
