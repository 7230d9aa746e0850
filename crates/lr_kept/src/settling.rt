// Which of two logs that meet is kept.
ghost use Rattle.std.specs.Prelude.{◌≡◌, ◌<◌, ◌↔◌, ℕ, true, Some, length, slice_get, All};
ghost use Rattle.lr_kept.specs.Chosen.{IsKeptAt};
ghost use Rattle.lr_kept.specs.Pairs.{PairsRise, AreSettled, IsPairSettled};

use crate::choice::Choice;
use crate::pair::Pair;

/// Whether the log at this place is kept.
pub fn is_kept(choices: &[Choice], place: usize) -> bool
    requires { place < length choices.now }
    ensures { (result ≡ true) ↔ IsKeptAt choices.now place }
{
    match choices[place] {
        Choice::Kept => true,
        Choice::Again(_) | Choice::MemberOf(_) | Choice::Reserved(_) | Choice::Meets(_) => false,
    }
}

// Where both logs of the pair are kept, the later one isn't any more.
fn settle_pair(choices: &mut [Choice], pair: Pair)
    requires earlier { pair.earlier < length choices.old }
    requires later { pair.later < length choices.old }
    ensures { IsPairSettled choices.old pair choices.new }
{
    let later = is_kept(choices, pair.later);
    let earlier = is_kept(choices, pair.earlier);
    if later & earlier {
        choices[pair.later] = Choice::Meets(pair.earlier);
    }
}

/// Settles all pairs, in order of their earlier places: so of each pair it is known whether the earlier log is kept.
pub fn settle(choices: &mut [Choice], pairs: &[Pair])
    requires begun { (k i : ℕ) → slice_get choices.old k ≡ Some (Choice.Meets i) → ⊥ }
    requires pairs { All (λ p. (p.earlier < p.later) × (p.later < length choices.old)) pairs.now }
    requires rising { PairsRise pairs.now }
    ensures { AreSettled choices.old pairs.now (length pairs.now) choices.new }
{
    for pair in pairs {
        settle_pair(choices, *pair);
    }
}
