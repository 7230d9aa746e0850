// A text, character by character.
ghost use Rattle.std.specs.Prelude.{◌≡◌, ◌+◌, [], ◌∷◌, MatchOption};
ghost use Rattle.std.specs.Str.{chars};

use lr_rules::Steps;
use std::sync::ledger::Ledger;

/// The first character, and what stands behind it; None of an empty text. It is one step, and the only one that is counted:
/// no text is read otherwise.
pub fn first<'a, L: Ledger>(text: &'a str, steps: &mut Steps<L>) -> Option<(char, &'a str)>
    ensures first { MatchOption result (chars text.now ≡ []) (λ r. chars text.now ≡ r.0 ∷ chars r.1.now) }
    ensures counted { steps.new ≡ steps.old + 1 }
{
    steps.tick();
    let mut left = text.chars();
    let c = left.next()?;
    Some((c, left.as_str()))
}
