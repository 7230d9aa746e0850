// The signs of a pattern.
ghost use Rattle.std.specs.Prelude.{◌≡◌, ◌≤◌, ◌+◌, ℕ, false, [], ◌∷◌, length, IfSome, MatchOption};
ghost use Rattle.std.specs.Str.{chars};
ghost use Rattle.lr_match.specs.Signs.{BeginsWithSign, sign_has, length_of_sign};
ghost use Rattle.lr_match.specs.Classes.{HasNoClass, spare};

use crate::class::{Class, class_has, class_of};
use crate::first::first;
use lr_rules::Steps;
use std::sync::ledger::Ledger;

/// What a pattern asks for at one place.
#[derive(Clone, Copy)]
pub enum Sign<'a> {
    /// Any characters, also none.
    Run,
    /// Any one.
    One,
    /// This one.
    Itself(char),
    /// One of these.
    Class(Class<'a>),
}

// The sign that a `[` begins. Where none closed, none further on does, so no text is searched for a `]` in vain twice.
fn opened<'a, L: Ledger>(
    behind: &'a str,
    closes: &mut bool,
    steps: &mut Steps<L>,
) -> (Sign<'a>, &'a str)
    requires closes { closes.old ≡ false → HasNoClass (91 ∷ chars behind.now) }
    ensures begins { BeginsWithSign (91 ∷ chars behind.now) result.0 (chars result.1.now) }
    ensures closes { closes.new ≡ false → HasNoClass (chars result.1.now) }
    ensures few { (m : ℕ) → length (chars behind.now) ≤ m → steps.new + length (chars result.1.now) + spare closes.new (m + 2) ≤
        steps.old + length (chars behind.now) + 1 + spare closes.old (m + 2) }
{
    if !*closes {
        return (Sign::Itself('['), behind);
    }
    match class_of(behind, steps) {
        Some(class) => (Sign::Class(class), class.rest),
        None => {
            *closes = false;
            (Sign::Itself('['), behind)
        }
    }
}

// The sign that a backslash begins.
fn escaped<'a, L: Ledger>(behind: &'a str, steps: &mut Steps<L>) -> (Sign<'a>, &'a str)
    ensures begins { BeginsWithSign (92 ∷ chars behind.now) result.0 (chars result.1.now) }
    ensures closes { HasNoClass (92 ∷ chars behind.now) → HasNoClass (chars result.1.now) }
    ensures few { steps.new + length (chars result.1.now) ≤ steps.old + length (chars behind.now) + 1 }
{
    match first(behind, steps) {
        Some((c, rest)) => (Sign::Itself(c), rest),
        None => (Sign::Itself('\\'), behind),
    }
}

fn sign_of<'a, L: Ledger>(
    c: char,
    behind: &'a str,
    closes: &mut bool,
    steps: &mut Steps<L>,
) -> (Sign<'a>, &'a str)
    requires closes { closes.old ≡ false → HasNoClass (c ∷ chars behind.now) }
    ensures begins { BeginsWithSign (c ∷ chars behind.now) result.0 (chars result.1.now) }
    ensures closes { closes.new ≡ false → HasNoClass (chars result.1.now) }
    ensures few { (m : ℕ) → length (chars behind.now) ≤ m → steps.new + length (chars result.1.now) + spare closes.new (m + 2) ≤
        steps.old + length (chars behind.now) + 1 + spare closes.old (m + 2) }
{
    if c == '*' {
        return (Sign::Run, behind);
    }
    if c == '?' {
        return (Sign::One, behind);
    }
    if c == '[' {
        return opened(behind, closes, steps);
    }
    if c == '\\' {
        return escaped(behind, steps);
    }
    (Sign::Itself(c), behind)
}

/// The first sign of a pattern, and what stands behind it; None at its end. `closes` is false where it is known that no class
/// begins in the pattern.
pub fn first_sign<'a, L: Ledger>(
    pattern: &'a str,
    closes: &mut bool,
    steps: &mut Steps<L>,
) -> Option<(Sign<'a>, &'a str)>
    requires closes { closes.old ≡ false → HasNoClass (chars pattern.now) }
    ensures begins { MatchOption result (chars pattern.now ≡ []) (λ r. BeginsWithSign (chars pattern.now) r.0 (chars r.1.now)) }
    ensures closes { IfSome result (λ r. closes.new ≡ false → HasNoClass (chars r.1.now)) }
    ensures few { MatchOption result ((steps.new ≡ steps.old + 1) × (closes.new ≡ closes.old))
        (λ r. (m : ℕ) → length (chars pattern.now) ≤ m → steps.new + length (chars r.1.now) + spare closes.new (m + 2) ≤ steps.old +
        length (chars pattern.now) + 1 + spare closes.old (m + 2)) }
{
    let (c, behind) = first(pattern, steps)?;
    Some(sign_of(c, behind, closes, steps))
}

/// Whether the sign, if it isn't a run, goes with the character.
pub fn sign_has<L: Ledger>(sign: &Sign, c: char, steps: &mut Steps<L>) -> bool
    ensures has { result ≡ sign_has sign.now c }
    ensures few { steps.new ≤ steps.old + length_of_sign sign.now }
{
    match sign {
        Sign::Run => false,
        Sign::One => true,
        Sign::Itself(d) => *d == c,
        Sign::Class(class) => if class.turned {
            !class_has(class.signs, c, steps)
        } else {
            class_has(class.signs, c, steps)
        },
    }
}
