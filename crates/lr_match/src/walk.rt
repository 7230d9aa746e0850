// A pattern and a name, walked together.
ghost use Rattle.std.specs.Prelude.{◌≡◌, ◌↔◌, ◌≤◌, ◌+◌, ◌*◌, ◌∷◌, ℕ, false, true, length};
ghost use Rattle.std.specs.Str.{chars};
ghost use Rattle.lr_rules.specs.Match.{Matches};
ghost use Rattle.lr_match.specs.Classes.{HasNoClass, spare};
ghost use Rattle.lr_match.specs.Reached.{Reaches, HasNoClassLeft, length_left, reach_steps};

use crate::first::first;
use crate::sign::{Sign, first_sign, sign_has};
use lr_rules::Steps;
use std::sync::ledger::Ledger;

/// How far a pattern went along a name.
#[derive(Clone, Copy)]
pub enum Reached<'a> {
    /// To the end of both.
    End,
    /// To a `*`: what stands behind it, and what is left of the name.
    Run(&'a str, &'a str),
    /// It doesn't match.
    Stuck,
}

// Goes along the name up to the next `*`.
fn reach<'a, L: Ledger>(
    pattern: &'a str,
    name: &'a str,
    closes: &mut bool,
    steps: &mut Steps<L>,
) -> Reached<'a>
    requires closes { closes.old ≡ false → HasNoClass (chars pattern.now) }
    ensures reaches { Reaches (chars pattern.now) (chars name.now) result }
    ensures closes { closes.new ≡ false → HasNoClassLeft result }
    ensures few { (m : ℕ) → length (chars pattern.now) ≤ m → steps.new + 6 * length_left result + spare closes.new (m + 2) ≤
        steps.old + 6 * length (chars pattern.now) + 2 + spare closes.old (m + 2) }
{
    let mut asked = pattern;
    let mut left = name;
    while let Some((sign, behind)) = first_sign(asked, closes, steps) {
        if let Sign::Run = sign {
            return Reached::Run(behind, left);
        }
        let Some((c, rest)) = first(left, steps) else {
            return Reached::Stuck;
        };
        if !sign_has(&sign, c, steps) {
            return Reached::Stuck;
        }
        asked = behind;
        left = rest;
    }
    match first(left, steps) {
        None => Reached::End,
        Some(_) => Reached::Stuck,
    }
}

// Whether the pattern, with a `*` before it, matches the name. Only the last `*` that was met may have to take in more:
// whatever an earlier one could take in, the last one can.
fn matches_somewhere<L: Ledger>(
    pattern: &str,
    name: &str,
    closes: bool,
    steps: &mut Steps<L>,
) -> bool
    requires closes { closes ≡ false → HasNoClass (chars pattern.now) }
    ensures matches { (result ≡ true) ↔ Matches false (42 ∷ chars pattern.now) (chars name.now) }
    ensures few { (m : ℕ) → length (chars pattern.now) ≤ m → steps.new ≤ steps.old + 8 * length (chars pattern.now) + spare closes
        (m + 2) + reach_steps m * (length (chars name.now) + 1) }
{
    let mut asked = pattern;
    let mut left = name;
    let mut closing = closes;
    loop {
        let mut tried = closing;
        match reach(asked, left, &mut tried, steps) {
            Reached::End => return true,
            Reached::Run(behind, rest) => {
                asked = behind;
                left = rest;
                closing = tried;
            }
            Reached::Stuck => {
                let Some((_, rest)) = first(left, steps) else {
                    return false;
                };
                left = rest;
            }
        }
    }
}

/// Whether the pattern matches what is left of a name, whose first characters stand before it.
pub fn matches_rest<L: Ledger>(pattern: &str, name: &str, steps: &mut Steps<L>) -> bool
    ensures matches { (result ≡ true) ↔ Matches false (chars pattern.now) (chars name.now) }
    ensures few { steps.new ≤ steps.old + 9 * length (chars pattern.now) + 4 + reach_steps (length (chars pattern.now)) *
        (length (chars name.now) + 1) }
{
    let mut closes = true;
    match reach(pattern, name, &mut closes, steps) {
        Reached::End => true,
        Reached::Run(behind, rest) => matches_somewhere(behind, rest, closes, steps),
        Reached::Stuck => false,
    }
}
