// The classes of a pattern.
ghost use Rattle.std.specs.Prelude.{◌≡◌, ◌≤◌, ◌+◌, ◌*◌, ℕ, Bool, false, List, [], ◌∷◌, ◌++◌, ◌||◌, ◌&&◌, nat_le, length, drop};
ghost use Rattle.std.specs.Prelude.{IfNone, MatchOption};
ghost use Rattle.std.specs.List.{list_any};
ghost use Rattle.std.specs.Str.{chars};
ghost use Rattle.lr_rules.specs.Match.{ranges_have, class_has, is_close, IsClass};
ghost use Rattle.lr_match.specs.Classes.{before_close, signs_of, TurnedClass};

use crate::first::first;
use lr_rules::Steps;
use std::sync::ledger::Ledger;

/// A class: whether a `!` turns it round, the text from its first sign on, and what stands behind its `]`.
#[derive(Clone, Copy)]
pub struct Class<'a> {
    pub turned: bool,
    pub signs: &'a str,
    pub rest: &'a str,
}

// What stands behind the first `]`.
fn behind_close<'a, L: Ledger>(text: &'a str, steps: &mut Steps<L>) -> Option<&'a str>
    ensures close { MatchOption result (list_any is_close (chars text.now) ≡ false)
        (λ r. chars text.now ≡ before_close (chars text.now) ++ 93 ∷ chars r.now) }
    ensures few { MatchOption result (steps.new ≤ steps.old + length (chars text.now) + 1)
        (λ r. steps.new + length (chars r.now) ≤ steps.old + length (chars text.now)) }
{
    let mut left = text;
    while let Some((c, rest)) = first(left, steps) {
        if c == ']' {
            return Some(rest);
        }
        left = rest;
    }
    None
}

// What stands behind the class of these signs.
fn behind_signs<'a, L: Ledger>(signs: &'a str, steps: &mut Steps<L>) -> Option<&'a str>
    ensures close { MatchOption result (list_any is_close (drop 1 (chars signs.now)) ≡ false)
        (λ r. chars signs.now ≡ signs_of (chars signs.now) ++ 93 ∷ chars r.now) }
    ensures few { MatchOption result (steps.new ≤ steps.old + length (chars signs.now) + 1)
        (λ r. steps.new + length (chars r.now) ≤ steps.old + length (chars signs.now)) }
{
    let (_, behind) = first(signs, steps)?;
    behind_close(behind, steps)
}

// The text begins with this character, and what stands behind it.
fn behind_turn<'a, L: Ledger>(text: &'a str, steps: &mut Steps<L>) -> Option<&'a str>
    ensures turn { MatchOption result ((rest : List ℕ) → chars text.now ≡ 33 ∷ rest → ⊥) (λ r. chars text.now ≡ 33 ∷ chars r.now) }
    ensures counted { steps.new ≡ steps.old + 1 }
{
    let (c, rest) = first(text, steps)?;
    if c == '!' { Some(rest) } else { None }
}

// Whether the class is turned round, and the text from its first sign on.
fn turned<'a, L: Ledger>(behind: &'a str, steps: &mut Steps<L>) -> (bool, &'a str)
    ensures turn { TurnedClass (chars behind.now) result.0 (chars result.1.now) }
    ensures counted { steps.new ≡ steps.old + 1 }
{
    match behind_turn(behind, steps) {
        Some(signs) => (true, signs),
        None => (false, behind),
    }
}

/// The class that begins behind a `[`; None where none does: then no `]` stands behind the first two characters, so none
/// begins further on.
pub fn class_of<'a, L: Ledger>(behind: &'a str, steps: &mut Steps<L>) -> Option<Class<'a>>
    ensures class { MatchOption result (list_any is_close (drop 2 (chars behind.now)) ≡ false)
        (λ k. IsClass (chars behind.now) k.turned (signs_of (chars k.signs.now)) (chars k.rest.now)) }
    ensures none { IfNone result ((is_turned : Bool) (signs rest : List ℕ) → IsClass (chars behind.now) is_turned signs rest → ⊥) }
    ensures few { MatchOption result (steps.new ≤ steps.old + length (chars behind.now) + 2)
        (λ k. steps.new + length (chars k.rest.now) ≤ steps.old + length (chars behind.now) + 1) }
{
    let (turned, signs) = turned(behind, steps);
    let rest = behind_signs(signs, steps)?;
    Some(Class {
        turned,
        signs,
        rest,
    })
}

// The next sign of a class.
fn next_sign<'a, L: Ledger>(text: &'a str, steps: &mut Steps<L>) -> Option<(char, &'a str)>
    ensures next { MatchOption result (before_close (chars text.now) ≡ [])
        (λ r. (before_close (chars text.now) ≡ r.0 ∷ before_close (chars r.1.now)) × (chars text.now ≡ r.0 ∷ chars r.1.now)) }
    ensures counted { steps.new ≡ steps.old + 1 }
{
    let (c, rest) = first(text, steps)?;
    if c == ']' { None } else { Some((c, rest)) }
}

// The end of a range, which stands behind a `-`.
fn range_end<'a, L: Ledger>(text: &'a str, steps: &mut Steps<L>) -> Option<(char, &'a str)>
    ensures end { MatchOption result ((b : ℕ) (signs : List ℕ) → before_close (chars text.now) ≡ 45 ∷ b ∷ signs → ⊥)
        (λ r. (before_close (chars text.now) ≡ 45 ∷ r.0 ∷ before_close (chars r.1.now))
        × (length (chars r.1.now) ≤ length (chars text.now))) }
    ensures few { steps.new ≤ steps.old + 2 }
{
    let (c, rest) = next_sign(text, steps)?;
    if c == '-' {
        next_sign(rest, steps)
    } else {
        None
    }
}

// The end of the range that this sign begins, itself where it is a single one, and what is left.
fn member<'a, L: Ledger>(from: char, behind: &'a str, steps: &mut Steps<L>) -> (char, &'a str)
    ensures has { (c : ℕ) → ranges_have (from ∷ before_close (chars behind.now)) c
        ≡ ((nat_le from c && nat_le c result.0) || ranges_have (before_close (chars result.1.now)) c) }
    ensures shorter { length (chars result.1.now) ≤ length (chars behind.now) }
    ensures signs { length (before_close (chars result.1.now)) ≤ length (before_close (chars behind.now)) }
    ensures few { steps.new ≤ steps.old + 2 }
{
    match range_end(behind, steps) {
        Some((end, rest)) => (end, rest),
        None => (from, behind),
    }
}

fn ranges_have<L: Ledger>(signs: &str, c: char, steps: &mut Steps<L>) -> bool
    ensures has { result ≡ ranges_have (before_close (chars signs.now)) c }
    ensures few { steps.new ≤ steps.old + 3 * length (before_close (chars signs.now)) + 1 }
{
    let mut left = signs;
    while let Some((from, behind)) = next_sign(left, steps) {
        let (end, rest) = member(from, behind, steps);
        if from <= c && c <= end {
            return true;
        }
        left = rest;
    }
    false
}

/// Whether the signs of a class, up to its `]`, hold the character.
pub fn class_has<L: Ledger>(signs: &str, c: char, steps: &mut Steps<L>) -> bool
    ensures has { result ≡ class_has (signs_of (chars signs.now)) c }
    ensures few { steps.new ≤ steps.old + 3 * length (signs_of (chars signs.now)) + 1 }
{
    let Some((from, behind)) = first(signs, steps) else {
        return false;
    };
    if from == '-' {
        return c == '-' || ranges_have(behind, c, steps);
    }
    let (end, rest) = member(from, behind, steps);
    from <= c && c <= end || ranges_have(rest, c, steps)
}
