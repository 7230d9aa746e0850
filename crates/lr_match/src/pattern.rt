// Whether a pattern matches a name.
ghost use Rattle.std.specs.Prelude.{◌≡◌, ◌↔◌, ◌≤◌, ◌<◌, ◌+◌, ◌*◌, ◌∷◌, ℕ, List, true, length, MatchOption};
ghost use Rattle.std.specs.Str.{chars};
ghost use Rattle.lr_rules.specs.Match.{Matches};
ghost use Rattle.lr_match.specs.Reached.{reach_steps};

use crate::first::first;
use crate::sign::{Sign, first_sign};
use crate::walk::matches_rest;
use lr_rules::Steps;
use std::marker::Brand;
use std::sync::ledger::{Blank, Ledger};

// What stands behind the dot that begins a name.
fn behind_dot<'a, L: Ledger>(name: &'a str, steps: &mut Steps<L>) -> Option<&'a str>
    ensures dot { MatchOption result ((rest : List ℕ) → chars name.now ≡ 46 ∷ rest → ⊥) (λ r. chars name.now ≡ 46 ∷ chars r.now) }
    ensures counted { steps.new ≡ steps.old + 1 }
{
    let (c, rest) = first(name, steps)?;
    if c == '.' { Some(rest) } else { None }
}

// Whether the pattern matches a dot with this behind it: no sign but a dot goes with it.
fn matches_dotted<L: Ledger>(pattern: &str, rest: &str, steps: &mut Steps<L>) -> bool
    ensures matches { (result ≡ true) ↔ Matches true (chars pattern.now) (46 ∷ chars rest.now) }
    ensures few { steps.new ≤ steps.old + 12 * length (chars pattern.now) + 6 + reach_steps (length (chars pattern.now)) *
        (length (chars rest.now) + 1) }
{
    let mut asked = pattern;
    let mut closes = true;
    while let Some((sign, behind)) = first_sign(asked, &mut closes, steps) {
        match sign {
            Sign::Run => asked = behind,
            Sign::Itself(c) => return c == '.' && matches_rest(behind, rest, steps),
            Sign::One => return false,
            Sign::Class(_) => return false,
        }
    }
    false
}

/// Whether a pattern matches a name, as [`matches`] has it, with its steps counted: each is a character that is read of the
/// pattern or of the name, or the end of one. They are at most 19 times the product of the lengths, each one longer.
pub fn matches_in<L: Ledger>(pattern: &str, name: &str, steps: &mut Steps<L>) -> bool
    ensures matches { (result ≡ true) ↔ Matches true (chars pattern.now) (chars name.now) }
    ensures few { steps.new ≤ steps.old + 19 * ((length (chars pattern.now) + 1) * (length (chars name.now) + 1)) }
{
    match behind_dot(name, steps) {
        Some(rest) => matches_dotted(pattern, rest, steps),
        None => matches_rest(pattern, name, steps),
    }
}

// A pattern and a name. A call that picks its ledger takes no texts themselves.
#[derive(Drop)]
struct Asked<'a> {
    pattern: &'a str,
    name: &'a str,
}

// The same, counted in a ledger of its own.
fn matches_alone<L: Ledger>(asked: &Asked, blank: Blank) -> bool
    requires name { blank.name ≡ L.name }
    requires parts { blank.parts ≡ L.parts }
    requires some { 0 < L.parts }
    ensures { (result ≡ true) ↔ Matches true (chars asked.now.pattern.now) (chars asked.now.name.now) }
{
    let mut steps = Steps::<L>::new(blank);
    matches_in(asked.pattern, asked.name, &mut steps)
}

/// Whether a pattern, one part without slashes, matches a name, as glob(7) has it: `*` goes with any characters, `?` with
/// one, `[..]` with one of a class, `[!..]` with another, a backslash before a character with it; a `[` without its `]`
/// and a backslash at the end are themselves. A first dot of the name goes only with a dot of the pattern.
///
/// It takes no memory, and no more steps than [`matches_in`], which it is.
pub fn matches(pattern: &str, name: &str) -> bool
    ensures { (result ≡ true) ↔ Matches true (chars pattern.now) (chars name.now) }
{
    matches_alone::<Brand>(&Asked { pattern, name }, Blank::new(1))
}
