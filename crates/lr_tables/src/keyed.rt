// A table of words, and the row of a word.
ghost use Rattle.std.specs.Prelude.{◌≡◌, ◌+◌, ◌<◌, ◌≤◌, ◌^◌, ℕ, IfSome, IfNone, OnSome, IsTrue, length};
ghost use Rattle.std.specs.Cmp.Lexicographic.{slice_cmp};
ghost use Rattle.std.specs.Ordering.{nat_cmp};
ghost use Rattle.lr_tables.specs.Table.{IsRowOf, words, rising};

use crate::directive::Directive;
use lr_rules::Steps;
use std::cmp::Ordering;
use std::sync::ledger::Ledger;

/// A directive's word, and the directive that it sets back to its default, where it does so.
#[derive(Clone, Copy)]
pub struct Row {
    pub word: &'static [u8],
    pub directive: Directive,
    pub undoes: Option<Directive>,
}

/// Rows whose words are distinct and rise in the order of their bytes. They stand in the program, and are lent: the model
/// of a function that holds 67 rows itself is 30 times as long.
#[derive(Drop)]
pub struct Keyed<const N: usize> {
    pub rows: &'static [Row; N],
    pub ghost rising: { IsTrue (rising (words rows.now)) },
}

// The borrow checker covers a method over rows that hold references at a numeral alone: so the search is over a slice
// of any length, and this block names the number of the directives.
impl Keyed<67> {
    /// The number of the row that has the word. Each comparison of two words is one step; no memory is taken.
    pub fn row_of<L: Ledger>(&self, word: &[u8], steps: &mut Steps<L>) -> Option<usize>
        ensures found { IfSome result (λ i. IsRowOf self.now.rows.now word.now i) }
        ensures none { IfNone result ((i : ℕ) → IsRowOf self.now.rows.now word.now i → ⊥) }
        ensures few { (d : ℕ) → 67 < 2 ^ d → steps.new ≤ steps.old + d + 1 }
        ensures counted { OnSome result (steps.old < steps.new) }
        ensures onward { steps.old ≤ steps.new }
    {
        let rows = self.rows;
        place(rows, word, steps)
    }
}

/// The place of the word among rows whose words rise.
fn place<L: Ledger>(rows: &[Row], word: &[u8], steps: &mut Steps<L>) -> Option<usize>
    requires { IsTrue (rising (words rows.now)) }
    ensures found { IfSome result (λ i. IsRowOf rows.now word.now i) }
    ensures none { IfNone result ((i : ℕ) → IsRowOf rows.now word.now i → ⊥) }
    ensures few { (d : ℕ) → length rows.now < 2 ^ d → steps.new ≤ steps.old + d + 1 }
    ensures counted { OnSome result (steps.old < steps.new) }
    ensures onward { steps.old ≤ steps.new }
{
    let mut low = 0;
    let mut high = rows.len();
    while low < high {
        let middle = low + (high - low) / 2;
        match compare(rows[middle].word, word, steps) {
            Ordering::Less => low = middle + 1,
            Ordering::Equal => return Some(middle),
            Ordering::Greater => high = middle,
        }
    }
    None
}

/// Compares two words by their bytes, which is one step. The search has no other way to compare.
fn compare<L: Ledger>(a: &[u8], b: &[u8], steps: &mut Steps<L>) -> Ordering
    ensures order { result ≡ slice_cmp nat_cmp a.now b.now }
    ensures counted { steps.new ≡ steps.old + 1 }
{
    steps.tick();
    a.cmp(b)
}
