// The directive of a word.
ghost use Rattle.std.specs.Prelude.{◌≡◌, ◌<◌};
ghost use Rattle.lr_forms.specs.Says.{directive_of};

use lr_rules::Steps;
use lr_tables::{Directive, directives};
use std::marker::Brand;
use std::sync::ledger::{Blank, Ledger};

fn find_row<L: Ledger>(word: &[u8], blank: Blank) -> Option<Directive>
    requires name { blank.name ≡ L.name }
    requires parts { blank.parts ≡ L.parts }
    requires some { 0 < L.parts }
    ensures { result ≡ directive_of word.now }
{
    let table = directives();
    let mut steps = Steps::<L>::new(blank);
    match table.row_of(word, &mut steps) {
        Some(place) => Some(table.rows[place].directive),
        None => None,
    }
}

/// The directive with this word, if there is one.
pub fn directive_of(word: &[u8]) -> Option<Directive>
    ensures { result ≡ directive_of word.now }
{
    find_row::<Brand>(word, Blank::new(1))
}
