// The table of directives.
ghost use Rattle.std.specs.Prelude.{◌≡◌, ◌<◌};

use crate::answers::{Answer, shown};
use lr_rows_line::Trouble;
use lr_rows_read::Cursor;
use lr_rules::Steps;
use lr_tables::{Directive, Row, directives};
use std::marker::Brand;
use std::sync::ledger::{Blank, Ledger};

// The number of the word's row, counted in a ledger of its own.
fn row_at<L: Ledger>(word: &[u8], blank: Blank) -> Option<usize>
    requires name { blank.name ≡ L.name }
    requires parts { blank.parts ≡ L.parts }
    requires some { 0 < L.parts }
{
    let mut steps = Steps::<L>::new(blank);
    directives().row_of(word, &mut steps)
}

/// `row-of WORD`: the number of the row that has the word, counted from 0.
pub fn row_of(cursor: &mut Cursor, out: &mut Answer) -> Result<(), Trouble> {
    let place = row_at::<Brand>(cursor.word()?, Blank::new(1));
    match place {
        Some(place) => out.put(place),
        None => out.put("none"),
    }
    Ok(())
}

// The directives that the table of rows asks for.
fn name_of(directive: Directive) -> &'static str {
    match directive {
        Directive::Addextension => "Addextension",
        Directive::Copy => "Copy",
        Directive::Dateserial => "Dateserial",
        Directive::Ifempty => "Ifempty",
        Directive::Mailfirst => "Mailfirst",
        Directive::Maillast => "Maillast",
        Directive::Nocopy => "Nocopy",
        Directive::Nodateserial => "Nodateserial",
        Directive::Notifempty => "Notifempty",
        Directive::Rotate => "Rotate",
        Directive::Weekly => "Weekly",
        Directive::Yearly => "Yearly",
        _ => "another",
    }
}

fn put_row(row: &Row, out: &mut Answer) {
    let word = shown(row.word);
    let name = name_of(row.directive);
    out.put(format_args!("{word} {name}"));
    if let Some(undone) = row.undoes {
        let name = name_of(undone);
        out.put(format_args!(" undoes {name}"));
    }
}

/// `row NUMBER`: its word, its directive, and the directive that it undoes; `none` behind the last.
pub fn row(cursor: &mut Cursor, out: &mut Answer) -> Result<(), Trouble> {
    let place = cursor.small()? as usize;
    let rows = directives().rows;
    match rows.get(place) {
        Some(row) => put_row(row, out),
        None => out.put("none"),
    }
    Ok(())
}
