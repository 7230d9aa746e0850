// The text of a script.
ghost use Rattle.std.specs.Prelude.{◌≡◌, ◌<◌, ℕ, position, IfOk};
ghost use Rattle.std.specs.List.{list_all};
ghost use Rattle.lr_rules.specs.Bytes.{is_blank, is_no_blank};
ghost use Rattle.lr_lex.specs.Lines.{line_at};
ghost use Rattle.lr_lex.specs.Items.{past_blanks, is_end, script};
ghost use Rattle.lr_lex.specs.Scanning.{IsScript};

use crate::item::{Item, LexFault, LexKind};
use crate::place::Place;
use crate::sign::blank;
use crate::split::pass;
use crate::text::{is_text, utf8_text};
use crate::word::Word;
use lr_rules::Memory;
use std::alloc::Global;

fn first_place(line: &[u8]) -> Option<usize>
    ensures { result ≡ position is_no_blank line.now }
{
    line.iter().position(|byte| !blank(*byte))
}

fn skip_blanks<'a>(line: &'a [u8]) -> &'a [u8]
    ensures { result.now ≡ past_blanks line.now }
{
    match first_place(line) {
        Some(at) => &line[at..],
        None => &[],
    }
}

fn all_blank(bytes: &[u8]) -> bool
    ensures { result ≡ list_all is_blank bytes.now }
{
    bytes.iter().all(|byte| blank(*byte))
}

/// Whether a line is `endscript` past blanks.
#[tactic(auto, unfolding(crate::specs::Items::is_end))]
pub fn is_end(line: &[u8]) -> bool
    ensures { (number at : ℕ) → result ≡ is_end (line_at number at line.now) }
{
    let signs = skip_blanks(line);
    if signs.len() < 9 {
        return false;
    }
    let (word, rest) = signs.split_at(9);
    word == b"endscript".as_slice() && all_blank(rest)
}

/// The bytes of the script that begins here, whether it ends, and the place behind it.
pub fn read_script<'a>(from: Place<'a>) -> (&'a [u8], bool, Place<'a>)
    ensures { IsScript from.entry result.0.now result.1 result.2 }
{
    let mut here = from;
    while !here.rest.is_empty() {
        let (line, behind) = pass(&here);
        if is_end(line) {
            let size = from.rest.len() - here.rest.len();
            return (&from.rest[..size], true, behind);
        }
        here = behind;
    }
    (from.rest, false, here)
}

/// The item of a script with this text, or its fault.
pub fn script_item(
    alloc: Global,
    word: Word,
    brace: bool,
    stray: bool,
    text: &[u8],
    ended: bool,
    line: u32,
) -> Result<Result<Item, LexFault>, Memory>
    ensures { IfOk result (λ told. told ≡ script line word brace stray text.now ended) }
{
    let kind = if !is_text(text) {
        LexKind::NotUtf8
    } else if !ended {
        LexKind::NoEndscript
    } else {
        let text = utf8_text(alloc, text)?;
        return Ok(Ok(Item::Script {
            word,
            text,
            brace,
            stray,
            line,
        }));
    };
    Ok(Err(LexFault { line, kind }))
}
