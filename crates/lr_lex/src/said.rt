// What a line says by itself.
ghost use Rattle.std.specs.Prelude.{◌≡◌, ◌+◌, ◌<◌, ◌^◌, length, find, slice_get, IfOk, IsUtf8, Some};
ghost use Rattle.lr_rules.specs.Bytes.{is_no_blank};
ghost use Rattle.lr_lex.specs.Lines.{line_at};
ghost use Rattle.lr_lex.specs.Items.{fault, is_name_sign, begins_script, first_begins_script};
ghost use Rattle.lr_lex.specs.Items.{by_words, by_signs, said};
ghost use Rattle.lr_lex.specs.Scanning.{sign_bytes};

use crate::item::{Item, LexFault, LexKind};
use crate::line::{cut_brace, has_brace, is_close_alone, words_of};
use crate::sign::{Sign, blank, signs_of};
use crate::text::is_text;
use crate::word::Word;
use lr_rules::{Listed, Memory};
use std::alloc::Global;

/// A line outside scripts has at most so many bytes.
const LINE_LIMIT: usize = 8192;

/// What a line says by itself.
#[derive(Drop)]
pub enum Said {
    Nothing,
    Item(Item),
    Fault(LexFault),
    Script {
        word: Word,
        brace: bool,
        stray: bool,
    },
}

/// The first byte that is no blank.
fn first_sign(line: &[u8]) -> Option<u8>
    ensures { result ≡ find is_no_blank line.now }
{
    line.iter().copied().find(|byte| !blank(*byte))
}

fn is_name_sign(byte: u8) -> bool
    ensures { result ≡ is_name_sign byte }
{
    byte == b'/' || byte == b'"' || byte == b'\''
}

fn begins_script(text: &[u8]) -> bool
    ensures { result ≡ begins_script text.now }
{
    text == b"prerotate".as_slice()
        || text == b"postrotate".as_slice()
        || text == b"firstaction".as_slice()
        || text == b"lastaction".as_slice()
        || text == b"preremove".as_slice()
}

fn fault(line: u32, kind: LexKind) -> Said
    ensures { result ≡ fault line kind }
{
    Said::Fault(LexFault { line, kind })
}

/// Whether the first word begins a script.
fn is_script(words: &[Word]) -> bool
    ensures { result ≡ first_begins_script words.now }
{
    match words.first() {
        Some(word) => begins_script(word.text.bytes()),
        None => false,
    }
}

/// The first of some words.
fn take_first(words: Listed<Word>) -> Option<Word>
    ensures { result ≡ slice_get words 0 }
{
    let mut words = words.into_vec();
    if words.is_empty() {
        None
    } else {
        Some(words.remove(0))
    }
}

/// The item or the script's word.
fn from_words(words: Listed<Word>, names: bool, brace: bool, stray: bool, line: u32) -> Said
    ensures { result ≡ by_words line names brace stray words }
{
    if !names && is_script(words.as_slice()) {
        let stray = words.len() > 1;
        return match take_first(words) {
            Some(word) => Said::Script { word, brace, stray },
            None => Said::Nothing,
        };
    }
    Said::Item(Item::Line {
        words,
        names,
        brace,
        stray,
        line,
    })
}

fn from_signs(
    alloc: Global,
    signs: &[Sign],
    names: bool,
    at: usize,
    line: u32,
) -> Result<Said, Memory>
    requires place { at + length signs.now < 2 ^ 62 }
    requires utf8 { IsUtf8 (sign_bytes signs.now) }
    ensures { IfOk result (λ found. found ≡ by_signs line at names (Some signs.now)) }
{
    if is_close_alone(signs) {
        return Ok(Said::Item(Item::Close { line }));
    }
    let (signs, brace) = cut_brace(signs);
    let words = words_of(alloc, signs, names, at)?;
    Ok(from_words(words, names, brace, has_brace(signs), line))
}

/// What a line says by itself.
#[tactic(auto, unfolding(crate::specs::Items::said))]
pub fn read_line(alloc: Global, bytes: &[u8], at: usize, line: u32) -> Result<Said, Memory>
    requires { at + length bytes.now < 2 ^ 62 }
    ensures { IfOk result (λ found. found ≡ said (line_at line at bytes.now)) }
{
    if bytes.len() > LINE_LIMIT {
        return Ok(fault(line, LexKind::LineTooLong));
    }
    if !is_text(bytes) {
        return Ok(fault(line, LexKind::NotUtf8));
    }
    let Some(first) = first_sign(bytes) else {
        return Ok(Said::Nothing);
    };
    if first == b'#' {
        return Ok(Said::Nothing);
    }
    let names = is_name_sign(first);
    match signs_of(alloc, bytes, names)? {
        None => Ok(fault(line, LexKind::OpenQuote)),
        Some(signs) => from_signs(alloc, signs.as_slice(), names, at, line),
    }
}
