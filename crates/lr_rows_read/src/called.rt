// A call of the host, by its kind and path.
use crate::cursor::Cursor;
use crate::row::{Called, Span};
use lr_rows_line::Trouble;

static KINDS: [&[u8]; 13] = [
    b"begin",
    b"look",
    b"list",
    b"read",
    b"rename",
    b"make",
    b"append",
    b"truncate",
    b"unlink",
    b"sync-file",
    b"sync-dir",
    b"make-dir",
    b"run",
];

fn is_kind(word: &[u8]) -> bool {
    for kind in &KINDS {
        if *kind == word {
            return true;
        }
    }
    false
}

fn put_path(into: &mut Vec<u8>, path: &[u8]) -> Result<(), Trouble> {
    into.push(b' ')?;
    Ok(into.extend_from_slice(path)?)
}

// Adds a kind and a path; the end of a run has none.
fn put_call(into: &mut Vec<u8>, cursor: &mut Cursor) -> Result<(), Trouble> {
    let kind = cursor.word()?;
    into.extend_from_slice(kind)?;
    if kind == b"end".as_slice() {
        Ok(())
    } else if is_kind(kind) {
        put_path(into, cursor.word()?)
    } else {
        Err(Trouble::Odd("no such kind of call"))
    }
}

/// Takes a kind, a path and maybe a number.
pub fn called(cursor: &mut Cursor) -> Result<Called, Trouble> {
    let mut text = Vec::new(cursor.alloc);
    put_call(&mut text, cursor)?;
    let number = cursor.number_or(1);
    Ok(Called { text, number })
}

/// Takes a call behind this word, where the word comes.
pub fn called_behind(cursor: &mut Cursor, word: &[u8]) -> Result<Option<Called>, Trouble> {
    if cursor.takes(word) {
        Ok(Some(called(cursor)?))
    } else {
        Ok(None)
    }
}

/// Takes the calls that a mode is for.
pub fn span(cursor: &mut Cursor) -> Result<Span, Trouble> {
    let from = called_behind(cursor, b"from")?;
    let to = called_behind(cursor, b"to")?;
    Ok(Span { from, to })
}
