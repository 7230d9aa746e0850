// Paths and texts.
use crate::answers::{Answer, yes};
use lr_rows_line::Trouble;
use lr_rows_read::Cursor;
use lr_rules::{Path, PathFault, Text, TextFault};

fn put_path(made: Result<Path, PathFault>, out: &mut Answer) {
    match made {
        Ok(path) => out.put(path.as_str()),
        Err(fault) => out.put(fault),
    }
}

/// `path BYTES`: the path of the bytes.
pub fn path(cursor: &mut Cursor, out: &mut Answer) -> Result<(), Trouble> {
    put_path(Path::new(cursor.alloc, cursor.word()?), out);
    Ok(())
}

/// `word HERE WORD`: the path that the word names from there on.
pub fn word(cursor: &mut Cursor, out: &mut Answer) -> Result<(), Trouble> {
    let here = cursor.path()?;
    put_path(Path::from_word(cursor.alloc, &here, cursor.word()?), out);
    Ok(())
}

/// `parent PATH`: its directory.
pub fn parent(cursor: &mut Cursor, out: &mut Answer) -> Result<(), Trouble> {
    let path = cursor.path()?;
    let parent = path.parent(cursor.alloc)?;
    out.put(parent.as_str());
    Ok(())
}

/// `last PATH`: its last part, as a text, where its bytes are the same.
pub fn last(cursor: &mut Cursor, out: &mut Answer) -> Result<(), Trouble> {
    let path = cursor.path()?;
    let last = path.last_text(cursor.alloc)?;
    if last.bytes() == path.last() {
        out.put(last.as_str());
    }
    Ok(())
}

/// `join DIR NAME`: what stands under the name in the directory.
pub fn join(cursor: &mut Cursor, out: &mut Answer) -> Result<(), Trouble> {
    let path = cursor.path()?;
    put_path(path.join(cursor.alloc, cursor.word()?), out);
    Ok(())
}

/// `same PATH OTHER`: whether a copy of the first is the other, and whether it has its bytes.
pub fn same(cursor: &mut Cursor, out: &mut Answer) -> Result<(), Trouble> {
    let path = cursor.path()?;
    let other = cursor.path()?;
    let copy = path.copy(cursor.alloc)?;
    let is_one = yes(copy.is(&other));
    let has_bytes = yes(copy.has_bytes(other.bytes()));
    out.put(format_args!("{is_one} {has_bytes}"));
    Ok(())
}

/// `utf8 BYTES`: a copy of the text of the bytes.
pub fn utf8(cursor: &mut Cursor, out: &mut Answer) -> Result<(), Trouble> {
    match Text::new(cursor.alloc, cursor.word()?) {
        Ok(text) => out.put(text.copy(cursor.alloc)?.as_str()),
        Err(fault) => out.put(fault),
    }
    Ok(())
}

/// `starved`: the words for want of memory.
pub fn starved(out: &mut Answer) -> Result<(), Trouble> {
    out.put(PathFault::Memory);
    out.put(" ");
    out.put(TextFault::Memory);
    Ok(())
}
