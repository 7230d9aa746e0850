// The modes of files that are made: no report shows them, nor does the disk in memory.
use crate::answers::Answer;
use lr_rows_line::Trouble;
use lr_rows_read::Cursor;
use lr_rules::ConfKind;
use lr_words::{first_mode, mode, names_owner};

// The mode, in decimal, and whether another word stands.
fn put_made(said: Result<Option<u32>, ConfKind>, words: usize, out: &mut Answer) {
    let made = match said {
        Ok(made) => made,
        Err(ConfKind::BadMode) => return out.put("BadMode"),
        Err(_) => return out.put("another fault"),
    };
    match made {
        Some(mode) => out.put(mode),
        None => out.put("-"),
    }
    if names_owner(words, made) {
        out.put(" owner");
    }
}

/// `value mode WORD`, `value create WORD..`: the mode that the words say, or why they say none.
pub fn value(cursor: &mut Cursor, out: &mut Answer) -> Result<(), Trouble> {
    if cursor.takes(b"mode") {
        put_made(mode(cursor.word()?).map(Some), 1, out);
        return Ok(());
    }
    if !cursor.takes(b"create") {
        return Err(Trouble::Odd("no such value"));
    }
    let words = cursor.rest();
    match words.first() {
        Some(word) => put_made(first_mode(word), words.len(), out),
        None => put_made(Ok(None), 0, out),
    }
    Ok(())
}
