// Cuts of the machine, and the cases of them that the table has.
use crate::answer::said;
use lr_memhost::{CutFault, MemHost};
use lr_rows_line::Trouble;
use lr_rows_read::Cursor;
use lr_tables::{CutCase, cut_cases};

// The places up to the word `lengths`.
fn places(cursor: &mut Cursor) -> Result<Vec<usize>, Trouble> {
    let mut places = Vec::new(cursor.alloc);
    if cursor.takes(b"kept") {
        for _ in cursor.taken..cursor.words.len() {
            if !cursor.is_next(b"lengths") && !cursor.is_done() {
                places.push(cursor.number()? as usize)?;
            }
        }
    }
    Ok(places)
}

// Files by their places in the opening, and the length of each.
fn lengths(cursor: &mut Cursor) -> Result<Vec<(u64, u64)>, Trouble> {
    let mut lengths = Vec::new(cursor.alloc);
    if cursor.takes(b"lengths") {
        for _ in cursor.taken..cursor.words.len() {
            if !cursor.is_done() {
                let file = cursor.number()?;
                lengths.push((file, cursor.number()?))?;
            }
        }
    }
    Ok(lengths)
}

/// `cut [kept PLACE..] [lengths FILE LENGTH..]`: the machine stops, and keeps these pending changes, the oldest of which has
/// place 0; `done`, or `not allowed`.
pub fn cut(host: &mut MemHost, cursor: &mut Cursor) -> Result<Vec<u8>, Trouble> {
    let kept = places(cursor)?;
    let lengths = lengths(cursor)?;
    match host.cut(&kept, &lengths) {
        Ok(()) => said(cursor.alloc, "done"),
        Err(CutFault::NotAllowed) => said(cursor.alloc, "not allowed"),
        Err(CutFault::Memory) => Err(Trouble::Memory),
    }
}

/// `cut-case N`: what the case with this number says, counted from 0; the row makes the case, and cuts.
pub fn cut_case(cursor: &mut Cursor) -> Result<Vec<u8>, Trouble> {
    let number = cursor.number()?;
    let cases = cut_cases();
    let Some(case) = cases.rows.get(number as usize) else {
        return Err(Trouble::Odd("no such case"));
    };
    let CutCase {
        changes,
        kept,
        synced,
        length,
        to,
        allowed,
    } = *case;
    let word = if allowed { "allowed" } else { "not allowed" };
    let text = format!(in cursor.alloc; "{changes} {kept} {synced} {length} {to} {word}")?;
    said(cursor.alloc, text.as_str())
}
