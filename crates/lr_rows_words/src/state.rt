// State texts: what is written for the table that is read.
ghost use Rattle.std.specs.Prelude.{◌≡◌};
ghost use Rattle.lr_state.specs.Table.{is_name};

use crate::answers::{Answer, shown};
use crate::moment::{civil, put_civil};
use lr_rows_line::Trouble;
use lr_rows_read::Cursor;
use lr_rules::{Civil, StateKind, has_bad_byte, is_utf8};
use lr_state::{Reader, State, StateStop, first_line};

fn put_lines(state: &State, out: &mut Answer) {
    let mut room = [0u8; 8448];
    for k in 0..state.len() {
        let count = state.line(k, &mut room);
        out.put(shown(room.get(..count).unwrap_or(b"")));
    }
}

fn put_bad(line: u32, kind: StateKind, out: &mut Answer) {
    let kind = match kind {
        StateKind::TooBig => "TooBig",
        StateKind::BadTop => "BadTop",
        StateKind::BadName => "BadName",
        StateKind::BadDate => "BadDate",
        StateKind::Twice => "Twice",
    };
    out.put(format_args!("{line}: {kind}"));
}

fn put_read(read: Result<State, StateStop>, out: &mut Answer) {
    match read {
        Ok(state) => put_lines(&state, out),
        Err(StateStop::Bad(line, kind)) => put_bad(line, kind, out),
        Err(StateStop::Memory) => out.starve(),
    }
}

// The bytes of the words that are left, joined.
fn read_text(cursor: &mut Cursor) -> Result<Vec<u8>, Trouble> {
    let mut text = Vec::new(cursor.alloc);
    for part in cursor.rest() {
        text.extend_from_slice(part)?;
    }
    Ok(text)
}

/// `state PART..`: the lines of the text's table, or its first fault.
pub fn state(cursor: &mut Cursor, out: &mut Answer) -> Result<(), Trouble> {
    let text = read_text(cursor)?;
    put_read(State::read(cursor.alloc, &text), out);
    Ok(())
}

fn give_all(reader: &mut Reader, text: &[u8], size: usize) -> Result<(), Trouble> {
    if size == 0 {
        return Err(Trouble::Odd("pieces of one byte or more are wanted"));
    }
    for piece in text.chunks(size) {
        reader.give(piece)?;
    }
    Ok(())
}

/// `pieces SIZE PART..`: the same of a text that comes in pieces of so many bytes.
pub fn pieces(cursor: &mut Cursor, out: &mut Answer) -> Result<(), Trouble> {
    let size = cursor.small()? as usize;
    let text = read_text(cursor)?;
    let mut reader = Reader::new(cursor.alloc);
    give_all(&mut reader, &text, size)?;
    put_read(reader.finish(), out);
    Ok(())
}

// The table of the text of the words that are left.
fn table(cursor: &mut Cursor) -> Result<State, Trouble> {
    let text = read_text(cursor)?;
    match State::read(cursor.alloc, &text) {
        Ok(state) => Ok(state),
        Err(_) => Err(Trouble::Odd("a state text is wanted")),
    }
}

/// `moment NAME PART..`: the moment of the name in the table of the text, or `none`.
pub fn moment_of(cursor: &mut Cursor, out: &mut Answer) -> Result<(), Trouble> {
    let name = cursor.word()?;
    let state = table(cursor)?;
    match state.get(name) {
        Some(moment) => put_civil(&moment, out),
        None => out.put("none"),
    }
    drop(state);
    Ok(())
}

// Whether a table may have the name.
#[tactic(auto, unfolding(lr_state::specs::Table::is_name))]
fn is_name(name: &[u8]) -> bool
    ensures { result ≡ is_name name.now }
{
    let text = is_utf8(name);
    let bad = has_bad_byte(name);
    !name.is_empty() && name.len() <= 4096 && text && !bad
}

fn set_one(state: &mut State, name: &[u8], at: Civil) -> Result<(), Trouble> {
    if !is_name(name) {
        return Err(Trouble::Odd("a name is wanted"));
    }
    state.set(name, at)?;
    Ok(())
}

// Sets each name to the moment behind it.
fn set_all(state: &mut State, cursor: &mut Cursor) -> Result<(), Trouble> {
    for _ in 0..cursor.words.len() {
        if cursor.is_done() {
            return Ok(());
        }
        let name = cursor.word()?;
        set_one(state, name, civil(cursor)?)?;
    }
    Ok(())
}

// The whole text of the table, which is as long as the table says.
fn put_whole(state: &State, out: &mut Answer) {
    out.put(shown(first_line()));
    put_lines(state, out);
    if out.text().len() as u64 != state.text_len() {
        out.put("another length");
    }
}

/// `set [NAME MOMENT]..`: what is written for a table in which each name was set to the moment behind it, in this order.
pub fn set(cursor: &mut Cursor, out: &mut Answer) -> Result<(), Trouble> {
    let mut state = State::new(cursor.alloc);
    let set = set_all(&mut state, cursor);
    if set.is_ok() {
        put_whole(&state, out);
    }
    drop(state);
    set
}

fn purge_all(state: &mut State, used: &[u8], now: &Civil) {
    state.purge(|name: &[u8]| -> bool { name == used }, now);
}

/// `purge USED NOW PART..`: the lines of the text's table, behind the purge at the moment, where only the name is used.
pub fn purge(cursor: &mut Cursor, out: &mut Answer) -> Result<(), Trouble> {
    let used = cursor.word()?;
    let now = civil(cursor)?;
    let mut state = table(cursor)?;
    purge_all(&mut state, used, &now);
    put_lines(&state, out);
    drop(state);
    Ok(())
}
