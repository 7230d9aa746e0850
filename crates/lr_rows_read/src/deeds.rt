// The lines of what is done before a call.
use crate::called::{called, called_behind};
use crate::cursor::Cursor;
use crate::draft::Draft;
use crate::key::DeedKey;
use crate::row::{Called, Cut, Deed, Mishap, What};
use lr_rows_line::Trouble;
use lr_rules::Path;

fn part(cursor: &mut Cursor) -> Result<Mishap, Trouble> {
    if cursor.takes(b"part") {
        Ok(Mishap::Part(cursor.number()? as usize))
    } else {
        Err(Trouble::Odd("no such way to fail"))
    }
}

fn mishap(cursor: &mut Cursor) -> Result<Mishap, Trouble> {
    if cursor.takes(b"without-effect") {
        Ok(Mishap::WithoutEffect)
    } else if cursor.takes(b"with-effect") {
        Ok(Mishap::WithEffect)
    } else if cursor.takes(b"stop") {
        Ok(Mishap::Stop)
    } else {
        part(cursor)
    }
}

fn attaches(cursor: &mut Cursor) -> Result<What, Trouble> {
    let writer = cursor.small()?;
    Ok(What::Attaches(writer, cursor.path()?))
}

fn feeds(cursor: &mut Cursor) -> Result<What, Trouble> {
    let writer = cursor.small()?;
    Ok(What::Feeds(writer, cursor.bytes()?))
}

fn makes_anew(cursor: &mut Cursor) -> Result<What, Trouble> {
    let writer = cursor.small()?;
    let path = cursor.path()?;
    Ok(What::MakesAnew(writer, path, cursor.bytes()?))
}

fn add_place(kept: &mut Vec<usize>, cursor: &mut Cursor) -> Result<(), Trouble> {
    let place = cursor.number()? as usize;
    kept.push(place)?;
    Ok(())
}

fn add_places(kept: &mut Vec<usize>, cursor: &mut Cursor) -> Result<(), Trouble> {
    for _ in 0..cursor.words.len() {
        if !cursor.is_done() && !cursor.is_next(b"lengths") {
            add_place(kept, cursor)?;
        }
    }
    Ok(())
}

fn places(cursor: &mut Cursor) -> Result<Vec<usize>, Trouble> {
    let mut kept = Vec::new(cursor.alloc);
    if cursor.takes(b"kept") {
        add_places(&mut kept, cursor)?;
    }
    Ok(kept)
}

fn add_length(lengths: &mut Vec<(Path, u64)>, cursor: &mut Cursor) -> Result<(), Trouble> {
    let path = cursor.path()?;
    let length = cursor.number()?;
    lengths.push((path, length))?;
    Ok(())
}

fn add_lengths(lengths: &mut Vec<(Path, u64)>, cursor: &mut Cursor) -> Result<(), Trouble> {
    for _ in 0..cursor.words.len() {
        if !cursor.is_done() {
            add_length(lengths, cursor)?;
        }
    }
    Ok(())
}

fn lengths(cursor: &mut Cursor) -> Result<Vec<(Path, u64)>, Trouble> {
    let mut lengths = Vec::new(cursor.alloc);
    if cursor.takes(b"lengths") {
        add_lengths(&mut lengths, cursor)?;
    }
    Ok(lengths)
}

fn cuts(cursor: &mut Cursor, is_allowed: bool) -> Result<What, Trouble> {
    let kept = places(cursor)?;
    let lengths = lengths(cursor)?;
    Ok(What::Cuts(Cut {
        kept,
        lengths,
        is_allowed,
    }))
}

// What the line does to the host.
fn what(key: DeedKey, cursor: &mut Cursor) -> Result<What, Trouble> {
    match key {
        DeedKey::Fail => Ok(What::Fails(mishap(cursor)?)),
        DeedKey::Attach => attaches(cursor),
        DeedKey::Feed => feeds(cursor),
        DeedKey::Flush => Ok(What::Flushes(cursor.small()?)),
        DeedKey::Detach => Ok(What::Detaches(cursor.small()?)),
        DeedKey::Anew => makes_anew(cursor),
        DeedKey::Lock => Ok(What::Holds(true)),
        DeedKey::Unlock => Ok(What::Holds(false)),
        DeedKey::Revive => Ok(What::Revives),
        DeedKey::Cut => cuts(cursor, true),
        DeedKey::NoCut => cuts(cursor, false),
    }
}

// The call that fails, which stands before how it does.
fn failing(key: DeedKey, cursor: &mut Cursor) -> Result<Option<Called>, Trouble> {
    match key {
        DeedKey::Fail => Ok(Some(called(cursor)?)),
        _ => Ok(None),
    }
}

// The call that a writer acts before, which stands behind what it does.
fn awaited(key: DeedKey, cursor: &mut Cursor) -> Result<Option<Called>, Trouble> {
    match key {
        DeedKey::Attach | DeedKey::Feed | DeedKey::Flush | DeedKey::Detach => {
            called_behind(cursor, b"before")
        }
        _ => Ok(None),
    }
}

fn deed_of(key: DeedKey, cursor: &mut Cursor, line: u32) -> Result<Deed, Trouble> {
    let failing = failing(key, cursor)?;
    let what = what(key, cursor)?;
    let awaited = awaited(key, cursor)?;
    Ok(Deed {
        line,
        called: failing.or(awaited),
        what,
    })
}

impl Draft {
    /// Takes a line of what is done before the next call.
    pub fn take_deed(
        &mut self,
        key: DeedKey,
        cursor: &mut Cursor,
        line: u32,
    ) -> Result<(), Trouble> {
        let deed = deed_of(key, cursor, line)?;
        self.deeds.push(deed)?;
        Ok(())
    }
}
