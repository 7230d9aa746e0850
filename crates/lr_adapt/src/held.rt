// The file that is read piece by piece, which is held open between the calls, so that each piece needs one look at its path and
// no opening, and so that what is emptied at the end is what was read.
ghost use Rattle.std.specs.Prelude.{◌≤◌, length, IfOk};

use crate::opened::{
    Opened, Owner, is_same, named, open_to_cut, open_to_read, owner_of, still_named, want_same,
};
use crate::ways::Ways;
use lr_rules::Path;
use std::fs::File;
use std::io;
use std::io::Error;
use std::os::unix::fs::FileExt;
use std::rt::Files;

/// An open file, the path by which it was opened, and what it was then. While it is open no other file gets its number.
#[derive(Drop)]
pub(crate) struct Held {
    path: Path,
    opened: Opened,
}

// Whether the path is held, and names the held file now. Another file that got the path isn't read on from its middle.
fn names_held<R: Files>(
    rt: &R,
    held: &Option<Held>,
    path: &Path,
    at: &str,
    from: u64,
) -> io::Result<bool> {
    match held {
        Some(held) if held.path.is(path) => {
            let now = named(rt, at, false)?;
            if from > 0 {
                want_same(&held.opened.seen, &now)?;
            }
            Ok(is_same(&held.opened.seen, &now))
        }
        _ => Ok(false),
    }
}

// Holds the file that is to be read by this path, which the system finds by the text `at`.
fn hold_to_read<R: Files<File = File> + AllocGlobal>(
    rt: &R,
    held: &mut Option<Held>,
    path: &Path,
    at: &str,
    sole: bool,
    from: u64,
) -> io::Result<()> {
    if !names_held(rt, held, path, at, from)? {
        *held = None;
        let kept = path.copy(rt.alloc())?;
        let opened = open_to_read(rt, at, sole)?;
        *held = Some(Held { path: kept, opened });
    }
    Ok(())
}

/// Bytes of a file from a place on, and whose it is. Where `sole` holds, one of several names isn't read.
pub(crate) fn read_held<R: Files<File = File> + AllocGlobal>(
    rt: &R,
    ways: &mut Ways,
    held: &mut Option<Held>,
    path: &Path,
    sole: bool,
    from: u64,
    into: &mut [u8],
) -> io::Result<(usize, Owner)>
    ensures { IfOk result (λ got. got.0 ≤ length into.new) }
{
    let at = ways.place(rt, path)?;
    hold_to_read(rt, held, path, at.text(path), sole, from)?;
    match held {
        Some(held) => {
            let count = held.opened.file.read_at(into, from)?;
            Ok((count, owner_of(&held.opened.seen)))
        }
        None => Err(Error::other("no file is held")),
    }
}

/// Empties a file. One that was read just before has to be the same: bytes that nobody copied aren't lost.
pub(crate) fn truncate_held<R: Files<File = File> + AllocGlobal>(
    rt: &R,
    ways: &mut Ways,
    held: &Option<Held>,
    path: &Path,
) -> io::Result<()> {
    let at = ways.place(rt, path)?;
    match held {
        Some(held) if held.path.is(path) => {
            still_named(rt, at.text(path), &held.opened.seen, true)?;
            held.opened.file.set_len(0)
        }
        _ => {
            let opened = open_to_cut(rt, at.text(path))?;
            opened.file.set_len(0)
        }
    }
}
