// The files that are made, and to whom they are given.
//
// The file that was made last is held open: only that file gets what is appended to its path and the owner of a copy, whatever
// else gets the path meanwhile. A copy is given away before it gets its first byte: else one that breaks off would be root's, with
// the bytes of another user.
ghost use Rattle.std.specs.Prelude.{◌≤◌, ◌<◌, length, IfOk};

use crate::calls::{Moved, owner_before};
use crate::opened::{Opened, Owner, is_same, named, open_to_append, still_named};
use crate::ways::Ways;
use lr_rules::Path;
use std::fs::{File, OpenOptions, Permissions};
use std::io::{Error, ErrorKind, Write};
use std::os::unix::fs::{MetadataExt, OpenOptionsExt, PermissionsExt, fchown};
use std::rt::Files;
use std::{fs, io};

// The bits of a mode by which a program that is started from the file runs as the file's user and group.
const AS_OWNER: u32 = 0o6000;

/// The last file that was made: its path and mode, and whose the file is that was read first since.
#[derive(Drop)]
pub(crate) struct Made {
    pub(crate) path: Path,
    pub(crate) mode: Option<u32>,
    pub(crate) owner: Option<Owner>,
    pub(crate) opened: Opened,
}

// Gives an open file to this owner, where it isn't theirs, and then this mode, since a change of owner takes bits away.
fn give(file: &File, owner: Option<Owner>, mode: Option<u32>) -> io::Result<()> {
    if let Some(owner) = owner {
        let seen = file.metadata()?;
        if seen.uid() != owner.user || seen.gid() != owner.group {
            fchown(file, Some(owner.user), Some(owner.group))?;
        }
    }
    if let Some(mode) = mode {
        file.set_permissions(Permissions::from_mode(mode))?;
    }
    Ok(())
}

// Takes the name of a file away that is half made, where it is still its name.
fn unmake<R: Files>(rt: &R, at: &str, file: &File) -> io::Result<()> {
    let seen = file.metadata()?;
    if is_same(&seen, &named(rt, at, false)?) {
        fs::remove_file(rt, at)?;
    }
    Ok(())
}

// What the file is, with its owner and mode.
fn given(file: &File, mode: Option<u32>, owner: Option<Owner>) -> io::Result<fs::Metadata> {
    give(file, owner, mode)?;
    file.metadata()
}

// The file with its owner and mode; else its name is gone.
fn finished<R: Files>(
    rt: &R,
    at: &str,
    file: File,
    mode: Option<u32>,
    owner: Option<Owner>,
) -> io::Result<Opened> {
    match given(&file, mode, owner) {
        Ok(seen) => Ok(Opened { file, seen }),
        Err(e) => {
            let _ = unmake(rt, at, &file);
            Err(e)
        }
    }
}

// The mode that a new file may have. As long as it isn't given to an owner it is the run's own, and so it lacks the bits by which
// a program runs as that one. `open` says whether others may change the directory: there the file whose owner it gets may be
// another than the one whose mode is asked for, and it gets such a bit only where that file has it.
fn mode_with(mode: u32, owner: Option<Owner>, open: bool) -> u32 {
    match owner {
        Some(owner) if open => mode & !(AS_OWNER & !owner.mode),
        Some(_) => mode,
        None => mode & !AS_OWNER,
    }
}

// Makes an empty file; None where the path is named. A mode is given at the making, and again behind it, since the process's
// mask cuts the first.
fn make_file<R: Files<File = File>>(
    rt: &R,
    at: &str,
    mode: Option<u32>,
    owner: Option<Owner>,
) -> io::Result<Option<Opened>> {
    let mut options = OpenOptions::new();
    options.append(true).create_new(true);
    if let Some(mode) = mode {
        options.mode(mode & !AS_OWNER);
    }
    match options.open(rt, at) {
        Ok(file) => Ok(Some(finished(rt, at, file, mode, owner)?)),
        Err(e) if e.kind() == ErrorKind::AlreadyExists => Ok(None),
        Err(e) => Err(e),
    }
}

/// Makes an empty file, and gives it to whom the file belonged that had this path before the last rename; None where the path is
/// named. One that can't be given its owner or mode is unlinked.
pub(crate) fn make_new_at<R: Files<File = File> + AllocGlobal>(
    rt: &R,
    ways: &mut Ways,
    moved: &Option<Moved>,
    path: &Path,
    mode: Option<u32>,
) -> io::Result<Option<Made>> {
    let owner = owner_before(rt, ways, moved, path)?;
    let at = ways.place(rt, path)?;
    let kept = path.copy(rt.alloc())?;
    let open = ways.is_held();
    let first = mode.map(|mode| mode_with(mode, owner, open));
    match make_file(rt, at.text(path), first, owner)? {
        Some(opened) => Ok(Some(Made {
            path: kept,
            mode,
            owner: None,
            opened,
        })),
        None => Ok(None),
    }
}

/// Gives the file that was made last to whom the file belongs that is read first since, and its mode: it is a copy of that.
pub(crate) fn give_made(made: &mut Option<Made>, owner: Owner) -> io::Result<()> {
    match made {
        Some(made) if made.owner.is_none() => {
            give(&made.opened.file, Some(owner), made.mode)?;
            made.owner = Some(owner);
            Ok(())
        }
        _ => Ok(()),
    }
}

/// Appends a first part of the piece: to the file that was made last, where it was made by this path, else to what the path
/// itself names.
pub(crate) fn append_made<R: Files<File = File> + AllocGlobal>(
    rt: &R,
    ways: &mut Ways,
    made: &mut Option<Made>,
    path: &Path,
    piece: &[u8],
) -> io::Result<usize>
    ensures bound { IfOk result (λ count. count ≤ length piece.now) }
    ensures some { IfOk result (λ count. 0 < length piece.now → 0 < count) }
{
    let at = ways.place(rt, path)?;
    match made {
        Some(made) if made.path.is(path) => {
            still_named(rt, at.text(path), &made.opened.seen, false)?;
            append(&mut made.opened.file, piece)
        }
        _ => {
            let mut opened = open_to_append(rt, at.text(path), true)?;
            append(&mut opened.file, piece)
        }
    }
}

// So many zeros, a block of most file systems, take no room of the disk in a file that is made longer by them.
const HOLE: usize = 4096;

fn is_hole(piece: &[u8]) -> bool {
    piece.len() >= HOLE && piece.iter().all(|byte| *byte == 0)
}

// Makes a file longer by so many zeros, which aren't written.
fn lengthen(file: &File, count: usize) -> io::Result<()> {
    let length = file.metadata()?.len();
    file.set_len(length.saturating_add(count as u64))
}

// A hole of a log stays one in its copy, where the file system lets it: a writer that keeps its place in a log which is emptied
// behind each copy leaves a larger one each time.
fn append(file: &mut File, piece: &[u8]) -> io::Result<usize>
    ensures bound { IfOk result (λ count. count ≤ length piece.now) }
    ensures some { IfOk result (λ count. 0 < length piece.now → 0 < count) }
{
    if is_hole(piece) && lengthen(file, piece.len()).is_ok() {
        return Ok(piece.len());
    }
    let count = file.write(piece)?;
    if count == 0 && !piece.is_empty() {
        return Err(Error::from(ErrorKind::WriteZero));
    }
    Ok(count)
}

/// Syncs a file. The one that was made last, where it was made by this path, is a copy if another was read since: before, it is
/// given to whom that belongs once more, since a write takes bits of its mode away where the caller isn't root.
pub(crate) fn sync_made<R: Files<File = File> + AllocGlobal>(
    rt: &R,
    ways: &mut Ways,
    made: &Option<Made>,
    path: &Path,
) -> io::Result<()> {
    let at = ways.place(rt, path)?;
    match made {
        Some(made) if made.path.is(path) => {
            still_named(rt, at.text(path), &made.opened.seen, false)?;
            if made.owner.is_some() {
                give(&made.opened.file, made.owner, made.mode)?;
            }
            made.opened.file.sync_all()
        }
        _ => {
            let opened = open_to_append(rt, at.text(path), false)?;
            opened.file.sync_all()
        }
    }
}
