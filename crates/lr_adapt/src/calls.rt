// The calls of the system that the real host makes.
ghost use Rattle.std.specs.Prelude.{◌≡◌, ◌≤◌, IfOk, length, take};

use crate::opened::{
    Opened, Owner, is_exposed, open_followed, open_lock, open_lock_to_read, open_to_read, owner_of,
    want_own,
};
use crate::ways::{Ways, parted};
use lr_host::{Kind, Seen};
use lr_rules::{Ended, Path, Text, TextFault};
use std::alloc::{AllocError, Global};
use std::fs::{DirEntry, File, Metadata, TryLockError};
use std::io::ErrorKind;
use std::os::unix::fs::{FileExt, MetadataExt};
use std::process::{Command, Processes};
use std::rt::Files;
use std::{fs, io};

fn kind_of(seen: &fs::Metadata) -> Kind {
    if seen.is_file() {
        Kind::File
    } else if seen.is_dir() {
        Kind::Dir
    } else {
        Kind::Other
    }
}

// What the path names. With links followed its text serves: what isn't to be followed is opened otherwise.
fn seen_at<R: Files<File = File> + AllocGlobal>(
    rt: &R,
    ways: &mut Ways,
    path: &Path,
    follow: bool,
) -> io::Result<Metadata> {
    if follow {
        return fs::metadata(rt, path.as_str());
    }
    let at = ways.place(rt, path)?;
    fs::symlink_metadata(rt, at.text(path))
}

/// What stands at the path. Nothing is there where a part of the path is missing or no directory.
pub(crate) fn look_at<R: Files<File = File> + AllocGlobal>(
    rt: &R,
    ways: &mut Ways,
    path: &Path,
    follow: bool,
) -> io::Result<Option<Seen>> {
    match seen_at(rt, ways, path, follow) {
        Ok(seen) => Ok(Some(Seen {
            kind: kind_of(&seen),
            size: seen.len(),
            mtime: seen.mtime(),
            mode: Some(seen.mode() & 0o7777),
            exposed: is_exposed(&seen, ways.caller()),
        })),
        Err(e) if e.kind() == ErrorKind::NotFound || e.kind() == ErrorKind::NotADirectory => {
            Ok(None)
        }
        Err(e) => Err(e),
    }
}

/// Whether others may write what a look saw.
pub(crate) fn saw_exposed(got: &io::Result<Option<Seen>>) -> bool {
    match got {
        Ok(Some(seen)) => seen.exposed,
        _ => false,
    }
}

/// Adds the names in the directory, where it is found.
pub(crate) fn names_at<R: Files<File = File> + AllocGlobal>(
    rt: &R,
    ways: &mut Ways,
    alloc: Global,
    dir: &Path,
    names: &mut Vec<Text>,
) -> io::Result<()>
    ensures { take (length names.old.items) names.new.items ≡ names.old.items }
{
    let at = ways.place_dir(rt, dir)?;
    names_in(rt, alloc, at.as_str(), names)
}

// Adds the names in the directory that are texts without a newline; any other name is passed over.
fn names_in<R: Files>(rt: &R, alloc: Global, dir: &str, names: &mut Vec<Text>) -> io::Result<()>
    ensures { take (length names.old.items) names.new.items ≡ names.old.items }
{
    for entry in fs::read_dir(&(rt, alloc), dir)? {
        add_entry(alloc, entry, names)?;
    }
    Ok(())
}

// Adds the name of one entry of a listing.
fn add_entry<F: Files + Drop>(
    alloc: Global,
    entry: io::Result<DirEntry<F>>,
    names: &mut Vec<Text>,
) -> io::Result<()>
    ensures kept { take (length names.old.items) names.new.items ≡ names.old.items }
    ensures longer { length names.old.items ≤ length names.new.items }
{
    match entry {
        Ok(entry) => add_name(alloc, entry.file_name(), names),
        Err(e) => pass_over(e),
    }
}

// A name that is no name of the system is passed over; any other error is one of the listing.
fn pass_over(e: io::Error) -> io::Result<()> {
    if e.kind() == ErrorKind::InvalidFilename {
        Ok(())
    } else {
        Err(e)
    }
}

fn add_name(alloc: Global, name: &str, names: &mut Vec<Text>) -> io::Result<()>
    ensures kept { take (length names.old.items) names.new.items ≡ names.old.items }
    ensures longer { length names.old.items ≤ length names.new.items }
{
    if name.contains('\n') {
        return Ok(());
    }
    match Text::new(alloc, name.as_bytes()) {
        Ok(name) => {
            names.push(name).map_err(AllocError::from)?;
            Ok(())
        }
        Err(TextFault::NotUtf8) => Ok(()),
        Err(TextFault::Memory) => Err(io::Error::from(ErrorKind::OutOfMemory)),
    }
}

/// Bytes of a file from a place on, with the links in its path followed. Who may change a directory may put another file in the
/// place of one that was looked at: so one that others may write is read only where the look saw one (`exposed`).
pub(crate) fn read_followed<R: Files<File = File>>(
    rt: &R,
    caller: u32,
    path: &str,
    exposed: bool,
    from: u64,
    into: &mut [u8],
) -> io::Result<usize>
    ensures { IfOk result (λ count. count ≤ length into.new) }
{
    let opened = open_followed(rt, path)?;
    if !exposed {
        want_own(&opened, caller)?;
    }
    opened.file.read_at(into, from)
}

/// The last file that was renamed: its two paths, and whose it is, where it left its directory.
#[derive(Drop)]
pub(crate) struct Moved {
    from: Path,
    to: Path,
    owner: Option<Owner>,
}

// Whether both paths stand in one directory, by its text.
fn are_beside(one: &Path, other: &Path) -> bool {
    let (dir, _) = parted(one.as_str());
    let (other_dir, _) = parted(other.as_str());
    dir == other_dir
}

// Whose a file is that leaves its directory. Who may change the one that it comes to may be another user than who may change
// this one: so it is asked before.
fn leaving<R: Files>(rt: &R, here: &str, from: &Path, to: &Path) -> io::Result<Option<Owner>> {
    if are_beside(from, to) {
        return Ok(None);
    }
    let seen = fs::symlink_metadata(rt, here)?;
    Ok(Some(owner_of(&seen)))
}

fn rename_texts<R: Files<File = File> + AllocGlobal>(
    rt: &R,
    ways: &mut Ways,
    from: &Path,
    to: &Path,
) -> io::Result<Option<Owner>> {
    let here = ways.place(rt, from)?;
    let there = ways.place(rt, to)?;
    let here = here.text(from);
    let owner = leaving(rt, here, from, to)?;
    fs::rename(rt, here, there.text(to))?;
    Ok(owner)
}

/// Renames a file. There is room for what is noted before it is done.
pub(crate) fn rename_at<R: Files<File = File> + AllocGlobal>(
    rt: &R,
    ways: &mut Ways,
    from: &Path,
    to: &Path,
) -> io::Result<Moved> {
    let kept = from.copy(rt.alloc())?;
    let kept_to = to.copy(rt.alloc())?;
    let owner = rename_texts(rt, ways, from, to)?;
    Ok(Moved {
        from: kept,
        to: kept_to,
        owner,
    })
}

// Whose the file is that has this path now; nobody's where none has.
fn owner_at<R: Files<File = File> + AllocGlobal>(
    rt: &R,
    ways: &mut Ways,
    path: &Path,
) -> io::Result<Option<Owner>> {
    let at = ways.place(rt, path)?;
    match fs::symlink_metadata(rt, at.text(path)) {
        Ok(seen) => Ok(Some(owner_of(&seen))),
        Err(e) if e.kind() == ErrorKind::NotFound => Ok(None),
        Err(e) => Err(e),
    }
}

/// Whose the file was that had this path before the last rename. One that stayed in its directory is asked for there: who may
/// change that could as well have changed it before.
pub(crate) fn owner_before<R: Files<File = File> + AllocGlobal>(
    rt: &R,
    ways: &mut Ways,
    moved: &Option<Moved>,
    path: &Path,
) -> io::Result<Option<Owner>> {
    match moved {
        Some(moved) if moved.from.is(path) => match moved.owner {
            Some(owner) => Ok(Some(owner)),
            None => owner_at(rt, ways, &moved.to),
        },
        _ => Ok(None),
    }
}

/// Takes a file's path away.
pub(crate) fn unlink_at<R: Files<File = File> + AllocGlobal>(
    rt: &R,
    ways: &mut Ways,
    path: &Path,
) -> io::Result<()> {
    let at = ways.place(rt, path)?;
    fs::remove_file(rt, at.text(path))
}

/// Syncs a directory. Its text ends with `/.`, by which nothing but a directory can be opened, and nothing is waited for.
pub(crate) fn sync_dir_at<R: Files<File = File> + AllocGlobal>(
    rt: &R,
    ways: &mut Ways,
    path: &Path,
) -> io::Result<()> {
    let at = ways.place_dir(rt, path)?;
    let dir = File::open(rt, at.as_str())?;
    dir.sync_all()
}

/// The file that a program is given to read. Without one its input is empty: it doesn't read what this process may be given.
pub(crate) fn input_of<R: Files<File = File> + AllocGlobal>(
    rt: &R,
    ways: &mut Ways,
    input: Option<&Path>,
) -> io::Result<File> {
    match input {
        Some(path) => {
            let at = ways.place(rt, path)?;
            let Opened { file, .. } = open_to_read(rt, at.text(path), true)?;
            Ok(file)
        }
        None => File::open(rt, "/dev/null"),
    }
}

/// Runs a program to its end, with this input.
pub(crate) fn run_program<R: Processes>(
    rt: &R,
    alloc: Global,
    program: &Path,
    args: &[Text],
    input: File,
) -> io::Result<Ended> {
    let mut command = Command::new(alloc, program.as_str())?;
    command.stdin(input);
    run_command(rt, &mut command, args)
}

fn run_command<R: Processes>(rt: &R, command: &mut Command, args: &[Text]) -> io::Result<Ended> {
    add_args(command, args)?;
    let status = command.status(rt)?;
    Ok(end_of(status.code()))
}

fn add_args(command: &mut Command, args: &[Text]) -> io::Result<()> {
    for arg in args {
        command.arg(arg.as_str())?;
    }
    Ok(())
}

// A program that gave no code was killed.
fn end_of(code: Option<i32>) -> Ended {
    match code {
        Some(code) => Ended::Exit(code),
        None => Ended::Killed,
    }
}

// The file of this lock, for a call that only reads. The directory stands for one that nobody can make: its own lock keeps no run
// out, but none can begin there.
fn lock_to_read<R: Files<File = File> + AllocGlobal>(rt: &R, path: &str) -> io::Result<File> {
    match open_lock_to_read(rt, path)? {
        Some(file) => Ok(file),
        None => {
            let (dir, _) = parted(path);
            let inside = format!(in rt.alloc(); "{dir}/.")?;
            File::open(rt, inside.as_str())
        }
    }
}

/// Takes the lock of a state path; None where another has it. Its file can be read and written by its owner alone, so
/// that no other user can hold it. A call that only reads takes it too where nothing can be written.
pub(crate) fn take_lock<R: Files<File = File> + AllocGlobal>(
    rt: &R,
    ways: &mut Ways,
    state: &Path,
    only_reads: bool,
) -> io::Result<Option<File>> {
    let at = ways.place(rt, state)?;
    let at = at.text(state);
    let path = format!(in rt.alloc(); "{at}.lock")?;
    if only_reads {
        lock_of(lock_to_read(rt, path.as_str())?)
    } else {
        lock_of(open_lock(rt, path.as_str())?)
    }
}

// The file with its lock; None where another has it.
fn lock_of(file: File) -> io::Result<Option<File>> {
    match file.try_lock() {
        Ok(()) => Ok(Some(file)),
        Err(TryLockError::WouldBlock) => Ok(None),
        Err(TryLockError::Error(e)) => Err(e),
    }
}
