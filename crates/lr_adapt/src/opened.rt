// Files that are opened only as what their own path names.
//
// A path is opened by its text, and the system follows links; so what was opened is compared, by device and number, with what
// `lstat` says of the path behind the opening. Where both are one file, the path itself named the file that is now open.
use std::fs::{File, Metadata, OpenOptions};
use std::io::{Error, ErrorKind};
use std::os::unix::fs::{MetadataExt, OpenOptionsExt};
use std::rt::Files;
use std::{fs, io};

// The system's number for "Permission denied", of a user who may read a file but not write it; root never gets it on a
// file system of its own.
const DENIED: i32 = 13;

// The system's number for "Read-only file system", which every user gets there, root too.
const READ_ONLY: i32 = 30;

/// An open file, and what it was when it was opened.
#[derive(Drop)]
pub(crate) struct Opened {
    pub(crate) file: File,
    pub(crate) seen: Metadata,
}

/// To whom a file belongs, and its permission bits.
#[derive(Clone, Copy)]
pub(crate) struct Owner {
    pub(crate) user: u32,
    pub(crate) group: u32,
    pub(crate) mode: u32,
}

pub(crate) fn owner_of(seen: &fs::Metadata) -> Owner {
    Owner {
        user: seen.uid(),
        group: seen.gid(),
        mode: seen.mode() & 0o7777,
    }
}

/// What the path names, with the link behind it followed or not.
pub(crate) fn named<R: Files>(rt: &R, path: &str, follow: bool) -> io::Result<Metadata> {
    if follow {
        fs::metadata(rt, path)
    } else {
        fs::symlink_metadata(rt, path)
    }
}

/// Whether a user other than root and the caller may write it: by its mode, whatever its group, or since it is theirs.
pub(crate) fn is_exposed(seen: &Metadata, caller: u32) -> bool {
    seen.mode() & 0o022 != 0 || (seen.uid() != 0 && seen.uid() != caller)
}

/// Whether these are one file.
pub(crate) fn is_same(one: &Metadata, other: &Metadata) -> bool {
    one.dev() == other.dev() && one.ino() == other.ino()
}

fn want_file(seen: &Metadata) -> io::Result<()> {
    if seen.is_file() {
        Ok(())
    } else {
        Err(Error::new(ErrorKind::InvalidInput, "not a regular file"))
    }
}

fn want_dir(seen: &Metadata) -> io::Result<()> {
    if seen.is_dir() {
        Ok(())
    } else {
        Err(Error::new(ErrorKind::InvalidInput, "not a directory"))
    }
}

// Where `sole` holds, a file of several names is refused: another user may have given it the name that is asked for. There is
// no leave to be had for such files, since the configuration's word for it is passed over.
fn want_sole(seen: &Metadata, sole: bool) -> io::Result<()> {
    if sole && seen.nlink() > 1 {
        Err(Error::new(ErrorKind::InvalidInput, "a file of several names"))
    } else {
        Ok(())
    }
}

/// What the path itself names now, which has to be the file that was opened.
pub(crate) fn still_named<R: Files>(
    rt: &R,
    path: &str,
    opened: &Metadata,
    sole: bool,
) -> io::Result<()> {
    let now = named(rt, path, false)?;
    want_same(opened, &now)?;
    want_sole(&now, sole)
}

/// The path names what was opened.
pub(crate) fn want_same(opened: &Metadata, now: &Metadata) -> io::Result<()> {
    if is_same(opened, now) {
        Ok(())
    } else {
        Err(Error::other("the path doesn't name what was opened"))
    }
}

// The file, where it is a regular one and the path names it now.
fn checked<R: Files>(rt: &R, path: &str, follow: bool, file: File) -> io::Result<Opened> {
    let seen = file.metadata()?;
    want_file(&seen)?;
    want_same(&seen, &named(rt, path, follow)?)?;
    Ok(Opened { file, seen })
}

/// Opens a regular file that the path itself names, for reading and for this besides. The look before it keeps what isn't
/// one from being opened; since it is opened for writing too, a pipe that comes behind the look isn't waited for.
fn open_with<R: Files<File = File>>(
    rt: &R,
    path: &str,
    options: &OpenOptions,
    sole: bool,
) -> io::Result<Opened> {
    want_file(&named(rt, path, false)?)?;
    let file = options.open(rt, path)?;
    let opened = checked(rt, path, false, file)?;
    want_sole(&opened.seen, sole)?;
    Ok(opened)
}

/// Opens a file for appending.
pub(crate) fn open_to_append<R: Files<File = File>>(
    rt: &R,
    path: &str,
    sole: bool,
) -> io::Result<Opened> {
    let mut options = OpenOptions::new();
    options.read(true).append(true);
    open_with(rt, path, &options, sole)
}

/// Opens a file whose length is to be changed.
pub(crate) fn open_to_cut<R: Files<File = File>>(rt: &R, path: &str) -> io::Result<Opened> {
    let mut options = OpenOptions::new();
    options.read(true).write(true);
    open_with(rt, path, &options, true)
}

// Opens it for reading alone.
fn open_plainly<R: Files<File = File>>(rt: &R, path: &str, follow: bool) -> io::Result<Opened> {
    want_file(&named(rt, path, follow)?)?;
    let file = File::open(rt, path)?;
    checked(rt, path, follow, file)
}

/// Nobody but root and the caller may write what was opened.
pub(crate) fn want_own(opened: &Opened, caller: u32) -> io::Result<()> {
    if is_exposed(&opened.seen, caller) {
        Err(Error::other("others may write the file that has the path now"))
    } else {
        Ok(())
    }
}

/// Opens a file for reading, with links followed. It may wait at a pipe that is swapped in behind the look.
pub(crate) fn open_followed<R: Files<File = File>>(rt: &R, path: &str) -> io::Result<Opened> {
    open_plainly(rt, path, true)
}

fn is_read_only(e: &Error) -> bool {
    e.raw_os_error() == Some(READ_ONLY)
}

// Whether a file that can't be opened for writing, for this cause, is opened for reading alone. On a file system that can't be
// written it isn't where it has to be the sole one, so to be copied or mailed: a log that can't be emptied there would be copied
// at each run, until its older copies were gone.
fn may_be_read(e: &Error, sole: bool) -> bool {
    e.raw_os_error() == Some(DENIED) || (is_read_only(e) && !sole)
}

/// Opens a file for reading that the path itself names. One that this user may only read is opened so, and so is one that
/// nobody can write.
pub(crate) fn open_to_read<R: Files<File = File>>(
    rt: &R,
    path: &str,
    sole: bool,
) -> io::Result<Opened> {
    match open_to_append(rt, path, sole) {
        Ok(opened) => Ok(opened),
        Err(e) if may_be_read(&e, sole) => {
            let opened = open_plainly(rt, path, false)?;
            want_sole(&opened.seen, sole)?;
            Ok(opened)
        }
        Err(e) => Err(e),
    }
}

// What the open file is, where it is a directory and the path names it now.
fn seen_dir<R: Files>(rt: &R, path: &str, follow: bool, file: &File) -> io::Result<Metadata> {
    let seen = file.metadata()?;
    want_dir(&seen)?;
    want_same(&seen, &named(rt, path, follow)?)?;
    Ok(seen)
}

/// Opens a directory. By the `/.` behind its path nothing but a directory can be opened, and nothing is waited for.
pub(crate) fn open_dir<R: Files<File = File> + AllocGlobal>(
    rt: &R,
    path: &str,
    follow: bool,
) -> io::Result<Opened> {
    let inside = format!(in rt.alloc(); "{path}/.")?;
    let file = File::open(rt, inside.as_str())?;
    let seen = seen_dir(rt, path, follow, &file)?;
    Ok(Opened { file, seen })
}

// Opens the file of a lock that is there.
fn open_old_lock<R: Files<File = File>>(rt: &R, path: &str) -> io::Result<File> {
    let mut options = OpenOptions::new();
    options.read(true).write(true);
    let Opened { file, .. } = open_with(rt, path, &options, false)?;
    Ok(file)
}

/// Opens the file of a lock, which is made with mode 0600 where nothing has its path: so none is made where a link leads to.
pub(crate) fn open_lock<R: Files<File = File>>(rt: &R, path: &str) -> io::Result<File> {
    let mut options = OpenOptions::new();
    options.read(true).write(true).create_new(true).mode(0o600);
    match options.open(rt, path) {
        Ok(file) => Ok(file),
        Err(e) if e.kind() == ErrorKind::AlreadyExists => open_old_lock(rt, path),
        Err(e) => Err(e),
    }
}

/// The same of a call that only reads. On a file system that can't be written a file that is there is opened for reading, which
/// serves the lock as well. None where there is none then: no run can make it, so none can take the lock.
pub(crate) fn open_lock_to_read<R: Files<File = File>>(
    rt: &R,
    path: &str,
) -> io::Result<Option<File>> {
    match open_lock(rt, path) {
        Ok(file) => Ok(Some(file)),
        Err(e) if is_read_only(&e) => match open_plainly(rt, path, false) {
            Ok(Opened { file, .. }) => Ok(Some(file)),
            Err(e) if e.kind() == ErrorKind::NotFound => Ok(None),
            Err(e) => Err(e),
        },
        Err(e) => Err(e),
    }
}
