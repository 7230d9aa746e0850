// Directories that are made.
//
// Where the process's mask cuts the mode of one, it is given behind the making, by a handle; and only to a directory that is
// younger than its parent's last change before: one that stood in the parent then, and got the name since, was made before that.
use crate::opened::open_dir;
use crate::ways::Ways;
use lr_rules::Path;
use std::fs::{DirBuilder, File, Permissions};
use std::io::{Error, ErrorKind};
use std::os::unix::fs::{DirBuilderExt, MetadataExt, PermissionsExt};
use std::rt::Files;
use std::time::{Clock, Duration, SystemTime, UNIX_EPOCH};
use std::{fs, io, thread};

// A moment of a file system, in seconds and nanoseconds since 1970.
#[derive(Clone, Copy)]
struct Moment {
    seconds: i64,
    nanoseconds: i64,
}

// A tick of the clock by which a file system tells moments takes less, in nanoseconds, unless the machine holds it back: 10
// milliseconds at most.
const TICK: i64 = 20_000_000;

// How often that clock is looked at, at most, and how long is waited between two looks, in milliseconds: two seconds in all.
const LOOKS: u32 = 500;

const BETWEEN: u64 = 4;

/// Makes a directory; false where the path is named. A mode is given at the making, and by a handle behind it where the
/// process's mask cut it. By the file of the lock it is told whether the clock of the file systems goes on.
pub(crate) fn make_dir_at<R: Files<File = File> + AllocGlobal + Clock>(
    rt: &R,
    ways: &mut Ways,
    lock: &Option<File>,
    path: &Path,
    mode: Option<u32>,
) -> io::Result<bool> {
    let at = ways.place(rt, path)?;
    match mode {
        Some(mode) => make_dir_with(rt, lock, at.text(path), mode),
        None => was_made(DirBuilder::new().create(rt, at.text(path))),
    }
}

// False where the path is named.
fn was_made(got: io::Result<()>) -> io::Result<bool> {
    match got {
        Ok(()) => Ok(true),
        Err(e) if e.kind() == ErrorKind::AlreadyExists => Ok(false),
        Err(e) => Err(e),
    }
}

fn make_dir_with<R: Files<File = File> + AllocGlobal + Clock>(
    rt: &R,
    lock: &Option<File>,
    path: &str,
    mode: u32,
) -> io::Result<bool> {
    let before = parent_settled(rt, lock, path)?;
    let made = was_made(DirBuilder::new().mode(mode).create(rt, path))?;
    if made {
        set_mode(rt, path, mode, before)?;
    }
    Ok(made)
}

// When a name in the parent of this path changed last. It waits until the clock by which a file system tells births has moved on
// since: so what is made behind it is told as younger. That takes some milliseconds where the parent has just changed, and else
// nothing. The parent is asked anew at each look, so that nothing that is born meanwhile counts as made here.
fn parent_settled<R: Files + Clock>(rt: &R, lock: &Option<File>, path: &str) -> io::Result<Moment> {
    let mut before = parent_changed(rt, path)?;
    for _ in 0..LOOKS {
        if has_moved_on(rt, lock, before)? {
            break;
        }
        thread::sleep(rt, Duration::from_millis(BETWEEN));
        before = parent_changed(rt, path)?;
    }
    Ok(before)
}

// Whether the clock of the file systems has moved on since that moment: by the time that went by, and as it tells itself.
fn has_moved_on<R: Clock>(rt: &R, lock: &Option<File>, before: Moment) -> io::Result<bool> {
    Ok(has_ticked(rt, before)? && !stands_still(lock, before))
}

// Whether that moment is more than a tick ago; also where it is ahead, since then there is nothing to wait for.
fn has_ticked<R: Clock>(rt: &R, before: Moment) -> io::Result<bool> {
    let Ok(since) = SystemTime::now(rt)?.duration_since(UNIX_EPOCH) else {
        return Ok(true);
    };
    let seconds = i64::try_from(since.as_secs()).unwrap_or(i64::MAX);
    let late = seconds.saturating_sub(before.seconds);
    let nanoseconds = late
        .saturating_mul(1_000_000_000)
        .saturating_add(i64::from(since.subsec_nanos()))
        .saturating_sub(before.nanoseconds);
    Ok(nanoseconds < 0 || nanoseconds > TICK)
}

// Whether the clock of the file systems stands at that moment still: on a machine whose processors are all taken its ticks are
// held back, for longer than a tick. Where there is no lock to tell it by, or it can't be told, that isn't known.
fn stands_still(lock: &Option<File>, before: Moment) -> bool {
    match lock {
        Some(lock) => match file_clock(lock) {
            Ok(now) => now.seconds == before.seconds && now.nanoseconds == before.nanoseconds,
            Err(_) => false,
        },
        None => false,
    }
}

// What the clock of the file systems tells: the file of the lock gets the mode that it has, which is noted as its last change.
fn file_clock(lock: &File) -> io::Result<Moment> {
    let mode = lock.metadata()?.mode() & 0o7777;
    lock.set_permissions(Permissions::from_mode(mode))?;
    let seen = lock.metadata()?;
    Ok(changed(&seen))
}

fn changed(seen: &fs::Metadata) -> Moment {
    Moment {
        seconds: seen.ctime(),
        nanoseconds: seen.ctime_nsec(),
    }
}

// When a name in the parent of this path changed last: no user can set that.
fn parent_changed<R: Files>(rt: &R, path: &str) -> io::Result<Moment> {
    match std::path::Path::new(path).parent() {
        Some(parent) => Ok(changed(&fs::metadata(rt, parent)?)),
        None => Err(Error::from(ErrorKind::InvalidInput)),
    }
}

// Whether it was made behind that moment. Where the file system tells no births, it isn't asked.
fn is_younger(seen: &fs::Metadata, before: Moment) -> bool {
    let Ok(born) = seen.created() else {
        return true;
    };
    let Ok(since) = born.duration_since(UNIX_EPOCH) else {
        return false;
    };
    let Ok(seconds) = i64::try_from(since.as_secs()) else {
        return false;
    };
    seconds > before.seconds
        || (seconds == before.seconds && i64::from(since.subsec_nanos()) > before.nanoseconds)
}

// Gives the directory that was just made its mode, where it lacks it. One that stood in the same directory before, and got
// this name since, was made before its parent changed last.
fn set_mode<R: Files<File = File> + AllocGlobal>(
    rt: &R,
    path: &str,
    mode: u32,
    before: Moment,
) -> io::Result<()> {
    let opened = open_dir(rt, path, false)?;
    if opened.seen.mode() & 0o7777 == mode {
        return Ok(());
    }
    if !is_younger(&opened.seen, before) {
        return Err(Error::other("another directory got the path"));
    }
    opened.file.set_permissions(Permissions::from_mode(mode))
}
