// The calls of a host.
ghost use Rattle.std.specs.Prelude.{◌≤ℤ◌, pos, option_copied, IfOk};
ghost use Rattle.lr_host.specs.World.{world, names};
ghost use Rattle.lr_host.specs.Told.{WhereTold};
ghost use Rattle.lr_host.specs.Fits.{MaybeFileAt};

use crate::answer::{done, number, said, yes};
use crate::telling::Telling;
use crate::tests_of::{are_apart, dir_at, file_at, is_free, place_at};
use lr_host::{CallFault, Kind, ListFault, RunFault, Seen};
use lr_rows_line::{Line, Trouble, put_quoted};
use lr_rows_read::Cursor;
use lr_rules::{Civil, Ended, Listed, Moment, Path, Rules, Text};
use std::alloc::{AllocError, Global};

// Longer pieces aren't read.
const MOST: u64 = 65_536;

/// What is done to a file.
#[derive(Clone, Copy)]
pub enum OnFile {
    Truncate,
    Unlink,
    Sync,
}

// The mode that the words give, if they give one.
fn mode(cursor: &mut Cursor) -> Result<Option<u32>, Trouble> {
    if cursor.takes(b"mode") {
        Ok(Some(cursor.octal()?))
    } else {
        Ok(None)
    }
}

// ---- those that change nothing

fn kind_text(alloc: Global, seen: &Seen) -> Result<String, AllocError> {
    match seen.kind {
        Kind::File => {
            let (size, mtime) = (seen.size, seen.mtime);
            format!(in alloc; "file {size} {mtime}")
        }
        Kind::Dir => String::from_str(alloc, "directory"),
        Kind::Other => String::from_str(alloc, "other"),
    }
}

fn seen_text(alloc: Global, seen: &Seen) -> Result<String, AllocError> {
    let mut text = kind_text(alloc, seen)?;
    if let Some(mode) = seen.mode {
        text.push_str(format!(in alloc; " {mode:o}")?.as_str())?;
    }
    if seen.exposed && seen.kind == Kind::File {
        text.push_str(" exposed")?;
    }
    Ok(text)
}

/// `look PATH [follow]`: what stands there, of a file its size and modification moment; its mode; `exposed` where a file is.
pub fn look<H: Telling>(host: &mut H, cursor: &mut Cursor) -> Result<Vec<u8>, Trouble> {
    let path = cursor.path()?;
    let follow = cursor.takes(b"follow");
    match host.look(&path, follow) {
        Ok(Some(seen)) => said(cursor.alloc, seen_text(cursor.alloc, &seen)?.as_str()),
        Ok(None) => said(cursor.alloc, "nothing"),
        Err(CallFault::Failed) => said(cursor.alloc, "failed"),
    }
}

// Each in quotes, and a space between two.
fn names_text(alloc: Global, names: &[Text]) -> Result<Vec<u8>, Trouble> {
    let mut text = Vec::new(alloc);
    for name in names {
        if !text.is_empty() {
            text.push(b' ')?;
        }
        put_quoted(&mut text, name.bytes())?;
    }
    text.push(b'\n')?;
    Ok(text)
}

/// `list PATH`: the names in the directory.
pub fn list<H: Telling>(host: &mut H, cursor: &mut Cursor) -> Result<Vec<u8>, Trouble> {
    let path = cursor.path()?;
    dir_at(host, &path)?;
    let mut names = Vec::new(cursor.alloc);
    match host.list(cursor.alloc, &path, &mut names) {
        Ok(()) => names_text(cursor.alloc, &names),
        Err(ListFault::Failed) => said(cursor.alloc, "failed"),
        Err(ListFault::Memory) => Err(Trouble::Memory),
    }
}

fn read_into<H: Telling>(
    host: &mut H,
    cursor: &mut Cursor,
    path: &Path,
    from: u64,
    into: &mut [u8],
) -> Result<Vec<u8>, Trouble> {
    let follow = cursor.takes(b"follow");
    file_at(host, path)?;
    if into.is_empty() {
        return Err(Trouble::Odd("a piece has a byte at least"));
    }
    let Ok(count) = host.read(path, follow, from, into) else {
        return said(cursor.alloc, "failed");
    };
    let mut text = Vec::new(cursor.alloc);
    put_quoted(&mut text, into.get(..count).unwrap_or(b"?"))?;
    text.push(b'\n')?;
    Ok(text)
}

/// `read PATH FROM SIZE [follow]`: the bytes from a place on, at most so many.
pub fn read<H: Telling>(host: &mut H, cursor: &mut Cursor) -> Result<Vec<u8>, Trouble> {
    let path = cursor.path()?;
    let from = cursor.number()?;
    let size = cursor.number()?;
    if size > MOST {
        return Err(Trouble::Odd("a piece has at most 65536 bytes"));
    }
    let mut into = vec![in cursor.alloc; 0u8; size as usize]?;
    read_into(host, cursor, &path, from, &mut into)
}

fn ended_line(alloc: Global, ended: Ended) -> Result<Vec<u8>, Trouble> {
    match ended {
        Ended::Exit(status) => {
            let text = format!(in alloc; "exit {status}")?;
            said(alloc, text.as_str())
        }
        Ended::Killed => said(alloc, "killed"),
    }
}

#[tactic(auto)]
fn run_on<H: Telling>(
    host: &mut H,
    cursor: &mut Cursor,
    input: Option<&Path>,
) -> Result<Vec<u8>, Trouble>
    requires { WhereTold (H.told host.old) (λ p. MaybeFileAt (names (world p)) (option_copied input)) }
{
    let alloc = cursor.alloc;
    let line = Line {
        alloc,
        words: cursor.rest(),
    };
    let program = line.path(0)?;
    let args = line.texts()?;
    match host.run(alloc, &program, &args, input) {
        Ok(end) => ended_line(alloc, end),
        Err(RunFault::Failed) => said(alloc, "failed"),
        Err(RunFault::Memory) => Err(Trouble::Memory),
    }
}

/// `run PROGRAM WORD..`: how the program ended.
#[tactic(auto, using(crate::proofs::CanCall::no_input))]
pub fn run<H: Telling>(host: &mut H, cursor: &mut Cursor) -> Result<Vec<u8>, Trouble> {
    run_on(host, cursor, None)
}

/// `run-with INPUT PROGRAM WORD..`: the same of a program that reads the file.
pub fn run_with<H: Telling>(host: &mut H, cursor: &mut Cursor) -> Result<Vec<u8>, Trouble> {
    let input = cursor.path()?;
    file_at(host, &input)?;
    run_on(host, cursor, Some(&input))
}

// ---- those that change something

/// `rename FROM TO`.
#[tactic(auto, using(crate::proofs::CanCall::can_rename))]
pub fn rename<H: Telling>(host: &mut H, cursor: &mut Cursor) -> Result<Vec<u8>, Trouble> {
    let from = cursor.path()?;
    let to = cursor.path()?;
    file_at(host, &from)?;
    place_at(cursor.alloc, host, &to)?;
    is_free(host, &to)?;
    are_apart(host, &from, &to)?;
    done(cursor.alloc, host.rename(&from, &to))
}

/// `make PATH [mode O]`, and `make-dir PATH [mode O]` of a directory.
pub fn make<H: Telling>(
    host: &mut H,
    cursor: &mut Cursor,
    is_dir: bool,
) -> Result<Vec<u8>, Trouble> {
    let path = cursor.path()?;
    let mode = mode(cursor)?;
    place_at(cursor.alloc, host, &path)?;
    let got = if is_dir {
        host.make_dir(&path, mode)
    } else {
        host.make_new(&path, mode)
    };
    yes(cursor.alloc, got)
}

/// `append PATH BYTES`: how many of them it took.
pub fn append<H: Telling>(host: &mut H, cursor: &mut Cursor) -> Result<Vec<u8>, Trouble> {
    let path = cursor.path()?;
    let piece = cursor.word()?;
    file_at(host, &path)?;
    match host.append(&path, piece) {
        Ok(count) => number(cursor.alloc, count as u64),
        Err(CallFault::Failed) => said(cursor.alloc, "failed"),
    }
}

/// `truncate PATH`, `unlink PATH` and `sync-file PATH`.
pub fn on_file<H: Telling>(
    host: &mut H,
    cursor: &mut Cursor,
    what: OnFile,
) -> Result<Vec<u8>, Trouble> {
    let path = cursor.path()?;
    file_at(host, &path)?;
    let got = match what {
        OnFile::Truncate => host.truncate(&path),
        OnFile::Unlink => host.unlink(&path),
        OnFile::Sync => host.sync_file(&path),
    };
    done(cursor.alloc, got)
}

/// `sync-dir PATH`.
pub fn sync_dir<H: Telling>(host: &mut H, cursor: &mut Cursor) -> Result<Vec<u8>, Trouble> {
    let path = cursor.path()?;
    dir_at(host, &path)?;
    done(cursor.alloc, host.sync_dir(&path))
}

// The moment at which a run begins here.
fn moment() -> Result<Moment, Trouble>
    ensures { IfOk result (λ now. (pos 0 ≤ℤ now.seconds) × (now.seconds ≤ℤ pos 250_000_000_000)) }
{
    let Some(civil) = Civil::new(2024, 1, 14, 0, 5, 0) else {
        return Err(Trouble::Odd("no moment"));
    };
    Ok(Moment {
        seconds: 1_705_190_700,
        civil,
    })
}

/// `begin STATE`: a run begins, without rules; by `begin-and-end STATE` it ends at once.
pub fn begin<H: Telling>(
    host: &mut H,
    cursor: &mut Cursor,
    ends: bool,
) -> Result<Vec<u8>, Trouble> {
    let state = cursor.path()?;
    let now = moment()?;
    let rules = Rules {
        sets: Listed::new(cursor.alloc),
    };
    place_at(cursor.alloc, host, &state)?;
    match host.begin(&state, &now, &rules) {
        Ok(true) if ends => {
            host.end();
            said(cursor.alloc, "yes")
        }
        got => yes(cursor.alloc, got),
    }
}
