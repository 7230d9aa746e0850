// What the entries of a journal are, as a text with a line for each.
use lr_host::{Entry, Kind, Seen};
use lr_rows_line::put_quoted;
use lr_rules::{Count, Ended, Moment, Path, Rules, Text};
use std::alloc::{AllocError, Global};

fn put(into: &mut Vec<u8>, word: &[u8], path: &Path) -> Result<(), AllocError> {
    into.extend_from_slice(word)?;
    into.push(b' ')?;
    into.extend_from_slice(path.bytes())
}

fn put_two(into: &mut Vec<u8>, word: &[u8], path: &Path, other: &Path) -> Result<(), AllocError> {
    put(into, word, path)?;
    into.push(b' ')?;
    into.extend_from_slice(other.bytes())
}

fn put_bytes(into: &mut Vec<u8>, word: &[u8], path: &Path, bytes: &[u8]) -> Result<(), AllocError> {
    put(into, word, path)?;
    into.push(b' ')?;
    put_quoted(into, bytes)
}

fn put_count(into: &mut Vec<u8>, alloc: Global, count: Count) -> Result<(), AllocError> {
    let text = match count {
        Count::Keep(most) => format!(in alloc; " keep {most}")?,
        Count::Always => format!(in alloc; " keep all")?,
    };
    into.extend_from_slice(text.as_bytes())
}

// A begin, with its moment in seconds and the count of each of its rules.
fn put_begin(
    into: &mut Vec<u8>,
    alloc: Global,
    state: &Path,
    now: &Moment,
    rules: &Rules,
) -> Result<(), AllocError> {
    put(into, b"begin", state)?;
    let seconds = now.seconds;
    let text = format!(in alloc; " {seconds}")?;
    into.extend_from_slice(text.as_bytes())?;
    for rule in rules.sets.as_slice() {
        put_count(into, alloc, rule.count)?;
    }
    Ok(())
}

fn put_file(into: &mut Vec<u8>, alloc: Global, seen: &Seen) -> Result<(), AllocError> {
    let (size, mtime) = (seen.size, seen.mtime);
    let exposed = if seen.exposed { " exposed" } else { "" };
    let text = match seen.mode {
        Some(mode) => format!(in alloc; " file {size} {mtime} {mode:o}{exposed}")?,
        None => format!(in alloc; " file {size} {mtime}{exposed}")?,
    };
    into.extend_from_slice(text.as_bytes())
}

// A look, with what it saw: of a file the size, the modification moment and the mode, and `exposed` where it is.
fn put_look(
    into: &mut Vec<u8>,
    alloc: Global,
    path: &Path,
    seen: &Option<Seen>,
) -> Result<(), AllocError> {
    put(into, b"look", path)?;
    let Some(seen) = seen else {
        return into.extend_from_slice(b" nothing");
    };
    match seen.kind {
        Kind::File => put_file(into, alloc, seen),
        Kind::Dir => into.extend_from_slice(b" directory"),
        Kind::Other => into.extend_from_slice(b" other"),
    }
}

fn put_ended(into: &mut Vec<u8>, alloc: Global, ended: Ended) -> Result<(), AllocError> {
    let text = match ended {
        Ended::Exit(status) => format!(in alloc; " exit {status}")?,
        Ended::Killed => format!(in alloc; " killed")?,
    };
    into.extend_from_slice(text.as_bytes())
}

// A program with its arguments, its input and its end.
fn put_run(
    into: &mut Vec<u8>,
    alloc: Global,
    program: &Path,
    args: &[Text],
    input: Option<&Path>,
    ended: Ended,
) -> Result<(), AllocError> {
    put(into, b"run", program)?;
    for arg in args {
        into.push(b' ')?;
        put_quoted(into, arg.bytes())?;
    }
    if let Some(path) = input {
        put(into, b" <", path)?;
    }
    put_ended(into, alloc, ended)
}

// A change of names.
fn put_names(into: &mut Vec<u8>, alloc: Global, entry: &Entry) -> Result<(), AllocError> {
    match entry {
        Entry::Renames { from, to } => put_two(into, b"rename", from, to),
        Entry::Makes { path, .. } => put(into, b"make", path),
        Entry::Unlinks { path } => put(into, b"unlink", path),
        Entry::MakesDir { path, .. } => put(into, b"make-dir", path),
        _ => put_rest(into, alloc, entry),
    }
}

// A change of bytes, a sync, or a program.
fn put_rest(into: &mut Vec<u8>, alloc: Global, entry: &Entry) -> Result<(), AllocError> {
    match entry {
        Entry::Appends { path, bytes } => put_bytes(into, b"append", path, bytes.as_slice()),
        Entry::Truncates { path } => put(into, b"truncate", path),
        Entry::SyncsFile { path } => put(into, b"sync-file", path),
        Entry::SyncsDir { path } => put(into, b"sync-dir", path),
        Entry::Runs {
            program,
            args,
            input,
            ended,
        } => put_run(
            into,
            alloc,
            program,
            args.as_slice(),
            input.as_ref(),
            *ended,
        ),
        _ => into.extend_from_slice(b"writer"),
    }
}

/// Adds what the entry is, as a line without its end.
pub fn put_entry(into: &mut Vec<u8>, alloc: Global, entry: &Entry) -> Result<(), AllocError> {
    match entry {
        Entry::Starts { state, now, rules } => put_begin(into, alloc, state, now, rules),
        Entry::Ends => into.extend_from_slice(b"end"),
        Entry::Look { path, seen } => put_look(into, alloc, path, seen),
        Entry::List { dir, .. } => put(into, b"list", dir),
        Entry::Reads { path, .. } => put(into, b"read", path),
        _ => put_names(into, alloc, entry),
    }
}

// An entry of the tool that leaves the disk as it was.
fn is_quiet(entry: &Entry) -> bool {
    matches!(
        entry,
        Entry::Starts { .. }
            | Entry::Ends
            | Entry::Look { .. }
            | Entry::List { .. }
            | Entry::Reads { .. }
    )
}

/// Whether the entry is an act of a writer, or a cut.
pub fn is_from_outside(entry: &Entry) -> bool {
    matches!(
        entry,
        Entry::Attach { .. }
            | Entry::Feed { .. }
            | Entry::Flush { .. }
            | Entry::Detach { .. }
            | Entry::Cut { .. }
    )
}

/// Whether none of the entries behind the first `from` changes anything, be it a writer's or a cut.
pub fn leave_alone(all: &[Entry], from: usize) -> bool {
    for (at, entry) in all.iter().enumerate() {
        if at >= from && !is_quiet(entry) {
            return false;
        }
    }
    true
}

/// The calls among the entries behind the first `from`.
pub fn entries_text(alloc: Global, all: &[Entry], from: usize) -> Result<Vec<u8>, AllocError> {
    let mut text = Vec::new(alloc);
    for (at, entry) in all.iter().enumerate() {
        if at >= from && !is_from_outside(entry) {
            put_entry(&mut text, alloc, entry)?;
            text.push(b'\n')?;
        }
    }
    Ok(text)
}

/// The calls that change something, among the entries behind the first `from`.
pub fn changes_text(alloc: Global, all: &[Entry], from: usize) -> Result<Vec<u8>, AllocError> {
    let mut text = Vec::new(alloc);
    for (at, entry) in all.iter().enumerate() {
        if at >= from && !is_from_outside(entry) && !is_quiet(entry) {
            put_entry(&mut text, alloc, entry)?;
            text.push(b'\n')?;
        }
    }
    Ok(text)
}
