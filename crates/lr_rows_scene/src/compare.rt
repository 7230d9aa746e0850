// Whether a call left what is wanted.
use crate::differences::Differences;
use crate::entries::{changes_text, entries_text, leave_alone};
use crate::files::{all_paths, has, opening_bytes};
use crate::ticks::number_of;
use lr_host::{Entry, Thing};
use lr_memhost::MemHost;
use lr_rows_line::Trouble;
use lr_rows_read::{Once, Wanted};
use lr_rules::Path;
use std::alloc::{AllocError, Global};

/// How far the host was before the call.
#[derive(Clone, Copy)]
pub struct Mark {
    pub entries: usize,
    pub calls: u64,
}

/// The call that the first call of the row was stopped before, and the entries of a first call that isn't stopped, with
/// the ticks of its calls.
#[derive(Clone, Copy)]
pub struct Stopped<'a> {
    pub at: u64,
    pub first: &'a [Entry],
}

/// What a call answered.
#[derive(Clone, Copy)]
pub struct Answer<'a> {
    pub status: u8,
    pub printed: &'a [u8],
    /// What was to be printed, in the place of what the row wants.
    pub wanted: Option<&'a [u8]>,
    /// Whether the last fault of its report is that of the output.
    pub tells_out: bool,
    /// Whether a put failed that the row doesn't name: then a beginning of that is printed, and the report tells of it.
    pub is_cut: bool,
}

fn is_of_etc(path: &Path) -> bool {
    path.bytes().starts_with(b"/etc/")
}

// The state's file, and that which a new state is first written to: each run that comes to its plan writes them.
fn is_of_state(path: &Path) -> bool {
    path.has_bytes(b"/var/lib/logrotate/status") || path.has_bytes(b"/var/lib/logrotate/status.tmp")
}

// The bytes that are wanted of the path: those that are listed, or those of the opening in `/etc`.
fn wanted_bytes<'a>(host: &'a MemHost, wanted: &'a Wanted, path: &Path) -> Option<&'a [u8]> {
    for (one, bytes) in &wanted.left {
        if one.is(path) {
            return Some(bytes.as_slice());
        }
    }
    if is_of_etc(path) {
        opening_bytes(host, path)
    } else {
        None
    }
}

fn is_one_of(all: &[Once], bytes: &[u8]) -> bool {
    for once in all {
        if once.bytes.as_slice() == bytes {
            return true;
        }
    }
    false
}

// A file that stands.
fn compare_file(
    differences: &mut Differences,
    host: &MemHost,
    wanted: &Wanted,
    path: &Path,
) -> Result<(), AllocError> {
    let found = host.file(path).unwrap_or(b"");
    match wanted_bytes(host, wanted, path) {
        Some(bytes) => differences.compare(path.bytes(), found, bytes),
        None if is_one_of(&wanted.once, found) || is_of_state(path) => Ok(()),
        None => differences.add(path.bytes(), found, b"no file"),
    }
}

fn is_wanted_dir(host: &MemHost, wanted: &Wanted, path: &Path) -> bool {
    let opening = &host.journal().opening;
    is_listed(opening.dirs.as_slice(), path) || is_listed(wanted.dirs.as_slice(), path)
}

fn is_listed(paths: &[Path], path: &Path) -> bool {
    for one in paths {
        if one.is(path) {
            return true;
        }
    }
    false
}

// What stands at the path, if anything.
fn compare_thing(
    differences: &mut Differences,
    host: &MemHost,
    wanted: &Wanted,
    path: &Path,
) -> Result<(), AllocError> {
    let opening = &host.journal().opening;
    match host.thing(path) {
        Thing::Nothing => Ok(()),
        Thing::File(_) => compare_file(differences, host, wanted, path),
        Thing::Directory if is_wanted_dir(host, wanted, path) => Ok(()),
        Thing::Other if is_listed(opening.others.as_slice(), path) => Ok(()),
        Thing::Directory => differences.add(path.bytes(), b"is a directory", b"none"),
        Thing::Other => differences.add(path.bytes(), b"is of another kind", b"nothing"),
    }
}

// A file that is wanted, where none stands.
fn compare_gone(
    differences: &mut Differences,
    host: &MemHost,
    path: &Path,
    wanted: &[u8],
) -> Result<(), AllocError> {
    if host.file(path).is_none() {
        differences.add(path.bytes(), b"is no file", wanted)
    } else {
        Ok(())
    }
}

// A file of the opening, which is wanted where it lies in `/etc`.
fn compare_opened(
    differences: &mut Differences,
    host: &MemHost,
    wanted: &Wanted,
    path: &Path,
) -> Result<(), AllocError> {
    match wanted_bytes(host, wanted, path) {
        Some(bytes) if is_of_etc(path) => compare_gone(differences, host, path, bytes),
        _ => Ok(()),
    }
}

// The files that are wanted, where none stands.
fn compare_missing(
    differences: &mut Differences,
    host: &MemHost,
    wanted: &Wanted,
) -> Result<(), AllocError> {
    for (path, bytes) in &wanted.left {
        compare_gone(differences, host, path, bytes.as_slice())?;
    }
    for name in host.journal().opening.names.as_slice() {
        compare_opened(differences, host, wanted, &name.0)?;
    }
    Ok(())
}

// The directories of the opening and those that are listed, and what was neither file nor directory.
fn compare_others(
    differences: &mut Differences,
    host: &MemHost,
    paths: &[Path],
    kind: Thing,
    what: &[u8],
) -> Result<(), AllocError> {
    for path in paths {
        if host.thing(path) != kind {
            differences.add(path.bytes(), b"is none", what)?;
        }
    }
    Ok(())
}

// The whole tree.
fn compare_tree(
    differences: &mut Differences,
    host: &MemHost,
    wanted: &Wanted,
    paths: &[&Path],
) -> Result<(), AllocError> {
    let opening = &host.journal().opening;
    compare_missing(differences, host, wanted)?;
    compare_others(
        differences,
        host,
        &wanted.dirs,
        Thing::Directory,
        b"a directory",
    )?;
    let dirs = opening.dirs.as_slice();
    compare_others(differences, host, dirs, Thing::Directory, b"a directory")?;
    compare_others(
        differences,
        host,
        opening.others.as_slice(),
        Thing::Other,
        b"another kind",
    )?;
    for path in paths {
        compare_thing(differences, host, wanted, path)?;
    }
    Ok(())
}

// How many of the paths name a file of these bytes that isn't wanted by its path.
fn count_of(host: &MemHost, wanted: &Wanted, paths: &[&Path], bytes: &[u8]) -> u64 {
    let mut count = 0u64;
    for path in paths {
        if host.file(path) == Some(bytes) && wanted_bytes(host, wanted, path).is_none() {
            count = count.saturating_add(1);
        }
    }
    count
}

fn is_needed(alloc: Global, once: &Once, stopped: Option<Stopped>) -> Result<bool, Trouble> {
    match (&once.before, stopped) {
        (None, _) => Ok(once.is_needed),
        (Some(called), Some(stopped)) => {
            Ok(stopped.at < number_of(alloc, stopped.first, 0, called)?)
        }
        (Some(_), None) => Err(Trouble::Odd("no stop comes")),
    }
}

fn compare_once(
    alloc: Global,
    differences: &mut Differences,
    host: &MemHost,
    wanted: &Wanted,
    paths: &[&Path],
    stopped: Option<Stopped>,
) -> Result<(), Trouble> {
    for once in &wanted.once {
        let is_needed = is_needed(alloc, once, stopped)?;
        let count = count_of(host, wanted, paths, once.bytes.as_slice());
        if (count > 1 && !once.may_repeat) || (count == 0 && is_needed) {
            differences.add(b"names of", once.bytes.as_slice(), b"one")?;
        }
    }
    Ok(())
}

fn compare_changes(
    alloc: Global,
    differences: &mut Differences,
    host: &MemHost,
    wanted: &[u8],
    mark: Mark,
) -> Result<(), AllocError> {
    let entries = host.journal().entries.as_slice();
    let found = changes_text(alloc, entries, mark.entries)?;
    differences.compare(b"changes", found.as_slice(), wanted)
}

fn compare_calls(
    alloc: Global,
    differences: &mut Differences,
    host: &MemHost,
    wanted: &[u8],
    mark: Mark,
) -> Result<(), AllocError> {
    let entries = host.journal().entries.as_slice();
    let found = entries_text(alloc, entries, mark.entries)?;
    differences.compare(b"calls", found.as_slice(), wanted)
}

// Where no call is wanted, none was made, be it one that failed.
fn compare_count(
    differences: &mut Differences,
    host: &MemHost,
    wanted: &[u8],
    mark: Mark,
) -> Result<(), AllocError> {
    if wanted.is_empty() {
        differences.count(
            b"count of calls",
            host.calls().saturating_sub(mark.calls),
            0,
        )
    } else {
        Ok(())
    }
}

fn compare_entries(
    alloc: Global,
    differences: &mut Differences,
    host: &MemHost,
    wanted: &Wanted,
    mark: Mark,
) -> Result<(), AllocError> {
    if let Some(text) = &wanted.changes {
        compare_changes(alloc, differences, host, text.as_slice(), mark)?;
    }
    if let Some(text) = &wanted.told {
        compare_calls(alloc, differences, host, text.as_slice(), mark)?;
        compare_count(differences, host, text.as_slice(), mark)?;
    }
    Ok(())
}

// How many lines of the text end so.
fn count_lines(text: &[u8], end: &[u8]) -> u64 {
    let mut count = 0u64;
    for line in text.split(|byte| *byte == b'\n') {
        if line.ends_with(end) {
            count = count.saturating_add(1);
        }
    }
    count
}

fn compare_lines(
    differences: &mut Differences,
    wanted: &Wanted,
    printed: &[u8],
) -> Result<(), AllocError> {
    for (count, end) in &wanted.lines {
        let found = count_lines(printed, end.as_slice());
        differences.count(b"count of lines", found, *count)?;
    }
    Ok(())
}

// The report ends with the fault of the output.
fn compare_out(differences: &mut Differences, tells_out: bool) -> Result<(), AllocError> {
    if tells_out {
        Ok(())
    } else {
        differences.add(
            b"the report",
            b"ends otherwise",
            b"told that the output failed",
        )
    }
}

// What was wanted where no put fails, as it is where one does: a run's status is that of a report with a fault.
fn compare_cut(
    differences: &mut Differences,
    wanted: &Wanted,
    answer: Answer,
) -> Result<(), AllocError> {
    let status = match wanted.status {
        Some(status) if status > 1 => status,
        _ => 1,
    };
    differences.count(b"status", u64::from(answer.status), u64::from(status))?;
    if let Some(text) = answer.wanted
        && !text.starts_with(answer.printed)
    {
        differences.add(b"printed", answer.printed, text)?;
    }
    compare_out(differences, answer.tells_out)
}

fn compare_told(
    differences: &mut Differences,
    wanted: &Wanted,
    answer: Answer,
) -> Result<(), AllocError> {
    compare_lines(differences, wanted, answer.printed)?;
    if wanted.tells_out {
        compare_out(differences, answer.tells_out)
    } else {
        Ok(())
    }
}

fn compare_answer(
    differences: &mut Differences,
    wanted: &Wanted,
    answer: Answer,
) -> Result<(), AllocError> {
    match wanted.status {
        Some(status) => {
            differences.count(b"status", u64::from(answer.status), u64::from(status))?;
        }
        None if answer.status < 2 => {}
        None => differences.count(b"status", u64::from(answer.status), 1)?,
    }
    match (answer.wanted, &wanted.printed) {
        (Some(text), _) => differences.compare(b"printed", answer.printed, text),
        (None, Some(text)) => differences.compare(b"printed", answer.printed, text.as_slice()),
        (None, None) => Ok(()),
    }
}

fn compare_alone(
    differences: &mut Differences,
    host: &MemHost,
    mark: Mark,
) -> Result<(), AllocError> {
    if leave_alone(host.journal().entries.as_slice(), mark.entries) {
        Ok(())
    } else {
        differences.add(b"the disk", b"is changed", b"left alone")
    }
}

// All that stands.
fn compare_all(
    alloc: Global,
    differences: &mut Differences,
    host: &MemHost,
    wanted: &Wanted,
    stopped: Option<Stopped>,
) -> Result<(), Trouble> {
    let paths = all_paths(alloc, host)?;
    compare_tree(differences, host, wanted, &paths)?;
    compare_once(alloc, differences, host, wanted, &paths, stopped)
}

/// Adds what differs from what is wanted of a call.
pub fn put_differences(
    alloc: Global,
    differences: &mut Differences,
    host: &MemHost,
    wanted: &Wanted,
    answer: Answer,
    mark: Mark,
    stopped: Option<Stopped>,
) -> Result<(), Trouble> {
    if answer.is_cut {
        compare_cut(differences, wanted, answer)?;
    } else {
        compare_answer(differences, wanted, answer)?;
        compare_told(differences, wanted, answer)?;
    }
    compare_entries(alloc, differences, host, wanted, mark)?;
    if wanted.is_alone {
        Ok(compare_alone(differences, host, mark)?)
    } else {
        compare_all(alloc, differences, host, wanted, stopped)
    }
}
