// The disk in memory that a row begins with.
use lr_host::{OpenFile, Opening};
use lr_memhost::{MemFault, MemHost};
use lr_rows_line::Trouble;
use lr_rows_read::{Start, StartFile};
use lr_rules::{Listed, Path};
use std::alloc::{AllocError, Global};

fn add_paths(alloc: Global, paths: &mut Listed<Path>, all: &[Path]) -> Result<(), Trouble> {
    for path in all {
        paths.push(path.copy(alloc)?)?;
    }
    Ok(())
}

// The bytes of the file, for the configuration those that stand in their place.
fn bytes_of<'a>(file: &'a StartFile, conf: Option<&'a [u8]>) -> &'a [u8] {
    match conf {
        Some(bytes) if file.path.has_bytes(b"/etc/c") => bytes,
        _ => file.bytes.as_slice(),
    }
}

// How much of the file is synced, where the configuration may be cut off.
fn synced_of(file: &StartFile, bytes: &[u8]) -> u64 {
    if bytes.len() < file.bytes.len() {
        file.synced.min(bytes.len() as u64)
    } else {
        file.synced
    }
}

fn open_file(alloc: Global, file: &StartFile, bytes: &[u8]) -> Result<OpenFile, AllocError> {
    Ok(OpenFile {
        bytes: Listed::from_vec(Vec::from_slice(alloc, bytes)?),
        synced: synced_of(file, bytes),
        mtime: file.mtime,
        mode: file.mode,
    })
}

// Adds a file without a name.
fn add_nameless(alloc: Global, opening: &mut Opening, bytes: &[u8]) -> Result<(), Trouble> {
    opening.files.push(OpenFile {
        bytes: Listed::from_vec(Vec::from_slice(alloc, bytes)?),
        synced: bytes.len() as u64,
        mtime: 0,
        mode: None,
    })?;
    Ok(())
}

fn add_name(alloc: Global, opening: &mut Opening, path: &Path, place: u64) -> Result<(), Trouble> {
    opening.names.push((path.copy(alloc)?, place))?;
    Ok(())
}

// Adds an empty file.
fn add_empty(alloc: Global, opening: &mut Opening, path: &Path) -> Result<(), Trouble> {
    let place = opening.files.len() as u64;
    add_nameless(alloc, opening, b"")?;
    add_name(alloc, opening, path, place)
}

fn add_file(
    alloc: Global,
    opening: &mut Opening,
    file: &StartFile,
    conf: Option<&[u8]>,
) -> Result<(), Trouble> {
    let place = opening.files.len() as u64;
    let bytes = bytes_of(file, conf);
    opening.files.push(open_file(alloc, file, bytes)?)?;
    add_name(alloc, opening, &file.path, place)
}

fn empty_opening(alloc: Global) -> Opening {
    Opening {
        files: Listed::new(alloc),
        dirs: Listed::new(alloc),
        others: Listed::new(alloc),
        names: Listed::new(alloc),
        holds: Listed::new(alloc),
    }
}

fn add_all_nameless(alloc: Global, opening: &mut Opening, all: &[Vec<u8>]) -> Result<(), Trouble> {
    for bytes in all {
        add_nameless(alloc, opening, bytes.as_slice())?;
    }
    Ok(())
}

fn add_names(alloc: Global, opening: &mut Opening, all: &[(Path, u64)]) -> Result<(), Trouble> {
    for (path, place) in all {
        add_name(alloc, opening, path, *place)?;
    }
    Ok(())
}

fn add_holds(opening: &mut Opening, all: &[(u32, u64)]) -> Result<(), Trouble> {
    for hold in all {
        opening.holds.push(*hold)?;
    }
    Ok(())
}

// Files without names, more names, and holds.
fn add_odd(alloc: Global, opening: &mut Opening, start: &Start) -> Result<(), Trouble> {
    add_all_nameless(alloc, opening, &start.nameless)?;
    add_names(alloc, opening, &start.names)?;
    add_holds(opening, &start.holds)
}

fn fill(
    alloc: Global,
    opening: &mut Opening,
    start: &Start,
    conf: Option<&[u8]>,
) -> Result<(), Trouble> {
    add_paths(alloc, &mut opening.dirs, &start.dirs)?;
    add_paths(alloc, &mut opening.others, &start.others)?;
    for file in &start.files {
        add_file(alloc, opening, file, conf)?;
    }
    add_odd(alloc, opening, start)
}

fn opening(
    alloc: Global,
    start: &Start,
    conf: Option<&[u8]>,
    more: Option<&Path>,
) -> Result<Opening, Trouble> {
    let mut opening = empty_opening(alloc);
    fill(alloc, &mut opening, start, conf)?;
    if let Some(path) = more {
        add_empty(alloc, &mut opening, path)?;
    }
    Ok(opening)
}

/// The host over the disk of the row: with these bytes in place of its configuration, and with an empty file more, where
/// they are given.
pub fn host_of(
    alloc: Global,
    start: &Start,
    conf: Option<&[u8]>,
    more: Option<&Path>,
) -> Result<MemHost, Trouble> {
    let made = MemHost::new(
        alloc,
        opening(alloc, start, conf, more)?,
        Vec::new(alloc),
        Vec::new(alloc),
        Vec::from_slice(alloc, &start.ends)?,
        start.piece,
    );
    match made {
        Ok(host) => Ok(host),
        Err(MemFault::BadOpening) => Err(Trouble::Odd("the opening is not one of a disk")),
        Err(MemFault::Memory) => Err(Trouble::Memory),
    }
}
