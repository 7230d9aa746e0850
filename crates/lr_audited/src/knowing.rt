// The line of each file, found by its path.
ghost use Rattle.std.specs.Prelude.{◌≡◌, ◌<◌, ◌++◌, ◌∷◌, [], length, slice_index_or, IfOk, OnOk};
ghost use Rattle.lr_kept.specs.Begun.{place_in};
ghost use Rattle.lr_audited.specs.InternalKnown.{IsIndexed};
ghost use Rattle.lr_audited.specs.Lines.{stranger, IsLine, AreLines};

use crate::known::Known;
use crate::line::{Line, What};
use indexmap::IndexMap;
use lr_rules::{Listed, Memory, Path};
use std::alloc::Global;

// Adds a line, and its place.
fn add_known(alloc: Global, known: &mut Known, line: Line) -> Result<(), Memory>
    requires { IsIndexed known.old }
    ensures lines { OnOk result (known.new.lines.items ≡ known.old.lines.items ++ line ∷ []) }
    ensures indexed { OnOk result (IsIndexed known.new) }
{
    let place = known.lines.len();
    let key = line.path.bytes().to_vec(alloc)?;
    known.places.insert(key, place)?;
    known.lines.push(line)?;
    Ok(())
}

/// The lines with the place of each.
pub fn known_of(alloc: Global, lines: Vec<Line>) -> Result<Known, Memory>
    ensures lines { IfOk result (λ known. known.lines.items ≡ lines.items) }
    ensures indexed { IfOk result IsIndexed }
{
    let mut known = Known {
        places: IndexMap::new(alloc),
        lines: Vec::new(alloc),
    };
    for line in lines {
        add_known(alloc, &mut known, line)?;
    }
    Ok(known)
}

fn copy_log(alloc: Global, log: &Option<Path>) -> Result<Option<Path>, Memory>
    ensures { IfOk result (λ copy. copy ≡ log.now) }
{
    match log {
        Some(path) => Ok(Some(path.copy(alloc)?)),
        None => Ok(None),
    }
}

fn copy_line(alloc: Global, line: &Line) -> Result<Line, Memory>
    ensures { IfOk result (λ copy. copy ≡ line.now) }
{
    let path = line.path.copy(alloc)?;
    let log = copy_log(alloc, &line.log)?;
    Ok(Line {
        path,
        what: line.what,
        log,
    })
}

fn stranger_at(alloc: Global, path: &Path) -> Result<Line, Memory>
    ensures { IfOk result (λ line. line ≡ stranger path.now) }
{
    Ok(Line {
        path: path.copy(alloc)?,
        what: What::Stranger,
        log: None,
    })
}

// A copy of the line at a place.
fn copy_at(alloc: Global, lines: &[Line], place: usize) -> Result<Line, Memory>
    requires { place < length lines.now }
    ensures { IfOk result (λ copy. slice_index_or lines.now place copy ≡ copy) }
{
    copy_line(alloc, &lines[place])
}

// The place of the line of a file, if there is one.
fn place_of(known: &Known, path: &Path) -> Option<usize>
    ensures { result ≡ place_in known.now.places.entries path.now }
{
    known.places.get(path.bytes()).copied()
}

// The line of a file.
fn line_for(alloc: Global, known: &Known, path: &Path) -> Result<Line, Memory>
    requires { IsIndexed known.now }
    ensures { IfOk result (IsLine known.now.lines.items path.now) }
{
    match place_of(known, path) {
        Some(place) => copy_at(alloc, &known.lines, place),
        None => stranger_at(alloc, path),
    }
}

/// The line of each file, in order.
pub fn lines_for(alloc: Global, known: &Known, files: &[Path]) -> Result<Listed<Line>, Memory>
    requires { IsIndexed known.now }
    ensures { IfOk result (AreLines known.now.lines.items files.now) }
{
    let mut lines = Vec::new(alloc);
    for file in files {
        let line = line_for(alloc, known, file)?;
        lines.push(line)?;
    }
    Ok(Listed::from_vec(lines))
}
