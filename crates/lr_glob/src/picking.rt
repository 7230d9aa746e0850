// The paths that one part of a word gives in a directory.
ghost use Rattle.std.specs.Prelude.{OnOk, IfOk};
ghost use Rattle.lr_rules.specs.Match.{literal_path};
ghost use Rattle.lr_glob.specs.Gathers.{Gathers, AddsPaths};
ghost use Rattle.lr_glob.specs.Parts.{JoinOf, PickOf};

use lr_match::matches;
use lr_rules::{Memory, Path, Text};
use lr_words::literal;
use std::alloc::Global;

// Adds the path of this name in the directory, where that is a path.
fn add_join(alloc: Global, dir: &Path, name: &[u8], into: &mut Vec<Path>) -> Result<(), Memory>
    ensures { OnOk result (AddsPaths (JoinOf dir.now name.now) into.old.items into.new.items) }
{
    match dir.join(alloc, name) {
        Ok(path) => Ok(into.push(path)?),
        Err(fault) => fault.passed_over(),
    }
}

// Adds the path of this name in the directory, where the part matches the name.
fn add_match(
    alloc: Global,
    part: &Text,
    dir: &Path,
    name: &Text,
    into: &mut Vec<Path>,
) -> Result<(), Memory>
    ensures { OnOk result (AddsPaths (PickOf part.now dir.now name.now) into.old.items into.new.items) }
{
    if matches(part.as_str(), name.as_str()) {
        add_join(alloc, dir, name.bytes(), into)
    } else {
        Ok(())
    }
}

/// Adds the paths of the names in the directory that the part matches, in their order.
pub fn add_matches(
    alloc: Global,
    part: &Text,
    dir: &Path,
    names: &[Text],
    into: &mut Vec<Path>,
) -> Result<(), Memory>
    ensures { OnOk result (AddsPaths (Gathers (PickOf part.now dir.now) names.now) into.old.items into.new.items) }
{
    for name in names {
        add_match(alloc, part, dir, name, into)?;
    }
    Ok(())
}

fn join_each(alloc: Global, name: &[u8], dirs: &[Path], into: &mut Vec<Path>) -> Result<(), Memory>
    ensures { OnOk result (AddsPaths (Gathers (λ dir its. JoinOf dir name.now its) dirs.now) into.old.items into.new.items) }
{
    for dir in dirs {
        add_join(alloc, dir, name, into)?;
    }
    Ok(())
}

/// The paths of the one name that a part without wildcard signs gives, in each of the directories.
pub fn joined_in_each(alloc: Global, part: &Text, dirs: &[Path]) -> Result<Vec<Path>, Memory>
    ensures { IfOk result (λ paths. Gathers (λ dir its. JoinOf dir (literal_path part.now) its) dirs.now paths.items) }
{
    let name = literal(alloc, part.bytes())?;
    let mut paths = Vec::new(alloc);
    join_each(alloc, name.as_slice(), dirs, &mut paths)?;
    Ok(paths)
}
