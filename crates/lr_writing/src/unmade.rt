// The directories that are to be made, and of which no mark tells so far.
ghost use Rattle.std.specs.Prelude.{◌≡◌, ◌||◌, ◌&&◌, not, List, ℕ, IfOk, OnOk};
ghost use Rattle.std.specs.List.{list_any};
ghost use Rattle.std.specs.Str.{bytes_eq};
ghost use Rattle.std.specs.BTreeSet.{contains_text};
ghost use Rattle.lr_writing.specs.Synced.{made_by, made_in};

use lr_plan::Mark;
use lr_rules::{Memory, Path};
use std::alloc::Global;
use std::collections::BTreeSet;

fn add_dir(alloc: Global, unmade: &mut BTreeSet<String>, dir: &Path) -> Result<(), Memory>
    ensures { OnOk result ((path : List ℕ) → contains_text unmade.new path
        ≡ (contains_text unmade.old path || bytes_eq path dir.now)) }
{
    let text = String::from_str(alloc, dir.as_str())?;
    unmade.insert(text)?;
    Ok(())
}

/// The set of these directories.
pub fn set_of(alloc: Global, dirs: &[Path]) -> Result<BTreeSet<String>, Memory>
    ensures { IfOk result (λ unmade. (path : List ℕ) → contains_text unmade path ≡ list_any (bytes_eq path) dirs.now) }
{
    let mut unmade = BTreeSet::new(alloc);
    for dir in dirs {
        add_dir(alloc, &mut unmade, dir)?;
    }
    Ok(unmade)
}

// Strikes the directory of which the mark tells, if any.
fn strike(unmade: &mut BTreeSet<String>, mark: &Mark)
    ensures { (path : List ℕ) → contains_text unmade.new path
        ≡ (contains_text unmade.old path && not (list_any (bytes_eq path) (made_by mark.now))) }
{
    if let Mark::Directory(dir) = mark {
        unmade.remove(dir.as_str());
    }
}

/// Strikes the directories of which marks tell.
pub fn strike_all(unmade: &mut BTreeSet<String>, marks: &[Mark])
    ensures { (path : List ℕ) → contains_text unmade.new path
        ≡ (contains_text unmade.old path && not (list_any (bytes_eq path) (made_in marks.now))) }
{
    for mark in marks {
        strike(unmade, mark);
    }
}
