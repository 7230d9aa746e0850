// The directories that a run syncs.
ghost use Rattle.std.specs.Prelude.{◌≡◌, List, filter, not, IfOk};
ghost use Rattle.std.specs.BTreeSet.{contains_text};
ghost use Rattle.lr_plan.specs.declared.plan.SetPlan.{SetPlan};
ghost use Rattle.lr_writing.specs.Before.{IsBy};
ghost use Rattle.lr_writing.specs.Synced.{AreSynced};

use crate::directories::directories_of;
use crate::paths::{changed_by_plan, to_make_by_plan};
use crate::unmade::{set_of, strike_all};
use lr_plan::{Mark, SetPlan};
use lr_rules::{Listed, Memory, Path};
use std::alloc::Global;
use std::collections::BTreeSet;

/// What is known before the acts of the directories that a run syncs behind them.
#[derive(Drop)]
pub struct Directories {
    // Those of all paths that the acts change or make, each once, in order of bytes.
    all: Listed<Path>,
    // Those that are to be made.
    to_make: BTreeSet<String>,
}

/// Takes what the directories of these plans need.
pub fn directories_by(alloc: Global, sets: &[SetPlan]) -> Result<Directories, Memory>
    ensures { IfOk result (λ directories. IsBy sets.now directories) }
{
    let mut dirs = to_make_by_plan(alloc, sets)?;
    let to_make = set_of(alloc, &dirs)?;
    let mut paths = changed_by_plan(alloc, sets)?;
    paths.append(&mut dirs)?;
    let all = directories_of(alloc, &paths)?;
    Ok(Directories { all, to_make })
}

// Those that are not among the unmade.
fn without(dirs: Listed<Path>, unmade: &BTreeSet<String>) -> Listed<Path>
    ensures { result ≡ filter (λ dir. not (contains_text unmade.now dir)) dirs }
{
    let mut dirs = dirs.into_vec();
    dirs.retain(|dir| !unmade.contains(dir.as_str()));
    Listed::from_vec(dirs)
}

/// The directories that are synced behind acts that left these marks. It takes no memory.
pub fn synced(directories: Directories, marks: &[Mark]) -> Listed<Path>
    ensures { (sets : List SetPlan) → IsBy sets directories → AreSynced sets marks.now result }
{
    let Directories {
        all,
        to_make: mut unmade,
    } = directories;
    strike_all(&mut unmade, marks);
    without(all, &unmade)
}
