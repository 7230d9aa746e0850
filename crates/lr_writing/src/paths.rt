// The paths that a plan changes, and the directories that it makes.
ghost use Rattle.std.specs.Prelude.{◌≡◌, ◌++◌, IfOk, OnOk};
ghost use Rattle.lr_writing.specs.Synced.{changed_of, all_changed_of, made_of, to_make_of, all_to_make_of};

use lr_chain::Ready;
use lr_plan::{LogPlan, SetPlan};
use lr_rules::{Memory, Path};
use std::alloc::Global;

fn add_changed(alloc: Global, logs: &[LogPlan], paths: &mut Vec<Path>) -> Result<(), Memory>
    ensures { OnOk result (paths.new.items ≡ paths.old.items ++ changed_of logs.now) }
{
    for log in logs {
        paths.push(log.log.copy(alloc)?)?;
        paths.push(log.ready.target.copy(alloc)?)?;
    }
    Ok(())
}

/// The path of each log that a plan rotates, and the one that it gets.
pub fn changed_by_plan(alloc: Global, sets: &[SetPlan]) -> Result<Vec<Path>, Memory>
    ensures { IfOk result (λ paths. paths.items ≡ all_changed_of sets.now) }
{
    let mut paths = Vec::new(alloc);
    for set in sets {
        add_changed(alloc, set.logs.as_slice(), &mut paths)?;
    }
    Ok(paths)
}

// Adds the directory that the rotation is to make, if any.
fn add_made(alloc: Global, ready: &Ready, dirs: &mut Vec<Path>) -> Result<(), Memory>
    ensures { OnOk result (dirs.new.items ≡ dirs.old.items ++ made_of ready.now.dir) }
{
    if let Some((dir, _)) = &ready.dir {
        dirs.push(dir.copy(alloc)?)?;
    }
    Ok(())
}

fn add_to_make(alloc: Global, logs: &[LogPlan], dirs: &mut Vec<Path>) -> Result<(), Memory>
    ensures { OnOk result (dirs.new.items ≡ dirs.old.items ++ to_make_of logs.now) }
{
    for log in logs {
        add_made(alloc, &log.ready, dirs)?;
    }
    Ok(())
}

/// The directories that the rotations of a plan are to make.
pub fn to_make_by_plan(alloc: Global, sets: &[SetPlan]) -> Result<Vec<Path>, Memory>
    ensures { IfOk result (λ dirs. dirs.items ≡ all_to_make_of sets.now) }
{
    let mut dirs = Vec::new(alloc);
    for set in sets {
        add_to_make(alloc, set.logs.as_slice(), &mut dirs)?;
    }
    Ok(dirs)
}
