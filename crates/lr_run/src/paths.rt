// The logs of a plan.
ghost use Rattle.std.specs.Prelude.{◌≡◌, ◌++◌, IfOk, OnOk};
ghost use Rattle.lr_run.specs.Paths.{logs_rotated, all_logs_of};

use lr_plan::{LogPlan, SetPlan};
use lr_rules::{Memory, Path};
use std::alloc::Global;

fn add_logs(alloc: Global, logs: &[LogPlan], paths: &mut Vec<Path>) -> Result<(), Memory>
    ensures { OnOk result (paths.new.items ≡ paths.old.items ++ logs_rotated logs.now) }
{
    for log in logs {
        paths.push(log.log.copy(alloc)?)?;
    }
    Ok(())
}

/// The logs that a plan rotates, of all its definitions.
pub fn logs_of_plan(alloc: Global, sets: &[SetPlan]) -> Result<Vec<Path>, Memory>
    ensures { IfOk result (λ paths. paths.items ≡ all_logs_of sets.now) }
{
    let mut paths = Vec::new(alloc);
    for set in sets {
        add_logs(alloc, set.logs.as_slice(), &mut paths)?;
    }
    Ok(paths)
}
