// What is made ready behind the looks, before the first act.
ghost use Rattle.std.specs.Prelude.{◌≡◌, ◌≤◌, ◌+◌, ◌++◌, [], IfOk, OnOk, length, nat_le, vec_len};
ghost use Rattle.std.specs.Vec.{vec_capacity};
ghost use Rattle.lr_acts.specs.Adding.{HasRoom};
ghost use Rattle.lr_acts.specs.Making.{all_of_sets};
ghost use Rattle.lr_plan.specs.Steps.{steps_of_plan};
ghost use Rattle.lr_rules.specs.StatePath.{state_part};
ghost use Rattle.lr_state.specs.After.{after};
ghost use Rattle.lr_run.specs.Paths.{measured_of};
ghost use Rattle.lr_run.specs.Internal.{IsRunReady, MayBeReady};

use crate::fault_copy::copy_fault;
use crate::paths::logs_of_plan;
use lr_acts::{Progress, take_room};
use lr_plan::{Plan, SetSteps, steps_of};
use lr_rules::{Civil, Fault, Listed, Memory, Moment, Path};
use lr_state::{Remembered, State, bring_up, fits};
use lr_writing::{Directories, Writing, directories_by, prepare};
use std::alloc::Global;

/// All that a run needs for its acts: the steps of its plan, the directories that are synced behind them, the state's
/// writing, and the table that is written, in which no log is rotated yet.
#[derive(Drop)]
pub struct Ready {
    pub steps: Listed<SetSteps>,
    pub directories: Directories,
    pub writing: Writing,
    pub table: State,
}

/// Brings the table up to the looks; the answer is whether the text is small enough, however the rotations end.
pub fn bring_up_to(
    alloc: Global,
    table: &mut State,
    kept: &[Path],
    plan: &Plan,
    now: &Civil,
) -> Result<bool, Memory>
    ensures table { OnOk result (table.new ≡ after table.old [] kept.now now.now) }
    ensures small { IfOk result (λ b. b ≡ nat_le (length (measured_of plan.now table.old kept.now now.now)) 67_108_864) }
{
    bring_up(alloc, table, kept, now)?;
    let due = logs_of_plan(alloc, plan.sets.as_slice())?;
    fits(alloc, table, &due, now)
}

/// Adds copies of these faults.
pub fn add_all(alloc: Global, faults: &mut Vec<Fault>, more: &[Fault]) -> Result<(), Memory>
    ensures { OnOk result (faults.new.items ≡ faults.old.items ++ more.now) }
{
    for fault in more {
        faults.push(copy_fault(alloc, fault)?)?;
    }
    Ok(())
}

// Makes the steps of a plan ready: adds its faults, and takes the room that its acts need.
fn steps_ready(
    alloc: Global,
    plan: &Plan,
    progress: &mut Progress,
) -> Result<Listed<SetSteps>, Memory>
    ensures steps { IfOk result (λ sets. sets ≡ steps_of_plan plan.now) }
    ensures faults { OnOk result (progress.new.faults.items ≡ progress.old.faults.items ++ plan.now.faults) }
    ensures marks { progress.new.marks.items ≡ progress.old.marks.items }
    ensures room { IfOk result (λ sets. HasRoom (length (all_of_sets sets)) progress.new) }
    ensures two_more { IfOk result (λ sets. vec_len progress.new.faults + length (all_of_sets sets) + 2 ≤ vec_capacity
        progress.new.faults) }
{
    add_all(alloc, &mut progress.faults, plan.faults.as_slice())?;
    let steps = steps_of(alloc, plan.sets.as_slice())?;
    take_room(progress, steps.as_slice())?;
    Ok(steps)
}

// Takes what the state's writing, the syncs before it and the steps need.
fn all_ready(
    alloc: Global,
    state: &Path,
    part: Path,
    stale: bool,
    plan: &Plan,
    table: State,
    progress: &mut Progress,
) -> Result<Ready, Memory>
    requires { part ≡ state_part state.now }
    ensures { IfOk result (λ ready. IsRunReady state.now stale plan.now table ready progress.old progress.new) }
{
    let Ok(writing) = prepare(alloc, state, part, stale) else {
        drop(table);
        return Err(Memory);
    };
    let Ok(directories) = directories_by(alloc, plan.sets.as_slice()) else {
        drop((writing, table));
        return Err(Memory);
    };
    let Ok(steps) = steps_ready(alloc, plan, progress) else {
        drop((directories, writing, table));
        return Err(Memory);
    };
    Ok(Ready {
        steps,
        directories,
        writing,
        table,
    })
}

/// Takes all memory that the acts of a plan and the state's writing need, where these logs are kept; adds the faults of the
/// plan. None, and nothing is added, where the text of the state could become too big.
pub fn make_ready(
    alloc: Global,
    state: &Path,
    now: &Moment,
    kept: &[Path],
    plan: &Plan,
    part: Path,
    remembered: Remembered,
    progress: &mut Progress,
) -> Result<Option<Ready>, Memory>
    requires { part ≡ state_part state.now }
    ensures { IfOk result (λ ready. MayBeReady state.now now.now remembered kept.now plan.now ready progress.old progress.new) }
{
    let Remembered { mut table, stale } = remembered;
    let small = bring_up_to(alloc, &mut table, kept, plan, &now.civil)?;
    if !small {
        return Ok(None);
    }
    Ok(Some(all_ready(alloc, state, part, stale, plan, table, progress)?))
}
