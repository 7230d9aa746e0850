// The steps of definitions, by what a failed one ends.
ghost use Rattle.std.specs.Prelude.{◌≡◌, ◌≢◌, ◌++◌, [], map, OnOk, IfOk};
ghost use Rattle.std.specs.List.{flat_map};
ghost use Rattle.lr_rules.specs.declared.fault.Phase.TheVariants as phase;
ghost use Rattle.lr_plan.specs.Steps.{program, retirement_of, rotation_of, steps_of_log, single_steps, shared_steps, steps_of_set};

use crate::plan::{LogPlan, SetPlan};
use crate::step::{SetSteps, Step};
use crate::steps::{add_all, add_program, add_retirement, add_rotation};
use lr_rules::{Listed, Memory, Phase};
use lr_scripts::Command;
use std::alloc::Global;

// Adds what comes behind the rotation of a log by itself.
fn add_rest(alloc: Global, steps: &mut Vec<Step>, log: &LogPlan) -> Result<(), Memory>
    ensures { OnOk result (steps.new.items ≡ steps.old.items ++ (program phase.Post log.now.post ++ retirement_of log.now)) }
{
    add_program(alloc, steps, Phase::Post, &log.post)?;
    add_retirement(alloc, steps, log)
}

// Adds the steps of a log by itself.
fn add_log(alloc: Global, steps: &mut Vec<Step>, log: &LogPlan) -> Result<(), Memory>
    ensures { OnOk result (steps.new.items ≡ steps.old.items ++ steps_of_log log.now) }
{
    add_program(alloc, steps, Phase::Pre, &log.pre)?;
    add_rotation(alloc, steps, log)?;
    add_rest(alloc, steps, log)
}

fn log_steps(alloc: Global, log: &LogPlan) -> Result<Listed<Step>, Memory>
    ensures { IfOk result (λ steps. steps ≡ steps_of_log log.now) }
{
    let mut steps = Vec::new(alloc);
    add_log(alloc, &mut steps, log)?;
    Ok(Listed::from_vec(steps))
}

fn each_steps(alloc: Global, logs: &[LogPlan]) -> Result<Listed<Listed<Step>>, Memory>
    ensures { IfOk result (λ each. each ≡ map steps_of_log logs.now) }
{
    let mut each = Vec::new(alloc);
    for log in logs {
        each.push(log_steps(alloc, log)?)?;
    }
    Ok(Listed::from_vec(each))
}

// Adds the rotation of a log to the one list, and its retirement to the other.
fn add_parts(
    alloc: Global,
    steps: &mut Vec<Step>,
    rest: &mut Vec<Step>,
    log: &LogPlan,
) -> Result<(), Memory>
    ensures rotation { OnOk result (steps.new.items ≡ steps.old.items ++ rotation_of log.now) }
    ensures retirement { OnOk result (rest.new.items ≡ rest.old.items ++ retirement_of log.now) }
{
    add_rotation(alloc, steps, log)?;
    add_retirement(alloc, rest, log)
}

// Adds the rotations of all logs to the one list, and their retirements to the other.
fn add_logs(
    alloc: Global,
    steps: &mut Vec<Step>,
    rest: &mut Vec<Step>,
    logs: &[LogPlan],
) -> Result<(), Memory>
    ensures rotation { OnOk result (steps.new.items ≡ steps.old.items ++ flat_map rotation_of logs.now) }
    ensures retirement { OnOk result (rest.new.items ≡ rest.old.items ++ flat_map retirement_of logs.now) }
{
    for log in logs {
        add_parts(alloc, steps, rest, log)?;
    }
    Ok(())
}

// Adds the rotations of all logs, a postrotate, and their retirements.
fn add_shared_logs(alloc: Global, steps: &mut Vec<Step>, set: &SetPlan) -> Result<(), Memory>
    ensures { OnOk result (steps.new.items ≡ steps.old.items
        ++ (flat_map rotation_of set.now.logs ++ (program phase.Post set.now.post ++ flat_map retirement_of set.now.logs))) }
{
    let mut rest = Vec::new(alloc);
    add_logs(alloc, steps, &mut rest, set.logs.as_slice())?;
    add_program(alloc, steps, Phase::Post, &set.post)?;
    add_all(steps, rest)
}

// Adds the same, and a lastaction.
fn add_shared_rest(alloc: Global, steps: &mut Vec<Step>, set: &SetPlan) -> Result<(), Memory>
    ensures { OnOk result (steps.new.items ≡ steps.old.items
        ++ (flat_map rotation_of set.now.logs ++ (program phase.Post set.now.post
        ++ (flat_map retirement_of set.now.logs ++ program phase.Last set.now.last)))) }
{
    add_shared_logs(alloc, steps, set)?;
    add_program(alloc, steps, Phase::Last, &set.last)
}

// Adds the programs before all rotations.
fn add_programs(alloc: Global, steps: &mut Vec<Step>, set: &SetPlan) -> Result<(), Memory>
    ensures { OnOk result (steps.new.items ≡ steps.old.items
        ++ (program phase.First set.now.first ++ program phase.Pre set.now.pre)) }
{
    add_program(alloc, steps, Phase::First, &set.first)?;
    add_program(alloc, steps, Phase::Pre, &set.pre)
}

// Adds the steps of logs that share their scripts.
fn add_shared(alloc: Global, steps: &mut Vec<Step>, set: &SetPlan) -> Result<(), Memory>
    ensures { OnOk result (steps.new.items ≡ steps.old.items ++ shared_steps set.now) }
{
    add_programs(alloc, steps, set)?;
    add_shared_rest(alloc, steps, set)
}

fn shared_list(alloc: Global, set: &SetPlan) -> Result<Listed<Step>, Memory>
    ensures { IfOk result (λ steps. steps ≡ shared_steps set.now) }
{
    let mut steps = Vec::new(alloc);
    add_shared(alloc, &mut steps, set)?;
    Ok(Listed::from_vec(steps))
}

fn shared_set(alloc: Global, set: &SetPlan) -> Result<SetSteps, Memory>
    ensures { IfOk result (λ parts. parts ≡ record { first = shared_steps set.now; each = []; last = [] }) }
{
    let first = shared_list(alloc, set)?;
    Ok(SetSteps {
        first,
        each: Listed::new(alloc),
        last: Listed::new(alloc),
    })
}

fn program_list(
    alloc: Global,
    phase: Phase,
    command: &Option<Command>,
) -> Result<Listed<Step>, Memory>
    ensures { IfOk result (λ steps. steps ≡ program phase command.now) }
{
    let mut steps = Vec::new(alloc);
    add_program(alloc, &mut steps, phase, command)?;
    Ok(Listed::from_vec(steps))
}

// The steps of logs each by itself, and the programs before and behind them.
fn single_set(alloc: Global, set: &SetPlan) -> Result<SetSteps, Memory>
    ensures { IfOk result (λ parts. parts ≡ single_steps set.now) }
{
    let first = program_list(alloc, Phase::First, &set.first)?;
    let last = program_list(alloc, Phase::Last, &set.last)?;
    let each = each_steps(alloc, set.logs.as_slice())?;
    Ok(SetSteps { first, each, last })
}

fn no_steps(alloc: Global) -> SetSteps
    ensures { result ≡ record { first = []; each = []; last = [] } }
{
    SetSteps {
        first: Listed::new(alloc),
        each: Listed::new(alloc),
        last: Listed::new(alloc),
    }
}

// The steps of a definition with a due log.
fn due_steps(alloc: Global, set: &SetPlan) -> Result<SetSteps, Memory>
    requires { set.now.logs ≢ [] }
    ensures { IfOk result (λ parts. parts ≡ steps_of_set set.now) }
{
    if set.shared {
        shared_set(alloc, set)
    } else {
        single_set(alloc, set)
    }
}

// The steps of a definition: none where no log is due.
fn set_steps(alloc: Global, set: &SetPlan) -> Result<SetSteps, Memory>
    ensures { IfOk result (λ parts. parts ≡ steps_of_set set.now) }
{
    if set.logs.len() == 0 {
        Ok(no_steps(alloc))
    } else {
        due_steps(alloc, set)
    }
}

/// The steps of all definitions, with a copy of all that they and their faults name: making them takes no memory but for
/// programs.
pub fn steps_of(alloc: Global, sets: &[SetPlan]) -> Result<Listed<SetSteps>, Memory>
    ensures { IfOk result (λ parts. parts ≡ map steps_of_set sets.now) }
{
    let mut parts = Vec::new(alloc);
    for set in sets {
        parts.push(set_steps(alloc, set)?)?;
    }
    Ok(Listed::from_vec(parts))
}
