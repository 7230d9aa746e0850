// The steps of a plan, made before the first of them is taken. They hold copies of what the plan names.
ghost use Rattle.std.specs.Prelude.{◌≡◌, ◌∷◌, ◌++◌, [], Some, map, slice_index_or, option_copied, OnOk, IfOk};
ghost use Rattle.lr_rules.specs.declared.fault.Phase.TheVariants as phase;
ghost use Rattle.lr_plan.specs.declared.step.Step.TheVariants as step;
ghost use Rattle.lr_plan.specs.Steps.{input_of, on_of, program, removal, removals, directory, move, copy, transfer};
ghost use Rattle.lr_plan.specs.Steps.{anew, made_anew};
ghost use Rattle.lr_plan.specs.Steps.{rotation_of, finishing, retirement_of, step_if};

use crate::plan::LogPlan;
use crate::step::Step;
use lr_chain::{Move, Ready};
use lr_copy::Job;
use lr_rules::{Make, Memory, Path, Phase, Text, text_of};
use lr_scripts::{Command, Removal};
use std::alloc::Global;

fn input_text(alloc: Global, input: Option<&Path>) -> Result<Text, Memory>
    ensures { IfOk result (λ text. text ≡ input_of (option_copied input.entry)) }
{
    match input {
        Some(path) => text_of(alloc, path.bytes()),
        None => text_of(alloc, b""),
    }
}

fn argument_text(alloc: Global, args: &[Text]) -> Result<Text, Memory>
    ensures { IfOk result (λ text. text ≡ slice_index_or args.now 3 []) }
{
    if 3 < args.len() {
        return Ok(args[3].copy(alloc)?);
    }
    text_of(alloc, b"")
}

// What the program is about, as its fault tells.
fn on_text(alloc: Global, phase: Phase, command: &Command) -> Result<Text, Memory>
    ensures { IfOk result (λ text. text ≡ on_of phase command.now) }
{
    match phase {
        Phase::Mail => input_text(alloc, command.input.as_ref()),
        _ => argument_text(alloc, command.args.as_slice()),
    }
}

// The step of a program.
fn run_step(alloc: Global, phase: Phase, command: &Command) -> Result<Step, Memory>
    ensures { IfOk result (λ made. made ≡ step.Runs phase (on_of phase command.now) command.now) }
{
    let on = on_text(alloc, phase, command)?;
    let command = command.copy(alloc)?;
    Ok(Step::Runs { phase, on, command })
}

/// Adds the step of a program, where there is one.
pub fn add_program(
    alloc: Global,
    steps: &mut Vec<Step>,
    phase: Phase,
    command: &Option<Command>,
) -> Result<(), Memory>
    ensures { OnOk result (steps.new.items ≡ steps.old.items ++ program phase command.now) }
{
    if let Some(command) = command {
        steps.push(run_step(alloc, phase, command)?)?;
    }
    Ok(())
}

fn add_removal(alloc: Global, steps: &mut Vec<Step>, file: &Removal) -> Result<(), Memory>
    ensures { OnOk result (steps.new.items ≡ steps.old.items ++ removal file.now) }
{
    add_program(alloc, steps, Phase::Preremove, &file.preremove)?;
    add_program(alloc, steps, Phase::Mail, &file.mail)?;
    steps.push(Step::Removes {
        path: file.path.copy(alloc)?,
    })?;
    Ok(())
}

fn add_removals(alloc: Global, steps: &mut Vec<Step>, list: &[Removal]) -> Result<(), Memory>
    ensures { OnOk result (steps.new.items ≡ steps.old.items ++ removals list.now) }
{
    for file in list {
        add_removal(alloc, steps, file)?;
    }
    Ok(())
}

fn rename_step(alloc: Global, from: &Path, to: &Path) -> Result<Step, Memory>
    ensures { IfOk result (λ made. made ≡ step.Renames from.now to.now) }
{
    let from = from.copy(alloc)?;
    let to = to.copy(alloc)?;
    Ok(Step::Renames { from, to })
}

fn add_moves(alloc: Global, steps: &mut Vec<Step>, list: &[Move]) -> Result<(), Memory>
    ensures { OnOk result (steps.new.items ≡ steps.old.items ++ map move list.now) }
{
    for one in list {
        steps.push(rename_step(alloc, &one.from, &one.to)?)?;
    }
    Ok(())
}

fn add_directory(
    alloc: Global,
    steps: &mut Vec<Step>,
    dir: &Option<(Path, Option<u32>)>,
) -> Result<(), Memory>
    ensures { OnOk result (steps.new.items ≡ steps.old.items ++ directory dir.now) }
{
    if let Some((path, mode)) = dir {
        steps.push(Step::MakesDir {
            path: path.copy(alloc)?,
            mode: *mode,
        })?;
    }
    Ok(())
}

// Adds the steps before a copy's bytes are read.
fn add_part_file(alloc: Global, steps: &mut Vec<Step>, job: &Job) -> Result<(), Memory>
    ensures { OnOk result (steps.new.items ≡ steps.old.items
        ++ (step_if job.now.stale (step.Removes job.now.part) ++ step.Takes job.now.part job.now.mode ∷ [])) }
{
    if job.stale {
        steps.push(Step::Removes {
            path: job.part.copy(alloc)?,
        })?;
    }
    steps.push(Step::Takes {
        path: job.part.copy(alloc)?,
        mode: job.mode,
    })?;
    Ok(())
}

// Adds the truncation of the log behind its copy, where it is asked for.
fn add_cut(alloc: Global, steps: &mut Vec<Step>, job: &Job) -> Result<(), Memory>
    ensures { OnOk result (steps.new.items ≡ steps.old.items ++ step_if job.now.cut (step.Truncates job.now.from)) }
{
    if job.cut {
        steps.push(Step::Truncates {
            path: job.from.copy(alloc)?,
        })?;
    }
    Ok(())
}

// Adds the steps behind them.
fn add_final_name(alloc: Global, steps: &mut Vec<Step>, job: &Job) -> Result<(), Memory>
    ensures { OnOk result (steps.new.items ≡ steps.old.items
        ++ (step.SyncsFile job.now.part ∷ step.Renames job.now.part job.now.to ∷ step.SyncsDir job.now.dir ∷ step_if job.now.cut
        (step.Truncates job.now.from))) }
{
    steps.push(Step::SyncsFile {
        path: job.part.copy(alloc)?,
    })?;
    steps.push(rename_step(alloc, &job.part, &job.to)?)?;
    steps.push(Step::SyncsDir {
        path: job.dir.copy(alloc)?,
    })?;
    add_cut(alloc, steps, job)
}

// Adds the copy of the bytes.
fn add_bytes(alloc: Global, steps: &mut Vec<Step>, job: &Job) -> Result<(), Memory>
    ensures { OnOk result (steps.new.items ≡ steps.old.items ++ step.Copies job.now.from job.now.part job.now.limit ∷ []) }
{
    let from = job.from.copy(alloc)?;
    let to = job.part.copy(alloc)?;
    steps.push(Step::Copies {
        from,
        to,
        limit: job.limit,
    })?;
    Ok(())
}

fn add_copy(alloc: Global, steps: &mut Vec<Step>, job: &Job) -> Result<(), Memory>
    ensures { OnOk result (steps.new.items ≡ steps.old.items ++ copy job.now) }
{
    add_part_file(alloc, steps, job)?;
    add_bytes(alloc, steps, job)?;
    add_final_name(alloc, steps, job)
}

// Adds how the log goes to where it waits for its copy.
fn add_setting_aside(
    alloc: Global,
    steps: &mut Vec<Step>,
    log: &Path,
    dir: &Path,
    path: &Path,
) -> Result<(), Memory>
    ensures { OnOk result (steps.new.items ≡ steps.old.items ++ (step.SyncsDir dir.now ∷ step.Renames log.now path.now ∷ [])) }
{
    steps.push(Step::SyncsDir {
        path: dir.copy(alloc)?,
    })?;
    steps.push(rename_step(alloc, log, path)?)?;
    Ok(())
}

// Adds how the log that is copied comes to its final path, or to where it waits.
fn add_copied(
    alloc: Global,
    steps: &mut Vec<Step>,
    ready: &Ready,
    job: &Job,
    aside: &Option<Path>,
) -> Result<(), Memory>
    ensures { OnOk result (steps.new.items ≡ steps.old.items ++ transfer ready.now.log ready.now.target (Some job.now) aside.now) }
{
    match aside {
        Some(path) => add_setting_aside(alloc, steps, &ready.log, &job.dir, path),
        None => add_copy(alloc, steps, job),
    }
}

// Adds how the log comes to its final path, or to where it waits.
fn add_transfer(
    alloc: Global,
    steps: &mut Vec<Step>,
    ready: &Ready,
    job: &Option<Job>,
    aside: &Option<Path>,
) -> Result<(), Memory>
    ensures { OnOk result (steps.new.items ≡ steps.old.items ++ transfer ready.now.log ready.now.target job.now aside.now) }
{
    match job {
        Some(job) => add_copied(alloc, steps, ready, job, aside),
        None => {
            steps.push(rename_step(alloc, &ready.log, &ready.target)?)?;
            Ok(())
        }
    }
}

fn add_anew(alloc: Global, steps: &mut Vec<Step>, log: &Path, make: Make) -> Result<(), Memory>
    ensures { OnOk result (steps.new.items ≡ steps.old.items ++ anew make log.now) }
{
    if let Make::Yes(mode) = make {
        steps.push(Step::Creates {
            path: log.copy(alloc)?,
            mode,
        })?;
    }
    Ok(())
}

// Adds that the log counts as rotated, and its making.
fn add_rotated(alloc: Global, steps: &mut Vec<Step>, log: &LogPlan) -> Result<(), Memory>
    ensures { OnOk result (steps.new.items ≡ steps.old.items
        ++ (step.Rotated log.now.log ∷ made_anew log.now.ready.make log.now.log log.now.job log.now.aside)) }
{
    steps.push(Step::Rotated {
        log: log.log.copy(alloc)?,
    })?;
    if log.leaves_path() {
        add_anew(alloc, steps, &log.log, log.ready.make)?;
    }
    Ok(())
}

// Adds what comes before the log's own way: the leftovers, the directory and the chain.
fn add_chain(alloc: Global, steps: &mut Vec<Step>, ready: &Ready) -> Result<(), Memory>
    ensures { OnOk result (steps.new.items ≡ steps.old.items
        ++ (removals ready.now.leftovers ++ (directory ready.now.dir ++ map move ready.now.moves))) }
{
    add_removals(alloc, steps, ready.leftovers.as_slice())?;
    add_directory(alloc, steps, &ready.dir)?;
    add_moves(alloc, steps, ready.moves.as_slice())
}

// Adds the log's own way, and that it is rotated.
fn add_own_way(alloc: Global, steps: &mut Vec<Step>, log: &LogPlan) -> Result<(), Memory>
    ensures { OnOk result (steps.new.items ≡ steps.old.items
        ++ (transfer log.now.ready.log log.now.ready.target log.now.job log.now.aside
        ++ (step.Rotated log.now.log ∷ made_anew log.now.ready.make log.now.log log.now.job log.now.aside))) }
{
    add_transfer(alloc, steps, &log.ready, &log.job, &log.aside)?;
    add_rotated(alloc, steps, log)
}

/// Adds the rotation of a log.
pub fn add_rotation(alloc: Global, steps: &mut Vec<Step>, log: &LogPlan) -> Result<(), Memory>
    ensures { OnOk result (steps.new.items ≡ steps.old.items ++ rotation_of log.now) }
{
    add_chain(alloc, steps, &log.ready)?;
    add_own_way(alloc, steps, log)
}

// Adds the copy of a log that waits, and its end.
fn add_letting_go(
    alloc: Global,
    steps: &mut Vec<Step>,
    job: &Job,
    path: &Path,
) -> Result<(), Memory>
    ensures { OnOk result (steps.new.items ≡ steps.old.items ++ (copy job.now ++ step.Removes path.now ∷ [])) }
{
    add_copy(alloc, steps, job)?;
    steps.push(Step::Removes {
        path: path.copy(alloc)?,
    })?;
    Ok(())
}

// Adds what is left to do for a log that was set aside.
fn add_finishing(
    alloc: Global,
    steps: &mut Vec<Step>,
    job: &Option<Job>,
    aside: &Option<Path>,
) -> Result<(), Memory>
    ensures { OnOk result (steps.new.items ≡ steps.old.items ++ finishing job.now aside.now) }
{
    if let Some(job) = job {
        if let Some(path) = aside {
            add_letting_go(alloc, steps, job, path)?;
        }
    }
    Ok(())
}

// Adds the mail of the first file, and the removals.
fn add_removing(alloc: Global, steps: &mut Vec<Step>, log: &LogPlan) -> Result<(), Memory>
    ensures { OnOk result (steps.new.items ≡ steps.old.items
        ++ (program phase.Mail log.now.first_mail ++ removals log.now.ready.retire)) }
{
    add_program(alloc, steps, Phase::Mail, &log.first_mail)?;
    add_removals(alloc, steps, log.ready.retire.as_slice())
}

/// Adds the retirement of a log.
pub fn add_retirement(alloc: Global, steps: &mut Vec<Step>, log: &LogPlan) -> Result<(), Memory>
    ensures { OnOk result (steps.new.items ≡ steps.old.items ++ retirement_of log.now) }
{
    add_finishing(alloc, steps, &log.job, &log.aside)?;
    add_removing(alloc, steps, log)
}

/// Adds all of these steps.
pub fn add_all(steps: &mut Vec<Step>, more: Vec<Step>) -> Result<(), Memory>
    ensures { OnOk result (steps.new.items ≡ steps.old.items ++ more.items) }
{
    for step in more {
        steps.push(step)?;
    }
    Ok(())
}
