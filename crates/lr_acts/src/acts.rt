// The acts of a plan, definition by definition and log by log.
ghost use Rattle.std.specs.Prelude.{length, ◌++◌, ◌∷◌, [], Option, OnErr};
ghost use Rattle.lr_host.specs.Steps.{CanAll};
ghost use Rattle.lr_plan.specs.Asking.{asks, LeadsTo, CanMake, CanEach, CanSet, CanSets};
ghost use Rattle.lr_plan.specs.Course.{Course};
ghost use Rattle.lr_host.specs.declared.journal.Journal.{Journal};
ghost use Rattle.lr_plan.specs.Cut.{IsProgram, CourseCut, ListCut, LogsCut, SetCut, SetsCut};
ghost use Rattle.lr_plan.specs.Done.{EachDone, LogsDone, SetDone, SetsDone};
ghost use Rattle.lr_acts.specs.Adding.{AddsSteps, HasRoom, FillsRoom};
ghost use Rattle.lr_acts.specs.Making.{HasProgram, StepEnds, StepsEnd, EndsSo, all_of_each, all_of_set, all_of_sets};

use crate::marks::any_rotated;
use crate::progress::{Progress, add_fault, add_mark};
use crate::step::make;
use crate::stop::Stop;
use lr_host::Host;
use lr_plan::{SetSteps, Step};
use lr_rules::{Listed, Memory};
use std::alloc::Global;

// Makes one step, and adds what it comes to; false where it failed.
fn take_step<H: Host>(
    alloc: Global,
    host: &mut H,
    step: Step,
    progress: &mut Progress,
) -> Result<bool, Memory>
    requires fits { CanAll (H.told host.old) (asks step) }
    requires room { HasRoom 1 progress.old }
    ensures told { AddsSteps (StepEnds step result) (step ∷ []) progress.old progress.new (H.told host.old) (H.told host.new)
        (H.counts host.old) (H.counts host.new) }
    ensures fills { FillsRoom 1 progress.old progress.new }
    ensures memory { OnErr result (IsProgram step) }
{
    match make(alloc, host, step, progress.buffer.as_mut_slice()) {
        Ok(None) => Ok(true),
        Ok(Some(mark)) => {
            add_mark(progress, mark);
            Ok(true)
        }
        Err(Stop::Fault(fault)) => {
            add_fault(progress, fault);
            Ok(false)
        }
        Err(Stop::Memory) => Err(Memory),
    }
}

// Makes these steps, in order, up to one that fails; false where one did.
fn make_all<H: Host>(
    alloc: Global,
    host: &mut H,
    steps: Listed<Step>,
    progress: &mut Progress,
) -> Result<bool, Memory>
    requires fits { CanMake (H.told host.old) steps }
    requires room { HasRoom (length steps) progress.old }
    ensures told { AddsSteps (StepsEnd steps result) steps progress.old progress.new (H.told host.old) (H.told host.new)
        (H.counts host.old) (H.counts host.new) }
    ensures fills { FillsRoom (length steps) progress.old progress.new }
    ensures memory { OnErr result (HasProgram steps) }
{
    for step in steps.into_vec() {
        let went = take_step(alloc, host, step, progress)?;
        if !went {
            return Ok(false);
        }
    }
    Ok(true)
}

// Makes each log's steps, whatever failed in another.
fn make_each<H: Host>(
    alloc: Global,
    host: &mut H,
    each: Listed<Listed<Step>>,
    progress: &mut Progress,
) -> Result<(), Memory>
    requires fits { CanEach (H.told host.old) each }
    requires room { HasRoom (length (all_of_each each)) progress.old }
    ensures told { AddsSteps (EndsSo (EachDone each) (ListCut Course CourseCut each) result) (all_of_each each) progress.old
        progress.new (H.told host.old) (H.told host.new) (H.counts host.old) (H.counts host.new) }
    ensures fills { FillsRoom (length (all_of_each each)) progress.old progress.new }
    ensures memory { OnErr result (HasProgram (all_of_each each)) }
{
    for steps in each.into_vec() {
        let _went = make_all(alloc, host, steps, progress)?;
    }
    Ok(())
}

// Makes each log's steps, and the last, where a log was rotated.
fn make_logs<H: Host>(
    alloc: Global,
    host: &mut H,
    each: Listed<Listed<Step>>,
    last: Listed<Step>,
    progress: &mut Progress,
) -> Result<(), Memory>
    requires fits { CanEach (H.told host.old) each }
    requires fits_last { (later : Option Journal) → LeadsTo (EachDone each) (H.told host.old) later → CanMake later last }
    requires room { HasRoom (length (all_of_each each ++ last)) progress.old }
    ensures told { AddsSteps (EndsSo (LogsDone each last) (LogsCut each last) result) (all_of_each each ++ last) progress.old
        progress.new (H.told host.old) (H.told host.new) (H.counts host.old) (H.counts host.new) }
    ensures fills { FillsRoom (length (all_of_each each ++ last)) progress.old progress.new }
    ensures memory { OnErr result (HasProgram (all_of_each each ++ last)) }
{
    let before = progress.marks.as_slice().len();
    make_each(alloc, host, each, progress)?;
    if any_rotated(&progress.marks.as_slice()[before..]) {
        let _went = make_all(alloc, host, last, progress)?;
    }
    Ok(())
}

// Makes the steps of one definition.
fn make_set<H: Host>(
    alloc: Global,
    host: &mut H,
    set: SetSteps,
    progress: &mut Progress,
) -> Result<(), Memory>
    requires fits { CanSet (H.told host.old) set }
    requires room { HasRoom (length (all_of_set set)) progress.old }
    ensures told { AddsSteps (EndsSo (SetDone set) (SetCut set) result) (all_of_set set) progress.old progress.new (H.told host.old)
        (H.told host.new) (H.counts host.old) (H.counts host.new) }
    ensures fills { FillsRoom (length (all_of_set set)) progress.old progress.new }
    ensures memory { OnErr result (HasProgram (all_of_set set)) }
{
    let SetSteps { first, each, last } = set;
    let went = make_all(alloc, host, first, progress)?;
    if !went {
        return Ok(());
    }
    make_logs(alloc, host, each, last, progress)
}

/// Makes the steps of all definitions, and adds what they come to. A step that fails ends what follows of its log, or of
/// its definition where that shares its scripts; its fault is added, with the path that the step held. Only a program
/// takes memory; where there is none, nothing more is done. There has to be room for as many marks and faults as steps, and
/// a buffer for copies.
pub fn act<H: Host>(
    alloc: Global,
    host: &mut H,
    sets: Listed<SetSteps>,
    progress: &mut Progress,
) -> Result<(), Memory>
    requires fits { CanSets (H.told host.old) sets }
    requires room { HasRoom (length (all_of_sets sets)) progress.old }
    ensures told { AddsSteps (EndsSo (SetsDone sets) (SetsCut sets) result) (all_of_sets sets) progress.old progress.new
        (H.told host.old) (H.told host.new) (H.counts host.old) (H.counts host.new) }
    ensures fills { FillsRoom (length (all_of_sets sets)) progress.old progress.new }
    ensures memory { OnErr result (HasProgram (all_of_sets sets)) }
{
    for set in sets.into_vec() {
        make_set(alloc, host, set, progress)?;
    }
    Ok(())
}
