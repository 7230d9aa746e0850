// What stands between the begin of a run and its end: the state, the looks, the plan, its acts, and the state's writing.
ghost use Rattle.std.specs.Prelude.{◌≡◌, ◌+◌, ◌≤◌, ◌++◌, ◌∷◌, [], Some, None, OnOk, OnErr, vec_len};
ghost use Rattle.std.specs.Vec.{vec_capacity};
ghost use Rattle.lr_rules.specs.declared.fault.Fault.TheVariants as fault;
ghost use Rattle.lr_rules.specs.declared.fault.StateKind.TheVariants as kind;
ghost use Rattle.lr_rules.specs.Path.{parent_of};
ghost use Rattle.lr_rules.specs.StatePath.{state_part};
ghost use Rattle.lr_host.specs.declared.entry.Entry.TheVariants as entry;
ghost use Rattle.lr_host.specs.Opening.{IsJournal};
ghost use Rattle.lr_host.specs.Told.{Left, Can, WhereTold};
ghost use Rattle.lr_host.specs.Counted.{WentBy};
ghost use Rattle.lr_plan.specs.Asked.{asking};
ghost use Rattle.lr_plan.specs.Planned.{CanPlanAll};
ghost use Rattle.lr_run.specs.Internal.{CameTo, Carries, EndsBehindLooks, EndsBehindState, IsKnownBefore};
ghost use Rattle.lr_run.specs.Internal.{KnownBefore, LooksAndActs};
ghost use Rattle.lr_run.specs.Internal.{SeenBefore, SomeWork, WorksOn};

use crate::acting::carry_out;
use crate::known::known_state;
use crate::ready::make_ready;
use lr_acts::Progress;
use lr_host::Host;
use lr_looks::look_all;
use lr_plan::{Looks, Plan};
use lr_planning::plan;
use lr_rules::{Clock, Fault, Memory, Path, Rules, Settings, StateKind};
use lr_state::{Remembered, part_path};
use std::alloc::Global;

/// Adds the fault of a text that could become too big to be written.
pub fn add_too_big(faults: &mut Vec<Fault>) -> Result<(), Memory>
    ensures faults { OnOk result (faults.new.items ≡ faults.old.items ++ fault.State 0 kind.TooBig ∷ []) }
    ensures room { OnOk result (vec_len faults.new + 1 ≤ vec_capacity faults.new) }
{
    faults.reserve(2)?;
    faults.push_reserved(Fault::State {
        line: 0,
        kind: StateKind::TooBig,
    });
    Ok(())
}

// The plan was reached.
fn reach(reached: &mut Option<Plan>, plan: Plan)
    ensures { reached.new ≡ Some plan }
{
    *reached = Some(plan);
}

// Plans, and carries the plan out, which is then the one that was reached; or tells that the text of the state could become
// too big.
fn plan_and_act<H: Host>(
    alloc: Global,
    host: &mut H,
    rules: &Rules,
    settings: &Settings,
    clock: &Clock,
    looks: &Looks,
    part: Path,
    remembered: Remembered,
    reached: &mut Option<Plan>,
    progress: &mut Progress,
) -> Result<(), Memory>
    requires none { reached.old ≡ None }
    requires rules { CanPlanAll rules.now.sets looks.now.sets }
    requires part { part ≡ state_part settings.now.state }
    requires seen { SeenBefore settings.now.state rules.now looks.now remembered (H.told host.old) }
    ensures told { OnOk result (Carries settings.now.state rules.now looks.now remembered clock.entry.now
        (asking settings.now.force settings.now.mailer) reached.new progress.old.faults.items progress.new.faults.items
        (H.told host.old) (H.told host.new)) }
    ensures some { OnErr result (Left (EndsBehindLooks rules.now looks.now settings.now.state remembered clock.entry.now
        (asking settings.now.force settings.now.mailer)) (H.told host.old) (H.told host.new)) }
    ensures room { OnOk result (vec_len progress.new.faults + 1 ≤ vec_capacity progress.new.faults) }
    ensures went { WentBy result progress.old.faults.items progress.new.faults.items (H.counts host.old) (H.counts host.new) }
{
    let plan = plan(alloc, rules, looks, &remembered.table, clock, settings)?;
    let kept = looks.kept.as_slice();
    match make_ready(
        alloc,
        &settings.state,
        &clock.now,
        kept,
        &plan,
        part,
        remembered,
        progress,
    )? {
        Some(ready) => {
            reach(reached, plan);
            carry_out(alloc, host, ready, &clock.now.civil, progress)
        }
        None => add_too_big(&mut progress.faults),
    }
}

// Looks at the logs, and carries out what follows from what was seen and is known of the state.
fn look_and_act<H: Host>(
    alloc: Global,
    host: &mut H,
    rules: &Rules,
    settings: &Settings,
    clock: &Clock,
    part: Path,
    remembered: Remembered,
    reached: &mut Option<Plan>,
    progress: &mut Progress,
) -> Result<(), Memory>
    requires none { reached.old ≡ None }
    requires part { part ≡ state_part settings.now.state }
    requires known { KnownBefore settings.now.state remembered (H.told host.old) }
    ensures told { OnOk result (CameTo (LooksAndActs (IsKnownBefore remembered) settings.now.state rules.now.sets clock.entry.now
        (asking settings.now.force settings.now.mailer) reached.new progress.old.faults.items progress.new.faults.items)
        settings.now.state clock.entry.now (H.told host.old) (H.told host.new)) }
    ensures some { OnErr result (Left (EndsBehindState settings.now.state rules.now.sets clock.entry.now
        (asking settings.now.force settings.now.mailer) remembered) (H.told host.old) (H.told host.new)) }
    ensures room { OnOk result (vec_len progress.new.faults + 1 ≤ vec_capacity progress.new.faults) }
    ensures went { WentBy result progress.old.faults.items progress.new.faults.items (H.counts host.old) (H.counts host.new) }
{
    let looks = look_all(alloc, host, rules, &settings.state, &mut progress.faults)?;
    plan_and_act(
        alloc, host, rules, settings, clock, &looks, part, remembered, reached, progress,
    )
}

/// Adds a fault for which there is room.
pub fn add_fault(faults: &mut Vec<Fault>, fault: Fault)
    requires { vec_len faults.old + 2 ≤ vec_capacity faults.old }
    ensures faults { faults.new.items ≡ faults.old.items ++ fault ∷ [] }
    ensures room { vec_len faults.new + 1 ≤ vec_capacity faults.new }
{
    faults.push_reserved(fault);
}

/// Reads the state, looks at the logs, and carries the plan out that follows from both, which is then the one that was
/// reached. All memory but that of programs is taken before the first act.
pub fn work<H: Host>(
    alloc: Global,
    host: &mut H,
    rules: &Rules,
    settings: &Settings,
    clock: &Clock,
    reached: &mut Option<Plan>,
    progress: &mut Progress,
) -> Result<(), Memory>
    requires none { reached.old ≡ None }
    requires disk { WhereTold (H.told host.old) IsJournal }
    requires dir { Can (H.told host.old) (entry.List (parent_of settings.now.state) []) }
    requires room { vec_len progress.old.faults + 2 ≤ vec_capacity progress.old.faults }
    ensures told { OnOk result (CameTo (WorksOn settings.now.state rules.now.sets clock.entry.now
        (asking settings.now.force settings.now.mailer) reached.new progress.old.faults.items progress.new.faults.items)
        settings.now.state clock.entry.now (H.told host.old) (H.told host.new)) }
    ensures some { OnErr result (Left (SomeWork settings.now.state rules.now.sets clock.entry.now
        (asking settings.now.force settings.now.mailer)) (H.told host.old) (H.told host.new)) }
    ensures room { OnOk result (vec_len progress.new.faults + 1 ≤ vec_capacity progress.new.faults) }
    ensures went { WentBy result progress.old.faults.items progress.new.faults.items (H.counts host.old) (H.counts host.new) }
{
    let part = part_path(alloc, &settings.state)?;
    match known_state(alloc, host, &settings.state, &part)? {
        Ok(remembered) => {
            look_and_act(
                alloc, host, rules, settings, clock, part, remembered, reached, progress,
            )
        }
        Err(fault) => {
            add_fault(&mut progress.faults, fault);
            Ok(())
        }
    }
}
