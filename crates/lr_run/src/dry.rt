// A dry run: it looks, and plans, and leaves all as it is.
ghost use Rattle.std.specs.Prelude.{◌≡◌, ◌≢◌, ◌+◌, ◌≤◌, ◌++◌, List, true, Ok, Err, IfOk, OnOk, OnErr, length, nat_le};
ghost use Rattle.std.specs.Prelude.{vec_len};
ghost use Rattle.std.specs.Vec.{vec_capacity};
ghost use Rattle.lr_rules.specs.declared.fault.Fault.{Fault};
ghost use Rattle.lr_rules.specs.Path.{parent_of};
ghost use Rattle.lr_host.specs.Counted.{WentBy};
ghost use Rattle.lr_host.specs.Told.{Left};
ghost use Rattle.lr_looks.specs.Shown.{ShowsSomeLooks};
ghost use Rattle.lr_plan.specs.Asked.{asking};
ghost use Rattle.lr_plan.specs.Planned.{CanPlanAll};
ghost use Rattle.lr_looks.specs.Reserved.{reserved_by};
ghost use Rattle.lr_run.specs.InternalDry.{PlanFollows};
ghost use Rattle.lr_run.specs.Halt.{OfMemory, Halts, SomeSeen};
ghost use Rattle.lr_run.specs.Internal.{plan_if, faults_if};
ghost use Rattle.lr_run.specs.Ran.{RanSo, run_faults};
ghost use Rattle.lr_run.specs.Paths.{measured_of};
ghost use Rattle.lr_run.specs.InternalTrying.{PlansOn, PlansByOn, TriesOn};

use crate::answer::{Ran, RunStop};
use crate::known::known_state;
use crate::ready::{add_all, bring_up_to};
use crate::work::{add_fault, add_too_big};
use lr_family::{dir_fault, look_for_dir};
use lr_host::Host;
use lr_looks::look_all;
use lr_plan::{Looks, Plan};
use lr_planning::plan;
use lr_rules::{Civil, Clock, Fault, Memory, Path, Rules, Settings};
use lr_state::{State, part_path};
use std::alloc::Global;

// Whether the text of the state that a plan would leave is small enough, however its rotations end.
fn is_small(
    alloc: Global,
    table: State,
    kept: &[Path],
    plan: &Plan,
    now: &Civil,
) -> Result<bool, Memory>
    ensures { IfOk result (λ b. b ≡ nat_le (length (measured_of plan.now table kept.now now.now)) 67_108_864) }
{
    let mut table = table;
    bring_up_to(alloc, &mut table, kept, plan, now)
}

// Adds the faults of a plan, and makes room for one more.
fn add_planned(alloc: Global, faults: &mut Vec<Fault>, plan: &Plan) -> Result<(), Memory>
    ensures faults { OnOk result (faults.new.items ≡ faults.old.items ++ plan.now.faults) }
    ensures room { OnOk result (vec_len faults.new + 1 ≤ vec_capacity faults.new) }
{
    add_all(alloc, faults, plan.faults.as_slice())?;
    faults.reserve(1)?;
    Ok(())
}

// The plan, where it is small enough, and else none. What is told of it is added.
fn tell(
    alloc: Global,
    small: bool,
    plan: Plan,
    faults: &mut Vec<Fault>,
) -> Result<Option<Plan>, Memory>
    ensures plan { IfOk result (λ told. told ≡ plan_if small plan) }
    ensures faults { OnOk result (faults.new.items ≡ faults.old.items ++ faults_if small plan) }
    ensures room { OnOk result (vec_len faults.new + 1 ≤ vec_capacity faults.new) }
{
    if small {
        add_planned(alloc, faults, &plan)?;
        Ok(Some(plan))
    } else {
        add_too_big(faults)?;
        Ok(None)
    }
}

// Plans by what was seen, measures the plan, and tells of it.
fn plan_dry(
    alloc: Global,
    rules: &Rules,
    settings: &Settings,
    clock: &Clock,
    looks: &Looks,
    table: State,
    faults: &mut Vec<Fault>,
) -> Result<Option<Plan>, Memory>
    requires { CanPlanAll rules.now.sets looks.now.sets }
    ensures follows { IfOk result (λ plan. (own : List Fault) × (faults.new.items ≡ faults.old.items ++ own)
        × PlanFollows rules.now.sets looks.now.sets looks.now.kept table clock.entry.now
        (asking settings.now.force settings.now.mailer)
        plan own) }
    ensures room { OnOk result (vec_len faults.new + 1 ≤ vec_capacity faults.new) }
{
    let plan = plan(alloc, rules, looks, &table, clock, settings)?;
    let kept = looks.kept.as_slice();
    let small = is_small(alloc, table, kept, &plan, &clock.now.civil)?;
    tell(alloc, small, plan, faults)
}

// Looks at the logs, and plans by what was seen and by this table.
fn look_and_plan<H: Host>(
    alloc: Global,
    host: &mut H,
    rules: &Rules,
    settings: &Settings,
    clock: &Clock,
    table: State,
    faults: &mut Vec<Fault>,
) -> Result<Option<Plan>, Memory>
    ensures told { IfOk result (λ plan. Left (PlansOn settings.now.state rules.now.sets table clock.entry.now
        (asking settings.now.force settings.now.mailer) plan faults.old.items faults.new.items) (H.told host.old)
        (H.told host.new)) }
    ensures some { OnErr result (Left (ShowsSomeLooks (reserved_by settings.now.state) rules.now.sets) (H.told host.old)
        (H.told host.new)) }
    ensures room { OnOk result (vec_len faults.new + 1 ≤ vec_capacity faults.new) }
    ensures went { WentBy result faults.old.items faults.new.items (H.counts host.old) (H.counts host.new) }
{
    let looks = look_all(alloc, host, rules, &settings.state, faults)?;
    plan_dry(alloc, rules, settings, clock, &looks, table, faults)
}

// Reads the state, looks at the logs, and plans by both.
fn read_and_plan<H: Host>(
    alloc: Global,
    host: &mut H,
    rules: &Rules,
    settings: &Settings,
    clock: &Clock,
    faults: &mut Vec<Fault>,
) -> Result<Option<Plan>, Memory>
    requires room { vec_len faults.old + 2 ≤ vec_capacity faults.old }
    ensures told { IfOk result (λ plan. Left (PlansByOn settings.now.state rules.now.sets clock.entry.now
        (asking settings.now.force settings.now.mailer) plan faults.old.items faults.new.items) (H.told host.old)
        (H.told host.new)) }
    ensures some { OnErr result (Left (SomeSeen settings.now.state rules.now.sets) (H.told host.old) (H.told host.new)) }
    ensures room { OnOk result (vec_len faults.new + 1 ≤ vec_capacity faults.new) }
    ensures went { WentBy result faults.old.items faults.new.items (H.counts host.old) (H.counts host.new) }
{
    let part = part_path(alloc, &settings.state)?;
    match known_state(alloc, host, &settings.state, &part)? {
        Ok(remembered) => {
            look_and_plan(
                alloc,
                host,
                rules,
                settings,
                clock,
                remembered.table,
                faults,
            )
        }
        Err(fault) => {
            add_fault(faults, fault);
            Ok(None)
        }
    }
}

// Looks for the state's directory, and makes the dry run. Where nothing stands there, no log has an entry.
fn try_run<H: Host>(
    alloc: Global,
    host: &mut H,
    rules: &Rules,
    settings: &Settings,
    clock: &Clock,
    dir: Path,
    faults: &mut Vec<Fault>,
) -> Result<Option<Plan>, Memory>
    requires dir { dir ≡ parent_of settings.now.state }
    requires room { vec_len faults.old + 2 ≤ vec_capacity faults.old }
    ensures told { IfOk result (λ plan. Left (TriesOn settings.now.state rules.now clock.entry.now
        (asking settings.now.force settings.now.mailer) faults.old.items (Ok (record { plan = plan; faults = faults.new })))
        (H.told host.old) (H.told host.new)) }
    ensures some { OnErr result (Left (Halts true settings.now.state rules.now clock.entry.now
        (asking settings.now.force settings.now.mailer) OfMemory) (H.told host.old) (H.told host.new)) }
    ensures room { OnOk result (vec_len faults.new + 1 ≤ vec_capacity faults.new) }
    ensures went { WentBy result faults.old.items faults.new.items (H.counts host.old) (H.counts host.new) }
{
    match look_for_dir(host, &dir) {
        Ok(true) => read_and_plan(alloc, host, rules, settings, clock, faults),
        Ok(false) => {
            let table = State::new(alloc);
            look_and_plan(alloc, host, rules, settings, clock, table, faults)
        }
        Err(why) => {
            add_fault(faults, dir_fault(why, dir));
            Ok(None)
        }
    }
}

/// Makes a dry run: looks at the state's directory, reads the state, looks at the logs that the rules ask for, and plans.
pub fn dry_run<H: Host>(
    alloc: Global,
    rules: &Rules,
    settings: &Settings,
    clock: &Clock,
    earlier: Vec<Fault>,
    host: &mut H,
) -> Result<Ran, RunStop>
    ensures told { RanSo true settings.now.state rules.now clock.entry.now (asking settings.now.force settings.now.mailer)
        earlier.items result (H.told host.old) (H.told host.new) }
    ensures went { WentBy result earlier.items (run_faults result) (H.counts host.old) (H.counts host.new) }
    ensures held { result ≢ Err RunStop.Held }
    ensures room { IfOk result (λ ran. vec_len ran.faults + 1 ≤ vec_capacity ran.faults) }
{
    let Ok(dir) = settings.state.parent(alloc) else {
        return Err(RunStop::Memory);
    };
    let mut faults = earlier;
    let Ok(()) = faults.reserve(2) else {
        return Err(RunStop::Memory);
    };
    match try_run(alloc, host, rules, settings, clock, dir, &mut faults) {
        Ok(plan) => Ok(Ran { plan, faults }),
        Err(_) => Err(RunStop::Memory),
    }
}
