// The text of a plan.
ghost use Rattle.std.specs.Prelude.{◌≤◌, ◌++◌, [], map, OnErr, OnOk, if◌then◌else◌};
ghost use Rattle.std.specs.List.{flat_map};
ghost use Rattle.lr_rules.specs.declared.fault.Phase.TheVariants as phase;
ghost use Rattle.lr_host.specs.Told.{Rose};
ghost use Rattle.lr_report.specs.Puts.{Took, TookPart};
ghost use Rattle.lr_plan.specs.Steps.{program, rotation_of, retirement_of, shared_steps, single_steps, steps_of_set};
ghost use Rattle.lr_shown.specs.Lines.{lines_of, set_lines, steps_text, plan_text};
ghost use Rattle.lr_shown.specs.Puts.{Puts};

use crate::decisions::put_decisions;
use crate::logs::{put_logs, put_retirements, put_rotations};
use crate::pieces::put_path;
use crate::programs::put_program;
use lr_host::{Sink, SinkFault};
use lr_plan::{Plan, SetPlan};
use lr_rules::{Path, Phase};

// Of logs that share their scripts, up to their rotations.
fn put_shared_front<K: Sink>(set: &SetPlan, out: &mut K) -> Result<(), SinkFault>
    ensures { Puts (lines_of (program phase.First set.now.first
        ++ (program phase.Pre set.now.pre ++ flat_map rotation_of set.now.logs))) result (K.taken out.old) (K.taken out.new)
        (K.faults out.old) (K.faults out.new) }
{
    put_program(Phase::First, set.first.as_ref(), out)?;
    put_program(Phase::Pre, set.pre.as_ref(), out)?;
    put_rotations(set.logs.as_slice(), out)
}

// And behind them.
fn put_shared_rest<K: Sink>(set: &SetPlan, out: &mut K) -> Result<(), SinkFault>
    ensures { Puts (lines_of (program phase.Post set.now.post
        ++ (flat_map retirement_of set.now.logs ++ program phase.Last set.now.last))) result (K.taken out.old) (K.taken out.new)
        (K.faults out.old) (K.faults out.new) }
{
    put_program(Phase::Post, set.post.as_ref(), out)?;
    put_retirements(set.logs.as_slice(), out)?;
    put_program(Phase::Last, set.last.as_ref(), out)
}

fn put_shared<K: Sink>(set: &SetPlan, out: &mut K) -> Result<(), SinkFault>
    ensures { Puts (lines_of (shared_steps set.now)) result (K.taken out.old) (K.taken out.new) (K.faults out.old)
        (K.faults out.new) }
{
    put_shared_front(set, out)?;
    put_shared_rest(set, out)
}

// Of logs each by itself.
fn put_single<K: Sink>(set: &SetPlan, out: &mut K) -> Result<(), SinkFault>
    ensures { Puts (set_lines (single_steps set.now)) result (K.taken out.old) (K.taken out.new) (K.faults out.old)
        (K.faults out.new) }
{
    put_program(Phase::First, set.first.as_ref(), out)?;
    put_logs(set.logs.as_slice(), out)?;
    put_program(Phase::Last, set.last.as_ref(), out)
}

fn put_set<K: Sink>(set: &SetPlan, out: &mut K) -> Result<(), SinkFault>
    ensures { Puts (set_lines (steps_of_set set.now)) result (K.taken out.old) (K.taken out.new) (K.faults out.old)
        (K.faults out.new) }
{
    if set.logs.len() == 0 {
        Ok(())
    } else if set.shared {
        put_shared(set, out)
    } else {
        put_single(set, out)
    }
}

fn put_sets<K: Sink>(sets: &[SetPlan], out: &mut K) -> Result<(), SinkFault>
    ensures { Puts (flat_map set_lines (map steps_of_set sets.now)) result (K.taken out.old) (K.taken out.new) (K.faults out.old)
        (K.faults out.new) }
{
    for set in sets {
        put_set(set, out)?;
    }
    Ok(())
}

fn put_steps<K: Sink>(plan: &Plan, state: &Path, out: &mut K) -> Result<(), SinkFault>
    ensures { Puts (steps_text state.now plan.now) result (K.taken out.old) (K.taken out.new) (K.faults out.old)
        (K.faults out.new) }
{
    put_sets(plan.sets.as_slice(), out)?;
    put_path(b"state ", state, out)
}

fn put_steps_if<K: Sink>(
    plan: &Plan,
    state: &Path,
    steps: bool,
    out: &mut K,
) -> Result<(), SinkFault>
    ensures { Puts (if steps then steps_text state.now plan.now else []) result (K.taken out.old) (K.taken out.new)
        (K.faults out.old) (K.faults out.new) }
{
    if steps {
        put_steps(plan, state, out)
    } else {
        Ok(())
    }
}

fn put_plan<K: Sink>(plan: &Plan, state: &Path, steps: bool, out: &mut K) -> Result<(), SinkFault>
    ensures { Puts (plan_text state.now steps plan.now) result (K.taken out.old) (K.taken out.new) (K.faults out.old)
        (K.faults out.new) }
{
    put_decisions(plan.decisions.as_slice(), out)?;
    put_steps_if(plan, state, steps, out)
}

/// Puts the lines of the plan: its decisions, and where `steps` is set its steps, the last of which writes the state text
/// at this path. Of an output that fails, a first part of them came. It takes no memory.
pub fn print<K: Sink>(plan: &Plan, state: &Path, steps: bool, out: &mut K) -> Result<(), SinkFault>
    ensures whole { OnOk result (Took (plan_text state.now steps plan.now) (K.taken out.old) (K.taken out.new)) }
    ensures part { TookPart (plan_text state.now steps plan.now) (K.taken out.old) (K.taken out.new) }
    ensures cause { OnErr result (Rose (K.faults out.old) (K.faults out.new)) }
    ensures counts { K.faults out.old ≤ K.faults out.new }
{
    put_plan(plan, state, steps, out)
}
