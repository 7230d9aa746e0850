// The lines of the logs of one definition.
ghost use Rattle.std.specs.Prelude.{◌++◌};
ghost use Rattle.std.specs.List.{flat_map};
ghost use Rattle.lr_rules.specs.declared.fault.Phase.TheVariants as phase;
ghost use Rattle.lr_plan.specs.Steps.{program, rotation_of, retirement_of, steps_of_log};
ghost use Rattle.lr_shown.specs.Lines.{lines_of};
ghost use Rattle.lr_shown.specs.Puts.{Puts};

use crate::programs::put_program;
use crate::rotation::{put_retirement, put_rotation};
use lr_host::{Sink, SinkFault};
use lr_plan::LogPlan;
use lr_rules::Phase;

// What comes behind the rotation of a log by itself.
fn put_rest<K: Sink>(log: &LogPlan, out: &mut K) -> Result<(), SinkFault>
    ensures { Puts (lines_of (program phase.Post log.now.post ++ retirement_of log.now)) result (K.taken out.old) (K.taken out.new)
        (K.faults out.old) (K.faults out.new) }
{
    put_program(Phase::Post, log.post.as_ref(), out)?;
    put_retirement(log, out)
}

fn put_log<K: Sink>(log: &LogPlan, out: &mut K) -> Result<(), SinkFault>
    ensures { Puts (lines_of (steps_of_log log.now)) result (K.taken out.old) (K.taken out.new) (K.faults out.old)
        (K.faults out.new) }
{
    put_program(Phase::Pre, log.pre.as_ref(), out)?;
    put_rotation(log, out)?;
    put_rest(log, out)
}

/// Puts the lines of the logs, each by itself.
pub fn put_logs<K: Sink>(logs: &[LogPlan], out: &mut K) -> Result<(), SinkFault>
    ensures { Puts (lines_of (flat_map steps_of_log logs.now)) result (K.taken out.old) (K.taken out.new) (K.faults out.old)
        (K.faults out.new) }
{
    for log in logs {
        put_log(log, out)?;
    }
    Ok(())
}

/// Puts the lines of the rotations of all logs.
pub fn put_rotations<K: Sink>(logs: &[LogPlan], out: &mut K) -> Result<(), SinkFault>
    ensures { Puts (lines_of (flat_map rotation_of logs.now)) result (K.taken out.old) (K.taken out.new) (K.faults out.old)
        (K.faults out.new) }
{
    for log in logs {
        put_rotation(log, out)?;
    }
    Ok(())
}

/// Puts the lines of the retirements of all logs.
pub fn put_retirements<K: Sink>(logs: &[LogPlan], out: &mut K) -> Result<(), SinkFault>
    ensures { Puts (lines_of (flat_map retirement_of logs.now)) result (K.taken out.old) (K.taken out.new) (K.faults out.old)
        (K.faults out.new) }
{
    for log in logs {
        put_retirement(log, out)?;
    }
    Ok(())
}
