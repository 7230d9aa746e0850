// The lines of what was decided.
ghost use Rattle.std.specs.List.{flat_map};
ghost use Rattle.lr_due.specs.declared.answer.Due.TheVariants as due;
ghost use Rattle.lr_shown.specs.Lines.{due_line, decision_line};
ghost use Rattle.lr_shown.specs.Puts.{Puts};

use crate::words::{why_name, why_not_name};
use lr_due::{Due, Why, WhyNot};
use lr_host::{Sink, SinkFault};
use lr_report::put_four;
use lr_rules::Path;

fn put_due<K: Sink>(log: &Path, why: Why, out: &mut K) -> Result<(), SinkFault>
    ensures { Puts (due_line log.now (due.Yes why)) result (K.taken out.old) (K.taken out.new) (K.faults out.old)
        (K.faults out.new) }
{
    put_four(out, log.bytes(), b": due, ", why_name(why), b"\n")
}

fn put_not_due<K: Sink>(log: &Path, why: WhyNot, out: &mut K) -> Result<(), SinkFault>
    ensures { Puts (due_line log.now (due.No why)) result (K.taken out.old) (K.taken out.new) (K.faults out.old)
        (K.faults out.new) }
{
    put_four(out, log.bytes(), b": not due, ", why_not_name(why), b"\n")
}

fn put_decision<K: Sink>(log: &Path, due: Due, out: &mut K) -> Result<(), SinkFault>
    ensures { Puts (due_line log.now due) result (K.taken out.old) (K.taken out.new) (K.faults out.old) (K.faults out.new) }
{
    match due {
        Due::Yes(why) => put_due(log, why, out),
        Due::No(why) => put_not_due(log, why, out),
    }
}

/// Puts the lines of the decisions, in order.
pub fn put_decisions<K: Sink>(decisions: &[(Path, Due)], out: &mut K) -> Result<(), SinkFault>
    ensures { Puts (flat_map decision_line decisions.now) result (K.taken out.old) (K.taken out.new) (K.faults out.old)
        (K.faults out.new) }
{
    for decision in decisions {
        put_decision(&decision.0, decision.1, out)?;
    }
    Ok(())
}
