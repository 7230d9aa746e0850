// What there is to say of an outcome, printed.
ghost use Rattle.std.specs.Prelude.{◌≡◌, ◌≤◌, ◌<◌, ◌⊎◌, ◌++◌, ◌∷◌, [], OnErr, OnOk, vec_len, vec_capacity};
ghost use Rattle.lr_rules.specs.declared.fault.Fault.TheVariants as fault;
ghost use Rattle.lr_host.specs.Told.{Rose};
ghost use Rattle.lr_report.specs.Lines.{report_lines};
ghost use Rattle.lr_report.specs.Outcome.{outcome_text};
ghost use Rattle.lr_report.specs.Puts.{Took, TookPart};

use crate::lines::{put_lines, put_said};
use crate::outcome::{Outcome, Report};
use lr_host::{Sink, SinkFault};
use lr_rules::{Fault, Listed, Notice};

/// Puts the lines of a report: of its notices, then of its faults, each in order. It takes no memory, and stops at the
/// first fault of the output.
pub fn put_report<K: Sink>(report: &Report, out: &mut K) -> Result<(), SinkFault>
    ensures whole { OnOk result (Took (report_lines report.now.notices report.now.faults) (K.taken out.old) (K.taken out.new)) }
    ensures part { TookPart (report_lines report.now.notices report.now.faults) (K.taken out.old) (K.taken out.new) }
    ensures cause { OnErr result (Rose (K.faults out.old) (K.faults out.new)) }
    ensures counts { K.faults out.old ≤ K.faults out.new }
{
    put_lines(report.notices.as_slice(), report.faults.as_slice(), out)
}

/// Puts all that there is to say of an outcome: the lines of its report, or its one line.
pub fn put_outcome<K: Sink>(outcome: &Outcome, out: &mut K) -> Result<(), SinkFault>
    ensures whole { OnOk result (Took (outcome_text outcome.now) (K.taken out.old) (K.taken out.new)) }
    ensures part { TookPart (outcome_text outcome.now) (K.taken out.old) (K.taken out.new) }
    ensures cause { OnErr result (Rose (K.faults out.old) (K.faults out.new)) }
    ensures counts { K.faults out.old ≤ K.faults out.new }
{
    match outcome {
        Outcome::Done(report) => put_report(report, out),
        Outcome::BadWords => put_said(b"bad command line", out),
        Outcome::Held => put_said(b"state file is locked", out),
        Outcome::OutOfMemory => put_said(b"out of memory", out),
    }
}

/// The outcome, of which all that there is to say was put. The output's faults are ignored: so ends a call that has no
/// report.
pub fn printed<K: Sink>(outcome: Outcome, out: &mut K) -> Outcome
    ensures same { result ≡ outcome }
    ensures printed { TookPart (outcome_text outcome) (K.taken out.old) (K.taken out.new) }
    ensures whole { Took (outcome_text outcome) (K.taken out.old) (K.taken out.new) ⊎ Rose (K.faults out.old) (K.faults out.new) }
    ensures counts { K.faults out.old ≤ K.faults out.new }
{
    let _ = put_outcome(&outcome, out);
    outcome
}

/// The report of these notices and faults, where all that there is to say was put. Where the output failed it has `Out` behind the
/// other faults, for which there has to be room: no memory is taken here.
pub fn report_behind(
    put: Result<(), SinkFault>,
    notices: Listed<Notice>,
    faults: Vec<Fault>,
) -> Outcome
    requires { vec_len faults < vec_capacity faults }
    ensures whole { OnOk put (result ≡ Outcome.Done (record { notices = notices; faults = faults.items })) }
    ensures broken_off { OnErr put (result ≡ Outcome.Done (record { notices = notices; faults = faults.items ++ fault.Out ∷ [] })) }
{
    let mut faults = faults;
    if put.is_err() {
        faults.push_reserved(Fault::Out);
    }
    Outcome::Done(Report {
        notices,
        faults: Listed::from_vec(faults),
    })
}
