// What a call prints, and the report that it answers.
ghost use Rattle.std.specs.Prelude.{◌≡◌, ◌≤◌, ◌<◌, ◌+◌, ◌++◌, Ok, IfOk, OnErr, OnOk, vec_len, vec_capacity};
ghost use Rattle.lr_report.specs.Lines.{report_lines};
ghost use Rattle.lr_shown.specs.Puts.{Puts};
ghost use Rattle.lr_audit.specs.Came.{answer_of, audit_told};
ghost use Rattle.lr_audit.specs.Says.{with_out, text_told, said_text, PrintsAnswer};

use crate::text::put_audit;
use crate::told::Told;
use lr_audited::Audit;
use lr_host::{Sink, SinkFault};
use lr_report::{Outcome, printed, put_lines, report_behind};
use lr_rules::Memory;

// Puts the text of an audit, where there is one.
fn put_told_audit<K: Sink>(audit: &Option<Audit>, out: &mut K) -> Result<(), SinkFault>
    ensures { Puts (text_told audit.now) result (K.taken out.old) (K.taken out.new) (K.faults out.old) (K.faults out.new) }
{
    match audit {
        Some(audit) => put_audit(audit, out),
        None => Ok(()),
    }
}

// Puts the lines of what else there is to say.
fn put_said_lines<K: Sink>(told: &Told, out: &mut K) -> Result<(), SinkFault>
    ensures { Puts (report_lines told.now.notices told.now.faults.items) result (K.taken out.old) (K.taken out.new)
        (K.faults out.old) (K.faults out.new) }
{
    put_lines(told.notices.as_slice(), &told.faults, out)
}

// Puts all of it.
fn put_told<K: Sink>(told: &Told, out: &mut K) -> Result<(), SinkFault>
    ensures { Puts (text_told told.now.audit ++ report_lines told.now.notices told.now.faults.items) result (K.taken out.old)
        (K.taken out.new) (K.faults out.old) (K.faults out.new) }
{
    put_told_audit(&told.audit, out)?;
    put_said_lines(told, out)
}

// The report of what was told, of which all was put, or a first part, where the output failed.
fn report_after(put: Result<(), SinkFault>, told: Told) -> Outcome
    requires { vec_len told.faults < vec_capacity told.faults }
    ensures whole { OnOk put (result ≡ answer_of (Ok told)) }
    ensures out { OnErr put (result ≡ with_out (answer_of (Ok told))) }
{
    let Told {
        notices,
        faults,
        ..
    } = told;
    report_behind(put, notices, faults)
}

// The report of what was told, all of which is put.
fn report<K: Sink>(told: Told, out: &mut K) -> Outcome
    requires { vec_len told.faults < vec_capacity told.faults }
    ensures answers { PrintsAnswer (said_text told.audit (answer_of (Ok told))) (answer_of (Ok told)) result (K.taken out.old)
        (K.taken out.new) (K.faults out.old) (K.faults out.new) }
    ensures counts { K.faults out.old ≤ K.faults out.new }
{
    let put = put_told(&told, out);
    report_after(put, told)
}

/// The answer of a call that told this, or found no memory, printed with the text of its audit. There is room for `Out`, so
/// no memory is taken here.
pub fn finish<K: Sink>(run: Result<Told, Memory>, out: &mut K) -> Outcome
    requires { IfOk run (λ told. vec_len told.faults + 1 ≤ vec_capacity told.faults) }
    ensures answers { PrintsAnswer (said_text (audit_told run) (answer_of run)) (answer_of run) result (K.taken out.old)
        (K.taken out.new) (K.faults out.old) (K.faults out.new) }
    ensures counts { K.faults out.old ≤ K.faults out.new }
{
    match run {
        Ok(told) => report(told, out),
        Err(_) => printed(Outcome::OutOfMemory, out),
    }
}
