// What there is to say of an outcome, put out.
ghost use Rattle.std.specs.Prelude.{◌≡◌, ◌≤◌, ◌++◌, OnErr, OnOk};
ghost use Rattle.lr_host.specs.Told.{Rose};
ghost use Rattle.lr_report.specs.Lines.{report_lines};
ghost use Rattle.lr_report.specs.Outcome.{outcome_text};
ghost use Rattle.lr_report.specs.Puts.{Took, TookPart};
ghost use Rattle.lr_cat.specs.Outcome.{cat_outcome, notes_of, waits_line};
ghost use Rattle.lr_cat.specs.Says.{Noted};

use crate::outcome::{CatOutcome, cat_outcome};
use lr_host::{Sink, SinkFault};
use lr_report::{Outcome, Report, printed, put_report, put_said, put_three};
use lr_rules::Path;

// Puts the line of a log that waits, if it does.
fn put_waits<N: Sink>(log: &Path, waits: bool, notes: &mut N) -> Result<(), SinkFault>
    ensures whole { OnOk result (Took (waits_line waits log.now) (N.taken notes.old) (N.taken notes.new)) }
    ensures part { TookPart (waits_line waits log.now) (N.taken notes.old) (N.taken notes.new) }
    ensures cause { OnErr result (Rose (N.faults notes.old) (N.faults notes.new)) }
    ensures counts { N.faults notes.old ≤ N.faults notes.new }
{
    if !waits {
        return Ok(());
    }
    put_three(
        notes,
        b"logrotate: notice: ",
        log.bytes(),
        b".tmp: waits for the next rotation\n",
    )
}

// Puts the lines of the report, and behind them that of a log that waits.
#[tactic(auto, using(lr_report::proofs::PutLemmas::part_first))]
fn put_done<N: Sink>(
    report: &Report,
    waits: bool,
    log: &Path,
    notes: &mut N,
) -> Result<(), SinkFault>
    ensures whole { OnOk result (Took (report_lines report.now.notices report.now.faults ++ waits_line waits log.now)
        (N.taken notes.old) (N.taken notes.new)) }
    ensures part { TookPart (report_lines report.now.notices report.now.faults ++ waits_line waits log.now) (N.taken notes.old)
        (N.taken notes.new) }
    ensures cause { OnErr result (Rose (N.faults notes.old) (N.faults notes.new)) }
    ensures counts { N.faults notes.old ≤ N.faults notes.new }
{
    put_report(report, notes)?;
    put_waits(log, waits, notes)
}

// Puts the lines of an outcome's report, or its one line.
fn put_notes<N: Sink>(log: &Path, outcome: &CatOutcome, notes: &mut N) -> Result<(), SinkFault>
    ensures whole { OnOk result (Took (notes_of log.now outcome.now) (N.taken notes.old) (N.taken notes.new)) }
    ensures part { TookPart (notes_of log.now outcome.now) (N.taken notes.old) (N.taken notes.new) }
    ensures cause { OnErr result (Rose (N.faults notes.old) (N.faults notes.new)) }
    ensures counts { N.faults notes.old ≤ N.faults notes.new }
{
    match outcome {
        CatOutcome::Done(report, waits) => put_done(report, *waits, log, notes),
        CatOutcome::BadWords => put_said(b"bad command line", notes),
        CatOutcome::NoLog => put_three(notes, b"logrotate: ", log.bytes(), b": not defined\n"),
        CatOutcome::Held => put_said(b"state file is locked", notes),
        CatOutcome::OutOfMemory => put_said(b"out of memory", notes),
    }
}

/// The outcome of a call for this log, of which all that there is to say was put. The output's faults are ignored.
pub fn noted<N: Sink>(log: &Path, outcome: CatOutcome, notes: &mut N) -> CatOutcome
    ensures same { result ≡ outcome }
    ensures noted { Noted (notes_of log.now outcome) (N.taken notes.old) (N.taken notes.new) (N.faults notes.old)
        (N.faults notes.new) }
    ensures counts { N.faults notes.old ≤ N.faults notes.new }
{
    let _ = put_notes(log, &outcome, notes);
    outcome
}

/// The same of a call that came to no log.
pub fn noted_early<N: Sink>(outcome: Outcome, notes: &mut N) -> CatOutcome
    ensures same { result ≡ cat_outcome outcome }
    ensures noted { Noted (outcome_text outcome) (N.taken notes.old) (N.taken notes.new) (N.faults notes.old) (N.faults notes.new) }
    ensures counts { N.faults notes.old ≤ N.faults notes.new }
{
    cat_outcome(printed(outcome, notes))
}
