// The month, from its draws to its six lines.
ghost use Rattle.std.specs.Prelude.{◌≡◌, ◌≤◌, map, flat_map, All, IsTrue, Err, OnOk, IfOk};
ghost use Rattle.lr_host.specs.Told.{Rose};
ghost use Rattle.lr_report.specs.Puts.{Took, TookPart};
ghost use Rattle.lr_nights.specs.Month.{entry_of, drawn_feeds, feeds_in, HasStartAt};
ghost use Rattle.lr_nights.specs.Printed.{summary_text};
ghost use Rattle.lr_nights.specs.Trial.{HasStarts, IsTrialSummary};

use crate::judging::{are_fed, has_starts};
use crate::living::{Run, live};
use crate::logs::families;
use crate::month::{Night, draw_nights};
use crate::summary::Summary;
use crate::tallying::tally;
use crate::texts::add_summary;
use lr_host::{Journal, Sink};
use lr_memhost::MemHost;
use lr_report::put_one;
use lr_rules::Memory;
use std::alloc::Global;

/// Why a trial has no summary.
#[derive(Clone, Copy, Debug, PartialEq, Eq)]
pub enum TrialStop {
    /// There was no memory, for the trial or for a run of it. It is also the answer where the journal hasn't what was drawn.
    Memory,
    /// The output failed: a first part of the lines came.
    Out,
}

// Whether the journal has a run at each night, and writers appended just what they append in them.
fn is_lived(journal: &Journal, nights: &[Night]) -> bool
    ensures nights { IsTrue result → All (λ night. HasStartAt night.seconds journal.now.entries) nights.now }
    ensures fed { IsTrue result → feeds_in journal.now.entries ≡ flat_map (λ night. map entry_of night.feeds) nights.now }
{
    let entries = journal.entries.as_slice();
    has_starts(entries, nights) && are_fed(entries, nights)
}

// The numbers of a journal.
fn summary_of(alloc: Global, logs: u32, host: &MemHost) -> Result<Summary, Memory>
    ensures { IfOk result (λ s. IsTrialSummary logs host.now.journal s) }
{
    let families = families(alloc, logs)?;
    tally(alloc, host.journal(), &families, 30)
}

// Lives through the month, and compares the journal with what was drawn.
fn month<R: Run>(alloc: Global, logs: u32, run: &R, host: &mut MemHost) -> Result<Summary, Memory>
    ensures nights { OnOk result (HasStarts logs host.new.journal) }
    ensures fed { OnOk result (feeds_in host.new.journal.entries ≡ drawn_feeds logs) }
    ensures summary { IfOk result (λ s. IsTrialSummary logs host.new.journal s) }
{
    let nights = draw_nights(alloc, logs)?;
    live(alloc, run, host, logs, &nights)?;
    if !is_lived(host.journal(), &nights) {
        return Err(Memory);
    }
    summary_of(alloc, logs, host)
}

// Puts the six lines.
fn put_summary<K: Sink>(alloc: Global, summary: &Summary, out: &mut K) -> Result<(), TrialStop>
    ensures printed { OnOk result (Took (summary_text summary.now) (K.taken out.old) (K.taken out.new)) }
    ensures part { result ≡ Err TrialStop.Out → TookPart (summary_text summary.now) (K.taken out.old) (K.taken out.new) }
    ensures none { result ≡ Err TrialStop.Memory → K.taken out.new ≡ K.taken out.old }
    ensures out { result ≡ Err TrialStop.Out → Rose (K.faults out.old) (K.faults out.new) }
    ensures counts { K.faults out.old ≤ K.faults out.new }
{
    let mut text = Vec::new(alloc);
    let Ok(()) = add_summary(&mut text, summary) else {
        return Err(TrialStop::Memory);
    };
    match put_one(out, text.as_slice()) {
        Ok(()) => Ok(()),
        Err(_) => Err(TrialStop::Out),
    }
}

/// Thirty nights of so many logs, 1 to 64, over a host that `trial_host` gives: before each run the writers append what is
/// drawn and take their logs anew, and in some nights the machine stops amid the run, which is made again then. The summary is
/// that of the host's journal, and of nothing else, and is printed. The journal is compared with the draws at the end, since
/// nothing is asked of what is run.
pub fn nights<R: Run, K: Sink>(
    alloc: Global,
    logs: u32,
    run: &R,
    host: &mut MemHost,
    out: &mut K,
) -> Result<Summary, TrialStop>
    requires { (1 ≤ logs) × (logs ≤ 64) }
    ensures nights { OnOk result (HasStarts logs host.new.journal) }
    ensures fed { OnOk result (feeds_in host.new.journal.entries ≡ drawn_feeds logs) }
    ensures summary { IfOk result (λ s. IsTrialSummary logs host.new.journal s) }
    ensures printed { IfOk result (λ s. Took (summary_text s) (K.taken out.old) (K.taken out.new)) }
    ensures part { result ≡ Err TrialStop.Out → (s : Summary) × IsTrialSummary logs host.new.journal s
        × TookPart (summary_text s) (K.taken out.old) (K.taken out.new) }
    ensures none { result ≡ Err TrialStop.Memory → K.taken out.new ≡ K.taken out.old }
    ensures out { result ≡ Err TrialStop.Out → Rose (K.faults out.old) (K.faults out.new) }
    ensures counts { K.faults out.old ≤ K.faults out.new }
{
    let Ok(summary) = month(alloc, logs, run, host) else {
        return Err(TrialStop::Memory);
    };
    put_summary(alloc, &summary, out)?;
    Ok(summary)
}
