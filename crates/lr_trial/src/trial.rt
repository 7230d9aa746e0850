// The month of `logrotate`.
ghost use Rattle.std.specs.Prelude.{◌≡◌, ◌≤◌, Err, OnOk, IfOk};
ghost use Rattle.lr_host.specs.Told.{Rose};
ghost use Rattle.lr_report.specs.Puts.{Took, TookPart};
ghost use Rattle.lr_nights.specs.Month.{drawn_feeds, feeds_in};
ghost use Rattle.lr_nights.specs.Printed.{summary_text};
ghost use Rattle.lr_nights.specs.Trial.{HasStarts, IsTrialSummary};

use crate::tool::Tool;
use lr_host::Sink;
use lr_memhost::MemHost;
use lr_nights::{Summary, TrialStop, nights};
use std::alloc::Global;

/// Thirty nights of `logrotate` over so many logs, 1 to 64, on a host that `trial_host` gives: `lr_nights::nights` with the tool
/// as what is run, and under the same clauses.
pub fn trial<K: Sink>(
    alloc: Global,
    logs: u32,
    host: &mut MemHost,
    out: &mut K,
) -> Result<Summary, TrialStop>
    requires { (1 ≤ logs) × (logs ≤ 64) }
    ensures nights { OnOk result (HasStarts logs host.new.journal) }
    ensures fed { OnOk result (feeds_in host.new.journal.entries ≡ drawn_feeds logs) }
    ensures summary { IfOk result (λ s. IsTrialSummary logs host.new.journal s) }
    ensures printed { IfOk result (λ s. Took (summary_text s) (K.taken out.old) (K.taken out.new)) }
    ensures part { result ≡ Err TrialStop.Out → (s : Summary) × IsTrialSummary logs host.new.journal s
        × TookPart (summary_text s) (K.taken out.old) (K.taken out.new) }
    ensures none { result ≡ Err TrialStop.Memory → K.taken out.new ≡ K.taken out.old }
    ensures out { result ≡ Err TrialStop.Out → Rose (K.faults out.old) (K.faults out.new) }
    ensures counts { K.faults out.old ≤ K.faults out.new }
{
    let Ok(tool) = Tool::new(alloc) else {
        return Err(TrialStop::Memory);
    };
    nights(alloc, logs, &tool, host, out)
}
