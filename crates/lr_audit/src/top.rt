// The top call.
ghost use Rattle.std.specs.Prelude.{◌≡◌, ◌≢◌, ◌≤◌, ◌↔◌, Contains, None};
ghost use Rattle.lr_rules.specs.declared.fault.Fault.TheVariants as fault;
ghost use Rattle.lr_host.specs.Opening.{IsJournal};
ghost use Rattle.lr_host.specs.Quiet.{AreQuiet};
ghost use Rattle.lr_host.specs.Told.{Left, Onward, Rose, WhereTold};
ghost use Rattle.lr_audit.specs.Says.{AuditSays, WhereDone};
ghost use Rattle.lr_audit.specs.Words.{wanted};

use crate::report::finish;
use crate::run::audit_at;
use crate::words::wanted_of;
use lr_command::WordsFault;
use lr_due::Zone;
use lr_host::{Host, Sink};
use lr_report::{Outcome, printed};
use lr_rules::{Path, Text};
use std::alloc::Global;

/// One call of the program: reads the configurations that the words name, from the directory `here` on, looks at the logs of
/// their rules and at their families, and prints of each regular file beside them what it is, which places are free, and what
/// the next run by `--force` removes, by a clock in the zone; and then its report. It takes no lock, reads no state, and
/// changes nothing. `now` is in seconds since 1970-01-01 0:0:0 UTC.
///
/// Printing ends at the first fault of the output, and then the report has the fault `Out` behind its others.
pub fn lraudit<H: Host, K: Sink>(
    alloc: Global,
    words: &[Text],
    here: &Path,
    zone: &Zone,
    now: i64,
    host: &mut H,
    out: &mut K,
) -> Outcome
    // A journal that the host tells is one of a disk.
    requires { WhereTold (H.told host.old) IsJournal }

    // It only looks, lists and reads: it changes nothing, and begins no run.
    ensures quiet { Left AreQuiet (H.told host.old) (H.told host.new) }

    // What the call came to, as a value: its clock, what it read, what it saw of the logs and of the files beside them, and the
    // audit that follows. Its entries and its answer show it, and what is printed; what it saw is true of the disk.
    ensures told { AuditSays here.now words.now zone.now now result (H.told host.old) (H.told host.new) (H.counts host.old)
        (H.counts host.new) (K.taken out.old) (K.taken out.new) (K.faults out.old) (K.faults out.new) }

    // `Out` comes only where a put failed.
    ensures out { WhereDone result (λ report. Contains report.faults fault.Out → Rose (K.faults out.old) (K.faults out.new)) }

    // Also where the host tells nothing: the words, the lock, the counts.
    ensures bad_words { result ≢ Outcome.OutOfMemory → (result ≡ Outcome.BadWords ↔ wanted here.now words.now ≡ None) }
    ensures never_held { result ≢ Outcome.Held }
    ensures nothing { wanted here.now words.now ≡ None → H.told host.new ≡ H.told host.old }
    ensures counts { Onward (H.counts host.old) (H.counts host.new) }
    ensures sink_counts { K.faults out.old ≤ K.faults out.new }
{
    let wanted = match wanted_of(alloc, words, here) {
        Ok(wanted) => wanted,
        Err(WordsFault::Refused) => return printed(Outcome::BadWords, out),
        Err(WordsFault::Memory) => return printed(Outcome::OutOfMemory, out),
    };
    let run = audit_at(alloc, host, &wanted, zone, now);
    finish(run, out)
}
