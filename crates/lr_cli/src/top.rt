// The top call.
ghost use Rattle.std.specs.Prelude.{◌≡◌, ◌≢◌, ◌≤◌, ◌↔◌, true};
ghost use Rattle.lr_rules.specs.declared.fault.Fault.TheVariants as fault;
ghost use Rattle.lr_host.specs.Opening.{IsJournal};
ghost use Rattle.lr_host.specs.Told.{Left, NoneFell, Rose, WhereTold};
ghost use Rattle.lr_host.specs.Looking.{AreSights};
ghost use Rattle.lr_command.specs.declared.request.Request.{Request};
ghost use Rattle.lr_report.specs.declared.outcome.Report.{Report};
ghost use Rattle.lr_cli.specs.Asked.{AskFor, AskForNone};
ghost use Rattle.lr_clock.specs.Clock.{IsClocked};
ghost use Rattle.lr_cli.specs.Faults.{HasFault, HasCounted};
ghost use Rattle.lr_cli.specs.Printed.{without_out};
ghost use Rattle.lr_cli.specs.Safe.{KeepsSafeByClock, KeepsMovedByClock};
ghost use Rattle.lr_cli.specs.Says.{Says};

use crate::report::finish;
use crate::run::run_at;
use lr_command::{WordsFault, request_of};
use lr_due::Zone;
use lr_host::{Host, Sink};
use lr_report::{Outcome, printed};
use lr_rules::{Path, Text};
use std::alloc::Global;

/// One call of the program: reads the configurations that the words name, from the directory `here` on, makes a run over
/// their rules by a clock in the zone, and prints what it decided, where the words ask for that, and its report. A dry run,
/// where they ask for one, prints what a run would do, and does nothing of it. `now` is in seconds since 1970-01-01 0:0:0
/// UTC.
///
/// Printing ends at the first fault of the output, and then the report has the fault `Out` behind its others.
pub fn logrotate<H: Host, K: Sink>(
    alloc: Global,
    words: &[Text],
    here: &Path,
    zone: &Zone,
    now: i64,
    host: &mut H,
    out: &mut K,
) -> Outcome
    // A journal that the host tells is one of a disk.
    requires { WhereTold (H.told host.old) IsJournal }

    // A set that was safe in the journal before is safe in the journal after, where it is steady there, and none of its stamps
    // had gone ahead of the call's clock: whatever failed, and wherever the run stopped. Of a numbered set the clock asks nothing.
    ensures safe { KeepsSafeByClock zone.now now (H.told host.old) (H.told host.new) }

    // So is a set whose log is set aside before it is copied; and where writers spared the copy, that log was let go only behind
    // a whole one, which no cut takes back.
    ensures moved { KeepsMovedByClock zone.now now (H.told host.old) (H.told host.new) }

    // Where the words ask for nothing, nothing is called.
    ensures nothing { AskForNone here.now words.now → H.told host.new ≡ H.told host.old }

    // What the call came to, as a value: its clock, what it read, what it saw, the plan that follows, and what the acts came to.
    // Its entries and its answer show it, and what is printed; the disk is by it: what it saw is true; where no step of the logs
    // failed, each log of the plan was turned, and where nothing failed, the plan was done; none failed where no count rose and
    // nothing was in the way; all else was left alone, whatever failed. The state's file is the old one or the new one, whole,
    // at each moment and after each cut; a log is emptied only just behind its copy. A call that didn't come to its plan says why.
    ensures told { Says here.now words.now zone.now now result (H.told host.old) (H.told host.new) (H.counts host.old)
        (H.counts host.new) (K.taken out.old) (K.taken out.new) (K.faults out.old) (K.faults out.new) }

    // A dry run only looks, lists and reads: it takes no lock, changes nothing, and starts no program.
    ensures dry { (request : Request) → AskFor here.now words.now request → request.settings.debug ≡ true
        → Left AreSights (H.told host.old) (H.told host.new) }

    // `Out` comes only where a put failed.
    ensures out { HasFault result fault.Out → Rose (K.faults out.old) (K.faults out.new) }

    // Also where the host tells nothing: the words, the clock, the counts of failed calls and bad ends, the lock.
    ensures bad_words { result ≢ Outcome.OutOfMemory → (result ≡ Outcome.BadWords ↔ AskForNone here.now words.now) }
    ensures words { (report : Report) → result ≡ Outcome.Done report → (request : Request) × AskFor here.now words.now request }
    ensures clock { (report : Report) → without_out result ≡ Outcome.Done report
        → IsClocked zone.now now report.notices report.faults }
    ensures counted { HasCounted (without_out result) (H.counts host.old) (H.counts host.new) }
    ensures held { result ≡ Outcome.Held → Rose (H.counts host.old).held (H.counts host.new).held }
    ensures lock { (H.counts host.new).locked ≡ (H.counts host.old).locked }
    ensures counts { NoneFell (H.counts host.old) (H.counts host.new) }
    ensures sink_counts { K.faults out.old ≤ K.faults out.new }
{
    let request = match request_of(alloc, words, here) {
        Ok(request) => request,
        Err(WordsFault::Refused) => return printed(Outcome::BadWords, out),
        Err(WordsFault::Memory) => return printed(Outcome::OutOfMemory, out),
    };
    let run = run_at(alloc, host, &request, zone, now);
    finish(&request, run, out)
}
