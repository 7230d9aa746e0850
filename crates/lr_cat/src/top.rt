// The top call.
ghost use Rattle.std.specs.Prelude.{◌≡◌, ◌≢◌, ◌≤◌, ◌↔◌, false, Some, None};
ghost use Rattle.lr_rules.specs.declared.fault.Fault.TheVariants as fault;
ghost use Rattle.lr_host.specs.Opening.{IsJournal};
ghost use Rattle.lr_host.specs.Told.{Onward, Rose, WhereTold};
ghost use Rattle.lr_due.specs.Zone.{IsInRange};
ghost use Rattle.lr_cat.specs.declared.words.Wanted.{Wanted};
ghost use Rattle.lr_cat.specs.Came.{clock_fault};
ghost use Rattle.lr_cat.specs.Outcome.{notes_text};
ghost use Rattle.lr_cat.specs.Says.{CatSays, HasCounted, HasFault, Noted};
ghost use Rattle.lr_cat.specs.Words.{wanted};

use crate::notes::{noted, noted_early};
use crate::outcome::CatOutcome;
use crate::run::call_at;
use crate::words::wanted_of;
use lr_command::WordsFault;
use lr_host::{Host, Sink};
use lr_report::Outcome;
use lr_rules::{Path, Text};
use std::alloc::Global;

/// One call of the program: reads the configuration that the words name, from the directory `here` on, takes the lock of the
/// state file, and puts out the files of the log, the oldest first, each from its first byte to a read that gives nothing. What
/// there is to say of that is put into the notes. `now` is in seconds since 1970-01-01 0:0:0 UTC.
///
/// Each fault but those of the configuration's lines ends the call, and stands last in its report. A fault of the notes is
/// ignored.
pub fn lrcat<H: Host, K: Sink, N: Sink>(
    alloc: Global,
    words: &[Text],
    here: &Path,
    now: i64,
    host: &mut H,
    out: &mut K,
    notes: &mut N,
) -> CatOutcome
    // A journal that the host tells is one of a disk.
    requires { WhereTold (H.told host.old) IsJournal }

    // What the call came to, as a value: its clock, what it read of the configuration, the files of its log, and the text that it
    // read of each. Its entries and its answer show it, and the output took those texts, the oldest first. Nothing was changed.
    // Where no fault of its own ended the call, the files are those that stood as the run began, and each text has all bytes
    // that its file had as the call began, and is a first part of those that it has at the end. None did where no count rose and
    // nothing was in the call's way: then all is printed, and no fault is told but the configuration's.
    ensures told { CatSays here.now words.now now result (H.told host.old) (H.told host.new) (H.counts host.old)
        (H.counts host.new) (K.taken out.old) (K.taken out.new) (K.faults out.old) (K.faults out.new) }

    // The notes took the lines of the report, and behind them, where the log waits under its name aside, a line that says so; or
    // the one line of another outcome. All of it, unless a put failed.
    ensures notes { Noted (notes_text here.now words.now result) (N.taken notes.old) (N.taken notes.new) (N.faults notes.old)
        (N.faults notes.new) }

    // `Out` comes only where a put failed.
    ensures out { HasFault result fault.Out → Rose (K.faults out.old) (K.faults out.new) }

    // Also where the host tells nothing: the words, the clock, the counts of failed calls, the lock.
    ensures bad_words { result ≢ CatOutcome.OutOfMemory → (result ≡ CatOutcome.BadWords ↔ wanted here.now words.now ≡ None) }
    ensures clock { HasFault result fault.Clock → ¬ (IsInRange now) }
    ensures no_clock { (w : Wanted) → wanted here.now words.now ≡ Some w → ¬ (IsInRange now) → result ≢ CatOutcome.OutOfMemory
        → result ≡ CatOutcome.Done clock_fault false }
    ensures counted { HasCounted result (H.counts host.old) (H.counts host.new) }
    ensures counts { Onward (H.counts host.old) (H.counts host.new) }
    ensures sink_counts { K.faults out.old ≤ K.faults out.new }
    ensures note_counts { N.faults notes.old ≤ N.faults notes.new }
{
    let wanted = match wanted_of(alloc, words, here) {
        Ok(wanted) => wanted,
        Err(WordsFault::Refused) => return noted_early(Outcome::BadWords, notes),
        Err(WordsFault::Memory) => return noted_early(Outcome::OutOfMemory, notes),
    };
    let outcome = call_at(alloc, host, &wanted, now, out);
    noted(&wanted.log, outcome, notes)
}
