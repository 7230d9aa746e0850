// The run that the settings ask for: a dry one, or one that acts.
ghost use Rattle.std.specs.Prelude.{◌≡◌, ◌+◌, ◌≤◌, true, Err, IfOk, vec_len};
ghost use Rattle.std.specs.Vec.{vec_capacity};
ghost use Rattle.lr_host.specs.Opening.{IsJournal};
ghost use Rattle.lr_host.specs.Told.{Left, Rose, WhereTold};
ghost use Rattle.lr_laws.specs.StateWhole.{KeepsWhole};
ghost use Rattle.lr_host.specs.Counted.{WentBy};
ghost use Rattle.lr_laws_acts.specs.Emptied.{EmptiesWhole};
ghost use Rattle.lr_laws.specs.Forward.{IsForwardFor};
ghost use Rattle.lr_laws.specs.Stays.{KeepsSafeWhere};
ghost use Rattle.lr_laws_rotations.specs.Runs.{IsWholeRunBy};
ghost use Rattle.lr_move.specs.Moved.{KeepsMovedWhere};
ghost use Rattle.lr_plan.specs.Asked.{asking};
ghost use Rattle.lr_run.specs.Saw.{HasShortReads};
ghost use Rattle.lr_run.specs.Copied.{IsCopyBy};
ghost use Rattle.lr_host.specs.Looking.{AreSights};
ghost use Rattle.lr_run.specs.Ran.{RanSo, run_faults};
ghost use Rattle.lr_run.specs.State.{IsNewText};

use crate::answer::{Ran, RunStop};
use crate::dry::dry_run;
use crate::whole::real_run;
use lr_host::Host;
use lr_rules::{Clock, Fault, Rules, Settings};
use std::alloc::Global;

/// Makes one run: looks at the state's directory, takes the lock, reads the state, looks at the logs that the rules ask
/// for, carries out the plan that follows, writes the state, and gives the lock back. Where the settings ask for a dry run,
/// it only looks, and plans. Each fault leaves the answer Ok. All memory but that of programs is taken before the first
/// change; where there is none, the run ends with no change. Where there is none for a program, the acts end there, and the
/// state is not written. A journal that the host tells has to be one of a disk. Where nothing is known of the state, no log
/// is looked at; where its text could become longer than 67,108,864 bytes, nothing is changed; in both cases there is no
/// plan. A dry run needs no directory of the state: where there is none, no log has an entry.
pub fn run<H: Host>(
    alloc: Global,
    rules: &Rules,
    settings: &Settings,
    clock: &Clock,
    earlier: Vec<Fault>,
    host: &mut H,
) -> Result<Ran, RunStop>
    requires disk { WhereTold (H.told host.old) IsJournal }
    ensures safe { KeepsSafeWhere (IsForwardFor clock.entry.now) (H.told host.old) (H.told host.new) }
    ensures moved { KeepsMovedWhere (IsForwardFor clock.entry.now) (H.told host.old) (H.told host.new) }
    ensures state { KeepsWhole settings.now.state (IsNewText settings.now.state clock.entry.now
        (asking settings.now.force settings.now.mailer) rules.now) (H.told host.old) (H.told host.new) }
    ensures copied { EmptiesWhole (IsCopyBy rules.now.sets clock.entry.now) (H.told host.old) (H.told host.new) }
    ensures told { RanSo settings.now.debug settings.now.state rules.now clock.entry.now
        (asking settings.now.force settings.now.mailer) earlier.items result (H.told host.old) (H.told host.new) }
    ensures shape { Left (IsWholeRunBy clock.entry.now) (H.told host.old) (H.told host.new) }
    ensures went { WentBy result earlier.items (run_faults result) (H.counts host.old) (H.counts host.new) }
    ensures held { result ≡ Err RunStop.Held → Rose (H.counts host.old).held (H.counts host.new).held }
    ensures room { IfOk result (λ ran. vec_len ran.faults + 1 ≤ vec_capacity ran.faults) }
    ensures short { Left HasShortReads (H.told host.old) (H.told host.new) }

    // A dry run takes no lock, changes nothing and starts no program.
    ensures dry { settings.now.debug ≡ true → Left AreSights (H.told host.old) (H.told host.new) }
{
    if settings.debug {
        dry_run(alloc, rules, settings, clock, earlier, host)
    } else {
        real_run(alloc, rules, settings, clock, earlier, host)
    }
}
