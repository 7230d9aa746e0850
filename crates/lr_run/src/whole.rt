// The run over the definitions of a configuration.
ghost use Rattle.std.specs.Prelude.{◌≡◌, ◌+◌, ◌≤◌, ◌++◌, ◌∷◌, [], None, false, Ok, Err, IfOk, OnOk, IfErr, vec_len};
ghost use Rattle.std.specs.Vec.{vec_capacity};
ghost use Rattle.lr_rules.specs.Path.{parent_of};
ghost use Rattle.lr_host.specs.Opening.{IsJournal};
ghost use Rattle.lr_host.specs.Told.{Left, Rose, WhereTold};
ghost use Rattle.lr_laws.specs.StateWhole.{KeepsWhole};
ghost use Rattle.lr_host.specs.Counted.{WentBy};
ghost use Rattle.lr_family.specs.Directory.{dir_fault_of};
ghost use Rattle.lr_laws_acts.specs.Emptied.{EmptiesWhole};
ghost use Rattle.lr_laws.specs.Forward.{IsForwardFor};
ghost use Rattle.lr_laws.specs.Stays.{KeepsSafeWhere};
ghost use Rattle.lr_laws_rotations.specs.Runs.{IsWholeRunBy};
ghost use Rattle.lr_move.specs.Moved.{KeepsMovedWhere};
ghost use Rattle.lr_plan.specs.Asked.{asking};
ghost use Rattle.lr_run.specs.Internal.{StopsSo};
ghost use Rattle.lr_run.specs.Copied.{IsCopyBy};
ghost use Rattle.lr_run.specs.Ran.{RanSo, run_faults};
ghost use Rattle.lr_run.specs.State.{IsNewText};

use crate::answer::{Ran, RunStop};
use crate::locked::begin_to_end;
use lr_acts::Progress;
use lr_family::{DirStop, dir_fault, look_for_dir};
use lr_host::Host;
use lr_plan::Plan;
use lr_rules::{Clock, Fault, Memory, Path, Rules, Settings};
use std::alloc::Global;

// The paths that faults of the beginning tell: the state's directory, and the state.
#[derive(Drop)]
struct Names {
    dir: Path,
    state: Path,
}

fn names_of(alloc: Global, state: &Path) -> Result<Names, Memory>
    ensures dir { IfOk result (λ names. names.dir ≡ parent_of state.now) }
    ensures state { IfOk result (λ names. names.state ≡ state.now) }
{
    let dir = state.parent(alloc)?;
    let state = state.copy(alloc)?;
    Ok(Names { dir, state })
}

// Adds the fault of the state's directory, for which there is room.
fn add_dir_fault(faults: &mut Vec<Fault>, why: DirStop, names: Names)
    requires { vec_len faults.old + 2 ≤ vec_capacity faults.old }
    ensures faults { faults.new.items ≡ faults.old.items ++ dir_fault_of why names.dir ∷ [] }
    ensures room { vec_len faults.new + 1 ≤ vec_capacity faults.new }
{
    let Names { dir, .. } = names;
    faults.push_reserved(dir_fault(why, dir));
}

// Looks for the state's directory, and makes the run.
fn make_run<H: Host>(
    alloc: Global,
    host: &mut H,
    rules: &Rules,
    settings: &Settings,
    clock: &Clock,
    names: Names,
    reached: &mut Option<Plan>,
    progress: &mut Progress,
) -> Result<(), RunStop>
    requires none { reached.old ≡ None }
    requires disk { WhereTold (H.told host.old) IsJournal }
    requires dir { names.dir ≡ parent_of settings.now.state }
    requires state { names.state ≡ settings.now.state }
    requires room { vec_len progress.old.faults + 2 ≤ vec_capacity progress.old.faults }
    ensures told { OnOk result (RanSo false settings.now.state rules.now clock.entry.now
        (asking settings.now.force settings.now.mailer) progress.old.faults.items
        (Ok (record { plan = reached.new; faults = progress.new.faults })) (H.told host.old) (H.told host.new)) }
    ensures stopped { IfErr result (λ why. Left (StopsSo settings.now.state (asking settings.now.force settings.now.mailer)
        clock.entry.now rules.now why) (H.told host.old) (H.told host.new)) }
    ensures held { result ≡ Err RunStop.Held → Rose (H.counts host.old).held (H.counts host.new).held }
    ensures room { OnOk result (vec_len progress.new.faults + 1 ≤ vec_capacity progress.new.faults) }
    ensures went { WentBy result progress.old.faults.items progress.new.faults.items (H.counts host.old) (H.counts host.new) }
{
    match look_for_dir(host, &names.dir) {
        Ok(true) => {
            let Names { state, .. } = names;
            begin_to_end(
                alloc, host, rules, settings, clock, state, reached, progress,
            )
        }
        Ok(false) => {
            add_dir_fault(&mut progress.faults, DirStop::NotDir, names);
            Ok(())
        }
        Err(why) => {
            add_dir_fault(&mut progress.faults, why, names);
            Ok(())
        }
    }
}

// What a run begins with: the faults that were handed in, with room for two more.
fn progress_from(alloc: Global, earlier: Vec<Fault>) -> Result<Progress, Memory>
    ensures faults { IfOk result (λ progress. progress.faults.items ≡ earlier.items) }
    ensures room { IfOk result (λ progress. vec_len progress.faults + 2 ≤ vec_capacity progress.faults) }
{
    let mut faults = earlier;
    faults.reserve(2)?;
    Ok(Progress {
        marks: Vec::new(alloc),
        faults,
        buffer: Vec::new(alloc),
    })
}

// What it came to.
fn ran_of(reached: Option<Plan>, progress: Progress) -> Ran
    ensures { result ≡ record { plan = reached; faults = progress.faults } }
{
    let Progress { faults, .. } = progress;
    Ran {
        plan: reached,
        faults,
    }
}

/// Makes a run that acts: looks at the state's directory, takes the lock, reads the state, looks at the logs that the rules
/// ask for, carries out the plan that follows, writes the state, and gives the lock back.
pub fn real_run<H: Host>(
    alloc: Global,
    rules: &Rules,
    settings: &Settings,
    clock: &Clock,
    earlier: Vec<Fault>,
    host: &mut H,
) -> Result<Ran, RunStop>
    requires disk { WhereTold (H.told host.old) IsJournal }
    ensures safe { KeepsSafeWhere (IsForwardFor clock.entry.now) (H.told host.old) (H.told host.new) }
    ensures moved { KeepsMovedWhere (IsForwardFor clock.entry.now) (H.told host.old) (H.told host.new) }
    ensures state { KeepsWhole settings.now.state (IsNewText settings.now.state clock.entry.now
        (asking settings.now.force settings.now.mailer) rules.now) (H.told host.old) (H.told host.new) }
    ensures copied { EmptiesWhole (IsCopyBy rules.now.sets clock.entry.now) (H.told host.old) (H.told host.new) }
    ensures told { RanSo false settings.now.state rules.now clock.entry.now (asking settings.now.force settings.now.mailer)
        earlier.items result (H.told host.old) (H.told host.new) }
    ensures shape { Left (IsWholeRunBy clock.entry.now) (H.told host.old) (H.told host.new) }
    ensures went { WentBy result earlier.items (run_faults result) (H.counts host.old) (H.counts host.new) }
    ensures held { result ≡ Err RunStop.Held → Rose (H.counts host.old).held (H.counts host.new).held }
    ensures room { IfOk result (λ ran. vec_len ran.faults + 1 ≤ vec_capacity ran.faults) }
{
    let Ok(names) = names_of(alloc, &settings.state) else {
        return Err(RunStop::Memory);
    };
    let Ok(progress) = progress_from(alloc, earlier) else {
        return Err(RunStop::Memory);
    };
    let mut progress = progress;
    let mut reached = None;
    match make_run(
        alloc,
        host,
        rules,
        settings,
        clock,
        names,
        &mut reached,
        &mut progress,
    ) {
        Ok(()) => Ok(ran_of(reached, progress)),
        Err(why) => Err(why),
    }
}
