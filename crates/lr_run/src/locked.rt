// A run from its begin to its end.
ghost use Rattle.std.specs.Prelude.{◌≡◌, ◌+◌, ◌≤◌, ◌++◌, [], ◌∷◌, true, false, None, Ok, Err, OnOk, OnErr, IfErr, vec_len};
ghost use Rattle.std.specs.Vec.{vec_capacity};
ghost use Rattle.lr_rules.specs.declared.fault.CallKind.TheVariants as call;
ghost use Rattle.lr_rules.specs.declared.fault.Fault.TheVariants as fault;
ghost use Rattle.lr_rules.specs.Path.{parent_of};
ghost use Rattle.lr_host.specs.declared.entry.Entry.TheVariants as entry;
ghost use Rattle.lr_host.specs.Opening.{IsJournal};
ghost use Rattle.lr_host.specs.Told.{Left, Then, Are, Can, NoneFell, Rose, WhereTold};
ghost use Rattle.lr_host.specs.World.{world};
ghost use Rattle.lr_host.specs.Counted.{AddsFaults, WentBy};
ghost use Rattle.lr_plan.specs.Asked.{asking};
ghost use Rattle.lr_run.specs.Internal.{CameTo, EndsWork, Goes, SomeWork, RunStopped};

use crate::answer::RunStop;
use crate::work::work;
use lr_acts::Progress;
use lr_host::Host;
use lr_plan::Plan;
use lr_rules::{CallKind, Clock, Fault, Memory, Path, Rules, Settings};
use std::alloc::Global;

// The work, and the end of the run.
fn work_to_end<H: Host>(
    alloc: Global,
    host: &mut H,
    rules: &Rules,
    settings: &Settings,
    clock: &Clock,
    reached: &mut Option<Plan>,
    progress: &mut Progress,
) -> Result<(), Memory>
    requires none { reached.old ≡ None }
    requires disk { WhereTold (H.told host.old) IsJournal }
    requires dir { Can (H.told host.old) (entry.List (parent_of settings.now.state) []) }
    requires room { vec_len progress.old.faults + 2 ≤ vec_capacity progress.old.faults }
    requires on { WhereTold (H.told host.old) (λ p. (world p).running ≡ true) }
    ensures told { OnOk result (CameTo (EndsWork settings.now.state rules.now.sets clock.entry.now
        (asking settings.now.force settings.now.mailer) reached.new progress.old.faults.items progress.new.faults.items)
        settings.now.state clock.entry.now (H.told host.old) (H.told host.new)) }
    ensures some { OnErr result (Left (Then (SomeWork settings.now.state rules.now.sets clock.entry.now
        (asking settings.now.force settings.now.mailer)) (Are (entry.Ends ∷ []))) (H.told host.old) (H.told host.new)) }
    ensures room { OnOk result (vec_len progress.new.faults + 1 ≤ vec_capacity progress.new.faults) }
    ensures counted { OnOk result (AddsFaults progress.old.faults.items progress.new.faults.items (H.counts host.old)
        (H.counts host.new)) }
    ensures lock { (H.counts host.new).locked ≡ false }
    ensures counts { NoneFell (H.counts host.old) (H.counts host.new) }
{
    let done = work(alloc, host, rules, settings, clock, reached, progress);
    host.end();
    done
}

// Adds the fault of a begin that failed, for which there is room.
fn add_not_begun(faults: &mut Vec<Fault>, state: Path)
    requires { vec_len faults.old + 2 ≤ vec_capacity faults.old }
    ensures faults { faults.new.items ≡ faults.old.items ++ fault.Call call.Begin state ∷ [] }
    ensures room { vec_len faults.new + 1 ≤ vec_capacity faults.new }
{
    faults.push_reserved(Fault::Call(CallKind::Begin, state));
}

/// Begins the run, and where it began, does its work and ends it. The state's path is told where the begin fails.
pub fn begin_to_end<H: Host>(
    alloc: Global,
    host: &mut H,
    rules: &Rules,
    settings: &Settings,
    clock: &Clock,
    name: Path,
    reached: &mut Option<Plan>,
    progress: &mut Progress,
) -> Result<(), RunStop>
    requires none { reached.old ≡ None }
    requires disk { WhereTold (H.told host.old) IsJournal }
    requires there { Can (H.told host.old) (entry.Starts settings.now.state clock.now.now rules.now) }
    requires name { name ≡ settings.now.state }
    requires room { vec_len progress.old.faults + 2 ≤ vec_capacity progress.old.faults }
    ensures told { OnOk result (CameTo (Goes settings.now.state (asking settings.now.force settings.now.mailer) clock.entry.now
        rules.now reached.new progress.old.faults.items progress.new.faults.items) settings.now.state clock.entry.now
        (H.told host.old) (H.told host.new)) }
    ensures stopped { IfErr result (λ why. Left (RunStopped settings.now.state (asking settings.now.force settings.now.mailer)
        clock.entry.now rules.now why) (H.told host.old) (H.told host.new)) }
    ensures held { result ≡ Err RunStop.Held → Rose (H.counts host.old).held (H.counts host.new).held }
    ensures room { OnOk result (vec_len progress.new.faults + 1 ≤ vec_capacity progress.new.faults) }
    ensures went { WentBy result progress.old.faults.items progress.new.faults.items (H.counts host.old) (H.counts host.new) }
{
    match host.begin(&settings.state, &clock.now, rules) {
        Ok(true) => match work_to_end(alloc, host, rules, settings, clock, reached, progress) {
            Ok(()) => Ok(()),
            Err(_) => Err(RunStop::Memory),
        },
        Ok(false) => Err(RunStop::Held),
        Err(_) => {
            add_not_begun(&mut progress.faults, name);
            Ok(())
        }
    }
}
