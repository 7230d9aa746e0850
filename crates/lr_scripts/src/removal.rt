// Removing a file.
ghost use Rattle.std.specs.Prelude.{OnOk, IfErr, option_copied};
ghost use Rattle.lr_host.specs.Told.{Left, Are, Onward};
ghost use Rattle.lr_host.specs.Steps.{CanAll};
ghost use Rattle.lr_scripts.specs.Programs.{runs_of, MaybeRefused, MaybeCause};
ghost use Rattle.lr_scripts.specs.Removals.{steps_of_removal, RemovalRefused, RemovalCause};

use crate::command::{Bad, Command, run_phase};
use lr_host::{CallFault, Host};
use lr_rules::{CallKind, Path, Phase};
use std::alloc::Global;

/// A file that is to be removed, and the programs that come before its unlink.
#[derive(Drop)]
pub struct Removal {
    pub path: Path,
    pub preremove: Option<Command>,
    pub mail: Option<Command>,
}

// Runs the program where there is one.
fn run_where_given<H: Host>(
    alloc: Global,
    host: &mut H,
    phase: Phase,
    command: Option<&Command>,
) -> Result<(), Bad>
    requires { CanAll (H.told host.old) (runs_of (option_copied command)) }
    ensures told { OnOk result (Left (Are (runs_of (option_copied command.entry))) (H.told host.old) (H.told host.new)) }
    ensures refused { IfErr result (λ why. Left (MaybeRefused (option_copied command.entry) why) (H.told host.old)
        (H.told host.new)) }
    ensures cause { IfErr result (λ why. MaybeCause phase (option_copied command.entry) why (H.counts host.old)
        (H.counts host.new)) }
    ensures counts { Onward (H.counts host.old) (H.counts host.new) }
{
    match command {
        Some(command) => run_phase(alloc, host, phase, command),
        None => Ok(()),
    }
}

/// Removes the file: runs its preremove script, then its mail, then unlinks it. Where a program doesn't end with 0 or
/// can't be run, what comes behind it is left undone, so the file stays.
pub fn remove<H: Host>(alloc: Global, host: &mut H, removal: &Removal) -> Result<(), Bad>
    requires { CanAll (H.told host.old) (steps_of_removal removal.now) }
    ensures told { OnOk result (Left (Are (steps_of_removal removal.now)) (H.told host.old) (H.told host.new)) }
    ensures refused { IfErr result (λ why. Left (RemovalRefused removal.now why) (H.told host.old) (H.told host.new)) }
    ensures cause { IfErr result (λ why. RemovalCause removal.now why (H.counts host.old) (H.counts host.new)) }
    ensures counts { Onward (H.counts host.old) (H.counts host.new) }
{
    run_where_given(alloc, host, Phase::Preremove, removal.preremove.as_ref())?;
    run_where_given(alloc, host, Phase::Mail, removal.mail.as_ref())?;
    match host.unlink(&removal.path) {
        Ok(()) => Ok(()),
        Err(CallFault::Failed) => Err(Bad::Call(CallKind::Unlink)),
    }
}
