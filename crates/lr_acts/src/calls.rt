// The steps that make one call, each by itself.
ghost use Rattle.std.specs.Prelude.{◌≡◌, ◌≢◌, Err, [], ◌∷◌, IfOk, IfErr, option_to_list};
ghost use Rattle.lr_rules.specs.declared.fault.Ended.TheVariants as ended;
ghost use Rattle.lr_host.specs.declared.entry.Entry.TheVariants as entry;
ghost use Rattle.lr_host.specs.Told.{Left, Can, Onward};
ghost use Rattle.lr_scripts.specs.Programs.{runs};
ghost use Rattle.lr_plan.specs.Outcomes.{dir_fault};
ghost use Rattle.lr_plan.specs.declared.mark.Mark.TheVariants as mark;
ghost use Rattle.lr_plan.specs.declared.step.Step.TheVariants as step;
ghost use Rattle.lr_acts.specs.declared.stop.Stop.TheVariants as stop;
ghost use Rattle.lr_acts.specs.Making.{StepLeft, StopCause, program_stop};
ghost use Rattle.lr_acts.specs.Named.{PathIsNamed};

use crate::stop::Stop;
use lr_chain::DirStop;
use lr_host::Host;
use lr_plan::Mark;
use lr_rules::{CallKind, Fault, Path, Phase, Text};
use lr_scripts::{Bad, Command, run_phase};
use std::alloc::Global;

// The fault of a program that was refused.
fn program_fault(on: Text, command: Command, why: Bad) -> Stop
    ensures { result ≡ program_stop on command why }
{
    match why {
        Bad::Script(phase, ended) => Stop::Fault(Fault::Script(phase, on, ended)),
        Bad::Call(kind) => {
            let Command { program, .. } = command;
            Stop::Fault(Fault::Call(kind, program))
        }
        Bad::Memory => Stop::Memory,
    }
}

/// Runs a program.
pub fn run_program<H: Host>(
    alloc: Global,
    host: &mut H,
    phase: Phase,
    on: Text,
    command: Command,
) -> Result<Option<Mark>, Stop>
    requires { Can (H.told host.old) (runs command ended.Killed) }
    ensures told { Left (StepLeft (step.Runs phase on command) result) (H.told host.old) (H.told host.new) }
    ensures marks { IfOk result (λ told. option_to_list told ≡ []) }
    ensures cause { IfErr result (λ why. StopCause why (H.counts host.old) (H.counts host.new) (H.told host.old)
        (H.told host.new)) }
    ensures counts { Onward (H.counts host.old) (H.counts host.new) }
{
    match run_phase(alloc, host, phase, &command) {
        Ok(()) => Ok(None),
        Err(why) => Err(program_fault(on, command, why)),
    }
}

/// Unlinks a file.
pub fn remove_file<H: Host>(host: &mut H, path: Path) -> Result<Option<Mark>, Stop>
    requires { Can (H.told host.old) (entry.Unlinks path) }
    ensures told { Left (StepLeft (step.Removes path) result) (H.told host.old) (H.told host.new) }
    ensures marks { IfOk result (λ told. option_to_list told ≡ []) }
    ensures cause { IfErr result (λ why. StopCause why (H.counts host.old) (H.counts host.new) (H.told host.old)
        (H.told host.new)) }
    ensures memory { result ≢ Err stop.Memory }
    ensures counts { Onward (H.counts host.old) (H.counts host.new) }
{
    match host.unlink(&path) {
        Ok(()) => Ok(None),
        Err(_) => Err(Stop::Fault(Fault::Call(CallKind::Unlink, path))),
    }
}

/// Renames a file.
pub fn rename_file<H: Host>(host: &mut H, from: Path, to: Path) -> Result<Option<Mark>, Stop>
    requires { Can (H.told host.old) (entry.Renames from to) }
    ensures told { Left (StepLeft (step.Renames from to) result) (H.told host.old) (H.told host.new) }
    ensures marks { IfOk result (λ told. option_to_list told ≡ []) }
    ensures cause { IfErr result (λ why. StopCause why (H.counts host.old) (H.counts host.new) (H.told host.old)
        (H.told host.new)) }
    ensures memory { result ≢ Err stop.Memory }
    ensures counts { Onward (H.counts host.old) (H.counts host.new) }
{
    match host.rename(&from, &to) {
        Ok(()) => Ok(None),
        Err(_) => Err(Stop::Fault(Fault::Call(CallKind::Rename, from))),
    }
}

// The fault of a directory that wasn't made.
fn dir_fault(path: Path, why: DirStop) -> Fault
    ensures { result ≡ dir_fault path why }
{
    match why {
        DirStop::Make => Fault::Call(CallKind::MakeDir, path),
        DirStop::Look => Fault::Call(CallKind::Look, path),
        DirStop::NotDir => Fault::NotFile(path),
    }
}

/// Makes a directory; where the path is named, looks whether it is one.
pub fn make_directory<H: Host>(
    host: &mut H,
    path: Path,
    mode: Option<u32>,
) -> Result<Option<Mark>, Stop>
    requires { Can (H.told host.old) (entry.MakesDir path mode) }
    ensures told { Left (StepLeft (step.MakesDir path mode) result) (H.told host.old) (H.told host.new) }
    ensures marks { IfOk result (λ told. option_to_list told ≡ mark.Directory path ∷ []) }
    ensures cause { IfErr result (λ why. StopCause why (H.counts host.old) (H.counts host.new) (H.told host.old)
        (H.told host.new)) }
    ensures memory { result ≢ Err stop.Memory }
    ensures counts { Onward (H.counts host.old) (H.counts host.new) }
{
    match lr_chain::make_directory(host, &path, mode) {
        Ok(()) => Ok(Some(Mark::Directory(path))),
        Err(why) => Err(Stop::Fault(dir_fault(path, why))),
    }
}

/// Makes a log anew; where the path is named, that stays.
pub fn create_file<H: Host>(
    host: &mut H,
    path: Path,
    mode: Option<u32>,
) -> Result<Option<Mark>, Stop>
    requires { Can (H.told host.old) (entry.Makes path mode) }
    ensures told { Left (StepLeft (step.Creates path mode) result) (H.told host.old) (H.told host.new) }
    ensures marks { IfOk result (λ told. option_to_list told ≡ mark.Created path ∷ []) }
    ensures named { IfOk result (λ told. PathIsNamed path (H.told host.new)) }
    ensures cause { IfErr result (λ why. StopCause why (H.counts host.old) (H.counts host.new) (H.told host.old)
        (H.told host.new)) }
    ensures memory { result ≢ Err stop.Memory }
    ensures counts { Onward (H.counts host.old) (H.counts host.new) }
{
    match host.make_new(&path, mode) {
        Ok(true) => Ok(Some(Mark::Created(path))),
        Ok(false) => Ok(Some(Mark::Created(path))),
        Err(_) => Err(Stop::Fault(Fault::Call(CallKind::Make, path))),
    }
}

/// Makes a file at a path that has to be free.
pub fn take_file<H: Host>(host: &mut H, path: Path, mode: Option<u32>) -> Result<Option<Mark>, Stop>
    requires { Can (H.told host.old) (entry.Makes path mode) }
    ensures told { Left (StepLeft (step.Takes path mode) result) (H.told host.old) (H.told host.new) }
    ensures marks { IfOk result (λ told. option_to_list told ≡ []) }
    ensures cause { IfErr result (λ why. StopCause why (H.counts host.old) (H.counts host.new) (H.told host.old)
        (H.told host.new)) }
    ensures memory { result ≢ Err stop.Memory }
    ensures counts { Onward (H.counts host.old) (H.counts host.new) }
{
    match host.make_new(&path, mode) {
        Ok(true) => Ok(None),
        Ok(false) => Err(Stop::Fault(Fault::Taken(path))),
        Err(_) => Err(Stop::Fault(Fault::Call(CallKind::Make, path))),
    }
}

/// Makes the bytes of a file durable.
pub fn sync_file<H: Host>(host: &mut H, path: Path) -> Result<Option<Mark>, Stop>
    requires { Can (H.told host.old) (entry.SyncsFile path) }
    ensures told { Left (StepLeft (step.SyncsFile path) result) (H.told host.old) (H.told host.new) }
    ensures marks { IfOk result (λ told. option_to_list told ≡ []) }
    ensures cause { IfErr result (λ why. StopCause why (H.counts host.old) (H.counts host.new) (H.told host.old)
        (H.told host.new)) }
    ensures memory { result ≢ Err stop.Memory }
    ensures counts { Onward (H.counts host.old) (H.counts host.new) }
{
    match host.sync_file(&path) {
        Ok(()) => Ok(None),
        Err(_) => Err(Stop::Fault(Fault::Call(CallKind::Sync, path))),
    }
}

/// Makes the name changes in a directory durable.
pub fn sync_directory<H: Host>(host: &mut H, path: Path) -> Result<Option<Mark>, Stop>
    requires { Can (H.told host.old) (entry.SyncsDir path) }
    ensures told { Left (StepLeft (step.SyncsDir path) result) (H.told host.old) (H.told host.new) }
    ensures marks { IfOk result (λ told. option_to_list told ≡ []) }
    ensures cause { IfErr result (λ why. StopCause why (H.counts host.old) (H.counts host.new) (H.told host.old)
        (H.told host.new)) }
    ensures memory { result ≢ Err stop.Memory }
    ensures counts { Onward (H.counts host.old) (H.counts host.new) }
{
    match host.sync_dir(&path) {
        Ok(()) => Ok(None),
        Err(_) => Err(Stop::Fault(Fault::Call(CallKind::Sync, path))),
    }
}

/// Empties a file.
pub fn empty_file<H: Host>(host: &mut H, path: Path) -> Result<Option<Mark>, Stop>
    requires { Can (H.told host.old) (entry.Truncates path) }
    ensures told { Left (StepLeft (step.Truncates path) result) (H.told host.old) (H.told host.new) }
    ensures marks { IfOk result (λ told. option_to_list told ≡ []) }
    ensures cause { IfErr result (λ why. StopCause why (H.counts host.old) (H.counts host.new) (H.told host.old)
        (H.told host.new)) }
    ensures memory { result ≢ Err stop.Memory }
    ensures counts { Onward (H.counts host.old) (H.counts host.new) }
{
    match host.truncate(&path) {
        Ok(()) => Ok(None),
        Err(_) => Err(Stop::Fault(Fault::Call(CallKind::Truncate, path))),
    }
}
