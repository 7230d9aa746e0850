// Running one program.
ghost use Rattle.std.specs.Prelude.{◌≡◌, [], ◌∷◌, pos, OnOk, IfOk, IfErr};
ghost use Rattle.lr_rules.specs.declared.fault.Ended.TheVariants as ended;
ghost use Rattle.lr_host.specs.Told.{Left, Are, Can, Onward};
ghost use Rattle.lr_scripts.specs.Programs.{runs, RunRefused, RunCause};

use lr_host::{Host, RunFault};
use lr_rules::{CallKind, Ended, Listed, Memory, Path, Phase, Text, copy_path, copy_texts};
use std::alloc::Global;

/// A program that is to be run.
#[derive(Drop)]
pub struct Command {
    pub program: Path,
    /// The words behind the program's path.
    pub args: Listed<Text>,
    /// The file that the program reads as its input, if any.
    pub input: Option<Path>,
}

impl Command {
    /// An equal program.
    pub fn copy(&self, alloc: Global) -> Result<Command, Memory>
        ensures { IfOk result (λ command. command ≡ self.now) }
    {
        let program = self.program.copy(alloc)?;
        let args = copy_texts(alloc, self.args.as_slice())?;
        let input = copy_path(alloc, self.input.as_ref())?;
        Ok(Command {
            program,
            args,
            input,
        })
    }
}

/// Why a program, or the removal of a file, was refused.
#[derive(Clone, Copy, PartialEq, Eq)]
pub enum Bad {
    /// The program of this phase ended so, and not with 0.
    Script(Phase, Ended),
    /// This call failed, with or without its effect.
    Call(CallKind),
    /// There was no memory to run the program; it wasn't run.
    Memory,
}

/// Runs the program for this phase. It is Ok only where the program ended with 0.
pub fn run_phase<H: Host>(
    alloc: Global,
    host: &mut H,
    phase: Phase,
    command: &Command,
) -> Result<(), Bad>
    requires { Can (H.told host.old) (runs command.now ended.Killed) }
    ensures told { OnOk result (Left (Are (runs command.now (ended.Exit (pos 0)) ∷ [])) (H.told host.old) (H.told host.new)) }
    ensures refused { IfErr result (λ why. Left (RunRefused command.now why) (H.told host.old) (H.told host.new)) }
    ensures cause { IfErr result (λ why. RunCause phase why (H.counts host.old) (H.counts host.new)) }
    ensures counts { Onward (H.counts host.old) (H.counts host.new) }
{
    let input = command.input.as_ref();
    match host.run(alloc, &command.program, command.args.as_slice(), input) {
        Ok(end) => {
            if end == Ended::Exit(0) {
                Ok(())
            } else {
                Err(Bad::Script(phase, end))
            }
        }
        Err(RunFault::Failed) => Err(Bad::Call(CallKind::Run)),
        Err(RunFault::Memory) => Err(Bad::Memory),
    }
}
