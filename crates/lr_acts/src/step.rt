// One step of the acts, made on a host.
ghost use Rattle.std.specs.Prelude.{◌≡◌, ◌<◌, ◌≤◌, length, Err, IfOk, IfErr, option_to_list};
ghost use Rattle.lr_host.specs.Told.{Left, Onward};
ghost use Rattle.lr_host.specs.Steps.{CanAll};
ghost use Rattle.lr_plan.specs.Asking.{asks};
ghost use Rattle.lr_plan.specs.Cut.{IsProgram};
ghost use Rattle.lr_plan.specs.Outcomes.{marks_of};
ghost use Rattle.lr_acts.specs.declared.stop.Stop.TheVariants as stop;
ghost use Rattle.lr_acts.specs.Making.{StepLeft, StepNames, StopCause};

use crate::bytes::copy_file;
use crate::calls::{
    create_file, empty_file, make_directory, remove_file, rename_file, run_program, sync_directory,
    sync_file, take_file,
};
use crate::stop::Stop;
use crate::text::append_text;
use lr_host::Host;
use lr_plan::{Mark, Step};
use std::alloc::Global;

/// Makes one step, a copy through the buffer, of 65,536 bytes at most; the answer is what it tells the steps behind it, if
/// anything. Only a program takes memory.
pub fn make<H: Host>(
    alloc: Global,
    host: &mut H,
    step: Step,
    buffer: &mut [u8],
) -> Result<Option<Mark>, Stop>
    requires room { 0 < length buffer.old }
    requires short { length buffer.old ≤ 65536 }
    requires fits { CanAll (H.told host.old) (asks step) }
    ensures told { Left (StepLeft step result) (H.told host.old) (H.told host.new) }
    ensures marks { IfOk result (λ told. option_to_list told ≡ marks_of step) }
    ensures named { StepNames step result (H.told host.new) }
    ensures cause { IfErr result (λ why. StopCause why (H.counts host.old) (H.counts host.new) (H.told host.old)
        (H.told host.new)) }
    ensures memory { result ≡ Err stop.Memory → IsProgram step }
    ensures counts { Onward (H.counts host.old) (H.counts host.new) }
{
    match step {
        Step::Runs { phase, on, command } => run_program(alloc, host, phase, on, command),
        Step::Removes { path } => remove_file(host, path),
        Step::MakesDir { path, mode } => make_directory(host, path, mode),
        Step::Renames { from, to } => rename_file(host, from, to),
        Step::Creates { path, mode } => create_file(host, path, mode),
        Step::Takes { path, mode } => take_file(host, path, mode),
        Step::SyncsFile { path } => sync_file(host, path),
        Step::SyncsDir { path } => sync_directory(host, path),
        Step::Truncates { path } => empty_file(host, path),
        Step::Rotated { log } => Ok(Some(Mark::Rotated(log))),
        Step::Appends { path, text } => append_text(host, path, text),
        Step::Copies { from, to, limit } => copy_file(host, from, to, limit, buffer),
    }
}
