// The bytes of a file, copied behind those of another.
ghost use Rattle.std.specs.Prelude.{◌≡◌, ◌≢◌, ◌<◌, ◌≤◌, Err, [], length, IfOk, IfErr, option_to_list};
ghost use Rattle.lr_host.specs.declared.entry.Entry.TheVariants as entry;
ghost use Rattle.lr_host.specs.Told.{Left, Can, Onward};
ghost use Rattle.lr_plan.specs.Outcomes.{bytes_fault};
ghost use Rattle.lr_plan.specs.declared.step.Step.TheVariants as step;
ghost use Rattle.lr_acts.specs.declared.stop.Stop.TheVariants as stop;
ghost use Rattle.lr_acts.specs.Making.{StepLeft, StopCause};

use crate::stop::Stop;
use lr_copy::{BytesStop, copy_bytes};
use lr_host::Host;
use lr_plan::Mark;
use lr_rules::{CallKind, Fault, Path};

// The fault of a copy that broke off.
fn bytes_fault(from: Path, to: Path, why: BytesStop) -> Fault
    ensures { result ≡ bytes_fault from to why }
{
    match why {
        BytesStop::Read => Fault::Call(CallKind::Read, from),
        BytesStop::Append => Fault::Call(CallKind::Append, to),
        BytesStop::TooLong => Fault::TooLong(from),
    }
}

/// Copies all bytes of a file behind those of another, through the buffer, of 65,536 bytes at most.
pub fn copy_file<H: Host>(
    host: &mut H,
    from: Path,
    to: Path,
    limit: u64,
    buffer: &mut [u8],
) -> Result<Option<Mark>, Stop>
    requires room { 0 < length buffer.old }
    requires short { length buffer.old ≤ 65536 }
    requires read { Can (H.told host.old) (entry.Reads from 0 []) }
    requires append { Can (H.told host.old) (entry.Appends to []) }
    ensures told { Left (StepLeft (step.Copies from to limit) result) (H.told host.old) (H.told host.new) }
    ensures marks { IfOk result (λ told. option_to_list told ≡ []) }
    ensures cause { IfErr result (λ why. StopCause why (H.counts host.old) (H.counts host.new) (H.told host.old)
        (H.told host.new)) }
    ensures memory { result ≢ Err stop.Memory }
    ensures counts { Onward (H.counts host.old) (H.counts host.new) }
{
    match copy_bytes(host, &from, &to, limit, buffer) {
        Ok(_count) => Ok(None),
        Err(why) => Err(Stop::Fault(bytes_fault(from, to, why))),
    }
}
