// The part file, from its making up to its sync.
ghost use Rattle.std.specs.Prelude.{◌<◌, ◌≤◌, length, OnOk, IfOk, IfErr};
ghost use Rattle.lr_host.specs.Told.{Left, Are, Onward};
ghost use Rattle.lr_copy.specs.Copying.{clearing, opening, Copies, Fills};
ghost use Rattle.lr_copy.specs.Fits.{ArePaths, CanCopy, CanOpen, CanName};
ghost use Rattle.lr_copy.specs.Stops.{OpenStopped, FillStopped, CopyCause, ShowsTaken};

use crate::bytes::copy_bytes;
use crate::job::{BytesStop, CopyStop, Job};
use lr_host::Host;
use lr_rules::CallKind;

// Unlinks an old part file, where one was seen.
fn clear_part<'a, H: Host>(host: &mut H, job: &'a Job) -> Result<(), CopyStop<'a>>
    requires paths { ArePaths job.now }
    requires fits { CanCopy (H.told host.old) job.now }
    ensures told { OnOk result (Left (Are (clearing job.now)) (H.told host.old) (H.told host.new)) }
    ensures next { OnOk result (CanOpen (H.told host.new) job.now) }
    ensures refused { IfErr result (λ stop. Left (OpenStopped job.now stop) (H.told host.old) (H.told host.new)) }
    ensures taken { IfErr result (λ stop. ShowsTaken stop (H.told host.new)) }
    ensures cause { IfErr result (λ stop. CopyCause stop (H.counts host.old) (H.counts host.new)) }
    ensures counts { Onward (H.counts host.old) (H.counts host.new) }
{
    if !job.stale {
        return Ok(());
    }
    match host.unlink(&job.part) {
        Ok(()) => Ok(()),
        Err(_) => Err(CopyStop::Call(CallKind::Unlink, &job.part)),
    }
}

/// Makes the part file anew; an old one is unlinked before, where one was seen.
pub fn open_part<'a, H: Host>(host: &mut H, job: &'a Job) -> Result<(), CopyStop<'a>>
    requires paths { ArePaths job.now }
    requires fits { CanCopy (H.told host.old) job.now }
    ensures told { OnOk result (Left (Are (opening job.now)) (H.told host.old) (H.told host.new)) }
    ensures next { OnOk result (CanName (H.told host.new) job.now) }
    ensures refused { IfErr result (λ stop. Left (OpenStopped job.now stop) (H.told host.old) (H.told host.new)) }
    ensures taken { IfErr result (λ stop. ShowsTaken stop (H.told host.new)) }
    ensures cause { IfErr result (λ stop. CopyCause stop (H.counts host.old) (H.counts host.new)) }
    ensures counts { Onward (H.counts host.old) (H.counts host.new) }
{
    if let Err(stop) = clear_part(host, job) {
        return Err(stop);
    }
    match host.make_new(&job.part, job.mode) {
        Ok(true) => Ok(()),
        Ok(false) => Err(CopyStop::Taken(&job.part)),
        Err(_) => Err(CopyStop::Call(CallKind::Make, &job.part)),
    }
}

// Copies the bytes of the log into the part file; the answer is how many bytes they are.
fn fill_bytes<'a, H: Host>(
    host: &mut H,
    job: &'a Job,
    buffer: &mut [u8],
) -> Result<u64, CopyStop<'a>>
    requires room { 0 < length buffer.old }
    requires short { length buffer.old ≤ 65536 }
    requires fits { CanName (H.told host.old) job.now }
    ensures told { IfOk result (λ count. Left (Copies job.now count) (H.told host.old) (H.told host.new)) }
    ensures next { OnOk result (CanName (H.told host.new) job.now) }
    ensures refused { IfErr result (λ stop. Left (FillStopped job.now stop) (H.told host.old) (H.told host.new)) }
    ensures taken { IfErr result (λ stop. ShowsTaken stop (H.told host.new)) }
    ensures cause { IfErr result (λ stop. CopyCause stop (H.counts host.old) (H.counts host.new)) }
    ensures counts { Onward (H.counts host.old) (H.counts host.new) }
{
    match copy_bytes(host, &job.from, &job.part, job.limit, buffer) {
        Ok(copied) => Ok(copied),
        Err(BytesStop::Read) => Err(CopyStop::Call(CallKind::Read, &job.from)),
        Err(BytesStop::Append) => Err(CopyStop::Call(CallKind::Append, &job.part)),
        Err(BytesStop::TooLong) => Err(CopyStop::TooLong(&job.from)),
    }
}

/// Copies the bytes of the log into the part file, and syncs it; the answer is how many bytes they are.
pub fn fill_part<'a, H: Host>(
    host: &mut H,
    job: &'a Job,
    buffer: &mut [u8],
) -> Result<u64, CopyStop<'a>>
    requires room { 0 < length buffer.old }
    requires short { length buffer.old ≤ 65536 }
    requires fits { CanName (H.told host.old) job.now }
    ensures told { IfOk result (λ count. Left (Fills job.now count) (H.told host.old) (H.told host.new)) }
    ensures next { OnOk result (CanName (H.told host.new) job.now) }
    ensures refused { IfErr result (λ stop. Left (FillStopped job.now stop) (H.told host.old) (H.told host.new)) }
    ensures taken { IfErr result (λ stop. ShowsTaken stop (H.told host.new)) }
    ensures cause { IfErr result (λ stop. CopyCause stop (H.counts host.old) (H.counts host.new)) }
    ensures counts { Onward (H.counts host.old) (H.counts host.new) }
{
    match fill_bytes(host, job, buffer) {
        Ok(copied) => match host.sync_file(&job.part) {
            Ok(()) => Ok(copied),
            Err(_) => Err(CopyStop::Call(CallKind::Sync, &job.part)),
        },
        Err(stop) => Err(stop),
    }
}
