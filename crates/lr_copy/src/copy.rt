// The copy of a log.
ghost use Rattle.std.specs.Prelude.{◌<◌, ◌≤◌, length, IfOk, IfErr};
ghost use Rattle.lr_host.specs.Told.{Left, Onward};
ghost use Rattle.lr_copy.specs.Copying.{Copied};
ghost use Rattle.lr_copy.specs.Fits.{ArePaths, CanCopy};
ghost use Rattle.lr_copy.specs.Stops.{CopyStopped, CopyCause, ShowsTaken};

use crate::job::{CopyStop, Job};
use crate::naming::close_copy;
use crate::opening::{fill_part, open_part};
use lr_host::Host;

/// Copies the log: an old part file that was seen is unlinked, a new one of this mode is made and gets the bytes of the log,
/// through the buffer, of 65,536 bytes at most, up to a read that gives nothing; it is synced, gets the final path, and the
/// directory is synced; then
/// the log is emptied, where that is asked for. The answer is how many bytes were copied. It takes no memory. What fails
/// leaves the rest undone: a call with or without its effect (`Call`); a part file's path that is named (`Taken`); more bytes
/// than the limit (`TooLong`). So the log is whole after each refusal but that of its truncation.
pub fn copy_out<'a, H: Host>(
    host: &mut H,
    job: &'a Job,
    buffer: &mut [u8],
) -> Result<u64, CopyStop<'a>>
    requires room { 0 < length buffer.old }
    requires short { length buffer.old ≤ 65536 }
    requires paths { ArePaths job.now }
    requires fits { CanCopy (H.told host.old) job.now }
    ensures told { IfOk result (λ count. Left (Copied job.now count) (H.told host.old) (H.told host.new)) }
    ensures refused { IfErr result (λ stop. Left (CopyStopped job.now stop) (H.told host.old) (H.told host.new)) }
    ensures taken { IfErr result (λ stop. ShowsTaken stop (H.told host.new)) }
    ensures cause { IfErr result (λ stop. CopyCause stop (H.counts host.old) (H.counts host.new)) }
    ensures counts { Onward (H.counts host.old) (H.counts host.new) }
{
    if let Err(stop) = open_part(host, job) {
        return Err(stop);
    }
    match fill_part(host, job, buffer) {
        Ok(copied) => match close_copy(host, job) {
            Ok(()) => Ok(copied),
            Err(stop) => Err(stop),
        },
        Err(stop) => Err(stop),
    }
}
