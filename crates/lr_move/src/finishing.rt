// A log that was set aside: its copy, and how it is let go.
ghost use Rattle.std.specs.Prelude.{◌≡◌, ◌<◌, ◌≤◌, false, length, IfOk, IfErr};
ghost use Rattle.lr_host.specs.declared.entry.Entry.TheVariants as entry;
ghost use Rattle.lr_host.specs.Told.{Left, Did, Can, Onward};
ghost use Rattle.lr_copy.specs.Fits.{ArePaths, CanCopy};
ghost use Rattle.lr_copy.specs.Stops.{CopyCause, ShowsTaken};
ghost use Rattle.lr_move.specs.Finishing.{Finished, FinishStopped, IsLastStop};
ghost use Rattle.lr_move.specs.Moved.{LetsGo};
ghost use Rattle.lr_move.specs.Waiting.{KeepsWaiting};

use lr_copy::{CopyStop, Job, copy_out};
use lr_host::Host;
use lr_rules::CallKind;

// Takes away the path where the log waited.
fn let_go<'a, H: Host>(host: &mut H, job: &'a Job) -> Result<(), CopyStop<'a>>
    requires { Can (H.told host.old) (entry.Unlinks job.now.from) }
    ensures told { Left (Did result (entry.Unlinks job.now.from)) (H.told host.old) (H.told host.new) }
    ensures refused { IfErr result (λ why. IsLastStop job.now why) }
    ensures taken { IfErr result (λ why. ShowsTaken why (H.told host.new)) }
    ensures cause { IfErr result (λ why. CopyCause why (H.counts host.old) (H.counts host.new)) }
    ensures counts { Onward (H.counts host.old) (H.counts host.new) }
{
    match host.unlink(&job.from) {
        Ok(()) => Ok(()),
        Err(_) => Err(CopyStop::Call(CallKind::Unlink, &job.from)),
    }
}

/// Copies a log that was set aside, as [`lr_copy::copy_out`] does, from `from`, where it waits, to its final path, and then
/// unlinks it there. The answer is how many bytes were copied; what a writer feeds the log behind the copy's last read goes
/// with it. The buffer has 65,536 bytes at most. What fails leaves the rest undone: a call with or without its effect (`Call`);
/// a part file's path that is named (`Taken`); more bytes than the limit (`TooLong`). After each refusal the log waits there
/// still, but where its unlink failed with its effect, and has all its bytes. It takes no memory.
pub fn finish<'a, H: Host>(
    host: &mut H,
    job: &'a Job,
    buffer: &mut [u8],
) -> Result<u64, CopyStop<'a>>
    requires room { 0 < length buffer.old }
    requires short { length buffer.old ≤ 65536 }
    requires paths { ArePaths job.now }
    requires uncut { job.now.cut ≡ false }
    requires fits { CanCopy (H.told host.old) job.now }
    ensures told { IfOk result (λ count. Left (Finished job.now count) (H.told host.old) (H.told host.new)) }
    ensures refused { IfErr result (λ why. Left (FinishStopped job.now why) (H.told host.old) (H.told host.new)) }
    ensures lets_go { LetsGo job.now (H.told host.old) (H.told host.new) }
    ensures waits { IfErr result (λ why. KeepsWaiting job.now why (H.told host.old) (H.told host.new)) }
    ensures taken { IfErr result (λ why. ShowsTaken why (H.told host.new)) }
    ensures cause { IfErr result (λ why. CopyCause why (H.counts host.old) (H.counts host.new)) }
    ensures counts { Onward (H.counts host.old) (H.counts host.new) }
{
    match copy_out(host, job, buffer) {
        Ok(copied) => match let_go(host, job) {
            Ok(()) => Ok(copied),
            Err(why) => Err(why),
        },
        Err(why) => Err(why),
    }
}
