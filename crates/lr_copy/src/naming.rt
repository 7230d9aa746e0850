// How the part file gets its final path.
ghost use Rattle.std.specs.Prelude.{OnOk, IfErr};
ghost use Rattle.lr_host.specs.Told.{Left, Are, Onward};
ghost use Rattle.lr_copy.specs.Copying.{naming, cutting, closing};
ghost use Rattle.lr_copy.specs.Fits.{ArePaths, CanName, CanCut};
ghost use Rattle.lr_copy.specs.Stops.{NameStopped, CutStopped, CloseStopped, CopyCause, ShowsTaken};

use crate::job::{CopyStop, Job};
use lr_host::Host;
use lr_rules::CallKind;

// Gives the part file its final path, durably.
fn name_copy<'a, H: Host>(host: &mut H, job: &'a Job) -> Result<(), CopyStop<'a>>
    requires paths { ArePaths job.now }
    requires fits { CanName (H.told host.old) job.now }
    ensures told { OnOk result (Left (Are (naming job.now)) (H.told host.old) (H.told host.new)) }
    ensures next { OnOk result (CanCut (H.told host.new) job.now) }
    ensures refused { IfErr result (λ stop. Left (NameStopped job.now stop) (H.told host.old) (H.told host.new)) }
    ensures taken { IfErr result (λ stop. ShowsTaken stop (H.told host.new)) }
    ensures cause { IfErr result (λ stop. CopyCause stop (H.counts host.old) (H.counts host.new)) }
    ensures counts { Onward (H.counts host.old) (H.counts host.new) }
{
    let Ok(()) = host.rename(&job.part, &job.to) else {
        return Err(CopyStop::Call(CallKind::Rename, &job.part));
    };
    match host.sync_dir(&job.dir) {
        Ok(()) => Ok(()),
        Err(_) => Err(CopyStop::Call(CallKind::Sync, &job.dir)),
    }
}

// Empties the log, where that is asked for.
fn cut_log<'a, H: Host>(host: &mut H, job: &'a Job) -> Result<(), CopyStop<'a>>
    requires { CanCut (H.told host.old) job.now }
    ensures told { OnOk result (Left (Are (cutting job.now)) (H.told host.old) (H.told host.new)) }
    ensures refused { IfErr result (λ stop. Left (CutStopped job.now stop) (H.told host.old) (H.told host.new)) }
    ensures taken { IfErr result (λ stop. ShowsTaken stop (H.told host.new)) }
    ensures cause { IfErr result (λ stop. CopyCause stop (H.counts host.old) (H.counts host.new)) }
    ensures counts { Onward (H.counts host.old) (H.counts host.new) }
{
    if !job.cut {
        return Ok(());
    }
    match host.truncate(&job.from) {
        Ok(()) => Ok(()),
        Err(_) => Err(CopyStop::Call(CallKind::Truncate, &job.from)),
    }
}

/// Gives the part file its final path, durably, and then empties the log, where that is asked for.
pub fn close_copy<'a, H: Host>(host: &mut H, job: &'a Job) -> Result<(), CopyStop<'a>>
    requires paths { ArePaths job.now }
    requires fits { CanName (H.told host.old) job.now }
    ensures told { OnOk result (Left (Are (closing job.now)) (H.told host.old) (H.told host.new)) }
    ensures refused { IfErr result (λ stop. Left (CloseStopped job.now stop) (H.told host.old) (H.told host.new)) }
    ensures taken { IfErr result (λ stop. ShowsTaken stop (H.told host.new)) }
    ensures cause { IfErr result (λ stop. CopyCause stop (H.counts host.old) (H.counts host.new)) }
    ensures counts { Onward (H.counts host.old) (H.counts host.new) }
{
    if let Err(stop) = name_copy(host, job) {
        return Err(stop);
    }
    cut_log(host, job)
}
