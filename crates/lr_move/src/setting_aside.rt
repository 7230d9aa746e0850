// A log that is set aside, behind the moves of its members.
ghost use Rattle.std.specs.Prelude.{◌++◌, OnOk, OnErr, IfErr};
ghost use Rattle.lr_rules.specs.declared.fault.CallKind.TheVariants as call;
ghost use Rattle.lr_host.specs.declared.entry.Entry.TheVariants as entry;
ghost use Rattle.lr_host.specs.Told.{Left, Are, Did, Can, Onward, Rose};
ghost use Rattle.lr_host.specs.Steps.{CanAll};
ghost use Rattle.lr_chain.specs.Ready.{dir_calls, BehindDir};
ghost use Rattle.lr_move.specs.Aside.{aside_of, FailedCallAt, AsideStopped, AsideCause, IsNotFileExactly};

use lr_chain::{ChainStop, Ready, shift};
use lr_host::Host;
use lr_rules::{CallKind, Path};

// Makes the moves of the members durable.
fn sync_members<'a, H: Host>(host: &mut H, dir: &'a Path) -> Result<(), ChainStop<'a>>
    requires { Can (H.told host.old) (entry.SyncsDir dir.now) }
    ensures told { Left (Did result (entry.SyncsDir dir.now)) (H.told host.old) (H.told host.new) }
    ensures refused { IfErr result (λ why. FailedCallAt call.Sync dir.now why) }
    ensures cause { OnErr result (Rose (H.counts host.old).faults (H.counts host.new).faults) }
    ensures counts { Onward (H.counts host.old) (H.counts host.new) }
{
    match host.sync_dir(dir) {
        Ok(()) => Ok(()),
        Err(_) => Err(ChainStop::Call(CallKind::Sync, dir)),
    }
}

// Renames the log to the path where it waits.
fn move_log<'a, H: Host>(host: &mut H, log: &'a Path, tmp: &Path) -> Result<(), ChainStop<'a>>
    requires { Can (H.told host.old) (entry.Renames log.now tmp.now) }
    ensures told { Left (Did result (entry.Renames log.now tmp.now)) (H.told host.old) (H.told host.new) }
    ensures refused { IfErr result (λ why. FailedCallAt call.Rename log.now why) }
    ensures cause { OnErr result (Rose (H.counts host.old).faults (H.counts host.new).faults) }
    ensures counts { Onward (H.counts host.old) (H.counts host.new) }
{
    match host.rename(log, tmp) {
        Ok(()) => Ok(()),
        Err(_) => Err(ChainStop::Call(CallKind::Rename, log)),
    }
}

/// Makes the directory, where one is to be made, moves the members, syncs `dir`, which is theirs, and then renames the log to
/// `tmp`, where it waits for its copy. What fails leaves the rest undone, so the log has its path still, but where its own
/// rename failed with its effect: a call (`Call`); a directory that was to be made, whose path another kind of thing has
/// (`NotFile`). It takes no memory.
pub fn set_aside<'a, H: Host>(
    host: &mut H,
    ready: &'a Ready,
    dir: &'a Path,
    tmp: &'a Path,
) -> Result<(), ChainStop<'a>>
    requires fits { CanAll (H.told host.old) (dir_calls ready.now.dir ++ aside_of ready.now dir.now tmp.now) }
    ensures told { OnOk result (Left (BehindDir ready.now.dir (Are (aside_of ready.now dir.now tmp.now))) (H.told host.old)
        (H.told host.new)) }
    ensures refused { IfErr result (λ why. Left (AsideStopped ready.now dir.now tmp.now why) (H.told host.old) (H.told host.new)) }
    ensures not_file { Left (IsNotFileExactly ready.now.dir result) (H.told host.old) (H.told host.new) }
    ensures cause { IfErr result (λ why. AsideCause ready.now dir.now tmp.now why (H.counts host.old) (H.counts host.new)) }
    ensures counts { Onward (H.counts host.old) (H.counts host.new) }
{
    if let Err(why) = shift(host, ready) {
        return Err(why);
    }
    if let Err(why) = sync_members(host, dir) {
        return Err(why);
    }
    move_log(host, &ready.log, tmp)
}
