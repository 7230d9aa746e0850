// The renames of one rotation, and the directory before them.
ghost use Rattle.std.specs.Prelude.{◌++◌, Some, None, OnOk, OnErr, IfErr};
ghost use Rattle.lr_host.specs.declared.entry.Entry.TheVariants as entry;
ghost use Rattle.lr_host.specs.Told.{Left, Are, Did, Can, Onward, Rose};
ghost use Rattle.lr_host.specs.Steps.{CanAll};
ghost use Rattle.lr_chain.specs.Directory.{DirMade};
ghost use Rattle.lr_chain.specs.Ready.{move_step, shift_of, turn_of, dir_calls, BehindDir};
ghost use Rattle.lr_chain.specs.Stops.{DirRefused, DirRefusedCause, ChainStopped, ChainCause};

use crate::directory::{DirStop, make_directory};
use crate::ready::{Move, Ready};
use lr_host::{CallFault, Host};
use lr_rules::{CallKind, Path};

/// Why a rotation broke off, its removals aside.
#[derive(Clone, Copy)]
pub enum ChainStop<'a> {
    /// The call failed. The path is the directory's, or of a rename the one that it would take the name from.
    Call(CallKind, &'a Path),
    /// Another kind of thing has the path of the directory.
    NotFile(&'a Path),
}

// Makes the directory of a rotation.
fn make_own_directory<'a, H: Host>(
    host: &mut H,
    dir: &'a Path,
    mode: Option<u32>,
) -> Result<(), ChainStop<'a>>
    requires { Can (H.told host.old) (entry.MakesDir dir.now mode) }
    ensures told { OnOk result (Left (DirMade dir.now mode) (H.told host.old) (H.told host.new)) }
    ensures refused { IfErr result (λ stop. Left (DirRefused (Some (dir.now, mode)) stop) (H.told host.old) (H.told host.new)) }
    ensures cause { IfErr result (λ stop. DirRefusedCause (Some (dir.now, mode)) stop (H.counts host.old) (H.counts host.new)) }
    ensures counts { Onward (H.counts host.old) (H.counts host.new) }
{
    match make_directory(host, dir, mode) {
        Ok(()) => Ok(()),
        Err(DirStop::Make) => Err(ChainStop::Call(CallKind::MakeDir, dir)),
        Err(DirStop::Look) => Err(ChainStop::Call(CallKind::Look, dir)),
        Err(DirStop::NotDir) => Err(ChainStop::NotFile(dir)),
    }
}

fn move_one<H: Host>(host: &mut H, step: &Move) -> Result<(), CallFault>
    requires { Can (H.told host.old) (move_step step.now) }
    ensures told { Left (Did result (move_step step.now)) (H.told host.old) (H.told host.new) }
    ensures cause { OnErr result (Rose (H.counts host.old).faults (H.counts host.new).faults) }
    ensures counts { Onward (H.counts host.old) (H.counts host.new) }
{
    host.rename(&step.from, &step.to)
}

// Makes the moves of the members alone.
fn move_members<'a, H: Host>(host: &mut H, ready: &'a Ready) -> Result<(), ChainStop<'a>>
    requires { CanAll (H.told host.old) (shift_of ready.now) }
    ensures told { OnOk result (Left (Are (shift_of ready.now)) (H.told host.old) (H.told host.new)) }
    ensures refused { IfErr result (λ stop. Left (ChainStopped None (shift_of ready.now) stop) (H.told host.old)
        (H.told host.new)) }
    ensures cause { IfErr result (λ stop. ChainCause None (shift_of ready.now) stop (H.counts host.old) (H.counts host.new)) }
    ensures counts { Onward (H.counts host.old) (H.counts host.new) }
{
    let moves = ready.moves.as_slice();
    for at in 0..moves.len() {
        let step = &moves[at];
        let Ok(()) = move_one(host, step) else {
            return Err(ChainStop::Call(CallKind::Rename, &step.from));
        };
    }
    Ok(())
}

/// Makes the directory, where one is to be made, and then the moves of the members, in order: of what `prepare` gave, each
/// goes one place on, the highest place first. Where something has the path of the directory, it goes on behind a look that
/// sees a directory there, and else answers `NotFile`. It takes no memory.
pub fn shift<'a, H: Host>(host: &mut H, ready: &'a Ready) -> Result<(), ChainStop<'a>>
    requires fits { CanAll (H.told host.old) (dir_calls ready.now.dir ++ shift_of ready.now) }
    ensures told { OnOk result (Left (BehindDir ready.now.dir (Are (shift_of ready.now))) (H.told host.old) (H.told host.new)) }
    ensures refused { IfErr result (λ stop. Left (ChainStopped ready.now.dir (shift_of ready.now) stop) (H.told host.old)
        (H.told host.new)) }
    ensures cause { IfErr result (λ stop. ChainCause ready.now.dir (shift_of ready.now) stop (H.counts host.old)
        (H.counts host.new)) }
    ensures counts { Onward (H.counts host.old) (H.counts host.new) }
{
    match &ready.dir {
        Some((dir, mode)) => match make_own_directory(host, dir, *mode) {
            Ok(()) => move_members(host, ready),
            Err(stop) => Err(stop),
        },
        None => move_members(host, ready),
    }
}

/// Makes the directory, where one is to be made, moves the members, and then the log to its target. It takes no memory.
pub fn turn<'a, H: Host>(host: &mut H, ready: &'a Ready) -> Result<(), ChainStop<'a>>
    requires fits { CanAll (H.told host.old) (dir_calls ready.now.dir ++ turn_of ready.now) }
    ensures told { OnOk result (Left (BehindDir ready.now.dir (Are (turn_of ready.now))) (H.told host.old) (H.told host.new)) }
    ensures refused { IfErr result (λ stop. Left (ChainStopped ready.now.dir (turn_of ready.now) stop) (H.told host.old)
        (H.told host.new)) }
    ensures cause { IfErr result (λ stop. ChainCause ready.now.dir (turn_of ready.now) stop (H.counts host.old)
        (H.counts host.new)) }
    ensures counts { Onward (H.counts host.old) (H.counts host.new) }
{
    if let Err(stop) = shift(host, ready) {
        return Err(stop);
    }
    match host.rename(&ready.log, &ready.target) {
        Ok(()) => Ok(()),
        Err(_) => Err(ChainStop::Call(CallKind::Rename, &ready.log)),
    }
}
