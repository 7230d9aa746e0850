// The looks at a family's directory, and at its parent where it is missing.
ghost use Rattle.std.specs.Prelude.{◌≡◌, [], true, IfOk, IfErr, Ok, Err};
ghost use Rattle.lr_rules.specs.Path.{parent_of};
ghost use Rattle.lr_host.specs.declared.entry.Entry.TheVariants as entry;
ghost use Rattle.lr_host.specs.Told.{Left, Can, Onward, Rose};
ghost use Rattle.lr_host.specs.Looks.{Sees, is_dir};
ghost use Rattle.lr_family.specs.Stands.{IsFailedStand};
ghost use Rattle.lr_family.specs.Directory.{DirSeen, DirLookStopped, ParentStopped, dir_fault_of};

use crate::stand::StandStop;
use lr_host::{Host, Kind, shows_dir};
use lr_rules::{CallKind, Fault, Path};
use std::alloc::Global;

/// Why it isn't known whether the directory is there.
#[derive(Clone, Copy)]
pub enum DirStop {
    /// The look failed.
    Call,
    /// It saw another kind of thing.
    NotDir,
}

/// Looks for the directory: whether it is there. Links are followed.
pub fn look_for_dir<H: Host>(host: &mut H, dir: &Path) -> Result<bool, DirStop>
    ensures told { IfOk result (λ there. Left (DirSeen dir.now there) (H.told host.old) (H.told host.new)) }
    ensures stopped { IfErr result (λ stop. Left (DirLookStopped dir.now stop) (H.told host.old) (H.told host.new)) }
    ensures list { result ≡ Ok true → Can (H.told host.new) (entry.List dir.now []) }
    ensures cause { result ≡ Err DirStop.Call → Rose (H.counts host.old).faults (H.counts host.new).faults }
    ensures counts { Onward (H.counts host.old) (H.counts host.new) }
{
    let Ok(look) = host.look(dir, true) else {
        return Err(DirStop::Call);
    };
    let Some(seen) = look else {
        return Ok(false);
    };
    match seen.kind {
        Kind::Dir => Ok(true),
        Kind::File => Err(DirStop::NotDir),
        Kind::Other => Err(DirStop::NotDir),
    }
}

/// The fault of a directory that wasn't seen.
pub fn dir_fault(stop: DirStop, dir: Path) -> Fault
    ensures { result ≡ dir_fault_of stop dir }
{
    match stop {
        DirStop::Call => Fault::Call(CallKind::Look, dir),
        DirStop::NotDir => Fault::NoDir(dir),
    }
}

/// Looks for the parent of the directory: whether it is there.
pub fn parent_there<H: Host>(alloc: Global, host: &mut H, dir: &Path) -> Result<bool, StandStop>
    ensures told { IfOk result (λ there. Left (Sees (parent_of dir.now) (λ seen. is_dir seen ≡ there)) (H.told host.old)
        (H.told host.new)) }
    ensures stopped { IfErr result (λ stop. Left (ParentStopped dir.now stop) (H.told host.old) (H.told host.new)) }
    ensures cause { IfErr result (λ stop. IsFailedStand stop → Rose (H.counts host.old).faults (H.counts host.new).faults) }
    ensures counts { Onward (H.counts host.old) (H.counts host.new) }
{
    let Ok(parent) = dir.parent(alloc) else {
        return Err(StandStop::Memory);
    };
    match host.look(&parent, true) {
        Ok(look) => Ok(shows_dir(look)),
        Err(_) => Err(StandStop::Call(CallKind::Look, parent)),
    }
}
