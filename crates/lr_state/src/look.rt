// One look at a file of the state.
ghost use Rattle.std.specs.Prelude.{◌≡◌, [], Ok, Err, true};
ghost use Rattle.lr_host.specs.declared.entry.Entry.TheVariants as entry;
ghost use Rattle.lr_host.specs.Told.{Left, Can, Onward, Rose};
ghost use Rattle.lr_state.specs.Known.{state_look_fault};
ghost use Rattle.lr_state.specs.Internal.{FindsState};

use lr_host::{Host, Kind};
use lr_rules::{CallKind, Fault, Path};

/// What is wrong at a path of the state.
#[derive(Clone, Copy)]
pub enum LookStop {
    /// The look failed.
    Call,
    /// Neither a regular file nor nothing stands there.
    NotFile,
}

/// Whether a regular file stands at the path, rather than nothing. Links aren't followed.
pub fn look_at<H: Host>(host: &mut H, path: &Path) -> Result<bool, LookStop>
    ensures told { Left (FindsState path.now result) (H.told host.old) (H.told host.new) }
    ensures there { result ≡ Ok true → Can (H.told host.new) (entry.Reads path.now 0 []) }
    ensures cause { result ≡ Err LookStop.Call → Rose (H.counts host.old).faults (H.counts host.new).faults }
    ensures counts { Onward (H.counts host.old) (H.counts host.new) }
{
    let Ok(look) = host.look(path, false) else {
        return Err(LookStop::Call);
    };
    let Some(seen) = look else {
        return Ok(false);
    };
    match seen.kind {
        Kind::File => Ok(true),
        Kind::Dir => Err(LookStop::NotFile),
        Kind::Other => Err(LookStop::NotFile),
    }
}

/// The fault that tells what is wrong at the path.
pub fn look_fault(stop: LookStop, path: Path) -> Fault
    ensures { result ≡ state_look_fault stop path }
{
    match stop {
        LookStop::Call => Fault::Call(CallKind::Look, path),
        LookStop::NotFile => Fault::NotFile(path),
    }
}
