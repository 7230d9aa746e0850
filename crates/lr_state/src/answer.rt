// Reading the state of a run.
ghost use Rattle.std.specs.Prelude.{◌≡◌, ◌<◌, [], length, true, Ok, Err, IfOk};
ghost use Rattle.lr_rules.specs.declared.fault.CallKind.{CallKind};
ghost use Rattle.lr_rules.specs.declared.fault.Fault.{Fault};
ghost use Rattle.lr_rules.specs.declared.fault.Fault.TheVariants as fault;
ghost use Rattle.lr_rules.specs.declared.path.Path.{Path};
ghost use Rattle.lr_rules.specs.StatePath.{state_part};
ghost use Rattle.lr_host.specs.declared.entry.Entry.TheVariants as entry;
ghost use Rattle.lr_host.specs.Told.{Left, Can, Onward, Rose};
ghost use Rattle.lr_state.specs.Known.{IsStateFault, ReadsState, state_look_fault};
ghost use Rattle.lr_state.specs.Internal.{ReadsPartFile};

use crate::look::{LookStop, look_at, look_fault};
use crate::reading_text::read_text;
use crate::remembered::Remembered;
use lr_host::Host;
use lr_rules::{Fault, Memory, Path};
use std::alloc::Global;

// The answer where a path of the state has something wrong with it.
fn refused(alloc: Global, stop: LookStop, path: &Path) -> Result<Result<Remembered, Fault>, Memory>
    ensures { IfOk result (λ known. known ≡ Err (state_look_fault stop path.now)) }
{
    let path = path.copy(alloc)?;
    Ok(Err(look_fault(stop, path)))
}

// Looks at the part file, and reads the text.
fn read_behind<H: Host>(
    alloc: Global,
    host: &mut H,
    state: &Path,
    part: &Path,
    there: bool,
    buffer: &mut [u8],
) -> Result<Result<Remembered, Fault>, Memory>
    requires part { part.now ≡ state_part state.now }
    requires room { 0 < length buffer.old }
    requires file { there ≡ true → Can (H.told host.old) (entry.Reads state.now 0 []) }
    ensures told { Left (ReadsPartFile state.now (length buffer.old) there result) (H.told host.old) (H.told host.new) }
    ensures cause { (kind : CallKind) (path : Path) → result ≡ Ok (Err (fault.Call kind path))
        → Rose (H.counts host.old).faults (H.counts host.new).faults }
    ensures only { (f : Fault) → result ≡ Ok (Err f) → IsStateFault state.now f }
    ensures counts { Onward (H.counts host.old) (H.counts host.new) }
{
    match look_at(host, part) {
        Ok(stale) => read_text(alloc, host, state, there, stale, buffer),
        Err(stop) => refused(alloc, stop, part),
    }
}

/// What a run knows of earlier ones by its state file, or the fault that tells why nothing can be known: a look or a read
/// failed, the file or its part file `STATE.tmp` is something else than a regular file, or the text isn't a state text, its
/// first fault (logrotate(8) speaks of the file; the text is that of `State::read`). A file that isn't there has no entries.
///
/// Both paths are looked at without following links. The text is read in pieces of as many bytes as the buffer has at
/// most, to its end, or until more than 67,108,864 bytes are read, which is `TooBig`. Nothing is changed.
pub fn read_state<H: Host>(
    alloc: Global,
    host: &mut H,
    state: &Path,
    part: &Path,
    buffer: &mut [u8],
) -> Result<Result<Remembered, Fault>, Memory>
    requires part { part.now ≡ state_part state.now }
    requires room { 0 < length buffer.old }
    ensures told { Left (ReadsState state.now (length buffer.old) result) (H.told host.old) (H.told host.new) }

    // Also where the host tells nothing: failed calls, and the faults that there may be.
    ensures counted { (kind : CallKind) (path : Path) → result ≡ Ok (Err (fault.Call kind path))
        → Rose (H.counts host.old).faults (H.counts host.new).faults }
    ensures only { (f : Fault) → result ≡ Ok (Err f) → IsStateFault state.now f }
    ensures counts { Onward (H.counts host.old) (H.counts host.new) }
{
    match look_at(host, state) {
        Ok(there) => read_behind(alloc, host, state, part, there, buffer),
        Err(stop) => refused(alloc, stop, state),
    }
}
