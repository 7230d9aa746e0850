// Reading the state text, and what it says.
ghost use Rattle.std.specs.Prelude.{◌≡◌, ◌<◌, [], length, true, Ok, Err, IfOk};
ghost use Rattle.lr_rules.specs.declared.fault.CallKind.{CallKind};
ghost use Rattle.lr_rules.specs.declared.fault.CallKind.TheVariants as call;
ghost use Rattle.lr_rules.specs.declared.fault.Fault.{Fault};
ghost use Rattle.lr_rules.specs.declared.fault.Fault.TheVariants as fault;
ghost use Rattle.lr_rules.specs.declared.path.Path.{Path};
ghost use Rattle.lr_host.specs.declared.entry.Entry.TheVariants as entry;
ghost use Rattle.lr_host.specs.Told.{Left, Can, Onward, Rose};
ghost use Rattle.lr_state.specs.Known.{IsStateFault};
ghost use Rattle.lr_state.specs.Internal.{ReadsText, IsKnownByReader};

use crate::reader::Reader;
use crate::reading_pieces::{ReadStop, read_pieces};
use crate::remembered::Remembered;
use crate::state::State;
use crate::text::StateStop;
use lr_host::Host;
use lr_rules::{CallKind, Fault, Memory, Path};
use std::alloc::Global;

// What is known by what the reader says.
fn known(said: Result<State, StateStop>, stale: bool) -> Result<Result<Remembered, Fault>, Memory>
    ensures { IsKnownByReader stale said result }
{
    match said {
        Ok(table) => Ok(Ok(Remembered { table, stale })),
        Err(StateStop::Bad(line, kind)) => Ok(Err(Fault::State { line, kind })),
        Err(StateStop::Memory) => Err(Memory),
    }
}

// The answer where a read failed.
fn not_read(alloc: Global, state: &Path) -> Result<Result<Remembered, Fault>, Memory>
    ensures { IfOk result (λ known. known ≡ Err (fault.Call call.Read state.now)) }
{
    let path = state.copy(alloc)?;
    Ok(Err(Fault::Call(CallKind::Read, path)))
}

// Reads the text of the state's file.
fn read_file<H: Host>(
    alloc: Global,
    host: &mut H,
    state: &Path,
    stale: bool,
    buffer: &mut [u8],
) -> Result<Result<Remembered, Fault>, Memory>
    requires room { 0 < length buffer.old }
    requires file { Can (H.told host.old) (entry.Reads state.now 0 []) }
    ensures told { Left (ReadsText state.now (length buffer.old) true stale result) (H.told host.old) (H.told host.new) }
    ensures cause { (kind : CallKind) (path : Path) → result ≡ Ok (Err (fault.Call kind path))
        → Rose (H.counts host.old).faults (H.counts host.new).faults }
    ensures only { (f : Fault) → result ≡ Ok (Err f) → IsStateFault state.now f }
    ensures counts { Onward (H.counts host.old) (H.counts host.new) }
{
    let mut reader = Reader::new(alloc);
    match read_pieces(host, state, &mut reader, buffer) {
        Ok(()) => known(reader.finish(), stale),
        Err(ReadStop::Call) => not_read(alloc, state),
        Err(ReadStop::Memory) => Err(Memory),
    }
}

/// The table of the state's file, empty where there is none.
pub fn read_text<H: Host>(
    alloc: Global,
    host: &mut H,
    state: &Path,
    there: bool,
    stale: bool,
    buffer: &mut [u8],
) -> Result<Result<Remembered, Fault>, Memory>
    requires room { 0 < length buffer.old }
    requires file { there ≡ true → Can (H.told host.old) (entry.Reads state.now 0 []) }
    ensures told { Left (ReadsText state.now (length buffer.old) there stale result) (H.told host.old) (H.told host.new) }
    ensures cause { (kind : CallKind) (path : Path) → result ≡ Ok (Err (fault.Call kind path))
        → Rose (H.counts host.old).faults (H.counts host.new).faults }
    ensures only { (f : Fault) → result ≡ Ok (Err f) → IsStateFault state.now f }
    ensures counts { Onward (H.counts host.old) (H.counts host.new) }
{
    if there {
        read_file(alloc, host, state, stale, buffer)
    } else {
        let table = State::new(alloc);
        Ok(Ok(Remembered { table, stale }))
    }
}
