// Reading the state text piece by piece.
ghost use Rattle.std.specs.Prelude.{◌≡◌, ◌≤◌, ◌<◌, ◌+◌, [], length, Err, IfOk, OnOk, IfErr};
ghost use Rattle.lr_host.specs.declared.entry.Entry.TheVariants as entry;
ghost use Rattle.lr_host.specs.Told.{Left, Can, Onward, Rose};
ghost use Rattle.lr_state.specs.Given.{HasTaken};
ghost use Rattle.lr_state.specs.Internal.{FollowsPiece, ReadsOn, ReadsSo, HandsOnWhole, Stops, StopsAtPiece};

use crate::reader::Reader;
use lr_host::Host;
use lr_rules::Path;

// A text of more bytes isn't read on.
const LIMIT: u64 = 67_108_864;

/// Why a text isn't read to its end: a call failed, or there is no memory.
#[derive(Clone, Copy)]
pub enum ReadStop {
    Call,
    Memory,
}

// The place behind a piece; None where nothing is read behind it.
fn place_behind(at: u64, piece: &[u8]) -> Option<u64>
    requires { at ≤ 67_108_864 }
    ensures { FollowsPiece at result piece.now }
{
    let next = at + piece.len() as u64;
    if piece.is_empty() || next > LIMIT {
        None
    } else {
        Some(next)
    }
}

// Reads once more, and hands the piece on; the answer is where to read on, None where that was the last.
fn read_on<H: Host>(
    host: &mut H,
    path: &Path,
    at: u64,
    reader: &mut Reader,
    buffer: &mut [u8],
) -> Result<Option<u64>, ReadStop>
    requires place { at ≤ 67_108_864 }
    requires room { 0 < length buffer.old }
    requires file { Can (H.told host.old) (entry.Reads path.now 0 []) }
    ensures told { IfOk result (λ next. ReadsOn path.now at (length buffer.old) next reader.old reader.new (H.told host.old)
        (H.told host.new)) }
    ensures stopped { IfErr result (λ why. Left (StopsAtPiece path.now at (length buffer.old) why) (H.told host.old)
        (H.told host.new)) }
    ensures cause { result ≡ Err ReadStop.Call → Rose (H.counts host.old).faults (H.counts host.new).faults }
    ensures counts { Onward (H.counts host.old) (H.counts host.new) }
{
    let Ok(count) = host.read(path, false, at, buffer) else {
        return Err(ReadStop::Call);
    };
    let piece = &buffer[..count];
    let Ok(()) = reader.give(piece) else {
        return Err(ReadStop::Memory);
    };
    Ok(place_behind(at, piece))
}

/// Reads a text from its first byte on and hands it to the reader, to the end of the file or until more than 67,108,864
/// bytes are read.
pub fn read_pieces<H: Host>(
    host: &mut H,
    path: &Path,
    reader: &mut Reader,
    buffer: &mut [u8],
) -> Result<(), ReadStop>
    requires fresh { HasTaken reader.old [] }
    requires room { 0 < length buffer.old }
    requires file { Can (H.told host.old) (entry.Reads path.now 0 []) }
    ensures told { OnOk result (HandsOnWhole path.now (length buffer.old) reader.new (H.told host.old) (H.told host.new)) }
    ensures stopped { IfErr result (λ why. Left (ReadsSo path.now (length buffer.old) (Stops why)) (H.told host.old)
        (H.told host.new)) }
    ensures cause { result ≡ Err ReadStop.Call → Rose (H.counts host.old).faults (H.counts host.new).faults }
    ensures counts { Onward (H.counts host.old) (H.counts host.new) }
{
    let mut at = 0u64;
    while let Some(next) = read_on(host, path, at, reader, buffer)? {
        at = next;
    }
    Ok(())
}
