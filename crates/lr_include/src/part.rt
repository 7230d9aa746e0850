// What a file tells of which there is room for so many bytes.
ghost use Rattle.std.specs.Prelude.{◌≡◌, ◌≤◌, ◌<◌, ◌+◌, ◌^◌, [], Option, Some, None, Ok, length, IfOk, OnErr};
ghost use Rattle.lr_host.specs.declared.entry.Entry.TheVariants as entry;
ghost use Rattle.lr_host.specs.declared.journal.Journal.{Journal};
ghost use Rattle.lr_host.specs.Told.{Left, Each, Can, Onward, Rose};
ghost use Rattle.lr_include.specs.Visits.{ShowsText, IsShortReadOf, PartText};
ghost use Rattle.lr_include.specs.Taken.{IsUnclosed, ReadBrings, TookFrom, ReadGoesOn};
ghost use Rattle.lr_include.specs.declared.part.TextEnd.TheVariants as end;

use crate::file_taking::Taking;
use lr_host::Host;
use lr_rules::{Memory, Path};

/// How the reading of a file ended.
#[derive(Clone, Copy, PartialEq, Eq)]
pub enum TextEnd {
    /// At the end of the file.
    Whole,
    /// Behind one byte more than there is room for.
    TooMany,
    /// At a read that failed.
    Failed,
}

// Takes in what a read gave; how the reading ended by it, None where it goes on.
fn take_in(taking: &mut Taking, piece: &[u8], room: usize) -> Result<Option<TextEnd>, Memory>
    requires ready { IsUnclosed taking.old }
    requires size { taking.old.size ≤ room }
    requires within { taking.old.size + length piece.now < 2 ^ 32 }
    ensures { IfOk result (ReadBrings taking.old taking.new room piece.now) }
{
    if piece.is_empty() {
        taking.finish()?;
        return Ok(Some(TextEnd::Whole));
    }
    taking.take(piece, room)?;
    if taking.size > room {
        Ok(Some(TextEnd::TooMany))
    } else {
        Ok(None)
    }
}

// So many bytes may be read next.
fn next_count(room: usize, size: usize, limit: usize) -> usize
    requires size { size ≤ room }
    requires room { room + 1 < 2 ^ 32 }
    requires limit { 0 < limit }
    ensures some { 0 < result }
    ensures limit { result ≤ limit }
    ensures within { size + result ≤ room + 1 }
{
    let left = room + 1 - size;
    if left < limit { left } else { limit }
}

// Reads once more; how the reading ended by it, None where it goes on.
fn read_on<H: Host>(
    host: &mut H,
    path: &Path,
    taking: &mut Taking,
    buffer: &mut [u8],
    room: usize,
) -> Result<Option<TextEnd>, Memory>
    requires ready { IsUnclosed taking.old }
    requires size { taking.old.size ≤ room }
    requires room { room + 1 < 2 ^ 32 }
    requires buffer { 0 < length buffer.old }
    requires short { length buffer.old ≤ 65536 }
    requires file { Can (H.told host.old) (entry.Reads path.now 0 []) }
    ensures told { IfOk result (λ how. (before : Option Journal) → TookFrom path.now taking.old before (H.told host.old)
        → ReadGoesOn path.now room taking.new before (H.told host.new) how) }
    ensures more { result ≡ Ok None → IsUnclosed taking.new × (taking.new.size ≤ room) × (taking.old.size < taking.new.size) }
    ensures lacking { OnErr result ((before : Option Journal) → TookFrom path.now taking.old before (H.told host.old)
        → Left (PartText path.now room) before (H.told host.new)) }
    ensures only { Left (Each (IsShortReadOf path.now)) (H.told host.old) (H.told host.new) }
    ensures cause { result ≡ Ok (Some end.Failed) → Rose (H.counts host.old).faults (H.counts host.new).faults }
    ensures counts { Onward (H.counts host.old) (H.counts host.new) }
{
    let limit = next_count(room, taking.size, buffer.len());
    let piece = &mut buffer[..limit];
    let Ok(count) = host.read(path, true, taking.size as u64, piece) else {
        return Ok(Some(TextEnd::Failed));
    };
    take_in(taking, &piece[..count], room)
}

/// Reads on until the reading ends; how it ended. No read asks for more than the buffer has.
pub fn read_pieces<H: Host>(
    host: &mut H,
    path: &Path,
    taking: &mut Taking,
    buffer: &mut [u8],
    room: usize,
) -> Result<TextEnd, Memory>
    requires ready { IsUnclosed taking.old }
    requires size { taking.old.size ≤ room }
    requires room { room + 1 < 2 ^ 32 }
    requires buffer { 0 < length buffer.old }
    requires short { length buffer.old ≤ 65536 }
    requires file { Can (H.told host.old) (entry.Reads path.now 0 []) }
    requires begun { TookFrom path.now taking.old (H.told host.old) (H.told host.old) }
    ensures told { IfOk result (λ how. Left (ShowsText path.now room taking.new.told.items taking.new.size how) (H.told host.old)
        (H.told host.new)) }
    ensures lacking { OnErr result (Left (PartText path.now room) (H.told host.old) (H.told host.new)) }
    ensures cause { result ≡ Ok end.Failed → Rose (H.counts host.old).faults (H.counts host.new).faults }
    ensures counts { Onward (H.counts host.old) (H.counts host.new) }
{
    loop {
        if let Some(how) = read_on(host, path, taking, buffer, room)? {
            return Ok(how);
        }
    }
}
