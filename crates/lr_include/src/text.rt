// Reading a file from its first byte on.
ghost use Rattle.std.specs.Prelude.{◌≡◌, ◌≤◌, ◌<◌, ◌+◌, ◌++◌, [], ◌∷◌, drop, length, Err, IfOk, OnOk};
ghost use Rattle.lr_host.specs.declared.entry.Entry.TheVariants as entry;
ghost use Rattle.lr_host.specs.Told.{Left, Are, Can, Onward, Rose};
ghost use Rattle.lr_host.specs.Reading.{ReadsAll};
ghost use Rattle.lr_include.specs.Visits.{ReadsBroken, ReadsPartly, ReadsOnce};

use lr_host::Host;
use lr_rules::Path;
use std::alloc::Global;

/// Why a file can't be read: a call failed, or there is no memory.
#[derive(Clone, Copy)]
pub enum ReadStop {
    Call,
    Memory,
}

// Reads once more, and adds what was read; the answer is its length, 0 at the end of the file.
fn read_on<H: Host>(
    host: &mut H,
    path: &Path,
    bytes: &mut Vec<u8>,
    piece: &mut [u8],
) -> Result<usize, ReadStop>
    requires room { 0 < length piece.old }
    requires file { Can (H.told host.old) (entry.Reads path.now 0 []) }
    ensures told { IfOk result (λ count. Left (Are (entry.Reads path.now (length bytes.old.items)
        (drop (length bytes.old.items) bytes.new.items) ∷ [])) (H.told host.old) (H.told host.new)) }
    ensures failed { result ≡ Err ReadStop.Call → Left (Are []) (H.told host.old) (H.told host.new) }
    ensures lacking { result ≡ Err ReadStop.Memory → Left (ReadsOnce path.now (length bytes.old.items) (length piece.old))
        (H.told host.old) (H.told host.new) }
    ensures grown { IfOk result (λ count. bytes.new.items ≡ bytes.old.items ++ drop (length bytes.old.items) bytes.new.items) }
    ensures count { IfOk result (λ count. length bytes.new.items ≡ length bytes.old.items + count) }
    ensures within { IfOk result (λ count. count ≤ length piece.new) }
    ensures cause { result ≡ Err ReadStop.Call → Rose (H.counts host.old).faults (H.counts host.new).faults }
    ensures counts { Onward (H.counts host.old) (H.counts host.new) }
{
    let Ok(count) = host.read(path, true, bytes.len() as u64, piece) else {
        return Err(ReadStop::Call);
    };
    let Ok(()) = bytes.extend_from_slice(&piece[..count]) else {
        return Err(ReadStop::Memory);
    };
    Ok(count)
}

// How many bytes the next read asks for: as many as the piece has room for, and no more than are left of the limit.
fn ask_for(limit: usize, have: usize, size: usize) -> usize
    requires left { have < limit }
    requires room { 0 < size }
    ensures some { 0 < result }
    ensures within { have + result ≤ limit }
    ensures fits { result ≤ size }
{
    let left = limit - have;
    if left < size { left } else { size }
}

/// Reads from the first byte on, to the end of the file or to as many bytes as the limit.
pub(crate) fn read_up_to<H: Host>(
    host: &mut H,
    path: &Path,
    limit: usize,
    bytes: &mut Vec<u8>,
    piece: &mut [u8],
) -> Result<(), ReadStop>
    requires none { bytes.old.items ≡ [] }
    requires room { 0 < length piece.old }
    requires file { Can (H.told host.old) (entry.Reads path.now 0 []) }
    ensures told { OnOk result (Left (ReadsAll path.now limit bytes.new.items) (H.told host.old) (H.told host.new)) }
    ensures failed { result ≡ Err ReadStop.Call → Left (ReadsBroken path.now limit) (H.told host.old) (H.told host.new) }
    ensures lacking { result ≡ Err ReadStop.Memory → Left (ReadsPartly path.now limit) (H.told host.old) (H.told host.new) }
    ensures within { OnOk result (length bytes.new.items ≤ limit) }
    ensures cause { result ≡ Err ReadStop.Call → Rose (H.counts host.old).faults (H.counts host.new).faults }
    ensures counts { Onward (H.counts host.old) (H.counts host.new) }
{
    while bytes.len() < limit {
        let room = ask_for(limit, bytes.len(), piece.len());
        let count = match read_on(host, path, bytes, &mut piece[..room]) {
            Ok(count) => count,
            Err(why) => return Err(why),
        };
        if count == 0 {
            return Ok(());
        }
    }
    Ok(())
}

// How many bytes a read asks for at most: more would be zeroed first, for each file anew.
const PIECE: usize = 65_536;

/// The bytes of a file from its first on, all of them or as many as the limit.
pub fn read_text<H: Host>(
    alloc: Global,
    host: &mut H,
    path: &Path,
    limit: usize,
) -> Result<Vec<u8>, ReadStop>
    requires file { Can (H.told host.old) (entry.Reads path.now 0 []) }
    ensures told { IfOk result (λ bytes. Left (ReadsAll path.now limit bytes.items) (H.told host.old) (H.told host.new)) }
    ensures failed { result ≡ Err ReadStop.Call → Left (ReadsBroken path.now limit) (H.told host.old) (H.told host.new) }
    ensures lacking { result ≡ Err ReadStop.Memory → Left (ReadsPartly path.now limit) (H.told host.old) (H.told host.new) }
    ensures within { IfOk result (λ bytes. length bytes.items ≤ limit) }
    ensures cause { result ≡ Err ReadStop.Call → Rose (H.counts host.old).faults (H.counts host.new).faults }
    ensures counts { Onward (H.counts host.old) (H.counts host.new) }
{
    let mut bytes = Vec::new(alloc);
    let Ok(mut piece) = vec![in alloc; 0u8; PIECE] else {
        return Err(ReadStop::Memory);
    };
    read_up_to(host, path, limit, &mut bytes, &mut piece)?;
    Ok(bytes)
}
