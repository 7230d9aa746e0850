// A file in memory.
ghost use Rattle.std.specs.Prelude.{◌≡◌, ◌≤◌, ◌+◌, ◌-◌, min, length, take, drop, OnOk, vec_len, vec_capacity};
ghost use Rattle.lr_disk.specs.State.{as_file, fed_file, synced_file, emptied_file, cut_file};

use std::alloc::AllocError;

#[derive(Drop)]
pub struct MemFile {
    pub bytes: Vec<u8>,
    pub synced: u64,
    pub mtime: i64,
    pub mode: Option<u32>,
}

/// Makes room for so many bytes more. Nothing changes.
pub fn reserve_more(file: &mut MemFile, more: usize) -> Result<(), AllocError>
    ensures same { as_file file.new ≡ as_file file.old }
    ensures room { OnOk result (vec_len file.new.bytes + more ≤ vec_capacity file.new.bytes) }
{
    file.bytes.reserve(more)
}

pub fn flush_file(file: &mut MemFile)
    ensures { as_file file.new ≡ synced_file (as_file file.old) }
{
    file.synced = file.bytes.len() as u64;
}

pub fn feed_file(file: &mut MemFile, bytes: &[u8], at: i64)
    requires { vec_len file.old.bytes + length bytes.now ≤ vec_capacity file.old.bytes }
    ensures { as_file file.new ≡ fed_file bytes.now at (as_file file.old) }
{
    file.bytes.extend_from_slice(bytes).unwrap();
    file.mtime = at;
}

pub fn empty_file(file: &mut MemFile, at: i64)
    ensures { as_file file.new ≡ emptied_file at (as_file file.old) }
{
    file.bytes.clear();
    file.synced = 0;
    file.mtime = at;
}

/// Cuts the bytes to a length, where one is given; what is left is synced.
pub fn shorten_file(file: &mut MemFile, limit: Option<u64>)
    ensures { as_file file.new ≡ cut_file limit (as_file file.old) }
{
    if let Some(limit) = limit {
        file.bytes.truncate(limit as usize);
    }
    file.synced = file.bytes.len() as u64;
}

/// Bytes from a place on, as far as there is room.
pub fn read_bytes(bytes: &[u8], from: u64, into: &mut [u8]) -> usize
    ensures count { result ≡ min (length into.old) (length bytes.now - from) }
    ensures part { take result into.new ≡ take result (drop from bytes.now) }
{
    let from = from as usize;
    if from >= bytes.len() {
        return 0;
    }
    let rest = &bytes[from..];
    let count = rest.len().min(into.len());
    into[..count].copy_from_slice(&rest[..count]);
    count
}
