// The numbers of calls: a writer of its own acts before each call, so the journal tells which call left an entry.
use crate::deed::{act, attach, feed};
use crate::entries::{is_from_outside, put_entry};
use lr_host::Entry;
use lr_memhost::MemHost;
use lr_rows_line::Trouble;
use lr_rows_read::Called;
use lr_rules::Path;
use std::alloc::{AllocError, Global};

/// The file that the writer of ticks holds.
pub const TICK_PATH: &[u8] = b"/.ticks";

const TICKER: u32 = u32::MAX;

/// More calls than a run makes whose calls are named.
const TICKS: u64 = 256;

fn attach_ticker(alloc: Global, host: &mut MemHost, from: u64, path: &Path) -> Result<(), Trouble> {
    let what = attach(alloc, TICKER, path)?;
    act(host, from, what)
}

fn list_tick(alloc: Global, host: &mut MemHost, number: u64) -> Result<(), Trouble> {
    let what = feed(alloc, TICKER, b"")?;
    act(host, number, what)
}

/// Lets the writer act before each of the next calls.
pub fn list_ticks(alloc: Global, host: &mut MemHost) -> Result<(), Trouble> {
    let from = host.calls();
    let path = Path::new(alloc, TICK_PATH)?;
    attach_ticker(alloc, host, from, &path)?;
    for number in from..from.saturating_add(TICKS) {
        list_tick(alloc, host, number)?;
    }
    Ok(())
}

fn is_tick(entry: &Entry) -> bool {
    match entry {
        Entry::Feed { writer, .. } => *writer == TICKER,
        _ => false,
    }
}

fn is_called(alloc: Global, entry: &Entry, text: &[u8]) -> Result<bool, AllocError> {
    let mut line = Vec::new(alloc);
    put_entry(&mut line, alloc, entry)?;
    line.push(b' ')?;
    let mut wanted = Vec::from_slice(alloc, text)?;
    wanted.push(b' ')?;
    Ok(line.starts_with(&wanted))
}

/// The number of the call that is named, among those of the entries, of which the first is that of the call `from`.
pub fn number_of(
    alloc: Global,
    entries: &[Entry],
    from: u64,
    called: &Called,
) -> Result<u64, Trouble> {
    let mut ticks = 0u64;
    let mut found = 0u64;
    for entry in entries {
        if is_tick(entry) {
            ticks = ticks.saturating_add(1);
        } else if is_called(alloc, entry, &called.text)? {
            found = found.saturating_add(1);
            if found == called.number && ticks > 0 {
                return Ok(from.saturating_add(ticks.saturating_sub(1)));
            }
        }
    }
    Err(Trouble::Odd("no such call comes"))
}

/// The entry that the call with this number left, where the entries begin with the call 0.
pub fn entry_of(entries: &[Entry], number: u64) -> Option<&Entry> {
    let mut ticks = 0u64;
    for entry in entries {
        if is_tick(entry) {
            ticks = ticks.saturating_add(1);
        } else if ticks > 0 && ticks - 1 == number && !is_from_outside(entry) {
            return Some(entry);
        }
    }
    None
}
