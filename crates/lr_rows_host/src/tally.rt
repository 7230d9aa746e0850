// What the host in memory counts.
use crate::answer::number;
use lr_memhost::MemHost;
use lr_rows_line::Trouble;
use std::alloc::Global;

/// What the host counts.
#[derive(Clone, Copy)]
pub enum Tally {
    /// The name changes that a cut may undo.
    Unsynced,
    /// How often there was no memory.
    Starved,
    /// The entries of the journal.
    Entries,
}

/// `unsynced`, `starved` and `entries`: a number.
pub fn count(host: &MemHost, alloc: Global, what: Tally) -> Result<Vec<u8>, Trouble> {
    number(
        alloc,
        match what {
            Tally::Unsynced => host.unsynced() as u64,
            Tally::Starved => host.starved(),
            Tally::Entries => host.journal().entries.len() as u64,
        },
    )
}
