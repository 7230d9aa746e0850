// A journal: how a disk was found, and what was done since.
use crate::Entry;
use lr_rules::{Listed, Path};

/// A file of an opening. The synced length is in bytes, the modification moment in seconds since 1970.
#[derive(Drop)]
pub struct OpenFile {
    pub bytes: Listed<u8>,
    pub synced: u64,
    pub mtime: i64,
    pub mode: Option<u32>,
}

/// A disk as it is found. The file at place k of the list has the identity k.
#[derive(Drop)]
pub struct Opening {
    pub files: Listed<OpenFile>,
    pub dirs: Listed<Path>,
    pub others: Listed<Path>,
    /// Paths, and the identities of the files that they name.
    pub names: Listed<(Path, u64)>,
    /// Writers, and the identities of the files that they hold.
    pub holds: Listed<(u32, u64)>,
}

/// An opening and the entries since, the oldest first.
#[derive(Drop)]
pub struct Journal {
    pub opening: Opening,
    pub entries: Listed<Entry>,
}
