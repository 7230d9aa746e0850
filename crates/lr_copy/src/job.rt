// What is copied where, and why it wasn't.
use lr_rules::{CallKind, Path};

/// A log that is copied: into a part file first, which then gets the final path.
#[derive(Drop)]
pub struct Job {
    pub from: Path,
    pub part: Path,
    pub to: Path,
    /// The directory of `to`, and of `part`.
    pub dir: Path,
    /// Whether an old part file was seen.
    pub stale: bool,
    /// The mode of the copy (permission bits), where one is known.
    pub mode: Option<u32>,
    /// Whether the log is emptied behind the copy.
    pub cut: bool,
    /// How many bytes are copied at most.
    pub limit: u64,
}

/// Why a copy broke off.
#[derive(Clone, Copy)]
pub enum CopyStop<'a> {
    /// The call failed; the path is the first of the call.
    Call(CallKind, &'a Path),
    /// The part file's path is named.
    Taken(&'a Path),
    /// More bytes were read than are copied.
    TooLong(&'a Path),
}

/// Why the bytes of a file weren't copied.
#[derive(Clone, Copy)]
pub enum BytesStop {
    /// A read failed.
    Read,
    /// An append failed.
    Append,
    /// More bytes were read than are copied.
    TooLong,
}
