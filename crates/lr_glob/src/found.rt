// What a word gives, and why it gives nothing.
use lr_host::Seen;
use lr_rules::{CallKind, Path};

/// A path that a word gives, and what was seen there.
#[derive(Drop)]
pub struct Found {
    pub path: Path,
    pub seen: Seen,
}

/// Why a word gives nothing.
#[derive(Drop)]
pub enum GlobStop {
    /// This call failed at this path.
    Call(CallKind, Path),
    /// A match has more than 2,048 bytes, or a last part of more than 255.
    LongName,
    /// There are more matches than there is room for.
    TooMany,
    Memory,
}
