// A log that was found.
use lr_family::Family;
use lr_host::Seen;

/// A log that a word gives, at whose path something stands.
#[derive(Drop)]
pub struct Found {
    /// The place of its rule among the rules.
    pub set: usize,
    pub family: Family,
    /// What stands at its path: of a literal word anything, of a wildcard a regular file.
    pub seen: Seen,
    /// Whether the word is a wildcard.
    pub wild: bool,
    /// Whether its path is passed over silently where a later word finds it again.
    pub ignore_duplicates: bool,
}
