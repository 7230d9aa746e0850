//! The paths that a word of a rule gives, on the disk as it stands, as glob(7) and logrotate(8) have it.
//!
//! The contract: what the looks and listings gave is one value that the entries show, and what is found is a function of
//! it: of a literal word what stands at its one path, of a wildcard the regular files that it matches, in order of bytes.
//! Begin with `expand`:
//!
//! ```text
//! expand(alloc, &mut host, &word, 16_384)?    // of `/v/*.log`: `/v/a.log`, `/v/b.log`
//! ```
#![tactic(auto)]

mod found;
mod laws;
mod lead;
mod picking;
mod round;
mod sights;
mod visit;
mod word;

pub use found::{Found, GlobStop};
pub use laws::{directories_are_listed_once, found_are_sought, words_only_look};
pub use lead::parts_of;
pub use word::expand;
