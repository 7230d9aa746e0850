//! Which names a pattern matches, and which names a taboo list bars, as glob(7) and logrotate(8) have it.
//!
//! The contract: a pattern matches a name exactly where the relation `Matches` holds of their characters, and a name is
//! barred exactly where it ends with an extension of the list, or a pattern of it matches the name. Neither takes memory.
//! A call of [`matches`] reads no more characters than a few times the product of the lengths: behind a `*` it goes back to
//! the last one alone, and it doesn't search twice for a `]` that isn't there. [`matches_in`] counts them. Begin with
//! [`matches`]:
//!
//! ```text
//! assert!(matches("[!a-c]*.log", "dx.log"));
//! assert!(!matches("*", ".hidden"));
//! ```
#![tactic(auto)]

mod bars;
mod class;
mod first;
mod lists;
mod pattern;
mod sign;
mod taboo;
mod walk;

pub use pattern::{matches, matches_in};
pub use taboo::Taboo;
