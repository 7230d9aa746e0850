//! The words of a line of a data file: bytes without spaces or quoted parts, and what a word is to be.
//!
//! Begin with `words_of`, and read its words as a `Line`; `docs/ROWS.md` says how words are written.
#![tactic(auto)]

mod digits;
mod line;
mod quoted;
mod trouble;
mod word;

pub use digits::{number, octal, seconds, small};
pub use line::Line;
pub use quoted::put_quoted;
pub use trouble::Trouble;
pub use word::words_of;
