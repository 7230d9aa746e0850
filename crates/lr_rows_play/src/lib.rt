//! The stage of worked rows: a row is played in each of its ways, and judged. What a row says is that of `lr_rows_read`, its disk
//! and what is wanted of that are of `lr_rows_scene`, and what its calls are, its program says, as a `Caller`.
//!
//! Begin with `judge`, which plays a row in its mode:
//!
//! ```text
//! for row in rows_of(alloc, &text)? { /* judge(alloc, &caller, &row)? */ }
//! ```
#![tactic(auto)]

mod chance;
mod modes;
mod play;
mod verdict;

pub use lr_rows_read::{Call, Row, rows_of};
pub use lr_rows_scene::{Differences, changes_text, entries_text};
pub use play::{Caller, Made};
pub use verdict::{Judgement, Verdict, judge};
