//! Which of the logs that a run found it keeps.
//!
//! The contract above it: a log is kept exactly where its path wasn't found before, is no member's of another log where a
//! wildcard gave it, none of its names is a path that is reserved, and it has no name in common with a log before it that
//! is kept. Begin with `choose`:
//!
//! ```text
//! let wild = [false, true];
//! let choices = choose(alloc, &[&first, &second], &wild, &reserved)?;   // /v/a.log and /v/a.log.1: Kept, MemberOf(0)
//! ```
#![tactic(auto)]

mod barred;
mod begun;
mod choice;
mod choosing;
mod front;
mod fronts;
mod laws;
mod members;
mod pair;
mod pairs;
mod range;
mod settling;

pub use choice::Choice;
pub use choosing::choose;
pub use laws::choice_is_fixed;
