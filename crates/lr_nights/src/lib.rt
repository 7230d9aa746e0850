//! A month of runs over logs that are drawn from their number, on a disk in memory: writers append and hold their logs, and the
//! machine stops amid runs and comes back. And what a journal tells of some logs.
//!
//! The contract above it: a month that was lived to its end has a run at each of its nights, writers appended just what is
//! drawn, and the six numbers are those of the host's journal. Begin with `nights`:
//!
//! ```text
//! let mut host = trial_host(alloc, 5)?;
//! let summary = nights(alloc, 5, &run, &mut host, &mut out)?;   // prints "nights 30" and five more lines
//! ```
//!
//! The numbers of a journal, by the words in which the promise is told: its runs, the rotations that they began, which files stand
//! at the end under the names of the logs and how long these are, and how many generations are gone. Call `tally`:
//!
//! ```text
//! let summary = tally(alloc, host.journal(), &logs, 30)?;
//! println!(rt; "runs {}", summary.runs)?;
//! ```
#![tactic(auto)]

mod draws;
mod files;
mod judging;
mod living;
mod logs;
mod marking;
mod marks;
mod month;
mod names;
mod opening;
mod rotations;
mod runs;
mod standing;
mod summary;
mod tallying;
mod texts;
mod trial;
mod turning;
mod walk;
mod walking;
mod words;

pub use draws::first_draw;
pub use living::Run;
pub use opening::trial_host;
pub use summary::Summary;
pub use tallying::tally;
pub use trial::{TrialStop, nights};
pub use words::trial_words;
