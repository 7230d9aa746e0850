//! One log with all its history: its files, the oldest first, put out one behind another under the lock.
//!
//! The contract above it: the output takes the bytes of each member of the log that stood as the run began, of the file that
//! waits where its way sets the log aside, and of the log, in the order in which they were written, or a first part of them, and
//! then a fault says why; a file that waits is told of; and nothing is changed. Begin with `lrcat`:
//!
//! ```text
//! let outcome = lrcat(alloc, &words, &here, now, &mut host, &mut out, &mut notes);   // of `/etc/logrotate.conf /var/log/app.log`
//! let code = cat_status(&outcome);   // 0 where the report has no fault
//! ```
#![tactic(auto)]

mod calls;
mod gives;
mod locked;
mod notes;
mod outcome;
mod run;
mod seeing;
mod stop;
mod texts;
mod top;
mod words;

pub use outcome::{CatOutcome, cat_status};
pub use top::lrcat;
