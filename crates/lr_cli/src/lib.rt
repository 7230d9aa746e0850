//! The top call: from the words of the command line to the exit status.
//!
//! The contract above it: a file that was a log is under one name of its set, with all its bytes that the disk kept, until its
//! count of later rotations were begun or a look saw it older than its rule's `maxage`, whatever call failed and wherever the
//! run stopped, if the set was safe before, is steady and isn't ahead of the clock (`safe`); and the report is what the bytes
//! of the configuration mean and the entries of the run show (`told`). Begin with `logrotate`:
//!
//! ```text
//! let outcome = logrotate(alloc, &words, &here, &Zone::Utc, now, &mut host, &mut out);
//! let code = status(&outcome);   // 0 where the report has no fault
//! ```
#![tactic(auto)]

mod report;
mod run;
mod told;
mod top;

pub use lr_clock::{ClockStop, clock_in, zone_text};
pub use lr_due::{Zone, zone_of};
pub use lr_report::{Outcome, Report, printed, put_outcome, put_report, status};
pub use run::{run_at, run_confs};
pub use told::Told;
pub use top::logrotate;
