//! The printed lines of a run: its notices, its faults, and why it ended.
//!
//! The contract above it: the lines of a report are put whole, or, where the output fails, a first part of them. Begin
//! with `put_lines`:
//!
//! ```text
//! put_lines(&notices, &faults, &mut out)?;   // logrotate: /v/a.log: no such log
//! ```
#![tactic(auto)]

mod kinds;
mod lines;
mod outcome;
mod put;
mod report;

pub use kinds::phase_name;
pub use lines::{put_fault, put_lines, put_notice, put_said};
pub use outcome::{Outcome, Report, status};
pub use put::{put_five, put_four, put_one, put_three, put_two};
pub use report::{printed, put_outcome, put_report, report_behind};
