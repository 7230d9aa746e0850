//! The audit of files beside logs, by values: what the looks at the logs make of each file, which places of members are free, and
//! what the plan of a forced run removes, under the present names.
//!
//! The contract above it: each file is told as what the looks made of it, and what is told as going is just what the steps of
//! all logs of that plan unlink, old part files aside, in order, each traced back to the name that it has before them. Begin
//! with `audit_by`, and with `removals_are_foretold`, a law: the contract of a function without a body.
#![tactic(auto)]

mod gaps;
mod knowing;
mod known;
mod laws;
mod line;
mod lines;
mod removed;
mod whole;

pub use laws::{known_files_differ, removals_are_foretold};
pub use line::{Audit, Line, What, WhyGone};
pub use whole::audit_by;
