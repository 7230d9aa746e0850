//! The plan of a run as it is printed: what was decided of each log, and the steps that the run makes.
//!
//! The contract above it: the text of a plan is put whole, or, where the output fails, a first part of it. Begin with
//! `print`:
//!
//! ```text
//! print(&plan, &settings.state, settings.debug, &mut out)?;   // /v/a.log: due, forced
//! ```
#![tactic(auto)]

mod decisions;
mod logs;
mod pieces;
mod plan;
mod programs;
mod rotation;
mod words;

pub use plan::print;
