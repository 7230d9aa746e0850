//! Makes the plan of a run: what is done with each log that is due.
//!
//! The contract: the plan that is made of rules and looks is the one that its definition says (`plan_of` in
//! `lr_plan/specs/Planned.antt`). It holds a copy of all that it and its faults name. It makes no call.
//!
//! ```text
//! let plan = plan(alloc, &rules, &looks, &state, &clock, &settings)?;
//! ```
#![tactic(auto)]

mod aside;
mod commands;
mod copying;
mod directory;
mod log_plan;
mod planning;

pub use aside::is_file;
pub use planning::plan;
