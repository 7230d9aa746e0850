//! What a run makes of its plan: which runs reached it, by what they tell; where nothing fails, what a run that came to its plan
//! makes of the disk; and, whatever failed, what it leaves alone, that its looks are true, and how often it lists a directory.
//!
//! A law is the contract of a function without a body.
//!
//! - A run that didn't reach its plan has a fault that says why, and one that did has none of those: `plan_is_reached`, and
//!   `try_is_reached` for dry runs.
//! - Begin with `run_is_fulfilled`, whose words are in `specs/Fulfilled.antt`, `run_leaves_rest`, in `specs/Rest.antt`, and
//!   `run_looks_are_true`, in `specs/Truth.antt`.
//! - Where writers spare the files of a run and no call fails, nothing fails: `smooth_run_fails_nothing`, whose words are in
//!   `specs/Smooth.antt`.
#![tactic(auto)]

mod fulfilling;
mod reaching;
mod sparing;

pub use fulfilling::{
    halted_run_leaves_all, logs_are_given, run_is_fulfilled, run_leaves_rest, run_lists_once,
    run_looks_are_true, run_meets_no_fault,
};
pub use reaching::{plan_is_reached, try_is_reached};
pub use sparing::smooth_run_fails_nothing;
