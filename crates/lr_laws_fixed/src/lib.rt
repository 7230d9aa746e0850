//! What the entries of a call show. Where no call failed, they fix what was read of the configuration, what was found and what is
//! told: one outcome of a run's looks, the faults of one run, from the reading of its state to the writing, and of a call that
//! isn't a dry run one report, and no other.
//!
//! A law is the contract of a function without a body: `visits_are_fixed`, `looks_are_fixed`, `faults_are_fixed` and
//! `reports_are_fixed`.
#![tactic(auto)]

mod calls;
mod reading;

pub use calls::{faults_are_fixed, looks_are_fixed, reports_are_fixed};
pub use reading::visits_are_fixed;
