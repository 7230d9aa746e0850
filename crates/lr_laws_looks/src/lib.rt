//! What the looks of a run show, and that they are true of the disk.
//!
//! A law is the contract of a function that does nothing, or, as `state_has_its_place`, calls another law.
//!
//! - What the entries of a call of `expand` show: they fix what its word came to, and it finds what stood as the call began. Begin
//!   with `all_that_stood_are_found`.
//! - What the looks of a run show of the logs that its plan rotates: begin with `looks_see_targets`.
//! - They hold all that stood as the run began, and nothing else but what came since: `looks_are_true`, whose words are in
//!   `specs/True.antt`.
//! - From the looks and the acts of a run to the writing of its state: behind the acts, what the writing asks for is so
//!   (`state_has_its_place`).
#![tactic(auto)]

mod found;
mod place;
mod targets;
mod truth;

pub use found::all_that_stood_are_found;
pub use place::state_has_its_place;
pub use targets::{kept_are_apart, looks_see_targets, targets_are_free};
pub use truth::looks_are_true;
