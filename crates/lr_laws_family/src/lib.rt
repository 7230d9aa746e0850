//! What a rotation makes of the family of a log, file by file, where nothing failed: by numbers or dates, by a
//! rename, by a copy, or by a copy of what was set aside. And what a copy of a log leaves durable.
//!
//! The contract above it: behind looks that saw a log's source and the members of its family, and with other logs' changes and
//! writers' entries between its steps, each file is where the rotation takes it, by its identity and with its bytes
//! (`family_is_turned`). A law is the contract of a function without a body; begin with `IsTurned` in `specs/Turned.antt`.
//!
//! Before a log is emptied its copy, where writers spare it, has the final path, whole, now and after each cut:
//! `copy_is_whole_before_cut`, whose words stand in `specs/Whole.antt`.
#![tactic(auto)]

mod copies;
mod copies_worked;
mod family;

pub use copies::copy_is_whole_before_cut;
pub use copies_worked::copy_in_order_is_whole;
pub use family::family_is_turned;
