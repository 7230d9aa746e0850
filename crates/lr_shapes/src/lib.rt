//! The shapes of the names of a log, and when two logs meet.
//!
//! A shape is a list over a whole path: bytes, single digits, runs of digits. The contract above it: two logs are apart
//! exactly where no path is a name of both, and a log meets a path exactly where the path is one of its names. Begin with
//! `apart`:
//!
//! ```text
//! apart(&mail, &by_number, &mail_err, &err_by_number)    // true: `/v/mail.err` has no number behind `mail.`
//! meets(&mail, &by_number, &path)                        // true of `/v/mail.12` and `/v/mail.007`
//! ```
#![tactic(auto)]

mod common;
mod laws;
mod meeting;
mod piece;
mod shape;
mod step;
mod token;
mod whole;

pub use laws::fronts_agree;
pub use meeting::{apart, meets};
