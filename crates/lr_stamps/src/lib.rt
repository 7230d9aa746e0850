//! Stamps: the names of dated members, both ways.
//!
//! The contract above it: a path is the dated member of a stamp and a serial number exactly where these are read of it
//! (`stamp_at`), and the name that is written for a clock is that of its stamp (`dated_path`). Begin with `stamp_at`:
//!
//! ```text
//! // /v/a.log-20240114.2, by `-%Y%m%d` with serial numbers: the start of that day, and the second behind its first
//! stamp_at(&naming, &path)   // Some((1_705_190_400, 2))
//! ```
#![tactic(auto)]

mod digits;
mod front;
mod laws;
mod member;
mod moment;
mod reading;
mod serial;
mod writing;

pub use digits::plain_number;
pub use laws::{stamp_keys_rise, stamps_are_names};
pub use member::{between, dated_path, name_under, stamp_at, stamp_in};
