//! When a log is due, and what a clock in a time zone shows.
//!
//! `zone_of` says which zone the variable TZ asks for; `clock_of` answers what a clock in the zone shows now, a day ago
//! and an hour ago, or why it can't; `due` answers for one log by the first case of the table of cases that applies.
//! Begin with `clock_of`.
#![tactic(auto)]

mod answer;
mod calendar;
mod table;
mod tz;
mod zone;

pub use answer::{Due, Why, WhyNot};
pub use table::due;
pub use tz::{Zone, zone_of};
pub use zone::{ZoneStop, ZoneText, clock_of};
