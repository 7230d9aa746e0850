//! The scene of a worked row: the disk in memory that it begins with, what is done to that before a call, the calls that
//! are named by their kind and path, and what differs from what is wanted.
//!
//! Begin with `host_of`, which makes the disk of a row, and `put_differences`, which compares it behind a call.
#![tactic(auto)]

mod compare;
mod cut;
mod deed;
mod differences;
mod entries;
mod files;
mod opening;
mod ticks;

pub use compare::{Answer, Mark, Stopped, put_differences};
pub use cut::cut_keeping;
pub use deed::do_deed;
pub use differences::Differences;
pub use entries::{changes_text, entries_text, put_entry};
pub use opening::host_of;
pub use ticks::{TICK_PATH, entry_of, list_ticks, number_of};
