//! A disk in memory that keeps its journal. It has files, what writers hold, and two tables of names: what each path
//! names now, and what the disk holds for certain. Between them stand the pending changes, in order. The sync of a
//! directory makes those durable that have a path right in it, and with each the older ones that share a name with it;
//! the sync of a file makes no name durable. Where the machine stops, any set of the pending changes may stay that holds,
//! with each, all older ones that share a name with it.
//!
//! All that the disk answers is what the disk has whose history its journal is. Begin with `Disk::new`.
#![tactic(auto)]

mod again;
mod apply;
mod bytes;
mod change;
mod closed;
mod cuts;
mod disk;
mod entries;
mod file;
mod holds;
mod lengths;
mod listing;
mod names;
mod opened;
mod pending;
mod prepare;
mod replay;
mod state;
mod sync;
mod tree;
mod valid;

pub use again::Replay;
pub use disk::Disk;
