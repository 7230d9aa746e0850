//! A host over a disk in memory, for tests of what works on a disk: writers act between its calls, calls that are listed
//! fail, and the machine may stop between calls so that any closed set of the pending name changes stays. It tells its
//! journal: all that it answers is what the disk has whose history the journal is. Where nothing is listed to fail, no
//! count rises but for want of memory. Begin with `MemHost::new`.
#![tactic(auto)]

mod act;
mod entries;
mod host;
mod sink;
mod turn;

pub use act::{Act, Failing, How};
pub use host::{CutFault, MemFault, MemHost};
pub use sink::MemSink;
