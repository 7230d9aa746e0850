//! The configuration of logrotate(8) as it stands on the disk: files, the files of directories, and what `include` asks
//! for, read in its place, give rules, notices and faults.
//!
//! The contract: what a reading holds is the meaning of the lines that its visits gave, in order of reading, and the
//! journal tells these visits, each asked for by what was read before it. Begin with [`read_all`].
//!
//! ```text
//! let reading = read_all(alloc, host, &paths)?;
//! // the definitions of all files, each with the limits of its values met
//! for rule in reading.rules.sets.as_slice() { .. }
//! ```
//!
//! A fault is told where it was come upon, and reading goes on behind it. Of a file with too many bytes, or of which a
//! read failed, the whole lines up to there are read.
//!
//! A visit of a path tells what stands there, the names in a directory, or what a file tells; links are followed. What it gave
//! is one value, which its entries show. Its call is [`visit_path`]:
//!
//! ```text
//! match visit_path(alloc, &mut host, &path, true, Some(1_048_576))? {
//!     Visit::Holds(names) => ..,          // a directory, with its names in order of bytes
//!     Visit::Reads(told, size, how) => .., // a file, what its bytes told, and how its reading ended
//!     ..
//! }
//! ```
#![tactic(auto)]

mod all;
mod course;
mod exposed;
mod file_taking;
mod kind;
mod laws;
mod look;
mod part;
mod pieces;
mod reading;
mod taking;
mod task;
mod text;
mod visit;
mod visiting;

pub use all::read_all;
pub use laws::{
    lacking_changes_nothing, readings_are_quiet, readings_are_short, visits_change_nothing,
    visits_tell_their_calls,
};
pub use part::TextEnd;
pub use reading::Reading;
pub use task::{Ask, ReadPiece, Task};
pub use text::{ReadStop, read_text};
pub use visit::{Visit, visit_path};
