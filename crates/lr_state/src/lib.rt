//! When each log was rotated last: the table of a state file, its text, the reading of that file, and what a run writes down.
//!
//! A text is read exactly where the grammar of state texts takes it, and gives the table of its lines; what is written
//! for a table is read back as that table. Begin with `State::read`, or with `Reader::new` for a text that comes in pieces.
//!
//! What a run's looks at the state's file and at its part file and the reading of the text came to is one value
//! (`specs/Sights.antt`), and what is known of the state follows from it (`specs/Known.antt`): the table of the text, or
//! the one fault that ends the run before its plan. Nothing is changed. `specs/Internal.antt` is for proofs. Begin with
//! [`read_state`]:
//!
//! ```text
//! let part = part_path(alloc, &state)?;                               // STATE.tmp
//! match read_state(alloc, &mut host, &state, &part, &mut buffer)? {   // behind the begin of a run
//!     Ok(remembered) => plan(.., &remembered.table, ..),              // remembered.stale: an old STATE.tmp is removed
//!     Err(fault) => ..                                                // nothing is rotated, and the state stays
//! }
//! ```
//!
//! Behind a run the table is `after` (`specs/After.antt`) of the one that was read: each rotated log has the moment of the run,
//! each other log that the run found and kept has its old moment, or that of the run where it had none, and what is older than
//! 366 days and of no such log is left out. [`fits`] tells beforehand whether its text is small enough to be read back, whichever
//! of the logs that are due are rotated. All memory is taken before the first log is rotated; [`stamp`] takes none. Begin with
//! [`bring_up`]:
//!
//! ```text
//! bring_up(alloc, &mut table, &kept, &now)?;      // behind the looks, before the first change
//! let small = fits(alloc, &table, &due, &now)?;   // the same
//! stamp(&mut table, &log, now);                   // of each log that was rotated
//! ```
#![tactic(auto)]

mod answer;
mod kept;
mod line;
mod look;
mod measured;
mod moment;
mod name;
mod part;
mod reader;
mod reading_laws;
mod reading_pieces;
mod reading_text;
mod record_laws;
mod remembered;
mod rotated;
mod state;
mod text;
mod write;

pub use answer::read_state;
pub use kept::bring_up;
pub use look::LookStop;
pub use measured::fits;
pub use part::part_path;
pub use reader::Reader;
pub use reading_laws::{states_are_read_quietly, states_show_one_answer};
pub use record_laws::stamps_make_after;
pub use remembered::Remembered;
pub use rotated::stamp;
pub use state::{State, written_text_is_read};
pub use text::{StateStop, first_line};
