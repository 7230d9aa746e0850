//! How a run of logrotate(8) writes its state file: the text goes to a file of its own, which is synced and then gets the
//! state's path, so that this path never names a text that is cut off, nor one that tells of renames which a power cut
//! could take back.
//!
//! The contract: what [`write_state`] leaves are the steps of `lr_plan`'s definition `state_steps`, up to one that failed.
//! By the laws of `laws.rt` one rename alone touches the state's path, behind the whole text and all syncs, and what the
//! writing asks for is met where its directories stand. All memory is taken by [`prepare`], before the first change of a
//! run. Begin with [`prepare`]:
//!
//! ```text
//! let part = lr_state::part_path(alloc, &state)?;                   // STATE.tmp, which the run looks at
//! let dirs = directories_of(alloc, &changed)?;                      // of the paths whose names the run changes
//! let writing = prepare(alloc, &state, part, stale)?;               // behind the looks, before the first change
//! write_state(&mut host, writing, dirs, &table, &mut faults);       // behind the acts
//! ```
//!
//! The directories that a run syncs before are these, each once, in order of bytes: the directory of each log that the plan
//! rotates; the directory of the path that it gets, where that stood or was made in this run; and the directory in which such a
//! one was to be made. One that was to be made and wasn't isn't there, so it isn't synced. All memory is taken by
//! [`directories_by`], before the first act; behind the acts, [`synced`] takes none. Both take time n log n for n logs and marks.
//! What they come to is the definition `AreSynced`; `proofs/SyncedLaws.antt` has what follows from it. Begin with
//! [`directories_by`]:
//!
//! ```text
//! let directories = directories_by(alloc, plan.sets.as_slice())?;       // before the first act
//! let dirs = synced(directories, progress.marks.as_slice());            // behind the acts
//! ```
#![tactic(auto)]

mod buffer;
mod directories;
mod laws;
mod naming;
mod part;
mod paths;
mod refused;
mod synced_directories;
mod text;
mod unmade;
mod write;
mod writing;

pub use directories::directories_of;
pub use laws::{state_is_named_last, whole_writing_names_state, writing_fits};
pub use synced_directories::{Directories, directories_by, synced};
pub use write::write_state;
pub use writing::{Writing, prepare};
