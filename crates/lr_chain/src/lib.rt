//! One rotation of a log, its members named by numbers or by dates: what makes it ready, the chain of renames, the directory
//! that is made before them, and the removals before and behind.
//!
//! The contract above it: what is made ready is a function of the clock, of the rule's count and age, and of what was seen
//! (`ready_of` in `specs/Prepared.antt`), and so is what hinders it (`what_hinders` in `specs/Hindrances.antt`); each call
//! leaves just the entries of its steps, in order. Begin with `prepare`:
//!
//! ```text
//! let stand = family.stand(alloc, host)?;
//! let ready = prepare(alloc, &family, &stand, Count::Keep(7), Some(30), &clock, Make::No)?;
//! retire(alloc, &mut host, ready.leftovers.as_slice())?;
//! turn(&mut host, &ready)?;            // /var/log/app.log is /var/log/app.log.1, or /var/log/app.log-20240114
//! retire(alloc, &mut host, ready.retire.as_slice())?;
//! ```
//!
//! `Some(30)` is logrotate(8)'s `maxage 30`, in days: of the members that stood before, each that was modified more than 30
//! times 86,400 seconds before the clock's moment is removed behind the turn. The log isn't.
//!
//! The functions of `laws` do nothing: their contracts say that the steps are one rotation's, that they fit, and that they
//! turn the family.
#![tactic(auto)]

mod chain;
mod dated;
mod dated_gone;
mod dated_target;
mod directory;
mod keeping;
mod laws;
mod numbered;
mod numbered_parts;
mod numbered_places;
mod preparing;
mod ready;
mod refusals;
mod retirement;

pub use chain::{ChainStop, shift, turn};
pub use directory::{DirStop, make_directory};
pub use laws::{ready_fits, ready_turns, steps_of_ready};
pub use preparing::prepare;
pub use ready::{Move, PrepareStop, Ready};
pub use retirement::retire;
