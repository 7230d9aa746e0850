//! What the acts of a plan do: they fit and have the shape of a run, and each log that they empty they copied whole just before.
//!
//! A law is the contract of a function without a body.
//!
//! - From a plan to the shape of a run, what its steps change and that they fit: begin with `acts_turn_all`.
//! - What a run empties: begin with `acts_empty_copied` and `copies_are_whole`. `specs/Emptied.antt` has the words of entries,
//!   `Steps.antt` those of steps, and `Jobs.antt` says which copies a plan makes.
//! - A log that a run copies amid its rotation, from where it stands or from where it is set aside: its copy stands whole among
//!   the entries, and nothing else empties the log. Begin with `copied_log_rotates`, whose words stand in `specs/Copied.antt`.
#![tactic(auto)]

mod emptied;
mod emptied_worked;
mod turned;
mod turned_worked;
mod weave;

pub use emptied::{acts_empty_copied, copies_are_whole};
pub use emptied_worked::emptied_at_once_is_not_whole;
pub use turned::copied_log_rotates;
pub use turned_worked::family_is_not_turned;
pub use weave::acts_turn_all;
