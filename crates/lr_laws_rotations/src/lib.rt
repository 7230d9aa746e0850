//! What one rotation of a log's family does to sets, and when its steps and calls fit, be the members' names numbers or dates; and
//! the logs that a run may rotate, and what a run does to them.
//!
//! What a rotation makes of the files of a family is in `lr_laws_family`. A law is the contract of a function without a body; of
//! one rotation begin with `rotation_is_one`.
//!
//! A `Target` is a log that a run may rotate: its naming, count and age, what stood of its family, and its rotation, which is
//! ready, with the copy in the place of the log's rename, if any. What is said of it has no case by its kind: numbers and dates
//! are told apart by the naming alone, inside of what hinders a rotation and of what is ready. `IsLogSeen` says what a run's looks
//! showed of it; `HasNames` says that each of its members has a name to come to, which is all that the laws of its rotation ask
//! for; `IsWholeRunBy` says what a run with many of them does. Begin with `specs/Target.antt`, then `all_logs_stay_safe`, whose
//! words are in `specs/Runs.antt` and `specs/AllTurns.antt`.
//!
//! Worked examples, `two_logs_turn` first: what the laws of runs over several logs ask for is met, by runs that are written out.
#![tactic(auto)]

mod rotation;
mod targets;
mod two_logs;

pub use rotation::rotation_is_one;
pub use targets::all_logs_stay_safe;
pub use two_logs::two_logs_turn;
