//! What the machine gives a program: the words of its command line, its directory, the zone and the time, and what programs
//! tell of themselves.
//!
//! The contract above it: a text or a path is of just the bytes that it is made of. Of what a machine gives nothing can be said;
//! that is safe, and ends. Begin with `words_given`:
//!
//! ```text
//! let words = words_given(&rt, rt.alloc())?;
//! let asked = asked_of(&rt, rt.alloc())?;
//! ```
#![tactic(auto)]

mod asked;
mod given;
mod said;
mod stop;
mod zone;

pub use asked::{Asked, asked_of};
pub use given::{given_text, here_given, path_of, seconds, words_given};
pub use said::{ended, tells_itself};
pub use stop::{GivenStop, outcome_of};
