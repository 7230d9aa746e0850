//! Calls of a host by words, as rows ask for them: those of any host, of which one in memory shows what stands; and of that one
//! also cuts of the machine, and the calls of `lr_move` over it.
//!
//! Begin with [`called`], which answers the call that a word names, where it is one of a host.
#![tactic(auto)]

mod answer;
mod aside;
mod ask;
mod calls;
mod cut;
mod finishing;
mod tally;
mod telling;
mod tests_of;

pub use ask::{asked, called};
pub use telling::Telling;
