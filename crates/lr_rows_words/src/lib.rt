//! What tables ask of calls that need no host: paths and texts, words and items of a configuration, patterns, names of
//! members, moments, whether a log is due, and the text of a state.
//!
//! Begin with [`answer`], which puts what the call of a line answers; `docs/ROWS.md` has all calls:
//!
//! ```text
//! let mut out = Answer::new(alloc);
//! answer(&mut Cursor { alloc, words, taken: 0 }, &mut out)?;
//! ```
#![tactic(auto)]

mod answers;
mod ask;
mod clock;
mod directive;
mod due;
mod family;
mod glob;
mod lex;
mod member;
mod mode;
mod moment;
mod path;
mod state;
mod streamed;

pub use answers::Answer;
pub use ask::answer;
