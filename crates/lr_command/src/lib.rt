//! What the words of the command line ask for.
//!
//! The contract above it: the words ask for a request exactly where `clap` takes them, each path that they name is one,
//! and the state file can have its path; and the request is then the one that they ask for. Begin with `request_of`:
//!
//! ```text
//! let request = request_of(alloc, &words, &here)?;   // of `-fv -s /tmp/state a.conf`
//! ```
#![tactic(auto)]

mod command;
mod found;
mod paths;
mod request;

pub use paths::{mail_program, name_of, state_of};
pub use request::{Request, WordsFault, request_of};
