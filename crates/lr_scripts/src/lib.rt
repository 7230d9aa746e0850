//! Programs that a run starts, each script and mail as it is started, and the removal of a file behind them.
//!
//! The contract above it: a file is unlinked only after its preremove script and its mail both ended with 0. Begin
//! with `remove`:
//!
//! ```text
//! let removal = Removal { path, preremove: Some(script), mail: None };
//! remove(alloc, &mut host, &removal)?;   // runs the script, then unlinks the file
//! ```
//!
//! The command of a script is exactly its definition's (`script_command`, `specs/Commands.antt`): a shell with the words `-c`, the
//! script's text, `logrotate_script`, and the script's arguments, without an input. And each removal gets its definition's
//! preremove and mail ([`with_programs`]). Begin with [`script_on`]:
//!
//! ```text
//! // a postrotate that stands in its definition, with the path of the log and the one that it came to
//! let post = script_on_both(alloc, true, &rule.scripts.post, log.bytes(), target.bytes())?;
//! ```
#![tactic(auto)]

mod command;
mod programs;
mod removal;
mod script;
mod words;

pub use command::{Bad, Command, run_phase};
pub use programs::{mail_of, with_programs};
pub use removal::{Removal, remove};
pub use script::{script_on, script_on_both};
pub use words::spaced;
