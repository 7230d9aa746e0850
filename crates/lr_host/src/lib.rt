//! The disk as contracts see it: its journal, and the calls of the tool.
#![tactic(auto)]

mod append;
mod entry;
mod host;
mod journal;
mod listing;
mod ordered;
mod sink;
mod thing;

pub use append::append_all;
pub use entry::Entry;
pub use host::{CallFault, Host, ListFault, RunFault};
pub use journal::{Journal, OpenFile, Opening};
pub use listing::list_rising;
pub use ordered::{leave_once, put_in_order};
pub use sink::{Sink, SinkFault};
pub use thing::{Kind, Seen, Thing, shows_dir};
