//! The words that all crates share: texts and paths, the rules of logs and how a rule names a log's members, civil moments, the
//! faults of a report.
//!
//! The contract above it: a `Path` holds a valid path, and the naming of a log is exactly the definition's (`naming_of` in
//! `specs/Names.antt`). Begin with `Path::from_word`, which makes the path that a word of a user names, or says what keeps it
//! from being one, and with `naming_of`:
//!
//! ```text
//! let here = Path::new(alloc, b"/srv")?;
//! let path = Path::from_word(alloc, &here, b"./logs//app.log")?;   // /srv/logs/app.log
//! let naming = naming_of(alloc, &rule, &log)?;   // of /v/mail.log by `olddir old` and `extension .log`: /v/old, mail, .log
//! ```
#![tactic(auto)]

mod aside;
mod between;
mod civil;
mod clock;
mod copies;
mod fault;
mod form;
mod listed;
mod memory;
mod naming;
mod path;
mod rule;
mod rules;
mod settings;
mod stamp_parts;
mod steps;
mod text;

pub use aside::aside_path;
pub use civil::{Civil, Moment};
pub use clock::Clock;
pub use copies::{copy_format, copy_path, copy_paths, copy_rule, copy_text, copy_texts};
pub use fault::{CallKind, ConfKind, Ended, Fault, Notice, Phase, StateKind, ZoneWhy};
pub use form::{has_bad_byte, is_absolute};
pub use listed::Listed;
pub use memory::Memory;
pub use naming::{ends_with, is_aside_path, naming_of};
pub use path::{Path, PathFault};
pub use rule::{Back, Count, Criterion, Field, Format, Make, Naming, Piece, Rule, Scripts, Way};
pub use rules::Rules;
pub use settings::Settings;
pub use stamp_parts::StampParts;
pub use steps::Steps;
pub use text::{Text, TextFault, is_utf8, push_text, text_of};
