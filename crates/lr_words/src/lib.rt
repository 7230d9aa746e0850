//! The words of a configuration, as logrotate(8) has them: names of logs, paths, extensions, addresses and lists of what is taboo;
//! and its numbers: counts, sizes, days of the week, modes and formats of dates.
//!
//! The contract: each call gives the value that a definition has for the bytes of a word, or the kind of fault that it has for
//! them, and nothing else, inside of its answer for want of memory. What is given meets the limits of `lr_rules`. Begin
//! with [`log_name`], or with [`number`]:
//!
//! ```text
//! assert!(log_name(alloc, b"/v//./a.log")? == Ok("/v/a.log"));
//! assert!(log_name(alloc, b"/v/*.log")? == Ok("/v/*.log"));
//! assert!(log_name(alloc, b"v/a.log")? == Err(ConfKind::BadPath));
//! assert!(number(b"7") == Ok(7));
//! assert!(size(b"1k") == Ok(1_024));
//! assert!(size(b"1kB") == Err(ConfKind::BadSize));
//! assert!(mode(b"0640") == Ok(0o640));
//! ```
#![tactic(auto)]

mod digits;
mod ending;
mod escape;
mod name;
mod path;
mod permissions;
mod piece;
mod stamp;
mod taboo;
mod units;
mod value_laws;
mod word_laws;

pub use digits::{count, number, weekday};
pub use ending::{address, extension, has_part_end};
pub use escape::literal;
pub use name::{is_wildcard, log_name};
pub use path::{include_path, olddir};
pub use permissions::{first_mode, mode, names_owner};
pub use stamp::format;
pub use taboo::{TabooItems, taboo_items};
pub use units::size;
pub use value_laws::{one_format, values_meet_limits};
pub use word_laws::words_meet_limits;
