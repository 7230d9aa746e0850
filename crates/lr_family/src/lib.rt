//! The names of a log's members, both ways, which members and which of their part files stand, and when two logs are
//! apart.
//!
//! The contract above it: a member's name and its place determine each other, and what `Family::stand` answers is what
//! its looks showed. Begin with `Family::of`:
//!
//! ```text
//! let family = Family::of(log, naming);
//! let newest = family.name_at(alloc, 0)?;       // /var/log/app.log.1
//! let place = family.place_of(&newest);         // Some(Place::Number(0))
//! let listing = Listing::take(alloc, host, dir)?;         // once for all families in the directory
//! let stand = family.stand_in(alloc, host, &listing)?;
//! ```
#![tactic(auto)]

mod directory;
mod family;
mod kin;
mod laws;
mod listing;
mod look;
mod members;
mod name;
mod newest;
mod number;
mod parts;
mod place;
mod prefix;
mod spot;
mod stand;
mod standing;

pub use directory::{DirStop, dir_fault, look_for_dir};
pub use family::{Family, apart};
pub use kin::are_kin;
pub use laws::{name_is_read_back, path_is_named_again, stamp_is_read_back};
pub use listing::Listing;
pub use newest::key_of;
pub use place::{NameStop, Place, number_at};
pub use stand::{Member, Stand, StandStop};
