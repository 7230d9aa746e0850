//! The looks of a run at the logs of all its definitions, and which of them it keeps.
//!
//! The contract above it: what the looks came to is one value, and the logs that are left and the faults are functions of
//! it. Faults come in this order: of the words (`specs/Sights.antt`), then of the choice, then of the kinds
//! (`specs/Choices.antt`), then of the families (`specs/Families.antt`). `specs/Internal.antt` has what these calls
//! hand from one to the next. Begin with `look_all`, which makes these looks:
//!
//! ```text
//! let found = look_at_words(alloc, &mut host, &rules, &mut faults)?;  // what the words give
//! let kept = keep(alloc, found, &reserved, &mut faults)?;             // the regular files that are to be rotated
//! let stood = look_at_families(alloc, &mut host, kept, rules.sets.len(), &mut faults)?; // what stands of their families
//! ```
#![tactic(auto)]

mod all;
mod aside;
mod families;
mod found;
mod keeping;
mod listing;
mod listings;
mod naming;
mod reserved;
mod standing;
mod unreserved;
mod words;

pub use all::look_all;
pub use families::look_at_families;
pub use found::Found;
pub use keeping::keep;
pub use reserved::reserved_paths;
pub use words::look_at_words;
