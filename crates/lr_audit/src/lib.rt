//! What stands beside logs, and what the next forced run removes: an audit, which changes nothing.
//!
//! The contract above it: each regular file beside the logs is told as what the looks at these made of it, and what is told as
//! going is what the plan of a forced run removes; what was seen is true of the disk. Begin with `lraudit`:
//!
//! ```text
//! let outcome = lraudit(alloc, &words, &here, &Zone::Utc, now, &mut host, &mut out);
//! let code = status(&outcome);   // 0 where the report has no fault
//! ```
#![tactic(auto)]

mod auditing;
mod dirs;
mod files;
mod report;
mod run;
mod text;
mod told;
mod top;
mod words;

pub use auditing::audit_of;
pub use top::lraudit;
