//! Copying a log into a part file, which then gets its final name, and with `cut` the truncation of the log: the lower half
//! of `copy` and `copytruncate` of logrotate(8).
//!
//! The contract: of the log these bytes were read, from its first on up to a read that gave nothing, and just these were
//! appended to a part file that was made anew; that was synced, got its final path, and its directory was synced; and only
//! then, with `cut`, the log was emptied. A call that fails leaves the rest undone. Who makes the other steps copies the
//! bytes alone, by [`copy_bytes`]. Begin with [`copy_out`]:
//!
//! ```text
//! let part = part_path(alloc, &to)?;
//! let job = Job { from, part, to, dir, stale, mode, cut: true, limit: 1 << 40 };
//! let mut buffer = vec![in alloc; 0u8; 65_536]?;
//! let copied = copy_out(&mut host, &job, buffer.as_mut_slice());    // takes no memory
//! ```
#![tactic(auto)]

mod bytes;
mod copy;
mod job;
mod laws;
mod naming;
mod opening;
mod part;

pub use bytes::copy_bytes;
pub use copy::copy_out;
pub use job::{BytesStop, CopyStop, Job};
pub use laws::{
    copies_take_what_they_read, stopped_copies_keep_the_log, unnamed_copies_rename_nothing,
};
pub use part::part_path;
