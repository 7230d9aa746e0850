//! A log that is set aside, copied from there and let go: the lower half of `renamecopy` of logrotate(8). Its writer may go on
//! meanwhile: each byte that was there at the copy's last read is in the copy, which no stop of the machine takes back as the
//! log is let go.
//!
//! The contract: behind the moves of its members, which are synced, the log is renamed to the path where it waits, and no more;
//! it is unlinked there only behind a copy that has its final path, whole and durable (`LetsGo` in `specs/Moved.antt`); after
//! each refusal its file has all its bytes, and waits there still, but where the unlink failed with its effect
//! (`specs/Waiting.antt`). Begin with [`set_aside`]:
//!
//! ```text
//! let ready = prepare(alloc, &family, &stand, count, None, &clock, Make::No)?;    // of lr_chain
//! set_aside(&mut host, &ready, &dir, &tmp)?;       // /var/log/app.log is /var/log/app.log.tmp
//! // the log is made anew, and a script tells its writer; then, with a job that copies `tmp` to `ready.target`:
//! let copied = finish(&mut host, &job, buffer.as_mut_slice())?;    // it is /var/log/app.log.1
//! ```
//!
//! Neither takes memory. The functions of `laws` and `worked` do nothing: their contracts are the laws.
#![tactic(auto)]

mod finishing;
mod laws;
mod setting_aside;
mod worked;

pub use finishing::finish;
pub use laws::copied_may_be_let_go;
pub use setting_aside::set_aside;
pub use worked::{unsynced_bytes_are_not_let_go_whole, unsynced_name_is_not_let_go_whole};
