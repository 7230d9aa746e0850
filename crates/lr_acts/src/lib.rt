//! The acts of a run: the steps of its plan, made on a host.
//!
//! The contract above it: what the acts add to what came before, the marks, the faults and the entries, is by one
//! definition, `SetsDone` of `lr_plan`; each fault has its cause. Begin with `act`, over the steps of `lr_plan::steps_of`:
//!
//! ```text
//! let mut progress = Progress { marks, faults, buffer: Vec::new(alloc) };
//! take_room(&mut progress, steps.as_slice())?;
//! act(alloc, &mut host, steps, &mut progress)?;     // behind the first step only a program takes memory
//! ```
#![tactic(auto)]

mod acts;
mod bytes;
mod calls;
mod marks;
mod progress;
mod room;
mod step;
mod stop;
mod text;

pub use acts::act;
pub use progress::Progress;
pub use room::take_room;
