//! One run over the definitions of a configuration.
//!
//! The contract above it: the entries of a run are a look at the state's directory, its start, the reading of the state,
//! the looks at its logs, the acts of the plan that follows from both, the writing of the state, and its end; and its
//! faults are those of the looks, of the plan and of the acts. What it saw, its plan, and what the acts came to are values
//! (`specs/Saw.antt`, `specs/Work.antt`), beside which the entries and the answer show them (`specs/Ran.antt`). A dry run only
//! looks, and plans. A log is emptied only behind a copy of it (`specs/Copied.antt`). Begin with `run`:
//!
//! ```text
//! let ran = run(alloc, &rules, &settings, &clock, earlier, &mut host)?;   // Err(RunStop::Held): another run is on
//! ```
#![tactic(auto)]

mod acting;
mod answer;
mod asked;
mod dry;
mod fault_copy;
mod known;
mod laws;
mod locked;
mod paths;
mod ready;
mod whole;
mod work;

pub use answer::{Ran, RunStop};
pub use asked::run;
pub use laws::run_turns_logs;
