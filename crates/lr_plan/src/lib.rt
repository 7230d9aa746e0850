//! The plan of a run, its steps, and what they leave: the values and definitions of the crates that make the plan
//! (`lr_planning`) and its steps (`lr_acts`), and what turns the one into the others (`steps_of`).
//!
//! The contract of that: the steps are those that their definition says (`steps_of_set` in `specs/Steps.antt`), of each of the
//! plan's definitions, in order. They hold a copy of all that they name. No call is made.
//!
//! Read `specs/Planned.antt` (the plan is a function of the rules, what was seen, the state and the clock), `Steps.antt` (its steps
//! are one of the plan), `Asking.antt` (what they ask of the disk), `Outcomes.antt` (what one step leaves, made or failed),
//! `Course.antt` and `Done.antt` (what all leave, and what a failed one ends), and `Cut.antt` (a first part of that).
#![tactic(auto)]

mod looks;
mod mark;
mod plan;
mod sets;
mod step;
mod steps;
mod way;

pub use looks::{LogLook, Looks, SetLooks};
pub use lr_copy::Job;
pub use mark::Mark;
pub use plan::{LogPlan, Plan, SetPlan};
pub use sets::steps_of;
pub use step::{SetSteps, Step};
