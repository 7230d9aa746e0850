//! Tables: the words that the lines of a configuration begin with, and cases that programs go through.
//!
//! The contract: each word has its one row. The words of a [`Keyed`] rise by its type, [`directives`] has the rows of
//! the 67 directives and no others, and `Keyed::row_of` gives the row of a word, or none exactly where no row has it,
//! within as many word comparisons as the number of rows has binary digits, plus one. The cases of [`due_cases`] have one
//! for each line that decides whether a log is due, and those of [`cut_cases`] say truly whether the machine can be cut so.
//! Begin with [`directives`].
#![tactic(auto)]

mod cut_case;
mod directive;
mod due_case;
mod keyed;
mod rows;

pub use cut_case::{CutCase, CutCases, cut_cases};
pub use directive::Directive;
pub use due_case::{DueCase, DueCases, due_cases};
pub use keyed::{Keyed, Row};
pub use rows::directives;
