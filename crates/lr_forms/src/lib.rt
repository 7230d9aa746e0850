//! What one line of a configuration of logrotate(8) says by itself.
//!
//! The contract: [`say`] gives exactly what the line says, inside a definition of logs or outside: the first fault that
//! applies to it, in the order of `lr_rules::ConfKind`, else what it sets, names, includes or passes over. What is set
//! meets the limits of `lr_rules`. What depends on the lines before it, as names without a brace and a script that stands
//! twice, is for `lr_conf`. Begin with [`say`]:
//!
//! ```text
//! // each item of a `lr_lex::Lexer`
//! let said = say(alloc, item, inside)?;
//! ```
#![tactic(auto)]

mod faults;
mod form;
mod laws;
mod make;
mod names;
mod reading;
mod row;
mod said;
mod script;
mod set;
mod taboo;
mod value;

pub use laws::lines_meet_limits;
pub use reading::say;
pub use said::{LineSaid, closes, has_brace, line_of};
pub use set::Set;
