//! What the lines of a configuration of logrotate(8) mean: its rules, notices and faults.
//!
//! The contract: a [`Layer`] that took some items, and then takes those that come, gives what all these lines mean, a
//! definition over the whole list: a field of a rule has the value of the last line that sets it, outside definitions
//! before the rule's `{` or inside it, else its default. Its words are the names of the lines before the `{`, in order;
//! that one stands twice is no fault here. Begin with [`Layer::new`].
//!
//! A line that isn't understood gives one fault, the first that applies in the order of `lr_rules::ConfKind`. Inside a
//! definition it drops that definition up to its `}`, where the first word is a directive; a line that begins with
//! another word is told and ignored. A fault of the lexer drops its definition too; the layer isn't given which one, and
//! the meaning has it in its place among the others, behind a fault that dropped the definition too. What one
//! line says by itself is `lr_forms::say`.
//!
//! ```text
//! let mut layer = Layer::new(alloc)?;
//! layer.enter(file);
//! // each item of a `lr_lex::Lexer`
//! layer.take(item)?;
//! // each of its faults, which the caller tells
//! layer.spoil(line);
//! let unclosed = layer.close_file();
//! layer.leave();
//! let (rules, notices) = layer.finish();
//! ```
//!
//! The fields of one definition are [`Fields`]: [`default_fields`] are those that no line set, [`set_field`] makes one more
//! setting of them (by the law [`one_more_setting`] the fields of all of them), and [`rule_of`] gives the rule of a definition
//! that ends with them. [`script_fault`] tells whether a definition takes a script. [`Files`] are those whose lines are being read.
#![tactic(auto)]

mod copies;
mod draft;
mod field_laws;
mod fields;
mod files;
mod inside;
mod layer;
mod outside;
mod place;
mod rule;
mod rule_laws;
mod scripts;
mod stop;
mod taboo;
mod taking;

pub use copies::copy_fields;
pub use field_laws::{last_count, last_criterion, one_more_setting};
pub use fields::{Fields, default_fields, set_field};
pub use files::Files;
pub use layer::Layer;
pub use rule::{format_of, rule_of};
pub use rule_laws::rules_of_lines;
pub use scripts::script_fault;
pub use stop::{Include, LayerStop};
