// The taboo list.
use lr_rules::{Listed, Text};

/// The extensions and patterns of the names that an `include` of a directory passes over.
#[derive(Drop)]
pub struct Taboo {
    pub extensions: Listed<Text>,
    pub patterns: Listed<Text>,
}
