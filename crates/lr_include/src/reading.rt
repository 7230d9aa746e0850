// What a configuration gives.
use lr_rules::{Fault, Listed, Notice, Rules};

/// The rules, notices and faults of a configuration, each in order of reading.
#[derive(Drop)]
pub struct Reading {
    pub rules: Rules,
    pub notices: Listed<Notice>,
    pub faults: Listed<Fault>,
}
