// What an audit by a configuration came to.
use lr_audited::Audit;
use lr_rules::{Fault, Listed, Notice};

/// The audit, None where there was no clock; and what there is to say besides.
#[derive(Drop)]
pub struct Told {
    pub audit: Option<Audit>,
    pub notices: Listed<Notice>,
    pub faults: Vec<Fault>,
}
