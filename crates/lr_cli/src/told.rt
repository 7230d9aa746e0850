// What a run told.
use lr_plan::Plan;
use lr_rules::{Fault, Listed, Notice};

/// The plan of a run, and its notices and faults, in order.
#[derive(Drop)]
pub struct Told {
    /// The plan, where the run came to it.
    pub plan: Option<Plan>,
    pub notices: Listed<Notice>,
    /// There is room for one more.
    pub faults: Vec<Fault>,
}
