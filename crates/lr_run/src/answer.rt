// What a run answers.
use lr_plan::Plan;
use lr_rules::Fault;

/// Why there was no run, or why it ended early.
#[derive(Clone, Copy)]
pub enum RunStop {
    /// Another holds the lock.
    Held,
    /// Want of memory: before the first change, or amid the acts, for a program.
    Memory,
}

/// What a run came to.
#[derive(Drop)]
pub struct Ran {
    /// The plan, where the run came to it.
    pub plan: Option<Plan>,
    /// The faults that were handed in, and behind them the run's own. There is room for one more.
    pub faults: Vec<Fault>,
}
