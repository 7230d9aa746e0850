// What a run knows of earlier ones.
use crate::state::State;

/// The table of the state file, and whether an old part file, of a run that was stopped, stands beside it.
#[derive(Drop)]
pub struct Remembered {
    pub table: State,
    pub stale: bool,
}
