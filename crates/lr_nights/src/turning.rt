// The rotations of a log, as far as its entries were gone through.

/// Whether the run has begun a rotation of the log, and how many runs did.
#[derive(Clone, Copy)]
pub struct Turning {
    pub begun: bool,
    pub count: u64,
}
