// Two logs that meet.

/// The places of two logs that meet.
#[derive(Clone, Copy)]
pub struct Pair {
    pub earlier: usize,
    pub later: usize,
}
