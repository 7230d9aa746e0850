// Where a line stands.

/// Whether a definition is being read, and whether a fault dropped it.
#[derive(Clone, Copy)]
pub enum Place {
    Outside,
    Good,
    Dropped,
}
