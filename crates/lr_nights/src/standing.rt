// The files that stand at the end.

/// How many files stand, and their bytes together.
#[derive(Clone, Copy)]
pub struct Standing {
    pub files: u64,
    pub bytes: u64,
}
