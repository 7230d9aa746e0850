// The numbers of a journal.

/// What a journal tells of some logs over so many nights.
#[derive(Clone, Copy)]
pub struct Summary {
    /// As they were given to `tally`: the journal has no nights.
    pub nights: u32,
    /// How many runs began.
    pub runs: u32,
    /// How many times a run began the rotation of a log.
    pub begun: u64,
    /// How many paths name a regular file at the end, of those that are a log's own or its members'.
    pub files: u64,
    /// The bytes of these files together.
    pub bytes: u64,
    /// How many generations of the logs have no name at the end.
    pub released: u64,
}
