// What comes of a log that was found.

/// What comes of a log that was found. Places are those of the list of logs, from 0.
#[derive(Clone, Copy, Debug, PartialEq, Eq)]
pub enum Choice {
    /// The run keeps it.
    Kept,
    /// Its path was found before: by the log at this place first.
    Again(usize),
    /// Its path wasn't found before, but a wildcard gave it, and it's a member of the log at this place, the first such
    /// whose path wasn't found before either.
    MemberOf(usize),
    /// None of these, but one of its names is the reserved path at this place, the first such.
    Reserved(usize),
    /// None of these, but one of its names is one of the log at this place, the first such that is kept.
    Meets(usize),
}
