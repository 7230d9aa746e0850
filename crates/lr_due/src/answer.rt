// What is said of a log.

/// Whether a log is due, and by which case.
#[derive(Clone, Copy)]
pub enum Due {
    Yes(Why),
    No(WhyNot),
}

/// Why a log is due.
#[derive(Clone, Copy)]
pub enum Why {
    /// The run was asked to rotate in any case.
    Forced,
    /// It is above the size of the criterion.
    Size,
    /// It is above the size at which it is due whatever the criterion says.
    MaxSize,
    /// Its hour, day, week, month or year has passed.
    Calendar,
    /// The state tells of a moment more than 25 hours ahead, which can't be right.
    Future,
}

/// Why a log is not due.
#[derive(Clone, Copy)]
pub enum WhyNot {
    /// It was written too few days ago.
    Young,
    /// It is empty, and empty logs aren't rotated.
    Empty,
    /// It is not above a size.
    Small,
    /// Its hour, day, week, month or year hasn't passed, or the state doesn't know it yet.
    Early,
}
