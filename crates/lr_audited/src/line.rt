// What an audit tells.
use lr_rules::{Listed, Path};

/// What a file beside logs is.
#[derive(Clone, Copy)]
pub enum What {
    /// A log that a run keeps.
    Log,
    /// A member at this place: the number of its name less the first one, or of dates how many later members stand.
    Member(u64),
    /// A numbered member at a place for which the count leaves no room.
    Leftover(u64),
    /// A copy that isn't whole, or a log's file that waits for its copy.
    Part,
    /// Nothing of these.
    Stranger,
}

/// Why the next run removes a file.
#[derive(Clone, Copy)]
pub enum WhyGone {
    /// The count leaves no room for it.
    Count,
    /// It is too old, and the count alone would keep it.
    Age,
}

/// A regular file, what it is, and of which log.
#[derive(Drop)]
pub struct Line {
    pub path: Path,
    pub what: What,
    /// None for a stranger.
    pub log: Option<Path>,
}

/// What stands beside logs, and what the next forced run removes.
#[derive(Drop)]
pub struct Audit {
    /// Each regular file in the directories of the logs and of their members, in order of bytes of the path.
    pub lines: Listed<Line>,
    /// Of each log with numbered members the places below the last one at which none stands: of a log 1,000 at most.
    pub gaps: Listed<(Path, u32)>,
    /// What the next forced run removes, in its order, under the present names.
    pub removed: Listed<(Path, WhyGone)>,
}
