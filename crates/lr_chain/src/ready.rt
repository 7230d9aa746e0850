// A rotation that is ready to be made.
use lr_rules::{Listed, Make, Path};
use lr_scripts::Removal;

/// One member's way, from its path to that of the next place.
#[derive(Drop)]
pub struct Move {
    pub from: Path,
    pub to: Path,
}

/// All that one rotation does, with each of its paths: it takes no memory to make it.
#[derive(Drop)]
pub struct Ready {
    /// The members that the count leaves no room for, the highest place first; they are removed before the rest.
    pub leftovers: Listed<Removal>,
    /// The directory that is to be made before the moves, with its mode (permission bits), if any. [`crate::prepare`] gives
    /// none.
    pub dir: Option<(Path, Option<u32>)>,
    /// The moves of the members, the highest place first; of dates none.
    pub moves: Listed<Move>,
    pub log: Path,
    /// Where the log goes.
    pub target: Path,
    /// Whether the log is made anew, and with which mode (permission bits).
    pub make: Make,
    /// What is removed at the end, of numbers the highest place first, of dates the oldest first: the members that are then
    /// too many, and those that are too old, under the names that the moves gave them; the log, at its target, where none
    /// is kept.
    pub retire: Listed<Removal>,
}

/// Why a rotation can't be prepared.
#[derive(Drop)]
pub enum PrepareStop {
    /// The name that the log would get is a member's; of dated families alone.
    Taken(Path),
    /// This member's number, or of dates its serial number, can't become higher.
    TooHigh(Path),
    /// The family's directory isn't there.
    NoDir(Path),
    Memory,
}
