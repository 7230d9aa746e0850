// What the steps that were made tell those behind them.
use lr_rules::Path;

/// What a step that was made tells those behind it.
#[derive(Drop)]
pub enum Mark {
    /// The log counts as rotated.
    Rotated(Path),
    /// The directory is there: it was made, or found.
    Directory(Path),
    /// The log was made anew, or found: its path is named.
    Created(Path),
}
