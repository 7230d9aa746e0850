// One step of the acts.
use lr_rules::{Listed, Path, Phase, Text};
use lr_scripts::Command;

/// One step of the acts: one call, or those of one copy or one text. It holds all that its fault would name, so that no
/// memory is taken where it fails. Modes are permission bits.
#[derive(Drop)]
pub enum Step {
    /// A program of this phase; the text is its first argument, or the mailed file.
    Runs {
        phase: Phase,
        on: Text,
        command: Command,
    },
    /// The unlink of a file.
    Removes {
        path: Path,
    },
    /// A directory is made; where the path is named, it has to be one.
    MakesDir {
        path: Path,
        mode: Option<u32>,
    },
    Renames {
        from: Path,
        to: Path,
    },
    /// A log is made anew; where the path is named, that stays.
    Creates {
        path: Path,
        mode: Option<u32>,
    },
    /// A file is made; the path has to be free.
    Takes {
        path: Path,
        mode: Option<u32>,
    },
    /// All bytes of a file go behind those of another, as long as they are no more than the limit.
    Copies {
        from: Path,
        to: Path,
        limit: u64,
    },
    /// This text goes behind the bytes of a file.
    Appends {
        path: Path,
        text: Text,
    },
    SyncsFile {
        path: Path,
    },
    SyncsDir {
        path: Path,
    },
    /// A file is emptied.
    Truncates {
        path: Path,
    },
    /// No call: from here on the log counts as rotated.
    Rotated {
        log: Path,
    },
}

/// The steps of one definition, by what a failed one ends: one of the first, the whole definition; one of a log's, that
/// log; the last are made only where a log of `each` was rotated.
#[derive(Drop)]
pub struct SetSteps {
    pub first: Listed<Step>,
    pub each: Listed<Listed<Step>>,
    pub last: Listed<Step>,
}
