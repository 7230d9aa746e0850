// What the report of a run says: faults and notices, and the kinds that they name.
use crate::{Path, Text};

/// One fault of a run. Each comes only with its cause, which the clauses of the call that answers it say.
#[derive(Drop)]
pub enum Fault {
    /// A fault of a line of a configuration file; line 0 is the file as a whole.
    Conf {
        file: Path,
        line: u32,
        kind: ConfKind,
    },
    /// The clock is out of range.
    Clock,
    /// The time zone can't be had.
    Zone(ZoneWhy),
    /// A fault of a line of the state file; line 0 is the file as a whole.
    State {
        line: u32,
        kind: StateKind,
    },
    /// Nothing stands at a literal word, or no regular file matches a wildcard.
    Missing(Text),
    /// Another kind of thing stands at the path than the one needed.
    NotFile(Path),
    /// No directory stands at the path.
    NoDir(Path),
    /// The log is found by a later definition or word too.
    Duplicate(Path),
    /// The names of the first log meet those of the other, or a path of the state.
    Overlap(Path, Path),
    /// The name is taken.
    Taken(Path),
    /// An earlier run set this log aside and didn't finish; it is taken up again.
    Unfinished(Path),
    /// The number of the member would pass the highest one.
    TooHigh(Path),
    /// A path that the word matches is too long to be a log's.
    LongName(Text),
    /// The word matches more logs than there is room for.
    TooMany(Text),
    /// The file has more bytes than are copied.
    TooLong(Path),
    /// A call of the machine failed; the path is the first of the call.
    Call(CallKind, Path),
    /// A program ended badly; the text is its first argument, or the mailed file.
    Script(Phase, Text, Ended),
    /// The output failed.
    Out,
}

/// The kinds of faults of configuration lines, in the order in which they apply to one line.
#[derive(Clone, Copy)]
pub enum ConfKind {
    LineTooLong,
    NotUtf8,
    OpenQuote,
    NoEndscript,
    NestedBrace,
    Unknown,
    OutsideSet,
    InsideSet,
    ScriptTwice,
    MissingValue,
    Stray,
    BadNumber,
    BadSize,
    TooLarge,
    BadFormat,
    BadMode,
    BadPath,
    NoBrace,
    NoFile,
    TooDeep,
    TooManyFiles,
    TooBig,
    /// Others than root and the one that runs the program may write the file, which isn't read.
    Writable,
}

/// The kinds of faults of the state file, in the order in which they apply.
#[derive(Clone, Copy)]
pub enum StateKind {
    TooBig,
    BadTop,
    BadName,
    BadDate,
    Twice,
}

/// Why a time zone can't be had.
#[derive(Clone, Copy)]
pub enum ZoneWhy {
    NotFile,
    TooBig,
    Refused,
}

/// The calls of the machine, as faults name them.
#[derive(Clone, Copy, Debug, PartialEq, Eq)]
pub enum CallKind {
    Begin,
    Look,
    List,
    Read,
    Rename,
    Make,
    Append,
    Truncate,
    Unlink,
    Sync,
    MakeDir,
    Run,
}

/// The programs of a rotation: its scripts, and the mail of a file.
#[derive(Clone, Copy, Debug, PartialEq, Eq)]
pub enum Phase {
    First,
    Pre,
    Post,
    Last,
    Preremove,
    Mail,
}

/// How a program ended: with an exit status, or by a signal.
#[derive(Clone, Copy, PartialEq, Eq)]
pub enum Ended {
    Exit(i32),
    Killed,
}

/// What was passed over at a line: a word, or without one the owner and group of a made file.
#[derive(Drop)]
pub struct Notice {
    pub file: Path,
    pub line: u32,
    pub word: Option<Text>,
}
