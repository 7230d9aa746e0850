// The rules of logs, as a configuration gives them.
use crate::{Listed, Path, Text};

/// When a log is due, besides its sizes and ages.
#[derive(Clone, Copy)]
pub enum Criterion {
    Hourly,
    Daily,
    /// On this day of the week, with 0 for Sunday, or every seven days; 7 is every seven days alone.
    Weekly(u8),
    Monthly,
    Yearly,
    /// Above this size, in bytes.
    Size(u64),
}

/// How many members of a log are kept.
#[derive(Clone, Copy)]
pub enum Count {
    /// At most this many.
    Keep(u32),
    /// All of them.
    Always,
}

/// How a log is turned over.
#[derive(Clone, Copy)]
pub enum Way {
    Rename,
    Copy,
    CopyTruncate,
    /// The log is renamed to its path with `.tmp`, and copied from there.
    RenameCopy,
}

/// Of which moment a stamp tells: that of the run, the same time of the day before, or an hour before.
#[derive(Clone, Copy)]
pub enum Back {
    Now,
    Yesterday,
    HourAgo,
}

/// A field of a stamp.
#[derive(Clone, Copy)]
pub enum Field {
    Year,
    Month,
    Day,
    Hour,
    Minute,
    Second,
    /// The seconds since 1970.
    Epoch,
}

/// A byte of a stamp, or a field of it.
#[derive(Clone, Copy)]
pub enum Piece {
    Byte(u8),
    Field(Field),
}

/// How the stamp of a dated member is written.
#[derive(Drop)]
pub struct Format {
    pub pieces: Listed<Piece>,
    pub back: Back,
    /// Whether a name that is taken gets a serial number behind its stamp.
    pub serial: bool,
}

/// Whether a file or directory is made, and with which mode (permission bits).
#[derive(Clone, Copy)]
pub enum Make {
    No,
    Yes(Option<u32>),
}

/// The texts of the scripts of a definition.
#[derive(Drop)]
pub struct Scripts {
    pub first: Option<Text>,
    pub pre: Option<Text>,
    pub post: Option<Text>,
    pub last: Option<Text>,
    pub preremove: Option<Text>,
}

/// One definition: the words that name its logs, and what holds of them. Sizes are in bytes, ages in days.
#[derive(Drop)]
pub struct Rule {
    /// The file of the definition.
    pub file: Path,
    /// The line of its first word there, counted from 1.
    pub line: u32,
    pub words: Listed<Text>,
    pub criterion: Criterion,
    pub count: Count,
    pub maxage: Option<u32>,
    pub minage: Option<u32>,
    pub minsize: Option<u64>,
    pub maxsize: Option<u64>,
    pub ifempty: bool,
    pub missingok: bool,
    pub ignore_duplicates: bool,
    /// The number of the newest member.
    pub start: u32,
    pub extension: Option<Text>,
    pub addextension: Option<Text>,
    pub olddir: Option<Text>,
    pub createolddir: Make,
    pub way: Way,
    pub create: Make,
    pub mail: Option<Text>,
    pub mailfirst: bool,
    pub shared: bool,
    pub scripts: Scripts,
    pub dated: Option<Format>,
}

/// How the members of a log are named.
#[derive(Drop)]
pub struct Naming {
    pub dir: Path,
    pub base: Text,
    pub ext: Text,
    pub start: u32,
    pub dated: Option<Format>,
    /// Whether the log's path with `.tmp` is a name of the set, under which a log waits that is set aside.
    pub aside: bool,
}
