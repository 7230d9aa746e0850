// What a row says.
use lr_rules::{Ended, Path, Text};

/// A file of the opening. The modification moment is in seconds since 1970, the synced length in bytes.
#[derive(Drop)]
pub struct StartFile {
    pub path: Path,
    pub bytes: Vec<u8>,
    pub mtime: i64,
    pub synced: u64,
    pub mode: Option<u32>,
}

/// The disk that a row begins with, how its programs end, and how many bytes an append takes.
#[derive(Drop)]
pub struct Start {
    pub dirs: Vec<Path>,
    pub others: Vec<Path>,
    pub files: Vec<StartFile>,
    /// More names of files, by the places of these, counted from 0.
    pub names: Vec<(Path, u64)>,
    /// Files without a name; their places are behind those of the others.
    pub nameless: Vec<Vec<u8>>,
    /// Which file a writer holds, by its place.
    pub holds: Vec<(u32, u64)>,
    pub ends: Vec<Ended>,
    pub piece: usize,
}

/// A call of the host, by its kind and path: among those of one call of the row whose line begins with this text, the
/// one with this number, counted from 1.
#[derive(Drop)]
pub struct Called {
    pub text: Vec<u8>,
    pub number: u64,
}

/// How a call fails.
#[derive(Clone, Copy)]
pub enum Mishap {
    WithoutEffect,
    WithEffect,
    /// An append leaves its first so many bytes.
    Part(usize),
    /// Nor does any later call something, until the host is revived.
    Stop,
}

/// Of the pending name changes those at these places stay, the oldest of which has place 0; and each listed file, by its
/// path in the opening, is cut to its length.
#[derive(Drop)]
pub struct Cut {
    pub kept: Vec<usize>,
    pub lengths: Vec<(Path, u64)>,
    /// Whether the machine can stop so.
    pub is_allowed: bool,
}

/// What is done to the host.
#[derive(Drop)]
pub enum What {
    Fails(Mishap),
    /// A writer takes hold of the file.
    Attaches(u32, Path),
    Feeds(u32, Vec<u8>),
    Flushes(u32),
    Detaches(u32),
    /// Where nothing has the path, a writer makes the file, with these bytes.
    MakesAnew(u32, Path, Vec<u8>),
    /// Another takes the lock, or gives it back.
    Holds(bool),
    Revives,
    Cuts(Cut),
}

/// What is done to the host before a call of the row, or before the call of the host that is named.
#[derive(Drop)]
pub struct Deed {
    /// Where it stands in the text, counted from 1.
    pub line: u32,
    pub called: Option<Called>,
    pub what: What,
}

/// Bytes that stand under exactly one name, or under one at least where they may stand under many; those that are needed
/// only before a call, if the run was stopped before it, and else under one or none.
#[derive(Drop)]
pub struct Once {
    pub bytes: Vec<u8>,
    pub is_needed: bool,
    pub may_repeat: bool,
    pub before: Option<Called>,
}

/// What is wanted of a call.
#[derive(Drop)]
pub struct Wanted {
    /// None: that of a report, 0 or 1.
    pub status: Option<u8>,
    /// None: any text.
    pub printed: Option<Vec<u8>>,
    /// All files behind the call. Those in `/etc` that aren't listed stay as they were in the opening.
    pub left: Vec<(Path, Vec<u8>)>,
    /// No file is looked at, since nothing that the call did, or that came in it, changed one.
    pub is_alone: bool,
    /// The directories behind the call that weren't in the opening.
    pub dirs: Vec<Path>,
    /// Where it has any, each other file has bytes of one of these.
    pub once: Vec<Once>,
    /// The entries of the call that change something, a line for each.
    pub changes: Option<Vec<u8>>,
    /// All entries of the call. Where there are none, no call was made.
    pub told: Option<Vec<u8>>,
    /// How many of the printed lines end with these bytes.
    pub lines: Vec<(u64, Vec<u8>)>,
    /// Whether the last fault of the report has to be that of the output.
    pub tells_out: bool,
}

/// One call of a row.
#[derive(Drop)]
pub struct Call {
    /// Where it stands in the text, counted from 1.
    pub line: u32,
    pub deeds: Vec<Deed>,
    pub failing_puts: Vec<u64>,
    pub words: Vec<Text>,
    /// Of a call below the top, in the place of the words: its name and its own words.
    pub asked: Option<Vec<Vec<u8>>>,
    pub now: i64,
    pub wanted: Wanted,
}

/// Calls of the host from one to another, those of the first call of the row; else from the first, and to the last.
#[derive(Drop)]
pub struct Span {
    pub from: Option<Called>,
    pub to: Option<Called>,
}

/// Configurations at random: so many, each of so many of these parts, or of so many bytes where there are none.
#[derive(Drop)]
pub struct RandomConf {
    pub seed: u64,
    pub count: u64,
    pub length: u64,
    pub parts: Vec<Vec<u8>>,
}

/// How a row is played.
#[derive(Drop)]
pub enum Mode {
    /// Once, as it stands.
    Plain,
    /// Once for each of these calls and each way to fail, where that call fails so.
    EachFails(Span),
    /// The first call is stopped before each of these calls in turn; then the machine is cut in each way that it can, and
    /// is revived; and the second call is made.
    EachStops(Span),
    /// Once for each put that the first call makes, where that put fails.
    EachPut,
    /// Once for each beginning of the configuration, from so many bytes to so many.
    EachBeginning(u64, u64),
    /// Once for each of these configurations.
    Random(RandomConf),
}

/// Words of the configuration, and what the program tells of them: the first stand in the place of each `@` of the row's
/// configuration, the others in that of each `@` of what its call prints.
#[derive(Drop)]
pub struct Says {
    /// Where it stands in the text, counted from 1.
    pub line: u32,
    pub said: Vec<u8>,
    pub told: Vec<u8>,
}

/// One row.
#[derive(Drop)]
pub struct Row {
    pub name: Vec<u8>,
    /// Where it stands in the text, counted from 1.
    pub line: u32,
    /// The first line of it that can't be read, and why.
    pub fault: Option<(u32, &'static str)>,
    pub mode: Mode,
    pub start: Start,
    pub calls: Vec<Call>,
    /// Where there are any, the row is played once for each.
    pub says: Vec<Says>,
}
