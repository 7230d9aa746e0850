// What a line sets.
use lr_rules::{Back, Count, Criterion, Listed, Make, Phase, Piece, Text, Way};

/// What a directive sets: one field, to this value. Sizes are in bytes, ages in days.
#[derive(Drop)]
pub enum Set {
    Criterion(Criterion),
    Count(Count),
    MaxAge(u32),
    MinAge(u32),
    MinSize(u64),
    MaxSize(u64),
    IfEmpty(bool),
    MissingOk(bool),
    IgnoreDuplicates,
    /// The number of the newest member.
    Start(u32),
    Extension(Text),
    AddExtension(Text),
    Olddir(Option<Text>),
    CreateOlddir(Make),
    Way(Way),
    /// The way is set back to renames, where it is this one.
    NotWay(Way),
    Create(Make),
    Mail(Option<Text>),
    MailFirst(bool),
    Shared(bool),
    /// Whether the members have dated names.
    Dated(bool),
    /// The pieces of a stamp.
    DateFormat(Listed<Piece>),
    Back(Back),
    /// Whether a stamp that stands already gets a serial number.
    Serial(bool),
    /// The text of a script, which lines set together: by itself none does.
    Script(Phase, Text),
}
