// What one line says by itself.
ghost use Rattle.std.specs.Prelude.{◌≡◌};
ghost use Rattle.lr_forms.specs.Says.{line_of, has_brace, closes_definition};

use crate::set::Set;
use lr_lex::Item;
use lr_rules::{ConfKind, Listed, Path, Phase, Text};
use lr_words::TabooItems;

/// What a line says by itself, inside a definition or outside.
#[derive(Drop)]
pub enum LineSaid {
    /// A directive that sets a field.
    Sets(Set),
    /// A directive that sets a field, with words behind it that name an owner or a group and are passed over.
    OwnerPassed(Set),
    /// A directive that sets nothing.
    Quiet,
    /// A directive that is passed over, with its word.
    Passed(Text),
    /// Names of logs, outside definitions.
    Names(Listed<Text>),
    /// A script in a definition: when it runs, its text, and whether more words stand behind its word. That it isn't
    /// built, or stands twice, or is stray, is decided by who knows the lines before it.
    Script {
        phase: Phase,
        text: Text,
        stray: bool,
    },
    /// Another file, outside definitions.
    Include(Path),
    /// A list of what is taboo, outside definitions: of patterns or of endings.
    Taboo {
        patterns: bool,
        items: TabooItems,
    },
    /// `{` alone, outside definitions.
    Open,
    /// `}` alone.
    Close,
    /// The first word is no directive.
    Unknown,
    /// Another fault of a line; outside definitions, of one that holds no names.
    Bad(ConfKind),
    /// A fault of a line of names outside definitions.
    BadNames(ConfKind),
}

/// The line where the item begins.
pub fn line_of(item: &Item) -> u32
    ensures { result ≡ line_of item.now }
{
    match item {
        Item::Line { line, .. } => *line,
        Item::Close { line } => *line,
        Item::Script { line, .. } => *line,
    }
}

/// Whether its line ends with a brace that opens.
pub fn has_brace(item: &Item) -> bool
    ensures { result ≡ has_brace item.now }
{
    match item {
        Item::Line { brace, .. } => *brace,
        Item::Close { .. } => false,
        Item::Script { brace, .. } => *brace,
    }
}

/// Whether it closes a definition.
pub fn closes(item: &Item) -> bool
    ensures { result ≡ closes_definition item.now }
{
    match item {
        Item::Close { .. } => true,
        _ => false,
    }
}
