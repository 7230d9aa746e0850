// Items and faults.
use crate::word::Word;
use lr_rules::{Listed, Text};

/// What a line of a configuration says, or a script with its text. Lines are counted from 1.
#[derive(Drop)]
pub enum Item {
    /// A line with words or a brace. `names` says that its first sign past blanks is one of a name, `/` or a quote:
    /// then the words keep their backslashes. `brace` says that its last sign outside quotes is `{`, which belongs to
    /// no word, and `stray` that another brace stands outside quotes.
    Line {
        words: Listed<Word>,
        names: bool,
        brace: bool,
        stray: bool,
        line: u32,
    },
    /// A line whose only sign past blanks is `}`.
    Close {
        line: u32,
    },
    /// A script: its word, and the lines up to its `endscript`, each with its newline. `brace` is as in a line, and
    /// `stray` says that more words stand behind the script's word. `line` is the line of the word.
    Script {
        word: Word,
        text: Text,
        brace: bool,
        stray: bool,
        line: u32,
    },
}

/// A fault, and the line that has it; of a script's text it is the line of the script's word.
#[derive(Clone, Copy)]
pub struct LexFault {
    pub line: u32,
    pub kind: LexKind,
}

#[derive(Clone, Copy)]
pub enum LexKind {
    /// A line outside scripts has more than 8,192 bytes.
    LineTooLong,
    /// A line or a script's text isn't UTF-8 or has a zero byte.
    NotUtf8,
    /// A quote doesn't close on its line.
    OpenQuote,
    /// The text ends inside a script.
    NoEndscript,
    /// Want of memory, by which nothing is lost: the same call may be made again.
    Memory,
}
