// What is still to be read.
use lr_lex::Item;
use lr_rules::{ConfKind, Fault, Path};

/// A path that a line of a file asks for. A path of the command line is asked for at line 0 of itself.
#[derive(Drop)]
pub struct Ask {
    pub file: Path,
    pub line: u32,
    pub path: Path,
}

/// A piece of a file.
#[derive(Drop)]
pub enum ReadPiece {
    Item(Item),
    /// A line with a fault that its reading told.
    Fault(u32, ConfKind),
    /// The end of the file.
    End,
    /// The place where its reading breaks off, with the fault that tells why.
    Break(Fault),
}

/// What is still to be read.
#[derive(Drop)]
pub enum Task {
    /// A piece of the file that is read.
    Line(ReadPiece),
    /// A path that is asked for.
    Ask(Ask),
    /// The path of a name in a directory.
    Name(Ask),
}
