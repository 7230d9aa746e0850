//! The lines, words and scripts of a configuration of logrotate(8).
//!
//! The contract: a [`Lexer`] gives the items and faults of its text, each once and in order, and none exactly at the
//! end. What these are is a definition over the whole list of bytes, its lines first. Begin with [`Lexer::new`]. A [`Stream`]
//! gives the same of a text that comes in pieces, however it is cut.
//!
//! Space, tab and carriage return are blanks, and a word ends at a blank. Inside `"` or `'` blanks belong to the word,
//! up to the same mark on the same line. A backslash before a character stands for that character, inside quotes too;
//! at the end of a line it stands for itself. Where the first sign past blanks is `/` or a quote, the line holds names,
//! whose backslashes stay for their pattern. In any other line the first unquoted `=` is a blank where exactly one word
//! stands before it. A line of blanks alone, or one that begins with `#`, says nothing. Behind a line that begins with
//! `prerotate`, `postrotate`, `firstaction`, `lastaction` or `preremove` stands a script, up to the line `endscript`.
//!
//! ```
//! let mut lexer = Lexer::new(rt.alloc(), b"size = \"1 k\"\n");
//! // one line, of the words `size` and `1 k`
//! let item = lexer.next()?;
//! ```
#![tactic(auto)]

mod ending;
mod held;
mod item;
mod lexer;
mod line;
mod line_laws;
mod moving;
mod place;
mod reading;
mod said;
mod scan;
mod script;
mod sign;
mod split;
mod stream;
mod stream_laws;
mod stream_scan;
mod taking;
mod text;
mod word;

pub use item::{Item, LexFault, LexKind};
pub use lexer::Lexer;
pub use line_laws::{whole_line_stands, words_rise};
pub use stream::Stream;
pub use stream_laws::{items_move, whole_lines_tell};
pub use word::Word;
