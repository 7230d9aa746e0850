//! Worked rows as data: the text that rows are written in. `docs/ROWS.md` says how rows are written.
//!
//! Begin with `rows_of`, which reads the rows of a text. A row that can't be read is among them, with its fault, so that
//! the rows behind it are read as well.
#![tactic(auto)]

mod called;
mod cursor;
mod deeds;
mod draft;
mod key;
mod modes;
mod reader;
mod row;
mod says;
mod start;
mod wants;

pub use cursor::Cursor;
pub use reader::rows_of;
pub use row::{
    Call, Called, Cut, Deed, Mishap, Mode, Once, RandomConf, Row, Says, Span, Start, StartFile,
    Wanted, What,
};
