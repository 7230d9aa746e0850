// The lines of what the program tells of words of the configuration.
use crate::cursor::Cursor;
use crate::draft::Draft;
use crate::row::{Call, Mode, Row, Says};
use lr_rows_line::Trouble;

// Whether what is told stands somewhere in what the call prints.
fn shows_place(call: &Call) -> bool {
    match &call.wanted.printed {
        Some(text) => text.contains(&b'@'),
        None => false,
    }
}

// Why the row can't be played once for each of its lines, if it can't.
fn why_not(row: &Row) -> Option<&'static str> {
    match row.calls.as_slice() {
        [call] if !shows_place(call) => Some("no `@` stands in what is printed"),
        [_] if !matches!(&row.mode, Mode::Plain) => Some("a row is played in one way"),
        [_] => None,
        _ => Some("a row with `says` has one call"),
    }
}

impl Draft {
    /// `says BYTES = BYTES`.
    pub fn add_says(&mut self, cursor: &mut Cursor, line: u32) -> Result<(), Trouble> {
        let said = cursor.bytes()?;
        if !cursor.takes(b"=") {
            return Err(Trouble::Odd("`=` is wanted behind what is said"));
        }
        let told = cursor.bytes()?;
        self.row.says.push(Says { line, said, told })?;
        Ok(())
    }

    /// Notes where such lines stand in a row in which they can't.
    pub fn note_says(&mut self) {
        let Some(first) = self.row.says.first() else {
            return;
        };
        let line = first.line;
        if let Some(why) = why_not(&self.row) {
            self.note(line, why);
        }
    }
}
