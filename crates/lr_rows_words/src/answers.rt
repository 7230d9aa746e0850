// What a call answers, and the words that calls take alike.
use lr_rows_line::Trouble;
use lr_rows_read::Cursor;
use lr_rules::Text;
use std::alloc::Global;
use std::fmt::Display;

/// A text, to which parts are put. A part for which there is no memory is left out, and then the text isn't whole: so what
/// puts has no way out of its own.
#[derive(Drop)]
pub struct Answer {
    text: String,
    whole: bool,
}

impl Answer {
    pub fn new(alloc: Global) -> Answer {
        Answer {
            text: String::new(alloc),
            whole: true,
        }
    }

    pub fn text(&self) -> &str {
        self.text.as_str()
    }

    pub fn is_whole(&self) -> bool {
        self.whole
    }

    /// There was no memory for a part.
    pub fn starve(&mut self) {
        self.whole = false;
    }

    pub fn put<D: Display + Drop>(&mut self, part: D) {
        if write!(self.text, "{part}").is_err() {
            self.starve();
        }
    }
}

/// How an answer has it.
pub fn yes(is_so: bool) -> &'static str {
    if is_so { "yes" } else { "no" }
}

/// The bytes of a text, as an answer has them.
pub fn shown(bytes: &[u8]) -> &str {
    str::from_utf8(bytes).unwrap_or("no text")
}

/// The next word, as a text.
pub fn text(cursor: &mut Cursor) -> Result<Text, Trouble> {
    Ok(Text::new(cursor.alloc, cursor.word()?)?)
}

/// The words that are left, as texts.
pub fn texts(cursor: &mut Cursor) -> Result<Vec<Text>, Trouble> {
    let mut texts = Vec::new(cursor.alloc);
    for word in cursor.rest() {
        texts.push(Text::new(cursor.alloc, word)?)?;
    }
    Ok(texts)
}

/// Whether the next word is the second of these; it has to be one of them.
pub fn is_second(cursor: &mut Cursor, first: &[u8], second: &[u8]) -> Result<bool, Trouble> {
    if cursor.takes(first) {
        return Ok(false);
    }
    if cursor.takes(second) {
        return Ok(true);
    }
    Err(Trouble::Odd("another word is wanted"))
}
