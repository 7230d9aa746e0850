// The rows of a text, line by line.
use crate::cursor::Cursor;
use crate::draft::{Draft, add_text, empty_draft};
use crate::key::{Key, key_of};
use crate::row::Row;
use crate::wants::Shown;
use lr_rows_line::{Trouble, words_of};
use std::alloc::Global;
use std::mem::replace;

#[derive(Drop)]
struct Reader {
    alloc: Global,
    // What stands before the first row: the configuration of the rows that have none of their own, and lines that each
    // row begins with.
    conf: Option<Vec<u8>>,
    head: Vec<Vec<u8>>,
    draft: Option<Draft>,
    rows: Vec<Row>,
}

fn empty_reader(alloc: Global) -> Reader {
    Reader {
        alloc,
        conf: None,
        head: Vec::new(alloc),
        draft: None,
        rows: Vec::new(alloc),
    }
}

// The line without the blanks at its head.
fn trimmed(line: &[u8]) -> &[u8] {
    match line.iter().position(|byte| *byte != b' ') {
        Some(at) => &line[at..],
        None => &[],
    }
}

// What stands behind the sign and a space.
fn behind_sign(line: &[u8]) -> &[u8] {
    if line.len() > 2 { &line[2..] } else { &[] }
}

// The name of the row, where the line begins one.
fn name_of(line: &[u8]) -> Option<&[u8]> {
    if line.starts_with(b"row ") {
        Some(&line[4..])
    } else {
        None
    }
}

// Takes the words of a line.
fn take_line(draft: &mut Draft, cursor: &mut Cursor, number: u32) -> Result<(), Trouble> {
    match key_of(cursor.word()?)? {
        Key::Start(key) => draft.take_start(key, cursor),
        Key::Deed(key) => draft.take_deed(key, cursor, number),
        Key::Call(key) => draft.take_call(key, cursor, number),
        Key::Want(key) => draft.wanted()?.take(key, cursor),
    }
}

// Takes the words of a line, and no others.
fn take_words(draft: &mut Draft, text: &[u8], number: u32) -> Result<(), Trouble> {
    let words = words_of(draft.alloc, text)?;
    let mut cursor = Cursor {
        alloc: draft.alloc,
        words: &words,
        taken: 0,
    };
    take_line(draft, &mut cursor, number)?;
    if cursor.is_done() {
        Ok(())
    } else {
        Err(Trouble::Odd("a word too many"))
    }
}

impl Reader {
    fn end_draft(&mut self) -> Result<(), Trouble> {
        match &mut self.draft {
            Some(draft) => draft.end(&self.conf),
            None => Ok(()),
        }
    }

    fn add_row(&mut self, draft: Draft) -> Result<(), Trouble> {
        self.rows.push(draft.row)?;
        Ok(())
    }

    fn end_row(&mut self) -> Result<(), Trouble> {
        self.end_draft()?;
        match self.draft.take() {
            Some(draft) => self.add_row(draft),
            None => Ok(()),
        }
    }

    fn take_conf(&mut self, text: &[u8]) -> Result<(), Trouble> {
        let alloc = self.alloc;
        match &mut self.draft {
            Some(draft) => Ok(add_text(alloc, &mut draft.conf, text)?),
            None => Ok(add_text(alloc, &mut self.conf, text)?),
        }
    }

    fn show(&mut self, shown: Shown, text: &[u8]) -> Result<(), Trouble> {
        match &mut self.draft {
            Some(draft) => draft.wanted()?.show(self.alloc, shown, text),
            None => Err(Trouble::Odd("no row stands before")),
        }
    }

    fn add_head(&mut self, text: &[u8]) -> Result<(), Trouble> {
        let text = Vec::from_slice(self.alloc, text)?;
        self.head.push(text)?;
        Ok(())
    }

    // A line of words: before the first row it is one that each row begins with.
    fn take_text(&mut self, text: &[u8], number: u32) -> Result<(), Trouble> {
        match &mut self.draft {
            Some(draft) => take_words(draft, text, number),
            None => self.add_head(text),
        }
    }

    fn take_head(&mut self, number: u32) -> Result<(), Trouble> {
        if let Some(draft) = &mut self.draft {
            for text in &self.head {
                take_words(draft, text.as_slice(), number)?;
            }
        }
        Ok(())
    }

    fn set_draft(&mut self, draft: Draft) {
        self.draft = Some(draft);
    }

    fn begin_row(&mut self, name: &[u8], number: u32) -> Result<(), Trouble> {
        self.end_row()?;
        self.set_draft(empty_draft(self.alloc, name, number)?);
        self.take_head(number)
    }

    fn take_signed(&mut self, sign: u8, text: &[u8], number: u32) -> Result<(), Trouble> {
        match sign {
            b'#' => Ok(()),
            b'|' => self.take_conf(behind_sign(text)),
            b'>' => self.show(Shown::Printed, behind_sign(text)),
            b'~' => self.show(Shown::Changes, behind_sign(text)),
            b'.' => self.show(Shown::Entries, behind_sign(text)),
            _ => self.take_text(text, number),
        }
    }

    fn take(&mut self, text: &[u8], number: u32) -> Result<(), Trouble> {
        match (name_of(text), text.first()) {
            (_, None) => Ok(()),
            (Some(name), _) => self.begin_row(name, number),
            (None, Some(sign)) => self.take_signed(*sign, text, number),
        }
    }

    // Takes a line; why it can't be read is noted in its row.
    fn take_or_note(&mut self, text: &[u8], number: u32) -> Result<(), Trouble> {
        match (self.take(text, number), &mut self.draft) {
            (Err(Trouble::Odd(why)), Some(draft)) => {
                draft.note(number, why);
                Ok(())
            }
            (Err(trouble), _) => Err(trouble.at(number)),
            (Ok(()), _) => Ok(()),
        }
    }

    fn take_all(&mut self, text: &[u8]) -> Result<(), Trouble> {
        let mut number = 0u32;
        for line in text.split(|byte| *byte == b'\n') {
            number = number.saturating_add(1);
            self.take_or_note(trimmed(line), number)?;
        }
        self.end_row()
    }

    fn read(&mut self, text: &[u8]) -> Result<Vec<Row>, Trouble> {
        self.take_all(text)?;
        Ok(replace(&mut self.rows, Vec::new(self.alloc)))
    }
}

/// The rows of a text, each with the first fault of its lines; trouble names a line before the first row, or is that of
/// memory.
pub fn rows_of(alloc: Global, text: &[u8]) -> Result<Vec<Row>, Trouble> {
    let mut reader = empty_reader(alloc);
    reader.read(text)
}
