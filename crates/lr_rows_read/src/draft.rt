// The row that is being read.
use crate::cursor::{Cursor, copied, texts};
use crate::key::CallKey;
use crate::row::{Call, Deed, Mode, Row, StartFile, Wanted};
use crate::start::{NOW, standard_start};
use crate::wants::standard_wanted;
use lr_rows_line::Trouble;
use lr_rules::{Path, Text};
use std::alloc::{AllocError, Global};

/// The row that is being read.
#[derive(Drop)]
pub struct Draft {
    pub alloc: Global,
    pub row: Row,
    pub conf: Option<Vec<u8>>,
    // Of the next call.
    pub deeds: Vec<Deed>,
    pub failing_puts: Vec<u64>,
    pub now: i64,
}

fn standard_words(alloc: Global) -> Result<Vec<Text>, Trouble> {
    let mut words = Vec::new(alloc);
    words.push(Text::new(alloc, b"-f")?)?;
    words.push(Text::new(alloc, b"/etc/c")?)?;
    Ok(words)
}

fn empty_row(alloc: Global, name: &[u8], line: u32) -> Result<Row, Trouble> {
    Ok(Row {
        name: Vec::from_slice(alloc, name)?,
        line,
        fault: None,
        mode: Mode::Plain,
        start: standard_start(alloc)?,
        calls: Vec::new(alloc),
        says: Vec::new(alloc),
    })
}

/// A row of this name, at this line, that says nothing yet.
pub fn empty_draft(alloc: Global, name: &[u8], line: u32) -> Result<Draft, Trouble> {
    Ok(Draft {
        alloc,
        row: empty_row(alloc, name, line)?,
        conf: None,
        deeds: Vec::new(alloc),
        failing_puts: Vec::new(alloc),
        now: NOW,
    })
}

// Adds the text and a newline.
fn add_line(into: &mut Vec<u8>, text: &[u8]) -> Result<(), AllocError> {
    into.extend_from_slice(text)?;
    Ok(into.push(b'\n')?)
}

/// Adds a line to a text that may not be there yet.
pub fn add_text(alloc: Global, text: &mut Option<Vec<u8>>, line: &[u8]) -> Result<(), AllocError> {
    let mut into = match text.take() {
        Some(into) => into,
        None => Vec::new(alloc),
    };
    let added = add_line(&mut into, line);
    *text = Some(into);
    added
}

// The words of a call, or the standard ones where the line has none.
fn call_words(alloc: Global, words: &[Vec<u8>]) -> Result<Vec<Text>, Trouble> {
    if words.is_empty() {
        standard_words(alloc)
    } else {
        texts(alloc, words)
    }
}

impl Draft {
    // A call with these words, or with the standard ones.
    fn add_call(&mut self, cursor: &mut Cursor, line: u32) -> Result<(), Trouble> {
        let words = call_words(self.alloc, cursor.rest())?;
        self.end_call(words, None, line)
    }

    fn add_bare(&mut self, line: u32) -> Result<(), Trouble> {
        self.end_call(Vec::new(self.alloc), None, line)
    }

    fn add_ask(&mut self, cursor: &mut Cursor, line: u32) -> Result<(), Trouble> {
        let asked = copied(self.alloc, cursor.rest())?;
        self.end_call(Vec::new(self.alloc), Some(asked), line)
    }

    fn end_call(
        &mut self,
        words: Vec<Text>,
        asked: Option<Vec<Vec<u8>>>,
        line: u32,
    ) -> Result<(), Trouble> {
        let alloc = self.alloc;
        let deeds = std::mem::replace(&mut self.deeds, Vec::new(alloc));
        let failing_puts = std::mem::replace(&mut self.failing_puts, Vec::new(alloc));
        self.row.calls.push(Call {
            line,
            deeds,
            failing_puts,
            words,
            asked,
            now: self.now,
            wanted: standard_wanted(alloc),
        })?;
        Ok(())
    }

    fn set_now(&mut self, cursor: &mut Cursor) -> Result<(), Trouble> {
        self.now = cursor.seconds()?;
        Ok(())
    }

    fn add_failing_put(&mut self, cursor: &mut Cursor) -> Result<(), Trouble> {
        let put = cursor.number()?;
        self.failing_puts.push(put)?;
        Ok(())
    }

    /// Takes a line of a call, or of how the row is played.
    pub fn take_call(
        &mut self,
        key: CallKey,
        cursor: &mut Cursor,
        line: u32,
    ) -> Result<(), Trouble> {
        match key {
            CallKey::Call => self.add_call(cursor, line),
            CallKey::CallBare => self.add_bare(line),
            CallKey::Ask => self.add_ask(cursor, line),
            CallKey::Now => self.set_now(cursor),
            CallKey::FailPut => self.add_failing_put(cursor),
            CallKey::EachCallFails => self.set_fails(cursor),
            CallKey::EachStopAndCut => self.set_stops(cursor),
            CallKey::EachPutFails => self.set_puts(),
            CallKey::EachBeginning => self.set_beginning(cursor),
            CallKey::RandomConf => self.set_random(cursor),
            CallKey::Says => self.add_says(cursor, line),
        }
    }

    /// What is wanted of the last call.
    pub fn wanted(&mut self) -> Result<&mut Wanted, Trouble> {
        match self.row.calls.last_mut() {
            Some(call) => Ok(&mut call.wanted),
            None => Err(Trouble::Odd("no call stands before")),
        }
    }

    /// Notes why this line can't be read, where no line before it is noted.
    pub fn note(&mut self, line: u32, why: &'static str) {
        if self.row.fault.is_none() {
            self.row.fault = Some((line, why));
        }
    }

    // The configuration, as the first file of the disk.
    fn add_conf(&mut self, bytes: Vec<u8>) -> Result<(), Trouble> {
        let path = Path::new(self.alloc, b"/etc/c")?;
        self.row.start.files.push(StartFile {
            path,
            synced: bytes.len() as u64,
            bytes,
            mtime: NOW,
            mode: None,
        })?;
        Ok(())
    }

    /// Ends the row, which has this configuration where it has none of its own.
    pub fn end(&mut self, conf: &Option<Vec<u8>>) -> Result<(), Trouble> {
        self.note_says();
        if self.row.calls.is_empty() {
            self.note(self.row.line, "the row has no call");
        }
        if !self.deeds.is_empty() || !self.failing_puts.is_empty() {
            self.note(self.row.line, "no call stands behind the last line");
        }
        match (self.conf.take(), conf) {
            (Some(own), _) => self.add_conf(own),
            (None, Some(bytes)) => self.add_conf(Vec::from_slice(self.alloc, bytes.as_slice())?),
            (None, None) => Ok(()),
        }
    }
}
