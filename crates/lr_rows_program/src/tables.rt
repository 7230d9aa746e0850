// Tables: notes, texts with a name, and calls that need no host, each with what it answers.
use anyhow::Result;
use lr_rows_line::{Trouble, put_quoted, words_of};
use lr_rows_read::Cursor;
use lr_rows_words::{Answer, answer};
use std::alloc::Global;
use std::fs;

// How a line came out.
#[derive(Drop)]
enum Came {
    // It is no call.
    Note,
    Right,
    // The answer is another: both, as they are printed.
    Differs(Vec<u8>),
}

#[derive(Drop)]
struct Named {
    name: Vec<u8>,
    bytes: Vec<u8>,
}

// The texts that a table has named so far.
#[derive(Drop)]
struct Texts {
    alloc: Global,
    all: Vec<Named>,
}

impl Texts {
    fn bytes(&self, name: &[u8]) -> Result<&[u8], Trouble> {
        for named in self.all.iter() {
            if named.name.as_slice() == name {
                return Ok(named.bytes.as_slice());
            }
        }
        Err(Trouble::Odd("no such text"))
    }

    // What the word stands for: behind `$` the bytes of the text with this name, else itself.
    fn meant<'a>(&'a self, word: &'a [u8]) -> Result<&'a [u8], Trouble> {
        match word {
            [b'$', name @ ..] => self.bytes(name),
            _ => Ok(word),
        }
    }

    // The words of the line, with the bytes of texts in place of their names.
    fn words(&self, line: &[u8]) -> Result<Vec<Vec<u8>>, Trouble> {
        let words = words_of(self.alloc, line)?;
        let mut all = Vec::new(self.alloc);
        for word in words.iter() {
            all.push(Vec::from_slice(self.alloc, self.meant(word)?)?)?;
        }
        Ok(all)
    }

    // Adds the parts to the last text.
    fn add(&mut self, parts: &[Vec<u8>]) -> Result<(), Trouble> {
        let Some(named) = self.all.last_mut() else {
            return Err(Trouble::Odd("no text stands before"));
        };
        for part in parts {
            named.bytes.extend_from_slice(part)?;
        }
        Ok(())
    }

    // Takes the name and the parts of a new text.
    fn take(&mut self, words: &[Vec<u8>]) -> Result<(), Trouble> {
        let [name, parts @ ..] = words else {
            return Err(Trouble::Odd("a name is missing"));
        };
        if self.bytes(name).is_ok() {
            return Err(Trouble::Odd("a text has this name"));
        }
        let named = Named {
            name: Vec::from_slice(self.alloc, name)?,
            bytes: Vec::new(self.alloc),
        };
        self.all.push(named)?;
        self.add(parts)
    }
}

fn compared(alloc: Global, found: &[u8], wanted: &[u8]) -> Result<Came, Trouble> {
    if found == wanted {
        return Ok(Came::Right);
    }
    let mut text = Vec::new(alloc);
    put_quoted(&mut text, found)?;
    text.extend_from_slice(b", wanted ")?;
    put_quoted(&mut text, wanted)?;
    Ok(Came::Differs(text))
}

// The line's call is made, and its answer compared with its last word.
fn asked(alloc: Global, words: &[Vec<u8>]) -> Result<Came, Trouble> {
    let [front @ .., sign, wanted] = words else {
        return Err(Trouble::Odd("`=` and an answer are wanted at the end"));
    };
    if sign.as_slice() != b"=".as_slice() {
        return Err(Trouble::Odd("`=` and an answer are wanted at the end"));
    }
    let mut cursor = Cursor {
        alloc,
        words: front,
        taken: 0,
    };
    let mut found = Answer::new(alloc);
    answer(&mut cursor, &mut found)?;
    if !found.is_whole() {
        return Err(Trouble::Memory);
    }
    compared(alloc, found.text().as_bytes(), wanted)
}

// What the words of a line come to.
fn said(texts: &mut Texts, words: &[Vec<u8>]) -> Result<Came, Trouble> {
    let [first, rest @ ..] = words else {
        return Ok(Came::Note);
    };
    match str::from_utf8(first).unwrap_or("") {
        "text" => texts.take(rest)?,
        "+" => texts.add(rest)?,
        _ => return asked(texts.alloc, words),
    }
    Ok(Came::Note)
}

// How the line came out; a text that it names stays named.
fn came_of(texts: &mut Texts, line: &[u8]) -> Result<Came, Trouble> {
    if line.starts_with(b"#") {
        return Ok(Came::Note);
    }
    let words = texts.words(line)?;
    said(texts, &words)
}

// What is printed of the line, and whether it is as it should be: where lines are wrong, it differs or is refused.
fn judged(came: &Result<Came, Trouble>, wrong: bool) -> (Option<&str>, bool) {
    match came {
        Ok(Came::Note) => (None, true),
        Ok(Came::Right) if wrong => (Some("as wanted"), false),
        Ok(Came::Right) => (None, true),
        Ok(Came::Differs(text)) => (Some(str::from_utf8(text).unwrap_or("?")), wrong),
        Err(Trouble::Odd(why)) => (Some(*why), wrong),
        Err(_) => (Some("no memory"), false),
    }
}

// What is known of a table so far.
#[derive(Clone, Copy)]
struct Tally {
    line: u32,
    calls: u32,
    all: bool,
}

// Takes a line in, and prints what is to be told of it.
fn tell_line(
    rt: &HostRuntime,
    name: &str,
    wrong: bool,
    tally: &mut Tally,
    came: &Result<Came, Trouble>,
) -> Result<()> {
    tally.line = tally.line.saturating_add(1);
    if !matches!(came, Ok(Came::Note)) {
        tally.calls = tally.calls.saturating_add(1);
    }
    let (told, is_well) = judged(came, wrong);
    tally.all = tally.all && is_well;
    if let Some(told) = told {
        let line = tally.line;
        println!(rt; "{name}:{line}: {told}")?;
    }
    Ok(())
}

fn tell_lines(rt: &HostRuntime, name: &str, wrong: bool, text: &[u8]) -> Result<Tally> {
    let mut texts = Texts {
        alloc: rt.alloc(),
        all: Vec::new(rt.alloc()),
    };
    let mut tally = Tally {
        line: 0,
        calls: 0,
        all: true,
    };
    for line in text.split(|byte| *byte == b'\n') {
        let came = came_of(&mut texts, line);
        tell_line(rt, name, wrong, &mut tally, &came)?;
    }
    Ok(tally)
}

/// Prints the lines of the file that differ or are none, and how many calls it has. Whether all lines are as they should be.
pub fn tell_table(rt: &HostRuntime, name: &str, wrong: bool) -> Result<bool> {
    let text = fs::read(rt, name)?;
    let tally = tell_lines(rt, name, wrong, &text)?;
    println!(rt; "{name}: {}", tally.calls)?;
    Ok(tally.all)
}
