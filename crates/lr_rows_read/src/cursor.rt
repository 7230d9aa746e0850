// The words of a line, one behind the other.
use lr_rows_line::{Trouble, number, octal, seconds, small};
use lr_rules::{Ended, Path, Text};
use std::alloc::Global;

/// The words of a line, of which the first so many were taken.
#[derive(Drop)]
pub struct Cursor<'a> {
    pub alloc: Global,
    pub words: &'a [Vec<u8>],
    pub taken: usize,
}

impl<'a> Cursor<'a> {
    // The next word, if there is one.
    fn next(&self) -> Option<&'a [u8]> {
        match self.words.get(self.taken) {
            Some(word) => Some(word.as_slice()),
            None => None,
        }
    }

    fn step(&mut self) {
        self.taken = self.taken.saturating_add(1);
    }

    /// Takes the next word.
    pub fn word(&mut self) -> Result<&'a [u8], Trouble> {
        match self.next() {
            Some(word) => {
                self.step();
                Ok(word)
            }
            None => Err(Trouble::Odd("a word is missing")),
        }
    }

    /// Takes the next word where it is this one.
    pub fn takes(&mut self, wanted: &[u8]) -> bool {
        let is_next = self.is_next(wanted);
        if is_next {
            self.step();
        }
        is_next
    }

    /// Whether the next word is this one.
    pub fn is_next(&self, wanted: &[u8]) -> bool {
        self.next() == Some(wanted)
    }

    /// Whether all words were taken.
    pub fn is_done(&self) -> bool {
        self.taken >= self.words.len()
    }

    /// Takes a number.
    pub fn number(&mut self) -> Result<u64, Trouble> {
        number(self.word()?)
    }

    /// Takes the next word where it is a number, and else gives the other one.
    pub fn number_or(&mut self, otherwise: u64) -> u64 {
        match self.next() {
            Some(word) => match number(word) {
                Ok(value) => {
                    self.step();
                    value
                }
                Err(_) => otherwise,
            },
            None => otherwise,
        }
    }

    /// Takes a number below 2 ^ 32.
    pub fn small(&mut self) -> Result<u32, Trouble> {
        small(self.word()?)
    }

    /// Takes seconds, maybe behind a minus sign.
    pub fn seconds(&mut self) -> Result<i64, Trouble> {
        seconds(self.word()?)
    }

    /// Takes a mode.
    pub fn octal(&mut self) -> Result<u32, Trouble> {
        octal(self.word()?)
    }

    /// Takes a path.
    pub fn path(&mut self) -> Result<Path, Trouble> {
        Ok(Path::new(self.alloc, self.word()?)?)
    }

    /// Takes any bytes.
    pub fn bytes(&mut self) -> Result<Vec<u8>, Trouble> {
        Ok(Vec::from_slice(self.alloc, self.word()?)?)
    }

    /// Takes a number below 256.
    pub fn status(&mut self) -> Result<u8, Trouble> {
        match u8::try_from(self.number()?) {
            Ok(status) => Ok(status),
            Err(_) => Err(Trouble::Odd("a number is too high")),
        }
    }

    /// How a program ends: `killed`, or its status.
    pub fn ended(&mut self) -> Result<Ended, Trouble> {
        if self.takes(b"killed") {
            return Ok(Ended::Killed);
        }
        match i32::try_from(self.seconds()?) {
            Ok(status) => Ok(Ended::Exit(status)),
            Err(_) => Err(Trouble::Odd("a number is too high")),
        }
    }

    /// The words that are left.
    pub fn rest(&mut self) -> &'a [Vec<u8>] {
        let from = self.taken.min(self.words.len());
        self.taken = self.words.len();
        &self.words[from..]
    }
}

/// The words, as texts.
pub fn texts(alloc: Global, words: &[Vec<u8>]) -> Result<Vec<Text>, Trouble> {
    let mut texts = Vec::new(alloc);
    for word in words {
        texts.push(Text::new(alloc, word.as_slice())?)?;
    }
    Ok(texts)
}

/// The words, copied.
pub fn copied(alloc: Global, words: &[Vec<u8>]) -> Result<Vec<Vec<u8>>, Trouble> {
    let mut all = Vec::new(alloc);
    for word in words {
        all.push(Vec::from_slice(alloc, word.as_slice())?)?;
    }
    Ok(all)
}
