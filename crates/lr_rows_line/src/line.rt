// The words of a line, by what they are to be.
use crate::digits::{number, octal, seconds, small};
use crate::trouble::Trouble;
use lr_rules::{Ended, Path, Text};
use std::alloc::Global;

/// The words of a line.
#[derive(Clone, Copy)]
pub struct Line<'a> {
    pub alloc: Global,
    pub words: &'a [Vec<u8>],
}

impl<'a> Line<'a> {
    /// The word at this place, counted from 0.
    pub fn word(self, place: usize) -> Result<&'a [u8], Trouble> {
        match self.words.get(place) {
            Some(word) => Ok(word.as_slice()),
            None => Err(Trouble::Odd("a word is missing")),
        }
    }

    /// The word behind this one.
    pub fn behind(self, name: &[u8]) -> Option<&'a [u8]> {
        let mut found = false;
        for word in self.words {
            if found {
                return Some(word.as_slice());
            }
            found = word.as_slice() == name;
        }
        None
    }

    /// The mode behind the word `mode`, if it is there.
    pub fn mode(self) -> Result<Option<u32>, Trouble> {
        match self.behind(b"mode") {
            Some(word) => Ok(Some(octal(word)?)),
            None => Ok(None),
        }
    }

    pub fn number(self, place: usize) -> Result<u64, Trouble> {
        number(self.word(place)?)
    }

    pub fn small(self, place: usize) -> Result<u32, Trouble> {
        small(self.word(place)?)
    }

    pub fn seconds(self, place: usize) -> Result<i64, Trouble> {
        seconds(self.word(place)?)
    }

    pub fn path(self, place: usize) -> Result<Path, Trouble> {
        let word = self.word(place)?;
        Ok(Path::new(self.alloc, word)?)
    }

    pub fn bytes(self, place: usize) -> Result<Vec<u8>, Trouble> {
        let word = self.word(place)?;
        Ok(Vec::from_slice(self.alloc, word)?)
    }

    /// How a program ends: `killed`, or its status.
    pub fn ended(self) -> Result<Ended, Trouble> {
        if self.behind(b"ends") == Some(b"killed".as_slice()) {
            return Ok(Ended::Killed);
        }
        match i32::try_from(self.seconds(1)?) {
            Ok(status) => Ok(Ended::Exit(status)),
            Err(_) => Err(Trouble::Odd("a number is too high")),
        }
    }

    pub fn status(self) -> Result<u8, Trouble> {
        match u8::try_from(self.number(1)?) {
            Ok(status) => Ok(status),
            Err(_) => Err(Trouble::Odd("a number is too high")),
        }
    }

    /// The words behind the first, as texts.
    pub fn texts(self) -> Result<Vec<Text>, Trouble> {
        let mut texts = Vec::new(self.alloc);
        for word in self.words.iter().skip(1) {
            texts.push(Text::new(self.alloc, word.as_slice())?)?;
        }
        Ok(texts)
    }
}
