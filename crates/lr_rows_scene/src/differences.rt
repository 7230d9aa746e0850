// What differs, as a text.
use lr_rows_line::put_quoted;
use std::alloc::{AllocError, Global};

/// What differs, as a text with a line for each; empty where nothing does.
#[derive(Drop)]
pub struct Differences {
    alloc: Global,
    text: Vec<u8>,
}

impl Differences {
    /// Nothing differs so far.
    pub fn new(alloc: Global) -> Differences {
        Differences {
            alloc,
            text: Vec::new(alloc),
        }
    }

    /// What differs, as a text.
    pub fn into_text(self) -> Vec<u8> {
        self.text
    }

    fn put(&mut self, text: &[u8]) -> Result<(), AllocError> {
        self.text.extend_from_slice(text)
    }

    /// What was found in the place of what was wanted.
    pub fn add(&mut self, what: &[u8], found: &[u8], wanted: &[u8]) -> Result<(), AllocError> {
        self.put(b"\n    ")?;
        self.put(what)?;
        self.put(b" ")?;
        put_quoted(&mut self.text, found)?;
        self.put(b", wanted ")?;
        put_quoted(&mut self.text, wanted)
    }

    /// The same, where they differ.
    pub fn compare(&mut self, what: &[u8], found: &[u8], wanted: &[u8]) -> Result<(), AllocError> {
        if found == wanted {
            Ok(())
        } else {
            self.add(what, found, wanted)
        }
    }

    /// Numbers, where they differ.
    pub fn count(&mut self, what: &[u8], found: u64, wanted: u64) -> Result<(), AllocError> {
        if found == wanted {
            return Ok(());
        }
        let found = format!(in self.alloc; "{found}")?;
        let wanted = format!(in self.alloc; "{wanted}")?;
        self.add(what, found.as_bytes(), wanted.as_bytes())
    }
}
