// The tool, as it is called each night.
use lr_cli::{Outcome, Zone, logrotate};
use lr_given::{given_text, path_of};
use lr_memhost::{MemHost, MemSink};
use lr_nights::Run;
use lr_rules::{Memory, Path, Text};
use std::alloc::Global;

/// The words of its call, and the directory from which it is called.
#[derive(Drop)]
pub struct Tool {
    words: Vec<Text>,
    here: Path,
}

impl Tool {
    /// The call with the word `/etc/c`.
    pub fn new(alloc: Global) -> Result<Tool, Memory> {
        let Ok(word) = given_text(alloc, b"/etc/c") else {
            return Err(Memory);
        };
        let Ok(here) = path_of(alloc, b"/") else {
            return Err(Memory);
        };
        let mut words = Vec::new(alloc);
        words.push(word)?;
        Ok(Tool { words, here })
    }
}

impl Run for Tool {
    fn run(&self, alloc: Global, host: &mut MemHost, now: i64) -> Result<(), Memory> {
        let mut sheet = MemSink::new(alloc, Vec::new(alloc));
        // What a disk in memory tells is the history of a disk.
        let _disk = host.journal();
        let words = self.words.as_slice();
        match logrotate(alloc, words, &self.here, &Zone::Utc, now, host, &mut sheet) {
            Outcome::OutOfMemory => Err(Memory),
            _ => Ok(()),
        }
    }
}
