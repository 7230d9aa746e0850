// Whether a journal has what was drawn.
ghost use Rattle.std.specs.Prelude.{◌≡◌, ◌↔◌, [], ◌∷◌, ◌++◌, map, replicate, flat_map, All, IsTrue, IfSome};
ghost use Rattle.lr_host.specs.declared.entry.Entry.{Entry};
ghost use Rattle.lr_nights.specs.Month.{entry_of, feeds_in, is_feed, IsStartAt, HasStartAt};

use crate::month::{Fed, Night};
use lr_host::Entry;

// Whether the run of the night began so.
fn is_start_of(entry: &Entry, night: &Night) -> bool
    ensures { IsTrue result ↔ IsStartAt night.now.seconds entry.now }
{
    match entry {
        Entry::Starts {
            state: _,
            now: moment,
            rules: _,
        } => moment.seconds == night.seconds,
        _ => false,
    }
}

fn has_start_of(entries: &[Entry], night: &Night) -> bool
    ensures { IsTrue result → HasStartAt night.now.seconds entries.now }
{
    entries.iter().any(|entry| is_start_of(entry, night))
}

/// Whether a run began at each of the nights.
pub fn has_starts(entries: &[Entry], nights: &[Night]) -> bool
    ensures { IsTrue result → All (λ night. HasStartAt night.seconds entries.now) nights.now }
{
    for night in nights {
        if !has_start_of(entries, night) {
            return false;
        }
    }
    true
}

// Whether these are so many bytes, all this letter.
fn are_letters(bytes: &[u8], count: u32, letter: u8) -> bool
    ensures { IsTrue result → bytes.now ≡ replicate count letter }
{
    for byte in bytes {
        if *byte != letter {
            return false;
        }
    }
    bytes.len() == count as usize
}

fn is_feed(entry: &Entry) -> bool
    ensures { result ≡ is_feed entry.now }
{
    match entry {
        Entry::Feed {
            writer: _,
            bytes: _,
            at: _,
        } => true,
        _ => false,
    }
}

// Whether it is what this writer appended.
fn is_of(entry: &Entry, fed: &Fed) -> bool
    ensures { IsTrue result → entry.now ≡ entry_of fed.now }
{
    match entry {
        Entry::Feed { writer, bytes, at } => {
            *writer == fed.writer
                && *at == fed.at
                && are_letters(bytes.as_slice(), fed.count, fed.letter)
        }
        _ => false,
    }
}

// What stands behind the first bytes that a writer appended; None where there are none or others.
fn behind_fed<'a>(entries: &'a [Entry], fed: &Fed) -> Option<&'a [Entry]>
    ensures { IfSome result (λ rest. feeds_in entries.now ≡ entry_of fed.now ∷ feeds_in rest.now) }
{
    for at in 0..entries.len() {
        if is_feed(&entries[at]) {
            return if is_of(&entries[at], fed) {
                Some(&entries[at + 1..])
            } else {
                None
            };
        }
    }
    None
}

// What stands behind all that the writers appended in a night.
fn behind_night<'a>(entries: &'a [Entry], feeds: &[Fed]) -> Option<&'a [Entry]>
    ensures { IfSome result (λ rest. feeds_in entries.now ≡ map entry_of feeds.now ++ feeds_in rest.now) }
{
    let mut rest = entries;
    for fed in feeds {
        rest = behind_fed(rest, fed)?;
    }
    Some(rest)
}

// What stands behind all that the writers appended in these nights.
fn behind_nights<'a>(entries: &'a [Entry], nights: &[Night]) -> Option<&'a [Entry]>
    ensures { IfSome result (λ rest. feeds_in entries.now ≡ flat_map (λ night. map entry_of night.feeds) nights.now
        ++ feeds_in rest.now) }
{
    let mut rest = entries;
    for night in nights {
        rest = behind_night(rest, night.feeds.as_slice())?;
    }
    Some(rest)
}

// Whether no writer appended anything.
fn has_no_feed(entries: &[Entry]) -> bool
    ensures { IsTrue result → feeds_in entries.now ≡ [] }
{
    for entry in entries {
        if is_feed(entry) {
            return false;
        }
    }
    true
}

/// Whether writers appended, in order, what they append in these nights, and nothing else.
pub fn are_fed(entries: &[Entry], nights: &[Night]) -> bool
    ensures { IsTrue result → feeds_in entries.now ≡ flat_map (λ night. map entry_of night.feeds) nights.now }
{
    match behind_nights(entries, nights) {
        Some(rest) => has_no_feed(rest),
        None => false,
    }
}
