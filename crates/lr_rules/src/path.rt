// An absolute path: `/`, or parts that each stand behind one `/`.
ghost use Rattle.std.specs.Prelude.{◌≡◌, ◌≢◌, ◌≤◌, ◌↔◌, [], ◌++◌, length, MatchResult, OnOk, IfOk, IsTrue, None, string_bytes};
ghost use Rattle.std.specs.Str.{bytes_eq};
ghost use Rattle.lr_rules.specs.Path.{path_fault, word_fault, cleaned, behind_slash, kept_parts, is_kept, joined, last_of};
ghost use Rattle.lr_rules.specs.Path.{parent_of, last_start_of, IsRefusal};

use crate::form::{fault_of, is_absolute, joined_fault};
use crate::{Memory, Text};
use std::alloc::{AllocError, Global};
use std::marker::Model;
use thiserror::Error;

/// Why bytes are no path: the first of these that applies. `Memory` is want of memory.
#[derive(Clone, Copy, Debug, PartialEq, Eq, Error)]
pub enum PathFault {
    /// The bytes aren't UTF-8.
    #[error("NotUtf8")]
    NotUtf8,
    /// There is a newline or a zero byte.
    #[error("BadByte")]
    BadByte,
    /// There are more than 4,096 bytes.
    #[error("TooLong")]
    TooLong,
    /// The first byte is no `/`.
    #[error("Relative")]
    Relative,
    /// Nothing stands between two slashes, or behind the last one.
    #[error("EmptyPart")]
    EmptyPart,
    /// A part is `.` or `..`.
    #[error("DotPart")]
    DotPart,
    #[error("Memory")]
    Memory,
}

impl PathFault {
    /// Bytes that are no path are passed over, where nothing on a disk can have them; want of memory isn't.
    pub fn passed_over(self) -> Result<(), Memory>
        ensures { OnOk result (self ≢ PathFault.Memory) }
    {
        match self {
            PathFault::Memory => Err(Memory),
            PathFault::NotUtf8 => Ok(()),
            PathFault::BadByte => Ok(()),
            PathFault::TooLong => Ok(()),
            PathFault::Relative => Ok(()),
            PathFault::EmptyPart => Ok(()),
            PathFault::DotPart => Ok(()),
        }
    }
}

/// An absolute path, in UTF-8, of at most 4,096 bytes and without newlines. Contracts see its bytes.
#[derive(Drop)]
pub struct Path {
    text: String,
}

impl Model for Path {
    ghost use Rattle.std.specs.Prelude.{List, ℕ, ◌≡◌, None, string_bytes};

    ghost Value = { List ℕ };

    ghost use Rattle.lr_rules.specs.Path.{path_fault};

    ghost view = { λ p. string_bytes p.text };

    ghost invariant = { λ p. path_fault (string_bytes p.text) ≡ None };
}

// Where the part behind the last slash begins.
fn last_start(bytes: &[u8]) -> usize
    ensures bound { result ≤ length bytes.now }
    ensures start { result ≡ last_start_of bytes.now }
{
    let mut at = bytes.len();
    while at > 0 && bytes[at - 1] != b'/' {
        at -= 1;
    }
    at
}

impl Path {
    /// The path of these bytes; a refusal is the first that applies.
    pub fn new(alloc: Global, bytes: &[u8]) -> Result<Path, PathFault>
        ensures { MatchResult result (λ path. (path ≡ bytes.now) × (path_fault bytes.now ≡ None))
            (IsRefusal (path_fault bytes.now)) }
    {
        if let Some(fault) = fault_of(bytes) {
            return Err(fault);
        }
        match bytes.to_vec(alloc) {
            Ok(bytes) => Path::from_vec(bytes),
            Err(_) => Err(PathFault::Memory),
        }
    }

    /// The path that a word of the command line or of a configuration names: a relative word stands behind `here`, and
    /// empty parts and `.` parts are dropped. A refusal is the first that applies: `Relative` for an empty word, else
    /// that of `new` for the whole path behind this cleaning.
    pub fn from_word(alloc: Global, here: &Path, word: &[u8]) -> Result<Path, PathFault>
        ensures path { MatchResult result (λ path. (path ≡ cleaned here.now word.now) × (word_fault here.now word.now ≡ None))
            (IsRefusal (word_fault here.now word.now)) }
        ensures relative { result ≡ Err PathFault.Relative → word.now ≡ [] }
        ensures no_empty_part { ¬ (result ≡ Err PathFault.EmptyPart) }
    {
        if word.is_empty() {
            return Err(PathFault::Relative);
        }
        match cleaned_bytes(alloc, here.bytes(), word) {
            Ok(bytes) => Path::from_vec(bytes),
            Err(_) => Err(PathFault::Memory),
        }
    }

    /// The directory in which the path stands; that of `/` is `/`.
    pub fn parent(&self, alloc: Global) -> Result<Path, Memory>
        ensures { IfOk result (λ path. (path ≡ parent_of self.now) × (path_fault path ≡ None)) }
    {
        match Path::new(alloc, self.parent_bytes()) {
            Ok(path) => Ok(path),
            // What stands before a slash of a path is a path, so this is want of memory.
            Err(_) => Err(Memory),
        }
    }

    /// The bytes of the path.
    pub fn bytes(&self) -> &[u8]
        ensures bytes { result.now ≡ self.now }
        ensures path { path_fault self.now ≡ None }
    {
        self.text.as_bytes()
    }

    /// The path as a text.
    pub fn as_str(&self) -> &str
        ensures { result.now ≡ self.now }
    {
        self.text.as_str()
    }

    /// The bytes behind the last slash: none of `/`.
    pub fn last(&self) -> &[u8]
        ensures { result.now ≡ last_of self.now }
    {
        let bytes = self.text.as_bytes();
        &bytes[last_start(bytes)..]
    }

    /// The part behind the last slash, as a text of its own.
    pub fn last_text(&self, alloc: Global) -> Result<Text, AllocError>
        ensures { IfOk result (λ text. text ≡ last_of self.now) }
    {
        match Text::new(alloc, self.last()) {
            Ok(text) => Ok(text),
            // The part behind an ASCII byte of a text is a text, so this is want of memory.
            Err(_) => Err(AllocError),
        }
    }

    /// The bytes of the directory: `/` for `/` and for what stands in it.
    pub fn parent_bytes(&self) -> &[u8]
        ensures { result.now ≡ parent_of self.now }
    {
        let bytes = self.text.as_bytes();
        let start = last_start(bytes);
        if start > 1 {
            &bytes[..start - 1]
        } else {
            &bytes[..start]
        }
    }

    /// The path of what stands under this name in the directory; a refusal is that of `new` for the joined bytes.
    pub fn join(&self, alloc: Global, last: &[u8]) -> Result<Path, PathFault>
        ensures { MatchResult result (λ path. (path ≡ joined self.now last.now) × (path_fault path ≡ None))
            (IsRefusal (path_fault (joined self.now last.now))) }
    {
        let dir = self.bytes();
        let Ok(name) = str::from_utf8(last) else {
            return Err(PathFault::NotUtf8);
        };
        // The directory is a path already: only the name and the length are looked at.
        if let Some(fault) = joined_fault(dir, last) {
            return Err(fault);
        }
        match joined_text(alloc, self.text.as_str(), name) {
            Ok(text) => Ok(Path { text }),
            Err(_) => Err(PathFault::Memory),
        }
    }

    /// The path with these bytes behind it.
    pub fn with_end(&self, alloc: Global, end: &[u8]) -> Result<Path, Memory>
        requires { path_fault self.now ≡ None → path_fault (self.now ++ end.now) ≡ None }
        ensures path { IfOk result (λ path. (path ≡ self.now ++ end.now) × (path_fault path ≡ None)) }
        ensures known { path_fault self.now ≡ None }
    {
        let bytes = bytes_with_end(alloc, self.bytes(), end)?;
        match Path::from_vec(bytes) {
            Ok(path) => Ok(path),
            Err(why) => Err(lacks_memory(why)),
        }
    }

    fn from_vec(bytes: Vec<u8>) -> Result<Path, PathFault>
        ensures { MatchResult result (λ path. (path ≡ bytes.items) × (path_fault path ≡ None))
            (IsRefusal (path_fault bytes.items)) }
    {
        match String::from_utf8(bytes) {
            Err(_) => Err(PathFault::NotUtf8),
            Ok(text) => match fault_of(text.as_bytes()) {
                Some(fault) => Err(fault),
                None => Ok(Path { text }),
            },
        }
    }

    /// An equal path.
    pub fn copy(&self, alloc: Global) -> Result<Path, AllocError>
        ensures { IfOk result (λ path. path ≡ self.now) }
    {
        Ok(Path {
            text: String::from_str(alloc, self.text.as_str())?,
        })
    }

    /// Whether these are the bytes of the path.
    pub fn has_bytes(&self, bytes: &[u8]) -> bool
        ensures { result ≡ bytes_eq bytes.now self.now }
    {
        bytes == self.text.as_bytes()
    }

    /// Whether both are the same path.
    pub fn is(&self, other: &Path) -> bool
        ensures same { IsTrue result ↔ (self.now ≡ other.now) }
        ensures test { result ≡ bytes_eq self.now other.now }
    {
        self.text.as_bytes() == other.text.as_bytes()
    }
}

// The first bytes and the others behind them.
fn bytes_with_end(alloc: Global, bytes: &[u8], end: &[u8]) -> Result<Vec<u8>, AllocError>
    ensures { IfOk result (λ all. all.items ≡ bytes.now ++ end.now) }
{
    let mut all = bytes.to_vec(alloc)?;
    all.extend_from_slice(end)?;
    Ok(all)
}

// Of bytes that are a path a refusal is want of memory.
fn lacks_memory(why: PathFault) -> Memory
    requires { why ≡ PathFault.Memory }
{
    let _why = why;
    Memory
}

// The text of a name in a directory.
fn joined_text(alloc: Global, dir: &str, name: &str) -> Result<String, AllocError>
    ensures { IfOk result (λ text. string_bytes text ≡ joined dir.now name.now) }
{
    let mut text = String::new(alloc);
    text.reserve(dir.len() + 1 + name.len())?;
    if dir.len() != 1 {
        text.push_str(dir)?;
    }
    text.push_str("/")?;
    text.push_str(name)?;
    Ok(text)
}

// Whether a part of a word is a part of its path: it is neither empty nor `.`.
fn part_kept(part: &[u8]) -> bool
    ensures { result ≡ is_kept part.now }
{
    match part {
        [] => false,
        [one] => *one != b'.',
        _ => true,
    }
}

// Adds a part behind a slash, where it is kept.
fn add_part(into: &mut Vec<u8>, part: &[u8]) -> Result<(), AllocError>
    ensures { OnOk result (into.new.items ≡ into.old.items ++ behind_slash part.now) }
{
    if part_kept(part) {
        into.push(b'/')?;
        into.extend_from_slice(part)?;
    }
    Ok(())
}

// Adds the parts that are kept, each behind a slash.
fn add_parts(into: &mut Vec<u8>, bytes: &[u8]) -> Result<(), AllocError>
    ensures { OnOk result (into.new.items ≡ into.old.items ++ kept_parts bytes.now) }
{
    for part in bytes.split(|b| *b == b'/') {
        add_part(into, part)?;
    }
    Ok(())
}

// The bytes of the path that a word names.
fn cleaned_bytes(alloc: Global, here: &[u8], word: &[u8]) -> Result<Vec<u8>, AllocError>
    ensures { IfOk result (λ bytes. bytes.items ≡ cleaned here.now word.now) }
{
    let mut bytes = Vec::new(alloc);
    if !is_absolute(word) {
        add_parts(&mut bytes, here)?;
    }
    add_parts(&mut bytes, word)?;
    if bytes.is_empty() {
        bytes.push(b'/')?;
    }
    Ok(bytes)
}
