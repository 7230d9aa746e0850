// Paths that words name.
ghost use Rattle.std.specs.Prelude.{◌≡◌, ◌&&◌, not, IfOk};
ghost use Rattle.lr_rules.specs.Limits.{is_olddir};
ghost use Rattle.lr_rules.specs.Path.{has_bad_byte, root};
ghost use Rattle.lr_words.specs.Names.{path_named, include_value};
ghost use Rattle.lr_words.specs.Words.{is_climb, has_climb, olddir_value};

use crate::digits::empty;
use lr_rules::{ConfKind, Memory, Path, PathFault, Text, has_bad_byte, is_absolute};
use std::alloc::Global;

fn root_path(alloc: Global) -> Result<Path, Memory>
    ensures { IfOk result (λ path. path ≡ root) }
{
    match Path::new(alloc, b"/") {
        Ok(path) => Ok(path),
        Err(_) => Err(Memory),
    }
}

/// The path that an absolute word names; none where it names none.
pub(crate) fn path_named(alloc: Global, word: &[u8]) -> Result<Option<Path>, Memory>
    ensures { IfOk result (λ path. path ≡ path_named word.now) }
{
    if !is_absolute(word) {
        return Ok(None);
    }
    let root = root_path(alloc)?;
    match Path::from_word(alloc, &root, word) {
        Ok(path) => Ok(Some(path)),
        Err(PathFault::Memory) => Err(Memory),
        Err(_) => Ok(None),
    }
}

/// The path of an `include`, without empty parts and `.` parts. BadPath: it is relative, or no path.
#[tactic(auto, unfolding(crate::specs::Names::include_value))]
pub fn include_path(alloc: Global, word: &[u8]) -> Result<Result<Path, ConfKind>, Memory>
    ensures { IfOk result (λ r. r ≡ include_value word.now) }
{
    match path_named(alloc, word)? {
        Some(path) => Ok(Ok(path)),
        None => Ok(Err(ConfKind::BadPath)),
    }
}

fn climbs(part: &[u8]) -> bool
    ensures { result ≡ is_climb part.now }
{
    match part {
        [one, two] => *one == b'.' && *two == b'.',
        _ => false,
    }
}

fn has_climb(word: &[u8]) -> bool
    ensures { result ≡ has_climb word.now }
{
    word.split(|b| *b == b'/').any(climbs)
}

// Whether what the word names from a directory on is a path, its length left aside.
fn names_path(word: &[u8]) -> bool
    ensures { result ≡ (not (has_bad_byte word.now) && not (has_climb word.now)) }
{
    !has_bad_byte(word) && !has_climb(word)
}

#[tactic(auto, using(crate::proofs::Olddirs::from_word))]
fn is_olddir(word: &[u8]) -> bool
    ensures { result ≡ is_olddir word.now }
{
    names_path(word) && word.len() <= 512
}

/// The directory of `olddir`, as it is written: absolute, or from the log's directory on. BadPath: it is empty, has more
/// than 512 bytes, or what it names is no path.
#[tactic(auto, unfolding(crate::specs::Words::olddir_value))]
pub fn olddir(alloc: Global, word: &Text) -> Result<Result<Text, ConfKind>, Memory>
    ensures { IfOk result (λ r. r ≡ olddir_value word.now) }
{
    let bytes = word.bytes();
    if !empty(bytes) && is_olddir(bytes) {
        Ok(Ok(word.copy(alloc)?))
    } else {
        Ok(Err(ConfKind::BadPath))
    }
}
