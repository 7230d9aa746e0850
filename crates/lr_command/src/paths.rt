// The paths that values and words name.
ghost use Rattle.std.specs.Prelude.{◌≡◌, ◌≢◌, ◌++◌, ◌∷◌, [], IfOk, OnOk, map, option_map, true, false};
ghost use Rattle.std.specs.List.{list_all};
ghost use Rattle.lr_rules.specs.Path.{cleaned};
ghost use Rattle.lr_rules.specs.StatePath.{can_be_state};
ghost use Rattle.lr_command.specs.Words.{has_state, is_name, is_option, is_path, mail_program, may_be_path, path_or, state_by};

use crate::request::WordsFault;
use lr_rules::{Listed, Memory, Path, PathFault, Text};
use std::alloc::Global;

// The path of the state file, where no other is named.
const STATE: &[u8] = b"/var/lib/logrotate/status";

// The path of the program that mails files, where no other is named.
const MAILER: &[u8] = b"/usr/bin/mail";

// The path that the word names.
fn path_of(alloc: Global, here: &Path, word: &str) -> Result<Path, WordsFault>
    ensures path { IfOk result (λ path. path ≡ cleaned here.now word.now) }
    ensures is_path { IfOk result (λ path. is_path here.now word.now ≡ true) }
    ensures refused { result ≡ Err WordsFault.Refused → is_path here.now word.now ≡ false }
{
    match Path::from_word(alloc, here, word.as_bytes()) {
        Ok(path) => Ok(path),
        Err(PathFault::Memory) => Err(WordsFault::Memory),
        Err(_) => Err(WordsFault::Refused),
    }
}

// The path of these bytes, which are those of one.
fn path_with(alloc: Global, path: &[u8]) -> Result<Path, WordsFault>
    ensures path { IfOk result (λ made. made ≡ path.now) }
    ensures memory { result ≢ Err WordsFault.Refused }
{
    match Path::new(alloc, path) {
        Ok(path) => Ok(path),
        // So this is want of memory.
        Err(_) => Err(WordsFault::Memory),
    }
}

// The path that the value names, else this other one, whose bytes are those of a path.
fn path_or(
    alloc: Global,
    here: &Path,
    other: &[u8],
    value: Option<&str>,
) -> Result<Path, WordsFault>
    ensures path { IfOk result (λ path. path ≡ path_or here.now other.now (option_map (λ s. s.now) value.entry)) }
    ensures is_path { IfOk result (λ path. may_be_path here.now (option_map (λ s. s.now) value.entry) ≡ true) }
    ensures refused { result ≡ Err WordsFault.Refused → may_be_path here.now (option_map (λ s. s.now) value.entry) ≡ false }
{
    match value {
        Some(word) => path_of(alloc, here, word),
        None => path_with(alloc, other),
    }
}

// Adds the path that the word names.
fn add_path(alloc: Global, here: &Path, paths: &mut Vec<Path>, word: &str) -> Result<(), WordsFault>
    ensures path { OnOk result (paths.new.items ≡ paths.old.items ++ cleaned here.now word.now ∷ []) }
    ensures is_path { OnOk result (is_path here.now word.now ≡ true) }
    ensures refused { result ≡ Err WordsFault.Refused → is_path here.now word.now ≡ false }
{
    let path = path_of(alloc, here, word)?;
    match paths.push(path) {
        Ok(()) => Ok(()),
        Err(_) => Err(WordsFault::Memory),
    }
}

/// The paths that the words name, in order.
pub fn paths_of(alloc: Global, here: &Path, words: &[&str]) -> Result<Listed<Path>, WordsFault>
    ensures paths { IfOk result (λ paths. paths ≡ map (cleaned here.now) (map (λ s. s.now) words.now)) }
    ensures are_paths { IfOk result (λ paths. list_all (is_path here.now) (map (λ s. s.now) words.now) ≡ true) }
    ensures refused { result ≡ Err WordsFault.Refused → list_all (is_path here.now) (map (λ s. s.now) words.now) ≡ false }
{
    let mut paths = Vec::new(alloc);
    for word in words {
        add_path(alloc, here, &mut paths, word)?;
    }
    Ok(Listed::from_vec(paths))
}

fn is_option(word: &[u8]) -> bool
    ensures { result ≡ is_option word.now }
{
    match word {
        [] => false,
        [first, ..] => *first == b'-',
    }
}

/// The path that the word names, which is no option: it doesn't begin with `-`.
pub fn name_of(alloc: Global, here: &Path, word: &Text) -> Result<Path, WordsFault>
    ensures path { IfOk result (λ path. path ≡ cleaned here.now word.now) }
    ensures is_name { IfOk result (λ path. is_name here.now word.now ≡ true) }
    ensures refused { result ≡ Err WordsFault.Refused → is_name here.now word.now ≡ false }
{
    if is_option(word.bytes()) {
        return Err(WordsFault::Refused);
    }
    path_of(alloc, here, word.as_str())
}

// Whether a state file may have the path: it has at most 4,000 bytes, and a last part.
fn can_be_state(path: &Path) -> bool
    ensures { result ≡ can_be_state path.now }
{
    path.bytes().len() <= 4000 && path.last().len() >= 1
}

/// The path of the state file: what the value names, else `/var/lib/logrotate/status`.
pub fn state_of(alloc: Global, here: &Path, file: Option<&str>) -> Result<Path, WordsFault>
    ensures path { IfOk result (λ path. path ≡ state_by here.now (option_map (λ s. s.now) file.entry)) }
    ensures has_state { IfOk result (λ path. has_state here.now (option_map (λ s. s.now) file.entry) ≡ true) }
    ensures fits { IfOk result (λ path. can_be_state path ≡ true) }
    ensures refused { result ≡ Err WordsFault.Refused → has_state here.now (option_map (λ s. s.now) file.entry) ≡ false }
{
    let path = path_or(alloc, here, STATE, file)?;
    if can_be_state(&path) {
        Ok(path)
    } else {
        Err(WordsFault::Refused)
    }
}

/// The path of the program that mails files: what the value names, else `/usr/bin/mail`.
pub fn mailer_of(alloc: Global, here: &Path, value: Option<&str>) -> Result<Path, WordsFault>
    ensures path { IfOk result (λ path. path ≡ path_or here.now mail_program (option_map (λ s. s.now) value.entry)) }
    ensures is_path { IfOk result (λ path. may_be_path here.now (option_map (λ s. s.now) value.entry) ≡ true) }
    ensures refused { result ≡ Err WordsFault.Refused → may_be_path here.now (option_map (λ s. s.now) value.entry) ≡ false }
{
    path_or(alloc, here, MAILER, value)
}

/// The program's own path of it.
pub fn mail_program(alloc: Global) -> Result<Path, Memory>
    ensures { IfOk result (λ path. path ≡ mail_program) }
{
    match Path::new(alloc, MAILER) {
        Ok(path) => Ok(path),
        // The bytes are those of a path, so this is want of memory.
        Err(_) => Err(Memory),
    }
}
