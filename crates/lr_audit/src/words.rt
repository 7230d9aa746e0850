// What the words of the command line want.
ghost use Rattle.std.specs.Prelude.{◌≡◌, ◌++◌, ◌∷◌, [], true, false, map, IfOk, OnOk, Some, None, option_map};
ghost use Rattle.std.specs.List.{list_all};
ghost use Rattle.lr_rules.specs.Path.{cleaned};
ghost use Rattle.lr_command.specs.Words.{is_name};
ghost use Rattle.lr_audit.specs.Words.{are_names, wanted, wanted_behind, wanted_by};

use lr_command::{WordsFault, name_of, state_of};
use lr_rules::{Listed, Path, Text};
use std::alloc::Global;

/// The state file, and the configurations in order of reading.
#[derive(Drop)]
pub struct Wanted {
    pub state: Path,
    pub confs: Listed<Path>,
}

// Adds the path that the word names, which is no option.
fn add_name(
    alloc: Global,
    here: &Path,
    paths: &mut Vec<Path>,
    word: &Text,
) -> Result<(), WordsFault>
    ensures path { OnOk result (paths.new.items ≡ paths.old.items ++ cleaned here.now word.now ∷ []) }
    ensures is_name { OnOk result (is_name here.now word.now ≡ true) }
    ensures refused { result ≡ Err WordsFault.Refused → is_name here.now word.now ≡ false }
{
    let path = name_of(alloc, here, word)?;
    match paths.push(path) {
        Ok(()) => Ok(()),
        Err(_) => Err(WordsFault::Memory),
    }
}

// The paths that the words name, none of which is an option.
fn names_of(alloc: Global, here: &Path, words: &[Text]) -> Result<Listed<Path>, WordsFault>
    ensures paths { IfOk result (λ paths. paths ≡ map (cleaned here.now) words.now) }
    ensures are_names { IfOk result (λ paths. list_all (is_name here.now) words.now ≡ true) }
    ensures refused { result ≡ Err WordsFault.Refused → list_all (is_name here.now) words.now ≡ false }
{
    let mut paths = Vec::new(alloc);
    for word in words {
        add_name(alloc, here, &mut paths, word)?;
    }
    Ok(Listed::from_vec(paths))
}

// The same, one at least.
fn confs_of(alloc: Global, here: &Path, words: &[Text]) -> Result<Listed<Path>, WordsFault>
    ensures paths { IfOk result (λ paths. paths ≡ map (cleaned here.now) words.now) }
    ensures are_names { IfOk result (λ paths. are_names here.now words.now ≡ true) }
    ensures refused { result ≡ Err WordsFault.Refused → are_names here.now words.now ≡ false }
{
    if words.is_empty() {
        return Err(WordsFault::Refused);
    }
    names_of(alloc, here, words)
}

fn wanted_by(
    alloc: Global,
    here: &Path,
    file: Option<&str>,
    confs: &[Text],
) -> Result<Wanted, WordsFault>
    ensures wanted { IfOk result (λ w. wanted_by here.now (option_map (λ s. s.now) file.entry) confs.now ≡ Some w) }
    ensures refused { result ≡ Err WordsFault.Refused → wanted_by here.now (option_map (λ s. s.now) file.entry) confs.now ≡ None }
{
    let state = state_of(alloc, here, file)?;
    let confs = confs_of(alloc, here, confs)?;
    Ok(Wanted { state, confs })
}

// What the words behind `-s` want.
fn wanted_behind(alloc: Global, here: &Path, words: &[Text]) -> Result<Wanted, WordsFault>
    ensures wanted { IfOk result (λ w. wanted_behind here.now words.now ≡ Some w) }
    ensures refused { result ≡ Err WordsFault.Refused → wanted_behind here.now words.now ≡ None }
{
    match words {
        [] => Err(WordsFault::Refused),
        [file, confs @ ..] => wanted_by(alloc, here, Some(file.as_str()), confs),
    }
}

/// What the words want, where a relative path stands behind `here`.
pub fn wanted_of(alloc: Global, words: &[Text], here: &Path) -> Result<Wanted, WordsFault>
    ensures wanted { IfOk result (λ w. wanted here.now words.now ≡ Some w) }
    ensures refused { result ≡ Err WordsFault.Refused → wanted here.now words.now ≡ None }
{
    match words {
        [] => Err(WordsFault::Refused),
        [first, rest @ ..] => {
            if first.bytes() == b"-s".as_slice() {
                wanted_behind(alloc, here, rest)
            } else {
                wanted_by(alloc, here, None, words)
            }
        }
    }
}
