// What the words of the command line want.
ghost use Rattle.std.specs.Prelude.{◌≡◌, ◌∷◌, [], true, false, IfOk, Some, None, option_map};
ghost use Rattle.lr_rules.specs.Path.{cleaned};
ghost use Rattle.lr_command.specs.Words.{is_name};
ghost use Rattle.lr_cat.specs.Words.{has_log_lengths, has_log, wanted, wanted_by};

use lr_command::{WordsFault, name_of, state_of};
use lr_rules::{Listed, Path, Text};
use std::alloc::Global;

/// What the words want.
#[derive(Drop)]
pub struct Wanted {
    /// The state file under whose lock the log is read.
    pub state: Path,
    /// The one configuration.
    pub confs: Listed<Path>,
    pub log: Path,
}

// The configuration that the word names, as the only one.
fn confs_of(alloc: Global, here: &Path, word: &Text) -> Result<Listed<Path>, WordsFault>
    ensures confs { IfOk result (λ confs. confs ≡ cleaned here.now word.now ∷ []) }
    ensures is_name { IfOk result (λ confs. is_name here.now word.now ≡ true) }
    ensures refused { result ≡ Err WordsFault.Refused → is_name here.now word.now ≡ false }
{
    let path = name_of(alloc, here, word)?;
    let mut confs = Listed::new(alloc);
    match confs.push(path) {
        Ok(()) => Ok(confs),
        Err(_) => Err(WordsFault::Memory),
    }
}

fn has_log_lengths(path: &Path) -> bool
    ensures { result ≡ has_log_lengths path.now }
{
    let last = path.last().len();
    path.bytes().len() <= 2048 && (1 <= last && last <= 255)
}

fn log_of(alloc: Global, here: &Path, word: &Text) -> Result<Path, WordsFault>
    ensures path { IfOk result (λ path. path ≡ cleaned here.now word.now) }
    ensures has_log { IfOk result (λ path. has_log here.now word.now ≡ true) }
    ensures has_log_lengths { IfOk result (λ path. has_log_lengths path ≡ true) }
    ensures refused { result ≡ Err WordsFault.Refused → has_log here.now word.now ≡ false }
{
    let path = name_of(alloc, here, word)?;
    if has_log_lengths(&path) {
        Ok(path)
    } else {
        Err(WordsFault::Refused)
    }
}

fn wanted_by(
    alloc: Global,
    here: &Path,
    file: Option<&str>,
    conf: &Text,
    log: &Text,
) -> Result<Wanted, WordsFault>
    ensures wanted { IfOk result (λ w. wanted_by here.now (option_map (λ s. s.now) file.entry) conf.now log.now ≡ Some w) }
    ensures log { IfOk result (λ w. has_log_lengths w.log ≡ true) }
    ensures refused { result ≡ Err WordsFault.Refused → wanted_by here.now (option_map (λ s. s.now) file.entry) conf.now log.now
        ≡ None }
{
    let state = state_of(alloc, here, file)?;
    let confs = confs_of(alloc, here, conf)?;
    let log = log_of(alloc, here, log)?;
    Ok(Wanted { state, confs, log })
}

/// What the words want, where a relative path stands behind `here`.
pub fn wanted_of(alloc: Global, words: &[Text], here: &Path) -> Result<Wanted, WordsFault>
    ensures wanted { IfOk result (λ w. wanted here.now words.now ≡ Some w) }
    ensures log { IfOk result (λ w. has_log_lengths w.log ≡ true) }
    ensures refused { result ≡ Err WordsFault.Refused → wanted here.now words.now ≡ None }
{
    match words {
        [conf, log] => wanted_by(alloc, here, None, conf, log),
        [option, file, conf, log] => {
            if option.bytes() == b"-s".as_slice() {
                wanted_by(alloc, here, Some(file.as_str()), conf, log)
            } else {
                Err(WordsFault::Refused)
            }
        }
        _ => Err(WordsFault::Refused),
    }
}
