// Lines of names.
ghost use Rattle.std.specs.Prelude.{◌≡◌, ◌++◌, IfOk, OnOk, option_to_list};
ghost use Rattle.std.specs.Result.{result_ok, result_err};
ghost use Rattle.lr_words.specs.Names.{log_name_value};
ghost use Rattle.lr_forms.specs.Says.{log_names, name_faults, named, names_say};

use crate::said::LineSaid;
use lr_lex::Word;
use lr_rules::{ConfKind, Listed, Memory, Text};
use lr_words::log_name;
use std::alloc::Global;

/// Adds the name of a log that the word is, or gives the fault of the word.
fn add_name(
    alloc: Global,
    names: &mut Listed<Text>,
    word: &[u8],
) -> Result<Option<ConfKind>, Memory>
    ensures fault { IfOk result (λ fault. fault ≡ result_err (log_name_value word.now)) }
    ensures added { OnOk result (names.new ≡ names.old ++ option_to_list (result_ok (log_name_value word.now))) }
{
    match log_name(alloc, word)? {
        Ok(name) => {
            names.push(name)?;
            Ok(None)
        }
        Err(kind) => Ok(Some(kind)),
    }
}

/// All the names, or the first fault of one.
fn named(alloc: Global, words: &[Word]) -> Result<LineSaid, Memory>
    ensures { IfOk result (λ s. s ≡ named (name_faults words.now) (log_names words.now)) }
{
    let mut names = Listed::new(alloc);
    for word in words {
        if let Some(kind) = add_name(alloc, &mut names, word.text.bytes())? {
            return Ok(LineSaid::BadNames(kind));
        }
    }
    Ok(LineSaid::Names(names))
}

/// What a line of names says, outside definitions.
pub(crate) fn names_say(alloc: Global, words: &[Word], stray: bool) -> Result<LineSaid, Memory>
    ensures { IfOk result (λ s. s ≡ names_say stray words.now) }
{
    if stray || words.is_empty() {
        Ok(LineSaid::BadNames(ConfKind::Stray))
    } else {
        named(alloc, words)
    }
}
