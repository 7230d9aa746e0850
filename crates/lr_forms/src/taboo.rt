// Other files, and which of them are read.
ghost use Rattle.std.specs.Prelude.{◌≡◌, ◌++◌, ◌∷◌, [], IfOk, OnOk};
ghost use Rattle.lr_forms.specs.Says.{texts};
ghost use Rattle.lr_forms.specs.Values.{included, include_says, taboo_says};
ghost use Rattle.lr_words.specs.Names.{include_value};

use crate::said::LineSaid;
use lr_lex::Word;
use lr_rules::{Memory, Text};
use lr_words::{include_path, taboo_items};
use std::alloc::Global;

fn push_copy(alloc: Global, into: &mut Vec<Text>, text: &Text) -> Result<(), Memory>
    ensures { OnOk result (into.new.items ≡ into.old.items ++ text.now ∷ []) }
{
    into.push(text.copy(alloc)?)?;
    Ok(())
}

/// The texts of the words.
pub(crate) fn texts_of(alloc: Global, words: &[Word]) -> Result<Vec<Text>, Memory>
    ensures { IfOk result (λ all. all.items ≡ texts words.now) }
{
    let mut all = Vec::new(alloc);
    for word in words {
        push_copy(alloc, &mut all, &word.text)?;
    }
    Ok(all)
}

/// What `tabooext` or `taboopat` says.
pub(crate) fn taboo_says(alloc: Global, patterns: bool, values: &[Word]) -> Result<LineSaid, Memory>
    ensures { IfOk result (λ s. s ≡ taboo_says patterns (texts values.now)) }
{
    let texts = texts_of(alloc, values)?;
    match taboo_items(alloc, texts.as_slice())? {
        Ok(items) => Ok(LineSaid::Taboo { patterns, items }),
        Err(kind) => Ok(LineSaid::Bad(kind)),
    }
}

fn included(alloc: Global, word: &[u8]) -> Result<LineSaid, Memory>
    ensures { IfOk result (λ s. s ≡ included (include_value word.now)) }
{
    match include_path(alloc, word)? {
        Ok(path) => Ok(LineSaid::Include(path)),
        Err(kind) => Ok(LineSaid::Bad(kind)),
    }
}

/// What `include` says.
pub(crate) fn include_says(alloc: Global, values: &[Word]) -> Result<LineSaid, Memory>
    ensures { IfOk result (λ s. s ≡ include_says (texts values.now)) }
{
    match values {
        [] => Ok(LineSaid::Quiet),
        [word, ..] => included(alloc, word.text.bytes()),
    }
}
