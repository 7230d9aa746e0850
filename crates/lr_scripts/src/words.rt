// Texts that are made of others.
ghost use Rattle.std.specs.Prelude.{◌≡◌, ◌∷◌, ◌++◌, OnOk, IfOk};
ghost use Rattle.lr_scripts.specs.Commands.{spaced, behind_spaces};

use lr_rules::{Memory, Text, text_of};
use std::alloc::Global;

// Adds a word behind a space.
fn add_word(line: &mut Vec<u8>, word: &[u8]) -> Result<(), Memory>
    ensures { OnOk result (line.new.items ≡ line.old.items ++ 32 ∷ word.now) }
{
    line.push(b' ')?;
    line.extend_from_slice(word)?;
    Ok(())
}

// Adds each of these words behind a space.
fn add_words(line: &mut Vec<u8>, words: &[Text]) -> Result<(), Memory>
    ensures { OnOk result (line.new.items ≡ line.old.items ++ behind_spaces words.now) }
{
    for word in words {
        add_word(line, word.bytes())?;
    }
    Ok(())
}

// The bytes of the words, with one space between.
fn spaced_bytes(alloc: Global, words: &[Text]) -> Result<Vec<u8>, Memory>
    ensures { IfOk result (λ line. line.items ≡ spaced words.now) }
{
    let mut line = Vec::new(alloc);
    if let [first, others @ ..] = words {
        line.extend_from_slice(first.bytes())?;
        add_words(&mut line, others)?;
    }
    Ok(line)
}

/// The words, with one space between.
pub fn spaced(alloc: Global, words: &[Text]) -> Result<Text, Memory>
    ensures { IfOk result (λ text. text ≡ spaced words.now) }
{
    let line = spaced_bytes(alloc, words)?;
    text_of(alloc, &line)
}
