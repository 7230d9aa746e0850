// Items at their place in the whole text.
ghost use Rattle.std.specs.Prelude.{◌≡◌, ◌+◌, ◌<◌, ◌^◌, All, map};
ghost use Rattle.lr_lex.specs.declared.word.Word.{Word};
ghost use Rattle.lr_lex.specs.Moved.{moved_word, moved_item, moved_fault, IsNearItem};

use crate::item::{Item, LexFault};
use crate::word::Word;
use lr_rules::Listed;

fn move_word(word: Word, by: usize) -> Word
    requires { word.at + by < 2 ^ 64 }
    ensures { result ≡ moved_word by word }
{
    Word {
        at: word.at + by,
        ..word
    }
}

fn move_all(words: &mut [Word], by: usize)
    requires { All (λ w. w.at + by < 2 ^ 64) words.old }
    ensures { words.new ≡ map (moved_word by) words.old }
{
    for word in words {
        word.at += by;
    }
}

fn move_words(words: Listed<Word>, by: usize) -> Listed<Word>
    requires { All (λ w. w.at + by < 2 ^ 64) words }
    ensures { result ≡ map (moved_word by) words }
{
    let mut words = words.into_vec();
    move_all(&mut words, by);
    Listed::from_vec(words)
}

/// The item, so many lines and bytes further on.
pub fn move_item(item: Item, down: u32, by: usize) -> Item
    requires { IsNearItem down by item }
    ensures { result ≡ moved_item down by item }
{
    match item {
        Item::Line {
            words,
            names,
            brace,
            stray,
            line,
        } => Item::Line {
            words: move_words(words, by),
            names,
            brace,
            stray,
            line: line + down,
        },
        Item::Close { line } => Item::Close { line: line + down },
        Item::Script {
            word,
            text,
            brace,
            stray,
            line,
        } => Item::Script {
            word: move_word(word, by),
            text,
            brace,
            stray,
            line: line + down,
        },
    }
}

/// The fault, so many lines further on.
pub fn move_fault(fault: LexFault, down: u32) -> LexFault
    requires { fault.line + down < 2 ^ 32 }
    ensures { result ≡ moved_fault down fault }
{
    LexFault {
        line: fault.line + down,
        kind: fault.kind,
    }
}
