// Words without the backslashes that escape.
ghost use Rattle.std.specs.Prelude.{◌≡◌, ◌<◌, ◌≤◌, ◌+◌, ◌∷◌, drop, length, slice_index, IfOk};
ghost use Rattle.lr_rules.specs.Match.{literal_path};

use std::alloc::{AllocError, Global};

// The place of the byte that stands for itself here: a backslash that escapes is passed over.
fn stands_at(word: &[u8], at: usize) -> usize
    requires { at < length word.now }
    ensures within { result < length word.now }
    ensures onward { at ≤ result }
    ensures stands { literal_path (drop at word.now) ≡ slice_index word.now result ∷ literal_path (drop (result + 1) word.now) }
{
    if at + 1 < word.len() && word[at] == b'\\' && word[at + 1] != b'/' {
        at + 1
    } else {
        at
    }
}

/// The word without the backslashes that escape. One before a slash, or at the end, is itself.
pub fn literal(alloc: Global, word: &[u8]) -> Result<Vec<u8>, AllocError>
    ensures { IfOk result (λ bytes. bytes.items ≡ literal_path word.now) }
{
    let mut bytes = Vec::with_capacity(alloc, word.len())?;
    let mut i = 0;
    while i < word.len() {
        let at = stands_at(word, i);
        bytes.push(word[at])?;
        i = at + 1;
    }
    Ok(bytes)
}
