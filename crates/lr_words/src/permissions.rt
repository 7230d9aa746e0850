// Modes of files that are made.
ghost use Rattle.std.specs.Prelude.{◌≡◌, ◌≤◌, true, length};
ghost use Rattle.std.specs.List.{list_all};
ghost use Rattle.std.specs.Str.Parse.{digits_value};
ghost use Rattle.lr_words.specs.Numbers.{is_octal, is_mode_text, mode_value, begins_with_digit, first_mode_value, names_owner};

use crate::digits::digit;
use lr_rules::ConfKind;

fn octal(byte: u8) -> bool
    ensures { result ≡ is_octal byte }
{
    48 <= byte && byte <= 55
}

fn all_octal(word: &[u8]) -> bool
    ensures { result ≡ list_all is_octal word.now }
{
    word.iter().all(|byte| octal(*byte))
}

fn is_mode_text(word: &[u8]) -> bool
    ensures { result ≡ is_mode_text word.now }
{
    (word.len() == 3 || word.len() == 4) && all_octal(word)
}

// The bits that at most four octal digits write.
fn bits_of(digits: &[u8]) -> u32
    requires few { length digits.now ≤ 4 }
    requires octal { list_all is_octal digits.now ≡ true }
    ensures { result ≡ digits_value 8 digits.now }
{
    let mut bits: u32 = 0;
    for digit in digits {
        bits = bits * 8 + u32::from(*digit - b'0');
    }
    bits
}

/// The mode that the word says: permission bits, in three or four octal digits. BadMode: it isn't so.
#[tactic(auto, unfolding(crate::specs::Numbers::mode_value))]
pub fn mode(word: &[u8]) -> Result<u32, ConfKind>
    ensures { result ≡ mode_value word.now }
{
    if is_mode_text(word) {
        Ok(bits_of(word))
    } else {
        Err(ConfKind::BadMode)
    }
}

fn begins_with_digit(word: &[u8]) -> bool
    ensures { result ≡ begins_with_digit word.now }
{
    match word {
        [] => false,
        [first, ..] => digit(*first),
    }
}

/// The mode that the first word behind `create` or `createolddir` says; none where it begins with no digit, and so is
/// an owner. BadMode: it begins with a digit, and is no mode.
#[tactic(auto, unfolding(crate::specs::Numbers::first_mode_value))]
pub fn first_mode(word: &[u8]) -> Result<Option<u32>, ConfKind>
    ensures { result ≡ first_mode_value word.now }
{
    if !begins_with_digit(word) {
        return Ok(None);
    }
    match mode(word) {
        Ok(mode) => Ok(Some(mode)),
        Err(kind) => Err(kind),
    }
}

/// Whether one of so many words behind `create` or `createolddir` isn't the mode, and so is passed over as an owner or
/// a group.
pub fn names_owner(words: usize, mode: Option<u32>) -> bool
    ensures { result ≡ names_owner words mode }
{
    match mode {
        None => 0 < words,
        Some(_) => 1 < words,
    }
}
