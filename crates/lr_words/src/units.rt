// Sizes.
ghost use Rattle.std.specs.Prelude.{◌≡◌, ◌≤◌, ◌*◌, Ok, Err, if◌then◌else◌};
ghost use Rattle.lr_rules.specs.declared.fault.ConfKind.TheVariants as kind;
ghost use Rattle.lr_rules.specs.Limits.{is_size};
ghost use Rattle.lr_words.specs.Numbers.{last_byte, is_unit, unit_of, size_digits, size_value};

use crate::digits::{is_number, within};
use lr_rules::ConfKind;

// 2^63 - 1.
const MOST: u64 = 9_223_372_036_854_775_807;

fn last_byte(word: &[u8]) -> u8
    ensures { result ≡ last_byte word.now }
{
    match word {
        [] => 0,
        [.., last] => *last,
    }
}

fn is_unit(byte: u8) -> bool
    ensures { result ≡ is_unit byte }
{
    byte == b'k' || (byte == b'M' || byte == b'G')
}

// How many bytes the letter stands for; 1 where it is none.
fn unit_of(byte: u8) -> u64
    ensures unit { result ≡ unit_of byte }
    ensures low { 1 ≤ result }
    ensures high { result ≤ 1073741824 }
{
    if byte == b'k' {
        1_024
    } else if byte == b'M' {
        1_048_576
    } else if byte == b'G' {
        1_073_741_824
    } else {
        1
    }
}

// The size without its letter.
fn size_digits(word: &[u8]) -> &[u8]
    ensures { result.now ≡ size_digits word.now }
{
    match word {
        [] => word,
        [front @ .., last] => { if is_unit(*last) { front } else { word } }
    }
}

// So many of these units, in bytes.
fn scaled(number: u64, unit: u64) -> Result<u64, ConfKind>
    requires { unit ≤ 1073741824 }
    ensures { result ≡ (if is_size (number * unit) then Ok (number * unit) else Err kind.TooLarge) }
{
    let bytes = u128::from(number) * u128::from(unit);
    if bytes <= u128::from(MOST) {
        Ok(bytes as u64)
    } else {
        Err(ConfKind::TooLarge)
    }
}

/// The size that the word says, in bytes: digits, and at most one of `k` (1,024), `M` (1,048,576) and `G`
/// (1,073,741,824) behind them. BadSize: it is none. TooLarge: it is above 2^63 - 1.
#[tactic(auto, unfolding(crate::specs::Numbers::size_value))]
pub fn size(word: &[u8]) -> Result<u64, ConfKind>
    ensures { result ≡ size_value word.now }
{
    let digits = size_digits(word);
    if !is_number(digits) {
        return Err(ConfKind::BadSize);
    }
    let unit = unit_of(last_byte(word));
    match within(digits, MOST) {
        None => Err(ConfKind::TooLarge),
        Some(number) => scaled(number, unit),
    }
}
