// Numbers in words.
ghost use Rattle.std.specs.Prelude.{◌≡◌, ◌<◌, ◌≤◌, true, MatchOption};
ghost use Rattle.std.specs.List.{list_all};
ghost use Rattle.lr_rules.specs.Bytes.{is_digit};
ghost use Rattle.lr_words.specs.Numbers.{is_number, number_of, number_value, is_minus_one, count_value, weekday_value};
ghost use Rattle.lr_rules.specs.Path.{is_empty};

use lr_rules::{ConfKind, Count};

pub(crate) fn digit(byte: u8) -> bool
    ensures { result ≡ is_digit byte }
{
    48 <= byte && byte <= 57
}

fn all_digits(word: &[u8]) -> bool
    ensures { result ≡ list_all is_digit word.now }
{
    word.iter().all(|byte| digit(*byte))
}

pub(crate) fn empty(word: &[u8]) -> bool
    ensures { result ≡ is_empty word.now }
{
    match word {
        [] => true,
        [_, ..] => false,
    }
}

// Whether the word is one digit or more.
#[tactic(auto, unfolding(crate::specs::Numbers::is_number))]
pub(crate) fn is_number(word: &[u8]) -> bool
    ensures { result ≡ is_number word.now }
{
    !empty(word) && all_digits(word)
}

// The number that the digits write; none where it is above the limit.
pub(crate) fn within(word: &[u8], limit: u64) -> Option<u64>
    requires { is_number word.now ≡ true }
    ensures { MatchOption result (limit < number_of word.now) (λ n. (n ≡ number_of word.now) × (number_of word.now ≤ limit)) }
{
    let value = capped(word, limit);
    if value > u128::from(limit) {
        None
    } else {
        Some(value as u64)
    }
}

// The number that the digits write, where it is at most the limit; else some number above that.
fn capped(digits: &[u8], limit: u64) -> u128
    requires { list_all is_digit digits.now ≡ true }
    ensures small { number_of digits.now ≤ limit → result ≡ number_of digits.now }
    ensures large { limit < number_of digits.now → limit < result }
{
    let mut value: u128 = 0;
    for digit in digits {
        if value <= u128::from(limit) {
            value = value * 10 + u128::from(*digit - b'0');
        }
    }
    value
}

/// The number that the word says. BadNumber: it isn't one digit or more. TooLarge: it is above 999,999.
#[tactic(auto, unfolding(crate::specs::Numbers::number_value))]
pub fn number(word: &[u8]) -> Result<u32, ConfKind>
    ensures { result ≡ number_value word.now }
{
    if !is_number(word) {
        return Err(ConfKind::BadNumber);
    }
    match within(word, 999_999) {
        None => Err(ConfKind::TooLarge),
        Some(number) => Ok(number as u32),
    }
}

/// The day of the week behind `weekly`, 0 for Sunday and 7 for every seven days. BadNumber: it isn't one of 0 to 7.
#[tactic(auto, unfolding(crate::specs::Numbers::weekday_value))]
pub fn weekday(word: &[u8]) -> Result<u8, ConfKind>
    ensures { result ≡ weekday_value word.now }
{
    if !is_number(word) {
        return Err(ConfKind::BadNumber);
    }
    match within(word, 7) {
        None => Err(ConfKind::BadNumber),
        Some(day) => Ok(day as u8),
    }
}

fn minus_one(word: &[u8]) -> bool
    ensures { result ≡ is_minus_one word.now }
{
    word == b"-1".as_slice()
}

/// How many members `rotate` keeps: a number, or all by `-1`. The faults are those of a number.
#[tactic(auto, unfolding(crate::specs::Numbers::count_value))]
pub fn count(word: &[u8]) -> Result<Count, ConfKind>
    ensures { result ≡ count_value word.now }
{
    if minus_one(word) {
        return Ok(Count::Always);
    }
    match number(word) {
        Ok(number) => Ok(Count::Keep(number)),
        Err(kind) => Err(kind),
    }
}
