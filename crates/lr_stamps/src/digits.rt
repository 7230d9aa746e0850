// The digits of a field, read.
ghost use Rattle.std.specs.Prelude.{◌≡◌, ◌≢◌, ◌↔◌, ◌<◌, ◌≤◌, ◌+◌, ◌++◌, ℕ, List, true, decimal, length, IfSome, IfNone};
ghost use Rattle.lr_rules.specs.declared.rule.Field.TheVariants as field;
ghost use Rattle.lr_rules.specs.Stamps.{two, field_text, bound};
ghost use Rattle.lr_stamps.specs.Asked.{HasLeft, is_plain};

use lr_rules::Field;

fn is_a_digit(b: u8) -> bool
    ensures { (result ≡ true) ↔ ((48 ≤ b) × (b ≤ 57)) }
{
    b'0' <= b && b <= b'9'
}

// Two digits at the front.
fn two_digits(bytes: &[u8]) -> Option<(u64, &[u8])>
    ensures some { IfSome result (λ r. (r.0 < 100) × (bytes.now ≡ two r.0 ++ r.1.now)) }
    ensures none { IfNone result ((n : ℕ) (rest : List ℕ) → n < 100 → bytes.now ≢ two n ++ rest) }
{
    let [a, b, rest @ ..] = bytes else {
        return None;
    };
    if is_a_digit(*a) && is_a_digit(*b) {
        Some((u64::from(*a - b'0') * 10 + u64::from(*b - b'0'), rest))
    } else {
        None
    }
}

// Four digits at the front.
fn four_digits(bytes: &[u8]) -> Option<(u64, &[u8])>
    ensures some { IfSome result (λ r. (r.0 < 10000) × (bytes.now ≡ field_text field.Year r.0 ++ r.1.now)) }
    ensures none { IfNone result ((n : ℕ) (rest : List ℕ) → n < 10000 → bytes.now ≢ field_text field.Year n ++ rest) }
{
    let (high, more) = two_digits(bytes)?;
    let (low, rest) = two_digits(more)?;
    Some((high * 100 + low, rest))
}

// Whether the digits are written as a number is: `0`, or with no zero in front.
fn begins_plain(digits: &[u8]) -> bool
    ensures { result ≡ is_plain digits.now }
{
    match digits {
        [] => false,
        [one] => b'0' <= *one && *one <= b'9',
        [first, ..] => b'1' <= *first && *first <= b'9',
    }
}

/// The number of at most twelve digits that these bytes are the plain decimal text of.
pub fn plain_number(digits: &[u8]) -> Option<u64>
    ensures some { IfSome result (λ number. (number < 1000000000000) × (digits.now ≡ decimal number)) }
    ensures none { IfNone result ((number : ℕ) → number < 1000000000000 → digits.now ≡ decimal number → ⊥) }
{
    if digits.len() > 12 {
        return None;
    }
    let Ok(text) = str::from_utf8(digits) else {
        return None;
    };
    let Ok(number) = text.parse::<u64>() else {
        return None;
    };
    if begins_plain(digits) {
        Some(number)
    } else {
        None
    }
}

// The seconds since 1970, before so many other bytes.
fn epoch_digits(bytes: &[u8], after: usize) -> Option<(u64, &[u8])>
    ensures some { IfSome result (λ r. (r.0 < 1000000000000) × (bytes.now ≡ decimal r.0 ++ r.1.now) × (length r.1.now ≡ after)) }
    ensures none { IfNone result ((n : ℕ) (rest : List ℕ) → n < 1000000000000 → length rest ≡ after
        → bytes.now ≢ decimal n ++ rest) }
{
    let len = bytes.len();
    if len < after {
        return None;
    }
    let digits = &bytes[..len - after];
    let rest = &bytes[len - after..];
    match plain_number(digits) {
        Some(number) => Some((number, rest)),
        None => None,
    }
}

/// The value of the field at the front of the bytes, and what is left; behind the seconds since 1970 that are so many
/// bytes.
pub fn read_field(field: Field, after: usize, bytes: &[u8]) -> Option<(u64, &[u8])>
    ensures some { IfSome result (λ r. (r.0 < bound field) × (bytes.now ≡ field_text field r.0 ++ r.1.now)
        × HasLeft field after r.1.now) }
    ensures none { IfNone result ((n : ℕ) (rest : List ℕ) → n < bound field → HasLeft field after rest
        → bytes.now ≢ field_text field n ++ rest) }
{
    match field {
        Field::Year => four_digits(bytes),
        Field::Epoch => epoch_digits(bytes, after),
        Field::Month => two_digits(bytes),
        Field::Day => two_digits(bytes),
        Field::Hour => two_digits(bytes),
        Field::Minute => two_digits(bytes),
        Field::Second => two_digits(bytes),
    }
}
