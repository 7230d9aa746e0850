// Moments behind a name: blanks, a date with a time or without, blanks.
ghost use Rattle.std.specs.Prelude.{◌≡◌, ◌≤◌, ◌<◌, ◌+◌, ◌*◌, length, IfSome, option_map};
ghost use Rattle.std.specs.List.{list_all, position_or_len};
ghost use Rattle.lr_rules.specs.Bytes.{is_blank, is_digit, is_no_blank};
ghost use Rattle.lr_state.specs.Reading.{seen, seen_number, seen_year, year_of, more_of, digit_in, two_in, four_in, behind};
ghost use Rattle.lr_state.specs.Reading.{from_first, past_gap, clock_in, time_in, parts_in, IsMomentOf};

use lr_rules::Civil;

pub(crate) fn blank(byte: u8) -> bool
    ensures { result ≡ is_blank byte }
{
    byte == b' ' || (byte == b'\t' || byte == b'\r')
}

fn all_blank(text: &[u8]) -> bool
    ensures { result ≡ list_all is_blank text.now }
{
    text.iter().all(|b| blank(*b))
}

/// Where the blanks in front end.
fn blanks_end(text: &[u8]) -> usize
    ensures bound { result ≤ length text.now }
    ensures end { result ≡ position_or_len is_no_blank text.now }
{
    text.iter().position(|b| !blank(*b)).unwrap_or(text.len())
}

fn skip_blanks<'a>(text: &'a [u8]) -> &'a [u8]
    ensures { result.now ≡ from_first is_no_blank text.now }
{
    &text[blanks_end(text)..]
}

/// What is behind one blank or more.
#[tactic(auto, unfolding(crate::specs::Reading::past_gap))]
fn past_blanks<'a>(text: &'a [u8]) -> Option<&'a [u8]>
    ensures { option_map seen result ≡ past_gap text.now }
{
    match text {
        [first, rest @ ..] if blank(*first) => Some(skip_blanks(rest)),
        _ => None,
    }
}

#[tactic(auto, unfolding(crate::specs::Reading::behind))]
fn past_byte<'a>(byte: u8, text: &'a [u8]) -> Option<&'a [u8]>
    ensures { option_map seen result ≡ behind byte text.now }
{
    match text {
        [first, rest @ ..] if *first == byte => Some(rest),
        _ => None,
    }
}

fn digit(byte: u8) -> bool
    ensures { result ≡ is_digit byte }
{
    byte >= b'0' && byte <= b'9'
}

/// The digit in front, and what is behind it.
#[tactic(auto, unfolding(crate::specs::Reading::digit_in))]
fn first_digit<'a>(text: &'a [u8]) -> Option<(u16, &'a [u8])>
    ensures digit { option_map seen_number result ≡ digit_in text.now }
    ensures bound { IfSome result (λ x. x.0 < 10) }
{
    match text {
        [first, rest @ ..] if digit(*first) => Some((u16::from(*first - b'0'), rest)),
        _ => None,
    }
}

/// The number with one more digit, where there is one.
#[tactic(auto, unfolding(crate::specs::Reading::more_of))]
fn with_digit<'a>(number: u16, text: &'a [u8]) -> (u16, &'a [u8])
    requires { number < 1000 }
    ensures number { seen_number result ≡ more_of number text.now }
    ensures bound { result.0 < number * 10 + 10 }
{
    match text {
        [first, rest @ ..] if digit(*first) => (number * 10 + u16::from(*first - b'0'), rest),
        _ => (number, text),
    }
}

fn two_digits<'a>(text: &'a [u8]) -> Option<(u8, &'a [u8])>
    ensures { option_map seen_number result ≡ two_in text.now }
{
    let (number, rest) = first_digit(text)?;
    let (number, rest) = with_digit(number, rest);
    Some((number as u8, rest))
}

fn four_digits<'a>(text: &'a [u8]) -> Option<(i16, &'a [u8])>
    ensures { option_map seen_year result ≡ option_map year_of (four_in text.now) }
{
    let (number, rest) = first_digit(text)?;
    let (number, rest) = with_digit(number, rest);
    let (number, rest) = with_digit(number, rest);
    let (number, rest) = with_digit(number, rest);
    Some((number as i16, rest))
}

#[tactic(auto, unfolding(crate::specs::Reading::clock_in))]
fn clock(text: &[u8]) -> Option<(u8, u8, u8)>
    ensures { result ≡ clock_in text.now }
{
    let text = past_byte(b'-', text)?;
    let (hour, text) = two_digits(text)?;
    let text = past_byte(b':', text)?;
    let (minute, text) = two_digits(text)?;
    let text = past_byte(b':', text)?;
    let (second, text) = two_digits(text)?;
    if all_blank(text) {
        Some((hour, minute, second))
    } else {
        None
    }
}

#[tactic(auto, unfolding(crate::specs::Reading::time_in))]
fn time(text: &[u8]) -> Option<(u8, u8, u8)>
    ensures { result ≡ time_in text.now }
{
    if all_blank(text) {
        return Some((0, 0, 0));
    }
    clock(text)
}

/// The moment behind a name, where the text is one and no more.
#[tactic(auto, unfolding(crate::specs::Reading::parts_in))]
pub(crate) fn moment(text: &[u8]) -> Option<Civil>
    ensures { IsMomentOf (parts_in text.now) result }
{
    let text = past_blanks(text)?;
    let (year, text) = four_digits(text)?;
    let text = past_byte(b'-', text)?;
    let (month, text) = two_digits(text)?;
    let text = past_byte(b'-', text)?;
    let (day, text) = two_digits(text)?;
    let (hour, minute, second) = time(text)?;
    Civil::new(year, month, day, hour, minute, second)
}
