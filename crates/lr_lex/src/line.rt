// The words and braces of a line.
ghost use Rattle.std.specs.Prelude.{◌≡◌, ◌+◌, ◌<◌, ◌≤◌, ◌^◌, length, position, count_by, IfOk, IsUtf8, Some};
ghost use Rattle.std.specs.List.{list_any};
ghost use Rattle.lr_lex.specs.Words.{is_gap, is_ink, is_open, is_close_sign, is_brace, is_equals, closes, opens, before_open};
ghost use Rattle.lr_lex.specs.Words.{words as words_of_signs, line_words, parted};
ghost use Rattle.lr_lex.specs.Scanning.{sign_bytes, InkEnds};

use crate::scan::Scan;
use crate::sign::Sign;
use crate::word::Word;
use lr_rules::{Listed, Memory};
use std::alloc::Global;

fn gap(sign: Sign) -> bool
    ensures { result ≡ is_gap sign }
{
    matches!(sign, Sign::Blank)
}

fn open(sign: Sign) -> bool
    ensures { result ≡ is_open sign }
{
    matches!(sign, Sign::Plain(b'{'))
}

fn close(sign: Sign) -> bool
    ensures { result ≡ is_close_sign sign }
{
    matches!(sign, Sign::Plain(b'}'))
}

fn brace(sign: Sign) -> bool
    ensures { result ≡ is_brace sign }
{
    open(sign) || close(sign)
}

fn equals(sign: Sign) -> bool
    ensures { result ≡ is_equals sign }
{
    matches!(sign, Sign::Plain(b'='))
}

fn has_close(signs: &[Sign]) -> bool
    ensures { result ≡ list_any is_close_sign signs.now }
{
    signs.iter().any(|sign| close(*sign))
}

fn ink_count(signs: &[Sign]) -> usize
    ensures { result ≡ count_by is_ink signs.now }
{
    signs.iter().filter(|sign| !gap(**sign)).count()
}

/// Whether the only sign past blanks is a closing brace.
pub fn is_close_alone(signs: &[Sign]) -> bool
    ensures { result ≡ closes signs.now }
{
    has_close(signs) && ink_count(signs) == 1
}

/// Whether a brace stands outside quotes.
pub fn has_brace(signs: &[Sign]) -> bool
    ensures { result ≡ list_any is_brace signs.now }
{
    signs.iter().any(|sign| brace(*sign))
}

/// The place behind the last sign that is no blank.
fn ink_end(signs: &[Sign]) -> usize
    ensures { InkEnds signs.now result }
{
    let mut end = signs.len();
    while end > 0 && gap(signs[end - 1]) {
        end -= 1;
    }
    end
}

/// The signs before an opening brace that is the last, or all, and whether it is there.
pub fn cut_brace<'a>(signs: &'a [Sign]) -> (&'a [Sign], bool)
    requires { IsUtf8 (sign_bytes signs.now) }
    ensures brace { result.1 ≡ opens signs.now }
    ensures signs { result.0.now ≡ before_open signs.now }
    ensures utf8 { IsUtf8 (sign_bytes result.0.now) }
    ensures size { length result.0.now ≤ length signs.now }
{
    let end = ink_end(signs);
    if end > 0 && open(signs[end - 1]) {
        (&signs[..end - 1], true)
    } else {
        (signs, false)
    }
}

fn equals_place(signs: &[Sign]) -> Option<usize>
    ensures { result ≡ position is_equals signs.now }
{
    signs.iter().position(|sign| equals(*sign))
}

/// The words of signs, of which the first stands at this place.
fn plain_words(alloc: Global, signs: &[Sign], at: usize) -> Result<Listed<Word>, Memory>
    requires place { at + length signs.now < 2 ^ 62 }
    requires utf8 { IsUtf8 (sign_bytes signs.now) }
    ensures { IfOk result (λ words. words ≡ words_of_signs at signs.now) }
{
    Scan::new(alloc).finish(at, signs)
}

/// The words of signs of which the first unquoted `=` stands at `equals`.
fn parted_words(
    alloc: Global,
    signs: &[Sign],
    at: usize,
    equals: usize,
) -> Result<Listed<Word>, Memory>
    requires place { at + length signs.now < 2 ^ 62 }
    requires utf8 { IsUtf8 (sign_bytes signs.now) }
    requires equals { position is_equals signs.now ≡ Some equals }
    ensures { IfOk result (λ words. words ≡ words_of_signs at (parted at signs.now (Some equals))) }
{
    let mut scan = Scan::new(alloc);
    scan.take_all(at, &signs[..equals])?;
    if scan.has_one() {
        scan.take(at + equals, Sign::Blank)?;
        return scan.finish(at + equals + 1, &signs[equals + 1..]);
    }
    scan.finish(at + equals, &signs[equals..])
}

/// The words of a line whose first sign stands at this place.
pub fn words_of(
    alloc: Global,
    signs: &[Sign],
    names: bool,
    at: usize,
) -> Result<Listed<Word>, Memory>
    requires place { at + length signs.now < 2 ^ 62 }
    requires utf8 { IsUtf8 (sign_bytes signs.now) }
    ensures { IfOk result (λ words. words ≡ line_words names at signs.now) }
{
    if names {
        return plain_words(alloc, signs, at);
    }
    match equals_place(signs) {
        Some(equals) => parted_words(alloc, signs, at, equals),
        None => plain_words(alloc, signs, at),
    }
}
