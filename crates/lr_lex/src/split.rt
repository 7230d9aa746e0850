// The first line and the others.
ghost use Rattle.std.specs.Prelude.{◌≡◌, ◌+◌, ◌<◌, ◌≤◌, false, length, MatchOption};
ghost use Rattle.lr_lex.specs.Lines.{line_of, after_line};
ghost use Rattle.lr_lex.specs.Pieces.{has_line};
ghost use Rattle.lr_lex.specs.Newlines.{IsNewline};
ghost use Rattle.lr_lex.specs.Scanning.{LinePasses};

use crate::place::Place;
use bstr::ByteSlice;

/// Where the first newline stands.
pub fn newline(bytes: &[u8]) -> Option<usize>
    ensures { MatchOption result (has_line bytes.now ≡ false) (λ at. IsNewline bytes.now at) }
{
    match bytes.find_byte(b'\n') {
        Some(at) => Some(at),
        None => None,
    }
}

/// The first line without its newline, and what stands behind it.
fn split_line<'a>(bytes: &'a [u8]) -> (&'a [u8], &'a [u8])
    ensures line { result.0.now ≡ line_of bytes.now }
    ensures rest { result.1.now ≡ after_line bytes.now }
{
    match bytes.find_byte(b'\n') {
        Some(at) => (&bytes[..at], &bytes[at + 1..]),
        None => (bytes, &[]),
    }
}

/// The first line, and the place behind it.
pub fn pass<'a>(place: &Place<'a>) -> (&'a [u8], Place<'a>)
    requires { 0 < length place.now.rest.now }
    ensures line { result.0.now ≡ line_of place.now.rest.now }
    ensures passes { LinePasses place.now result.1 }
    ensures less { length result.1.rest.now < length place.now.rest.now }
    ensures size { length (line_of place.now.rest.now) ≤ length place.now.rest.now }
{
    let (line, rest) = split_line(place.rest);
    (
        line,
        Place {
            rest,
            at: place.at + line.len() + 1,
            line: place.line + 1,
        },
    )
}

/// The number of the line that begins at a place.
pub fn number(place: &Place) -> u32
    requires { 0 < length place.now.rest.now }
    ensures { result ≡ place.now.line }
{
    place.line as u32
}
