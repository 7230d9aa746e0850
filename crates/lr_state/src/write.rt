// Pieces of a line, written to a buffer from a place on.
ghost use Rattle.std.specs.Prelude.{◌<◌, ◌≤◌, ◌+◌, ◌*◌, ◌∷◌, [], length, unsigned_abs};
ghost use Rattle.std.specs.List.{flat_map};
ghost use Rattle.lr_state.specs.Written.{escaped, decimal, moment_text, entry_line};
ghost use Rattle.lr_state.specs.Piece.{WritesPiece};

use lr_rules::Civil;

fn put_byte(into: &mut [u8], at: usize, byte: u8) -> usize
    requires { at < length into.old }
    ensures { WritesPiece into.old at into.new result (byte ∷ []) }
{
    into[at] = byte;
    at + 1
}

/// A byte of a name, with a backslash in front of a quote and of a backslash.
fn put_escaped(into: &mut [u8], at: usize, byte: u8) -> usize
    requires { at + 2 ≤ length into.old }
    ensures written { WritesPiece into.old at into.new result (escaped byte) }
    ensures bound { result ≤ at + 2 }
{
    if byte == b'"' || byte == b'\\' {
        let end = put_byte(into, at, b'\\');
        return put_byte(into, end, byte);
    }
    put_byte(into, at, byte)
}

fn put_name(into: &mut [u8], at: usize, name: &[u8]) -> usize
    requires { at + 2 * length name.now ≤ length into.old }
    ensures written { WritesPiece into.old at into.new result (flat_map escaped name.now) }
    ensures bound { result ≤ at + 2 * length name.now }
{
    let mut end = at;
    for byte in name {
        end = put_escaped(into, end, *byte);
    }
    end
}

fn put_digit(into: &mut [u8], at: usize, digit: u16) -> usize
    requires place { at < length into.old }
    requires digit { digit < 10 }
    ensures { WritesPiece into.old at into.new result ((48 + digit) ∷ []) }
{
    put_byte(into, at, b'0' + digit as u8)
}

/// A number below 10,000, without zeros in front.
#[tactic(auto, unfolding(crate::specs::Written::decimal))]
fn put_number(into: &mut [u8], at: usize, number: u16) -> usize
    requires room { at + 4 ≤ length into.old }
    requires small { number < 10_000 }
    ensures written { WritesPiece into.old at into.new result (decimal number) }
    ensures bound { result ≤ at + 4 }
{
    if number < 10 {
        return put_digit(into, at, number);
    }
    if number < 100 {
        let end = put_digit(into, at, number / 10);
        return put_digit(into, end, number % 10);
    }
    if number < 1000 {
        let end = put_digit(into, at, number / 100);
        let end = put_digit(into, end, number / 10 % 10);
        return put_digit(into, end, number % 10);
    }
    let end = put_digit(into, at, number / 1000);
    let end = put_digit(into, end, number / 100 % 10);
    let end = put_digit(into, end, number / 10 % 10);
    put_digit(into, end, number % 10)
}

fn put_part(into: &mut [u8], at: usize, part: u8) -> usize
    requires { at + 4 ≤ length into.old }
    ensures written { WritesPiece into.old at into.new result (decimal part) }
    ensures bound { result ≤ at + 4 }
{
    put_number(into, at, u16::from(part))
}

fn put_year(into: &mut [u8], at: usize, moment: &Civil) -> usize
    requires { at + 4 ≤ length into.old }
    ensures written { WritesPiece into.old at into.new result (decimal (unsigned_abs moment.now.year)) }
    ensures bound { result ≤ at + 4 }
{
    put_number(into, at, moment.year.unsigned_abs())
}

/// A moment, as 2024-1-13-0:0:0.
fn put_moment(into: &mut [u8], at: usize, moment: &Civil) -> usize
    requires { at + 29 ≤ length into.old }
    ensures written { WritesPiece into.old at into.new result (moment_text moment.now) }
    ensures bound { result ≤ at + 29 }
{
    let year = put_year(into, at, moment);
    let dash = put_byte(into, year, b'-');
    let month = put_part(into, dash, moment.month);
    let dash = put_byte(into, month, b'-');
    let day = put_part(into, dash, moment.day);
    let dash = put_byte(into, day, b'-');
    let hour = put_part(into, dash, moment.hour);
    let colon = put_byte(into, hour, b':');
    let minute = put_part(into, colon, moment.minute);
    let colon = put_byte(into, minute, b':');
    put_part(into, colon, moment.second)
}

/// The line of an entry, with its newline, at the front of the buffer.
pub(crate) fn put_line(into: &mut [u8], name: &[u8], at: &Civil) -> usize
    requires room { 8448 ≤ length into.old }
    requires short { length name.now ≤ 4096 }
    ensures written { WritesPiece into.old 0 into.new result (entry_line (name.now, at.now)) }
    ensures bound { result ≤ 8448 }
{
    let quote = put_byte(into, 0, b'"');
    let name = put_name(into, quote, name);
    let quote = put_byte(into, name, b'"');
    let blank = put_byte(into, quote, b' ');
    let moment = put_moment(into, blank, at);
    put_byte(into, moment, b'\n')
}
