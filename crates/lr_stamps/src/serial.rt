// A stamp with its serial number, read.
ghost use Rattle.std.specs.Prelude.{◌≡◌, ◌≢◌, ◌↔◌, ◌<◌, ◌≤◌, ◌++◌, ◌∷◌, ℤ, ℕ, List, true, false, Some, decimal, IfSome, IfNone};
ghost use Rattle.std.specs.Prelude.{MatchOption};
ghost use Rattle.std.specs.List.{list_any};
ghost use Rattle.lr_rules.specs.Limits.{is_format};
ghost use Rattle.lr_stamps.specs.Asked.{FieldsDiffer};
ghost use Rattle.lr_rules.specs.Dated.{IsNumberedStamp};
ghost use Rattle.lr_stamps.specs.Serials.{is_dot, IsCounted};

use crate::digits::plain_number;
use crate::moment::moment_of;
use lr_rules::{Format, Piece};

// What stands before the last dot and behind it.
fn split_last(bytes: &[u8]) -> Option<(&[u8], &[u8])>
    ensures { MatchOption result ((front end : List ℕ) → bytes.now ≢ front ++ 46 ∷ end)
        (λ r. (bytes.now ≡ r.0.now ++ 46 ∷ r.1.now) × (list_any is_dot r.1.now ≡ false)) }
{
    let mut at = bytes.len();
    while at > 0 {
        at -= 1;
        if bytes[at] == b'.' {
            return Some((&bytes[..at], &bytes[at + 1..]));
        }
    }
    None
}

// The serial number that these bytes are the plain decimal text of, from 1 to 4,294,967,295.
fn serial_of(digits: &[u8]) -> Option<u32>
    ensures some { IfSome result (λ serial. (0 < serial) × (serial ≤ 4294967295) × (digits.now ≡ decimal serial)) }
    ensures none { IfNone result ((serial : ℕ) → 0 < serial → serial ≤ 4294967295 → digits.now ≢ decimal serial) }
{
    let number = plain_number(digits)?;
    if 0 < number && number <= 4_294_967_295 {
        Some(number as u32)
    } else {
        None
    }
}

// The seconds of a stamp and the serial number behind it, where there is one.
fn counted(pieces: &[Piece], bytes: &[u8]) -> Option<(i64, u32)>
    requires { FieldsDiffer pieces.now }
    ensures { (t : ℤ) (k : ℕ) → (result ≡ Some (t, k)) ↔ IsCounted pieces.now t k bytes.now }
{
    let Some((stamp, digits)) = split_last(bytes) else {
        return None;
    };
    let Some(serial) = serial_of(digits) else {
        return None;
    };
    match moment_of(pieces, stamp) {
        Some(seconds) => Some((seconds, serial)),
        None => None,
    }
}

/// The seconds of the stamp that these bytes are, and the serial number behind it, 0 where there is none; None exactly
/// where they are no stamp of this format, with a serial number where the format has those. It takes no memory.
pub fn read_stamp(format: &Format, bytes: &[u8]) -> Option<(i64, u32)>
    requires { is_format format.now ≡ true }
    ensures { (t : ℤ) (k : ℕ) → (result ≡ Some (t, k)) ↔ IsNumberedStamp format.now t k bytes.now }
{
    let pieces = format.pieces.as_slice();
    if let Some(seconds) = moment_of(pieces, bytes) {
        return Some((seconds, 0));
    }
    if format.serial {
        counted(pieces, bytes)
    } else {
        None
    }
}
