// A stamp, read.
ghost use Rattle.std.specs.Prelude.{◌≡◌, ◌↔◌, Some};
ghost use Rattle.lr_rules.specs.declared.stamp_parts.StampParts.{StampParts};
ghost use Rattle.lr_rules.specs.StampParts.{with_part};
ghost use Rattle.lr_rules.specs.Stamps.{IsStampReading};
ghost use Rattle.lr_stamps.specs.Asked.{FieldsDiffer};

use crate::digits::read_field;
use crate::front::{first_byte, first_piece};
use lr_rules::{Field, Piece, StampParts};

fn with_value(parts: &StampParts, field: Field, value: u64) -> StampParts
    ensures { result ≡ with_part parts.now field value }
{
    match field {
        Field::Year => StampParts {
            year: value,
            ..*parts
        },
        Field::Month => StampParts {
            month: value,
            ..*parts
        },
        Field::Day => StampParts {
            day: value,
            ..*parts
        },
        Field::Hour => StampParts {
            hour: value,
            ..*parts
        },
        Field::Minute => StampParts {
            minute: value,
            ..*parts
        },
        Field::Second => StampParts {
            second: value,
            ..*parts
        },
        Field::Epoch => StampParts {
            epoch: value,
            ..*parts
        },
    }
}

/// The values of the fields of which these bytes are the text; None exactly where they are the text of none.
pub fn read(pieces: &[Piece], bytes: &[u8], before: &StampParts) -> Option<StampParts>
    requires { FieldsDiffer pieces.now }
    ensures { (p : StampParts) → (result ≡ Some p) ↔ IsStampReading pieces.now before.now p bytes.now }
{
    let Some((piece, rest)) = first_piece(pieces) else {
        return if bytes.is_empty() {
            Some(*before)
        } else {
            None
        };
    };
    match piece {
        Piece::Byte(b) => match first_byte(bytes) {
            Some((c, more)) => {
                if b == c {
                    read(rest, more, before)
                } else {
                    None
                }
            }
            None => None,
        },
        Piece::Field(field) => match read_field(field, rest.len(), bytes) {
            Some((value, more)) => read(rest, more, &with_value(before, field, value)),
            None => None,
        },
    }
}
