// A stamp, written.
ghost use Rattle.std.specs.Prelude.{◌≡◌, ◌<◌, ◌++◌, OnOk};
ghost use Rattle.lr_rules.specs.declared.rule.Field.TheVariants as field;
ghost use Rattle.lr_rules.specs.StampParts.{part};
ghost use Rattle.lr_rules.specs.Stamps.{two, field_text, bound, piece_text, stamp_text};
ghost use Rattle.lr_stamps.specs.Asked.{ArePartsSmall};

use lr_rules::{Field, Memory, Piece, StampParts};
use std::alloc::Global;

fn push_two(bytes: &mut Vec<u8>, value: u64) -> Result<(), Memory>
    requires { value < 100 }
    ensures { OnOk result (bytes.new.items ≡ bytes.old.items ++ two value) }
{
    bytes.push(b'0' + (value / 10) as u8)?;
    bytes.push(b'0' + (value % 10) as u8)?;
    Ok(())
}

fn push_four(bytes: &mut Vec<u8>, value: u64) -> Result<(), Memory>
    requires { value < 10000 }
    ensures { OnOk result (bytes.new.items ≡ bytes.old.items ++ field_text field.Year value) }
{
    push_two(bytes, value / 100)?;
    push_two(bytes, value % 100)
}

fn push_number(alloc: Global, bytes: &mut Vec<u8>, value: u64) -> Result<(), Memory>
    ensures { OnOk result (bytes.new.items ≡ bytes.old.items ++ field_text field.Epoch value) }
{
    let digits = format!(in alloc; "{value}")?;
    bytes.extend_from_slice(digits.as_bytes())?;
    Ok(())
}

fn value_of(parts: &StampParts, field: Field) -> u64
    ensures { result ≡ part parts.now field }
{
    match field {
        Field::Year => parts.year,
        Field::Month => parts.month,
        Field::Day => parts.day,
        Field::Hour => parts.hour,
        Field::Minute => parts.minute,
        Field::Second => parts.second,
        Field::Epoch => parts.epoch,
    }
}

fn push_field(alloc: Global, bytes: &mut Vec<u8>, field: Field, value: u64) -> Result<(), Memory>
    requires { value < bound field }
    ensures { OnOk result (bytes.new.items ≡ bytes.old.items ++ field_text field value) }
{
    match field {
        Field::Year => push_four(bytes, value),
        Field::Epoch => push_number(alloc, bytes, value),
        Field::Month => push_two(bytes, value),
        Field::Day => push_two(bytes, value),
        Field::Hour => push_two(bytes, value),
        Field::Minute => push_two(bytes, value),
        Field::Second => push_two(bytes, value),
    }
}

fn push_piece(
    alloc: Global,
    bytes: &mut Vec<u8>,
    piece: Piece,
    parts: &StampParts,
) -> Result<(), Memory>
    requires { ArePartsSmall parts.now }
    ensures { OnOk result (bytes.new.items ≡ bytes.old.items ++ piece_text parts.now piece) }
{
    match piece {
        Piece::Byte(b) => {
            bytes.push(b)?;
            Ok(())
        }
        Piece::Field(field) => push_field(alloc, bytes, field, value_of(parts, field)),
    }
}

/// Adds the text of the pieces with these values.
pub fn push_stamp(
    alloc: Global,
    bytes: &mut Vec<u8>,
    pieces: &[Piece],
    parts: &StampParts,
) -> Result<(), Memory>
    requires { ArePartsSmall parts.now }
    ensures { OnOk result (bytes.new.items ≡ bytes.old.items ++ stamp_text parts.now pieces.now) }
{
    for piece in pieces {
        push_piece(alloc, bytes, *piece, parts)?;
    }
    Ok(())
}
