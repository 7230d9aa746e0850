// Copies of fields.
ghost use Rattle.std.specs.Prelude.{◌≡◌, IfOk};

use crate::fields::Fields;
use lr_rules::{Listed, Memory, Piece, copy_rule};
use std::alloc::Global;

/// A copy of the pieces of a stamp, where there are any.
pub(crate) fn copy_pieces(
    alloc: Global,
    pieces: &Option<Listed<Piece>>,
) -> Result<Option<Listed<Piece>>, Memory>
    ensures { IfOk result (λ copy. copy ≡ pieces.now) }
{
    match pieces {
        Some(pieces) => Ok(Some(Listed::from_vec(pieces.as_slice().to_vec(alloc)?))),
        None => Ok(None),
    }
}

/// A copy of the fields.
pub fn copy_fields(alloc: Global, fields: &Fields) -> Result<Fields, Memory>
    ensures { IfOk result (λ copy. copy ≡ fields.now) }
{
    let pieces = copy_pieces(alloc, &fields.pieces)?;
    let rule = copy_rule(alloc, &fields.rule)?;
    Ok(Fields {
        rule,
        dated: fields.dated,
        pieces,
        back: fields.back,
        serial: fields.serial,
    })
}
