// The moment of a stamp.
ghost use Rattle.std.specs.Prelude.{◌≡◌, ◌↔◌, ◌<◌, ℤ, IsSome, IfSome, pos, true};
ghost use Rattle.lr_rules.specs.declared.rule.Field.TheVariants as field;
ghost use Rattle.lr_rules.specs.Civil.{moment_seconds};
ghost use Rattle.lr_rules.specs.Stamps.{is_in};
ghost use Rattle.lr_stamps.specs.Asked.{FieldsDiffer};
ghost use Rattle.lr_rules.specs.Moments.{AreOfMoment, parts_seconds, seconds_by, IsStamp};

use crate::front::first_piece;
use crate::reading::read;
use lr_rules::{Civil, Field, Piece, StampParts};

// What a field has that a stamp lacks.
const LEAST: StampParts = StampParts {
    year: 1970,
    month: 1,
    day: 1,
    hour: 0,
    minute: 0,
    second: 0,
    epoch: 0,
};

// The civil moment with these parts; None exactly where there is none.
fn civil_of(p: &StampParts) -> Option<Civil>
    ensures some { IsSome result ↔ AreOfMoment p.now }
    ensures value { IfSome result (λ c. (c.year ≡ pos p.now.year) × (c.month ≡ p.now.month) × (c.day ≡ p.now.day)
        × (c.hour ≡ p.now.hour) × (c.minute ≡ p.now.minute) × (c.second ≡ p.now.second)) }
{
    let parts = *p;
    if parts.year > 9999 || parts.month > 12 || parts.day > 31 {
        return None;
    }
    if parts.hour > 23 || parts.minute > 59 || parts.second > 59 {
        return None;
    }
    Civil::new(
        parts.year as i16,
        parts.month as u8,
        parts.day as u8,
        parts.hour as u8,
        parts.minute as u8,
        parts.second as u8,
    )
}

// Whether the seconds since 1970 stand among the pieces.
fn has_epoch(pieces: &[Piece]) -> bool
    ensures { result ≡ is_in field.Epoch pieces.now }
{
    let mut left = pieces;
    while let Some((piece, rest)) = first_piece(left) {
        if let Piece::Field(Field::Epoch) = piece {
            return true;
        }
        left = rest;
    }
    false
}

// The seconds that these parts tell.
fn seconds_by(pieces: &[Piece], parts: &StampParts, civil: &Civil) -> i64
    requires civil { parts_seconds parts.now ≡ moment_seconds civil.now.year civil.now.month civil.now.day civil.now.hour
        civil.now.minute civil.now.second }
    requires small { is_in field.Epoch pieces.now ≡ true → parts.now.epoch < 1000000000000 }
    ensures { result ≡ seconds_by pieces.now parts.now }
{
    let epoch = has_epoch(pieces);
    if epoch {
        parts.epoch as i64
    } else {
        civil.seconds()
    }
}

/// The seconds of the moment whose stamp these bytes are; None exactly where they are no stamp of these pieces. It takes
/// no memory.
pub fn moment_of(pieces: &[Piece], bytes: &[u8]) -> Option<i64>
    requires { FieldsDiffer pieces.now }
    ensures { (t : ℤ) → (result ≡ Some t) ↔ IsStamp pieces.now t bytes.now }
{
    let Some(parts) = read(pieces, bytes, &LEAST) else {
        return None;
    };
    let Some(civil) = civil_of(&parts) else {
        return None;
    };
    Some(seconds_by(pieces, &parts, &civil))
}
