// Pieces of a format of dates.
ghost use Rattle.std.specs.Prelude.{◌≡◌, ◌∷◌, MatchOption};
ghost use Rattle.lr_rules.specs.declared.rule.Field.{Field};
ghost use Rattle.lr_rules.specs.Limits.{letter, rank, is_rank, times, are_first, is_epoch_alone};
ghost use Rattle.lr_words.specs.Formats.{BeginsWith, BeginsWithNone};

use lr_rules::{Field, Piece};

fn field_of(byte: u8) -> Option<Field>
    ensures { MatchOption result ((field : Field) → letter field ≡ byte → ⊥) (λ field. letter field ≡ byte) }
{
    match byte {
        b'Y' => Some(Field::Year),
        b'm' => Some(Field::Month),
        b'd' => Some(Field::Day),
        b'H' => Some(Field::Hour),
        b'M' => Some(Field::Minute),
        b'S' => Some(Field::Second),
        b's' => Some(Field::Epoch),
        _ => None,
    }
}

// The field whose letter stands behind a `%`.
fn first_field(behind: &[u8]) -> Option<(Piece, &[u8])>
    ensures { MatchOption result (BeginsWithNone (37 ∷ behind.now)) (λ r. BeginsWith (37 ∷ behind.now) r.0 r.1.now) }
{
    match behind {
        [] => None,
        [letter, left @ ..] => match field_of(*letter) {
            None => None,
            Some(field) => Some((Piece::Field(field), left)),
        },
    }
}

// The byte as a piece that stands for itself.
fn first_byte(byte: u8, left: &[u8]) -> Option<(Piece, &[u8])>
    requires { ¬ (byte ≡ 37) }
    ensures { MatchOption result (BeginsWithNone (byte ∷ left.now)) (λ r. BeginsWith (byte ∷ left.now) r.0 r.1.now) }
{
    if byte == b'/' || byte == b'\n' || byte == 0 {
        None
    } else {
        Some((Piece::Byte(byte), left))
    }
}

/// The piece that the bytes begin with, and what stands behind it.
pub fn first_piece(bytes: &[u8]) -> Option<(Piece, &[u8])>
    ensures { MatchOption result (BeginsWithNone bytes.now) (λ r. BeginsWith bytes.now r.0 r.1.now) }
{
    match bytes {
        [] => None,
        [byte, left @ ..] => {
            if *byte == b'%' {
                first_field(left)
            } else {
                first_byte(*byte, left)
            }
        }
    }
}

fn rank_of(field: Field) -> usize
    ensures { result ≡ rank field }
{
    match field {
        Field::Year => 0,
        Field::Month => 1,
        Field::Day => 2,
        Field::Hour => 3,
        Field::Minute => 4,
        Field::Second => 5,
        Field::Epoch => 6,
    }
}

fn is_rank(rank: usize, piece: Piece) -> bool
    ensures { result ≡ is_rank rank piece }
{
    match piece {
        Piece::Byte(_) => false,
        Piece::Field(field) => rank == rank_of(field),
    }
}

// How many of the pieces are the field of this rank.
fn times(rank: usize, pieces: &[Piece]) -> usize
    ensures { result ≡ times rank pieces.now }
{
    let mut count = 0;
    for piece in pieces {
        if is_rank(rank, *piece) {
            count += 1;
        }
    }
    count
}

/// Whether the fields are the first of year, month, day, hour, minute and second, each once.
pub fn are_first(pieces: &[Piece]) -> bool
    ensures { result ≡ are_first pieces.now }
{
    let years = times(0, pieces);
    let months = times(1, pieces);
    let days = times(2, pieces);
    let hours = times(3, pieces);
    let minutes = times(4, pieces);
    let seconds = times(5, pieces);
    let epochs = times(6, pieces);
    years == 1
        && (months <= years
            && (days <= months
                && (hours <= days && (minutes <= hours && (seconds <= minutes && epochs == 0)))))
}

/// Whether the one field is the seconds since 1970, once.
pub fn is_epoch_alone(pieces: &[Piece]) -> bool
    ensures { result ≡ is_epoch_alone pieces.now }
{
    let years = times(0, pieces);
    let months = times(1, pieces);
    let days = times(2, pieces);
    let hours = times(3, pieces);
    let minutes = times(4, pieces);
    let seconds = times(5, pieces);
    let epochs = times(6, pieces);
    epochs == 1
        && (years == 0
            && (months == 0 && (days == 0 && (hours == 0 && (minutes == 0 && seconds == 0)))))
}
