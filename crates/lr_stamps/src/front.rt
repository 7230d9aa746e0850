// The first piece and the first byte.
ghost use Rattle.std.specs.Prelude.{◌≡◌, [], ◌∷◌, MatchOption};

use lr_rules::Piece;

/// The first piece, and the others.
pub fn first_piece(pieces: &[Piece]) -> Option<(Piece, &[Piece])>
    ensures { MatchOption result (pieces.now ≡ []) (λ r. pieces.now ≡ r.0 ∷ r.1.now) }
{
    match pieces {
        [] => None,
        [first, rest @ ..] => Some((*first, rest)),
    }
}

/// The first byte, and the others.
pub fn first_byte(bytes: &[u8]) -> Option<(u8, &[u8])>
    ensures { MatchOption result (bytes.now ≡ []) (λ r. bytes.now ≡ r.0 ∷ r.1.now) }
{
    match bytes {
        [] => None,
        [first, rest @ ..] => Some((*first, rest)),
    }
}
