// Formats of dates.
ghost use Rattle.std.specs.Prelude.{◌≡◌, ◌||◌, List, true, IfOk, MatchOption};
ghost use Rattle.std.specs.List.{list_all};
ghost use Rattle.lr_rules.specs.declared.rule.Piece.{Piece};
ghost use Rattle.lr_rules.specs.Limits.{is_plain_piece, written, are_first, is_epoch_alone};
ghost use Rattle.lr_words.specs.Formats.{FormatSays};

use crate::piece::{are_first, first_piece, is_epoch_alone};
use lr_rules::{ConfKind, Listed, Memory, Piece, is_utf8};
use std::alloc::{AllocError, Global};

// The pieces that the word writes.
fn pieces_of(alloc: Global, word: &[u8]) -> Result<Option<Vec<Piece>>, AllocError>
    ensures { IfOk result (λ o. MatchOption o
        ((pieces : List Piece) → written pieces ≡ word.now → list_all is_plain_piece pieces ≡ true → ⊥)
        (λ v. (written v.items ≡ word.now) × (list_all is_plain_piece v.items ≡ true))) }
{
    let mut pieces = Vec::with_capacity(alloc, word.len())?;
    let mut left = word;
    while !left.is_empty() {
        let Some((piece, behind)) = first_piece(left) else {
            return Ok(None);
        };
        pieces.push(piece)?;
        left = behind;
    }
    Ok(Some(pieces))
}

fn has_fields(pieces: &[Piece]) -> bool
    ensures { result ≡ (are_first pieces.now || is_epoch_alone pieces.now) }
{
    are_first(pieces) || is_epoch_alone(pieces)
}

/// The format of a date that the word says, as bytes and fields. The fields are the first of `%Y`, `%m`, `%d`, `%H`,
/// `%M`, `%S`, each once and in any order, or `%s` alone; every other byte but `%`, `/`, newline and zero stands for
/// itself. BadFormat: it isn't so, has more than 64 bytes, or isn't UTF-8.
pub fn format(alloc: Global, word: &[u8]) -> Result<Result<Listed<Piece>, ConfKind>, Memory>
    ensures { IfOk result (λ r. FormatSays word.now r) }
{
    if word.len() > 64 || !is_utf8(word) {
        return Ok(Err(ConfKind::BadFormat));
    }
    let Some(pieces) = pieces_of(alloc, word)? else {
        return Ok(Err(ConfKind::BadFormat));
    };
    if has_fields(&pieces) {
        Ok(Ok(Listed::from_vec(pieces)))
    } else {
        Ok(Err(ConfKind::BadFormat))
    }
}
