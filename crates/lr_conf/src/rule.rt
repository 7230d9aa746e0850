// The rule that the fields of a definition make.
ghost use Rattle.std.specs.Prelude.{◌≡◌, IfOk};
ghost use Rattle.lr_conf.specs.Rules.{default_pieces, pieces_of, format_of, rule_of};

use crate::copies::copy_pieces;
use crate::fields::Fields;
use lr_rules::{Criterion, Field, Format, Listed, Memory, Path, Piece, Rule, Text};
use std::alloc::Global;

// The format of dated names where no line gives one: `-%Y%m%d`, and with the hour where the criterion is hourly.
fn default_pieces(alloc: Global, criterion: Criterion) -> Result<Listed<Piece>, Memory>
    ensures { IfOk result (λ pieces. pieces ≡ default_pieces criterion) }
{
    let mut pieces = Vec::from_array(
        alloc,
        [
            Piece::Byte(b'-'),
            Piece::Field(Field::Year),
            Piece::Field(Field::Month),
            Piece::Field(Field::Day),
        ],
    )?;
    if let Criterion::Hourly = criterion {
        pieces.push(Piece::Field(Field::Hour))?;
    }
    Ok(Listed::from_vec(pieces))
}

// Those that a line gives, else the default.
fn pieces_of(
    alloc: Global,
    criterion: Criterion,
    pieces: &Option<Listed<Piece>>,
) -> Result<Listed<Piece>, Memory>
    ensures { IfOk result (λ r. r ≡ pieces_of criterion pieces.now) }
{
    match copy_pieces(alloc, pieces)? {
        Some(pieces) => Ok(pieces),
        None => default_pieces(alloc, criterion),
    }
}

/// The format of dated names of a definition that ends with these fields, where they ask for dates.
pub fn format_of(alloc: Global, fields: &Fields) -> Result<Option<Format>, Memory>
    ensures { IfOk result (λ format. format ≡ format_of fields.now) }
{
    if !fields.dated {
        return Ok(None);
    }
    Ok(Some(Format {
        pieces: pieces_of(alloc, fields.rule.criterion, &fields.pieces)?,
        back: fields.back,
        serial: fields.serial,
    }))
}

/// The rule of a definition that is whole.
pub fn rule_of(
    file: Path,
    line: u32,
    words: Listed<Text>,
    fields: Fields,
    dated: Option<Format>,
) -> Rule
    requires { dated ≡ format_of fields }
    ensures { result ≡ rule_of file line words fields }
{
    let mut rule = fields.rule;
    rule.file = file;
    rule.line = line;
    rule.words = words;
    rule.dated = dated;
    rule
}
