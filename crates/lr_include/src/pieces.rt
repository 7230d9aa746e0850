// The pieces of a file, of what its bytes told.
ghost use Rattle.std.specs.Prelude.{◌≡◌, IfOk};
ghost use Rattle.lr_rules.specs.declared.fault.ConfKind.TheVariants as kind;
ghost use Rattle.lr_conf.specs.Meaning.{conf};
ghost use Rattle.lr_include.specs.Stages.{piece_of, last_piece};

use crate::kind::conf_kind;
use crate::part::TextEnd;
use crate::task::ReadPiece;
use lr_lex::{Item, LexFault};
use lr_rules::{CallKind, ConfKind, Fault, Memory, Path};
use std::alloc::Global;

/// The piece of an item or of the fault of a line.
pub(crate) fn piece_of(told: Result<Item, LexFault>) -> Option<ReadPiece>
    ensures { result ≡ piece_of told }
{
    match told {
        Ok(item) => Some(ReadPiece::Item(item)),
        Err(fault) => match conf_kind(fault.kind) {
            Some(kind) => Some(ReadPiece::Fault(fault.line, kind)),
            None => None,
        },
    }
}

fn too_big(alloc: Global, file: &Path) -> Result<Fault, Memory>
    ensures { IfOk result (λ f. f ≡ conf file.now kind.TooBig 0) }
{
    Ok(Fault::Conf {
        file: file.copy(alloc)?,
        line: 0,
        kind: ConfKind::TooBig,
    })
}

/// The end of the file, or the place where its reading breaks off.
pub(crate) fn last_piece(alloc: Global, file: &Path, how: TextEnd) -> Result<ReadPiece, Memory>
    ensures { IfOk result (λ p. p ≡ last_piece file.now how) }
{
    match how {
        TextEnd::Whole => Ok(ReadPiece::End),
        TextEnd::TooMany => Ok(ReadPiece::Break(too_big(alloc, file)?)),
        TextEnd::Failed => Ok(ReadPiece::Break(Fault::Call(CallKind::Read, file.copy(alloc)?))),
    }
}
