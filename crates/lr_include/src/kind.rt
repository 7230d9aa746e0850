// The faults of lines as reports tell them.
ghost use Rattle.std.specs.Prelude.{◌≡◌};
ghost use Rattle.lr_include.specs.Lines.{conf_kind};

use lr_lex::LexKind;
use lr_rules::ConfKind;

/// The kind of a fault of the lexer; none for want of memory.
pub fn conf_kind(kind: LexKind) -> Option<ConfKind>
    ensures { result ≡ conf_kind kind }
{
    match kind {
        LexKind::LineTooLong => Some(ConfKind::LineTooLong),
        LexKind::NotUtf8 => Some(ConfKind::NotUtf8),
        LexKind::OpenQuote => Some(ConfKind::OpenQuote),
        LexKind::NoEndscript => Some(ConfKind::NoEndscript),
        LexKind::Memory => None,
    }
}
