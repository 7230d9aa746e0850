// Scripts.
ghost use Rattle.std.specs.Prelude.{◌≡◌};
ghost use Rattle.lr_forms.specs.Says.{directive_of, phase_of, script_in, script_says};

use crate::row::directive_of;
use crate::said::LineSaid;
use lr_rules::{ConfKind, Phase, Text};
use lr_tables::Directive;

fn phase_of(directive: Directive) -> Option<Phase>
    ensures { result ≡ phase_of directive }
{
    match directive {
        Directive::Firstaction => Some(Phase::First),
        Directive::Prerotate => Some(Phase::Pre),
        Directive::Postrotate => Some(Phase::Post),
        Directive::Lastaction => Some(Phase::Last),
        Directive::Preremove => Some(Phase::Preremove),
        _ => None,
    }
}

fn script_in(inside: bool, text: Text, stray: bool, phase: Option<Phase>) -> LineSaid
    ensures { result ≡ script_in inside text stray phase }
{
    match phase {
        None => LineSaid::Unknown,
        Some(phase) => {
            if inside {
                LineSaid::Script { phase, text, stray }
            } else {
                LineSaid::Bad(ConfKind::OutsideSet)
            }
        }
    }
}

/// What a script says by itself.
pub(crate) fn script_says(
    inside: bool,
    brace: bool,
    stray: bool,
    word: &[u8],
    text: Text,
) -> LineSaid
    ensures { result ≡ script_says inside brace stray word.now text }
{
    if inside && brace {
        return LineSaid::Bad(ConfKind::NestedBrace);
    }
    match directive_of(word) {
        Some(directive) => script_in(inside, text, stray, phase_of(directive)),
        None => LineSaid::Unknown,
    }
}
