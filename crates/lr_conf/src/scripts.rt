// Which scripts a definition takes.
ghost use Rattle.std.specs.Prelude.{◌≡◌};
ghost use Rattle.std.specs.List.{list_any};
ghost use Rattle.lr_conf.specs.Scripts.{is_phase, script_fault};

use lr_rules::{ConfKind, Phase};

// Whether one of the scripts is of this phase.
fn has_script(scripts: &[Phase], phase: Phase) -> bool
    ensures { result ≡ list_any (is_phase phase) scripts.now }
{
    scripts.iter().any(|script| is_phase(phase, *script))
}

fn is_phase(a: Phase, b: Phase) -> bool
    ensures { result ≡ is_phase a b }
{
    match (a, b) {
        (Phase::First, Phase::First) => true,
        (Phase::Pre, Phase::Pre) => true,
        (Phase::Post, Phase::Post) => true,
        (Phase::Last, Phase::Last) => true,
        (Phase::Preremove, Phase::Preremove) => true,
        (Phase::Mail, Phase::Mail) => true,
        _ => false,
    }
}

/// The fault of a script in a definition where these stand before it; a second of a kind is ScriptTwice.
pub fn script_fault(scripts: &[Phase], phase: Phase, stray: bool) -> Option<ConfKind>
    ensures { result ≡ script_fault scripts.now phase stray }
{
    if has_script(scripts, phase) {
        Some(ConfKind::ScriptTwice)
    } else if stray {
        Some(ConfKind::Stray)
    } else {
        None
    }
}
