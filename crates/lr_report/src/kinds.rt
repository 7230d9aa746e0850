// The words for kinds of faults.
ghost use Rattle.std.specs.Prelude.{◌≡◌};
ghost use Rattle.lr_report.specs.Kinds.{conf_kind_text, state_kind_text, zone_text, call_text, phase_text};

use lr_rules::{CallKind, ConfKind, Phase, StateKind, ZoneWhy};

/// The name of the kind.
pub fn conf_kind_name(kind: ConfKind) -> &'static [u8]
    ensures { result.now ≡ conf_kind_text kind }
{
    match kind {
        ConfKind::LineTooLong => b"LineTooLong",
        ConfKind::NotUtf8 => b"NotUtf8",
        ConfKind::OpenQuote => b"OpenQuote",
        ConfKind::NoEndscript => b"NoEndscript",
        ConfKind::NestedBrace => b"NestedBrace",
        ConfKind::Unknown => b"Unknown",
        ConfKind::OutsideSet => b"OutsideSet",
        ConfKind::InsideSet => b"InsideSet",
        ConfKind::ScriptTwice => b"ScriptTwice",
        ConfKind::MissingValue => b"MissingValue",
        ConfKind::Stray => b"Stray",
        ConfKind::BadNumber => b"BadNumber",
        ConfKind::BadSize => b"BadSize",
        ConfKind::TooLarge => b"TooLarge",
        ConfKind::BadFormat => b"BadFormat",
        ConfKind::BadMode => b"BadMode",
        ConfKind::BadPath => b"BadPath",
        ConfKind::NoBrace => b"NoBrace",
        ConfKind::NoFile => b"NoFile",
        ConfKind::TooDeep => b"TooDeep",
        ConfKind::TooManyFiles => b"TooManyFiles",
        ConfKind::TooBig => b"TooBig",
        ConfKind::Writable => b"Writable",
    }
}

/// The name of the kind.
pub fn state_kind_name(kind: StateKind) -> &'static [u8]
    ensures { result.now ≡ state_kind_text kind }
{
    match kind {
        StateKind::TooBig => b"TooBig",
        StateKind::BadTop => b"BadTop",
        StateKind::BadName => b"BadName",
        StateKind::BadDate => b"BadDate",
        StateKind::Twice => b"Twice",
    }
}

/// The name of the reason.
pub fn zone_name(why: ZoneWhy) -> &'static [u8]
    ensures { result.now ≡ zone_text why }
{
    match why {
        ZoneWhy::NotFile => b"NotFile",
        ZoneWhy::TooBig => b"TooBig",
        ZoneWhy::Refused => b"Refused",
    }
}

/// What the call does, in words.
pub fn call_name(kind: CallKind) -> &'static [u8]
    ensures { result.now ≡ call_text kind }
{
    match kind {
        CallKind::Begin => b"begin",
        CallKind::Look => b"look",
        CallKind::List => b"list",
        CallKind::Read => b"read",
        CallKind::Rename => b"rename",
        CallKind::Make => b"make",
        CallKind::Append => b"append",
        CallKind::Truncate => b"truncate",
        CallKind::Unlink => b"unlink",
        CallKind::Sync => b"sync",
        CallKind::MakeDir => b"make directory",
        CallKind::Run => b"run",
    }
}

/// The word of a configuration that gives the program.
pub fn phase_name(phase: Phase) -> &'static [u8]
    ensures { result.now ≡ phase_text phase }
{
    match phase {
        Phase::First => b"firstaction",
        Phase::Pre => b"prerotate",
        Phase::Post => b"postrotate",
        Phase::Last => b"lastaction",
        Phase::Preremove => b"preremove",
        Phase::Mail => b"mail",
    }
}
