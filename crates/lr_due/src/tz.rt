// The zone that the variable TZ asks for.
ghost use Rattle.std.specs.Prelude.{◌≡◌, [], None, MatchResult, option_copied};
ghost use Rattle.lr_rules.specs.Path.{path_fault, IsRefusal};
ghost use Rattle.lr_due.specs.declared.tz.Zone.TheVariants as asked;
ghost use Rattle.lr_due.specs.Tz.{without_colon, zone_asked, zone_value, zone_fault};

use lr_rules::{Path, PathFault, Text};
use std::alloc::Global;

/// The time zone of a run: UTC, a POSIX rule as `CET-1CEST,M3.5.0,M10.5.0/3`, or a file in the TZif format (RFC 8536).
#[derive(Drop)]
pub enum Zone {
    Utc,
    Rule(Text),
    File(Path),
}

// What stands behind one colon, or all where there is none in front.
fn behind_colon(value: &[u8]) -> &[u8]
    ensures { result.now ≡ without_colon value.now }
{
    match value {
        [b':', rest @ ..] => rest,
        _ => value,
    }
}

fn rule_of(alloc: Global, rule: &[u8]) -> Result<Zone, PathFault>
    ensures { MatchResult result (λ zone. zone ≡ asked.Rule rule.now) (IsRefusal None) }
{
    match Text::new(alloc, rule) {
        Ok(rule) => Ok(Zone::Rule(rule)),
        // What stands behind an ASCII byte of a text is a text, so this is want of memory.
        Err(_) => Err(PathFault::Memory),
    }
}

fn file_of(alloc: Global, path: &[u8]) -> Result<Zone, PathFault>
    ensures { MatchResult result (λ zone. (zone ≡ asked.File path.now) × (path_fault path.now ≡ None))
        (IsRefusal (path_fault path.now)) }
{
    match Path::new(alloc, path) {
        Ok(path) => Ok(Zone::File(path)),
        Err(fault) => Err(fault),
    }
}

fn zone_of_text(alloc: Global, value: &[u8]) -> Result<Zone, PathFault>
    ensures { MatchResult result (λ zone. (zone ≡ zone_asked value.now) × (zone_fault (zone_asked value.now) ≡ None))
        (IsRefusal (zone_fault (zone_asked value.now))) }
{
    match value {
        [] => Ok(Zone::Utc),
        [b'/', ..] => file_of(alloc, value),
        _ if value == b"UTC".as_slice() => Ok(Zone::Utc),
        _ => rule_of(alloc, value),
    }
}

/// The zone that a value of the variable TZ asks for (POSIX, "Environment Variables"; None where it isn't set): after one
/// leading colon is left out, none, an empty one and `UTC` are UTC; one that begins with a slash is the path of a file,
/// and a refusal is that of the path; any other is a rule, which is not looked at here.
pub fn zone_of(alloc: Global, value: Option<&Text>) -> Result<Zone, PathFault>
    ensures { MatchResult result (λ zone. (zone ≡ zone_value (option_copied value.entry)) × (zone_fault zone ≡ None))
        (IsRefusal (zone_fault (zone_value (option_copied value.entry)))) }
{
    match value {
        Some(text) => zone_of_text(alloc, behind_colon(text.bytes())),
        None => Ok(Zone::Utc),
    }
}
