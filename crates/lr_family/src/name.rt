// The names in a directory: their paths, and the places of those that are members.
ghost use Rattle.std.specs.Prelude.{◌≡◌, true, None, Some, IfOk, MatchOption};
ghost use Rattle.lr_rules.specs.Limits.{is_format, or_none};
ghost use Rattle.lr_rules.specs.Path.{joined};
ghost use Rattle.lr_family.specs.Parts.{IsMember};
ghost use Rattle.lr_family.specs.Places.{IsPlaceOf};

use crate::number::place_of_name;
use crate::place::Place;
use lr_rules::{Format, Memory, Naming, Path, Text};
use lr_stamps::stamp_in;
use std::alloc::Global;

/// The path of this name in the directory, for a name that is short enough to be one there: every refusal is taken for
/// want of memory.
pub fn path_in(alloc: Global, dir: &Path, name: &Text) -> Result<Path, Memory>
    ensures { IfOk result (λ path. path ≡ joined dir.now name.now) }
{
    match dir.join(alloc, name.bytes()) {
        Ok(path) => Ok(path),
        Err(_) => Err(Memory),
    }
}

// The place of the numbered member with this name.
fn number_of(naming: &Naming, name: &[u8]) -> Option<Place>
    requires { naming.now.dated ≡ None }
    ensures { MatchOption result (IsMember naming.now (joined naming.now.dir name.now) → ⊥)
        (λ place. IsPlaceOf naming.now place (joined naming.now.dir name.now)) }
{
    match place_of_name(naming, name) {
        Some(place) => Some(Place::Number(place)),
        None => None,
    }
}

// The place of the dated member with this name.
fn stamp_of(naming: &Naming, format: &Format, name: &[u8]) -> Option<Place>
    requires format { is_format format.now ≡ true }
    requires dated { naming.now.dated ≡ Some format.now }
    ensures { MatchOption result (IsMember naming.now (joined naming.now.dir name.now) → ⊥)
        (λ place. IsPlaceOf naming.now place (joined naming.now.dir name.now)) }
{
    match stamp_in(naming, format, name) {
        Some((seconds, serial)) => Some(Place::Stamp(seconds, serial)),
        None => None,
    }
}

/// The place of the member with this name, numbered or dated, where it is one. It takes no memory.
pub fn place_in(naming: &Naming, name: &[u8]) -> Option<Place>
    requires { or_none is_format naming.now.dated ≡ true }
    ensures { MatchOption result (IsMember naming.now (joined naming.now.dir name.now) → ⊥)
        (λ place. IsPlaceOf naming.now place (joined naming.now.dir name.now)) }
{
    match &naming.dated {
        Some(format) => stamp_of(naming, format, name),
        None => number_of(naming, name),
    }
}
