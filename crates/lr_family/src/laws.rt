// Names and places determine each other.
ghost use Rattle.std.specs.Prelude.{◌≡◌, true, Some, None, Err, IfOk, IfSome};
ghost use Rattle.lr_rules.specs.Limits.{is_format, or_none};
ghost use Rattle.lr_stamps.specs.Dated.{MayHaveSerial, clock_seconds};
ghost use Rattle.lr_family.specs.declared.place.Place.TheVariants as at;

use crate::family::Family;
use crate::place::{NameStop, Place};
use lr_rules::{Clock, Memory, Path};
use std::alloc::Global;

/// Makes the name of a place, and reads its place: it is that place.
pub fn name_is_read_back(
    alloc: Global,
    family: &Family,
    place: u32,
) -> Result<Option<Place>, NameStop>
    requires numbered { family.now.naming.dated ≡ None }
    ensures { IfOk result (λ read. read ≡ Some (at.Number place)) }
{
    let path = family.name_at(alloc, place)?;
    Ok(family.place_of(&path))
}

/// Reads the place of a path, and makes the name of that place: it is that path, and never too high.
pub fn path_is_named_again(
    alloc: Global,
    family: &Family,
    path: &Path,
) -> Result<Option<Path>, NameStop>
    requires numbered { family.now.naming.dated ≡ None }
    ensures same { IfOk result (λ named. IfSome named (λ again. again ≡ path.now)) }
    ensures never_too_high { result ≡ Err NameStop.TooHigh → ⊥ }
{
    match family.place_of(path) {
        Some(Place::Number(place)) => match family.name_at(alloc, place) {
            Ok(again) => Ok(Some(again)),
            Err(stop) => Err(stop),
        },
        _ => Ok(None),
    }
}

/// Makes the name of a dated member, and reads its place: it is the seconds of that stamp, and that serial number.
pub fn stamp_is_read_back(
    alloc: Global,
    family: &Family,
    clock: &Clock,
    serial: u32,
) -> Result<Option<Place>, Memory>
    requires format { or_none is_format family.now.naming.dated ≡ true }
    requires serial { MayHaveSerial family.now.naming.dated serial }
    ensures { IfOk result (λ read. read ≡ Some (at.Stamp (clock_seconds family.now.naming.dated clock.entry.now) serial)) }
{
    let path = family.dated(alloc, clock, serial)?;
    Ok(family.place_of(&path))
}
