// A log and the names of its members.
ghost use Rattle.std.specs.Prelude.{◌≡◌, ◌≢◌, ◌<◌, ◌+◌, ◌↔◌, ℕ, ℤ, true, false, Some, None, IfOk, IfErr, IsErrOf};
ghost use Rattle.lr_rules.specs.Names.{IsMemberAt, IsName, Meet};
ghost use Rattle.lr_rules.specs.Limits.{is_format, or_none};
ghost use Rattle.lr_rules.specs.Dated.{IsDatedAt};
ghost use Rattle.lr_stamps.specs.Dated.{IsDatedBy, MayHaveSerial, clock_seconds};
ghost use Rattle.lr_host.specs.Told.{Left, Onward, Rose};
ghost use Rattle.lr_family.specs.declared.place.Place.TheVariants as at;
ghost use Rattle.lr_family.specs.Among.{ShowsIn, ShowsNoneIn, IsExactlyAmong, AreFewAmong, AreFew};
ghost use Rattle.lr_family.specs.Kin.{IsKin};
ghost use Rattle.lr_family.specs.Places.{AreNamed};
ghost use Rattle.lr_family.specs.Standing.{ShowsStand, ShowsStop, IsExactly};
ghost use Rattle.lr_family.specs.Stands.{AreNewestFirst, IsFailedStand};

use crate::listing::Listing;
use crate::number::{member_path, place_of_path};
use crate::place::{NameStop, Place};
use crate::stand::{Stand, StandStop};
use crate::standing::stand_among;
use lr_host::Host;
use lr_rules::{Clock, Memory, Naming, Path};
use lr_stamps::{dated_path, stamp_at};
use std::alloc::Global;

// The place of the numbered member with this path.
fn number_place(naming: &Naming, path: &Path) -> Option<Place>
    ensures numbers { (place : ℕ) → (result ≡ Some (at.Number place)) ↔ IsMemberAt naming.now place path.now }
    ensures no_stamp { (seconds : ℤ) (serial : ℕ) → result ≢ Some (at.Stamp seconds serial) }
{
    match place_of_path(naming, path) {
        Some(place) => Some(Place::Number(place)),
        None => None,
    }
}

// The place of the dated member with this path.
fn stamp_place(naming: &Naming, path: &Path) -> Option<Place>
    requires { or_none is_format naming.now.dated ≡ true }
    ensures stamps { (seconds : ℤ) (serial : ℕ) → (result ≡ Some (at.Stamp seconds serial))
        ↔ IsDatedAt naming.now seconds serial path.now }
    ensures no_number { (place : ℕ) → result ≢ Some (at.Number place) }
{
    match stamp_at(naming, path) {
        Some((seconds, serial)) => Some(Place::Stamp(seconds, serial)),
        None => None,
    }
}

/// A log and how its members are named. The directory has at most 2,600 bytes, base and extension together at most 400,
/// and no `/`, newline or zero byte; so each member's path is a path. The log is no member.
#[derive(Drop)]
pub struct Family {
    log: Path,
    naming: Naming,
    ghost kin: { IsKin log naming },
}

impl Family {
    /// The family of the log by this naming, without taking memory.
    pub fn of(log: Path, naming: Naming) -> Family
        requires kin { IsKin log naming }
        ensures log { result.log ≡ log }
        ensures naming { result.naming ≡ naming }
    {
        Family { log, naming }
    }

    /// The log.
    pub fn log(&self) -> &Path
        ensures { result.now ≡ self.now.log }
    {
        &self.log
    }

    /// How the members are named.
    pub fn naming(&self) -> &Naming
        ensures { result.now ≡ self.now.naming }
    {
        &self.naming
    }

    /// The path of the member at this place, of a numbered family. `TooHigh` comes exactly where its number would be
    /// above 4,294,967,295.
    pub fn name_at(&self, alloc: Global, place: u32) -> Result<Path, NameStop>
        requires numbered { self.now.naming.dated ≡ None }
        ensures path { IfOk result (λ path. IsMemberAt self.now.naming place path) }
        ensures too_high { IsErrOf result NameStop.TooHigh ↔ (4294967295 < self.now.naming.start + place) }
    {
        let Some(number) = self.naming.start.checked_add(place) else {
            return Err(NameStop::TooHigh);
        };
        match member_path(alloc, &self.naming, number) {
            Ok(path) => Ok(path),
            Err(_) => Err(NameStop::Memory),
        }
    }

    /// The path of the member of a dated family whose stamp this clock gives, with this serial number, 0 for none.
    pub fn dated(&self, alloc: Global, clock: &Clock, serial: u32) -> Result<Path, Memory>
        requires format { or_none is_format self.now.naming.dated ≡ true }
        requires serial { MayHaveSerial self.now.naming.dated serial }
        ensures path { IfOk result (λ path. IsDatedBy self.now.naming clock.entry.now serial path) }
        ensures member { IfOk result (λ path. IsDatedAt self.now.naming (clock_seconds self.now.naming.dated clock.entry.now) serial
            path) }
    {
        dated_path(alloc, &self.naming, clock, serial)
    }

    /// The place of the member with this path; None exactly where the path is no member's. It takes no memory.
    pub fn place_of(&self, path: &Path) -> Option<Place>
        requires format { or_none is_format self.now.naming.dated ≡ true }
        ensures numbers { (place : ℕ) → (result ≡ Some (at.Number place))
            ↔ ((self.now.naming.dated ≡ None) × IsMemberAt self.now.naming place path.now) }
        ensures stamps { (seconds : ℤ) (serial : ℕ) → (result ≡ Some (at.Stamp seconds serial))
            ↔ IsDatedAt self.now.naming seconds serial path.now }
    {
        match &self.naming.dated {
            Some(_) => stamp_place(&self.naming, path),
            None => number_place(&self.naming, path),
        }
    }

    /// Whether the log meets the path: it is the log itself, the directory of its members, or has the shape of a member,
    /// with any digits where a member has some, or that of a member's part file. It takes no memory.
    pub fn meets(&self, path: &Path) -> bool
        ensures { (result ≡ true) ↔ IsName self.now.log self.now.naming path.now }
    {
        lr_shapes::meets(&self.log, &self.naming, path)
    }

    /// Which members of the family stand, the newest first, and which of their part files, in a directory that was listed:
    /// looks at each member among its names, in order of bytes, then at each part file of one, and at nothing else. A name
    /// that is gone since it was listed is no member. Each member has the path of its place: of a numbered family its
    /// number, of a dated one its stamp and serial number. `NotFile` comes exactly where a member isn't a regular file; a
    /// part file that isn't one is left out.
    pub fn stand_in<H: Host>(
        &self,
        alloc: Global,
        host: &mut H,
        listing: &Listing,
    ) -> Result<Stand, StandStop>
        requires format { or_none is_format self.now.naming.dated ≡ true }
        requires dir { listing.now.dir ≡ self.now.naming.dir }
        ensures told { IfOk result (λ stand. Left (ShowsIn self.now.naming listing.now.there listing.now.parent listing.now.names
            stand) (H.told host.old) (H.told host.new)) }
        ensures stopped { IfErr result (λ stop. Left (ShowsNoneIn self.now.naming listing.now.there listing.now.names stop)
            (H.told host.old) (H.told host.new)) }
        ensures named { IfOk result (λ stand. AreNamed self.now.naming stand.members) }
        ensures newest { IfOk result (λ stand. AreNewestFirst stand.members) }
        ensures exactly { Left (IsExactlyAmong self.now.naming listing.now.names result) (H.told host.old) (H.told host.new) }
        ensures few { Left (AreFewAmong self.now.naming listing.now.names) (H.told host.old) (H.told host.new) }
        ensures cause { IfErr result (λ stop. IsFailedStand stop → Rose (H.counts host.old).faults (H.counts host.new).faults) }
        ensures counts { Onward (H.counts host.old) (H.counts host.new) }
    {
        stand_among(alloc, host, &self.naming, listing)
    }

    /// Which members of the family stand, the newest first, and which of their part files: looks for the directory, lists
    /// it, and looks as `stand_in` does. Where the directory isn't there, looks for its parent. Each member has the path of its
    /// place. `NotFile` comes exactly where the directory is named but is no directory, or a member isn't a regular file.
    /// Who asks for several families of a directory lists it once (`Listing::take`, `stand_in`).
    pub fn stand<H: Host>(&self, alloc: Global, host: &mut H) -> Result<Stand, StandStop>
        requires format { or_none is_format self.now.naming.dated ≡ true }
        ensures told { IfOk result (λ stand. Left (ShowsStand self.now.naming stand) (H.told host.old) (H.told host.new)) }
        ensures stopped { IfErr result (λ stop. Left (ShowsStop self.now.naming stop) (H.told host.old) (H.told host.new)) }
        ensures named { IfOk result (λ stand. AreNamed self.now.naming stand.members) }
        ensures newest { IfOk result (λ stand. AreNewestFirst stand.members) }
        ensures exactly { Left (IsExactly self.now.naming result) (H.told host.old) (H.told host.new) }
        ensures few { Left (AreFew self.now.naming) (H.told host.old) (H.told host.new) }
        ensures cause { IfErr result (λ stop. IsFailedStand stop → Rose (H.counts host.old).faults (H.counts host.new).faults) }
        ensures counts { Onward (H.counts host.old) (H.counts host.new) }
    {
        match Listing::take(alloc, host, &self.naming.dir) {
            Ok(listing) => self.stand_in(alloc, host, &listing),
            Err(stop) => Err(stop),
        }
    }
}

/// Whether the two logs are apart: no path meets both, but for a directory in which the members of both stand. It takes
/// no memory.
pub fn apart(a: &Family, b: &Family) -> bool
    ensures { (result ≡ false) ↔ Meet a.now.log a.now.naming b.now.log b.now.naming }
{
    lr_shapes::apart(&a.log, &a.naming, &b.log, &b.naming)
}
