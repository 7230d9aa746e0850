// The dated name that the log gets, and what keeps it from that.
ghost use Rattle.std.specs.Prelude.{◌≡◌, [], ◌∷◌, true, Some, IsSome, MatchOption, OnOk, IfOk, IfErr};
ghost use Rattle.lr_rules.specs.declared.fault.Fault.{Fault};
ghost use Rattle.lr_rules.specs.declared.path.Path.{Path};
ghost use Rattle.lr_rules.specs.Limits.{is_format, or_none};
ghost use Rattle.lr_stamps.specs.Dated.{clock_seconds};
ghost use Rattle.lr_family.specs.Places.{AreNamed};
ghost use Rattle.lr_chain.specs.DatedReady.{dated_target};
ghost use Rattle.lr_chain.specs.Hindrances.{is_stamp, fault_at, stamp_hindrances, IsHindered};
ghost use Rattle.lr_chain.specs.Serials.{serial_behind, next_serial};

use crate::ready::PrepareStop;
use crate::refusals::{taken, too_high};
use lr_family::{Family, Member, Place};
use lr_rules::{Clock, Format, Memory, Path};
use std::alloc::Global;

/// The name that the log gets, the seconds of its stamp, and its serial number.
#[derive(Drop)]
pub struct Target {
    pub path: Path,
    pub seconds: i64,
    pub serial: u32,
}

fn is_stamp(place: Place, seconds: i64, serial: u32) -> bool
    ensures { result ≡ is_stamp seconds serial place }
{
    match place {
        Place::Stamp(moment, number) => moment == seconds && number == serial,
        Place::Number(_) => false,
    }
}

// The path of the member with this moment and serial number.
fn member_at<'a>(members: &'a [Member], seconds: i64, serial: u32) -> Option<&'a Path>
    ensures { (why : Path → Fault) → MatchOption result (fault_at why seconds serial members.now ≡ [])
        (λ path. fault_at why seconds serial members.now ≡ why path.now ∷ []) }
{
    for member in members {
        if is_stamp(member.place, seconds, serial) {
            return Some(&member.path);
        }
    }
    None
}

// Why the log can't get a name of this moment.
fn refusal(alloc: Global, format: &Format, members: &[Member], seconds: i64) -> Option<PrepareStop>
    ensures { MatchOption result (stamp_hindrances format.now seconds members.now ≡ [])
        (IsHindered (stamp_hindrances format.now seconds members.now)) }
{
    if format.serial {
        match member_at(members, seconds, u32::MAX) {
            Some(path) => Some(too_high(alloc, path)),
            None => None,
        }
    } else {
        match member_at(members, seconds, 0) {
            Some(path) => Some(taken(alloc, path)),
            None => None,
        }
    }
}

// One more than the serial number of a place with this moment, 0 for any other place.
fn serial_behind(place: Place, seconds: i64) -> u64
    ensures { result ≡ serial_behind seconds place }
{
    match place {
        Place::Stamp(moment, serial) => {
            if moment == seconds {
                u64::from(serial) + 1
            } else {
                0
            }
        }
        Place::Number(_) => 0,
    }
}

// The serial number that comes next at the moment.
fn next_serial(members: &[Member], seconds: i64) -> u64
    ensures { result ≡ next_serial members.now seconds }
{
    let mut next = 0;
    for member in members {
        next = serial_behind(member.place, seconds).max(next);
    }
    next
}

// The seconds of the stamp that the clock gives, which are read from the name that it makes.
fn seconds_by(alloc: Global, family: &Family, clock: &Clock) -> Result<i64, Memory>
    requires dated { IsSome family.now.naming.dated }
    requires format { or_none is_format family.now.naming.dated ≡ true }
    ensures { IfOk result (λ seconds. seconds ≡ clock_seconds family.now.naming.dated clock.entry.now) }
{
    let path = family.dated(alloc, clock, 0)?;
    match family.place_of(&path) {
        Some(Place::Stamp(seconds, _)) => Ok(seconds),
        _ => unreachable!(),
    }
}

/// The name that the log gets: of the stamp that this clock gives, with the serial number that comes next.
pub fn target_of(
    alloc: Global,
    family: &Family,
    format: &Format,
    members: &[Member],
    clock: &Clock,
) -> Result<Target, PrepareStop>
    requires dated { family.now.naming.dated ≡ Some format.now }
    requires format { or_none is_format family.now.naming.dated ≡ true }
    requires named { AreNamed family.now.naming members.now }
    ensures path { IfOk result (λ t. t.path ≡ dated_target family.now.naming clock.entry.now members.now) }
    ensures seconds { IfOk result (λ t. t.seconds ≡ clock_seconds family.now.naming.dated clock.entry.now) }
    ensures serial { IfOk result (λ t. t.serial ≡ next_serial members.now t.seconds) }
    ensures free { OnOk result (stamp_hindrances format.now (clock_seconds family.now.naming.dated clock.entry.now) members.now
        ≡ []) }
    ensures hindered { IfErr result (IsHindered (stamp_hindrances format.now (clock_seconds family.now.naming.dated clock.entry.now)
        members.now)) }
{
    let Ok(seconds) = seconds_by(alloc, family, clock) else {
        return Err(PrepareStop::Memory);
    };
    if let Some(stop) = refusal(alloc, format, members, seconds) {
        return Err(stop);
    }
    let serial = next_serial(members, seconds) as u32;
    match family.dated(alloc, clock, serial) {
        Ok(path) => Ok(Target {
            path,
            seconds,
            serial,
        }),
        Err(_) => Err(PrepareStop::Memory),
    }
}
