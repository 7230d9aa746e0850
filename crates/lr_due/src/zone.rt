// What a clock in a time zone shows.
ghost use Rattle.std.specs.Prelude.{◌≡◌, ◌↔◌, IfOk, Err, pos, neg_ℤ, ◌≤ℤ◌};
ghost use Rattle.jiff_core.specs.Calendar.{IsBetween, days_from_civil};
ghost use Rattle.std.specs.Int.{int_max};
ghost use Rattle.jiff.specs.ZoneView.{plain_zone};
ghost use Rattle.lr_due.specs.Zone.{IsInRange, IsRefusedZone, IsZoneRefusal, IsTable, IsClockAt, IsClockIn, ShowsAt};

use crate::calendar::{civil_of, day_before};
use jiff::tz::{TimeZone, Tzif};
use jiff::{Error, Timestamp};
use lr_rules::{Civil, Clock, Listed, Moment, Text};
use std::alloc::Global;

/// A time zone as it was given.
#[derive(Drop)]
pub enum ZoneText {
    Utc,
    /// A POSIX TZ rule, as `CET-1CEST,M3.5.0,M10.5.0/3`.
    Rule(Text),
    /// The bytes of a TZif file (RFC 8536), as those below /usr/share/zoneinfo.
    Bytes(Listed<u8>),
}

/// Why there is no clock. Nothing is left behind.
#[derive(Clone, Copy)]
pub enum ZoneStop {
    /// The seconds are below 0 or above 250,000,000,000.
    Range,
    /// The rule or the bytes don't describe a zone.
    Refused,
    /// There is no memory for the table of the bytes.
    Memory,
}

/// What a clock in the zone shows at that second.
fn civil_at(zone: TimeZone<'_>, seconds: i64) -> Civil
    requires { IsBetween (neg_ℤ (pos 86_400)) (pos 250_000_000_000) seconds }
    ensures shown { ShowsAt (plain_zone zone.entry) seconds result }
    ensures near { neg_ℤ (pos 200) ≤ℤ days_from_civil result.year result.month result.day }
{
    let Ok(instant) = Timestamp::from_second(seconds) else {
        unreachable!()
    };
    let offset = zone.to_offset(instant);
    civil_of(offset.to_datetime(instant))
}

/// The seconds, or 0 where they are below it.
fn from_zero(seconds: i64) -> i64
    requires { seconds ≤ℤ pos 250_000_000_000 }
    ensures value { result ≡ int_max (pos 0) seconds }
    ensures bound { IsBetween (pos 0) (pos 250_000_000_000) result }
{
    if seconds < 0 { 0 } else { seconds }
}

fn clock_at(zone: TimeZone<'_>, seconds: i64) -> Clock
    requires { IsBetween (pos 0) (pos 250_000_000_000) seconds }
    ensures { IsClockAt (plain_zone zone.entry) seconds result }
{
    let civil = civil_at(zone, seconds);
    let hour_before = civil_at(zone, seconds - 3600);
    let day = from_zero(seconds - 86_400);
    let hour = from_zero(seconds - 3600);
    Clock {
        now: Moment { seconds, civil },
        yesterday: Moment {
            seconds: day,
            civil: day_before(&civil),
        },
        hour_ago: Moment {
            seconds: hour,
            civil: hour_before,
        },
    }
}

/// The clock of a zone at an instant, in seconds since 1970-01-01 0:0:0 UTC: what it shows then, the same time of the
/// civil day before, and what it showed 3,600 seconds before. `Range` comes before `Refused`; a rule and UTC take no
/// memory.
pub fn clock_of(alloc: Global, zone: &ZoneText, seconds: i64) -> Result<Clock, ZoneStop>
    ensures range { (result ≡ Err ZoneStop.Range) ↔ ¬ (IsInRange seconds) }
    ensures refused { result ≡ Err ZoneStop.Refused → IsInRange seconds × IsRefusedZone zone.now }
    ensures refuses { IsInRange seconds → IsRefusedZone zone.now → IsZoneRefusal result }
    ensures memory { result ≡ Err ZoneStop.Memory → IsTable zone.now }
    ensures clock { IfOk result (IsClockIn zone.now seconds) }
{
    if seconds < 0 || seconds > 250_000_000_000 {
        return Err(ZoneStop::Range);
    }
    match zone {
        ZoneText::Utc => Ok(clock_at(TimeZone::UTC, seconds)),
        ZoneText::Rule(text) => match TimeZone::posix(text.as_str()) {
            Ok(rule) => Ok(clock_at(rule, seconds)),
            Err(_) => Err(ZoneStop::Refused),
        },
        ZoneText::Bytes(bytes) => match Tzif::parse(alloc, None, bytes.as_slice()) {
            Ok(table) => Ok(clock_at(TimeZone::tzif(&table), seconds)),
            Err(Error::OutOfMemory) => Err(ZoneStop::Memory),
            Err(_) => Err(ZoneStop::Refused),
        },
    }
}
