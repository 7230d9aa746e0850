// Days of civil moments, by the calendar of jiff.
ghost use Rattle.std.specs.Prelude.{◌≡◌, pos, neg_ℤ, ◌+ℤ◌, ◌≤ℤ◌};
ghost use Rattle.jiff_core.specs.Calendar.{days_from_civil};
ghost use Rattle.lr_due.specs.Due.{weekday_of};

use jiff::civil::{Date, DateTime};
use lr_rules::Civil;

/// The parts of a datetime, without its fraction of a second.
pub(crate) fn civil_of(moment: DateTime) -> Civil
    requires { pos 1 ≤ℤ moment.date.year }
    ensures date { (result.year ≡ moment.date.year) × (result.month ≡ moment.date.month) × (result.day ≡ moment.date.day) }
    ensures time { (result.hour ≡ moment.time.hour) × (result.minute ≡ moment.time.minute) × (result.second ≡ moment.time.second) }
{
    let parts = moment.to_plain();
    Civil {
        year: parts.date.year,
        month: parts.date.month,
        day: parts.date.day,
        hour: parts.time.hour,
        minute: parts.time.minute,
        second: parts.time.second,
    }
}

/// The same time of the day before, for a day near 1970 or later.
pub(crate) fn day_before(civil: &Civil) -> Civil
    requires { neg_ℤ (pos 200) ≤ℤ days_from_civil civil.now.year civil.now.month civil.now.day }
    ensures date { days_from_civil result.year result.month result.day +ℤ pos 1
        ≡ days_from_civil civil.now.year civil.now.month civil.now.day }
    ensures time { (result.hour ≡ civil.now.hour) × (result.minute ≡ civil.now.minute) × (result.second ≡ civil.now.second) }
{
    let Ok(date) = Date::new(civil.year, civil.month as i8, civil.day as i8) else {
        unreachable!()
    };
    let Ok(before) = date.yesterday() else {
        unreachable!()
    };
    let parts = before.to_plain();
    Civil {
        year: parts.year,
        month: parts.month,
        day: parts.day,
        hour: civil.hour,
        minute: civil.minute,
        second: civil.second,
    }
}

/// The day of the week, with 0 for Sunday.
pub(crate) fn weekday(civil: &Civil) -> u8
    ensures { result ≡ weekday_of civil.now }
{
    let Ok(date) = Date::new(civil.year, civil.month as i8, civil.day as i8) else {
        unreachable!()
    };
    date.weekday().to_sunday_zero_offset().unsigned_abs()
}
