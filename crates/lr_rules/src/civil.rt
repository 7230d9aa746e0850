// Civil moments, and the three moments of a run.
ghost use Rattle.std.specs.Prelude.{◌≡◌, ◌↔◌, IsSome, IfSome, ◌<◌, ◌+◌, ◌*◌};
ghost use Rattle.jiff_core.specs.Calendar.{days_from_civil, IsEpochDay};
ghost use Rattle.lr_rules.specs.Civil.{IsMoment, moment_seconds};

use jiff_core::civil::Date;

/// A moment of the years 1 to 9999 on a calendar and a clock.
#[derive(Clone, Copy)]
pub struct Civil {
    pub year: i16,
    pub month: u8,
    pub day: u8,
    pub hour: u8,
    pub minute: u8,
    pub second: u8,
    pub ghost valid: { IsMoment year month day hour minute second },
}

impl Civil {
    /// The moment with these parts; None exactly where there is no such moment.
    pub fn new(year: i16, month: u8, day: u8, hour: u8, minute: u8, second: u8) -> Option<Civil>
        ensures some { IsSome result ↔ IsMoment year month day hour minute second }
        ensures value { IfSome result (λ c. (c.year ≡ year) × (c.month ≡ month) × (c.day ≡ day)
            × (c.hour ≡ hour) × (c.minute ≡ minute) × (c.second ≡ second)) }
    {
        if year < 1 || month > 12 || day > 31 || hour > 23 || minute > 59 || second > 59 {
            return None;
        }
        match Date::new(year, month as i8, day as i8) {
            Ok(_) => Some(Civil {
                year,
                month,
                day,
                hour,
                minute,
                second,
            }),
            Err(_) => None,
        }
    }

    /// The number of the day, where 1970-01-01 is 0.
    pub fn day_number(&self) -> i64
        ensures value { result ≡ days_from_civil self.now.year self.now.month self.now.day }
        ensures bound { IsEpochDay result }
    {
        let Ok(date) = Date::new(self.year, self.month as i8, self.day as i8) else {
            unreachable!()
        };
        i64::from(date.to_unix_epoch_day())
    }

    fn second_of_day(&self) -> u32
        ensures value { result ≡ self.now.hour * 3600 + self.now.minute * 60 + self.now.second }
        ensures bound { result < 86_400 }
    {
        u32::from(self.hour) * 3600 + u32::from(self.minute) * 60 + u32::from(self.second)
    }

    /// The civil seconds since 1970-01-01 0:0:0.
    pub fn seconds(&self) -> i64
        ensures { result ≡ moment_seconds self.now.year self.now.month self.now.day self.now.hour self.now.minute self.now.second }
    {
        self.day_number() * 86_400 + i64::from(self.second_of_day())
    }
}

/// An instant, in seconds since 1970, and how a calendar and a clock show it.
#[derive(Clone, Copy)]
pub struct Moment {
    pub seconds: i64,
    pub civil: Civil,
}
