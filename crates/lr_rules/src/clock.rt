// The three moments of a run that names and due rules speak of.
ghost use Rattle.std.specs.Prelude.{pos};
ghost use Rattle.jiff_core.specs.Calendar.{IsBetween};

use crate::Moment;

/// The moment of a run, the same time of the day before, and the moment an hour before. The seconds of each are from
/// 0 to 250,000,000,000.
#[derive(Clone, Copy)]
pub struct Clock {
    pub now: Moment,
    pub yesterday: Moment,
    pub hour_ago: Moment,
    pub ghost now_in: { IsBetween (pos 0) (pos 250_000_000_000) now.seconds },
    pub ghost yesterday_in: { IsBetween (pos 0) (pos 250_000_000_000) yesterday.seconds },
    pub ghost hour_ago_in: { IsBetween (pos 0) (pos 250_000_000_000) hour_ago.seconds },
}
