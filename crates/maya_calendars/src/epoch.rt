//! The day from which long counts, the haab and the tzolkin are counted.

ghost use Rattle.std.specs.Prelude.{◌≡◌, pos, neg_ℤ, ◌-ℤ◌};
ghost use Rattle.day_numbers.specs.Dates.{IsBetween};
ghost use Rattle.maya_calendars.specs.Rounds.{epoch};

use day_numbers::Day;

/// The fixed day number of the day 0.0.0.0.0.
pub const EPOCH: i64 = -1_137_142;

/// How many days after 0.0.0.0.0 a day is; negative before it.
pub fn days_since_epoch(day: Day) -> i64
    ensures value { result ≡ day.number -ℤ epoch }
    ensures near { IsBetween (neg_ℤ (pos 10_000_000)) (pos 10_000_000) result }
{
    day.number() - EPOCH
}
