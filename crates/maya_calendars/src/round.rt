//! Numbers that move on by one from each day to the next, and begin again after the last.

ghost use Rattle.std.specs.Prelude.{◌≡◌, ◌≤◌};
ghost use Rattle.maya_calendars.specs.Rounds.{round_number};

use crate::epoch::days_since_epoch;
use day_numbers::Day;

/// The number of a day in the round of the numbers 1 to `length`: the day 0.0.0.0.0 has the number
/// `first`, from 1 to `length`, and the number moves one place on from each day to the next.
pub fn number_on(day: Day, first: u16, length: u16) -> u16
    requires first { (1 ≤ first) × (first ≤ length) }
    requires short { length ≤ 400 }
    ensures value { result ≡ round_number length first day.number }
    ensures in_round { (1 ≤ result) × (result ≤ length) }
{
    // So many rounds later a day has the same number, and none is before the day 0.0.0.0.0.
    let later = 10_000_000 * length as i64;
    let days = days_since_epoch(day) + first as i64 - 1 + later;
    (days as u32 % length as u32) as u16 + 1
}
