//! The months of the Gregorian and the Julian year.

ghost use Rattle.std.specs.Prelude.{◌≡◌, ◌≤◌, ◌<◌, ◌+◌, IsTrue, length};
ghost use Rattle.day_numbers.specs.Rules.{total_days, days_of_month, days_before_month, are_months};
ghost use Rattle.solar_calendars.specs.TwelveMonths.{twelve_months as twelve_months_of};

use day_numbers::months;
use day_numbers::rules::Month;

static COMMON: [Month; 12] =
    months![1: 31, 2: 28, 3: 31, 4: 30, 5: 31, 6: 30, 7: 31, 8: 31, 9: 30, 10: 31, 11: 30, 12: 31];

static LEAP: [Month; 12] =
    months![1: 31, 2: 29, 3: 31, 4: 30, 5: 31, 6: 30, 7: 31, 8: 31, 9: 30, 10: 31, 11: 30, 12: 31];

/// January to December, of a common year or of a leap year.
pub fn twelve_months(is_leap: bool) -> &'static [Month]
    ensures value { result.now ≡ twelve_months_of is_leap }
    ensures few { length result.now ≤ 13 }
    ensures numbered { IsTrue (are_months result.now) }
{
    if is_leap { &LEAP } else { &COMMON }
}

/// The number of the month in which a day of the year lies, and its day of that month. `place` says how many days of
/// the year come before it.
pub fn month_at(is_leap: bool, place: u16) -> (u8, u8)
    requires { place < total_days (twelve_months_of is_leap) }
    ensures first { 1 ≤ result.1 }
    ensures last { result.1 ≤ days_of_month (twelve_months_of is_leap) result.0 }
    ensures sum { days_before_month (twelve_months_of is_leap) result.0 + result.1 ≡ place + 1 }
    ensures small { (result.0 ≤ 99) × (result.1 ≤ 99) }
{
    // With a February of 30 days, the months before the month of index i have (367 * i + 5) / 12 days, and each day
    // takes 12 of what 367 leaves.
    let leap_days = is_leap as u16;
    let place = if place < 59 + leap_days {
        place
    } else {
        place + 2 - leap_days
    };
    let scaled = 12 * place as u32 + 6;
    ((scaled / 367) as u8 + 1, (scaled % 367 / 12) as u8 + 1)
}
