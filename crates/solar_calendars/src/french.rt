//! The leap years of the French Revolutionary calendar.

ghost use Rattle.std.specs.Prelude.{◌+◌, ◌*◌};
ghost use Rattle.solar_calendars.specs.French.{is_french_leap};

use crate::centuries;
use crate::thirteen_months::LeapRule;

/// The leap rule of [`French`](crate::French).
pub struct FrenchLeapYears;

impl LeapRule for FrenchLeapYears {
    ghost is_leap_year = { is_french_leap };

    fn is_leap(year: u32) -> bool {
        let in_four_centuries = year % 400;
        year % 4 == 0
            && in_four_centuries != 100
            && in_four_centuries != 200
            && in_four_centuries != 300
            && year % 4_000 != 0
    }

    fn days_of_years(years: u32) -> u32 {
        365 * years + years / 4 + years / 400 - years / 100 - years / 4_000
    }

    fn years_in(days: u32) -> (u32, u16) {
        // In rounds of 4000 years, of which the last has no leap day.
        let (years, place) = centuries::years_in(days % 1_460_969);
        (4_000 * (days / 1_460_969) + years, place as u16)
    }
}
