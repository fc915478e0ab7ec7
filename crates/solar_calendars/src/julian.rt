//! The Julian calendar: twelve months, a leap year in four, and no year 0.

ghost use Rattle.std.specs.Prelude.{◌≡◌, pos, neg_ℤ};
ghost use Rattle.day_numbers.specs.Dates.{IsBetween, IsYear};
ghost use Rattle.day_numbers.specs.Rules.{HasYear, without_zero, year_start as start};
ghost use Rattle.day_numbers.proofs.DateLemmas.{rules_one_to_one};
ghost use Rattle.solar_calendars.specs.Julian.{julian_rules, is_julian_leap};
ghost use Rattle.solar_calendars.specs.private.Julian.{years_before as count_before};

use crate::twelve_months::{month_at, twelve_months};
use day_numbers::by_rules::CalendarByRules;
use day_numbers::rules::{RuledCalendar, Year};

/// The Julian calendar (Reingold and Dershowitz, *Calendrical Calculations*, "The Julian Calendar").
///
/// Its epoch, 1 January of year 1, is R.D. -1. It has all years but 0: year 1 follows year -1. A positive
/// year is a leap year where it is divisible by 4, and a negative one where its remainder by 4, which
/// is not negative, is 3: -1, -5, ..
#[derive(Clone, Copy, Debug)]
pub struct Julian;

/// Whether the year is a leap year, of 366 days.
#[tactic(auto, using(crate::proofs::JulianLemmas::leap_by_years))]
pub fn is_leap(year: i32) -> bool
    ensures { result ≡ is_julian_leap year }
{
    years_before(year).rem_euclid(4) == 3
}

/// How many years there are from year 1 to the year before this one; less than 0 where the year is
/// before year 1.
fn years_before(year: i32) -> i64
    ensures { result ≡ count_before year }
{
    if year < 0 {
        year as i64
    } else {
        year as i64 - 1
    }
}

/// The year with so many years before it.
fn year_after(before: i64) -> i32
    requires { IsBetween (neg_ℤ (pos 99_999)) (pos 99_998) before }
    ensures has { HasYear without_zero result }
    ensures near { IsYear result }
    ensures value { count_before result ≡ before }
{
    if before < 0 {
        before as i32
    } else {
        before as i32 + 1
    }
}

/// The fixed day number of 1 January of the year.
fn first_of_year(year: i32) -> i64
    requires has { HasYear without_zero year }
    requires near { IsYear year }
    ensures value { result ≡ start julian_rules year }
    ensures near { IsBetween (neg_ℤ (pos 100_000_000)) (pos 100_000_000) result }
{
    // Counted from 100000 years before year 1, as in `parts_on`, so that no number is negative.
    let years = (years_before(year) + 100_000) as u32;
    (1461 * years / 4) as i64 - 36_525_001
}

impl RuledCalendar for Julian {
    ghost rules = { julian_rules };

    fn has_year(&self, year: i32) -> bool {
        year != 0
    }

    fn has_day(&self, _day: i64) -> bool {
        true
    }

    fn year(&self, number: i32) -> Year {
        Year {
            number,
            start: first_of_year(number),
            months: twelve_months(is_leap(number)),
        }
    }

    fn parts_on(&self, day: i64) -> (i32, u8, u8) {
        // The years before year n, counted as in `first_of_year`, have 1461 * n / 4 days, and each day takes 4 of what
        // 1461 leaves.
        let scaled = (4 * day + 146_100_007) as u32;
        let years = scaled / 1461;
        let (month, day) = month_at(years % 4 == 3, (scaled % 1461 / 4) as u16);
        (year_after(years as i64 - 100_000), month, day)
    }
}

impl CalendarByRules for Julian {
    ghost one_to_one = { rules_one_to_one julian_rules };
}
