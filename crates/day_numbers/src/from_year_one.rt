//! Calendars whose years begin with year 1, in unsigned numbers from the epoch on.

ghost use Rattle.std.specs.Prelude.{◌≡◌, ◌≤◌, ◌<◌, ◌+◌, List, ℤ, pos, neg_ℤ, IsTrue, length};
ghost use Rattle.day_numbers.specs.Dates.{IsBetween};
ghost use Rattle.day_numbers.specs.Rules.{from_one, days_of_years as days_of, total_days, are_months};
ghost use Rattle.day_numbers.specs.Rules.{days_of_month, days_before_month};
ghost use Rattle.day_numbers.specs.declared.rules.Month.{Month};

use crate::rules::{Month, RuledCalendar, Year};

/// The years of a calendar from year 1 on, whichever day year 1 begins on, with the formulas by which they are found.
pub trait YearRule {
    /// The months of each year, in the order in which they run.
    ghost months_of: { ℤ → List Month };

    /// The days of the years 1 to `years`, which is at most 99999.
    fn days_of_years(years: u32) -> u32
        requires { years ≤ 99_999 }
        ensures value { result ≡ days_of (λ y. total_days (months_of y)) years }
        ensures near { result ≤ 50_000_000 };

    /// How many whole years the first `days` days from the epoch on fill, and how many days are left; `days` is at most
    /// 6000000.
    fn years_in(days: u32) -> (u32, u16)
        requires { days ≤ 6_000_000 }
        ensures near { result.0 ≤ 99_998 }
        ensures sum { days_of (λ y. total_days (months_of y)) result.0 + result.1 ≡ days }
        ensures inside { result.1 < total_days (months_of (pos (result.0 + 1))) };

    /// The months of a year from 1 to 99999, in the order in which they run.
    fn months(year: u32) -> &'static [Month]
        requires low { 1 ≤ year }
        requires high { year ≤ 99_999 }
        ensures value { result.now ≡ months_of (pos year) }
        ensures few { length result.now ≤ 13 }
        ensures numbered { IsTrue (are_months result.now) };

    /// The number of the month in which a day of the year lies, and its day of that month. `place` says how many days
    /// of the year, which is from 1 to 99999, come before it.
    fn month_at(year: u32, place: u16) -> (u8, u8)
        requires low { 1 ≤ year }
        requires high { year ≤ 99_999 }
        requires inside { place < total_days (months_of (pos year)) }
        ensures first { 1 ≤ result.1 }
        ensures last { result.1 ≤ days_of_month (months_of (pos year)) result.0 }
        ensures sum { days_before_month (months_of (pos year)) result.0 + result.1 ≡ place + 1 }
        ensures small { (result.0 ≤ 99) × (result.1 ≤ 99) };
}

/// A calendar whose years begin with year 1, by its epoch and its years.
pub trait FromYearOne {
    /// Its years.
    type Years: YearRule;

    /// The fixed day number of the first day of year 1.
    ghost epoch_day: { ℤ };

    /// The fixed day number of the first day of year 1, from -2000000 to 2000000.
    fn epoch(&self) -> i64
        ensures value { result ≡ epoch_day }
        ensures near { IsBetween (neg_ℤ (pos 2_000_000)) (pos 2_000_000) result };
}

impl<C: FromYearOne> RuledCalendar for C {
    ghost rules = { record { epoch = C.epoch_day; years = from_one; months = C.Years.months_of } };

    fn has_year(&self, year: i32) -> bool {
        year >= 1
    }

    fn has_day(&self, day: i64) -> bool {
        day >= self.epoch()
    }

    fn year(&self, number: i32) -> Year {
        let days_before = C::Years::days_of_years((number - 1) as u32);
        Year {
            number,
            start: self.epoch() + days_before as i64,
            months: C::Years::months(number as u32),
        }
    }

    fn parts_on(&self, day: i64) -> (i32, u8, u8) {
        let (years_before, place) = C::Years::years_in((day - self.epoch()) as u32);
        let year = years_before + 1;
        let (month, day) = C::Years::month_at(year, place);
        (year as i32, month, day)
    }
}
