//! The Gregorian calendar: dates and days by `jiff` where it has them, and else by a formula for the start of a year.
//! The year of a day alone, which week dates ask for, is found by centuries.

ghost use Rattle.std.specs.Prelude.{◌≡◌, ◌≤◌, ◌<◌, pos, neg_ℤ, ◌+ℤ◌, ◌*ℤ◌, ◌↔◌, IsSome, IfSome};
ghost use Rattle.day_numbers.specs.Days.{IsDayNumber};
ghost use Rattle.day_numbers.specs.Dates.{IsBetween, IsYear};
ghost use Rattle.day_numbers.specs.Rules.{IsDateOf, day_number_of, year_start as start, year_length};
ghost use Rattle.day_numbers.specs.Rules.{first_day_of};
ghost use Rattle.day_numbers.proofs.DateLemmas.{rules_one_date, rules_have_days};
ghost use Rattle.solar_calendars.specs.Gregorian.{gregorian_rules, is_gregorian_leap};

use crate::centuries::years_in;
use crate::twelve_months::twelve_months;
use day_numbers::rules::{RuledCalendar, Year, date_by_rules, day_by_rules};
use day_numbers::{ArithmeticCalendar, DateFault, Day, Ymd};
use jiff::civil::Date;

/// The proleptic Gregorian calendar (Reingold and Dershowitz, *Calendrical Calculations*, "The
/// Gregorian Calendar").
///
/// Its epoch, 1 January of year 1, is R.D. 1. It has all years: year 0 lies before year 1, and -1 before
/// year 0. A year is a leap year where it is divisible by 4 and its remainder by 400 is none of 100,
/// 200 and 300.
#[derive(Clone, Copy, Debug)]
pub struct Gregorian;

fn is_leap(year: i32) -> bool
    ensures { result ≡ is_gregorian_leap year }
{
    let in_four_centuries = year.rem_euclid(400);
    year.rem_euclid(4) == 0
        && in_four_centuries != 100
        && in_four_centuries != 200
        && in_four_centuries != 300
}

/// The leap days of so many years from year 1 on; for -n years, less than 0, minus those of the n years before year 1.
fn leap_days(years: i64) -> i64
    requires { IsBetween (neg_ℤ (pos 100_001)) (pos 100_001) years }
    ensures value { start gregorian_rules (years +ℤ pos 1) ≡ pos 365 *ℤ years +ℤ result +ℤ pos 1 }
    ensures near { IsBetween (neg_ℤ (pos 100_000)) (pos 100_000) result }
{
    years.div_euclid(4) - years.div_euclid(100) + years.div_euclid(400)
}

/// The fixed day number of 1 January of the year, which is from -100000 to 100000.
pub fn first_of_year(year: i64) -> i64
    requires { IsBetween (neg_ℤ (pos 100_000)) (pos 100_000) year }
    ensures value { result ≡ start gregorian_rules year }
    ensures near { IsBetween (neg_ℤ (pos 100_000_000)) (pos 100_000_000) result }
{
    let years = year - 1;
    365 * years + leap_days(years) + 1
}

/// The fixed day number of 1 January 1970, from which jiff counts days.
const UNIX_EPOCH: i64 = 719_163;

/// The date of jiff with these numbers, where the calendar has it; the year is from -9999 to 9999.
fn jiff_date(date: Ymd) -> Option<Date>
    requires { IsBetween (neg_ℤ (pos 9_999)) (pos 9_999) date.year }
    ensures valid { IsSome result ↔ IsDateOf gregorian_rules date.year date.month date.day }
    ensures value { IfSome result (λ d. (d.year ≡ date.year) × (d.month ≡ date.month) × (d.day ≡ date.day)) }
{
    Date::new(date.year() as i16, date.month() as i8, date.day() as i8).ok()
}

/// The fixed day number of a date of jiff.
fn number_of(date: Date) -> i64
    ensures value { result ≡ day_number_of gregorian_rules date.year date.month date.day }
    ensures in_range { IsDayNumber result }
{
    date.to_plain().to_unix_epoch_day() as i64 + UNIX_EPOCH
}

/// The date of jiff on the day with this fixed day number.
fn jiff_date_on(day: i64) -> Date
    requires { IsDayNumber day }
    ensures { day_number_of gregorian_rules result.year result.month result.day ≡ day }
{
    let date = jiff_core::civil::Date::from_unix_epoch_day(day - UNIX_EPOCH).unwrap();
    Date::from_plain(date)
}

/// The year that the day with this fixed day number lies in, and how many days of the year come before it.
pub fn year_and_days_before(day: i64) -> (i32, u32)
    requires { IsDayNumber day }
    ensures near { IsYear result.0 }
    ensures value { start gregorian_rules result.0 +ℤ pos result.1 ≡ day }
    ensures within { result.1 < year_length gregorian_rules result.0 }
    ensures few { result.1 ≤ 365 }
{
    // Counted from 1 January -9999, the first day.
    let (years, days_before) = years_in((day - Day::MIN_NUMBER) as u32);
    (years as i32 - 9_999, days_before)
}

impl RuledCalendar for Gregorian {
    ghost rules = { gregorian_rules };

    fn has_year(&self, _year: i32) -> bool {
        true
    }

    fn has_day(&self, _day: i64) -> bool {
        true
    }

    fn year(&self, number: i32) -> Year {
        Year {
            number,
            start: first_of_year(number as i64),
            months: twelve_months(is_leap(number)),
        }
    }

    fn parts_on(&self, day: i64) -> (i32, u8, u8) {
        let date = jiff_date_on(day);
        (date.year() as i32, date.month() as u8, date.day() as u8)
    }
}

impl ArithmeticCalendar for Gregorian {
    ghost IsDate = { λ d. IsDateOf gregorian_rules d.year d.month d.day };

    ghost day_number = { λ d. day_number_of gregorian_rules d.year d.month d.day };

    ghost first_day = { first_day_of gregorian_rules };

    ghost one_date = { rules_one_date gregorian_rules };

    ghost dates_have_days = { rules_have_days gregorian_rules };

    fn day_of(&self, date: Ymd) -> Result<Day, DateFault> {
        if date.year() < -9_999 || date.year() > 9_999 {
            return day_by_rules(self, date);
        }
        match jiff_date(date) {
            Some(date) => Day::new(number_of(date)).ok_or(DateFault::OutOfRange),
            None => Err(DateFault::NoSuchDate),
        }
    }

    fn date_on(&self, day: Day) -> Option<Ymd> {
        date_by_rules(self, day)
    }
}
