//! Week dates: a year that begins on a Monday, a week and a day of the week.

ghost use Rattle.std.specs.Prelude.{◌≡◌, ◌↔◌, ◌≤◌, ◌<◌, pos, neg_ℤ, ◌+ℤ◌, ◌≤ℤ◌, ◌<ℤ◌, None, IsSome, IfSome};
ghost use Rattle.day_numbers.specs.Days.{IsDayNumber};
ghost use Rattle.day_numbers.specs.Dates.{IsBetween, IsYear};
ghost use Rattle.solar_calendars.specs.IsoWeek.{monday_on_or_before as monday_of, week_year_start as start};
ghost use Rattle.solar_calendars.specs.IsoWeek.{week_day_number, IsWeekDate};
ghost use Rattle.solar_calendars.specs.private.IsoWeekLaw.{one_week_date};

use crate::gregorian::{first_of_year, year_and_days_before};
use day_numbers::{ArithmeticCalendar, DateFault, Day, Ymd};

/// Week dates (ISO 8601; Reingold and Dershowitz, *Calendrical Calculations*, "The ISO Calendar").
///
/// The month of a date holds the week and its day the day of the week, from Monday = 1 to Sunday = 7.
/// Week 1 of a year is the one that holds 4 January of the Gregorian year of that number, and the year
/// begins on its Monday, so that a year has 52 or 53 weeks. It has all years: year 0 lies before year
/// 1, which begins on R.D. 1.
#[derive(Clone, Copy, Debug)]
pub struct IsoWeek;

/// The fixed day number of the Monday on or before a day with this number.
fn monday_on_or_before(day: i64) -> i64
    requires { IsBetween (neg_ℤ (pos 100_000_003)) (pos 100_000_003) day }
    ensures { result ≡ monday_of day }
{
    day - (day - 1).rem_euclid(7)
}

/// The fixed day number of the first day of a year of weeks, which is from -100000 to 100000.
fn first_of_week_year(year: i64) -> i64
    requires { IsBetween (neg_ℤ (pos 100_000)) (pos 100_000) year }
    ensures value { result ≡ start year }
    ensures near { IsBetween (neg_ℤ (pos 100_000_010)) (pos 100_000_010) result }
{
    monday_on_or_before(first_of_year(year) + 3)
}

/// The fixed day number of a day of a week of a year, counted on from the year's first day.
fn number_of(year: i64, week: u8, weekday: u8) -> i64
    requires near { IsYear year }
    requires weeks { 1 ≤ week }
    requires days { 1 ≤ weekday }
    ensures { result ≡ week_day_number year week weekday }
{
    let days_before = 7 * (week as u16 - 1) + weekday as u16 - 1;
    first_of_week_year(year) + days_before as i64
}

/// The fixed day number of a week date, where the year has that week and day.
fn number_of_week_date(date: Ymd) -> Option<i64>
    ensures valid { IsSome result ↔ IsWeekDate date.year date.month date.day }
    ensures value { IfSome result (λ n. n ≡ week_day_number date.year date.month date.day) }
{
    let year = date.year() as i64;
    let week = date.month();
    let weekday = date.day();
    if week < 1 || weekday < 1 || weekday > 7 {
        return None;
    }
    let number = number_of(year, week, weekday);
    if number < first_of_week_year(year + 1) {
        Some(number)
    } else {
        None
    }
}

/// The same as [`monday_on_or_before`] for a day in range, by an unsigned remainder.
fn monday_of_week(day: i64) -> i64
    requires { IsDayNumber day }
    ensures { result ≡ monday_of day }
{
    // Counted from 1 January -9999, the first day and a Monday.
    day - ((day - Day::MIN_NUMBER) as u32 % 7) as i64
}

/// The day of the week of a day, from 1, where this Monday begins the week.
fn weekday_from(day: i64, monday: i64) -> u8
    requires in_range { IsDayNumber day }
    requires from { monday ≤ℤ day }
    requires to { day <ℤ (monday +ℤ pos 7) }
    ensures value { monday +ℤ pos result ≡ day +ℤ pos 1 }
    ensures small { result ≤ 7 }
{
    (day - monday) as u8 + 1
}

/// The week date on a day.
fn week_date_on(day: Day) -> Option<Ymd>
    ensures dated { IsSome result }
    ensures value { IfSome result (λ date. IsWeekDate date.year date.month date.day
        × (week_day_number date.year date.month date.day ≡ day.number)) }
{
    let number = day.number();
    let monday = monday_of_week(number);
    // A week lies in the Gregorian year of its Thursday, and week 1 is the one with the first Thursday of the year.
    let (year, days_before) = year_and_days_before(monday + 3);
    let week = (days_before / 7 + 1) as u8;
    Ymd::new(year, week, weekday_from(number, monday))
}

impl ArithmeticCalendar for IsoWeek {
    ghost IsDate = { λ d. IsWeekDate d.year d.month d.day };

    ghost day_number = { λ d. week_day_number d.year d.month d.day };

    ghost first_day = { None };

    ghost one_date = { one_week_date };

    ghost dates_have_days = { λ d h. tt };

    fn day_of(&self, date: Ymd) -> Result<Day, DateFault> {
        match number_of_week_date(date) {
            Some(number) => Day::new(number).ok_or(DateFault::OutOfRange),
            None => Err(DateFault::NoSuchDate),
        }
    }

    fn date_on(&self, day: Day) -> Option<Ymd> {
        week_date_on(day)
    }
}
