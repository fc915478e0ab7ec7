//! The weekdays of dates, and a weekday by its number in a month.

ghost use Rattle.std.specs.Prelude.{◌≡◌, ◌≤◌};
ghost use Rattle.written_dates.specs.Weekdays.{is_on as on_spec, first_on as first_spec};
ghost use Rattle.written_dates.specs.Weekdays.{numbered_weekday as numbered_spec, is_decade_day as decade_spec};
ghost use Rattle.std.specs.Bool.{Decides};
ghost use Rattle.day_numbers.specs.Days.{IsDayNumber, weekday_number};
ghost use Rattle.church_year.specs.Weekdays.{number_of};
ghost use Rattle.date_texts.specs.Calendars.{IsDateBy, day_number_by, reckoning};

use crate::calendars::{Form, form_of};
use church_year::number_of_weekday;
use date_texts::{Calendar, CivilDate, Date, day_of_date};
use day_numbers::{Weekday, Ymd};

/// Whether a date is one that its calendar has, and on a weekday.
fn is_date_on(date: CivilDate, weekday: Weekday) -> bool
    ensures { Decides result (IsDateBy (reckoning date.calendar) date.ymd
        × IsDayNumber (day_number_by (reckoning date.calendar) date.ymd)
        × (weekday_number (day_number_by (reckoning date.calendar) date.ymd) ≡ number_of weekday)) }
{
    match day_of_date(&Date::Civil(date)) {
        Ok(day) => day.number().rem_euclid(7) == number_of_weekday(weekday) as i64,
        Err(_) => false,
    }
}

/// Whether a year, a month and a day are a date that the calendar has, and on a weekday.
pub(crate) fn is_on(calendar: Calendar, year: u64, month: u32, day: u32, weekday: Weekday) -> bool
    ensures { result ≡ on_spec calendar year month day weekday }
{
    let Form::Civil = form_of(calendar) else {
        return false;
    };
    if year < 1 || year > 99_999 || month > 99 || day > 99 {
        return false;
    }
    let Some(ymd) = Ymd::new(year as i32, month as u8, day as u8) else {
        return false;
    };
    match CivilDate::new(calendar, ymd) {
        Some(date) => is_date_on(date, weekday),
        None => false,
    }
}

/// The first of seven days of a month, from this one on, that is on a weekday.
fn first_on(calendar: Calendar, year: u64, month: u32, weekday: Weekday, from: u32) -> Option<u32>
    requires { from ≤ 29 }
    ensures { result ≡ first_spec calendar year month weekday 7 from }
{
    let mut day = from;
    let mut left: u8 = 7;
    'days: while left > 0 {
        if is_on(calendar, year, month, day, weekday) {
            return Some(day);
        }
        day += 1;
        left -= 1;
    }
    None
}

/// The day of the weekday of a number in a month, unless the day of this number is on the weekday too.
pub(crate) fn numbered_weekday(
    calendar: Calendar,
    year: u64,
    month: u32,
    weekday: Weekday,
    number: u32,
) -> Option<u32>
    ensures { result ≡ numbered_spec calendar year month weekday number }
{
    if number < 1 || number > 5 {
        return None;
    }
    let day = first_on(calendar, year, month, weekday, 7 * number - 6)?;
    if is_on(calendar, year, month, number, weekday) && day != number {
        return None;
    }
    Some(day)
}

/// Whether a day of a month of the French Republic is this day of its decade.
pub(crate) fn is_decade_day(calendar: Calendar, month: u32, day: u32, number: u8) -> bool
    ensures { result ≡ decade_spec calendar month day number }
{
    let number = number as u32;
    match calendar {
        Calendar::French | Calendar::Republican => {
            month <= 12 && (day == number || day == number + 10 || day == number + 20)
        }
        _ => false,
    }
}
