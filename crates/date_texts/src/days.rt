//! The days of dates, and the dates on days.

ghost use Rattle.std.specs.Prelude.{◌≡◌, ◌↔◌, IsSome, IfSome};
ghost use Rattle.day_numbers.specs.Dates.{IsDayOf};
ghost use Rattle.day_numbers.specs.Days.{IsSinceFirstDay};
ghost use Rattle.date_texts.specs.Calendars.{first_day_by, reckoning};
ghost use Rattle.date_texts.specs.Dates.{calendar_of_date, IsDateOfCalendar, day_number_of_date};

use crate::calendar::{Calendar, by_calendar};
use crate::date::{CivilDate, Date};
use crate::refusal::Refusal;
use day_numbers::{ArithmeticCalendar, Day};
use maya_calendars::{long_day_of, long_on};
use solar_calendars::{roman_day_of, roman_on};

/// The day of a date.
///
/// # Errors
///
/// `NoSuchDate` exactly where the date's calendar has no such date, whatever its day would be;
/// `OutOfRange` exactly where it has the date and the day number is not from -3652424 to 3652059.
#[inline(always)]
pub fn day_of_date(date: &Date) -> Result<Day, Refusal>
    ensures { IsDayOf (IsDateOfCalendar date.now) (day_number_of_date date.now)
        Refusal.NoSuchDate Refusal.OutOfRange result }
{
    match *date {
        Date::Civil(civil) => Ok(civil.calendar().day_of(civil.ymd())?),
        Date::Long(count) => Ok(long_day_of(count)?),
        Date::Roman(date) => Ok(roman_day_of(&date)?),
    }
}

/// The one date of the calendar whose day this is, or `None` exactly before its first day.
pub(crate) fn date_on_day(calendar: Calendar, day: Day) -> Option<Date>
    ensures dated { IsSome result ↔ IsSinceFirstDay (first_day_by (reckoning calendar)) day.number }
    ensures value { IfSome result (λ date. (calendar_of_date date ≡ calendar)
        × IsDateOfCalendar date × (day_number_of_date date ≡ day.number)) }
{
    by_calendar!(calendar,
        by => {
            let ymd = by.date_on(day)?;
            Some(Date::Civil(CivilDate { calendar, ymd }))
        },
        Longcount => Some(Date::Long(long_on(day)?)),
        Roman => Some(Date::Roman(roman_on(day))))
}
