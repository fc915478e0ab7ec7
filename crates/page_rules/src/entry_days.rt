//! The day and the calendar of one record.

ghost use Rattle.std.specs.Prelude.{◌≡◌, None, slice_get};
ghost use Rattle.date_texts.specs.Calendars.{all_calendars};
ghost use Rattle.register_records.specs.Entries.{body_seen};
ghost use Rattle.register_records.specs.Seen.{outcome_seen};
ghost use Rattle.register_records.specs.Views.{row_seen};
ghost use Rattle.page_rules.specs.EntryDays.{IsCalendarOf, IsDayOf, IsEntryDay};

use crate::day_orders::NO_DAY;
use date_texts::{Calendar, Refusal, calendar_named};
use day_numbers::Day;
use register_records::{Body, Row};

/// The calendar of a record whose text names none.
pub const NO_CALENDAR: u8 = 255;

/// The day and the calendar of a record, in numbers.
#[derive(Clone, Copy, PartialEq, Eq, Debug)]
pub struct EntryDay {
    /// How many days its day lies behind 1 January -9999 of the Gregorian calendar, the first that there is, from 0 to
    /// 7304483; [`NO_DAY`](crate::NO_DAY) where the record is refused.
    pub day: u32,
    /// The place of its calendar in [`Calendar::ALL`](date_texts::Calendar::ALL), from 0; [`NO_CALENDAR`] where its
    /// text names none, or where the record was refused before a calendar was looked for.
    pub calendar: u8,
}

/// The day of an outcome.
fn day_of(outcome: Result<Day, Refusal>) -> u32
    ensures { IsDayOf (outcome_seen outcome) result }
{
    match outcome {
        Ok(day) => (day.number() - Day::MIN_NUMBER) as u32,
        Err(_) => NO_DAY,
    }
}

/// The place of a calendar in `Calendar::ALL`.
fn place_of(calendar: Option<Calendar>) -> u8
    ensures place { slice_get all_calendars result ≡ calendar }
    ensures none { calendar ≡ None → result ≡ NO_CALENDAR }
{
    match calendar {
        Some(Calendar::Gregorian) => 0,
        Some(Calendar::Iso) => 1,
        Some(Calendar::Julian) => 2,
        Some(Calendar::Coptic) => 3,
        Some(Calendar::Ethiopic) => 4,
        Some(Calendar::Egyptian) => 5,
        Some(Calendar::Armenian) => 6,
        Some(Calendar::Islamic) => 7,
        Some(Calendar::Hebrew) => 8,
        Some(Calendar::Longcount) => 9,
        Some(Calendar::French) => 10,
        Some(Calendar::Roman) => 11,
        Some(Calendar::Republican) => 12,
        None => NO_CALENDAR,
    }
}

/// The calendar of a body.
fn calendar_of(body: &Body) -> u8
    ensures { IsCalendarOf (body_seen body.now) result }
{
    match body {
        Body::Fields { calendar, .. } => place_of(calendar_named(calendar.as_str())),
        Body::Refused(_) => NO_CALENDAR,
    }
}

impl EntryDay {
    /// That of a row.
    pub(crate) fn of(row: &Row) -> EntryDay
        ensures { IsEntryDay (row_seen row.now) result }
    {
        EntryDay {
            day: day_of(row.outcome()),
            calendar: calendar_of(row.entry().body()),
        }
    }
}
