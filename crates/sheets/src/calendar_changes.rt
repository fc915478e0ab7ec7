//! A change of calendars: the Julian calendar before a day, and the Gregorian one from it on.

ghost use Rattle.std.specs.Prelude.{◌≡◌, ◌↔◌, ℤ, IfSome, None, true};
ghost use Rattle.sheets.specs.CalendarChanges.{IsAtChange, IsBefore, SaysDay};
ghost use Rattle.sheets.specs.CalendarChanges.{end_calendar, row_calendar, row_text};

use date_texts::laws::one_date_text;
use date_texts::{Calendar, day_of_date, read_date};
use day_numbers::Day;
use std::str;

/// What a register names for a day that a change of calendars left out.
const NEITHER: &[u8] = b"julian/gregorian";

/// The most bytes of a date.
pub(crate) const MAX_DATE: usize = 32;

/// A date that the Julian calendar does not have, as it has no year 0.
const NO_DATE: &[u8] = b"0-1-1";

/// What calendar an end of a date is in.
#[derive(Clone, Copy, PartialEq, Eq)]
pub(crate) enum EndCalendar {
    /// That of its record.
    OfRecord,
    /// The Julian one, before a change of calendars.
    OldStyle,
    /// None: the day was left out at a change of calendars.
    Neither,
}

impl EndCalendar {
    /// What a register names for it, by what it names for the record.
    pub fn name(self, calendar: &[u8]) -> &[u8]
        ensures { result.now ≡ end_calendar self calendar.now }
    {
        match self {
            EndCalendar::OfRecord => calendar,
            EndCalendar::OldStyle => Calendar::Julian.name().as_bytes(),
            EndCalendar::Neither => NEITHER,
        }
    }

    /// The calendar of the entry whose row it has.
    pub fn in_row(self, calendar: &[u8]) -> &[u8]
        ensures { result.now ≡ row_calendar self calendar.now }
    {
        match self {
            EndCalendar::OfRecord => calendar,
            _ => Calendar::Julian.name().as_bytes(),
        }
    }

    /// The date of that entry, by the text of its day: none where this is too long for one.
    pub fn date_in_row(self, text: &[u8]) -> &[u8]
        ensures { result.now ≡ row_text self text.now }
    {
        match self {
            EndCalendar::Neither => NO_DATE,
            _ if text.len() <= MAX_DATE => text,
            _ => b"",
        }
    }
}

/// The day of a text that is a date of the calendar.
fn day_said(calendar: Calendar, text: &[u8]) -> Option<Day>
    ensures some { IfSome result (λ day. SaysDay calendar text.now day.number) }
    ensures none { result ≡ None → (n : ℤ) → ¬ SaysDay calendar text.now n }
{
    let Ok(text) = str::from_utf8(text) else {
        return None;
    };
    let Ok(date) = read_date(calendar, text) else {
        return None;
    };
    match day_of_date(&date) {
        Ok(day) => Some(day),
        Err(_) => None,
    }
}

/// Whether a text is a date of the calendar whose day lies before the one with this number.
fn is_before(calendar: Calendar, from: i64, text: &[u8]) -> bool
    ensures { (result ≡ true) ↔ IsBefore calendar from text.now }
{
    one_date_text();
    match day_said(calendar, text) {
        Some(day) => day.number() < from,
        None => false,
    }
}

/// What calendar an end is in, and the text of its day, by what is written for it in the Julian calendar and in the
/// Gregorian one.
pub(crate) fn at_change<'a>(
    from: i64,
    julian: &'a [u8],
    gregorian: &'a [u8],
) -> (EndCalendar, &'a [u8])
    ensures { IsAtChange from julian.now gregorian.now (record { calendar = result.0; text = result.1.now }) }
{
    if is_before(Calendar::Julian, from, julian) {
        (EndCalendar::OldStyle, julian)
    } else if is_before(Calendar::Gregorian, from, gregorian) {
        (EndCalendar::Neither, gregorian)
    } else {
        (EndCalendar::OfRecord, gregorian)
    }
}
