//! What stops a date of a sheet.

ghost use Rattle.std.specs.Prelude.{◌≡◌, ◌↔◌, [], true};
ghost use Rattle.csv.specs.Records.{fields_of};
ghost use Rattle.written_dates.specs.Fields.{without_blanks as without_spec};
ghost use Rattle.sheets.specs.Choices.{date_text};
ghost use Rattle.sheets.specs.DateStops.{IsNoDate, IsStopBy, IsStopIn, StaysWritten, calendar_field};
ghost use Rattle.sheets.specs.DateStops.{calendar_stop as calendar_spec, text_stop as text_spec};
ghost use Rattle.sheets.specs.DateStops.{has_year_last as last_spec, in_order, is_read, text_reason as reason_spec};
ghost use Rattle.sheets.specs.UnknownNames.{is_alike, is_same};
ghost use Rattle.sheets.specs.UnknownViews.{if_stop, name_seen, stop_seen};

use crate::choices::{CalendarField, DateColumn, SheetChoice};
use crate::reading::field_at;
use crate::reasons::{Reason, reason_by};
use csv::ByteRecord;
use date_texts::{Calendar, read_date};
use std::str;
use written_dates::{
    Choice, Names, Order, is_same_word, is_year_first, stop_of, unknown_word, without_blanks,
};

/// A name that is not known, and stopped a date.
#[derive(Clone, Copy)]
pub struct NameStop<'a> {
    /// A name of a calendar, or the first word of the date that is none in its calendar.
    pub name: &'a [u8],
    /// The calendar in which the word is not known; none for a name of a calendar.
    pub calendar: Option<Calendar>,
}

/// What stops a date.
#[derive(Clone, Copy)]
pub enum DateStop<'a> {
    /// A name that is not known.
    Name(NameStop<'a>),
    /// Another reason.
    Reason(Reason),
}

fn is_same_calendar(a: Option<Calendar>, b: Option<Calendar>) -> bool
    ensures { result ≡ is_same a b }
{
    match (a, b) {
        (None, None) => true,
        (Some(a), Some(b)) => a as usize == b as usize,
        _ => false,
    }
}

/// Whether two names are one.
pub(crate) fn is_alike(a: NameStop<'_>, b: NameStop<'_>) -> bool
    ensures { result ≡ is_alike (name_seen a.entry) (name_seen b.entry) }
{
    is_same_calendar(a.calendar, b.calendar) && is_same_word(a.name, b.name)
}

/// Whether a text is no date as registers have it.
fn is_no_date(calendar: Calendar, text: &[u8]) -> bool
    ensures { (result ≡ true) ↔ IsNoDate calendar text.now }
{
    match str::from_utf8(text) {
        Ok(text) => read_date(calendar, text).is_err(),
        Err(_) => true,
    }
}

/// Whether a field of a calendar stays as it is and is no date. What stays is most often a date, which has no blanks to be
/// looked for.
fn stays_no_date(calendar: Calendar, field: &[u8], date: &[u8]) -> bool
    ensures { (result ≡ true) ↔ ((date.now ≡ field.now) × IsNoDate calendar field.now) }
{
    date == field && is_no_date(calendar, field)
}

/// Whether a field of a calendar, for which this date is written, stays as it is although it is no date.
fn stays_written(calendar: Calendar, field: &[u8], date: &[u8]) -> bool
    ensures { (result ≡ true) ↔ StaysWritten calendar field.now date.now }
{
    stays_no_date(calendar, field, date) && !without_blanks(field).is_empty()
}

/// Whether a text is read where three numbers stand in this order.
fn is_read_in(
    order: Order,
    text: &[u8],
    calendar: Calendar,
    names: &Names,
    reading: &Choice,
) -> bool
    ensures { result ≡ is_read (in_order order reading.now) calendar names.now.listed.now text.now }
{
    let other = Choice {
        order,
        short_years: reading.short_years,
        short_hebrew_years: reading.short_hebrew_years,
        short_other_years: reading.short_other_years,
        charters: reading.charters,
    };
    stop_of(text, calendar, names, &other).is_none()
}

/// Whether the year is looked for first, and a text would be read with the day or the month first.
fn has_year_last(text: &[u8], calendar: Calendar, names: &Names, reading: &Choice) -> bool
    ensures { result ≡ last_spec reading.now calendar names.now.listed.now text.now }
{
    is_year_first(reading.order)
        && (is_read_in(Order::DayFirst, text, calendar, names, reading)
            || is_read_in(Order::MonthFirst, text, calendar, names, reading))
}

/// The reason for which a text is not read.
fn text_reason(text: &[u8], calendar: Calendar, names: &Names, reading: &Choice) -> Reason
    ensures { result ≡ reason_spec reading.now calendar names.now.listed.now text.now }
{
    match reason_by(stop_of(text, calendar, names, reading)) {
        Reason::NoDate if has_year_last(text, calendar, names, reading) => Reason::YearLast,
        reason => reason,
    }
}

/// What stops a text that is not read.
fn text_stop<'a>(
    text: &'a [u8],
    calendar: Calendar,
    names: &Names,
    reading: &Choice,
) -> DateStop<'a>
    ensures { stop_seen result ≡ text_spec reading.now calendar names.now.listed.now text.now }
{
    match unknown_word(text, names, calendar) {
        Some(name) => DateStop::Name(NameStop {
            name,
            calendar: Some(calendar),
        }),
        None => DateStop::Reason(text_reason(text, calendar, names, reading)),
    }
}

/// What stops a field of a calendar, for which this date is written; nothing where the field is a date, or was read.
pub fn stop_in<'a>(
    field: &'a [u8],
    date: &[u8],
    calendar: Calendar,
    names: &Names,
    reading: &Choice,
) -> Option<DateStop<'a>>
    ensures { IsStopIn reading.now calendar names.now.listed.now field.now date.now (if_stop result) }
{
    if stays_written(calendar, field, date) {
        Some(text_stop(field, calendar, names, reading))
    } else {
        None
    }
}

/// The name that stands for a calendar, or that none does.
fn calendar_stop(column: CalendarField, record: &ByteRecord) -> DateStop<'_>
    ensures { stop_seen result ≡ calendar_spec (without_spec (calendar_field column (fields_of record.now))) }
{
    let field = match column {
        CalendarField::All(_) => b"".as_slice(),
        CalendarField::Column(column) => field_at(record, column.place as usize),
    };
    let name = without_blanks(field);
    if name.is_empty() {
        return DateStop::Reason(Reason::NoCalendar);
    }
    DateStop::Name(NameStop {
        name,
        calendar: None,
    })
}

/// What stops the date of a record in a column: this is its text, its calendar is the one called, and this is written for
/// it, or for its first day.
pub(crate) fn stop_by<'a>(
    choice: &SheetChoice,
    column: &DateColumn,
    called: Option<Calendar>,
    record: &'a ByteRecord,
    text: &'a [u8],
    date: &[u8],
) -> Option<DateStop<'a>>
    requires { text.now ≡ date_text choice.now column.now (fields_of record.now) }
    ensures { IsStopBy choice.now column.now (fields_of record.now) date.now called (if_stop result) }
{
    match called {
        Some(calendar) => stop_in(text, date, calendar, choice.names, &choice.reading),
        None if without_blanks(text).is_empty() => None,
        None => Some(calendar_stop(column.calendar, record)),
    }
}
