//! The records that the register of a column of dates has.

ghost use Rattle.std.specs.Prelude.{◌≡◌, ℕ, option_map};
ghost use Rattle.csv.specs.Records.{fields_of};
ghost use Rattle.written_dates.specs.Fields.{calendar_of as meant_of, without_blanks as without_spec};
ghost use Rattle.sheets.specs.Choices.{calendar_called as called_spec, calendar_for, calendar_text, date_text};
ghost use Rattle.sheets.specs.Choices.{id_text, meaning_for, own_by as own_spec, if_empty as empty_spec};
ghost use Rattle.sheets.specs.Choices.{meaning_in, meant_in as in_spec, one_called as one_spec};
ghost use Rattle.sheets.specs.private.OwnViews.{own_seen};
ghost use Rattle.std.specs.Fmt.{decimal};

use crate::choices::{CalendarField, DateColumn, IdField, SheetChoice};
use crate::met_calendars::MetCalendars;
use crate::own_calendars::{OwnDate, has_styles, own_date};
use crate::reading::field_at;
use csv::ByteRecord;
use date_texts::{Calendar, calendar_named};
use std::str;
use written_dates::{CalendarMeaning, without_blanks};

/// The date of a record: its calendar as the register has it, what is meant for it, and its text.
#[derive(Clone, Copy)]
pub(crate) struct SaidDate<'a> {
    pub calendar: &'a [u8],
    pub meant: Option<CalendarMeaning>,
    pub text: &'a [u8],
}

/// The calendar that a text of a register names.
pub(crate) fn calendar_called(text: &[u8]) -> Option<Calendar>
    ensures { result ≡ called_spec text.now }
{
    match str::from_utf8(text) {
        Ok(name) => calendar_named(name),
        Err(_) => None,
    }
}

/// What is meant where nothing but blanks stands in the field of a calendar.
fn if_empty(otherwise: Option<CalendarMeaning>, field: &[u8]) -> Option<CalendarMeaning>
    ensures { result ≡ empty_spec otherwise (without_spec field.now) }
{
    match otherwise {
        Some(_) if without_blanks(field).is_empty() => otherwise,
        _ => None,
    }
}

/// What a field of a calendar means: by the names, or where it is empty.
fn meant_in(
    met: &mut MetCalendars,
    otherwise: Option<CalendarMeaning>,
    field: &[u8],
) -> Option<CalendarMeaning>
    ensures meant { result ≡ in_spec met.old.names.now otherwise field.now }
    ensures names { met.new.names ≡ met.old.names }
{
    match met.meant(field) {
        Some(meaning) => Some(meaning),
        None => if_empty(otherwise, field),
    }
}

/// The calendar that a field names.
fn one_called(field: &[u8]) -> Option<CalendarMeaning>
    ensures { result ≡ one_spec field.now }
{
    match calendar_called(field) {
        Some(calendar) => Some(CalendarMeaning::One(calendar)),
        None => None,
    }
}

/// The calendar of a record, and what is meant for its dates.
fn calendar_of<'a>(
    met: &mut MetCalendars,
    place: CalendarField,
    record: &'a ByteRecord,
) -> (&'a [u8], Option<CalendarMeaning>)
    ensures text { result.0.now ≡ calendar_text met.old.names.now place (fields_of record.now) }
    ensures meant { result.1 ≡ meaning_in met.old.names.now place (fields_of record.now) }
    ensures names { met.new.names ≡ met.old.names }
{
    match place {
        CalendarField::All(meaning) => (meaning.calendar().name().as_bytes(), Some(meaning)),
        CalendarField::Column(column) => {
            let field = field_at(record, column.place as usize);
            match meant_in(met, column.otherwise, field) {
                Some(meaning) => (meaning.calendar().name().as_bytes(), Some(meaning)),
                None => (field, one_called(field)),
            }
        }
    }
}

/// What a field says whose text names its calendar itself, where this is meant for its record.
fn own_by<'a>(
    choice: &SheetChoice,
    meaning: Option<CalendarMeaning>,
    field: &'a [u8],
) -> Option<OwnDate<'a>>
    ensures { option_map own_seen result ≡ own_spec choice.now meaning field.now }
{
    if has_styles(meaning) {
        own_date(choice.calendars, choice.names, field)
    } else {
        None
    }
}

/// The date of a record in a column.
pub(crate) fn date_said<'a>(
    choice: &SheetChoice,
    column: &DateColumn,
    record: &'a ByteRecord,
    met: &mut MetCalendars,
) -> SaidDate<'a>
    requires { met.old.names.now ≡ choice.now.calendars.now }
    ensures names { met.new.names ≡ met.old.names }
    ensures calendar { result.calendar.now ≡ calendar_for choice.now column.now (fields_of record.now) }
    ensures meant { result.meant ≡ meaning_for choice.now column.now (fields_of record.now) }
    ensures text { result.text.now ≡ date_text choice.now column.now (fields_of record.now) }
{
    let (calendar, meant) = calendar_of(met, column.calendar, record);
    let text = field_at(record, column.date as usize);
    match own_by(choice, meant, text) {
        Some(own) => SaidDate {
            calendar: own.calendar.name().as_bytes(),
            meant: Some(CalendarMeaning::One(own.calendar)),
            text: own.date,
        },
        None => SaidDate {
            calendar,
            meant,
            text,
        },
    }
}

/// The calendar that is meant.
pub(crate) fn called_by(meaning: Option<CalendarMeaning>) -> Option<Calendar>
    ensures { result ≡ option_map meant_of meaning }
{
    match meaning {
        Some(meaning) => Some(meaning.calendar()),
        None => None,
    }
}

/// The id of a record whose number is this, in decimal.
pub(crate) fn id_of<'a>(place: IdField, number: &'a [u8], record: &'a ByteRecord) -> &'a [u8]
    ensures { (n : ℕ) → number.now ≡ decimal n → result.now ≡ id_text place n (fields_of record.now) }
{
    match place {
        IdField::Number => number,
        IdField::Column(place) => field_at(record, place as usize),
    }
}
