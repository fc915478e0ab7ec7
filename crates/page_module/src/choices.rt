//! What a page asks of a sheet, in numbers.

ghost use Rattle.std.specs.Prelude.{◌≡◌, IfOk};
ghost use Rattle.page_module.specs.private.AskedViews.{asked_seen, columns_seen, dates_seen};
ghost use Rattle.page_module.specs.SheetChoices.{asked_by, calendar_by, column_by, columns_by, date_by, dates_by};
ghost use Rattle.page_module.specs.SheetChoices.{id_by, order_in, reading_by, short_by, short_hebrew_by, spans_by};

use date_texts::laws::{all_calendars, all_targets};
use date_texts::{Calendar, MAX_TARGETS, Target};
use sheets::{
    AskedColumn, AskedOfSheet, CalendarColumn, CalendarField, DateColumn, IdField, Spans,
};
use std::alloc::{AllocError, Global};
use written_dates::{CalendarMeaning, Choice, Order, Short};

/// Stands for the number of the record where the place of its id is wanted, and for one calendar for all where that of
/// its calendar is.
const NO_PLACE: u32 = 4_294_967_295;

/// The number of the name of the day, behind those of the targets.
const CHURCH: u8 = MAX_TARGETS as u8 + 2;

/// A column of dates. Places are from 0.
#[repr(C)]
#[derive(Clone, Copy)]
pub struct DateNumbers {
    pub date: u32,
    /// The place of the calendar, or 4294967295 for one calendar for all.
    pub place: u32,
    /// That one: its place among [`Calendar::ALL`].
    pub calendar: u32,
}

/// What is asked of a sheet.
#[repr(C)]
#[derive(Clone, Copy)]
pub struct SheetRequest<'a> {
    pub sheet: &'a [u8],
    pub dates: &'a [DateNumbers],
    /// The columns asked: 0 is the day, 1 the weekday; then come the targets, from 2 on, and the name of the day.
    pub columns: &'a [u8],
    /// The text of a list of names.
    pub names: &'a [u8],
    /// How many records stand above the names of the columns.
    pub above: u32,
    /// The place of the id, from 0, or 4294967295 for the number of the record.
    pub id: u32,
    /// 0, 1 or 2 for a year, a day or a month that comes first.
    pub order: u32,
    /// Short Gregorian and Julian years: 0 refuses them, 1 keeps them, and a century of 100 to 2000 is added.
    pub short_years: u32,
    /// Short Hebrew years: 0 refuses them, 1 keeps them, and 5000 is added.
    pub short_hebrew_years: u32,
    /// Those of other calendars, as `short_years`.
    pub short_other_years: u32,
    /// Dates that say no single day: 0, they are not read; 1, they have a first and a last day; 2, also a text of EDTF.
    pub spans: u32,
    /// The byte between two fields.
    pub delimiter: u8,
    /// Whether the year of a Roman date is that of its day.
    pub charters: bool,
}

fn id_of(place: u32) -> IdField
    ensures { result ≡ id_by place }
{
    if place == NO_PLACE {
        IdField::Number
    } else {
        IdField::Column(place)
    }
}

fn order_of(number: u32) -> Option<Order>
    ensures { result ≡ order_in number }
{
    match number {
        0 => Some(Order::YearFirst),
        1 => Some(Order::DayFirst),
        2 => Some(Order::MonthFirst),
        _ => None,
    }
}

fn short_of(number: u32) -> Option<Short>
    ensures { result ≡ short_by number }
{
    match number {
        0 => Some(Short::Refuse),
        1 => Some(Short::Keep),
        100..=2000 if number % 100 == 0 => Some(Short::Add(number)),
        _ => None,
    }
}

fn short_hebrew_of(number: u32) -> Option<Short>
    ensures { result ≡ short_hebrew_by number }
{
    match number {
        0 => Some(Short::Refuse),
        1 => Some(Short::Keep),
        5000 => Some(Short::Add(5000)),
        _ => None,
    }
}

fn spans_of(number: u32) -> Option<Spans>
    ensures { result ≡ spans_by number }
{
    match number {
        0 => Some(Spans::Unread),
        1 => Some(Spans::Ends),
        2 => Some(Spans::EndsAndEdtf),
        _ => None,
    }
}

/// How dates are read.
fn reading_of(request: &SheetRequest) -> Option<Choice>
    ensures { result ≡ reading_by request.now }
{
    Some(Choice {
        order: order_of(request.order)?,
        short_years: short_of(request.short_years)?,
        short_hebrew_years: short_hebrew_of(request.short_hebrew_years)?,
        short_other_years: short_of(request.short_other_years)?,
        charters: request.charters,
    })
}

/// Where the calendar of a date is: at a place, or it is that of a number.
fn calendar_of(place: u32, calendar: u32) -> Option<CalendarField>
    ensures { result ≡ calendar_by place calendar }
{
    if place == NO_PLACE {
        all_calendars();
        let calendar = Calendar::ALL.get(calendar as usize)?;
        Some(CalendarField::All(CalendarMeaning::One(*calendar)))
    } else {
        Some(CalendarField::Column(CalendarColumn {
            place,
            otherwise: None,
        }))
    }
}

fn date_of(numbers: &DateNumbers) -> Option<DateColumn>
    ensures { result ≡ date_by numbers.now }
{
    Some(DateColumn {
        date: numbers.date,
        calendar: calendar_of(numbers.place, numbers.calendar)?,
    })
}

/// The columns of dates of these numbers.
fn dates_of(alloc: Global, all: &[DateNumbers]) -> Result<Option<Vec<DateColumn>>, AllocError>
    ensures { IfOk result (λ dates. dates_seen dates ≡ dates_by all.now) }
{
    let mut dates = Vec::new(alloc);
    'all: for numbers in all {
        let Some(date) = date_of(numbers) else {
            return Ok(None);
        };
        dates.push(date)?;
    }
    Ok(Some(dates))
}

/// The column asked of a number: the day, the weekday, a target, or the name of the day.
fn column_of(number: u8) -> Option<AskedColumn>
    ensures { result ≡ column_by number }
{
    match number {
        0 => Some(AskedColumn::DayNumber),
        1 => Some(AskedColumn::Weekday),
        CHURCH => Some(AskedColumn::Church),
        _ => {
            all_targets();
            let target = Target::ALL.get(number as usize - 2)?;
            Some(AskedColumn::Cells(*target))
        }
    }
}

/// The columns asked of these numbers.
fn columns_of(alloc: Global, numbers: &[u8]) -> Result<Option<Vec<AskedColumn>>, AllocError>
    ensures { IfOk result (λ columns. columns_seen columns ≡ columns_by numbers.now) }
{
    let mut columns = Vec::new(alloc);
    'numbers: for number in numbers {
        let Some(column) = column_of(*number) else {
            return Ok(None);
        };
        columns.push(column)?;
    }
    Ok(Some(columns))
}

/// What a request asks of its sheet; nothing where a number of it stands for nothing.
pub(crate) fn asked_of(
    alloc: Global,
    request: &SheetRequest,
) -> Result<Option<AskedOfSheet>, AllocError>
    ensures { IfOk result (λ asked. asked_seen asked ≡ asked_by request.now) }
{
    let (Some(reading), Some(spans)) = (reading_of(request), spans_of(request.spans)) else {
        return Ok(None);
    };
    let Some(dates) = dates_of(alloc, request.dates)? else {
        return Ok(None);
    };
    let Some(columns) = columns_of(alloc, request.columns)? else {
        return Ok(None);
    };
    Ok(Some(AskedOfSheet {
        delimiter: request.delimiter,
        above: request.above,
        id: id_of(request.id),
        reading,
        spans,
        dates,
        columns,
    }))
}
