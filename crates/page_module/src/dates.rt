//! Dates as people write them, for a page.

ghost use Rattle.std.specs.Prelude.{◌≡◌, ◌≢◌, ℕ, List, IfOk, Some, slice_get};
ghost use Rattle.date_texts.specs.Calendars.{all_calendars};
ghost use Rattle.date_texts.specs.declared.calendar.Calendar.{Calendar as CalendarValue};
ghost use Rattle.register_records.specs.Entries.{text_records};
ghost use Rattle.sheets.specs.NameLists.{IsListOf};
ghost use Rattle.sheets.specs.UnknownViews.{if_stop};
ghost use Rattle.sheets.specs.declared.name_lists.NameLine.{NameLine};
ghost use Rattle.page_module.specs.DateReports.{IsEnding, IsStopped, choice_by};
ghost use Rattle.page_module.specs.DateReports.{blamed as blamed_spec, plain_date as plain_spec};
ghost use Rattle.page_module.specs.DateReports.{stop_number as number_spec};
ghost use Rattle.page_module.specs.SheetReports.{PutsText};

use date_texts::Calendar;
use date_texts::laws::all_calendars;
use itoa::Buffer;
use page_rules::copy_if_fits;
use sheets::{DateStop, NameList, NameListFault, Reason, stop_in};
use std::alloc::{AllocError, Global};
use written_dates::{Choice, Names, Order, Short, date_beside_weekday, write_date};

/// A date as people write it, and how it is read.
#[repr(C)]
#[derive(Clone, Copy)]
pub struct StopRequest<'a> {
    pub text: &'a [u8],
    /// The text of a list of names.
    pub names: &'a [u8],
    /// The place of its calendar among [`Calendar::ALL`], from 0.
    pub calendar: u8,
    /// 0, 1 or 2 for a year, a day or a month that comes first.
    pub order: u8,
}

/// The calendar of a number, from 0.
fn calendar_at(number: u8) -> Option<Calendar>
    ensures { result ≡ slice_get all_calendars number }
{
    all_calendars();
    Calendar::ALL.get(number as usize).copied()
}

/// The choice for one date: the order of this number, years as they stand, and Roman years as those of the Kalends.
fn choice_by(order: u8) -> Choice
    ensures { result ≡ choice_by order }
{
    Choice {
        order: match order {
            0 => Order::YearFirst,
            1 => Order::DayFirst,
            _ => Order::MonthFirst,
        },
        short_years: Short::Keep,
        short_hebrew_years: Short::Keep,
        short_other_years: Short::Keep,
        charters: false,
    }
}

/// The number of what stops a date.
fn stop_number(stop: Option<DateStop<'_>>) -> usize
    ensures { result ≡ number_spec (if_stop stop.entry) }
{
    match stop {
        None => 0,
        Some(DateStop::Reason(reason)) => reason.number(),
        Some(DateStop::Name(_)) => 10,
    }
}

/// A date as three numbers, or nothing.
fn plain_date(alloc: Global, date: Option<(u64, u32, u32)>) -> Result<Vec<u8>, AllocError>
    ensures { IfOk result (λ text. text.items ≡ plain_spec date) }
{
    let mut text = Vec::new(alloc);
    if let Some((year, month, day)) = date {
        text.extend_from_slice(Buffer::new().format(year).as_bytes())?;
        text.push(b'-')?;
        text.extend_from_slice(Buffer::new().format(month).as_bytes())?;
        text.push(b'-')?;
        text.extend_from_slice(Buffer::new().format(day).as_bytes())?;
    }
    Ok(text)
}

/// The name that stops a text, or the date that it says beside another weekday.
fn blamed(
    alloc: Global,
    text: &[u8],
    calendar: Calendar,
    names: &Names,
    choice: &Choice,
    stop: Option<DateStop<'_>>,
) -> Result<Vec<u8>, AllocError>
    ensures { IfOk result (λ blame. blame.items
        ≡ blamed_spec choice.now calendar names.now.listed.now text.now (if_stop stop.entry)) }
{
    match stop {
        Some(DateStop::Name(stop)) => stop.name.to_vec(alloc),
        Some(DateStop::Reason(Reason::OtherWeekday)) => {
            plain_date(alloc, date_beside_weekday(text, calendar, names, choice))
        }
        _ => Ok(Vec::new(alloc)),
    }
}

/// What stops a text: its number, and what is to blame.
#[derive(Drop)]
struct StopFound {
    number: usize,
    blame: Vec<u8>,
}

/// What stops a text by the names of a list.
fn stop_found(
    alloc: Global,
    request: &StopRequest,
    calendar: Calendar,
    list: &NameList,
) -> Result<StopFound, AllocError>
    ensures { IfOk result (λ stop. IsStopped list.now.lines.items (choice_by request.now.order) calendar
        request.now.text.now stop.number stop.blame.items) }
{
    let names = list.names(alloc)?;
    let names = Names::layered(alloc, names.as_slice())?;
    let text = request.text;
    let choice = choice_by(request.order);
    let mut date = Vec::new(alloc);
    write_date(&mut date, text, Some(calendar), &names, &choice)?;
    let stop = stop_in(text, date.as_slice(), calendar, &names, &choice);
    let blame = blamed(alloc, text, calendar, &names, &choice, stop)?;
    Ok(StopFound {
        number: stop_number(stop),
        blame,
    })
}

/// Why a date is not read. A number that says nothing is 0.
#[repr(C)]
#[derive(Clone, Copy)]
pub struct StopReport {
    /// 0: it was looked at. 1: memory ran out. 2: `names` is no list of names. 3: there is no such calendar.
    pub ending: usize,
    /// How many bytes are to blame. Where they are more than the room, that is as it was.
    pub length: usize,
    /// What stops the date. 0: nothing. 1 to 9: the reason with this number. 10: a name that is not known.
    pub stop: usize,
}

/// Says why a date is not read, and puts what is to blame to the front of `buffer`: the name that is not known, or,
/// where it names another weekday, the date that its other words say, as `1806-5-12`.
#[unsafe(no_mangle)]
pub extern "C" fn date_stop(
    alloc: Global,
    request: &StopRequest,
    buffer: &mut [u8],
    report: &mut StopReport,
)
    ensures stop { report.new.ending ≡ 0 → (found : CalendarValue) × (list : List NameLine) × (blame : List ℕ)
        × (slice_get all_calendars request.now.calendar ≡ Some found)
        × IsListOf (text_records 44 request.now.names.now) list
        × IsStopped list (choice_by request.now.order) found request.now.text.now report.new.stop blame
        × PutsText blame buffer.old buffer.new report.new.length }
    ensures none { report.new.ending ≢ 0
        → (report.new.length ≡ 0) × (report.new.stop ≡ 0) × (buffer.new ≡ buffer.old) }
    ensures why { report.new.ending ≢ 0
        → IsEnding request.now.calendar request.now.names.now report.new.ending }
{
    *report = StopReport {
        ending: 1,
        length: 0,
        stop: 0,
    };
    let Some(calendar) = calendar_at(request.calendar) else {
        report.ending = 3;
        return;
    };
    let list = match NameList::read(alloc, request.names) {
        Ok(list) => list,
        Err(NameListFault::OutOfMemory) => return,
        Err(_) => {
            report.ending = 2;
            return;
        }
    };
    if let Ok(stop) = stop_found(alloc, request, calendar, &list) {
        *report = StopReport {
            ending: 0,
            length: copy_if_fits(stop.blame.as_slice(), buffer),
            stop: stop.number,
        };
    }
}
