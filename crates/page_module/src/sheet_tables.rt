//! Sheets with their tables, for a page.

ghost use Rattle.std.specs.Prelude.{◌≡◌, ◌≢◌, ◌⊎◌, IfErr, IfOk, IsErrAnd, List, Some, ℕ, map, slice_get};
ghost use Rattle.std.specs.Fn.{FnOnceReturnsAt};
ghost use Rattle.register_records.specs.Entries.{text_records};
ghost use Rattle.sheets.specs.AskedOfSheets.{IsChoice, IsChoiceBy};
ghost use Rattle.sheets.specs.Converted.{IsWholeSheet};
ghost use Rattle.sheets.specs.NameLists.{IsListOf};
ghost use Rattle.sheets.specs.Registers.{IsRegister};
ghost use Rattle.sheets.specs.UnknownNames.{AreUnreadIn, IsUnknown, list_text, name_seen};
ghost use Rattle.sheets.specs.declared.choices.DateColumn.{DateColumn as DateColumnValue};
ghost use Rattle.sheets.specs.declared.choices.SheetChoice.{SheetChoice as SheetChoiceValue};
ghost use Rattle.sheets.specs.declared.choices.SheetSetup.{SheetSetup as SheetSetupValue};
ghost use Rattle.page_module.specs.private.KnownViews.{EndsEarly, ending_by};
ghost use Rattle.page_module.specs.SheetReports.{PutsText};
ghost use Rattle.page_module.specs.SheetTables.{EndsBy, EndsFor, HasFault, IsAsked, IsAskedRegister, IsAskedSheet};
ghost use Rattle.page_module.specs.SheetTables.{IsAskedUnknown, IsChoiceAt, IsEndingOf, end_by};

use crate::choices::{SheetRequest, asked_of};
use crate::sheet_texts::{PutReport, put};
use page_rules::{bytes_for, copy_if_fits};
use register_records::PlainOutput;
use sheets::{
    AskedByNames, End, NameList, NameListFault, SheetCause, SheetCounts, SheetEnd, SheetSetup,
    Unknown, UnreadDates, convert_sheet, unknown_names, write_register,
};
use std::alloc::{AllocError, Global};

/// Why a page gets nothing of a sheet.
#[derive(Clone, Copy, PartialEq, Eq, Debug)]
enum SheetEnding {
    /// Memory ran out.
    NoMemory,
    /// The list of names is none.
    NameList,
    /// The choice is none.
    Choice,
    /// No record with names stands below those above them.
    NoNames,
    /// More than 1,000,000 records stand below the names.
    TooManyRecords,
}

impl SheetEnding {
    ghost use Rattle.std.specs.Prelude.{◌≡◌, ◌≢◌};
    ghost use Rattle.page_module.specs.SheetTables.{ending_number};

    /// The number of the ending, from 1 for `NoMemory` to 5 for `TooManyRecords`.
    fn number(self) -> usize
        ensures value { result ≡ ending_number self }
        ensures some { result ≢ 0 }
    {
        match self {
            SheetEnding::NoMemory => 1,
            SheetEnding::NameList => 2,
            SheetEnding::Choice => 3,
            SheetEnding::NoNames => 4,
            SheetEnding::TooManyRecords => 5,
        }
    }
}

impl From<AllocError> for SheetEnding {
    ghost use Rattle.std.specs.Prelude.{◌≡◌};
    ghost use Rattle.page_module.specs.declared.sheet_tables.SheetEnding.TheVariants.{NoMemory};

    ghost from_gives = { λ error ending. ending ≡ NoMemory };

    fn from(_error: AllocError) -> Self {
        SheetEnding::NoMemory
    }
}

/// The ending for a cause. An output in memory fails where there is no more.
fn ending_of(cause: SheetCause) -> SheetEnding
    ensures { result ≡ ending_by cause }
{
    match cause {
        SheetCause::NoMemory | SheetCause::SinkFault => SheetEnding::NoMemory,
        SheetCause::NoNames => SheetEnding::NoNames,
        SheetCause::TooManyRecords => SheetEnding::TooManyRecords,
    }
}

/// The list of names of a text.
fn list_of(alloc: Global, names: &[u8]) -> Result<NameList, SheetEnding>
    ensures list { IfOk result (λ list. IsListOf (text_records 44 names.now) list.lines.items) }
    ensures fault { IfErr result (λ e. (e ≡ SheetEnding.NoMemory) ⊎ ((e ≡ SheetEnding.NameList) × HasFault names.now)) }
{
    match NameList::read(alloc, names) {
        Ok(list) => Ok(list),
        Err(NameListFault::OutOfMemory) => Err(SheetEnding::NoMemory),
        Err(_) => Err(SheetEnding::NameList),
    }
}

/// A sheet that came back, how many records it has, and how many of their dates were refused, are empty, or were not
/// read.
#[derive(Drop)]
struct SheetMade {
    text: Vec<u8>,
    rows: u32,
    counts: SheetCounts,
    unread: UnreadDates,
}

/// The sheet that comes back by a setup.
fn converted_by(
    alloc: Global,
    sheet: &[u8],
    setup: &SheetSetup,
    expected: usize,
) -> Result<SheetMade, SheetEnding>
    ensures whole { IfOk result (λ made. IsWholeSheet setup.now.choice
        (text_records setup.now.choice.delimiter sheet.now) made.rows made.counts made.text.items
        × AreUnreadIn setup.now.choice (text_records setup.now.choice.delimiter sheet.now) made.unread) }
    ensures ends { IsChoice setup.now.choice → IfErr result (EndsBy IsChoice setup.now.choice sheet.now) }
{
    let mut output = PlainOutput::new(bytes_for(alloc, expected), 0);
    let end = convert_sheet(alloc, sheet, setup, &mut output);
    let text = output.into_inner();
    match end {
        SheetEnd::Whole {
            rows,
            counts,
            unread,
        } => Ok(SheetMade {
            text,
            rows,
            counts,
            unread,
        }),
        SheetEnd::Broken { cause } => Err(ending_of(cause)),
    }
}

/// The end of dates of a number.
fn end_of(number: u8) -> End
    ensures { result ≡ end_by number }
{
    match number {
        0 => End::First,
        _ => End::Last,
    }
}

/// The register of the first or the last days of a column of dates by a setup.
fn register_by(
    alloc: Global,
    sheet: &[u8],
    setup: &SheetSetup,
    column: usize,
    end: End,
    expected: usize,
) -> Result<Vec<u8>, SheetEnding>
    ensures whole { IfOk result (λ text. (found : DateColumnValue) × (count : ℕ)
        × (slice_get setup.now.choice.dates.now column ≡ Some found)
        × IsRegister setup.now.choice found end (text_records setup.now.choice.delimiter sheet.now) count text.items) }
    ensures ends { IsChoice setup.now.choice → IfErr result (EndsBy (IsChoiceAt column) setup.now.choice sheet.now) }
{
    if column >= setup.choice().dates.len() {
        return Err(SheetEnding::Choice);
    }
    let mut output = PlainOutput::new(bytes_for(alloc, expected), 0);
    let written = write_register(alloc, sheet, setup, column, end, &mut output);
    let text = output.into_inner();
    match written {
        Ok(_) => Ok(text),
        Err(cause) => Err(ending_of(cause)),
    }
}

/// The names that are not known by a setup, and a list of them.
fn unknown_by(
    alloc: Global,
    sheet: &[u8],
    setup: &SheetSetup,
    most: usize,
) -> Result<(Unknown, Vec<u8>), SheetEnding>
    ensures whole { IfOk result (λ r. IsUnknown setup.now.choice (text_records setup.now.choice.delimiter sheet.now)
        most (map name_seen r.0.names.items) r.0.more r.0.unread
        × (r.1.items ≡ list_text (map name_seen r.0.names.items))) }
    ensures ends { IsChoice setup.now.choice → IfErr result (EndsBy IsChoice setup.now.choice sheet.now) }
{
    match unknown_names(alloc, sheet, setup, most) {
        Ok(unknown) => {
            let text = unknown.text(alloc)?;
            Ok((unknown, text))
        }
        Err(cause) => Err(ending_of(cause)),
    }
}

/// What is made by the setup of what is known.
fn by_setup<T, F: FnOnce(&SheetSetup) -> Result<T, SheetEnding>>(
    known: &AskedByNames,
    make: F,
) -> Result<T, SheetEnding>
    requires { F.IsAlwaysCallable make }
    ensures { IsErrAnd result (λ why. (why ≡ SheetEnding.Choice)
        × ((choice : SheetChoiceValue) × IsChoiceBy known.now choice × ¬ (IsChoice choice)))
        ⊎ ((setup : SheetSetupValue) × IsChoiceBy known.now setup.choice × IsChoice setup.choice
        × FnOnceReturnsAt F.FnOnce make setup result) }
{
    match known.setup() {
        Ok(setup) => make(&setup),
        Err(_) => Err(SheetEnding::Choice),
    }
}

/// What is made by the setup of what is asked.
fn made_by<T, F: FnOnce(&SheetSetup) -> Result<T, SheetEnding>>(
    alloc: Global,
    request: &SheetRequest,
    make: F,
) -> Result<T, SheetEnding>
    requires { F.IsAlwaysCallable make }
    ensures { IsErrAnd result (EndsEarly request.now)
        ⊎ ((setup : SheetSetupValue) × IsAsked request.now setup.choice × IsChoice setup.choice
        × FnOnceReturnsAt F.FnOnce make setup result) }
{
    let Some(asked) = asked_of(alloc, request)? else {
        return Err(SheetEnding::Choice);
    };
    let list = list_of(alloc, request.names)?;
    let names = list.names(alloc)?;
    let calendars = list.calendar_names(alloc)?;
    let headings = asked.headings(alloc, request.sheet)?;
    let known = AskedByNames::new(
        alloc,
        asked,
        names.as_slice(),
        calendars.as_slice(),
        headings.as_slice(),
    )?;
    by_setup(&known, make)
}

/// How a sheet came back. A number that says nothing is 0.
#[repr(C)]
#[derive(Clone, Copy)]
pub struct SheetReport {
    /// 0: the sheet is whole. 1: memory ran out. 2: the list of names is none. 3: the choice is none. 4: no record with
    /// names stands below those above them. 5: more than 1,000,000 records stand below the names.
    pub ending: usize,
    /// How many bytes it has. Where they are more than the room, that is as it was.
    pub length: usize,
    /// How many records stand below the names.
    pub rows: usize,
    /// How many of their dates were refused, and how many are empty.
    pub counts: SheetCounts,
    /// How many dates were not read.
    pub unread: UnreadDates,
}

/// What is not known in a sheet. A number that says nothing is 0.
#[repr(C)]
#[derive(Clone, Copy)]
pub struct UnknownReport {
    /// As of [`SheetReport`].
    pub ending: usize,
    /// How many bytes the list has. Where they are more than the room, that is as it was.
    pub length: usize,
    /// How many dates other names stopped than those of the list.
    pub more: usize,
    /// How many dates were not read.
    pub unread: UnreadDates,
}

/// Converts a sheet, and puts what comes back to the front of `room`.
#[unsafe(no_mangle)]
pub extern "C" fn sheet_convert(
    alloc: Global,
    request: &SheetRequest,
    room: &mut [u8],
    report: &mut SheetReport,
)
    ensures whole { report.new.ending ≡ 0 → (text : List ℕ)
        × IsAskedSheet request.now report.new.rows report.new.counts report.new.unread text
        × PutsText text room.old room.new report.new.length }
    ensures none { report.new.ending ≢ 0 → (report.new.length ≡ 0) × (report.new.rows ≡ 0) × (room.new ≡ room.old) }
    ensures why { report.new.ending ≢ 0 → IsEndingOf (EndsFor IsChoice request.now) report.new.ending }
{
    let expected = room.len();
    let made = made_by(alloc, request, |setup| {
        converted_by(alloc, request.sheet, setup, expected)
    });
    *report = match made {
        Ok(made) => SheetReport {
            ending: 0,
            length: copy_if_fits(made.text.as_slice(), room),
            rows: made.rows as usize,
            counts: made.counts,
            unread: made.unread,
        },
        Err(ending) => SheetReport {
            ending: ending.number(),
            length: 0,
            rows: 0,
            counts: SheetCounts::none(),
            unread: UnreadDates::none(),
        },
    };
}

/// Puts the register of a column of dates to the front of `room`: that of the first days where `end` is 0, else that of
/// the last days. The ending is as of [`SheetReport`].
#[unsafe(no_mangle)]
pub extern "C" fn sheet_register(
    alloc: Global,
    request: &SheetRequest,
    column: usize,
    end: u8,
    room: &mut [u8],
    report: &mut PutReport,
)
    ensures whole { report.new.ending ≡ 0 → (text : List ℕ) × IsAskedRegister request.now column (end_by end) text
        × PutsText text room.old room.new report.new.length }
    ensures none { report.new.ending ≢ 0 → (report.new.length ≡ 0) × (room.new ≡ room.old) }
    ensures why { report.new.ending ≢ 0 → IsEndingOf (EndsFor (IsChoiceAt column) request.now) report.new.ending }
{
    let (end, expected) = (end_of(end), room.len());
    let made = made_by(alloc, request, |setup| {
        register_by(alloc, request.sheet, setup, column, end, expected)
    });
    *report = match made {
        Ok(text) => put(text.as_slice(), room),
        Err(ending) => PutReport::none(ending.number()),
    };
}

/// Puts a list of the names that are not known to the front of `room`.
#[unsafe(no_mangle)]
pub extern "C" fn sheet_unknown(
    alloc: Global,
    request: &SheetRequest,
    most: usize,
    room: &mut [u8],
    report: &mut UnknownReport,
)
    ensures whole { report.new.ending ≡ 0 → (text : List ℕ)
        × IsAskedUnknown request.now most text report.new.more report.new.unread
        × PutsText text room.old room.new report.new.length }
    ensures none { report.new.ending ≢ 0 → (report.new.length ≡ 0) × (room.new ≡ room.old) }
    ensures why { report.new.ending ≢ 0 → IsEndingOf (EndsFor IsChoice request.now) report.new.ending }
{
    let made = made_by(alloc, request, |setup| {
        unknown_by(alloc, request.sheet, setup, most)
    });
    *report = match made {
        Ok((unknown, text)) => UnknownReport {
            ending: 0,
            length: copy_if_fits(text.as_slice(), room),
            more: unknown.more as usize,
            unread: unknown.unread,
        },
        Err(ending) => UnknownReport {
            ending: ending.number(),
            length: 0,
            more: 0,
            unread: UnreadDates::none(),
        },
    };
}
