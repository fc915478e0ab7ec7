//! What comes of a sheet.

ghost use Rattle.std.specs.Prelude.{◌≡◌, IfErr, IfOk, OnErr, OnOk, true};
ghost use Rattle.csv.specs.Records.{fields_of};
ghost use Rattle.register_records.specs.Sources.{Gains};
ghost use Rattle.sheets.specs.AskedOfSheets.{IsChoice, IsChoiceBy, asked_in};
ghost use Rattle.sheet_arguments.specs.Requests.{task_of};
ghost use Rattle.sheet_app.specs.SheetFaults.{IsOfColumns};
ghost use Rattle.sheet_app.specs.private.Conversions.{lines_by, task_by};
ghost use Rattle.sheet_app.specs.private.SheetViews.{AsksFor, IsBrokenBehind, IsDoneBy, IsEndedBy, MakesChoices};
ghost use Rattle.sheet_app.specs.Sheets.{HasMark, IsAskedOf, IsEarly, IsEnded, IsListBy, names_of};

use crate::columns::{dates_named, id_named};
use crate::prepared::Conversion;
use crate::sheet_faults::{SheetFault, fault_of_columns};
use csv::ByteRecord;
use register_records::{Output, OutputFault, send};
use sheet_arguments::Job;
use sheets::{
    AskedByNames, AskedOfSheet, NameList, SheetCounts, SheetEnd, SheetSetup, UnreadDates,
    convert_outputs, head_record, unknown_names,
};
use std::alloc::Global;

/// The most names that a list of those that are not known has.
const MOST_UNKNOWN: usize = 1000;

/// What is known of a whole sheet.
#[derive(Clone, Copy)]
pub struct WholeSheet {
    /// How many records stand below the names.
    pub records: u32,
    /// How many of their dates were refused, and how many are empty.
    pub counts: SheetCounts,
    /// How many dates were not read.
    pub unread: UnreadDates,
}

/// What is known of a sheet beside the list of its names that are not known.
#[derive(Clone, Copy)]
pub struct ListedSheet {
    /// How many dates were stopped by names that are not listed.
    pub more: u64,
    /// How many dates were not read.
    pub unread: UnreadDates,
}

/// How a sheet ended.
#[derive(Drop)]
pub enum SheetDone<'a> {
    /// It was converted to its end, with its registers.
    Whole(WholeSheet),
    /// It was converted to its end, and what else was asked for broke off.
    WholeBut(SheetFault<'a>),
    /// The names that are not known are listed.
    Listed(ListedSheet),
    /// It broke off.
    Broken(SheetFault<'a>),
}

/// What a job asks of a sheet with these names, by the names of a list.
fn asked_by_names<'a>(
    alloc: Global,
    list: &NameList,
    names: ByteRecord,
    job: &Job<'a>,
) -> Result<AskedOfSheet, SheetFault<'a>>
    ensures asked { IfOk result (λ asked. IsAskedOf (task_of job.now) list.now.lines.items (fields_of names)
        (asked_in asked)) }
    ensures fault { IfErr result (IsOfColumns (task_of job.now) list.now.lines.items (fields_of names)) }
{
    let id = match id_named(&names, job.id) {
        Ok(id) => id,
        Err(fault) => return Err(fault_of_columns(fault, names)),
    };
    let dates = match dates_named(alloc, list, &names, job) {
        Ok(dates) => dates,
        Err(fault) => return Err(fault_of_columns(fault, names)),
    };
    Ok(AskedOfSheet {
        delimiter: job.delimiter,
        above: job.skip,
        id,
        reading: job.reading,
        spans: job.spans,
        dates,
        columns: job.columns.as_slice().to_vec(alloc)?,
    })
}

/// What a job asks of a sheet, by the names of a list.
fn asked_of<'a>(
    alloc: Global,
    sheet: &[u8],
    list: &NameList,
    job: &Job<'a>,
) -> Result<AskedOfSheet, SheetFault<'a>>
    ensures asked { IfOk result (λ asked. IsAskedOf (task_of job.now) list.now.lines.items
        (names_of (task_of job.now) sheet.now) (asked_in asked)) }
    ensures fault { IfErr result (IsEarly (task_of job.now) list.now.lines.items sheet.now) }
{
    match head_record(alloc, sheet, job.delimiter, job.skip)? {
        Some(names) => asked_by_names(alloc, list, names, job),
        None => Err(SheetFault::NoNames),
    }
}

/// The setup of what is asked of a sheet.
fn setup_of<'a>(known: &'a AskedByNames<'a>) -> SheetSetup<'a>
    requires { MakesChoices known.now }
    ensures { IsChoiceBy known.now result.choice × IsChoice result.choice }
{
    match known.setup() {
        Ok(setup) => setup,
        Err(_) => unreachable!(),
    }
}

/// Writes the list of the names in a sheet that are not known, and returns what is known beside it.
fn list_unknown<'b, W: Output>(
    alloc: Global,
    sheet: &[u8],
    setup: &SheetSetup,
    output: &mut W,
) -> Result<ListedSheet, SheetFault<'b>>
    ensures whole { IfOk result (λ listed. Gains (W.contents output.old) (W.contents output.new)
        (IsListBy setup.now.choice MOST_UNKNOWN sheet.now listed)) }
    ensures flushed { OnOk result (W.is_flushed output.new ≡ true) }
    ensures broken { IfErr result (IsBrokenBehind W.Output setup.now.choice sheet.now output.old output.new) }
{
    let unknown = unknown_names(alloc, sheet, setup, MOST_UNKNOWN)?;
    let text = unknown.text(alloc)?;
    send(output, text.as_slice())?;
    Ok(ListedSheet {
        more: unknown.more,
        unread: unknown.unread,
    })
}

/// Writes the sheet with the columns asked, and the registers of its columns of dates, and returns how they ended.
fn write_outputs<'b, W: Output>(
    alloc: Global,
    sheet: &[u8],
    setup: &SheetSetup,
    output: &mut W,
    registers: &mut [W],
) -> SheetDone<'b>
    ensures { IsDoneBy W.Output setup.now.choice sheet.now output.old output.new registers.old registers.new result }
{
    let end = convert_outputs(alloc, sheet, setup, output, registers);
    match end.sheet {
        SheetEnd::Whole {
            rows,
            counts,
            unread,
        } => match end.registers {
            Ok(()) => SheetDone::Whole(WholeSheet {
                records: rows,
                counts,
                unread,
            }),
            Err(cause) => SheetDone::WholeBut(SheetFault::from(cause)),
        },
        SheetEnd::Broken { cause } => SheetDone::Broken(SheetFault::from(cause)),
    }
}

/// The mark of UTF-8 that a sheet begins with, or nothing.
#[tactic(auto, using(crate::proofs::MarkLemmas::heads))]
pub(crate) fn mark_of(sheet: &[u8]) -> &[u8]
    ensures { HasMark sheet.now result.now }
{
    if sheet.len() >= 3 && sheet[0] == 0xEF && sheet[1] == 0xBB && sheet[2] == 0xBF {
        &sheet[..3]
    } else {
        &sheet[..0]
    }
}

/// Writes the mark of UTF-8 where a sheet begins with it.
///
/// # Errors
///
/// `OutputFault` where the output has failed.
fn write_mark<W: Output>(sheet: &[u8], output: &mut W) -> Result<(), OutputFault>
    ensures ok { OnOk result (Gains (W.contents output.old) (W.contents output.new) (HasMark sheet.now)) }
    ensures fails { OnErr result (W.has_failed output.new ≡ true) }
{
    let mark = mark_of(sheet);
    if mark.is_empty() {
        return Ok(());
    }
    send(output, mark)
}

/// Writes what is asked of a sheet, by what is known: behind the mark of UTF-8 where the sheet begins with it.
fn write_known<'b, W: Output>(
    alloc: Global,
    sheet: &[u8],
    known: &AskedByNames,
    by: &Conversion<'_, 'b>,
    output: &mut W,
    registers: &mut [W],
) -> Result<SheetDone<'b>, SheetFault<'b>>
    requires { AsksFor (task_by by.now) (lines_by by.now) sheet.now known.now }
    ensures { IsEndedBy W.Output (task_by by.now) (lines_by by.now) MOST_UNKNOWN sheet.now output.old output.new
        registers.old registers.new result }
{
    let setup = setup_of(known);
    write_mark(sheet, output)?;
    if by.job.unknown {
        let listed = list_unknown(alloc, sheet, &setup, output)?;
        return Ok(SheetDone::Listed(listed));
    }
    Ok(write_outputs(alloc, sheet, &setup, output, registers))
}

/// Writes what is asked of a sheet.
fn write_asked<'b, W: Output>(
    alloc: Global,
    sheet: &[u8],
    by: &Conversion<'_, 'b>,
    output: &mut W,
    registers: &mut [W],
) -> Result<SheetDone<'b>, SheetFault<'b>>
    ensures { IsEndedBy W.Output (task_by by.now) (lines_by by.now) MOST_UNKNOWN sheet.now output.old output.new
        registers.old registers.new result }
{
    let asked = asked_of(alloc, sheet, by.list, by.job)?;
    let names = by.list.names(alloc)?;
    let calendars = by.list.calendar_names(alloc)?;
    let headings = asked.headings(alloc, sheet)?;
    let known = AskedByNames::new(
        alloc,
        asked,
        names.as_slice(),
        calendars.as_slice(),
        headings.as_slice(),
    )?;
    write_known(alloc, sheet, &known, by, output, registers)
}

/// Writes what is asked of a sheet, and returns how it has ended.
pub fn convert_text<'b, W: Output>(
    alloc: Global,
    sheet: &[u8],
    by: &Conversion<'_, 'b>,
    output: &mut W,
    registers: &mut [W],
) -> SheetDone<'b>
    ensures { IsEnded W.Output (task_by by.now) (lines_by by.now) MOST_UNKNOWN sheet.now output.old output.new
        registers.old registers.new result }
{
    match write_asked(alloc, sheet, by, output, registers) {
        Ok(done) => done,
        Err(fault) => SheetDone::Broken(fault),
    }
}
