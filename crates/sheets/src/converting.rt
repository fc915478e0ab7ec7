//! A sheet with the columns of its dates' rows behind it, and the registers of its dates.

ghost use Rattle.std.specs.Prelude.{◌≡◌, ◌≤◌, ◌<◌, Err, IfErr, IfOk, IfSome, IfNone, length, drop, replicate};
ghost use Rattle.register_records.specs.Entries.{text_records};
ghost use Rattle.sheets.specs.Converted.{records_by};
ghost use Rattle.sheets.specs.Produced.{Produced, first_fault};
ghost use Rattle.sheets.specs.SheetOutputs.{AreMadeOutputs, IsMadeSheet, sheet_ending};
ghost use Rattle.sheets.specs.private.SheetReadings.{AreNewWriters, LacksNames, sheet_end as end_spec};
ghost use Rattle.sheets.specs.Sheets.{widest};

use crate::choices::{SheetChoice, SheetSetup};
use crate::line_writers::{LineWriter, finish_each};
use crate::reading::{pass_names, read_next, records_of};
use crate::record_lines::BodyLine;
use crate::sheet_ends::{SheetCause, SheetEnd};
use crate::sheet_notes::SheetNotes;
use crate::sheet_readings::read_sheet;
use crate::sheet_writers::{SheetWriters, register_writers};
use csv::ByteRecord;
use register_records::Output;
use std::alloc::{AllocError, Global};

/// How a sheet and the registers of its dates ended.
#[derive(Clone, Copy)]
pub struct OutputsEnd {
    /// How the sheet that comes back ended.
    pub sheet: SheetEnd,
    /// Why the first of the registers that are not whole is not.
    pub registers: Result<(), SheetCause>,
}

/// The most fields of the names, above which so many records stand, and of the records below them; `None` where there
/// are no names.
fn width_of(
    alloc: Global,
    sheet: &[u8],
    delimiter: u8,
    above: u32,
) -> Result<Option<usize>, AllocError>
    ensures some { IfOk result (λ o. IfSome o (λ width. (above < length (text_records delimiter sheet.now))
        × (width ≡ widest (drop above (text_records delimiter sheet.now))))) }
    ensures none { IfOk result (λ o. IfNone o (length (text_records delimiter sheet.now) ≤ above)) }
{
    let mut records = records_of(alloc, sheet, delimiter);
    let mut record = ByteRecord::new(alloc);
    if !pass_names(&mut records, &mut record, above)? {
        return Ok(None);
    }
    let mut width = record.len();
    'records: loop {
        if !read_next(&mut records, &mut record)? {
            return Ok(Some(width));
        }
        width = usize::max(record.len(), width);
    }
}

/// How a sheet has ended by the answer of its writer.
fn sheet_end(answer: Result<(), SheetCause>, notes: &SheetNotes) -> SheetEnd
    ensures { result ≡ end_spec answer notes.now }
{
    match answer {
        Ok(()) => SheetEnd::Whole {
            rows: notes.records,
            counts: notes.counts,
            unread: notes.found.unread,
        },
        Err(cause) => SheetEnd::Broken { cause },
    }
}

impl OutputsEnd {
    /// Nothing was made, for this cause, of a sheet and of so many registers.
    fn broken(cause: SheetCause, registers: usize) -> OutputsEnd
        ensures sheet { result.sheet ≡ SheetEnd.Broken cause }
        ensures registers { result.registers ≡ first_fault (replicate registers (Err cause)) }
    {
        OutputsEnd {
            sheet: SheetEnd::Broken { cause },
            registers: if registers == 0 { Ok(()) } else { Err(cause) },
        }
    }
}

/// The writers of a sheet that has names, and of so many registers.
fn new_writers(
    alloc: Global,
    sheet: &[u8],
    choice: &SheetChoice,
    count: usize,
) -> Result<SheetWriters<BodyLine>, SheetCause>
    ensures new { IfOk result (AreNewWriters choice.now (records_by choice.now sheet.now) count) }
    ensures fault { IfErr result (LacksNames choice.now (records_by choice.now sheet.now)) }
{
    let Some(width) = width_of(alloc, sheet, choice.delimiter, choice.above)? else {
        return Err(SheetCause::NoNames);
    };
    let columns = choice.dates.len();
    let registers = register_writers(alloc, choice.delimiter, columns, count)?;
    Ok(SheetWriters {
        notes: SheetNotes::none(alloc, 0),
        sheet: LineWriter::new(alloc, BodyLine { width }, choice.delimiter),
        registers,
    })
}

/// Writes the sheet that comes back and registers, by new writers.
fn convert_wide<W: Output>(
    alloc: Global,
    sheet: &[u8],
    setup: &SheetSetup,
    writers: &mut SheetWriters<BodyLine>,
    output: &mut W,
    registers: &mut [W],
) -> OutputsEnd
    requires { AreNewWriters setup.now.choice (records_by setup.now.choice sheet.now) (length registers.old)
        writers.old }
    ensures { AreMadeOutputs W.Output setup.now.choice sheet.now result output.old output.new registers.old
        registers.new }
{
    let read = read_sheet(alloc, sheet, setup, writers, output, registers);
    let answer = writers.sheet.finish(read, output);
    OutputsEnd {
        sheet: sheet_end(answer, &writers.notes),
        registers: finish_each(writers.registers.as_mut_slice(), read, registers),
    }
}

/// Writes to an output the sheet that comes back: the records above the names as they stand; the names, filled up to
/// the width of the sheet with empty fields, and behind them the headings; then each record below, filled up likewise,
/// and behind it, for each column of dates, what the columns asked and the refusal have in its row of the table of this
/// column's register. That register has for each record the id, the calendar and the date that the choice gives. The
/// width of the sheet is the most fields of the names and of the records below. Lines are sent in blocks.
///
/// With spans each column has two registers, of the first and of the last day that a date can mean, and what comes behind
/// a record is what the columns asked have in the first one's row, then in the last one's, the text of EDTF where it is
/// asked, the mark, and the refusal of the first of both that is refused and not open.
///
/// To each of the other outputs it writes the register at its place, of the columns of dates in order, and behind these
/// those of the last days, from the same reading. An output that fails ends alone, and the others go on.
pub fn convert_outputs<W: Output>(
    alloc: Global,
    sheet: &[u8],
    setup: &SheetSetup,
    output: &mut W,
    registers: &mut [W],
) -> OutputsEnd
    ensures { AreMadeOutputs W.Output setup.now.choice sheet.now result output.old output.new registers.old
        registers.new }
{
    let count = registers.len();
    match new_writers(alloc, sheet, &setup.choice, count) {
        Ok(mut writers) => convert_wide(alloc, sheet, setup, &mut writers, output, registers),
        Err(cause) => OutputsEnd::broken(cause, count),
    }
}

/// Writes to an output the sheet that comes back, as [`convert_outputs`] does.
///
/// Returns `Whole` where the whole sheet was written, and else `Broken` with the cause.
pub fn convert_sheet<W: Output>(
    alloc: Global,
    sheet: &[u8],
    setup: &SheetSetup,
    output: &mut W,
) -> SheetEnd
    ensures { Produced W.Output output.old output.new (sheet_ending result)
        (IsMadeSheet setup.now.choice (records_by setup.now.choice sheet.now) result) }
{
    convert_outputs(alloc, sheet, setup, output, &mut []).sheet
}
