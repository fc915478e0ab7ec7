//! The register of a column of dates, as a text.

ghost use Rattle.std.specs.Prelude.{◌≡◌, Some, slice_get};
ghost use Rattle.sheets.specs.Converted.{records_by};
ghost use Rattle.sheets.specs.Produced.{Produced, ending_of};
ghost use Rattle.sheets.specs.SheetOutputs.{IsMadeRegister};
ghost use Rattle.sheets.specs.declared.choices.DateColumn.{DateColumn as DateColumnValue};

use crate::choices::{End, SheetSetup};
use crate::record_lines::EntryLine;
use crate::sheet_ends::SheetCause;
use crate::sheet_readings::{open_below, read_below};
use crate::sheet_writers::SheetWriters;
use register_records::Output;
use std::alloc::Global;

/// Writes the register of the column of dates at a place to an output: its header `id,calendar,date` and, for each
/// record of the sheet below the names, the id, the calendar and the date that the choice gives, with the sheet's
/// delimiter between them; with spans, the first or the last day, as `end` asks. Lines are sent in blocks. Where the
/// choice has no column at the place, nothing is said of the output.
///
/// # Errors
///
/// `NoNames` where the sheet has no record with names, `TooManyRecords` where more than 1,000,000 stand below them,
/// `SinkFault` where the output failed, and `NoMemory`.
pub fn write_register<W: Output>(
    alloc: Global,
    sheet: &[u8],
    setup: &SheetSetup,
    place: usize,
    end: End,
    output: &mut W,
) -> Result<(), SheetCause>
    ensures { (column : DateColumnValue) → slice_get setup.now.choice.dates.now place ≡ Some column
        → Produced W.Output output.old output.new (ending_of result) (IsMadeRegister setup.now.choice (column, end)
        (records_by setup.now.choice sheet.now) result) }
{
    let records = match open_below(alloc, sheet, &setup.choice) {
        Ok(records) => records,
        Err(cause) => return Err(cause),
    };
    let maker = EntryLine { place, end };
    let mut writers = SheetWriters::of_register(alloc, maker, setup.choice.delimiter);
    let read = read_below(alloc, records, setup, &mut writers, output, &mut []);
    writers.sheet.finish(read, output)
}
