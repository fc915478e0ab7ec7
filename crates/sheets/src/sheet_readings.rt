//! One reading of a sheet, and what is made of it.

ghost use Rattle.std.specs.Prelude.{IfErr, IfOk, length};
ghost use Rattle.sheets.specs.Converted.{records_by};
ghost use Rattle.sheets.specs.Reading.{left_of};
ghost use Rattle.sheets.specs.private.Reading.{IsBegun};
ghost use Rattle.sheets.specs.private.SheetReaders.{IsOpened, records_under};
ghost use Rattle.sheets.specs.private.SheetReadings.{AreNewWriters, AreReady, IsBelow, LacksNames, ReadsAll, ReadsSheet};

use crate::choices::{SheetChoice, SheetSetup};
use crate::reading::{pass_names, records_of};
use crate::record_lines::{BodyLine, RecordLine};
use crate::sheet_ends::SheetCause;
use crate::sheet_reader::SheetReader;
use crate::sheet_tops::copy_top;
use crate::sheet_writers::SheetWriters;
use csv::{ByteRecord, Reader};
use register_records::Output;
use std::alloc::Global;

/// Reads a sheet to its end, notes each record, and makes its lines. A writer that met a fault makes no more, and the
/// others go on.
///
/// # Errors
///
/// Those of reading: `TooManyRecords` and `NoMemory`.
fn read_all<M: RecordLine, W: Output>(
    reader: &mut SheetReader,
    setup: &SheetSetup,
    writers: &mut SheetWriters<M>,
    output: &mut W,
    files: &mut [W],
) -> Result<(), SheetCause>
    requires opened { IsOpened setup.now (records_under reader.old) reader.old }
    requires ready { AreReady setup.now.choice files.old writers.old }
    ensures { ReadsAll W.Output M.line setup.now.choice (records_under reader.old) result writers.old writers.new
        output.old output.new files.old files.new }
{
    'records: while reader.read_next()? {
        writers.take(setup, reader.of_sheet(), output, files);
    }
    Ok(())
}

/// The records of a sheet below its names.
///
/// # Errors
///
/// `NoNames` where the sheet has no record with names, and `NoMemory`.
pub(crate) fn open_below<'s>(
    alloc: Global,
    sheet: &'s [u8],
    choice: &SheetChoice,
) -> Result<Reader<&'s [u8]>, SheetCause>
    ensures opened { IfOk result (IsBelow choice.now (records_by choice.now sheet.now)) }
    ensures fault { IfErr result (LacksNames choice.now (records_by choice.now sheet.now)) }
{
    let mut records = records_of(alloc, sheet, choice.delimiter);
    let mut record = ByteRecord::new(alloc);
    if pass_names(&mut records, &mut record, choice.above)? {
        Ok(records)
    } else {
        Err(SheetCause::NoNames)
    }
}

/// Reads the records that are left of a sheet below its names, as [`read_all`] does.
pub(crate) fn read_below<M: RecordLine, W: Output>(
    alloc: Global,
    records: Reader<&[u8]>,
    setup: &SheetSetup,
    writers: &mut SheetWriters<M>,
    output: &mut W,
    files: &mut [W],
) -> Result<(), SheetCause>
    requires begun { IsBegun records }
    requires ready { AreReady setup.now.choice files.old writers.old }
    ensures { ReadsAll W.Output M.line setup.now.choice (left_of records.entry) result writers.old writers.new
        output.old output.new files.old files.new }
{
    let mut reader = SheetReader::open(alloc, records, setup)?;
    read_all(&mut reader, setup, writers, output, files)
}

/// Reads a sheet that has names, and makes all lines of the sheet that comes back, whose width its writer knows, and
/// those of its registers.
pub(crate) fn read_sheet<W: Output>(
    alloc: Global,
    sheet: &[u8],
    setup: &SheetSetup,
    writers: &mut SheetWriters<BodyLine>,
    output: &mut W,
    files: &mut [W],
) -> Result<(), SheetCause>
    requires { AreNewWriters setup.now.choice (records_by setup.now.choice sheet.now) (length files.old) writers.old }
    ensures { ReadsSheet W.Output setup.now.choice (records_by setup.now.choice sheet.now) result writers.old
        writers.new output.old output.new files.old files.new }
{
    let mut records = records_of(alloc, sheet, setup.choice.delimiter);
    let mut record = ByteRecord::new(alloc);
    let width = writers.sheet.maker.width;
    copy_top(
        &mut records,
        &mut record,
        width,
        &setup.choice,
        &mut writers.sheet,
        output,
    )?;
    read_below(alloc, records, setup, writers, output, files)
}
