//! What stands in a sheet down to its names.

ghost use Rattle.std.specs.Prelude.{◌≡◌, ◌<◌, ◌++◌, ◌∷◌, [], OnOk, drop, get_or, length, map};
ghost use Rattle.sheets.specs.private.LineWriters.{Makes};
ghost use Rattle.sheets.specs.Reading.{IsReading, left_of};
ghost use Rattle.sheets.specs.private.Reading.{IsBegun};
ghost use Rattle.sheets.specs.private.Sending.{top_records};
ghost use Rattle.sheets.specs.Sheets.{filled};

use crate::choices::SheetChoice;
use crate::line_writers::LineWriter;
use crate::reading::read_next;
use crate::record_lines::RecordLine;
use csv::{ByteRecord, Reader};
use register_records::Output;
use std::alloc::AllocError;

/// Reads the next record, and makes its line, filled up and with others behind it.
fn copy_next<M: RecordLine, W: Output>(
    records: &mut Reader<&[u8]>,
    record: &mut ByteRecord,
    width: usize,
    more: &[&[u8]],
    writer: &mut LineWriter<M>,
    output: &mut W,
) -> Result<(), AllocError>
    requires reading { IsReading records.old }
    requires more { 0 < length (left_of records.old) }
    ensures reading { OnOk result (IsBegun records.new) }
    ensures left { OnOk result (left_of records.new ≡ drop 1 (left_of records.old)) }
    ensures made { Makes W.Output ((filled width (get_or (left_of records.old) 0 []) ++ map (λ field. field.now)
        more.now) ∷ []) writer.old writer.new output.old output.new }
{
    match read_next(records, record) {
        Ok(true) => {
            writer.put(record, width, more, output);
            Ok(())
        }
        Ok(false) => unreachable!(),
        Err(fault) => {
            writer.cut(output);
            Err(fault)
        }
    }
}

/// Reads a sheet of which no record is read yet down to its names, and makes the lines that the sheet that comes back
/// has of these. Where memory runs out, none of them is made any more.
pub(crate) fn copy_top<M: RecordLine, W: Output>(
    records: &mut Reader<&[u8]>,
    record: &mut ByteRecord,
    width: usize,
    choice: &SheetChoice,
    writer: &mut LineWriter<M>,
    output: &mut W,
) -> Result<(), AllocError>
    requires reading { IsReading records.old }
    requires named { choice.now.above < length (left_of records.old) }
    ensures reading { OnOk result (IsBegun records.new) }
    ensures left { OnOk result (left_of records.new ≡ drop 1 (drop choice.now.above (left_of records.old))) }
    ensures made { Makes W.Output (top_records choice.now width (left_of records.old)) writer.old writer.new output.old
        output.new }
{
    'above: for _ in 0..choice.above {
        if let Err(fault) = copy_next(records, record, 0, &[], writer, output) {
            writer.cut(output);
            return Err(fault);
        }
    }
    copy_next(records, record, width, choice.headings, writer, output)
}
