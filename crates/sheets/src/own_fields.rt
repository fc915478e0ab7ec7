//! The fields of a record in a line.

ghost use Rattle.std.specs.Prelude.{OnOk};
ghost use Rattle.csv.specs.Records.{fields_of};
ghost use Rattle.sheets.specs.private.LineViews.{GainsFields};
ghost use Rattle.sheets.specs.Sheets.{filled};

use crate::lines::SheetLines;
use crate::reading::field_at;
use csv::ByteRecord;
use std::alloc::AllocError;

/// Appends the fields of a record to a line, and empty ones behind them up to `fill` in all.
pub(crate) fn push_own(
    lines: &mut SheetLines,
    record: &ByteRecord,
    fill: usize,
) -> Result<(), AllocError>
    ensures { OnOk result (GainsFields (filled fill (fields_of record.now)) lines.old lines.new) }
{
    'own: for place in 0..record.len() {
        lines.push(field_at(record, place))?;
    }
    lines.push_empty(fill.saturating_sub(record.len()))
}
