//! Lines that are made of a sheet's records, by what is read of them.

ghost use Rattle.std.specs.Prelude.{◌≤◌, OnOk, length};
ghost use Rattle.register_records.specs.Entries.{Fields};
ghost use Rattle.sheets.specs.private.LineViews.{GainsFields};
ghost use Rattle.sheets.specs.private.RecordLines.{body_line, entry_line, entry_of};
ghost use Rattle.std.specs.List.{flat_map};
ghost use Rattle.sheets.specs.Choices.{column_limit};
ghost use Rattle.sheets.specs.Converted.{dated_fields};
ghost use Rattle.sheets.specs.private.DateViews.{edtf_field, ends_fields};
ghost use Rattle.sheets.specs.private.SheetRecords.{RecordRead, date_seen, dated_seen, record_read, rows_read};
ghost use Rattle.sheets.specs.declared.choices.SheetChoice.{SheetChoice as SheetChoiceValue};

use crate::asked::{push_asked, push_cells, push_refusal};
use crate::choices::{AskedColumn, End, SheetSetup, Spans};
use crate::date_marks::mark_text;
use crate::lines::SheetLines;
use crate::own_fields::push_own;
use crate::register_fields::id_of;
use crate::sheet_records::{ColumnDates, SheetRecord};
use itoa::Buffer;
use std::alloc::AllocError;

/// A line that is made of each record of a sheet.
pub(crate) trait RecordLine {
    // Its fields.
    ghost line: { Self → SheetChoiceValue → RecordRead → Fields };

    /// Appends the fields of the line of a record.
    fn push(
        &self,
        setup: &SheetSetup,
        of_sheet: &SheetRecord,
        lines: &mut SheetLines,
    ) -> Result<(), AllocError>
        ensures { OnOk result (GainsFields (line self.now setup.now.choice (record_read of_sheet.now)) lines.old
            lines.new) };
}

/// The line of the sheet that comes back: the record, filled up to this width, and behind it the columns asked of its
/// rows.
#[derive(Clone, Copy)]
pub(crate) struct BodyLine {
    pub width: usize,
}

/// The line of the register of the first or of the last days of the column of dates at a place.
#[derive(Clone, Copy)]
pub(crate) struct EntryLine {
    pub place: usize,
    pub end: End,
}

impl RecordLine for BodyLine {
    ghost line = { λ made. body_line made.width };

    fn push(
        &self,
        setup: &SheetSetup,
        of_sheet: &SheetRecord,
        lines: &mut SheetLines,
    ) -> Result<(), AllocError> {
        push_own(lines, &of_sheet.fields, self.width)?;
        push_rows(setup, of_sheet, lines)
    }
}

impl RecordLine for EntryLine {
    ghost line = { λ made. entry_line made.place made.end };

    fn push(
        &self,
        setup: &SheetSetup,
        of_sheet: &SheetRecord,
        lines: &mut SheetLines,
    ) -> Result<(), AllocError> {
        match of_sheet.columns.get(self.place) {
            Some(dates) => push_entry(setup, of_sheet, dates, self.end, lines),
            None => Ok(()),
        }
    }
}

/// Appends the text of EDTF, where it is asked.
fn push_edtf(lines: &mut SheetLines, dates: &ColumnDates, with_edtf: bool) -> Result<(), AllocError>
    ensures { OnOk result (GainsFields (edtf_field with_edtf (dated_seen dates.now)) lines.old lines.new) }
{
    if with_edtf {
        lines.push(dates.edtf.as_slice())
    } else {
        Ok(())
    }
}

/// Appends what comes behind a record for a date, where dates have a first and a last day.
fn push_ends(
    lines: &mut SheetLines,
    columns: &[AskedColumn],
    dates: &ColumnDates,
    with_edtf: bool,
) -> Result<(), AllocError>
    requires { length columns.now ≤ column_limit }
    ensures { OnOk result (GainsFields (ends_fields columns.now (dated_seen dates.now) with_edtf) lines.old lines.new) }
{
    push_cells(lines, columns, &dates.first.row)?;
    push_cells(lines, columns, &dates.last().row)?;
    push_edtf(lines, dates, with_edtf)?;
    lines.push(mark_text(dates.marks).as_bytes())?;
    push_refusal(lines, &dates.told().row)
}

/// Appends what comes behind a record for a date.
fn push_dated(
    setup: &SheetSetup,
    dates: &ColumnDates,
    lines: &mut SheetLines,
) -> Result<(), AllocError>
    ensures { OnOk result (GainsFields (dated_fields setup.now.choice (dated_seen dates.now)) lines.old lines.new) }
{
    let columns = setup.choice.columns;
    match setup.choice.spans {
        Spans::Unread => push_asked(lines, columns, &dates.first.row),
        Spans::Ends => push_ends(lines, columns, dates, false),
        Spans::EndsAndEdtf => push_ends(lines, columns, dates, true),
    }
}

/// Appends what comes behind a record for its dates.
fn push_rows(
    setup: &SheetSetup,
    of_sheet: &SheetRecord,
    lines: &mut SheetLines,
) -> Result<(), AllocError>
    ensures { OnOk result (GainsFields (flat_map (dated_fields setup.now.choice)
        (rows_read (record_read of_sheet.now))) lines.old lines.new) }
{
    'columns: for dates in &of_sheet.columns {
        push_dated(setup, dates, lines)?;
    }
    Ok(())
}

/// Appends the id, the calendar and the date that a register has of a record.
fn push_entry(
    setup: &SheetSetup,
    of_sheet: &SheetRecord,
    dates: &ColumnDates,
    end: End,
    lines: &mut SheetLines,
) -> Result<(), AllocError>
    ensures { OnOk result (GainsFields
        (entry_of setup.now.choice (record_read of_sheet.now) end (date_seen dates.now)) lines.old lines.new) }
{
    let mut buffer = Buffer::new();
    let number = buffer.format(of_sheet.number).as_bytes();
    lines.push(id_of(setup.choice.id, number, &of_sheet.fields))?;
    let end = dates.end(end);
    lines.push(end.calendar.name(dates.calendar.as_slice()))?;
    lines.push(end.text.as_slice())
}
