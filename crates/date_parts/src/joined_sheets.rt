//! The text of a sheet that is being written.

ghost use Rattle.std.specs.Prelude.{◌≡◌, ◌++◌, [], ℕ, List, IfOk, OnOk, replicate};
ghost use Rattle.csv.specs.Records.{fields_of, partial_of};
ghost use Rattle.date_parts.specs.JoinedDates.{heading_in, with_date, with_field};
ghost use Rattle.register_records.specs.Lines.{line_text};
ghost use Rattle.date_parts.specs.private.SheetViews.{GainsRecord, Holds};

use crate::places::{DatePlaces, write_date, write_heading};
use csv::{ByteRecord, Writer, WriterBuilder};
use sheets::field_at;
use std::alloc::{AllocError, Global};

/// Appends a record. Over memory nothing else goes wrong than that it runs out.
fn write(sheet: &mut Writer<Vec<u8>>, row: &ByteRecord) -> Result<(), AllocError>
    ensures { OnOk result ((delimiter : ℕ) (text : List ℕ) → Holds delimiter text sheet.old
        → Holds delimiter (text ++ line_text delimiter (fields_of row.now)) sheet.new) }
{
    if sheet.write_byte_record(row).is_err() {
        return Err(AllocError);
    }
    Ok(())
}

/// Appends empty fields to a record.
fn push_empty(row: &mut ByteRecord, count: usize) -> Result<(), AllocError>
    requires { partial_of row.old ≡ [] }
    ensures fields { OnOk result (fields_of row.new ≡ fields_of row.old ++ replicate count []) }
    ensures partial { OnOk result (partial_of row.new ≡ []) }
{
    'empty: for _ in 0..count {
        row.push_field(b"")?;
    }
    Ok(())
}

/// Makes a record with the fields of another.
fn copy_fields(row: &mut ByteRecord, own: &ByteRecord) -> Result<(), AllocError>
    ensures fields { OnOk result (fields_of row.new ≡ fields_of own.now) }
    ensures partial { OnOk result (partial_of row.new ≡ []) }
{
    row.clear();
    'fields: for place in 0..own.len() {
        row.push_field(field_at(own, place))?;
    }
    Ok(())
}

/// Makes a record with the fields of another, empty ones behind them up to so many, and one more.
fn make_row(
    row: &mut ByteRecord,
    own: &ByteRecord,
    width: usize,
    field: &[u8],
) -> Result<(), AllocError>
    ensures { OnOk result (fields_of row.new ≡ with_field width field.now (fields_of own.now)) }
{
    copy_fields(row, own)?;
    push_empty(row, width.saturating_sub(own.len()))?;
    row.push_field(field)
}

/// A sheet that is being written, with a column of dates behind so many others.
#[derive(Drop)]
pub(crate) struct JoinedSheet {
    sheet: Writer<Vec<u8>>,
    row: ByteRecord,
    field: Vec<u8>,
    places: DatePlaces,
    width: usize,
}

impl JoinedSheet {
    /// A sheet that begins with this text. The byte stands between two fields.
    pub fn new(
        alloc: Global,
        front: Vec<u8>,
        delimiter: u8,
        places: DatePlaces,
        width: usize,
    ) -> JoinedSheet
        ensures text { Holds delimiter front.items result.sheet }
        ensures places { result.places ≡ places }
        ensures width { result.width ≡ width }
    {
        JoinedSheet {
            sheet: WriterBuilder::new()
                .delimiter(delimiter)
                .flexible(true)
                .from_writer(front),
            row: ByteRecord::new(alloc),
            field: Vec::new(alloc),
            places,
            width,
        }
    }

    /// Appends a record as it is.
    pub fn put_own(&mut self, own: &ByteRecord) -> Result<(), AllocError>
        ensures { OnOk result (GainsRecord (fields_of own.now) self.old self.new) }
    {
        write(&mut self.sheet, own)
    }

    /// Appends a record with the field that was made.
    fn put_row(&mut self, own: &ByteRecord) -> Result<(), AllocError>
        ensures { OnOk result (GainsRecord
            (with_field self.old.width self.old.field.items (fields_of own.now)) self.old self.new) }
    {
        make_row(&mut self.row, own, self.width, self.field.as_slice())?;
        write(&mut self.sheet, &self.row)
    }

    /// Appends the names, with that of the column of dates.
    pub fn put_names(&mut self, names: &ByteRecord) -> Result<(), AllocError>
        ensures { OnOk result (GainsRecord (with_field self.old.width (heading_in self.old.places (fields_of names.now))
            (fields_of names.now)) self.old self.new) }
    {
        write_heading(&mut self.field, names, self.places)?;
        self.put_row(names)
    }

    /// Appends a record with its date.
    pub fn put_dated(&mut self, own: &ByteRecord) -> Result<(), AllocError>
        ensures { OnOk result (GainsRecord (with_date self.old.places self.old.width (fields_of own.now))
            self.old self.new) }
    {
        write_date(&mut self.field, own, self.places)?;
        self.put_row(own)
    }

    /// The text of the sheet.
    pub fn into_text(self) -> Result<Vec<u8>, AllocError>
        ensures { IfOk result (λ whole. (delimiter : ℕ) (text : List ℕ) → Holds delimiter text self.sheet
            → whole.items ≡ text) }
    {
        match self.sheet.into_inner() {
            Ok(text) => Ok(text),
            Err(_) => Err(AllocError),
        }
    }
}
