//! The records of a sheet, one after the other.

ghost use Rattle.std.specs.Prelude.{◌≡◌, ◌≤◌, ◌<◌, ◌+◌, ◌∷◌, [], true, false, drop, get_or, length};
ghost use Rattle.std.specs.Prelude.{IfNone, IfOk, IfSome, Ok};
ghost use Rattle.csv.specs.Reading.{took_first};
ghost use Rattle.csv.specs.Records.{fields_of};
ghost use Rattle.register_records.specs.Entries.{text_records};
ghost use Rattle.sheets.specs.Reading.{IsReading, left_of};
ghost use Rattle.sheets.specs.private.Reading.{IsBegun};

use csv::{ByteRecord, Reader, ReaderBuilder};
use std::alloc::{AllocError, Global};

/// The records of a sheet with this byte between two fields. They may have any number of fields, and the first is a
/// record like any.
pub fn records_of(alloc: Global, sheet: &[u8], delimiter: u8) -> Reader<&[u8]>
    ensures reading { IsReading result }
    ensures left { left_of result ≡ text_records delimiter sheet.now }
{
    ReaderBuilder::new()
        .delimiter(delimiter)
        .has_headers(false)
        .flexible(true)
        .from_reader(alloc, sheet)
}

/// Reads the next record, and says whether there was one.
pub fn read_next(records: &mut Reader<&[u8]>, record: &mut ByteRecord) -> Result<bool, AllocError>
    requires { IsReading records.old }
    ensures reading { result ≡ Ok true → IsReading records.new }
    ensures begun { result ≡ Ok true → took_first records.new ≡ true }
    ensures found { result ≡ Ok true → left_of records.old ≡ fields_of record.new ∷ left_of records.new }
    ensures none { result ≡ Ok false → left_of records.old ≡ [] }
{
    match records.read_byte_record(record) {
        Ok(found) => Ok(found),
        // Of a text in memory, records of any length and fields of any bytes no other error comes.
        Err(_) => Err(AllocError),
    }
}

/// Reads the records of a sheet down to its names, and says whether there are such.
pub(crate) fn pass_names(
    records: &mut Reader<&[u8]>,
    record: &mut ByteRecord,
    above: u32,
) -> Result<bool, AllocError>
    requires { IsReading records.old }
    ensures reading { result ≡ Ok true → IsBegun records.new }
    ensures named { result ≡ Ok true → above < length (left_of records.old) }
    ensures left { result ≡ Ok true → left_of records.new ≡ drop (above + 1) (left_of records.old) }
    ensures found { result ≡ Ok true → fields_of record.new ≡ get_or (left_of records.old) above [] }
    ensures none { result ≡ Ok false → length (left_of records.old) ≤ above }
{
    'records: for _ in 0..above {
        if !read_next(records, record)? {
            return Ok(false);
        }
    }
    read_next(records, record)
}

/// Reads the record with the names of a sheet's columns, and says whether there is one.
fn read_head(
    alloc: Global,
    sheet: &[u8],
    delimiter: u8,
    above: u32,
    record: &mut ByteRecord,
) -> Result<bool, AllocError>
    ensures named { result ≡ Ok true → above < length (text_records delimiter sheet.now) }
    ensures found { result ≡ Ok true → fields_of record.new ≡ get_or (text_records delimiter sheet.now) above [] }
    ensures none { result ≡ Ok false → length (text_records delimiter sheet.now) ≤ above }
{
    let mut records = records_of(alloc, sheet, delimiter);
    pass_names(&mut records, record, above)
}

/// The record with the names of a sheet's columns, which stands below so many others; `None` where there is none.
pub fn head_record(
    alloc: Global,
    sheet: &[u8],
    delimiter: u8,
    above: u32,
) -> Result<Option<ByteRecord>, AllocError>
    ensures some { IfOk result (λ found. IfSome found (λ names. (above < length (text_records delimiter sheet.now))
        × (fields_of names ≡ get_or (text_records delimiter sheet.now) above []))) }
    ensures none { IfOk result (λ found. IfNone found (length (text_records delimiter sheet.now) ≤ above)) }
{
    let mut record = ByteRecord::new(alloc);
    if read_head(alloc, sheet, delimiter, above, &mut record)? {
        Ok(Some(record))
    } else {
        Ok(None)
    }
}

/// The field of a record at a place, from 0, or an empty one where the record has none there.
pub fn field_at(record: &ByteRecord, place: usize) -> &[u8]
    ensures { result.now ≡ get_or (fields_of record.now) place [] }
{
    match record.get(place) {
        Some(field) => field,
        None => b"",
    }
}
