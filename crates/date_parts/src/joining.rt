//! The sheet with one column more.

ghost use Rattle.std.specs.Prelude.{◌≡◌, ◌++◌, [], ℕ, List, IfOk, Ok, OnOk, drop, false, map, take, true};
ghost use Rattle.csv.specs.Records.{fields_of};
ghost use Rattle.register_records.specs.Entries.{text_records};
ghost use Rattle.date_parts.specs.JoinedDates.{dated_records, joined_text, with_date};
ghost use Rattle.sheets.specs.Reading.{IsReading, left_of};
ghost use Rattle.sheets.specs.Sheets.{records_text, widest};
ghost use Rattle.date_parts.specs.private.SheetViews.{GainsRecords};

use crate::joined_sheets::JoinedSheet;
use crate::places::DatePlaces;
use csv::{ByteRecord, Reader};
use sheets::{read_next, records_of};
use std::alloc::{AllocError, Global};

/// Passes over the next records, so many, and says whether there were as many.
fn pass(records: &mut Reader<&[u8]>, row: &mut ByteRecord, count: u32) -> Result<bool, AllocError>
    requires { IsReading records.old }
    ensures reading { result ≡ Ok true → IsReading records.new }
    ensures left { result ≡ Ok true → left_of records.new ≡ drop count (left_of records.old) }
    ensures none { result ≡ Ok false → drop count (left_of records.old) ≡ [] }
{
    'passed: for _ in 0..count {
        if !read_next(records, row)? {
            return Ok(false);
        }
    }
    Ok(true)
}

/// The most fields of a record that is left.
fn widest_left(records: &mut Reader<&[u8]>, row: &mut ByteRecord) -> Result<usize, AllocError>
    requires { IsReading records.old }
    ensures { IfOk result (λ width. width ≡ widest (left_of records.old)) }
{
    let mut width = 0;
    'records: while read_next(records, row)? {
        width = usize::max(width, row.len());
    }
    Ok(width)
}

/// The most fields of a sheet's names and of the records below them; the names stand below so many others.
fn width_of(alloc: Global, sheet: &[u8], delimiter: u8, above: u32) -> Result<usize, AllocError>
    ensures { IfOk result (λ width. width ≡ widest (drop above (text_records delimiter sheet.now))) }
{
    let mut records = records_of(alloc, sheet, delimiter);
    let mut row = ByteRecord::new(alloc);
    if pass(&mut records, &mut row, above)? {
        widest_left(&mut records, &mut row)
    } else {
        Ok(0)
    }
}

/// Copies the next records, so many, and says whether there were as many.
fn copy(
    records: &mut Reader<&[u8]>,
    row: &mut ByteRecord,
    count: u32,
    joined: &mut JoinedSheet,
) -> Result<bool, AllocError>
    requires { IsReading records.old }
    ensures reading { result ≡ Ok true → IsReading records.new }
    ensures left { result ≡ Ok true → left_of records.new ≡ drop count (left_of records.old) }
    ensures none { result ≡ Ok false → drop count (left_of records.old) ≡ [] }
    ensures copied { OnOk result (GainsRecords (take count (left_of records.old)) joined.old joined.new) }
{
    'copied: for _ in 0..count {
        if !read_next(records, row)? {
            return Ok(false);
        }
        joined.put_own(row)?;
    }
    Ok(true)
}

/// Writes the records that are left, with their dates.
fn join_left(
    records: &mut Reader<&[u8]>,
    row: &mut ByteRecord,
    joined: &mut JoinedSheet,
) -> Result<(), AllocError>
    requires { IsReading records.old }
    ensures { OnOk result (GainsRecords
        (map (with_date joined.old.places joined.old.width) (left_of records.old)) joined.old joined.new) }
{
    'records: while read_next(records, row)? {
        joined.put_dated(row)?;
    }
    Ok(())
}

/// Writes the names and the records below them, with their dates.
fn join_named(
    records: &mut Reader<&[u8]>,
    row: &mut ByteRecord,
    joined: &mut JoinedSheet,
) -> Result<(), AllocError>
    requires { IsReading records.old }
    ensures { OnOk result (GainsRecords
        (dated_records joined.old.places joined.old.width (left_of records.old)) joined.old joined.new) }
{
    if !read_next(records, row)? {
        return Ok(());
    }
    joined.put_names(row)?;
    join_left(records, row, joined)
}

/// Writes the records of a sheet, the first so many as they are.
fn join_all(
    records: &mut Reader<&[u8]>,
    row: &mut ByteRecord,
    above: u32,
    joined: &mut JoinedSheet,
) -> Result<(), AllocError>
    requires { IsReading records.old }
    ensures { OnOk result (GainsRecords (take above (left_of records.old)
        ++ dated_records joined.old.places joined.old.width (drop above (left_of records.old))) joined.old joined.new) }
{
    if copy(records, row, above, joined)? {
        join_named(records, row, joined)
    } else {
        Ok(())
    }
}

/// The text of a sheet with one column more behind all others: the dates of three of its columns. The names stand
/// below `above` other records, which stay as they are. `front` is what the text begins with, `delimiter` the byte
/// between two fields; each line ends with a line feed, and a field is quoted where it must be.
///
/// A date is `year-month-day` where all three are digits only. Else it is `day month year` with blanks between, as
/// far as these are there. Their blanks at both ends are left out.
///
/// # Errors
///
/// Memory ran out.
///
/// # Examples
///
/// ```
/// let sheet = b"Tag,Monat,Jahr\n12,5,1806\n12,Mai,1806\n,Mai,1806\n";
/// let places = DatePlaces { year: 2, month: 1, day: 0 };
/// let made = joined_sheet(rt.alloc(), Vec::new(rt.alloc()), sheet, b',', 0, places)?;
/// let text = b"Tag,Monat,Jahr,Jahr-Monat-Tag\n12,5,1806,1806-5-12\n12,Mai,1806,12 Mai 1806\n,Mai,1806,Mai 1806\n";
/// assert!(rt; made.as_slice() == text.as_slice());
/// ```
pub fn joined_sheet(
    alloc: Global,
    front: Vec<u8>,
    sheet: &[u8],
    delimiter: u8,
    above: u32,
    places: DatePlaces,
) -> Result<Vec<u8>, AllocError>
    ensures { IfOk result (λ made. made.items ≡ front.items ++ joined_text delimiter places above sheet.now) }
{
    let width = width_of(alloc, sheet, delimiter, above)?;
    let mut records = records_of(alloc, sheet, delimiter);
    let mut row = ByteRecord::new(alloc);
    let mut joined = JoinedSheet::new(alloc, front, delimiter, places, width);
    join_all(&mut records, &mut row, above, &mut joined)?;
    joined.into_text()
}
