//! The date of a record, of three of its fields.

ghost use Rattle.std.specs.Prelude.{◌≡◌, OnOk};
ghost use Rattle.std.specs.Char.{is_ascii_digit};
ghost use Rattle.std.specs.List.{list_all};
ghost use Rattle.csv.specs.Records.{fields_of};
ghost use Rattle.written_dates.specs.Times.{are_digits as digits_spec};
ghost use Rattle.date_parts.specs.JoinedDates.{date_in, dashed, heading_in, joined_date, spaced};

use csv::ByteRecord;
use sheets::field_at;
use std::alloc::AllocError;
use written_dates::without_blanks;

/// The places of the three columns, from 0.
#[derive(Clone, Copy)]
pub struct DatePlaces {
    pub year: u32,
    pub month: u32,
    pub day: u32,
}

/// Whether no other bytes than digits stand in a text.
fn has_digits_only(text: &[u8]) -> bool
    ensures { result ≡ list_all is_ascii_digit text.now }
{
    text.iter().all(|byte| byte.is_ascii_digit())
}

/// Whether a text is digits, one at least.
fn are_digits(text: &[u8]) -> bool
    ensures { result ≡ digits_spec text.now }
{
    !text.is_empty() && has_digits_only(text)
}

/// Makes a text of three with dashes.
fn write_dashed(
    text: &mut Vec<u8>,
    first: &[u8],
    second: &[u8],
    third: &[u8],
) -> Result<(), AllocError>
    ensures { OnOk result (text.new.items ≡ dashed first.now second.now third.now) }
{
    text.clear();
    text.extend_from_slice(first)?;
    text.push(b'-')?;
    text.extend_from_slice(second)?;
    text.push(b'-')?;
    text.extend_from_slice(third)
}

/// Appends a text behind a blank, unless one of both is empty.
fn push_spaced(text: &mut Vec<u8>, more: &[u8]) -> Result<(), AllocError>
    ensures { OnOk result (text.new.items ≡ spaced text.old.items more.now) }
{
    if !text.is_empty() && !more.is_empty() {
        text.push(b' ')?;
    }
    text.extend_from_slice(more)
}

/// Makes the text of a date of its year, month and day.
fn write_joined(date: &mut Vec<u8>, year: &[u8], month: &[u8], day: &[u8]) -> Result<(), AllocError>
    ensures { OnOk result (date.new.items ≡ joined_date year.now month.now day.now) }
{
    if are_digits(year) && are_digits(month) && are_digits(day) {
        return write_dashed(date, year, month, day);
    }
    date.clear();
    date.extend_from_slice(day)?;
    push_spaced(date, month)?;
    push_spaced(date, year)
}

/// Makes the text of the date of a record.
pub(crate) fn write_date(
    date: &mut Vec<u8>,
    record: &ByteRecord,
    places: DatePlaces,
) -> Result<(), AllocError>
    ensures { OnOk result (date.new.items ≡ date_in places (fields_of record.now)) }
{
    let year = without_blanks(field_at(record, places.year as usize));
    let month = without_blanks(field_at(record, places.month as usize));
    let day = without_blanks(field_at(record, places.day as usize));
    write_joined(date, year, month, day)
}

/// Makes the name of the column of dates of the names of a sheet.
pub(crate) fn write_heading(
    heading: &mut Vec<u8>,
    names: &ByteRecord,
    places: DatePlaces,
) -> Result<(), AllocError>
    ensures { OnOk result (heading.new.items ≡ heading_in places (fields_of names.now)) }
{
    let year = without_blanks(field_at(names, places.year as usize));
    let month = without_blanks(field_at(names, places.month as usize));
    let day = without_blanks(field_at(names, places.day as usize));
    write_dashed(heading, year, month, day)
}
