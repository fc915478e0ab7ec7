//! How many dates of a sheet were refused, and how many are empty.

ghost use Rattle.std.specs.Prelude.{◌≡◌, ◌∷◌, [], ◌≤◌, List, length, map};
ghost use Rattle.csv.specs.Records.{fields_of};
ghost use Rattle.register_records.specs.Entries.{record_limit};
ghost use Rattle.sheets.specs.private.CountViews.{AreUpTo, CountsDates, CountsRecord, IsUpTo};
ghost use Rattle.sheets.specs.DateCounts.{AreDateCounts, AreSheetCounts, is_blank as blank_spec};
ghost use Rattle.sheets.specs.DateCounts.{is_blank_record as record_spec, is_of_empty as of_empty_spec};
ghost use Rattle.sheets.specs.private.SheetRecords.{dated_seen};
ghost use Rattle.sheets.specs.declared.choices.DateColumn.{DateColumn as DateColumnValue};

use crate::choices::{DateColumn, MAX_DATES};
use crate::reading::field_at;
use crate::sheet_records::ColumnDates;
use csv::ByteRecord;
use date_texts::Refusal;
use register_records::RefusalCounts;
use written_dates::without_blanks;

/// How many dates of a column were refused, and how many are empty.
#[repr(C)]
#[derive(Clone, Copy, PartialEq, Eq)]
pub struct DateCounts {
    /// How many were refused, without those that are empty.
    pub refused: usize,
    /// How many of them were refused with each refusal.
    pub refused_with: RefusalCounts,
    /// How many are empty: nothing but blanks stands in the field, and the record was refused for that alone.
    pub empty: usize,
    /// How many were accepted and say no single day.
    pub spans: usize,
}

/// How many dates of a sheet were refused, and how many are empty. A record is blank where nothing but blanks stands in
/// each of its fields; nothing is said of its dates.
#[repr(C)]
#[derive(Clone, Copy, PartialEq, Eq)]
pub struct SheetCounts {
    /// Those of each column of dates, in the order of these; behind them stands 0.
    pub dates: [DateCounts; MAX_DATES],
    /// How many records are blank.
    pub blank: usize,
}

/// Whether nothing but blanks stands in a field.
fn is_blank(field: &[u8]) -> bool
    ensures { result ≡ blank_spec field.now }
{
    without_blanks(field).is_empty()
}

/// Whether nothing but blanks stands in each field of a record.
fn is_blank_record(record: &ByteRecord) -> bool
    ensures { result ≡ record_spec (fields_of record.now) }
{
    'fields: for place in 0..record.len() {
        if !is_blank(field_at(record, place)) {
            return false;
        }
    }
    true
}

/// Whether a record can be refused so for nothing but that there is no date.
fn is_of_empty(refusal: Refusal) -> bool
    ensures { result ≡ of_empty_spec refusal }
{
    matches!(refusal, Refusal::UnknownCalendar | Refusal::DateText)
}

impl DateCounts {
    /// None yet.
    pub fn none() -> DateCounts
        ensures { AreDateCounts [] result }
    {
        DateCounts {
            refused: 0,
            refused_with: RefusalCounts::none(),
            empty: 0,
            spans: 0,
        }
    }

    /// Counts a date, in whose field this stands.
    fn add(&mut self, field: &[u8], dates: &ColumnDates)
        requires { IsUpTo record_limit self.old }
        ensures { CountsDates ((field.now, dated_seen dates.now) ∷ []) self.old self.new }
    {
        match dates.told().row.outcome() {
            Ok(_) if dates.is_one_day() => {}
            Ok(_) => self.spans += 1,
            Err(refusal) if is_blank(field) && is_of_empty(refusal) => self.empty += 1,
            Err(refusal) => {
                self.refused += 1;
                self.refused_with.add(refusal);
            }
        }
    }
}

impl SheetCounts {
    /// None yet.
    pub fn none() -> SheetCounts
        ensures { (columns : List DateColumnValue) → AreSheetCounts columns [] [] result }
    {
        SheetCounts {
            dates: [DateCounts::none(); MAX_DATES],
            blank: 0,
        }
    }

    /// Counts the dates in these columns of a record that has these dates.
    pub(crate) fn add(&mut self, columns: &[DateColumn], record: &ByteRecord, dates: &[ColumnDates])
        requires dates { length dates.now ≡ length columns.now }
        requires few { length columns.now ≤ MAX_DATES }
        requires room { AreUpTo record_limit columns.now self.old }
        ensures { CountsRecord columns.now (fields_of record.now) (map dated_seen dates.now) self.old self.new }
    {
        if is_blank_record(record) {
            self.blank += 1;
            return;
        }
        'columns: for place in 0..columns.len() {
            let field = field_at(record, columns[place].date as usize);
            self.dates[place].add(field, &dates[place]);
        }
    }
}
