//! What heads the columns that come behind a sheet.

ghost use Rattle.std.specs.Prelude.{◌≡◌, ◌++◌, ◌∷◌, [], IfOk, OnOk, codes, get_or, map, true};
ghost use Rattle.csv.specs.Records.{fields_of};
ghost use Rattle.register_records.specs.Entries.{text_records};
ghost use Rattle.sheets.specs.AskedOfSheets.{HasHeadings, asked_in};
ghost use Rattle.sheets.specs.Headings.{IsHeading, asked_behind, asked_name as name_spec, behind};
ghost use Rattle.sheets.specs.Headings.{column_names, is_taken, mark_names};
ghost use Rattle.sheets.specs.Headings.{items_of, wanted_for, wanted_heading, wanted_headings};
ghost use Rattle.sheets.specs.private.HeadingViews.{NamesMore, taken_by, wanted_all};

use crate::asked_of_sheets::AskedOfSheet;
use crate::choices::{AskedColumn, DateColumn, Spans};
use crate::reading::{field_at, head_record};
use csv::ByteRecord;
use itoa::Buffer;
use std::alloc::{AllocError, Global};

/// The name of a column asked.
fn asked_name(column: AskedColumn) -> &'static [u8]
    ensures { result.now ≡ name_spec column }
{
    match column {
        AskedColumn::DayNumber => b"rd",
        AskedColumn::Weekday => b"weekday",
        AskedColumn::Church => b"church",
        AskedColumn::Cells(target) => target.name().as_bytes(),
    }
}

/// The record of a sheet below so many, or one without fields where there is none.
pub(crate) fn record_below(
    alloc: Global,
    sheet: &[u8],
    delimiter: u8,
    above: u32,
) -> Result<ByteRecord, AllocError>
    ensures { IfOk result (λ found. fields_of found ≡ get_or (text_records delimiter sheet.now) above []) }
{
    match head_record(alloc, sheet, delimiter, above)? {
        Some(names) => Ok(names),
        None => Ok(ByteRecord::new(alloc)),
    }
}

/// Makes a text of two others with a space between them.
fn join(text: &mut Vec<u8>, first: &[u8], second: &[u8]) -> Result<(), AllocError>
    ensures { OnOk result (text.new.items ≡ behind first.now second.now) }
{
    text.clear();
    text.extend_from_slice(first)?;
    text.push(b' ')?;
    text.extend_from_slice(second)?;
    Ok(())
}

/// The names of a sheet, and those of the new columns so far.
#[derive(Drop)]
struct NewNames {
    alloc: Global,
    own: ByteRecord,
    made: Vec<Vec<u8>>,
}

impl NewNames {
    /// Whether a new column has this name.
    fn is_made(&self, name: &[u8]) -> bool
        ensures { result ≡ is_taken (items_of self.now.made.items) name.now }
    {
        'made: for made in &self.made {
            if made.as_slice() == name {
                return true;
            }
        }
        false
    }

    /// Whether a column of the sheet has this name.
    fn is_own(&self, name: &[u8]) -> bool
        ensures { result ≡ is_taken (fields_of self.now.own) name.now }
    {
        'own: for place in 0..self.own.len() {
            if field_at(&self.own, place) == name {
                return true;
            }
        }
        false
    }

    /// Whether a column has this name.
    fn is_taken(&self, name: &[u8]) -> bool
        ensures { result ≡ is_taken (taken_by self.now) name.now }
    {
        self.is_own(name) || self.is_made(name)
    }

    /// The name with the least number from 2 that no column has.
    fn numbered(&self, wanted: &[u8]) -> Result<Vec<u8>, AllocError>
        requires { is_taken (taken_by self.now) wanted.now ≡ true }
        ensures { IfOk result (λ name. IsHeading (taken_by self.now) wanted.now name.items) }
    {
        let mut name = Vec::new(self.alloc);
        'numbers: for number in 2..u64::MAX {
            join(&mut name, wanted, Buffer::new().format(number).as_bytes())?;
            if !self.is_taken(name.as_slice()) {
                return Ok(name);
            }
        }
        Err(AllocError)
    }

    /// The name wanted, with a number where another column has it.
    fn named(&self, wanted: &[u8]) -> Result<Vec<u8>, AllocError>
        ensures { IfOk result (λ name. IsHeading (taken_by self.now) wanted.now name.items) }
    {
        if self.is_taken(wanted) {
            return self.numbered(wanted);
        }
        Ok(wanted.to_vec(self.alloc)?)
    }

    /// Gives a new column the name wanted, with a number where another column has it.
    fn push(&mut self, wanted: &[u8]) -> Result<(), AllocError>
        ensures { OnOk result (NamesMore (wanted.now ∷ []) self.old self.new) }
    {
        let name = self.named(wanted)?;
        self.made.push(name)?;
        Ok(())
    }

    /// The name that a column of a column of dates is to have: of several, the own name of that stands before it.
    fn wanted(&self, date: &DateColumn, several: bool, name: &[u8]) -> Result<Vec<u8>, AllocError>
        ensures { IfOk result (λ wanted. wanted.items
            ≡ wanted_heading several (get_or (fields_of self.now.own) date.now.date []) name.now) }
    {
        if !several {
            return Ok(name.to_vec(self.alloc)?);
        }
        let mut wanted = Vec::new(self.alloc);
        join(&mut wanted, field_at(&self.own, date.date as usize), name)?;
        Ok(wanted)
    }

    /// Names a column of a column of dates.
    fn push_for(&mut self, date: &DateColumn, several: bool, name: &[u8]) -> Result<(), AllocError>
        ensures { OnOk result (NamesMore (wanted_all several date.now (name.now ∷ []) (fields_of self.old.own)) self.old
            self.new) }
    {
        let wanted = self.wanted(date, several, name)?;
        self.push(wanted.as_slice())
    }

    /// Names the columns asked of one end of a column of dates: this stands before the name of each.
    fn push_end(
        &mut self,
        date: &DateColumn,
        several: bool,
        columns: &[AskedColumn],
        end: &[u8],
    ) -> Result<(), AllocError>
        ensures { OnOk result (NamesMore (wanted_all several date.now (map (asked_behind end.now) columns.now)
            (fields_of self.old.own)) self.old self.new) }
    {
        'columns: for column in columns {
            let mut name = Vec::new(self.alloc);
            join(&mut name, end, asked_name(*column))?;
            self.push_for(date, several, name.as_slice())?;
        }
        Ok(())
    }

    /// Names the columns asked of a column of dates.
    fn push_columns(
        &mut self,
        date: &DateColumn,
        several: bool,
        columns: &[AskedColumn],
    ) -> Result<(), AllocError>
        ensures { OnOk result (NamesMore (wanted_all several date.now (map name_spec columns.now)
            (fields_of self.old.own)) self.old self.new) }
    {
        'columns: for column in columns {
            self.push_for(date, several, asked_name(*column))?;
        }
        Ok(())
    }

    /// Names the columns asked of both ends of a column of dates.
    fn push_ends(
        &mut self,
        date: &DateColumn,
        several: bool,
        columns: &[AskedColumn],
    ) -> Result<(), AllocError>
        ensures { OnOk result (NamesMore (wanted_all several date.now (map (asked_behind (codes "first")) columns.now
            ++ map (asked_behind (codes "last")) columns.now) (fields_of self.old.own)) self.old self.new) }
    {
        self.push_end(date, several, columns, b"first")?;
        self.push_end(date, several, columns, b"last")
    }

    /// Names the columns asked of a column of dates.
    fn push_asked(
        &mut self,
        date: &DateColumn,
        several: bool,
        spans: Spans,
        columns: &[AskedColumn],
    ) -> Result<(), AllocError>
        ensures { OnOk result (NamesMore (wanted_all several date.now (column_names spans columns.now)
            (fields_of self.old.own)) self.old self.new) }
    {
        match spans {
            Spans::Unread => self.push_columns(date, several, columns),
            Spans::Ends => self.push_ends(date, several, columns),
            Spans::EndsAndEdtf => self.push_ends(date, several, columns),
        }
    }

    /// Names the columns of the text of EDTF and of the mark of a column of dates.
    fn push_marks(
        &mut self,
        date: &DateColumn,
        several: bool,
        spans: Spans,
    ) -> Result<(), AllocError>
        ensures { OnOk result (NamesMore (wanted_all several date.now (mark_names spans) (fields_of self.old.own))
            self.old self.new) }
    {
        match spans {
            Spans::Unread => Ok(()),
            Spans::Ends => self.push_for(date, several, b"mark"),
            Spans::EndsAndEdtf => {
                self.push_for(date, several, b"edtf")?;
                self.push_for(date, several, b"mark")
            }
        }
    }

    /// Names the columns of a column of dates.
    fn push_all(
        &mut self,
        date: &DateColumn,
        several: bool,
        spans: Spans,
        columns: &[AskedColumn],
    ) -> Result<(), AllocError>
        ensures { OnOk result
            (NamesMore (wanted_for several (fields_of self.old.own) spans columns.now date.now) self.old self.new) }
    {
        self.push_asked(date, several, spans, columns)?;
        self.push_marks(date, several, spans)?;
        self.push_for(date, several, b"refusal")
    }

    /// Names the columns of all columns of dates.
    fn push_dates(
        &mut self,
        dates: &[DateColumn],
        spans: Spans,
        columns: &[AskedColumn],
    ) -> Result<(), AllocError>
        ensures { OnOk result
            (NamesMore (wanted_headings dates.now spans columns.now (fields_of self.old.own)) self.old self.new) }
    {
        let several = dates.len() > 1;
        'dates: for date in dates {
            self.push_all(date, several, spans, columns)?;
        }
        Ok(())
    }
}

/// What heads the columns that come behind a sheet, as [`AskedOfSheet::headings`] has it.
pub(crate) fn headings(
    alloc: Global,
    sheet: &[u8],
    asked: &AskedOfSheet,
) -> Result<Vec<Vec<u8>>, AllocError>
    ensures { IfOk result (λ headings. HasHeadings (asked_in asked.now) sheet.now (items_of headings.items)) }
{
    let mut names = NewNames {
        alloc,
        own: record_below(alloc, sheet, asked.delimiter, asked.above)?,
        made: Vec::new(alloc),
    };
    names.push_dates(
        asked.dates.as_slice(),
        asked.spans,
        asked.columns.as_slice(),
    )?;
    Ok(names.made)
}
