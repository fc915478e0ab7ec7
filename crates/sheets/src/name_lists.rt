//! Lists of names, read from a text.

ghost use Rattle.std.specs.Prelude.{◌≡◌, ◌↔◌, ◌∷◌, [], IfOk, IfErr, OnOk, map, true};
ghost use Rattle.csv.specs.Records.{fields_of};
ghost use Rattle.register_records.specs.Entries.{text_records};
ghost use Rattle.sheets.specs.NameLists.{IsFaultOf, IsLine, IsListOf, IsRefused, columns};
ghost use Rattle.sheets.specs.NameLists.{can_mean as can_mean_spec, calendar_in as calendar_spec};
ghost use Rattle.sheets.specs.NameLists.{calendar_names_in, calendar_seen, name_seen, names_in_dates};
ghost use Rattle.sheets.specs.Reading.{IsReading, left_of};
ghost use Rattle.sheets.specs.Sheets.{chosen};

use crate::name_calendars::calendars_said;
use crate::name_meanings::{Means, means_said};
use crate::reading::{field_at, read_next, records_of};
use csv::{ByteRecord, Reader};
use std::alloc::{AllocError, Global};
use std::str;
use written_dates::{CalendarMeaning, CalendarName, Calendars, Name, is_name};

/// A name, and what it means.
#[derive(Drop)]
pub struct NameLine {
    /// The name, as it stands in the list.
    pub text: Vec<u8>,
    /// What it means.
    pub means: Means,
    /// The calendars in which it means this, where it is something in dates.
    pub calendars: Calendars,
}

/// A list of names: what each means in dates, or where the calendar of a date stands.
#[derive(Drop)]
pub struct NameList {
    /// The names, in order.
    pub lines: Vec<NameLine>,
}

/// Why a text is no list of names. Records are counted from 1 below the header.
#[derive(Clone, Copy, PartialEq, Eq, Debug)]
pub enum NameListFault {
    /// Memory ran out.
    OutOfMemory,
    /// The first record does not begin with `name`, `means` and `in`, or there is none.
    Header,
    /// `means` of this record says nothing.
    Means(usize),
    /// `in` of this record names something that is no calendar.
    In(usize),
    /// `name` of this record, which means something in dates, has a character that no date has, or no number or word.
    Name(usize),
}

impl From<AllocError> for NameListFault {
    ghost use Rattle.std.specs.Prelude.{◌≡◌};
    ghost use Rattle.sheets.specs.declared.name_lists.NameListFault.TheVariants.{OutOfMemory};

    ghost from_gives = { λ error fault. fault ≡ OutOfMemory };

    fn from(_error: AllocError) -> Self {
        NameListFault::OutOfMemory
    }
}

/// Whether a record begins with the names of the columns.
fn is_header(record: &ByteRecord) -> bool
    ensures { (result ≡ true) ↔ (chosen (0 ∷ 1 ∷ 2 ∷ []) (fields_of record.now) ≡ columns) }
{
    field_at(record, 0) == b"name".as_slice()
        && field_at(record, 1) == b"means".as_slice()
        && field_at(record, 2) == b"in".as_slice()
}

/// Whether a text can mean this: what means something in dates is a name in dates.
fn can_mean(text: &[u8], means: Means) -> bool
    ensures { result ≡ can_mean_spec text.now means }
{
    match means {
        Means::InDates(_) => is_name(text),
        _ => true,
    }
}

/// What a name means where the calendar of a date stands, if it does.
fn calendar_in(means: Means) -> Option<CalendarMeaning>
    ensures { result ≡ calendar_spec means }
{
    match means {
        Means::Calendar(meaning) => Some(meaning),
        _ => None,
    }
}

/// The line of a record with this number.
fn line_of(alloc: Global, record: &ByteRecord, number: usize) -> Result<NameLine, NameListFault>
    ensures line { IfOk result (IsLine (fields_of record.now)) }
    ensures fault { IfErr result (IsRefused (fields_of record.now) number) }
{
    let Ok(means) = str::from_utf8(field_at(record, 1)) else {
        return Err(NameListFault::Means(number));
    };
    let Some(means) = means_said(means) else {
        return Err(NameListFault::Means(number));
    };
    let Ok(calendars) = str::from_utf8(field_at(record, 2)) else {
        return Err(NameListFault::In(number));
    };
    let Some(calendars) = calendars_said(calendars) else {
        return Err(NameListFault::In(number));
    };
    let text = field_at(record, 0);
    if !can_mean(text, means) {
        return Err(NameListFault::Name(number));
    }
    Ok(NameLine {
        text: text.to_vec(alloc)?,
        means,
        calendars,
    })
}

impl NameList {
    /// Reads a list: CSV with commas, of which the first record is the header `name,means,in`, with any columns behind
    /// these. `means` is one of the following.
    ///
    /// - A month, `month 1` to `month 13`, or `month 12-13`, Adar; months as `months 3-5`; a part of a year or a century
    ///   as `part 1/3`; `century 0` or `century 1`, by whether its first year ends with 00 or 01; `decade`; `last day`.
    /// - A number up to 999999999; a word for year, of the years of the calendar, the Spanish era or the creation:
    ///   `year`, `year spanish` or `year creation`; a word for day, `day`; the mark `K`, `N` or `I`.
    /// - `weekday 0` for Sunday to `weekday 6`; `decade 1` to `decade 10`, a day of ten.
    /// - A feast as `easter -28`, `feast 9-29`, `feast 3-1 -5` or `sunday advent 3`; Sundays as `sundays lent`;
    ///   `after`, `before`, `eve`, `morrow`, `octave`.
    /// - `about`, `from`, `to`, `between`, `and`; `undated`, by which a text says that no date is known.
    /// - A calendar, `both` styles, or a change as `julian/gregorian:1582-10-15`.
    /// - Nothing; or `?`, by which a name stays open.
    ///
    /// `in` has the calendars in which the name means this, with a space between two; all where it is empty. `name` is
    /// any text where it means a calendar or both styles, or stays open; else it has a number or a word, and no
    /// character that no date has.
    ///
    /// # Errors
    ///
    /// The first fault of the list, or `OutOfMemory`.
    pub fn read(alloc: Global, text: &[u8]) -> Result<NameList, NameListFault>
        ensures list { IfOk result (λ list. IsListOf (text_records 44 text.now) list.lines.items) }
        ensures fault { IfErr result (IsFaultOf (text_records 44 text.now)) }
    {
        let mut records = records_of(alloc, text, b',');
        let mut list = NameList {
            lines: Vec::new(alloc),
        };
        list.add_lines(alloc, &mut records, &mut ByteRecord::new(alloc))?;
        Ok(list)
    }

    /// Adds the lines of a list of which no record is read yet.
    fn add_lines(
        &mut self,
        alloc: Global,
        records: &mut Reader<&[u8]>,
        record: &mut ByteRecord,
    ) -> Result<(), NameListFault>
        requires reading { IsReading records.old }
        requires none { self.old.lines.items ≡ [] }
        ensures list { OnOk result (IsListOf (left_of records.old) self.new.lines.items) }
        ensures fault { IfErr result (IsFaultOf (left_of records.old)) }
    {
        if !read_next(records, record)? || !is_header(record) {
            return Err(NameListFault::Header);
        }
        'records: loop {
            if !read_next(records, record)? {
                return Ok(());
            }
            let line = line_of(alloc, record, self.lines.len() + 1)?;
            if self.lines.push(line).is_err() {
                return Err(NameListFault::OutOfMemory);
            }
        }
    }

    /// The names that mean something in dates, in order.
    pub fn names(&self, alloc: Global) -> Result<Vec<Name<'_>>, AllocError>
        ensures { IfOk result (λ names. map name_seen names.items ≡ names_in_dates self.now.lines.items) }
    {
        let mut names = Vec::new(alloc);
        'lines: for line in &self.lines {
            if let Means::InDates(meaning) = line.means {
                names.push(Name {
                    text: line.text.as_slice(),
                    meaning,
                    calendars: line.calendars,
                })?;
            }
        }
        Ok(names)
    }

    /// The names that mean a calendar or both styles, in order.
    pub fn calendar_names(&self, alloc: Global) -> Result<Vec<CalendarName<'_>>, AllocError>
        ensures { IfOk result (λ names. map calendar_seen names.items ≡ calendar_names_in self.now.lines.items) }
    {
        let mut names = Vec::new(alloc);
        'lines: for line in &self.lines {
            if let Some(meaning) = calendar_in(line.means) {
                names.push(CalendarName {
                    text: line.text.as_slice(),
                    meaning,
                })?;
            }
        }
        Ok(names)
    }
}
