//! What is read of a record of a sheet: its number, its own fields, and its dates.

ghost use Rattle.std.specs.Prelude.{◌≡◌, ◌≤◌, IfOk, IsSome, None, OnOk, Some, length, option_map, true};
ghost use Rattle.csv.specs.Records.{fields_of};
ghost use Rattle.register_records.specs.Entries.{record_limit};
ghost use Rattle.register_records.specs.Outcomes.{IsRowOf};
ghost use Rattle.register_records.specs.Seen.{outcome_seen};
ghost use Rattle.register_records.specs.Views.{row_seen};
ghost use Rattle.sheets.specs.Choices.{asked_targets, date_text};
ghost use Rattle.sheets.specs.DateCounts.{is_one_day as one_day_spec};
ghost use Rattle.sheets.specs.DateEnds.{AreAtChange, AreEndsBy, AreEndsIn, AreOfRecord, IsEdtfOf, as_text};
ghost use Rattle.sheets.specs.DateEnds.{asks_edtf as asks_spec, has_edtf as has_spec, is_failed, is_open, one_end};
ghost use Rattle.sheets.specs.DateEnds.{sense_of as sense_spec, telling as telling_spec, told};
ghost use Rattle.sheets.specs.DateStops.{IsStopBy};
ghost use Rattle.sheets.specs.private.DateViews.{HasDate, HasRows, end_entry};
ghost use Rattle.sheets.specs.private.SheetRecords.{IsDateRead, IsRecordRead, date_seen, dated_seen, end_seen};
ghost use Rattle.sheets.specs.private.SheetRecords.{record_read, stop_read};
ghost use Rattle.std.specs.Result.{result_ok};
ghost use Rattle.sheets.specs.UnknownViews.{if_stop};

use crate::calendar_changes::{EndCalendar, MAX_DATE, at_change};
use crate::choices::{DateColumn, End, SheetChoice, SheetSetup, Spans};
use crate::end_texts::{DAY_MARKS, EndTexts, write_ends};
use crate::met_calendars::MetCalendars;
use crate::reasons::Reason;
use crate::register_fields::{called_by, date_said, id_of};
use crate::stops::{DateStop, NameStop, stop_by};
use csv::ByteRecord;
use date_spans::{Kind, Marks, Sense, write_edtf, write_in_both};
use date_texts::laws::one_calendar;
use date_texts::{Calendar, Refusal};
use day_numbers::Day;
use itoa::Buffer;
use register_records::{Entry, Row};
use std::alloc::{AllocError, Global};
use written_dates::CalendarMeaning;

/// What kind of thing stopped a date.
#[derive(Clone, Copy)]
enum StopKind {
    Nothing,
    Name(Option<Calendar>),
    Reason(Reason),
}

/// What stopped a date, in memory that serves again.
#[derive(Drop)]
pub(crate) struct ReadStop {
    kind: StopKind,
    // The name, where one stopped it.
    name: Vec<u8>,
}

/// The first or the last day of a date: what calendar it is in, its text, and its row.
#[derive(Drop)]
pub(crate) struct ReadEnd {
    pub calendar: EndCalendar,
    pub text: Vec<u8>,
    pub row: Row,
}

/// The date of a record in a column: the calendar that a register has of it, what stopped it, and its first and last day.
#[derive(Drop)]
pub(crate) struct ColumnDates {
    pub calendar: Vec<u8>,
    pub stop: ReadStop,
    pub first: ReadEnd,
    // The last day, where its text is another than that of the first.
    pub last: ReadEnd,
    pub has_last: bool,
    pub marks: Marks,
    pub edtf: Vec<u8>,
    // What is written in both calendars where one follows the other.
    julian: EndTexts,
    gregorian: EndTexts,
}

/// A record of a sheet, in memory that serves again.
#[derive(Drop)]
pub(crate) struct SheetRecord {
    pub number: u32,
    pub fields: ByteRecord,
    pub columns: Vec<ColumnDates>,
}

/// Makes a text another.
fn copy_text(text: &mut Vec<u8>, other: &[u8]) -> Result<(), AllocError>
    ensures { OnOk result (text.new.items ≡ other.now) }
{
    text.clear();
    text.extend_from_slice(other)
}

impl ReadStop {
    /// Nothing stopped the date.
    fn none(alloc: Global) -> ReadStop {
        ReadStop {
            kind: StopKind::Nothing,
            name: Vec::new(alloc),
        }
    }

    /// Makes this what stopped a date.
    fn renew(&mut self, stop: Option<DateStop<'_>>) -> Result<(), AllocError>
        ensures { OnOk result (stop_read self.new ≡ if_stop stop.entry) }
    {
        match stop {
            None => self.kind = StopKind::Nothing,
            Some(DateStop::Reason(reason)) => self.kind = StopKind::Reason(reason),
            Some(DateStop::Name(stop)) => {
                self.kind = StopKind::Name(stop.calendar);
                copy_text(&mut self.name, stop.name)?;
            }
        }
        Ok(())
    }

    /// What stopped the date.
    pub fn stop(&self) -> Option<DateStop<'_>>
        ensures { if_stop result ≡ stop_read self.now }
    {
        match self.kind {
            StopKind::Nothing => None,
            StopKind::Reason(reason) => Some(DateStop::Reason(reason)),
            StopKind::Name(calendar) => Some(DateStop::Name(NameStop {
                name: self.name.as_slice(),
                calendar,
            })),
        }
    }
}

impl ReadEnd {
    /// An end before any was read.
    fn blank(alloc: Global) -> ReadEnd {
        ReadEnd {
            calendar: EndCalendar::OfRecord,
            text: Vec::new(alloc),
            row: Row::blank(),
        }
    }

    /// Makes these its calendar and its text.
    fn put(&mut self, calendar: EndCalendar, text: &[u8]) -> Result<(), AllocError>
        ensures { OnOk result (as_text (end_seen self.new) ≡ record { calendar = calendar; text = text.now }) }
    {
        self.calendar = calendar;
        copy_text(&mut self.text, text)
    }

    /// Makes the row that of its entry, by what a register names as the calendar of the record.
    fn convert(&mut self, setup: &SheetSetup, number: u32, id: &[u8], calendar: &[u8])
        requires from_one { 1 ≤ number }
        requires limited { number ≤ record_limit }
        ensures text { as_text (end_seen self.new) ≡ as_text (end_seen self.old) }
        ensures row { IsRowOf (asked_targets setup.now.choice.columns.now)
            (end_entry number id.now calendar.now (end_seen self.old)) (row_seen self.new.row) }
    {
        let calendar = self.calendar.in_row(calendar);
        let text = self.calendar.date_in_row(self.text.as_slice());
        let Some(entry) = Entry::of_fields(number, id, calendar, text) else {
            unreachable!()
        };
        self.row.renew(&entry, setup.setup());
    }

    /// Whether no date is written there.
    fn is_open(&self) -> bool
        ensures { result ≡ is_open (end_seen self.now) }
    {
        self.text.is_empty()
    }

    /// Whether a date in the calendar of the record is written there, and was accepted.
    fn has_date(&self) -> bool
        ensures { result ≡ true → HasDate (end_seen self.now) }
    {
        matches!(self.calendar, EndCalendar::OfRecord)
            && self.text.len() <= MAX_DATE
            && self.row.outcome().is_ok()
    }

    /// Whether a date is written there, and was refused.
    fn is_failed(&self) -> bool
        ensures { result ≡ is_failed (end_seen self.now) }
    {
        self.row.outcome().is_err() && !self.is_open()
    }
}

/// The end that tells whether a date was refused.
fn telling<'a>(first: &'a ReadEnd, last: &'a ReadEnd) -> &'a ReadEnd
    ensures { end_seen result.now ≡ telling_spec (end_seen first.now) (end_seen last.now) }
{
    if first.is_failed() {
        first
    } else if last.is_failed() {
        last
    } else if first.is_open() {
        last
    } else {
        first
    }
}

/// Whether two outcomes are one day.
fn is_one_day(first: Result<Day, Refusal>, last: Result<Day, Refusal>) -> bool
    ensures { result ≡ one_day_spec (outcome_seen first) (outcome_seen last) }
{
    match (first, last) {
        (Ok(first), Ok(last)) => first.number() == last.number(),
        _ => false,
    }
}

/// The day of an outcome.
fn day_of(outcome: Result<Day, Refusal>) -> Option<Day>
    ensures { option_map (λ day. day.number) result ≡ result_ok (outcome_seen outcome) }
{
    match outcome {
        Ok(day) => Some(day),
        Err(_) => None,
    }
}

/// Whether the text of EDTF is asked.
fn asks_edtf(spans: Spans) -> bool
    ensures { result ≡ asks_spec spans }
{
    matches!(spans, Spans::EndsAndEdtf)
}

/// How EDTF has what marks say.
fn sense_of(marks: Marks) -> Sense
    ensures { result ≡ sense_spec marks }
{
    Sense {
        one_of: !matches!(marks.kind, Kind::Range),
        about: marks.about,
        uncertain: marks.uncertain,
    }
}

/// What stops the date of a record in a column, by its text and the end that is written for it: nothing where its row was
/// accepted.
fn stop_beside<'a>(
    choice: &SheetChoice,
    column: &DateColumn,
    called: Option<Calendar>,
    record: &'a ByteRecord,
    text: &'a [u8],
    end: &ReadEnd,
) -> Option<DateStop<'a>>
    requires text { text.now ≡ date_text choice.now column.now (fields_of record.now) }
    requires stop { HasDate (end_seen end.now) → IsSome called
        → IsStopBy choice.now column.now (fields_of record.now) end.now.text.items called None }
    ensures { IsStopBy choice.now column.now (fields_of record.now) end.now.text.items called (if_stop result) }
{
    if end.has_date() && called.is_some() {
        None
    } else {
        stop_by(choice, column, called, record, text, end.text.as_slice())
    }
}

impl ColumnDates {
    /// What a column has before any date was read.
    fn blank(alloc: Global) -> ColumnDates {
        ColumnDates {
            calendar: Vec::new(alloc),
            stop: ReadStop::none(alloc),
            first: ReadEnd::blank(alloc),
            last: ReadEnd::blank(alloc),
            has_last: false,
            marks: DAY_MARKS,
            edtf: Vec::new(alloc),
            julian: EndTexts::blank(alloc),
            gregorian: EndTexts::blank(alloc),
        }
    }

    /// The last day.
    pub fn last(&self) -> &ReadEnd
        ensures { end_seen result.now ≡ (dated_seen self.now).last }
    {
        if self.has_last {
            &self.last
        } else {
            &self.first
        }
    }

    /// One of both.
    pub fn end(&self, end: End) -> &ReadEnd
        ensures { as_text (end_seen result.now)
            ≡ one_end end (as_text (dated_seen self.now).first) (as_text (dated_seen self.now).last) }
    {
        match end {
            End::First => &self.first,
            End::Last => self.last(),
        }
    }

    /// The end that tells whether the date was refused.
    #[tactic(auto, using(crate::proofs::DateLemmas::telling_itself))]
    pub fn told(&self) -> &ReadEnd
        ensures { (end_seen result.now).row ≡ told (dated_seen self.now) }
    {
        if self.has_last {
            telling(&self.first, &self.last)
        } else {
            &self.first
        }
    }

    /// Whether the first and the last day are one.
    #[tactic(auto, using(crate::proofs::DateLemmas::one_day_itself))]
    pub fn is_one_day(&self) -> bool
        ensures { result ≡ one_day_spec (dated_seen self.now).first.row.outcome (dated_seen self.now).last.row.outcome }
    {
        if self.has_last {
            is_one_day(self.first.row.outcome(), self.last.row.outcome())
        } else {
            self.first.row.outcome().is_ok()
        }
    }

    /// Writes the first and the last day that a field can mean in the calendar of the record, or in none.
    fn put_in_calendar(
        &mut self,
        choice: &SheetChoice,
        called: Option<Calendar>,
        field: &[u8],
    ) -> Result<(), AllocError>
        ensures ends { OnOk result (AreEndsBy choice.now.spans choice.now.reading called choice.now.names.now.listed.now
            field.now (dated_seen self.new).first.text (dated_seen self.new).last.text self.new.marks) }
        ensures of_record { OnOk result (AreOfRecord (as_text (dated_seen self.new).first)
            (as_text (dated_seen self.new).last)) }
        ensures calendar { self.new.calendar ≡ self.old.calendar }
    {
        self.first.calendar = EndCalendar::OfRecord;
        self.last.calendar = EndCalendar::OfRecord;
        let (first, last) = (&mut self.first.text, &mut self.last.text);
        let (has_last, marks) = write_ends(first, last, choice, called, field)?;
        self.has_last = has_last;
        self.marks = marks;
        Ok(())
    }

    /// Writes the Gregorian date of a field in both styles.
    fn put_in_both(&mut self, choice: &SheetChoice, field: &[u8]) -> Result<(), AllocError>
        ensures ends { OnOk result (AreEndsIn (Some CalendarMeaning.Both) choice.now.spans choice.now.reading
            choice.now.names.now.listed.now field.now (as_text (dated_seen self.new).first)
            (as_text (dated_seen self.new).last) self.new.marks) }
        ensures calendar { self.new.calendar ≡ self.old.calendar }
    {
        self.first.calendar = EndCalendar::OfRecord;
        self.has_last = false;
        self.marks = DAY_MARKS;
        write_in_both(&mut self.first.text, field, choice.names, &choice.reading)
    }

    /// Writes the first and the last day that a field can mean at a change of calendars.
    fn put_at_change(
        &mut self,
        choice: &SheetChoice,
        from: i64,
        field: &[u8],
    ) -> Result<(), AllocError>
        ensures ends { OnOk result (AreAtChange from choice.now.spans choice.now.reading
            choice.now.names.now.listed.now field.now (as_text (dated_seen self.new).first)
            (as_text (dated_seen self.new).last) self.new.marks) }
        ensures calendar { self.new.calendar ≡ self.old.calendar }
    {
        self.julian.put(choice, Some(Calendar::Julian), field)?;
        self.gregorian
            .put(choice, Some(Calendar::Gregorian), field)?;
        let (calendar, text) = at_change(from, self.julian.first(), self.gregorian.first());
        self.first.put(calendar, text)?;
        let (end, text) = at_change(from, self.julian.last(), self.gregorian.last());
        self.last.put(end, text)?;
        self.has_last = true;
        self.marks = match calendar {
            EndCalendar::OldStyle => self.julian.marks,
            _ => self.gregorian.marks,
        };
        Ok(())
    }

    /// Writes the first and the last day of a field by what is meant for the record.
    fn put_ends(
        &mut self,
        choice: &SheetChoice,
        meant: Option<CalendarMeaning>,
        field: &[u8],
    ) -> Result<(), AllocError>
        ensures ends { OnOk result (AreEndsIn meant choice.now.spans choice.now.reading
            choice.now.names.now.listed.now field.now (as_text (dated_seen self.new).first)
            (as_text (dated_seen self.new).last) self.new.marks) }
        ensures calendar { self.new.calendar ≡ self.old.calendar }
    {
        match meant {
            None => self.put_in_calendar(choice, None, field),
            Some(CalendarMeaning::One(calendar)) => {
                self.put_in_calendar(choice, Some(calendar), field)
            }
            Some(CalendarMeaning::Both) => self.put_in_both(choice, field),
            Some(CalendarMeaning::Changed(from)) => self.put_at_change(choice, from, field),
        }
    }

    /// Whether the text of EDTF is asked, and no date was refused.
    fn has_edtf(&self, spans: Spans) -> bool
        ensures { result ≡ has_spec spans (dated_seen self.now).first (dated_seen self.now).last }
    {
        asks_edtf(spans) && !self.first.is_failed() && !self.last().is_failed()
    }

    /// Writes the text of EDTF, where it is asked and no date was refused.
    fn put_edtf(&mut self, spans: Spans) -> Result<(), AllocError>
        ensures edtf { OnOk result (IsEdtfOf spans (dated_seen self.new)) }
        ensures calendar { self.new.calendar ≡ self.old.calendar }
        ensures stop { self.new.stop ≡ self.old.stop }
        ensures first { (dated_seen self.new).first ≡ (dated_seen self.old).first }
        ensures last { (dated_seen self.new).last ≡ (dated_seen self.old).last }
        ensures marks { self.new.marks ≡ self.old.marks }
    {
        let has_edtf = self.has_edtf(spans);
        self.edtf.clear();
        if !has_edtf {
            return Ok(());
        }
        let first = day_of(self.first.row.outcome());
        let last = day_of(self.last().row.outcome());
        write_edtf(&mut self.edtf, first, last, sense_of(self.marks))
    }

    /// Makes the rows those of the entries with these texts.
    fn convert(&mut self, setup: &SheetSetup, number: u32, id: &[u8])
        requires from_one { 1 ≤ number }
        requires limited { number ≤ record_limit }
        ensures rows { HasRows setup.now.choice number id.now self.old self.new }
    {
        let calendar = self.calendar.as_slice();
        self.first.convert(setup, number, id, calendar);
        if self.has_last {
            self.last.convert(setup, number, id, calendar);
        }
    }

    /// Makes this what is to be read for the date in a column of a record with this number.
    fn renew(
        &mut self,
        setup: &SheetSetup,
        column: &DateColumn,
        number: u32,
        fields: &ByteRecord,
        met: &mut MetCalendars,
    ) -> Result<(), AllocError>
        requires from_one { 1 ≤ number }
        requires limited { number ≤ record_limit }
        requires names { met.old.names.now ≡ setup.now.choice.calendars.now }
        ensures names { met.new.names ≡ met.old.names }
        ensures read { OnOk result
            (IsDateRead setup.now.choice number (fields_of fields.now) column.now (date_seen self.new)) }
    {
        let choice = &setup.choice;
        let said = date_said(choice, column, fields, met);
        copy_text(&mut self.calendar, said.calendar)?;
        self.put_ends(choice, said.meant, said.text)?;
        let mut buffer = Buffer::new();
        let id = id_of(choice.id, buffer.format(number).as_bytes(), fields);
        self.convert(setup, number, id);
        one_calendar();
        let stop = stop_beside(
            choice,
            column,
            called_by(said.meant),
            fields,
            said.text,
            &self.first,
        );
        self.stop.renew(stop)?;
        self.put_edtf(choice.spans)
    }
}

impl SheetRecord {
    /// A record before any was read, with so many columns of dates.
    pub fn blank(alloc: Global, count: usize) -> Result<SheetRecord, AllocError>
        ensures { IfOk result (λ of_sheet. length of_sheet.columns.items ≡ count) }
    {
        let mut columns = Vec::new(alloc);
        'columns: for _ in 0..count {
            columns.push(ColumnDates::blank(alloc))?;
        }
        Ok(SheetRecord {
            number: 0,
            fields: ByteRecord::new(alloc),
            columns,
        })
    }

    /// Gives the record, whose fields were read, this number, and makes its dates what is to be read for them.
    pub fn renew(
        &mut self,
        setup: &SheetSetup,
        number: u32,
        met: &mut MetCalendars,
    ) -> Result<(), AllocError>
        requires names { met.old.names.now ≡ setup.now.choice.calendars.now }
        requires from_one { 1 ≤ number }
        requires limited { number ≤ record_limit }
        requires count { length self.old.columns.items ≡ length setup.now.choice.dates.now }
        ensures read { OnOk result (IsRecordRead setup.now.choice (record_read self.new)) }
        ensures number { OnOk result (self.new.number ≡ number) }
        ensures fields { self.new.fields ≡ self.old.fields }
        ensures names { met.new.names ≡ met.old.names }
        ensures count { length self.new.columns.items ≡ length self.old.columns.items }
    {
        self.number = number;
        let dates = setup.choice.dates;
        'dates: for place in 0..dates.len() {
            self.columns[place].renew(setup, &dates[place], number, &self.fields, met)?;
        }
        Ok(())
    }
}
