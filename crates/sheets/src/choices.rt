//! What is chosen of a sheet.

ghost use Rattle.std.specs.Prelude.{◌≡◌, ◌≤◌, ◌<◌, ◌+◌, [], count_by, length};
ghost use Rattle.std.specs.Prelude.{option_to_list, take, Err, IfErr, IfOk};
ghost use Rattle.register_records.specs.Views.{targets_of};
ghost use Rattle.sheets.specs.Choices.{AsksOnce, HasDates, added_each as added_spec, asked_targets};
ghost use Rattle.sheets.specs.Choices.{asks_twice};
ghost use Rattle.sheets.specs.Choices.{is_church, is_day_number, is_weekday, target_in};
ghost use Rattle.sheets.specs.AskedOfSheets.{HasFault, IsChoice};

use date_texts::{MAX_TARGETS, Target};
use register_records::{Form, Setup, SetupFault};
use thiserror::Error;
use written_dates::{CalendarMeaning, CalendarNames, Choice, Names};

/// The most columns of dates.
pub const MAX_DATES: usize = 8;

/// The most columns that may be asked for each column of dates.
pub const MAX_COLUMNS: usize = MAX_TARGETS + 3;

/// Where the id of a record is. A place is that of a field, from 0; a record that has none there has an empty one.
#[derive(Clone, Copy, PartialEq, Eq)]
pub enum IdField {
    /// In a column.
    Column(u32),
    /// It is the number of the record below the names, from 1.
    Number,
}

/// A column of calendars.
#[derive(Clone, Copy, PartialEq, Eq)]
pub struct CalendarColumn {
    /// Where the calendar of a record is.
    pub place: u32,
    /// What is meant where nothing but blanks stands there.
    pub otherwise: Option<CalendarMeaning>,
}

/// Where the calendar of a date is.
#[derive(Clone, Copy, PartialEq, Eq)]
pub enum CalendarField {
    /// In a column.
    Column(CalendarColumn),
    /// This is meant for all dates of the column.
    All(CalendarMeaning),
}

/// A column of dates.
#[derive(Clone, Copy, PartialEq, Eq)]
pub struct DateColumn {
    /// Where the dates are.
    pub date: u32,
    /// Where their calendars are.
    pub calendar: CalendarField,
}

/// A column that is asked for each column of dates.
#[derive(Clone, Copy, PartialEq, Eq)]
pub enum AskedColumn {
    /// The number of the day.
    DayNumber,
    /// The weekday.
    Weekday,
    /// The Sunday or feast that the day is, in the church year of its calendar.
    Church,
    /// The date in a calendar, the haab or the tzolkin.
    Cells(Target),
}

/// What becomes of dates that say no single day, as a month, a year or a range.
#[derive(Clone, Copy, PartialEq, Eq)]
pub enum Spans {
    /// They are not read.
    Unread,
    /// For each date its first and its last day come back, and a mark.
    Ends,
    /// And the text of EDTF.
    EndsAndEdtf,
}

/// One end of a date.
#[derive(Clone, Copy, PartialEq, Eq)]
pub enum End {
    /// The first day that it can mean.
    First,
    /// The last one.
    Last,
}

/// What is chosen of a sheet.
#[derive(Clone, Copy)]
pub struct SheetChoice<'a> {
    /// The byte between two fields, of what is read and of what is written: a comma, a semicolon or a tab.
    pub delimiter: u8,
    /// How many records stand above the names.
    pub above: u32,
    /// Where the ids are.
    pub id: IdField,
    /// The columns of dates: one to eight.
    pub dates: &'a [DateColumn],
    /// The columns asked for each of them, in order, none twice; behind them always comes the refusal.
    pub columns: &'a [AskedColumn],
    /// What becomes of dates that say no single day.
    pub spans: Spans,
    /// What heads the columns that come behind the sheet: for each column of dates, the names of those asked and of the
    /// refusal; with spans, as [`AskedOfSheet::headings`](crate::AskedOfSheet::headings) has them.
    pub headings: &'a [&'a [u8]],
    /// How dates are read.
    pub reading: Choice,
    /// The names in dates.
    pub names: &'a Names<'a>,
    /// The names of calendars.
    pub calendars: &'a CalendarNames<'a>,
}

/// Why a choice is none: the first of these that applies.
#[derive(Clone, Copy, PartialEq, Eq, Debug, Error)]
pub enum ChoiceFault {
    /// There are not one to eight columns of dates.
    #[error("the columns of dates are not one to eight")]
    Dates,
    /// More columns are asked than there are.
    #[error("more columns are asked than there are")]
    TooManyColumns,
    /// A column is asked twice.
    #[error("a column is asked twice")]
    ColumnTwice,
    /// The delimiter is no comma, semicolon or tab.
    #[error("the delimiter is no comma, semicolon or tab")]
    Delimiter,
    /// There are not as many headings as columns that come behind the sheet.
    #[error("the headings are not as many as the columns that come behind the sheet")]
    Headings,
}

/// A choice that is one.
#[derive(Clone, Copy)]
pub struct SheetSetup<'a> {
    pub(crate) choice: SheetChoice<'a>,
    setup: Setup,
    ghost dated: { HasDates choice },
    ghost asked: { AsksOnce choice },
    ghost targeted: { targets_of setup ≡ asked_targets choice.columns.now },
}

fn is_day_number(column: &AskedColumn) -> bool
    ensures { result ≡ is_day_number column.now }
{
    matches!(column, AskedColumn::DayNumber)
}

fn is_weekday(column: &AskedColumn) -> bool
    ensures { result ≡ is_weekday column.now }
{
    matches!(column, AskedColumn::Weekday)
}

fn is_church(column: &AskedColumn) -> bool
    ensures { result ≡ is_church column.now }
{
    matches!(column, AskedColumn::Church)
}

/// How often the day is asked.
fn days_asked(columns: &[AskedColumn]) -> usize
    ensures { result ≡ count_by is_day_number columns.now }
{
    columns
        .iter()
        .filter(|column| is_day_number(column))
        .count()
}

/// How often the weekday is asked.
fn weekdays_asked(columns: &[AskedColumn]) -> usize
    ensures { result ≡ count_by is_weekday columns.now }
{
    columns.iter().filter(|column| is_weekday(column)).count()
}

/// How often the name of the day is asked.
fn churches_asked(columns: &[AskedColumn]) -> usize
    ensures { result ≡ count_by is_church columns.now }
{
    columns.iter().filter(|column| is_church(column)).count()
}

/// Whether the day, the weekday or the name of the day is asked twice.
fn asks_twice(columns: &[AskedColumn]) -> bool
    ensures { result ≡ asks_twice columns.now }
{
    let days = days_asked(columns) > 1;
    let weekdays = weekdays_asked(columns) > 1;
    let churches = churches_asked(columns) > 1;
    days || weekdays || churches
}

/// The target that a column asks for.
fn target_in(column: AskedColumn) -> Option<Target>
    ensures { option_to_list result ≡ target_in column }
{
    match column {
        AskedColumn::Cells(target) => Some(target),
        _ => None,
    }
}

/// The targets among the columns asked, and how many they are.
fn asked_targets(columns: &[AskedColumn]) -> ([Target; MAX_COLUMNS], usize)
    requires { length columns.now ≤ MAX_COLUMNS }
    ensures value { take result.1 result.0 ≡ asked_targets columns.now }
    ensures few { result.1 ≤ MAX_COLUMNS }
{
    let mut targets = [Target::Haab; MAX_COLUMNS];
    let mut count = 0;
    'columns: for column in columns {
        match target_in(*column) {
            Some(target) => {
                targets[count] = target;
                count += 1;
            }
            None => {}
        }
    }
    (targets, count)
}

/// How many columns come behind a sheet for a column of dates, where so many are asked.
fn added_each(spans: Spans, asked: usize) -> usize
    requires { asked ≤ MAX_COLUMNS }
    ensures { result ≡ added_spec spans asked }
{
    match spans {
        Spans::Unread => asked + 1,
        Spans::Ends => asked + asked + 2,
        Spans::EndsAndEdtf => asked + asked + 3,
    }
}

/// The setup of the targets asked, or the first fault that applies.
fn setup_of(choice: &SheetChoice) -> Result<Setup, ChoiceFault>
    ensures good { IfOk result (λ setup. IsChoice choice.now
        × (targets_of setup ≡ asked_targets choice.now.columns.now)) }
    ensures fault { IfErr result (HasFault choice.now) }
{
    if choice.dates.is_empty() || choice.dates.len() > MAX_DATES {
        return Err(ChoiceFault::Dates);
    }
    if choice.columns.len() > MAX_COLUMNS {
        return Err(ChoiceFault::TooManyColumns);
    }
    if asks_twice(choice.columns) {
        return Err(ChoiceFault::ColumnTwice);
    }
    let (targets, count) = asked_targets(choice.columns);
    let setup = match Setup::new(&targets[..count], 1, choice.delimiter, 1, Form::Plain) {
        Ok(setup) => setup,
        Err(SetupFault::TargetTwice) => return Err(ChoiceFault::ColumnTwice),
        Err(_) => return Err(ChoiceFault::Delimiter),
    };
    let each = added_each(choice.spans, choice.columns.len());
    if choice.headings.len() != choice.dates.len() * each {
        return Err(ChoiceFault::Headings);
    }
    Ok(setup)
}

impl<'a> SheetSetup<'a> {
    /// The setup of a choice.
    ///
    /// # Errors
    ///
    /// The first fault that applies, in the order of [`ChoiceFault`].
    pub fn new(choice: SheetChoice<'a>) -> Result<SheetSetup<'a>, ChoiceFault>
        ensures value { IfOk result (λ s. s.choice ≡ choice.entry) }
        ensures good { IfOk result (λ s. IsChoice choice.entry) }
        ensures fault { IfErr result (HasFault choice.entry) }
    {
        let setup = setup_of(&choice)?;
        Ok(SheetSetup { choice, setup })
    }

    /// What was chosen.
    pub fn choice(&self) -> SheetChoice<'a>
        ensures { result ≡ self.now.choice }
    {
        self.choice
    }

    /// What a table is asked for: the targets.
    pub(crate) fn setup(&self) -> &Setup
        ensures { targets_of result.now ≡ asked_targets self.now.choice.columns.now }
    {
        &self.setup
    }
}
