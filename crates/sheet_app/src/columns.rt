//! The columns of a sheet that the arguments name.

ghost use Rattle.std.specs.Prelude.{◌≡◌, ◌≢◌, ◌≤◌, ◌<◌, ◌+◌, IfErr, IfNone, IfOk, IfSome, Some, length, map, option_map};
ghost use Rattle.csv.specs.Records.{fields_of};
ghost use Rattle.sheet_arguments.specs.Requests.{task_of};
ghost use Rattle.sheet_app.specs.Columns.{HasNoLast, IsDateField, is_joined as joined_spec, AreDateColumns};
ghost use Rattle.sheet_app.specs.private.Columns.{LacksDate};
ghost use Rattle.sheet_app.specs.Columns.{HoldsOfNone, IsBareWord, IsCalendarField, IsColumn, IsFirst};
ghost use Rattle.sheet_app.specs.private.Columns.{IsForWord};
ghost use Rattle.sheet_app.specs.Columns.{IsIdField, IsItsOwn, IsMissing, IsWord, NamesNoColumn, NamesNone, SaysElse};
ghost use Rattle.sheet_app.specs.CalendarWords.{SaysBy, SaysNothing};

use crate::calendar_words::calendar_by;
use csv::ByteRecord;
use programs::number_named;
use sheet_arguments::{CalendarsAsked, Job};
use sheets::{CalendarColumn, CalendarField, DateColumn, IdField, NameList, field_at};
use std::alloc::{AllocError, Global};
use written_dates::{CalendarMeaning, without_blanks};

/// Why columns are not found.
#[derive(Clone, Copy)]
pub enum ColumnFault<'a> {
    /// Memory ran out.
    OutOfMemory,
    /// The sheet has no column that this word names.
    NoColumn(&'a str),
}

impl From<AllocError> for ColumnFault<'_> {
    ghost use Rattle.std.specs.Prelude.{◌≡◌};
    ghost use Rattle.sheet_app.specs.declared.columns.ColumnFault.TheVariants.{OutOfMemory};

    ghost from_gives = { λ error fault. fault ≡ OutOfMemory };

    fn from(_error: AllocError) -> Self {
        ColumnFault::OutOfMemory
    }
}

/// The index of the first name that is this text.
fn index_of(names: &ByteRecord, text: &[u8]) -> Option<usize>
    ensures some { IfSome result (λ index. IsFirst (IsWord text.now) (fields_of names.now) index) }
    ensures none { IfNone result (HoldsOfNone (IsWord text.now) (fields_of names.now)) }
{
    'names: for index in 0..names.len() {
        if field_at(names, index) == text {
            return Some(index);
        }
    }
    None
}

/// The index of the first name that is this text, without the blanks at the ends of both.
fn bare_index_of(names: &ByteRecord, text: &[u8]) -> Option<usize>
    ensures some { IfSome result (λ index. IsFirst (IsBareWord text.now) (fields_of names.now) index) }
    ensures none { IfNone result (HoldsOfNone (IsBareWord text.now) (fields_of names.now)) }
{
    let bare = without_blanks(text);
    'names: for index in 0..names.len() {
        if without_blanks(field_at(names, index)) == bare {
            return Some(index);
        }
    }
    None
}

/// The index of the column that a word names, as [`column_named`] has it.
fn column_found(names: &ByteRecord, word: &str) -> Option<usize>
    ensures some { IfSome result (λ index. IsColumn (fields_of names.now) word.now index) }
    ensures none { IfNone result (NamesNoColumn (fields_of names.now) word.now) }
{
    if let Some(index) = index_of(names, word.as_bytes()) {
        return Some(index);
    }
    if let Some(index) = bare_index_of(names, word.as_bytes()) {
        return Some(index);
    }
    match number_named(word, names.len()) {
        Some(number) => Some(number - 1),
        None => None,
    }
}

/// The index of the column that a word names: that of the first with this name, or else of the first with this name
/// without the blanks at the ends of both, or else of the one with this number from 1. `None` where there is none.
pub fn column_named(names: &ByteRecord, word: &str) -> Option<u32>
    ensures some { IfSome result (λ index. IsColumn (fields_of names.now) word.now index) }
    ensures none { IfNone result (NamesNone (fields_of names.now) word.now) }
{
    match column_found(names, word) {
        Some(index) => u32::try_from(index).ok(),
        None => None,
    }
}

/// The index of the last column.
fn last_column(names: &ByteRecord) -> Option<u32>
    ensures some { IfSome result (λ place. place + 1 ≡ length (fields_of names.now)) }
    ensures none { IfNone result (HasNoLast (fields_of names.now)) }
{
    let place = names.len().checked_sub(1)?;
    u32::try_from(place).ok()
}

/// Whether the word at an index of a job is that of the dates which are joined of three columns.
fn is_joined(job: &Job, index: usize) -> bool
    requires { index < length job.now.dates.items }
    ensures { result ≡ joined_spec (task_of job.now) index }
{
    job.three.is_some() && index + 1 == job.dates.len()
}

/// The index of the column of dates that the word at an index of a job names: with three columns that are joined, the last
/// word is that of the last column.
fn date_named(names: &ByteRecord, job: &Job, index: usize, word: &str) -> Option<u32>
    requires { index < length job.now.dates.items }
    ensures some { IfSome result (IsDateField (fields_of names.now) (task_of job.now) index word.now) }
    ensures none { IfNone result (LacksDate (fields_of names.now) (task_of job.now) index word.now) }
{
    if is_joined(job, index) {
        last_column(names)
    } else {
        column_named(names, word)
    }
}

/// Where the ids are.
pub fn id_named<'a>(names: &ByteRecord, id: Option<&'a str>) -> Result<IdField, ColumnFault<'a>>
    ensures field { IfOk result (λ field. IsIdField (fields_of names.now) (option_map (λ w. w.now) id.entry) field) }
    ensures fault { IfErr result (IsForWord (λ word. (option_map (λ w. w.now) id.entry ≡ Some word)
        × NamesNone (fields_of names.now) word)) }
{
    match id {
        Some(word) => match column_named(names, word) {
            Some(index) => Ok(IdField::Column(index)),
            None => Err(ColumnFault::NoColumn(word)),
        },
        None => Ok(IdField::Number),
    }
}

/// The word at an index of a list, or its only one.
fn word_at<'a>(words: &[&'a str], index: usize) -> Option<&'a str>
    ensures some { IfSome result (λ word. IsItsOwn (map (λ w. w.now) words.now) index word.now) }
    ensures none { IfNone result ((length words.now ≢ 1) × (length words.now ≤ index)) }
{
    if words.len() == 1 {
        return Some(words[0]);
    }
    words.get(index).copied()
}

/// What a word says of the calendar of dates by the names of a list.
fn meaning_said<'a>(
    alloc: Global,
    list: &NameList,
    word: &'a str,
) -> Result<CalendarMeaning, ColumnFault<'a>>
    ensures said { IfOk result (SaysBy list.now.lines.items word.entry.now) }
    ensures fault { IfErr result (IsForWord (λ other. (other ≡ word.entry.now)
        × SaysNothing list.now.lines.items other)) }
{
    match calendar_by(alloc, list, word)? {
        Some(meaning) => Ok(meaning),
        None => Err(ColumnFault::NoColumn(word)),
    }
}

/// What a word says for empty fields by the names of a list, if there is one.
fn otherwise_said<'a>(
    alloc: Global,
    list: &NameList,
    word: Option<&'a str>,
) -> Result<Option<CalendarMeaning>, ColumnFault<'a>>
    ensures said { IfOk result (SaysElse list.now.lines.items (option_map (λ w. w.now) word.entry)) }
    ensures fault { IfErr result (IsForWord (λ other. (option_map (λ w. w.now) word.entry ≡ Some other)
        × SaysNothing list.now.lines.items other)) }
{
    match word {
        Some(word) => Ok(Some(meaning_said(alloc, list, word)?)),
        None => Ok(None),
    }
}

/// Where the calendars of the column of dates at an index are, by the names of a list.
fn calendar_named<'a>(
    alloc: Global,
    list: &NameList,
    names: &ByteRecord,
    job: &Job<'a>,
    index: usize,
) -> Result<CalendarField, ColumnFault<'a>>
    ensures field { IfOk result (λ field.
        IsCalendarField list.now.lines.items (fields_of names.now) (task_of job.now).calendars index field) }
    ensures fault { index < length job.now.dates.items
        → IfErr result (IsForWord (IsMissing list.now.lines.items (fields_of names.now) (task_of job.now))) }
{
    match &job.calendars {
        CalendarsAsked::Columns(words, otherwise) => {
            let Some(word) = word_at(words.as_slice(), index) else {
                return Err(ColumnFault::NoColumn(""));
            };
            let Some(place) = column_named(names, word) else {
                return Err(ColumnFault::NoColumn(word));
            };
            let otherwise = otherwise_said(alloc, list, *otherwise)?;
            Ok(CalendarField::Column(CalendarColumn { place, otherwise }))
        }
        CalendarsAsked::All(words) => match word_at(words.as_slice(), index) {
            Some(word) => Ok(CalendarField::All(meaning_said(alloc, list, word)?)),
            None => Err(ColumnFault::NoColumn("")),
        },
    }
}

/// The columns of dates that a job asks for, in a sheet with these names, by the names of a list.
pub fn dates_named<'a>(
    alloc: Global,
    list: &NameList,
    names: &ByteRecord,
    job: &Job<'a>,
) -> Result<Vec<DateColumn>, ColumnFault<'a>>
    ensures dates { IfOk result (λ dates.
        AreDateColumns list.now.lines.items (fields_of names.now) (task_of job.now) dates.items) }
    ensures fault { IfErr result
        (IsForWord (IsMissing list.now.lines.items (fields_of names.now) (task_of job.now))) }
{
    let mut dates = Vec::new(alloc);
    'dates: for index in 0..job.dates.len() {
        let word = job.dates[index];
        let Some(date) = date_named(names, job, index, word) else {
            return Err(ColumnFault::NoColumn(word));
        };
        let calendar = calendar_named(alloc, list, names, job, index)?;
        if dates.push(DateColumn { date, calendar }).is_err() {
            return Err(ColumnFault::OutOfMemory);
        }
    }
    Ok(dates)
}
