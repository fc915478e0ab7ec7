//! The words of a command line that say the calendar of dates.

ghost use Rattle.std.specs.Prelude.{◌∷◌, [], IfErr, IfNone, IfOk, IfSome, map};
ghost use Rattle.sheet_arguments.specs.Requests.{task_of};
ghost use Rattle.sheet_app.specs.CalendarWords.{SaysBy, SaysNothing, calendar_words};
ghost use Rattle.sheet_app.specs.private.SheetViews.{IsOfWords};

use crate::program_faults::ProgramFault;
use sheet_arguments::{CalendarsAsked, Job};
use sheets::{NameList, calendar_said};
use std::alloc::{AllocError, Global};
use written_dates::{CalendarMeaning, CalendarNames};

/// What a word says of the calendar of dates: what it means by the names of a list, as a field of calendars does; or else
/// what [`calendar_said`] reads. `None` exactly where it says nothing.
pub fn calendar_by(
    alloc: Global,
    list: &NameList,
    word: &str,
) -> Result<Option<CalendarMeaning>, AllocError>
    ensures some { IfOk result (λ said. IfSome said (SaysBy list.now.lines.items word.now)) }
    ensures none { IfOk result (λ said. IfNone said (SaysNothing list.now.lines.items word.now)) }
{
    let names = list.calendar_names(alloc)?;
    let names = CalendarNames::layered(alloc, names.as_slice())?;
    match names.meant(word.as_bytes()) {
        Some(meaning) => Ok(Some(meaning)),
        None => Ok(calendar_said(word)),
    }
}

/// Finds that a word says nothing of the calendar of dates.
#[tactic(auto, using(crate::proofs::StartLemmas::word_alone))]
fn check_word<'a>(alloc: Global, list: &NameList, word: &'a str) -> Result<(), ProgramFault<'a>>
    ensures { IfErr result (IsOfWords list.now.lines.items (word.now ∷ [])) }
{
    match calendar_by(alloc, list, word) {
        Ok(Some(_)) => Ok(()),
        Ok(None) => Err(ProgramFault::UnknownCalendar(word)),
        Err(_) => Err(ProgramFault::OutOfMemory),
    }
}

/// Finds the first of these words that says nothing of it.
fn check_words<'a>(
    alloc: Global,
    list: &NameList,
    words: &[&'a str],
) -> Result<(), ProgramFault<'a>>
    ensures { IfErr result (IsOfWords list.now.lines.items (map (λ word. word.now) words.now)) }
{
    'words: for &word in words {
        check_word(alloc, list, word)?;
    }
    Ok(())
}

/// Finds the first word of a job that is to say the calendar of dates, and says nothing by the names of a list.
///
/// # Errors
///
/// `UnknownCalendar` for that word, and `OutOfMemory`.
pub fn check_calendars<'a>(
    alloc: Global,
    list: &NameList,
    job: &Job<'a>,
) -> Result<(), ProgramFault<'a>>
    ensures { IfErr result (IsOfWords list.now.lines.items (calendar_words (task_of job.now).calendars)) }
{
    match &job.calendars {
        CalendarsAsked::Columns(_, Some(word)) => check_word(alloc, list, word),
        CalendarsAsked::Columns(_, None) => Ok(()),
        CalendarsAsked::All(words) => check_words(alloc, list, words.as_slice()),
    }
}
