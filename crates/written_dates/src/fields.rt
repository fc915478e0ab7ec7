//! The field that names a record's calendar.

ghost use Rattle.std.specs.Prelude.{◌≡◌, map, IfOk};
ghost use Rattle.std.specs.List.{list_any};
ghost use Rattle.written_dates.specs.Fields.{without_blanks as without_spec, bare_name, entry, entries};
ghost use Rattle.written_dates.specs.Fields.{calendar_meant, calendar_of, meant_by as meant_spec};
ghost use Rattle.written_dates.specs.Fields.{written_calendar};
ghost use Rattle.written_dates.specs.private.SignViews.{may_be_blank as may_be_blank_spec};

use crate::keyed_names::KeyedNames;
use crate::names::key_of_word;
use crate::signs::{bare, is_blank, may_be_blank};
use crate::tokens::next_token;
use crate::words::is_same_word;
use date_texts::Calendar;
use std::alloc::{AllocError, Global};

/// What a name in the field of a calendar means.
#[derive(Clone, Copy, PartialEq, Eq)]
pub enum CalendarMeaning {
    /// This calendar.
    One(Calendar),
    /// Both styles: a date has the Julian day before a slash, and the Gregorian one behind it.
    Both,
    /// The Julian calendar before the day with this number, and the Gregorian one from it on.
    Changed(i64),
}

impl CalendarMeaning {
    /// The calendar of dates in it; of those in both styles, and at a change of calendars, the Gregorian one.
    pub fn calendar(self) -> Calendar
        ensures { result ≡ calendar_of self }
    {
        match self {
            CalendarMeaning::One(calendar) => calendar,
            CalendarMeaning::Both | CalendarMeaning::Changed(_) => Calendar::Gregorian,
        }
    }
}

/// A name in the field of a calendar.
#[derive(Clone, Copy)]
pub struct CalendarName<'a> {
    /// The name: any text. Blanks at its ends do not matter.
    pub text: &'a [u8],
    /// What it means.
    pub meaning: CalendarMeaning,
}

/// Names in the fields of calendars.
#[derive(Drop)]
pub struct CalendarNames<'a> {
    bare: KeyedNames<'a>,
}

/// Whether a byte stands in a text that may be of a blank.
fn may_have_blank(text: &[u8]) -> bool
    ensures { result ≡ list_any may_be_blank_spec text.now }
{
    text.iter().any(|byte| may_be_blank(*byte))
}

/// A text without the blanks at its ends.
pub fn without_blanks(text: &[u8]) -> &[u8]
    ensures { result.now ≡ without_spec text.now }
{
    if !may_have_blank(text) {
        return text;
    }
    let front = bare(text);
    let mut rest = front;
    let mut place = 0;
    let mut end = 0;
    'tokens: while let Some((token, after)) = next_token(rest) {
        place += token.text.len();
        if !is_blank(token.kind) {
            end = place;
        }
        rest = after;
    }
    let (kept, _) = front.split_at(end);
    kept
}

/// What the first of these names means which a text is.
fn meant_by(names: &KeyedNames, text: &[u8]) -> Option<CalendarMeaning>
    ensures { result ≡ meant_spec (map entry names.now.names.items) text.now }
{
    let listed = names.as_slice();
    let mut place = names.first_with(key_of_word(text));
    'names: while place < listed.len() {
        let name = &listed[place];
        if is_same_word(name.text, text) {
            return Some(name.meaning);
        }
        place = names.next_behind(place);
    }
    None
}

impl<'a> CalendarNames<'a> {
    /// The names of a list. Of those that are the same the first holds.
    pub fn layered(
        alloc: Global,
        listed: &[CalendarName<'a>],
    ) -> Result<CalendarNames<'a>, AllocError>
        ensures { IfOk result (λ names. entries names ≡ map bare_name listed.now) }
    {
        let mut bare = Vec::new(alloc);
        'names: for name in listed {
            bare.push(CalendarName {
                text: without_blanks(name.text),
                meaning: name.meaning,
            })?;
        }
        Ok(CalendarNames {
            bare: KeyedNames::new(alloc, bare)?,
        })
    }

    /// What a field means; `None` where it is none of the names.
    pub fn meant(&self, field: &[u8]) -> Option<CalendarMeaning>
        ensures { result ≡ calendar_meant (entries self.now) field.now }
    {
        meant_by(&self.bare, without_blanks(field))
    }

    /// What a register gets for a field: the calendar's name, or the field as it is where it is none of the names.
    pub fn written<'b>(&self, field: &'b [u8]) -> &'b [u8]
        ensures { result.now ≡ written_calendar (entries self.now) field.now }
    {
        match self.meant(field) {
            Some(meaning) => meaning.calendar().name().as_bytes(),
            None => field,
        }
    }
}
