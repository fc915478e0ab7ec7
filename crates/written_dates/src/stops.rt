//! Why a date as people write it is not read.

ghost use Rattle.std.specs.Prelude.{◌≡◌};
ghost use Rattle.written_dates.specs.Stops.{stop as stop_spec, stop_by as by_spec, stop_in as stop_in_spec, beside};
ghost use Rattle.written_dates.specs.Stops.{without_time as without_spec};
ghost use Rattle.written_dates.specs.Stops.{missing as missing_spec, missing_in as missing_in_spec};
ghost use Rattle.written_dates.specs.Sums.{found_items};

use crate::items::{Item, is_long, items_of};
use crate::names::Names;
use crate::rules::beside_weekday;
use crate::signs::{begins_with_dash, signs_of};
use crate::written::{Answer, Choice, answer_of, before_time};
use date_texts::Calendar;

/// Why a date as people write it is not read.
#[derive(Clone, Copy, PartialEq, Eq, Debug)]
pub enum Stop {
    /// A character stands in it that no date has.
    Character,
    /// A dash is in front, or before a digit behind a blank or a sign: it may be a minus.
    Minus,
    /// A weekday, or a day of the decade, stands in it that is not that of the date.
    OtherWeekday,
    /// Its year is short, and such years are refused.
    ShortYear,
    /// It has a year, alone or with a month, and no day.
    NoDay,
    /// It has a month and a day, and no year.
    NoYear,
    /// Its year is over 99, which the French Republic did not have.
    NoSuchYear,
    /// Its words and numbers are no date otherwise, or one that its calendar or its year does not have.
    NoDate,
}

/// What is missing in items that say no date.
fn missing(items: &[Item]) -> Stop
    ensures { result ≡ missing_spec items.now }
{
    match items {
        [Item::Month(_), Item::Number(n)] | [Item::Number(n), Item::Month(_)] => {
            if is_long(*n) {
                Stop::NoDay
            } else {
                Stop::NoYear
            }
        }
        [Item::Number(n)] if is_long(*n) => Stop::NoDay,
        _ => Stop::NoDate,
    }
}

/// What is missing in a text that says no date.
fn missing_in(text: &[u8], names: &Names, calendar: Calendar) -> Stop
    ensures { result ≡ missing_in_spec (found_items calendar names.now.listed.now text.now) }
{
    match items_of::<5>(text, names, calendar) {
        Some(found) => missing(beside_weekday(found.as_slice())),
        None => Stop::NoDate,
    }
}

/// Why no date is read of a text for which this is found, without a character or a minus that stops it.
fn stop_by(text: &[u8], names: &Names, calendar: Calendar, answer: Answer) -> Option<Stop>
    ensures { result ≡ by_spec (missing_in_spec (found_items calendar names.now.listed.now text.now)) answer }
{
    match answer {
        Answer::Stays => Some(missing_in(text, names, calendar)),
        Answer::NoSuchYear => Some(Stop::NoSuchYear),
        Answer::OtherWeekday(_, _, _) => Some(Stop::OtherWeekday),
        Answer::Refused => Some(Stop::ShortYear),
        _ => None,
    }
}

/// A text without a time of day at its end.
fn without_time<'a>(text: &'a [u8], calendar: Calendar, names: &Names, choice: &Choice) -> &'a [u8]
    ensures { result.now ≡ without_spec choice.now calendar names.now.listed.now text.now }
{
    match before_time(choice, calendar, names, text) {
        Some(before) => before,
        None => text,
    }
}

/// Why no date is read of a text without a time of day, which is none that registers have.
#[tactic(auto, unfolding(crate::specs::Stops::stop_in))]
fn stop_in(text: &[u8], calendar: Calendar, names: &Names, choice: &Choice) -> Option<Stop>
    ensures { result ≡ stop_in_spec choice.now calendar names.now.listed.now text.now }
{
    let (other, minus) = signs_of(text);
    if other {
        return Some(Stop::Character);
    }
    if minus || begins_with_dash(text) {
        return Some(Stop::Minus);
    }
    stop_by(
        text,
        names,
        calendar,
        answer_of(choice, calendar, names, text),
    )
}

/// Why no date is read of a text, which is none that registers have.
#[tactic(auto, unfolding(crate::specs::Stops::stop))]
pub fn stop_of(text: &[u8], calendar: Calendar, names: &Names, choice: &Choice) -> Option<Stop>
    ensures { result ≡ stop_spec choice.now calendar names.now.listed.now text.now }
{
    stop_in(
        without_time(text, calendar, names, choice),
        calendar,
        names,
        choice,
    )
}

/// The year, the month and the day that a text says beside a weekday which is not theirs. The calendar may not have them.
pub fn date_beside_weekday(
    text: &[u8],
    calendar: Calendar,
    names: &Names,
    choice: &Choice,
) -> Option<(u64, u32, u32)>
    ensures { result ≡ beside choice.now calendar names.now.listed.now text.now }
{
    let text = without_time(text, calendar, names, choice);
    match answer_of(choice, calendar, names, text) {
        Answer::OtherWeekday(year, month, day) => Some((year, month, day)),
        _ => None,
    }
}
