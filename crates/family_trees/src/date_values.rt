//! What the values of dates say: their calendars, and their texts without the marks of these.

ghost use Rattle.std.specs.Prelude.{◌≡◌, ◌≤◌, ◌+◌, ◌++◌, IfOk, MatchOption, drop, false, length, map, take, true};
ghost use Rattle.family_trees.specs.DateValues.{begins_with, behind as behind_spec, dated, dated_by, has, marked, marks};
ghost use Rattle.family_trees.specs.DateValues.{one_dated, place_of, together, words};
ghost use Rattle.family_trees.specs.private.DateViews.{pair_seen, value_seen};
ghost use Rattle.family_trees.specs.TextViews.{text_seen};

use crate::lines::unindented;
use crate::values::Text;
use std::alloc::{AllocError, Global};

/// A mark of a calendar, and the calendar's name.
type CalendarMark = (&'static [u8], &'static [u8]);

/// The word before the first of two dates, and that before the second.
type WordPair = (&'static [u8], &'static [u8]);

/// The calendar of a date, and its text.
#[derive(Drop)]
pub(crate) struct DateValue<'a> {
    pub calendar: &'static [u8],
    pub text: Text<'a>,
}

/// The calendar of a date by these marks, and its text.
#[tactic(auto, using(crate::proofs::MarkLemmas::next_pair))]
fn marked_by<'a>(marks: &[CalendarMark], date: &'a [u8]) -> (&'static [u8], &'a [u8])
    ensures { pair_seen result ≡ marked (map pair_seen marks.now) date.now }
{
    let bare = unindented(date);
    'marks: for (mark, calendar) in marks {
        if let Some(text) = bare.strip_prefix(*mark) {
            return (*calendar, unindented(text));
        }
    }
    (b"gregorian", date)
}

/// The calendar of a date, and its text.
fn marked(date: &[u8]) -> (&'static [u8], &[u8])
    ensures { pair_seen result ≡ marked marks date.now }
{
    let marks: [CalendarMark; 8] = [
        (b"@#DGREGORIAN@", b"gregorian"),
        (b"@#DJULIAN@", b"julian"),
        (b"@#DHEBREW@", b"hebrew"),
        (b"@#DFRENCH R@", b"republican"),
        (b"GREGORIAN ", b"gregorian"),
        (b"JULIAN ", b"julian"),
        (b"HEBREW ", b"hebrew"),
        (b"FRENCH_R ", b"republican"),
    ];
    marked_by(&marks, date)
}

/// What stands behind a part of a text, where the part stands at this place.
fn behind_part<'a>(text: &'a [u8], place: usize, part: &[u8]) -> Option<&'a [u8]>
    requires { place ≤ length text.now }
    ensures { MatchOption result (begins_with part.now (drop place text.now) ≡ false)
        (λ behind. (begins_with part.now (drop place text.now) ≡ true)
        × (behind.now ≡ drop (length part.now) (drop place text.now))) }
{
    let from_here = &text[place..];
    from_here.strip_prefix(part)
}

/// What stands before and behind the first place where a text has this part.
fn parts_round<'a>(text: &'a [u8], part: &[u8]) -> Option<(&'a [u8], &'a [u8])>
    ensures { MatchOption result (has part.now text.now ≡ false) (λ round. (has part.now text.now ≡ true)
        × (round.0.now ≡ take (place_of part.now text.now) text.now)
        × (round.1.now ≡ drop (place_of part.now text.now + length part.now) text.now)) }
{
    let mut place = 0;
    'places: while place < text.len() {
        if let Some(behind) = behind_part(text, place, part) {
            return Some((&text[..place], behind));
        }
        place += 1;
    }
    None
}

/// A text of a word and a date.
fn joined<'a>(alloc: Global, word: &[u8], date: &[u8]) -> Result<Vec<u8>, AllocError>
    ensures { IfOk result (λ text. text.items ≡ word.now ++ date.now) }
{
    let mut text = Vec::new(alloc);
    text.extend_from_slice(word)?;
    text.extend_from_slice(date)?;
    Ok(text)
}

/// A date behind one of these words, or none.
#[tactic(auto, using(crate::proofs::MarkLemmas::next_word))]
fn one_dated<'a>(
    alloc: Global,
    words: &[&'static [u8]],
    value: &'a [u8],
) -> Result<DateValue<'a>, AllocError>
    ensures { IfOk result (λ it. value_seen it ≡ one_dated (map (λ word. word.now) words.now) value.now) }
{
    'words: for word in words {
        if let Some(date) = value.strip_prefix(*word) {
            let (calendar, date) = marked(date);
            let text = joined(alloc, word, date)?;
            return Ok(DateValue {
                calendar,
                text: Text::Joined(text),
            });
        }
    }
    let (calendar, text) = marked(value);
    Ok(DateValue {
        calendar,
        text: Text::Part(text),
    })
}

/// A date behind a word, or none.
fn of_one<'a>(alloc: Global, value: &'a [u8]) -> Result<DateValue<'a>, AllocError>
    ensures { IfOk result (λ it. value_seen it ≡ one_dated words value.now) }
{
    let words: [&'static [u8]; 8] = [
        b"ABT ", b"CAL ", b"EST ", b"BEF ", b"AFT ", b"FROM ", b"TO ", b"INT ",
    ];
    one_dated(alloc, &words, value)
}

/// A word and the date behind it.
type DateBehind<'a> = (&'static [u8], &'a [u8]);

/// Two dates with the words before them, where both have the same calendar; else the value as it stands.
fn together<'a>(
    alloc: Global,
    value: &'a [u8],
    first: DateBehind,
    second: DateBehind,
) -> Result<DateValue<'a>, AllocError>
    ensures { IfOk result (λ it. value_seen it ≡ together value.now
        (behind_spec first.entry.0.now (marked marks first.entry.1.now))
        (behind_spec second.entry.0.now (marked marks second.entry.1.now))) }
{
    let (calendar, first_date) = marked(first.1);
    let (other, second_date) = marked(second.1);
    if calendar == other {
        let mut text = joined(alloc, first.0, first_date)?;
        text.extend_from_slice(second.0)?;
        text.extend_from_slice(second_date)?;
        return Ok(DateValue {
            calendar,
            text: Text::Joined(text),
        });
    }
    Ok(DateValue {
        calendar: b"gregorian",
        text: Text::Part(value),
    })
}

/// A value of two dates where it has two such words, else of one.
#[tactic(auto, using(crate::proofs::MarkLemmas::next_pair))]
fn dated_by<'a>(
    alloc: Global,
    pairs: &[WordPair],
    value: &'a [u8],
) -> Result<DateValue<'a>, AllocError>
    ensures { IfOk result (λ it. value_seen it ≡ dated_by (map pair_seen pairs.now) value.now) }
{
    'pairs: for (word, second_word) in pairs {
        if let Some(dates) = value.strip_prefix(*word) {
            if let Some((first, second)) = parts_round(dates, second_word) {
                return together(alloc, value, (word, first), (second_word, second));
            }
        }
    }
    of_one(alloc, value)
}

/// The calendar of a date's value, and its text without marks.
#[tactic(auto, unfolding(crate::specs::DateValues::dated))]
pub(crate) fn dated<'a>(alloc: Global, value: &'a [u8]) -> Result<DateValue<'a>, AllocError>
    ensures calendar { IfOk result (λ it. it.calendar.now ≡ (dated value.now).0) }
    ensures text { IfOk result (λ it. text_seen it.text ≡ (dated value.now).1) }
{
    let pairs: [WordPair; 2] = [(b"BET ", b" AND "), (b"FROM ", b" TO ")];
    dated_by(alloc, &pairs, value)
}
