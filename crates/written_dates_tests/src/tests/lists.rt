//! The lines of tables: names with what they mean, and by which calendar and choice texts are read.

use church_year::{Anchor, Feast, Season};
use date_texts::{Calendar, calendar_named};
use day_numbers::Weekday;
use std::alloc::{AllocError, Global};
use written_dates::{Calendars, Choice, Era, Mark, Meaning, Name, Order, Relation, Short, Word};

/// The number that a text is, or 0.
fn number_of(text: &str) -> u32 {
    match text.parse() {
        Ok(number) => number,
        Err(_) => 0,
    }
}

/// The same of numbers up to 255.
fn small_number(text: &str) -> u8 {
    (number_of(text) & 0xFF) as u8
}

/// The days from Easter that a text is, or 0.
fn days_of(text: &str) -> i16 {
    match text.parse() {
        Ok(days) => days,
        Err(_) => 0,
    }
}

fn weekday_of(number: u32) -> Weekday {
    match number {
        0 => Weekday::Sunday,
        1 => Weekday::Monday,
        2 => Weekday::Tuesday,
        3 => Weekday::Wednesday,
        4 => Weekday::Thursday,
        5 => Weekday::Friday,
        _ => Weekday::Saturday,
    }
}

/// What a word with two numbers that have a sign between them means.
fn twice_numbered(word: &str, numbers: &str) -> Option<Meaning> {
    let (first, second) = numbers.split_once(['-', '/'])?;
    let (first, second) = (small_number(first), small_number(second));
    match word {
        "months" => Some(Meaning::Months(first, second)),
        "part" => Some(Meaning::Part(first, second)),
        "feast" => Some(Meaning::Feast(Feast::Day(Anchor::Fixed(first, second), 0))),
        _ => None,
    }
}

/// What a word with a number, or with two, means.
fn numbered_meaning(text: &str) -> Option<Meaning> {
    let (word, numbers) = text.split_once(' ')?;
    match word {
        "month" => Some(Meaning::Month(small_number(numbers))),
        "weekday" => Some(Meaning::Weekday(weekday_of(number_of(numbers)))),
        "decade" => Some(Meaning::DecadeDay(small_number(numbers))),
        "century" => Some(Meaning::Century(small_number(numbers))),
        "easter" => Some(Meaning::Feast(Feast::Day(Anchor::Easter, days_of(numbers)))),
        _ => twice_numbered(word, numbers),
    }
}

/// What a word alone means; any other is a number.
fn word_meaning(text: &str) -> Meaning {
    match text {
        "" => Meaning::Nothing,
        "adar" => Meaning::Adar,
        "year" => Meaning::YearWord(Era::Calendar),
        "spanish" => Meaning::YearWord(Era::Spanish),
        "creation" => Meaning::YearWord(Era::Creation),
        "day" => Meaning::DayWord,
        "last day" => Meaning::LastDay,
        "decade" => Meaning::Decade,
        "K" => Meaning::Mark(Mark::Kalends),
        "N" => Meaning::Mark(Mark::Nones),
        "I" => Meaning::Mark(Mark::Ides),
        "sundays advent" => Meaning::Sundays(Season::Advent),
        "before" => Meaning::Relation(Relation::Before),
        "after" => Meaning::Relation(Relation::After),
        "eve" => Meaning::Relation(Relation::Eve),
        "morrow" => Meaning::Relation(Relation::Morrow),
        "octave" => Meaning::Relation(Relation::Octave),
        "undated" => Meaning::Word(Word::Undated),
        "about" => Meaning::Word(Word::About),
        "from" => Meaning::Word(Word::From),
        "to" => Meaning::Word(Word::To),
        "between" => Meaning::Word(Word::Between),
        "and" => Meaning::Word(Word::And),
        _ => Meaning::Number(number_of(text)),
    }
}

fn calendars_of(text: &str) -> Calendars {
    if text.is_empty() {
        return Calendars::ALL;
    }
    let mut calendars = Calendars::NONE;
    for word in text.split(' ') {
        if let Some(calendar) = calendar_named(word) {
            calendars = calendars.with(calendar);
        }
    }
    calendars
}

/// The name on a line.
fn name_on(line: &str) -> Option<Name<'_>> {
    let mut fields = line.split('|');
    let text = fields.next()?.as_bytes();
    let meaning = fields.next()?;
    let calendars = calendars_of(fields.next()?);
    Some(Name {
        text,
        meaning: numbered_meaning(meaning).unwrap_or(word_meaning(meaning)),
        calendars,
    })
}

/// The names of a list, with this sign between them.
pub(super) fn names_in(
    alloc: Global,
    list: &str,
    between: char,
) -> Result<Vec<Name<'_>>, AllocError> {
    let mut names = Vec::new(alloc);
    for line in list.split(between) {
        if let Some(name) = name_on(line) {
            names.push(name)?;
        }
    }
    Ok(names)
}

/// What is done with short years, by its name or a number to add.
fn short_named(text: &str) -> Short {
    match text {
        "refuse" => Short::Refuse,
        "keep" => Short::Keep,
        _ => match text.parse() {
            Ok(more) => Short::Add(more),
            Err(_) => Short::Refuse,
        },
    }
}

/// The calendar and the choice of a line behind its sign. Without a word of charters there are none.
pub(super) fn choice_on(line: &str) -> Option<(Option<Calendar>, Choice)> {
    let mut words = line.split(' ');
    let name = words.next()?;
    let calendar = calendar_named(name);
    let order = match words.next()? {
        "year" => Order::YearFirst,
        "day" => Order::DayFirst,
        _ => Order::MonthFirst,
    };
    let short_years = short_named(words.next()?);
    let short_hebrew_years = short_named(words.next()?);
    let charters = words.next().is_some_and(|word| word == "charters");
    let choice = Choice {
        order,
        short_years,
        short_hebrew_years,
        short_other_years: words.next().map(short_named).unwrap_or(Short::Refuse),
        charters,
    };
    Some((calendar, choice))
}
