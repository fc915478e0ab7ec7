//! Names and what they mean.

use church_year::{Anchor, Feast, Season};
use date_texts::calendar_named;
use day_numbers::Weekday;
use std::alloc::{AllocError, Global};
use written_dates::{Calendars, Era, Meaning, Name, Relation, Word};

/// The number that a text is, or 0.
fn number_of(text: &str) -> u32 {
    match text.parse() {
        Ok(number) => number,
        Err(_) => 0,
    }
}

fn weekday_of(number: u32) -> Weekday {
    match number {
        1 => Weekday::Monday,
        2 => Weekday::Tuesday,
        3 => Weekday::Wednesday,
        4 => Weekday::Thursday,
        5 => Weekday::Friday,
        6 => Weekday::Saturday,
        _ => Weekday::Sunday,
    }
}

fn word_meaning(text: &str) -> Option<Meaning> {
    match text {
        "" => Some(Meaning::Nothing),
        "month 12-13" => Some(Meaning::Adar),
        "year" => Some(Meaning::YearWord(Era::Calendar)),
        "year spanish" => Some(Meaning::YearWord(Era::Spanish)),
        "year creation" => Some(Meaning::YearWord(Era::Creation)),
        "day" => Some(Meaning::DayWord),
        "last day" => Some(Meaning::LastDay),
        "decade" => Some(Meaning::Decade),
        "before" => Some(Meaning::Relation(Relation::Before)),
        "after" => Some(Meaning::Relation(Relation::After)),
        "about" => Some(Meaning::Word(Word::About)),
        "from" => Some(Meaning::Word(Word::From)),
        "to" => Some(Meaning::Word(Word::To)),
        "between" => Some(Meaning::Word(Word::Between)),
        "and" => Some(Meaning::Word(Word::And)),
        "undated" => Some(Meaning::Word(Word::Undated)),
        _ => None,
    }
}

/// The number that a text is, of one byte.
fn small_number(text: &str) -> u8 {
    (number_of(text) & 0xFF) as u8
}

/// The days, or days before, that a text is, or 0.
fn days_of(text: &str) -> i16 {
    match text.parse::<i16>() {
        Ok(days) => days,
        Err(_) => 0,
    }
}

fn season_of(text: &str) -> Option<Season> {
    match text {
        "epiphany" => Some(Season::Epiphany),
        "lent" => Some(Season::Lent),
        "easter" => Some(Season::Easter),
        "pentecost" => Some(Season::Pentecost),
        "trinity" => Some(Season::Trinity),
        "advent" => Some(Season::Advent),
        _ => None,
    }
}

/// A feast of a month, as `9-29`, or so many days from one, as `3-1 -5`.
fn feast_of_month(text: &str) -> Option<Feast> {
    let (date, days) = match text.split_once(' ') {
        Some((date, days)) => (date, days_of(days)),
        None => (text, 0),
    };
    let (month, day) = date.split_once('-')?;
    let anchor = Anchor::Fixed(small_number(month), small_number(day));
    Some(Feast::Day(anchor, days))
}

fn feast_of(text: &str) -> Option<Feast> {
    if let Some(days) = text.strip_prefix("easter ") {
        return Some(Feast::Day(Anchor::Easter, days_of(days)));
    }
    if let Some(rest) = text.strip_prefix("feast ") {
        return feast_of_month(rest);
    }
    let (season, number) = text.strip_prefix("sunday ")?.split_once(' ')?;
    Some(Feast::Sunday(season_of(season)?, small_number(number)))
}

fn sundays_of(text: &str) -> Option<Season> {
    season_of(text.strip_prefix("sundays ")?)
}

/// A part of a year, as `months 3-5`, of a year or a century, as `part 1/3`, or a century, as `century 0`.
fn part_of(text: &str) -> Option<Meaning> {
    if let Some(months) = text.strip_prefix("months ") {
        let (first, last) = months.split_once('-')?;
        return Some(Meaning::Months(small_number(first), small_number(last)));
    }
    if let Some(part) = text.strip_prefix("part ") {
        let (place, parts) = part.split_once('/')?;
        return Some(Meaning::Part(small_number(place), small_number(parts)));
    }
    let first = text.strip_prefix("century ")?;
    Some(Meaning::Century(small_number(first)))
}

fn meaning_of(text: &str) -> Meaning {
    if let Some(meaning) = word_meaning(text) {
        return meaning;
    }
    if let Some(feast) = feast_of(text) {
        return Meaning::Feast(feast);
    }
    if let Some(season) = sundays_of(text) {
        return Meaning::Sundays(season);
    }
    if let Some(part) = part_of(text) {
        return part;
    }
    if let Some(number) = text.strip_prefix("month ") {
        return Meaning::Month(small_number(number));
    }
    if let Some(number) = text.strip_prefix("weekday ") {
        return Meaning::Weekday(weekday_of(number_of(number)));
    }
    Meaning::Number(number_of(text))
}

fn calendars_of(text: &str) -> Calendars {
    if text.is_empty() {
        return Calendars::ALL;
    }
    let mut calendars = Calendars::NONE;
    for word in text.split(' ') {
        if let Some(calendar) = calendar_named(word) {
            calendars = calendars.with(calendar);
        }
    }
    calendars
}

/// The name on a line.
fn name_on(line: &str) -> Option<Name<'_>> {
    let mut fields = line.split('|');
    let text = fields.next()?.as_bytes();
    let meaning = meaning_of(fields.next()?);
    let calendars = calendars_of(fields.next()?);
    Some(Name {
        text,
        meaning,
        calendars,
    })
}

/// The names on the lines up to an empty one.
pub fn names_in(alloc: Global, lines: &[String]) -> Result<Vec<Name<'_>>, AllocError> {
    let mut names = Vec::new(alloc);
    for line in lines {
        if line.is_empty() {
            return Ok(names);
        }
        if let Some(name) = name_on(line.as_str()) {
            names.push(name)?;
        }
    }
    Ok(names)
}
