//! The calendars and the targets of a table.

use crate::named::Named;
use crate::options::setup_of;
use date_texts::{Calendar, Target, cell, day_of_date, read_date};
use day_numbers::Day;
use serde::Serialize;
use std::alloc::{AllocError, Global};
use std::io;

/// The first day of a calendar, by its number, and by the calendars in which documents name it.
#[derive(Drop, Serialize)]
pub struct FirstDay {
    rd: i64,
    gregorian: String,
    julian: String,
}

/// A calendar: its name, how its dates are written, its date on 12 November 1945, its first day, and the year before
/// its year 1, where it has them.
#[derive(Drop, Serialize)]
pub struct CalendarFacts {
    name: &'static str,
    grammar: &'static str,
    example: String,
    first_day: Option<FirstDay>,
    year_before_1: Option<i8>,
}

/// 12 November 1945, whose dates stand as examples.
const EXAMPLE: i64 = 710_347;

/// A date in each way to write one, and its name.
const GRAMMARS: [(&str, &str); 4] = [
    ("1-1-1", "year-month-day"),
    ("1-W1-1", "year-week-weekday"),
    ("1.1.1.1.1", "long count"),
    ("1-1-K1", "year-month-name"),
];

/// How the dates of a calendar are written.
fn grammar_of(calendar: Calendar) -> &'static str {
    for (text, name) in GRAMMARS {
        if read_date(calendar, text).is_ok() {
            return name;
        }
    }
    "unknown"
}

/// The date that a calendar has on a day, empty where it has none.
fn date_on(alloc: Global, calendar: Calendar, number: i64) -> Result<String, AllocError> {
    match Day::new(number) {
        Some(day) => String::from_str(alloc, cell(Target::Date(calendar), day).as_str()),
        None => Ok(String::new(alloc)),
    }
}

/// Whether a calendar has a date on a day.
fn has_date(calendar: Calendar, number: i64) -> bool {
    Day::new(number).is_some_and(|day| !cell(Target::Date(calendar), day).as_str().is_empty())
}

/// The first day of a calendar, or `None` where it has a date on the first of all days.
fn first_day(alloc: Global, calendar: Calendar) -> Result<Option<FirstDay>, AllocError> {
    let (mut without, mut with) = (Day::MIN_NUMBER, Day::MAX_NUMBER);
    if has_date(calendar, without) {
        return Ok(None);
    }
    for _ in 0..24 {
        let middle = without.midpoint(with);
        if has_date(calendar, middle) {
            with = middle;
        } else {
            without = middle;
        }
    }
    Ok(Some(FirstDay {
        rd: with,
        gregorian: date_on(alloc, Calendar::Gregorian, with)?,
        julian: date_on(alloc, Calendar::Julian, with)?,
    }))
}

/// Whether a calendar has this date.
fn is_date(calendar: Calendar, text: &str) -> bool {
    match read_date(calendar, text) {
        Ok(date) => day_of_date(&date).is_ok(),
        Err(_) => false,
    }
}

/// The year before year 1 of a calendar, which has the date of the example too, or `None` where it has none.
fn year_before_1(
    alloc: Global,
    calendar: Calendar,
    example: &str,
) -> Result<Option<i8>, AllocError> {
    let Some((_, rest)) = example.split_once('-') else {
        return Ok(None);
    };
    for (year, begin) in [(0, "0-"), (-1, "-1-")] {
        let text = [begin, rest].concat(alloc)?;
        if is_date(calendar, text.as_str()) {
            return Ok(Some(year));
        }
    }
    Ok(None)
}

/// What is known of each calendar, in their order.
pub fn calendar_facts(alloc: Global) -> Result<Vec<CalendarFacts>, AllocError> {
    let mut all = Vec::new(alloc);
    for calendar in Calendar::ALL {
        let example = date_on(alloc, calendar, EXAMPLE)?;
        let year_before_1 = year_before_1(alloc, calendar, example.as_str())?;
        all.push(CalendarFacts {
            name: calendar.name(),
            grammar: grammar_of(calendar),
            example,
            first_day: first_day(alloc, calendar)?,
            year_before_1,
        })?;
    }
    Ok(all)
}

/// The names of targets, in their order.
pub fn names_of(alloc: Global, targets: &[Target]) -> Result<Vec<&'static str>, AllocError> {
    let mut names = Vec::new(alloc);
    for target in targets {
        names.push(target.name())?;
    }
    Ok(names)
}

/// The names of the targets without `--to`, as the arguments are read, and of all.
pub fn target_facts(alloc: Global) -> io::Result<Named<Vec<&'static str>>> {
    let setup = setup_of(alloc, &[])?;
    let default = names_of(alloc, setup.targets())?;
    let all = names_of(alloc, &Target::ALL)?;
    let targets = [("default", default), ("all", all)];
    Ok(Named(Vec::from_array(alloc, targets)?))
}
