//! What lists say of names. The texts are those in which the feasts of the church year are written down.

use church_year::{Anchor, Feast, Season};
use date_texts::Calendar;
use day_numbers::Weekday;
use sheets::{Means, NameList, NameListFault};
use std::alloc::Global;
use std::test::Fail;
use written_dates::{CalendarMeaning, Era, Meaning, Relation, Word};

/// A text, and what it says of a name.
const SAID: [(&str, Meaning); 31] = [
    ("year", Meaning::YearWord(Era::Calendar)),
    ("year spanish", Meaning::YearWord(Era::Spanish)),
    ("year creation", Meaning::YearWord(Era::Creation)),
    ("months 3-5", Meaning::Months(3, 5)),
    ("months 1-13", Meaning::Months(1, 13)),
    ("months 12-13", Meaning::Months(12, 13)),
    ("month 12-13", Meaning::Adar),
    ("century 0", Meaning::Century(0)),
    ("century 1", Meaning::Century(1)),
    ("part 1/2", Meaning::Part(1, 2)),
    ("part 4/4", Meaning::Part(4, 4)),
    ("last day", Meaning::LastDay),
    ("decade", Meaning::Decade),
    ("undated", Meaning::Word(Word::Undated)),
    ("weekday 0", Meaning::Weekday(Weekday::Sunday)),
    ("weekday 6", Meaning::Weekday(Weekday::Saturday)),
    ("decade 1", Meaning::DecadeDay(1)),
    ("decade 10", Meaning::DecadeDay(10)),
    ("after", Meaning::Relation(Relation::After)),
    ("octave", Meaning::Relation(Relation::Octave)),
    ("sundays lent", Meaning::Sundays(Season::Lent)),
    ("sundays advent", Meaning::Sundays(Season::Advent)),
    ("easter 0", Meaning::Feast(Feast::Day(Anchor::Easter, 0))),
    (
        "easter -63",
        Meaning::Feast(Feast::Day(Anchor::Easter, -63)),
    ),
    ("easter 60", Meaning::Feast(Feast::Day(Anchor::Easter, 60))),
    (
        "feast 9-29",
        Meaning::Feast(Feast::Day(Anchor::Fixed(9, 29), 0)),
    ),
    (
        "feast 12-6",
        Meaning::Feast(Feast::Day(Anchor::Fixed(12, 6), 0)),
    ),
    (
        "feast 3-1 -5",
        Meaning::Feast(Feast::Day(Anchor::Fixed(3, 1), -5)),
    ),
    (
        "sunday advent 3",
        Meaning::Feast(Feast::Sunday(Season::Advent, 3)),
    ),
    ("month 13", Meaning::Month(13)),
    ("31", Meaning::Number(31)),
];

/// Texts that say nothing.
const NOT_SAID: [&str; 48] = [
    "years",
    "year calendar",
    "year  spanish",
    "year Spanish",
    "months",
    "months 3",
    "months 3-3",
    "months 5-3",
    "months 0-3",
    "months 3-14",
    "months 13-14",
    "months 03-5",
    "months 3 - 5",
    "months 3-5-7",
    "month 3-5",
    "century",
    "century 2",
    "century 00",
    "undated 0",
    "part",
    "part 1",
    "part 1/1",
    "part 0/3",
    "part 4/3",
    "part 1/5",
    "part 1-3",
    "part 01/3",
    "last",
    "both styles",
    "weekday 7",
    "weekday",
    "decade 0",
    "decade 11",
    "easter",
    "easter 00",
    "easter -0",
    "easter +1",
    "feast 9-29 0",
    "feast 13-1",
    "feast 9-32",
    "feast 09-29",
    "sunday advent 0",
    "sundays advent 1",
    "julian/gregorian",
    "julian/gregorian:",
    "julian/gregorian:1582-02-30",
    "julian/gregorian:15.10.1582",
    "gregorian/julian:1582-10-15",
];

/// A text, and what it says of the calendar of dates. The day is that of Python's `datetime`.
const CALENDARS_SAID: [(&str, CalendarMeaning); 4] = [
    ("julian", CalendarMeaning::One(Calendar::Julian)),
    ("both", CalendarMeaning::Both),
    (
        "julian/gregorian:1582-10-15",
        CalendarMeaning::Changed(577_736),
    ),
    (
        "julian/gregorian:1752-9-14",
        CalendarMeaning::Changed(639_797),
    ),
];

/// The list of one name that means this.
fn list_of(alloc: Global, means: &str) -> Result<Result<NameList, NameListFault>, Fail> {
    let text = format!(in alloc; "name,means,in\nx,{means},\n")?;
    Ok(NameList::read(alloc, text.as_bytes()))
}

#[test]
fn meanings_are_said(rt: HostRuntime) -> Result<(), Fail> {
    for (text, meaning) in SAID {
        let list = list_of(rt.alloc(), text)?;
        assert!(rt;
            list.is_ok_and(|list| list
                .lines
                .first()
                .is_some_and(|line| line.means == Means::InDates(meaning)))
        );
    }
    Ok(())
}

#[test]
fn calendars_are_said(rt: HostRuntime) -> Result<(), Fail> {
    for (text, meaning) in CALENDARS_SAID {
        let list = list_of(rt.alloc(), text)?;
        assert!(rt;
            list.is_ok_and(|list| list
                .lines
                .first()
                .is_some_and(|line| line.means == Means::Calendar(meaning)))
        );
    }
    Ok(())
}

#[test]
fn other_texts_say_nothing(rt: HostRuntime) -> Result<(), Fail> {
    for text in NOT_SAID {
        let list = list_of(rt.alloc(), text)?;
        assert!(rt; list.is_err_and(|fault| fault == NameListFault::Means(1)));
    }
    Ok(())
}
