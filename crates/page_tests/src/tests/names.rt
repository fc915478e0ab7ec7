//! Lists of names.

use date_texts::Calendar;
use sheets::{Means, NameLine, NameList, NameListFault};
use std::alloc::Global;
use written_dates::{CalendarMeaning, Calendars, Mark, Meaning};

const LIST: &str = "name,means,in,how often
März,month 3,gregorian julian
\"a. St.\", Julian ,,5
dem,,
Ianuarias,month 1,roman
Nonis,N,roman
pridie,2,roman
Ostern,?,,12
";

/// Whether a line has this name, says this of it, and holds in these calendars.
fn says(line: &NameLine, name: &str, means: Means, calendars: &[Calendar]) -> bool {
    let mut held = Calendars::NONE;
    for calendar in calendars {
        held = held.with(*calendar);
    }
    line.text.as_slice() == name.as_bytes() && line.means == means && line.calendars == held
}

/// What the lines of the list say.
static LINES: [(&str, Means, &[Calendar]); 7] = [
    (
        "März",
        Means::InDates(Meaning::Month(3)),
        &[Calendar::Gregorian, Calendar::Julian],
    ),
    (
        "a. St.",
        Means::Calendar(CalendarMeaning::One(Calendar::Julian)),
        &Calendar::ALL,
    ),
    ("dem", Means::InDates(Meaning::Nothing), &Calendar::ALL),
    (
        "Ianuarias",
        Means::InDates(Meaning::Month(1)),
        &[Calendar::Roman],
    ),
    (
        "Nonis",
        Means::InDates(Meaning::Mark(Mark::Nones)),
        &[Calendar::Roman],
    ),
    (
        "pridie",
        Means::InDates(Meaning::Number(2)),
        &[Calendar::Roman],
    ),
    ("Ostern", Means::Open, &Calendar::ALL),
];

/// How many lines of a list say what they should, up to the first that does not.
fn right_lines(lines: &[NameLine]) -> usize {
    let mut right = 0usize;
    for (line, (name, means, calendars)) in lines.iter().zip(&LINES) {
        if !says(line, name, *means, calendars) {
            break;
        }
        right = right.saturating_add(1);
    }
    right
}

/// Whether a list has so many names in dates and of calendars.
fn has_names(alloc: Global, list: &NameList, in_dates: usize, of_calendars: usize) -> bool {
    let (Ok(names), Ok(calendar_names)) = (list.names(alloc), list.calendar_names(alloc)) else {
        return false;
    };
    names.len() == in_dates && calendar_names.len() == of_calendars
}

/// Whether the list says what it should.
fn is_right(alloc: Global) -> bool {
    match NameList::read(alloc, LIST.as_bytes()) {
        Ok(list) => {
            list.lines.len() == LINES.len()
                && right_lines(list.lines.as_slice()) == LINES.len()
                && has_names(alloc, &list, 5, 1)
        }
        Err(_) => false,
    }
}

/// Texts that are no list, and why.
static REFUSED: [(&str, NameListFault); 13] = [
    ("", NameListFault::Header),
    ("name;means;in\n", NameListFault::Header),
    (
        "name,means,in\na,month 13,\nb,month 14,\n",
        NameListFault::Means(2),
    ),
    ("name,means,in\na,month 01,\n", NameListFault::Means(1)),
    ("name,means,in\na,1000000000,\n", NameListFault::Means(1)),
    ("name,means,in\na,01,\n", NameListFault::Means(1)),
    ("name,means,in\na,k,\n", NameListFault::Means(1)),
    ("name,means,in\na,haab,\n", NameListFault::Means(1)),
    (
        "name,means,in\na,month 1,julian  roman\n",
        NameListFault::In(1),
    ),
    ("name,means,in\na,month 1,tzolkin\n", NameListFault::In(1)),
    (
        "name,means,in\na.St.(,julian,\nMai(,month 6,\n",
        NameListFault::Name(2),
    ),
    ("name,means,in\n.,month 6,\n", NameListFault::Name(1)),
    ("name,means,in\n(,?,\n,,\n", NameListFault::Name(2)),
];

/// Whether a text is no list for this reason.
fn is_refused(alloc: Global, text: &str, fault: NameListFault) -> bool {
    NameList::read(alloc, text.as_bytes()).err() == Some(fault)
}

#[test]
fn a_list_says_what_names_mean(rt: HostRuntime) {
    assert!(rt; is_right(rt.alloc()));
    for (text, fault) in &REFUSED {
        assert!(rt; is_refused(rt.alloc(), text, *fault), "{text:?}");
    }
}
