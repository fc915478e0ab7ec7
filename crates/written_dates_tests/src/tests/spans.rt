//! Texts, and the first and the last day that each can mean, by a table.

use super::lists::{choice_on, names_in};
use super::span_table::SPANS;
use date_spans::{Kind, Marks, Numbers, date_in_both, write_in_both, write_span};
use date_texts::Calendar;
use std::alloc::Global;
use std::test::Fail;
use written_dates::{Choice, Names, Order, Short};

/// Names: a text, what it means, and the calendars in which it does, none for all.
const NAMES: &str = "\
Januar|month 1|gregorian julian
Feb|month 2|gregorian julian
Februar|month 2|gregorian julian
März|month 3|gregorian julian
April|month 4|gregorian julian
Mai|month 5|gregorian julian
May|month 5|gregorian julian
Juni|month 6|gregorian julian
stycznia|month 1|gregorian julian
Ventôse|month 6|republican french
jours complémentaires|month 13|republican
Tischri|month 7|hebrew
Adar I|month 12|hebrew
Adar II|month 13|hebrew
Ramadan|month 9|islamic
Nasie|month 13|coptic
vor|before|
avant|before|
BEF|before|
nach|after|
AFT|after|
ca|about|
um|about|
circa|about|
ABT|about|
von|from|
seit|from|
FROM|from|
zwischen|between|
zw|between|
BET|between|
bis|to|
TO|to|
und|and|
u|and|
AND|and|
an|year|republican french
Jahr|year|
era|spanish|julian
mundi|creation|julian
September|month 9|gregorian julian
Frühjahr|months 3-5|
Herbst|months 9-11|
Sommerhalbjahr|months 4-9|
Jh|century 1|
saec|century 0|
s|decade|
o D|undated|
Anfang|part 1/3|
Mitte|part 2/3|
Ende|part 3/3|
1 Hälfte|part 1/2|
4 Viertel|part 4/4|
Ultimo|last day|
im||
den||
Adar|adar|hebrew
Nissan|month 1|hebrew
Meskerem|month 1|ethiopic
Pagumen|month 13|ethiopic
Sonntag|weekday 0|
Montag|weekday 1|
Dienstag|weekday 2|
Mittwoch|weekday 3|
Tag|day|
12ten|12|
14ten|14|
";

/// The word of a kind in front of marks, and what is behind it.
fn kind_in(text: &str) -> (Kind, &str) {
    let words = [
        ("unread", Kind::Unread),
        ("between", Kind::Between),
        ("before", Kind::Before),
        ("after", Kind::After),
        ("from", Kind::From),
        ("to", Kind::Until),
        ("undated", Kind::Undated),
    ];
    for (word, kind) in &words {
        if let Some(rest) = text.strip_prefix(*word) {
            return (*kind, rest);
        }
    }
    (Kind::One, text)
}

/// Whether marks are as a line says; a range has no word.
fn are_marks(marks: &Marks, text: &str) -> bool {
    let (kind, rest) = kind_in(text);
    let is_kind = marks.kind == kind || (marks.kind == Kind::Range && kind == Kind::One);
    is_kind
        && marks.about == rest.contains("about")
        && marks.uncertain == rest.contains("uncertain")
        && marks.inferred == rest.contains("inferred")
}

/// A day that a line wants of a text.
fn wanted<'a>(text: &'a str, day: &'a str) -> &'a str {
    if day == "=" { text } else { day }
}

/// Whether the text on a line has the first and the last day that the line says. The buffers may hold anything.
fn has_span(
    first: &mut Vec<u8>,
    last: &mut Vec<u8>,
    names: &Names,
    calendar: Option<Calendar>,
    choice: &Choice,
    line: &str,
) -> Option<bool> {
    let mut fields = line.split('|');
    let text = fields.next()?;
    let wanted_first = wanted(text, fields.next()?);
    let wanted_last = wanted(text, fields.next()?);
    let marks = fields.next()?;
    match write_span(first, last, text.as_bytes(), calendar, names, choice) {
        Ok(found) => Some(
            first.as_slice() == wanted_first.as_bytes()
                && last.as_slice() == wanted_last.as_bytes()
                && are_marks(&found, marks),
        ),
        Err(_) => None,
    }
}

/// The first line on which a text has other days, by the choice above it. The buffers are those of the line before.
fn wrong_line<'a>(alloc: Global, names: &Names, lines: &'a str) -> Option<&'a str> {
    let mut by = None;
    let mut first = Vec::new(alloc);
    let mut last = Vec::new(alloc);
    for line in lines.lines() {
        if let Some(text) = line.strip_prefix("#") {
            by = choice_on(text);
            continue;
        }
        let Some((calendar, choice)) = by else {
            return Some(line);
        };
        if has_span(&mut first, &mut last, names, calendar, &choice, line) != Some(true) {
            return Some(line);
        }
    }
    None
}

#[test]
fn texts_have_spans(rt: HostRuntime) -> Result<(), Fail> {
    let listed = names_in(rt.alloc(), NAMES, '\n')?;
    let names = Names::layered(rt.alloc(), listed.as_slice())?;
    let wrong = wrong_line(rt.alloc(), &names, SPANS);
    assert!(rt; wrong.is_none(), "at {wrong:?}");
    Ok(())
}

/// Days in both styles, and the Gregorian date of each.
static BOTH: [(&str, Option<(u32, u32, u32)>); 9] = [
    ("10/22 stycznia 1863", Some((1863, 1, 22))),
    ("29.12.1863/10.1.1864", Some((1864, 1, 10))),
    ("10 stycznia/22 stycznia 1863", Some((1863, 1, 22))),
    ("10/22.1.1863", Some((1863, 1, 22))),
    ("10/23 stycznia 1863", None),
    ("22/10 stycznia 1863", None),
    ("10/22 stycznia", None),
    ("10 stycznia 1863", None),
    ("1/2 Mai 1812", None),
];

/// Whether a date has these numbers.
fn is_date(date: Option<Numbers>, numbers: &Option<(u32, u32, u32)>) -> bool {
    match (date, numbers) {
        (Some(date), Some((year, month, day))) => {
            date.year == *year && date.month == *month && date.day == *day
        }
        (None, None) => true,
        _ => false,
    }
}

/// Whether a date with these numbers is written for a text, or the text.
fn is_written(
    alloc: Global,
    choice: &Choice,
    names: &Names,
    text: &str,
    numbers: &Option<(u32, u32, u32)>,
) -> bool {
    let mut out = Vec::new(alloc);
    if write_in_both(&mut out, text.as_bytes(), names, choice).is_err() {
        return false;
    }
    match numbers {
        Some((year, month, day)) => format!(in alloc; "{year}-{month}-{day}").is_ok_and(
            |date| out.as_slice() == date.as_bytes(),
        ),
        None => out.as_slice() == text.as_bytes(),
    }
}

#[test]
fn texts_have_both_styles(rt: HostRuntime) -> Result<(), Fail> {
    let listed = names_in(rt.alloc(), NAMES, '\n')?;
    let names = Names::layered(rt.alloc(), listed.as_slice())?;
    let choice = Choice {
        order: Order::DayFirst,
        short_years: Short::Refuse,
        short_hebrew_years: Short::Refuse,
        short_other_years: Short::Refuse,
        charters: false,
    };
    for (text, numbers) in &BOTH {
        let date = date_in_both(&choice, &names, text.as_bytes());
        assert!(rt; is_date(date, numbers), "at {text:?}");
        assert!(rt;
            is_written(rt.alloc(), &choice, &names, text, numbers),
            "at {text:?}"
        );
    }
    Ok(())
}
