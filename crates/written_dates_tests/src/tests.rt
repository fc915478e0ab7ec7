//! Texts, and what is written for them, a line of a table each.

mod dates;
mod lists;
mod span_table;
mod spans;

use date_texts::Calendar;
use lists::{choice_on, names_in};
use std::alloc::Global;
use written_dates::{
    Choice, Names, Order, Short, Stop, date_beside_weekday, is_name, roman_number, stop_of,
    unknown_word, write_date,
};

/// Names: a text, what it means, and the calendars in which it does, none for all.
const NAMES: &str = "\
Jänner|month 1|gregorian julian roman
Ian|month 1|gregorian julian roman
März|month 3|gregorian julian roman
MÄRZ|month 3|gregorian julian roman
Mai|month 5|gregorian julian roman
May|month 5|gregorian julian roman
d'août|month 8|gregorian julian roman
septembre|month 9|gregorian julian roman
7bris|month 9|gregorian julian roman
Nov|month 11|gregorian julian roman
10bris|month 12|gregorian julian roman
Martii|month 3|gregorian julian roman
vendémiaire|month 1|french
Ventôse|month 6|french
jours complémentaires|month 13|french republican
Nisan|month 1|hebrew
Menachem Aw|month 5|hebrew
Aw|month 5|hebrew
Tischri|month 7|hebrew
Adar I|month 12|hebrew
Adar II|month 13|hebrew
Rabi I|month 3|islamic
Rabi II|month 4|islamic
Ramadan|month 9|islamic
Dhu al-Hijja|month 12|islamic
Thout|month 1|coptic
Nasie|month 13|coptic
Meskerem|month 1|ethiopic
Kal|K|roman
Non|N|roman
Id|I|roman
pridie|2|roman
an|year|
er||
den||
le||
Sonntag|weekday 0|
Montag|weekday 1|
Dienstag|weekday 2|
Mittwoch|weekday 3|
Donnerstag|weekday 4|
Freitag|weekday 5|
Samstag|weekday 6|
primidi|decade 1|french republican
quintidi|decade 5|french republican
décadi|decade 10|french republican
IIII|4|french republican
mil|1000|
huit cent|800|
vingt trois|23|
eighteen hundred|1800|
eighteen|18|
twelve|12|
six|6|
trois|3|
vingt|20|
Dom|weekday 0|gregorian julian
feria secunda|weekday 1|gregorian julian
Ostern|easter 0|gregorian julian
Oculi|easter -28|gregorian julian
Quasimodogeniti|easter 7|gregorian julian
Trin|easter 56|gregorian julian
Trinitatis|easter 56|gregorian julian
Epiph|feast 1-6|gregorian julian
Michael|feast 9-29|gregorian julian
Michaelis|feast 9-29|gregorian julian
Nativitatis|feast 12-25|gregorian julian
Advent|sundays advent|gregorian julian
nach|after|gregorian julian
post|after|gregorian julian
p|after|gregorian julian
vor|before|gregorian julian
vigilia|eve|gregorian julian
in octava|octave|gregorian julian
in crastino|morrow|gregorian julian
in festo||gregorian julian
S||gregorian julian
St||gregorian julian
Mo|weekday 1|
Di|weekday 2|
Mi|weekday 3|
Tuesday|weekday 2|
dimanche|weekday 0|
Jan|month 1|gregorian julian roman
Feb|month 2|gregorian julian roman
April|month 4|gregorian julian roman
June|month 6|gregorian julian roman
Brumaire|month 2|french republican
im||
of||
th||
nd||
de||
e||
du||
anno|year|
era|spanish|julian
от сотворения мира|creation|julian
года|year|
сентября|month 9|julian
августа|month 8|julian
anno domini|year|
roku|year|
die|day|
day|day|
Tag des|day|
";

/// Whether the text on a line is written as the line says.
fn is_written(
    alloc: Global,
    names: &Names,
    calendar: Option<Calendar>,
    choice: &Choice,
    line: &str,
) -> bool {
    let Some((text, date)) = line.split_once('|') else {
        return false;
    };
    let mut out = Vec::new(alloc);
    let is_out = write_date(&mut out, text.as_bytes(), calendar, names, choice).is_ok();
    let wanted = if date == "=" { text } else { date };
    is_out && out.as_slice() == wanted.as_bytes()
}

/// The first line on which a text is not written as the line says, by the choice above it.
fn wrong_line<'a>(alloc: Global, names: &Names, lines: &'a str) -> Option<&'a str> {
    let mut by = None;
    for line in lines.lines() {
        if let Some(text) = line.strip_prefix("#") {
            by = choice_on(text);
            continue;
        }
        let Some((calendar, choice)) = by else {
            return Some(line);
        };
        if !is_written(alloc, names, calendar, &choice, line) {
            return Some(line);
        }
    }
    None
}

/// The same by the names of a list, each on a line of its own.
fn wrong_by_list<'a>(alloc: Global, list: &str, lines: &'a str) -> Option<&'a str> {
    let Ok(listed) = names_in(alloc, list, '\n') else {
        return Some("a list in memory");
    };
    match Names::layered(alloc, listed.as_slice()) {
        Ok(names) => wrong_line(alloc, &names, lines),
        Err(_) => Some("names in memory"),
    }
}

/// Lists of names, and dates by them. In the second the first of two names holds.
static LISTED: [(&str, &str); 8] = [
    (NAMES, dates::DATES),
    (NAMES, dates::TIMES),
    (
        "h||\nMai|month 5|",
        "#gregorian year refuse refuse day-of-mark\n1806 5 12 h|1806-5-12\n1806 Mai 12 h|1806-5-12",
    ),
    (
        "Mai|month 4|gregorian\nMai|month 5|\nmai|month 6|",
        "#gregorian day refuse refuse day-of-mark\n12 Mai 1806|1806-4-12\n\
        #julian day refuse refuse day-of-mark\n12 Mai 1806|1806-5-12",
    ),
    (NAMES, dates::JOINED),
    (
        "5th mo|month 7|julian\n1st mo|month 3|julian\nmo|weekday 1|julian\nth||\nof||",
        "#julian month refuse refuse day-of-mark\n12th of 5th mo. 1701|1701-7-12\n\
        5th mo. 12 1701|1701-7-12\n1st mo. 9th 1701|1701-3-9\n12th of 6th mo. 1701|=",
    ),
    (
        "Ostern|easter 0|\nAdar|month 12|",
        "#hebrew day refuse refuse day-of-mark\nOstern 507|=\n7 Adar 507|\n#coptic day refuse refuse day-of-mark\n\
        Ostern 1428|=\n#julian day refuse refuse day-of-mark\nOstern 12|\nOstern 1712|1712-4-20",
    ),
    (
        "Ramadan|month 9|islamic\nThout|month 1|coptic\nMeskerem|month 1|ethiopic\nNavasard|month 1|armenian\n\
        Messidor|month 10|french republican",
        "#islamic day refuse refuse day-of-mark\n1.9.41|\n1.9.141|141-9-1\n1 Ramadan 41|\n41-9-1|\n041-9-1|=\n\
        -41-9-1|=\n#islamic day refuse refuse day-of-mark keep\n1.9.41|41-9-1\n41-9-1|=\n#islamic day 1800 refuse day-of-mark\n\
        1.9.41|\n41-9-1|\n1.9.1241|1241-9-1\n#islamic day keep keep day-of-mark 1200\n1.9.41|1241-9-1\n\
        41-9-1|1241-9-1\n041-9-1|=\n1.9.1341|1341-9-1\n#coptic day 1800 refuse day-of-mark\n3 Thout 82|\n\
        3 Thout 1582|1582-1-3\n\
        #coptic day refuse refuse day-of-mark keep\n3 Thout 82|82-1-3\n#coptic day keep refuse day-of-mark\n3 Thout 82|\n\
        #ethiopic day refuse refuse day-of-mark\n3 Meskerem 82|\n\
        #armenian day 1800 refuse day-of-mark\n3 Navasard 82|\n3 Navasard 1182|1182-1-3\n\
        #republican day refuse refuse day-of-mark\n3 Messidor 8|8-10-3\n8-10-3|=\n#roman day refuse refuse day-of-mark\n\
        99-1-1|=",
    ),
];

#[test]
fn texts_become_dates(rt: HostRuntime) {
    for (list, dates) in &LISTED {
        let wrong = wrong_by_list(rt.alloc(), list, dates);
        assert!(rt; wrong.is_none(), "at {wrong:?}");
    }
}

/// Texts, and why no date is read of them in the Gregorian calendar, day first, where short years are refused; `read`
/// where one is.
static STOPS: &str = "\
Sonntag, 12. Mai 1806|OtherWeekday
Montag, 12. Mai 1806|read
2. Donnerstag Mai 1799|NoDate
Montag, Ostern 1712|OtherWeekday
Sonntag, 31. April 1801|OtherWeekday
15.3.-144|Minus
15. März -144|Minus
- 12. Mai 1806|Minus
12. Mai 1806?|Character
12. Mai 18o6|NoDate
Mai 1806|NoDay
1806|NoDay
im Mai 1806|NoDay
1806 Mai|NoDay
Montag, Mai 1806|NoDay
12. Mai|NoYear
Mai 12|NoYear
12|NoDate
5-6.1806|NoDate
Jan 1710/11|NoDate
12. Mai 06|ShortYear
Montag 12.5.06|ShortYear
12. Mai 1806|read
12. Mai 1806 10:00|read
12. Mai 1806 25:00|Character
-44-3-15 10:00|Character
12. Mai 06 10 Uhr|ShortYear
Mai 1806 10:00|NoDay
Sonntag, 12. Mai 1806 10:00|OtherWeekday
";

/// The name of a reason.
fn name_of_stop(stop: Option<Stop>) -> &'static str {
    match stop {
        None => "read",
        Some(Stop::Character) => "Character",
        Some(Stop::Minus) => "Minus",
        Some(Stop::NoDate) => "NoDate",
        Some(Stop::NoDay) => "NoDay",
        Some(Stop::NoYear) => "NoYear",
        Some(Stop::NoSuchYear) => "NoSuchYear",
        Some(Stop::OtherWeekday) => "OtherWeekday",
        Some(Stop::ShortYear) => "ShortYear",
    }
}

/// Whether the text on a line is not read for the reason that the line says.
fn is_stopped(names: &Names, line: &str) -> bool {
    let Some((text, wanted)) = line.split_once('|') else {
        return false;
    };
    let choice = Choice {
        order: Order::DayFirst,
        short_years: Short::Refuse,
        short_hebrew_years: Short::Refuse,
        short_other_years: Short::Refuse,
        charters: false,
    };
    let stop = stop_of(text.as_bytes(), Calendar::Gregorian, names, &choice);
    name_of_stop(stop) == wanted
}

/// The first line whose text is not read for another reason.
fn wrong_stop(alloc: Global) -> Option<&'static str> {
    let Ok(listed) = names_in(alloc, NAMES, '\n') else {
        return Some("a list in memory");
    };
    let Ok(names) = Names::layered(alloc, listed.as_slice()) else {
        return Some("names in memory");
    };
    for line in STOPS.lines() {
        if !is_stopped(&names, line) {
            return Some(line);
        }
    }
    None
}

/// What is said in a calendar of the French Republic, or of a weekday.
fn other_stops(alloc: Global) -> bool {
    let Ok(listed) = names_in(alloc, NAMES, '\n') else {
        return false;
    };
    let Ok(names) = Names::layered(alloc, listed.as_slice()) else {
        return false;
    };
    let choice = Choice {
        order: Order::DayFirst,
        short_years: Short::Refuse,
        short_hebrew_years: Short::Refuse,
        short_other_years: Short::Refuse,
        charters: false,
    };
    let sunday = "Sonntag, 12. Mai 1806".as_bytes();
    let monday = "Montag, 12. Mai 1806".as_bytes();
    let stop = |text: &str| stop_of(text.as_bytes(), Calendar::French, &names, &choice);
    let beside = |text: &[u8]| date_beside_weekday(text, Calendar::Gregorian, &names, &choice);
    stop("18 Brumaire 1799") == Some(Stop::NoSuchYear)
        && stop("primidi 20 ventôse an 6") == Some(Stop::OtherWeekday)
        && stop("décadi 20 ventôse an 6").is_none()
        && beside(sunday) == Some((1806, 5, 12))
        && beside(monday).is_none()
        && beside("Sonntag, 12. Mai 1806, 10 Uhr".as_bytes()) == Some((1806, 5, 12))
}

#[test]
fn dates_are_stopped_otherwise(rt: HostRuntime) {
    assert!(rt; other_stops(rt.alloc()));
}

#[test]
fn dates_are_stopped(rt: HostRuntime) {
    let wrong = wrong_stop(rt.alloc());
    assert!(rt; wrong.is_none(), "at {wrong:?}");
}

/// Texts, and whether they can be names in dates.
static TEXTS: [(&str, bool); 14] = [
    ("Mai", true),
    ("MAI.", true),
    ("7.bris", true),
    ("d'août", true),
    ("Dhu-l-Hijja", true),
    ("1\u{a0}er", true),
    ("7", true),
    ("Mai(", false),
    ("Mai?", false),
    ("(Mai)", false),
    (".-", false),
    (" ", false),
    ("\u{2013}", false),
    ("", false),
];

#[test]
fn names_are_told(rt: HostRuntime) {
    for (text, is) in TEXTS {
        assert!(rt; is_name(text.as_bytes()) == is, "at {text:?}");
    }
}

/// Words, and the numbers that they are.
static NUMBERS: [(&str, Option<u32>); 11] = [
    ("MCMXCIV", Some(1994)),
    ("MMMCMXCIX", Some(3999)),
    ("IV", Some(4)),
    ("IIII", None),
    ("VV", None),
    ("IC", None),
    ("MMMM", None),
    ("xiv", None),
    ("", None),
    ("XIVI", None),
    ("MDCCCVI", Some(1806)),
];

#[test]
fn roman_numbers(rt: HostRuntime) {
    for (word, number) in &NUMBERS {
        assert!(rt; roman_number(word.as_bytes()) == *number, "at {word:?}");
    }
}

/// Texts, and the name in each that is not known in the Gregorian calendar: with the words that hyphens join to it.
static UNKNOWN: [(&str, Option<&str>); 11] = [
    ("7 Dhu-l-Hijja 1241", Some("Dhu-l-Hijja")),
    ("7. Dhu'l-Hijja, 1241", Some("Dhu'l-Hijja")),
    ("12-Foo-1806", Some("Foo")),
    ("12 Mai-Foo 1806", Some("Mai-Foo")),
    ("12 Mai-Foo-1806", Some("Mai-Foo")),
    ("12 Foo Mai-Bar 1806", Some("Foo")),
    ("12 Foo\u{2013}Bar 1806", Some("Foo")),
    ("12 Foo - Bar 1806", Some("Foo")),
    ("Foo-Bar-", Some("Foo-Bar")),
    ("12. Mai 1806", None),
    ("12-5-1806", None),
];

/// The first text of these with another name.
fn wrong_unknown(alloc: Global) -> Option<&'static str> {
    let Ok(listed) = names_in(alloc, NAMES, '\n') else {
        return Some("a list in memory");
    };
    let Ok(names) = Names::layered(alloc, listed.as_slice()) else {
        return Some("names in memory");
    };
    for (text, name) in &UNKNOWN {
        let found = unknown_word(text.as_bytes(), &names, Calendar::Gregorian);
        let wanted = name.map(|name| name.as_bytes());
        if found != wanted {
            return Some(*text);
        }
    }
    None
}

#[test]
fn names_are_offered_whole(rt: HostRuntime) {
    let wrong = wrong_unknown(rt.alloc());
    assert!(rt; wrong.is_none(), "at {wrong:?}");
}
