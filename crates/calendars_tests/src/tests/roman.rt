//! Roman dates of known days, and a walk through four centuries that counts the names by hand.

use super::table::{answer, numbers};
use day_numbers::{DateFault, Day};
use solar_calendars::RomanName::{Ides, Kalends, Nones, SecondSixth};
use solar_calendars::{RomanDate, RomanName, roman_day_of, roman_on};

/// Whether the date has this fixed day number, and is the date on that day, or is refused with this fault; or there is
/// no such date, where no answer is given.
fn has_answer(
    year: i32,
    month: u8,
    name: RomanName,
    answer: Option<Result<i64, DateFault>>,
) -> bool {
    let Some(date) = RomanDate::new(year, month, name) else {
        return answer.is_none();
    };
    if date.year() != year || date.month() != month || date.name() != name {
        return false;
    }
    let number = match answer {
        None => return false,
        Some(Err(fault)) => return roman_day_of(&date) == Err(fault),
        Some(Ok(number)) => number,
    };
    let Some(day) = Day::new(number) else {
        return false;
    };
    roman_day_of(&date) == Ok(day) && roman_on(day) == date
}

/// Days that history knows by their Roman names, from Cicero's birth to the fall of Constantinople and the last day
/// of the Julian calendar in Rome. Before the year 8 the Julian calendar is carried back.
static HISTORY: &str = "\
Nones -106 1 3 -38716
Kalends -63 10 9 -22747
Ides -44 3 1 -15999
Nones -31 9 4 -11080
Kalends 14 9 14 4977
Kalends 64 8 14 23209
Kalends 79 9 9 28723
Kalends 312 11 5 113892
Kalends 801 1 8 292192
Ides 1066 10 2 389276
Kalends 1453 6 4 530490
Nones 1582 10 4 577735
Kalends 1945 11 3 710347
";

/// The principal days and the days beside them, 24 and 25 February of a leap year and of a common year, the ends of
/// a year, and the ends of the range.
static PRINCIPAL_DAYS: &str = "\
Kalends 1 1 2 -2
Kalends 1 1 1 -1
Nones 1 1 4 0
Nones 1 1 1 3
Ides 1 1 8 4
Ides 1 1 1 11
Kalends 1 2 19 12
Kalends 1 3 16 43
Kalends 1 3 6 53
Kalends 1 3 5 54
Nones 1 3 6 59
Nones 1 3 1 64
Ides 1 3 8 65
Ides 1 3 1 72
Kalends 1 4 17 73
Kalends 1 10 18 255
Kalends 2 1 19 346
Kalends 2 1 2 363
Kalends 4 3 16 1138
Kalends 4 3 6 1148
SecondSixth 4 3 6 1149
Kalends 4 3 5 1150
Kalends 4 3 2 1153
Kalends 4 3 1 1154
Kalends -1 3 6 -313
SecondSixth -1 3 6 -312
Kalends -1 1 1 -367
Kalends 9999 11 14 3652059
Kalends -10000 4 14 -3652424
";

/// Dates that are none, valid dates out of range, and what is not within the bounds of a date.
static REFUSED: &str = "\
Kalends 0 1 1 none
Kalends 1 0 1 none
Kalends 1 13 1 none
Kalends 99999 99 99 none
Kalends 1 1 0 none
Nones 1 1 0 none
Ides 1 1 0 none
Kalends 1 1 20 none
Kalends 1 3 17 none
Kalends 4 3 17 none
Kalends 1 4 18 none
Nones 1 1 5 none
Nones 1 3 7 none
Ides 1 1 9 none
SecondSixth 1 3 6 none
SecondSixth 0 3 6 none
SecondSixth 4 2 6 none
SecondSixth 4 4 6 none
SecondSixth -4 3 6 none
SecondSixth 10001 3 6 none
Kalends 9999 11 13 out
Kalends -10000 4 15 out
Ides 99999 12 1 out
Kalends -99999 1 2 out
SecondSixth 10000 3 6 out
Ides -99999 99 99 none
Kalends -100000 1 1 never
Kalends 100000 1 1 never
Kalends 1 100 1 never
Kalends 1 1 100 never
Nones 1 1 100 never
Ides 1 1 100 never
";

/// The name on a line, with this count.
fn name(line: &str, count: u8) -> RomanName {
    if line.starts_with("Kalends") {
        Kalends(count)
    } else if line.starts_with("Nones") {
        Nones(count)
    } else if line.starts_with("Ides") {
        Ides(count)
    } else {
        SecondSixth
    }
}

/// Whether the date on a line has the answer on it.
fn is_right(line: &str) -> bool {
    let [_, Some(year), Some(month), Some(count), number, _] = numbers(line) else {
        return false;
    };
    let (Ok(month), Ok(count)) = (u8::try_from(month), u8::try_from(count)) else {
        return false;
    };
    has_answer(year, month, name(line, count), answer(line, number))
}

#[test]
fn known_roman_dates(rt: HostRuntime) {
    for table in [HISTORY, PRINCIPAL_DAYS, REFUSED] {
        for line in table.lines() {
            assert!(rt; is_right(line), "at {line}");
        }
    }
}

const LENGTHS: [u8; 12] = [31, 28, 31, 30, 31, 30, 31, 31, 30, 31, 30, 31];

/// A year, a month, and a name counted back from a principal day of it.
type Named = (i32, u8, RomanName);

/// The month after this one. The year after the year -1 is the year 1.
fn month_after(year: i32, month: u8) -> (i32, u8) {
    match (year, month) {
        (-1, 12) => (1, 1),
        (_, 12) => (year.saturating_add(1), 1),
        _ => (year, month.saturating_add(1)),
    }
}

/// The name of the next day: the Kalends, down to the Nones, eight days down to the Ides, and down to the next Kalends,
/// with one more sixth day in a leap year.
fn name_after((year, month, name): Named) -> Named {
    let nones = if [3, 5, 7, 10].contains(&month) {
        7u8
    } else {
        5
    };
    let is_leap = year.rem_euclid(4) == if year < 0 { 3 } else { 0 };
    match name {
        Kalends(1) => (year, month, Nones(nones.saturating_sub(1))),
        Nones(1) => (year, month, Ides(8)),
        Ides(1) => {
            let length = LENGTHS
                .get((month as usize).saturating_sub(1))
                .copied()
                .unwrap_or(0);
            let (year, next) = month_after(year, month);
            (
                year,
                next,
                Kalends(length.saturating_sub(nones.saturating_add(7))),
            )
        }
        Kalends(6) if month == 3 && is_leap => (year, month, SecondSixth),
        SecondSixth => (year, month, Kalends(5)),
        Kalends(count) => (year, month, Kalends(count.saturating_sub(1))),
        Nones(count) => (year, month, Nones(count.saturating_sub(1))),
        Ides(count) => (year, month, Ides(count.saturating_sub(1))),
    }
}

/// Every day of the Julian years -200 to 200, in the order in which the names are counted.
#[test]
fn names_are_counted_down(rt: HostRuntime) {
    let mut date = (-200, 1, Kalends(1));
    for number in -73_051i64..=73_049 {
        let (year, month, name) = date;
        assert!(rt;
            has_answer(year, month, name, Some(Ok(number))),
            "on day {number}"
        );
        date = name_after(date);
    }
    assert!(rt; date == (201, 1, Nones(4)));
}
