//! Calendars month by month, and that of weeks week by week: each month begins on the day after the one
//! before, and the first month of year 1 on the epoch. The lengths of the months are written out here a second
//! time.

use super::dates::has_answer;
use day_numbers::{ArithmeticCalendar, DateFault};
use lunar_calendars::{Hebrew, Islamic, hebrew_year_length};
use solar_calendars::{
    Armenian, Coptic, Egyptian, Ethiopic, French, Gregorian, IsoWeek, Julian, Republican,
};
use std::process::Abort;

/// There is no such date.
const NONE: Option<Result<i64, DateFault>> = Some(Err(DateFault::NoSuchDate));

const ROMAN: [u8; 12] = [31, 28, 31, 30, 31, 30, 31, 31, 30, 31, 30, 31];

const ROMAN_LEAP: [u8; 12] = [31, 29, 31, 30, 31, 30, 31, 31, 30, 31, 30, 31];

const THIRTEEN: [u8; 13] = [30, 30, 30, 30, 30, 30, 30, 30, 30, 30, 30, 30, 5];

const THIRTEEN_LEAP: [u8; 13] = [30, 30, 30, 30, 30, 30, 30, 30, 30, 30, 30, 30, 6];

const WEEKS: [u8; 52] = [7; 52];

const MORE_WEEKS: [u8; 53] = [7; 53];

const LUNAR: [u8; 12] = [30, 29, 30, 29, 30, 29, 30, 29, 30, 29, 30, 29];

const LUNAR_LEAP: [u8; 12] = [30, 29, 30, 29, 30, 29, 30, 29, 30, 29, 30, 30];

/// The months of Hebrew years of 353, 354 and 355 days, from Tishri on, and of 383, 384 and 385 days.
const DEFICIENT: [u8; 12] = [30, 29, 29, 29, 30, 29, 30, 29, 30, 29, 30, 29];

const REGULAR: [u8; 12] = [30, 29, 30, 29, 30, 29, 30, 29, 30, 29, 30, 29];

const COMPLETE: [u8; 12] = [30, 30, 30, 29, 30, 29, 30, 29, 30, 29, 30, 29];

const DEFICIENT_LEAP: [u8; 13] = [30, 29, 29, 29, 30, 30, 29, 30, 29, 30, 29, 30, 29];

const REGULAR_LEAP: [u8; 13] = [30, 29, 30, 29, 30, 30, 29, 30, 29, 30, 29, 30, 29];

const COMPLETE_LEAP: [u8; 13] = [30, 30, 30, 29, 30, 30, 29, 30, 29, 30, 29, 30, 29];

/// The months, or weeks, of a calendar.
trait MonthLengths: ArithmeticCalendar {
    /// The lengths of the months of a year in their order; none where the calendar has no such year.
    fn lengths(&self, year: i32) -> &'static [u8];
}

impl MonthLengths for Gregorian {
    fn lengths(&self, year: i32) -> &'static [u8] {
        if year.rem_euclid(4) == 0 && (year.rem_euclid(100) != 0 || year.rem_euclid(400) == 0) {
            &ROMAN_LEAP
        } else {
            &ROMAN
        }
    }
}

impl MonthLengths for Julian {
    fn lengths(&self, year: i32) -> &'static [u8] {
        match year.rem_euclid(4) {
            _ if year == 0 => &[],
            0 if year > 0 => &ROMAN_LEAP,
            3 if year < 0 => &ROMAN_LEAP,
            _ => &ROMAN,
        }
    }
}

/// The months of a year of thirteen of them; none before year 1.
fn thirteen(year: i32, leap: bool) -> &'static [u8] {
    match year {
        ..=0 => &[],
        _ if leap => &THIRTEEN_LEAP,
        _ => &THIRTEEN,
    }
}

impl MonthLengths for Coptic {
    fn lengths(&self, year: i32) -> &'static [u8] {
        thirteen(year, year % 4 == 3)
    }
}

impl MonthLengths for Ethiopic {
    fn lengths(&self, year: i32) -> &'static [u8] {
        thirteen(year, year % 4 == 3)
    }
}

impl MonthLengths for Egyptian {
    fn lengths(&self, year: i32) -> &'static [u8] {
        thirteen(year, false)
    }
}

impl MonthLengths for Armenian {
    fn lengths(&self, year: i32) -> &'static [u8] {
        thirteen(year, false)
    }
}

impl MonthLengths for French {
    fn lengths(&self, year: i32) -> &'static [u8] {
        let leap = match year {
            _ if year % 4_000 == 0 => false,
            _ if year % 400 == 0 => true,
            _ if year % 100 == 0 => false,
            _ => year % 4 == 0,
        };
        thirteen(year, leap)
    }
}

impl MonthLengths for Republican {
    fn lengths(&self, year: i32) -> &'static [u8] {
        thirteen(year, year % 4 == 3)
    }
}

/// The day of the week of 31 December, from Sunday = 0: each year moves it on by one, and a leap day by one
/// more. It comes again every 400 years, which are a whole number of weeks.
fn last_weekday(year: i32) -> u32 {
    let year = year.rem_euclid(400) as u32;
    (year + year / 4 - year / 100) % 7
}

/// A year has 53 weeks where it ends on a Thursday, or the year before on a Wednesday.
impl MonthLengths for IsoWeek {
    fn lengths(&self, year: i32) -> &'static [u8] {
        if last_weekday(year) == 4 || last_weekday(year.saturating_sub(1)) == 3 {
            &MORE_WEEKS
        } else {
            &WEEKS
        }
    }
}

impl MonthLengths for Islamic {
    fn lengths(&self, year: i32) -> &'static [u8] {
        match year % 30 {
            _ if year < 1 => &[],
            2 | 5 | 7 | 10 | 13 | 16 | 18 | 21 | 24 | 26 | 29 => &LUNAR_LEAP,
            _ => &LUNAR,
        }
    }
}

/// The length of a year is the calendar's own here: `new_years` finds the new years of these years a second time.
impl MonthLengths for Hebrew {
    fn lengths(&self, year: i32) -> &'static [u8] {
        if !(1..=99_999).contains(&year) {
            return &[];
        }
        match hebrew_year_length(year as u32) {
            353 => &DEFICIENT,
            354 => &REGULAR,
            355 => &COMPLETE,
            383 => &DEFICIENT_LEAP,
            384 => &REGULAR_LEAP,
            _ => &COMPLETE_LEAP,
        }
    }
}

/// Whether the month begins on the day with this fixed day number and has so many days: looks at its first and its last
/// day, both ways, and at the days beside them, which are none of it.
fn has_month<C: ArithmeticCalendar>(
    calendar: &C,
    (year, month, length): (i32, u8, u8),
    start: i64,
) -> bool {
    let end = start.saturating_add(length as i64).saturating_sub(1);
    has_answer(calendar, (year, month, 0), NONE)
        && has_answer(calendar, (year, month, 1), Some(Ok(start)))
        && has_answer(calendar, (year, month, length), Some(Ok(end)))
        && has_answer(calendar, (year, month, length.saturating_add(1)), NONE)
}

/// The day after the year, from its first day on: each month begins on the day after the one before, and there are no
/// months beside those of the year. After the last of them in number comes month 1. There is no such day where this is
/// not so.
fn year_after<C: MonthLengths>(
    calendar: &C,
    year: i32,
    first_month: u8,
    start: i64,
) -> Option<i64> {
    let lengths = calendar.lengths(year);
    let count = u8::try_from(lengths.len()).unwrap_or(0);
    let mut month = first_month;
    let mut start = start;
    for &length in lengths {
        if !has_month(calendar, (year, month, length), start) {
            return None;
        }
        start = start.saturating_add(length as i64);
        month = if month == count {
            1
        } else {
            month.saturating_add(1)
        };
    }
    let is_whole = has_answer(calendar, (year, 0, 1), NONE)
        && has_answer(calendar, (year, count.saturating_add(1), 1), NONE);
    if is_whole { Some(start) } else { None }
}

/// Walks through the years from `first` to `last`, the first of which begins on the day with the first fixed day number,
/// and the year behind the last on that with the second.
fn walk<C: MonthLengths>(
    rt: &impl Abort,
    calendar: &C,
    first_month: u8,
    (start, end): (i64, i64),
    (first, last): (i32, i32),
) {
    let mut next = Some(start);
    for year in first..=last {
        if let Some(start) = next {
            next = year_after(calendar, year, first_month, start);
        }
        assert!(rt; next.is_some(), "in {year}");
    }
    assert!(rt; next == Some(end), "behind {last}");
}

/// The days on which the walks end are those of closed forms, of which nothing here is made: leap years are counted, and
/// for the Hebrew year months from one conjunction to the next.
#[test]
fn months_follow_each_other(rt: HostRuntime) {
    walk(&rt, &Gregorian, 1, (-299_864, 299_500), (-820, 820));
    walk(&rt, &IsoWeek, 1, (-299_865, 299_503), (-820, 820));
    walk(&rt, &Julian, 1, (-299_506, 299_504), (-820, 820));
    walk(&rt, &Coptic, 1, (103_605, 403_110), (-2, 820));
    walk(&rt, &Ethiopic, 1, (2_796, 302_301), (-2, 820));
    walk(&rt, &Egyptian, 1, (-272_787, 26_513), (-2, 820));
    walk(&rt, &Armenian, 1, (201_443, 500_743), (-2, 820));
    walk(&rt, &French, 1, (654_415, 3_612_877), (-2, 8_100));
    walk(&rt, &Republican, 1, (654_415, 953_920), (-2, 820));
    walk(&rt, &Islamic, 1, (227_015, 439_635), (-2, 600));
    walk(&rt, &Hebrew, 7, (-1_373_427, -1_154_280), (-2, 600));
}
