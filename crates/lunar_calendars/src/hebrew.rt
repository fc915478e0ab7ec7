//! The Hebrew calendar: new years by the molad and what puts them off, and the months from one to the next.

ghost use Rattle.std.specs.Prelude.{◌≡◌, ◌≤◌, ◌<◌, ◌+◌, ◌*◌, pos, ◌+ℤ◌, ◌-ℤ◌, ◌<ℤ◌, IsTrue, length};
ghost use Rattle.std.specs.Prelude.{ℕ, Contains, if◌then◌else◌, slice_index, take};
ghost use Rattle.day_numbers.specs.Rules.{total_days, are_months, year_start, days_of_month, days_before_month};
ghost use Rattle.day_numbers.proofs.DateLemmas.{rules_one_to_one};
ghost use Rattle.lunar_calendars.specs.Hebrew.{is_leap_year, epoch, new_year_of, days_in_year, year_lengths};
ghost use Rattle.lunar_calendars.specs.Hebrew.{months_by_length, hebrew_rules};
ghost use Rattle.lunar_calendars.specs.private.Hebrew.{IsYearLength};
ghost use Rattle.lunar_calendars.specs.private.HebrewOpenings.{IsOpening, days_from_monday as days_spec};

use day_numbers::by_rules::CalendarByRules;
use day_numbers::months;
use day_numbers::rules::{Month, RuledCalendar, Year};

/// The Hebrew calendar, its months numbered from Nisan = 1.
///
/// A year opens with Tishri (7) and runs on to Adar (12, in a leap year 12 and 13), then from Nisan (1) to
/// Elul (6). Years count from 1, which begins on R.D. -1373427, Monday, 7 October 3761 BCE of the Julian
/// calendar (Reingold and Dershowitz, *Calendrical Calculations*). A day is named by the civil day that its
/// daylight falls on. [`hebrew_new_year`] says when a year opens, and [`hebrew_year_length`] how long it is.
#[derive(Clone, Copy, PartialEq, Eq, Debug)]
pub struct Hebrew;

/// The fixed day number of the first day of year 1, a Monday. In this file days are counted from it, as 0.
const EPOCH: i64 = -1_373_427;

/// The parts of a day, which begins at 6 in the evening before and has 24 hours of 1080 parts.
const PARTS_OF_DAY: u64 = 25_920;
/// Seven days.
const PARTS_OF_WEEK: u64 = 7 * PARTS_OF_DAY;
/// 29 days, 12 hours and 793 parts, the time from one mean new moon to the next.
const PARTS_OF_MONTH: u64 = 765_433;

/// How many days after Monday a year opens, from the parts between noon of the Saturday before and its molad.
///
/// No year opens on a Sunday, a Wednesday or a Friday, and none on the day of a molad at noon, 18 hours into the day,
/// or later: it opens on the first other day whose noon comes after the molad. Two of these times come earlier: for a
/// Tuesday in a common year, which would have 356 days, at 9 hours and 204 parts, and for a Monday after a leap year,
/// which would have had 382 days, at 15 hours and 589 parts.
fn days_from_monday(leap: bool, after_leap: bool, time: u64) -> u32
    ensures { result ≡ days_spec leap after_leap time }
{
    let monday = if after_leap { 49_189 } else { 2 * PARTS_OF_DAY };
    let tuesday = if leap { 3 * PARTS_OF_DAY } else { 68_244 };
    if time < monday {
        0
    } else if time < tuesday {
        1
    } else if time < 5 * PARTS_OF_DAY {
        3
    } else {
        5
    }
}

/// When a year opens.
#[derive(Clone, Copy)]
struct Opening {
    year: u32,
    /// The day of the new year.
    day: u32,
    /// The Monday of the week of its molad, which begins at noon of a Saturday.
    monday: u32,
    /// What the months before the year leave, in nineteenths of a month.
    part: u32,
    /// What the weeks before the molad leave, in parts.
    time: u64,
    ghost low: { 1 ≤ year },
    ghost high: { year ≤ 100_000 },
    ghost near: { day ≤ 50_000_000 },
    ghost opens: { IsOpening year day monday part time },
}

impl Opening {
    /// When the year opens.
    fn of_year(year: u32) -> Opening
        requires low { 1 ≤ year }
        requires high { year ≤ 100_000 }
        ensures { result.year ≡ year }
    {
        // A year has 12 months and 7 nineteenths of one. A leap year is one in which these become a month more.
        let nineteenths = 235 * year - 234;
        let part = nineteenths % 19;
        // Counted from noon of the Saturday before year 1, whose molad comes 30 hours and 5604 parts later.
        let parts = 38_004 + PARTS_OF_MONTH * (nineteenths / 19) as u64;
        let monday = 7 * (parts / PARTS_OF_WEEK) as u32;
        let time = parts % PARTS_OF_WEEK;
        let day = monday + days_from_monday(part >= 12, part < 7, time);
        Opening {
            year,
            day,
            monday,
            part,
            time,
        }
    }

    /// Whether the year is a leap year.
    fn is_leap(self) -> bool
        ensures { result ≡ is_leap_year self.year }
    {
        self.part >= 12
    }

    /// Whether the year after is a leap year.
    fn is_before_leap(self) -> bool
        ensures { result ≡ is_leap_year (self.year + 1) }
    {
        self.part >= 5 && self.part < 12
    }

    /// The days of the year, by the weeks to the next molad.
    fn days(self) -> u16
        ensures value { result ≡ days_in_year self.year }
        ensures length { IsYearLength (is_leap_year self.year) result }
    {
        let leap = self.is_leap();
        let (weeks, rest) = weeks_of_months(leap);
        let end = self.time + rest;
        let one_more = (end >= PARTS_OF_WEEK) as u64;
        let next_time = end - one_more * PARTS_OF_WEEK;
        let monday = self.monday + 7 * (weeks + one_more as u32);
        (monday + days_from_monday(self.is_before_leap(), leap, next_time) - self.day) as u16
    }
}

/// The whole weeks of the months of a year, and the parts that these leave.
fn weeks_of_months(leap: bool) -> (u32, u64)
    ensures value { 181_440 * result.0 + result.1 ≡ 765_433 * (if leap then 13 else 12) }
    ensures rest { result.1 < 181_440 }
    ensures near { result.0 ≤ 54 }
{
    if leap { (54, 152_869) } else { (50, 113_196) }
}

/// The months of a year with so many days in Heshvan (8), in Kislev (9) and in the months of Adar. Behind them stand
/// months of no days, 13 and 14 in a common year and 14 in a leap year, which are none of the year's months.
macro_rules! hebrew_months {
    (heshvan: $heshvan:literal, kislev: $kislev:literal, $($adar:literal: $days:literal),+ ; no $($none:literal),+) => {
        months![
            7: 30, 8: $heshvan, 9: $kislev, 10: 29, 11: 30,
            $($adar: $days,)+
            1: 30, 2: 29, 3: 30, 4: 29, 5: 30, 6: 29,
            $($none: 0),+
        ]
    };
}

/// The months of a short, a regular and a long year, which are the first 12, and the 13 months of such leap years.
// Of one size with `STARTS`, so that both rows are found by one product.
static YEARS: [[Month; 14]; 6] = [
    hebrew_months!(heshvan: 29, kislev: 29, 12: 29; no 13, 14),
    hebrew_months!(heshvan: 29, kislev: 30, 12: 29; no 13, 14),
    hebrew_months!(heshvan: 30, kislev: 30, 12: 29; no 13, 14),
    hebrew_months!(heshvan: 29, kislev: 29, 12: 30, 13: 29; no 14),
    hebrew_months!(heshvan: 29, kislev: 30, 12: 30, 13: 29; no 14),
    hebrew_months!(heshvan: 30, kislev: 30, 12: 30, 13: 29; no 14),
];

/// The place in the year at which each of these months begins, and at the end the length of the year.
#[rattlefmt::skip]
static STARTS: [[u16; 14]; 6] = [
    [0, 30, 59, 88, 117, 147, 176, 206, 235, 265, 294, 324, 353, 353],
    [0, 30, 59, 89, 118, 148, 177, 207, 236, 266, 295, 325, 354, 354],
    [0, 30, 60, 90, 119, 149, 178, 208, 237, 267, 296, 326, 355, 355],
    [0, 30, 59, 88, 117, 147, 177, 206, 236, 265, 295, 324, 354, 383],
    [0, 30, 59, 89, 118, 148, 178, 207, 237, 266, 296, 325, 355, 384],
    [0, 30, 60, 90, 119, 149, 179, 208, 238, 267, 297, 326, 356, 385],
];

/// The months of a year with so many days, in the order in which they run.
fn months_of_length(leap: bool, days: u16) -> &'static [Month]
    requires { IsYearLength leap days }
    ensures value { result.now ≡ months_by_length leap days }
    ensures few { length result.now ≤ 13 }
    ensures numbered { IsTrue (are_months result.now) }
{
    if leap {
        &YEARS[(days - 380) as usize][..13]
    } else {
        &YEARS[(days - 353) as usize][..12]
    }
}

/// The place at which each month begins in a year with so many days.
fn starts_of_length(leap: bool, days: u16) -> &'static [u16; 14]
    requires { IsYearLength leap days }
    ensures { (index : ℕ) → index ≤ length (months_by_length leap days)
        → slice_index result.now index ≡ total_days (take index (months_by_length leap days)) }
{
    if leap {
        &STARTS[(days - 380) as usize]
    } else {
        &STARTS[(days - 353) as usize]
    }
}

/// The number of the month in which a day of the year lies, and its day of that month. `place` says how many days of
/// the year, which has so many days, come before it.
fn month_at(leap: bool, days: u16, place: u16) -> (u8, u8)
    requires length { IsYearLength leap days }
    requires inside { place < days }
    ensures first { 1 ≤ result.1 }
    ensures last { result.1 ≤ days_of_month (months_by_length leap days) result.0 }
    ensures sum { days_before_month (months_by_length leap days) result.0 + result.1 ≡ place + 1 }
    ensures small { (result.0 ≤ 99) × (result.1 ≤ 99) }
{
    let months = months_of_length(leap, days);
    let starts = starts_of_length(leap, days);
    // Every month has 30 days or one less, so that this is the index of the month or one less.
    let least = place as usize / 30;
    let index = least + (place >= starts[least + 1]) as usize;
    (months[index].number, (place - starts[index]) as u8 + 1)
}

/// When the year that the day lies in opens.
#[tactic(auto, using(crate::proofs::YearLengthLemmas::estimate))]
fn year_of_day(day: u32) -> Opening
    requires { day ≤ 6_000_000 }
    ensures high { result.year ≤ 99_999 }
    ensures after { result.day ≤ day }
    ensures before { (epoch +ℤ pos day) <ℤ new_year_of (result.year + 1) }
{
    // A mean year has 35975351 / 98496 days: the year found by it is the right one, or the one after the right one.
    let latest = ((day as u64 + 29) * 98_496 / 35_975_351) as u32 + 1;
    let opening = Opening::of_year(latest);
    if day < opening.day {
        return Opening::of_year(latest - 1);
    }
    opening
}

impl RuledCalendar for Hebrew {
    ghost rules = { hebrew_rules };

    fn has_year(&self, year: i32) -> bool {
        year >= 1
    }

    fn has_day(&self, day: i64) -> bool {
        day >= EPOCH
    }

    fn year(&self, number: i32) -> Year {
        let opening = Opening::of_year(number as u32);
        Year {
            number,
            start: EPOCH + opening.day as i64,
            months: months_of_length(opening.is_leap(), opening.days()),
        }
    }

    fn parts_on(&self, day: i64) -> (i32, u8, u8) {
        let day = (day - EPOCH) as u32;
        let opening = year_of_day(day);
        let (month, day) = month_at(
            opening.is_leap(),
            opening.days(),
            (day - opening.day) as u16,
        );
        (opening.year as i32, month, day)
    }
}

impl CalendarByRules for Hebrew {
    ghost one_to_one = { rules_one_to_one hebrew_rules };
}

/// The fixed day number of the Hebrew new year, 1 Tishri of `year`, which is from 1 to 100000.
///
/// A year opens on the day of its molad, the mean new moon of Tishri, or later by four postponements: the
/// next day where the molad is at noon or later; the day after where that would be a Sunday, a Wednesday or a
/// Friday; Thursday where the molad of a common year is on a Tuesday at 9 hours and 204 parts or later; and
/// Tuesday where the molad of a year after a leap year is on a Monday at 15 hours and 589 parts or later
/// (Reingold and Dershowitz, *Calendrical Calculations*, "The Hebrew Calendar"). It lies as many days after the
/// first day of year 1 as the years before it have together.
///
/// # Examples
///
/// ```
/// // The year 5766 opened on Tuesday, 4 October 2005.
/// let day = Day::new(hebrew_new_year(5766)).ok_or("out of range")?;
/// assert_eq!(rt; day.weekday(), Weekday::Tuesday);
/// assert_eq!(rt; Gregorian.date_on(day), Ymd::new(2005, 10, 4));
/// ```
#[tactic(auto, using(crate::proofs::YearLengthLemmas::year_start_is))]
pub fn hebrew_new_year(year: u32) -> i64
    requires low { 1 ≤ year }
    requires high { year ≤ 100_000 }
    ensures value { result ≡ new_year_of year }
    ensures start { result ≡ year_start hebrew_rules (pos year) }
{
    EPOCH + Opening::of_year(year).day as i64
}

/// The days of the Hebrew year `year`, which is from 1 to 99999: those from its new year to the next, 353, 354, 355,
/// 383, 384 or 385.
#[tactic(auto, using(crate::proofs::YearLengthLemmas::end_of_year, crate::proofs::YearLengthLemmas::total))]
pub fn hebrew_year_length(year: u32) -> u16
    requires low { 1 ≤ year }
    requires high { year ≤ 99_999 }
    ensures difference { pos result ≡ new_year_of (year + 1) -ℤ new_year_of year }
    ensures one_of_six { Contains year_lengths result }
    ensures sum { result ≡ total_days (hebrew_rules.months (pos year)) }
{
    Opening::of_year(year).days()
}
