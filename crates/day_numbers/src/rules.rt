//! Calendars that are given by rules: an epoch, which years there are, and the months of each year.
//!
//! The definitions sum these lists, and no closed formula stands in them. A calendar says in
//! [`RuledCalendar`] by which formulas it finds a year by its number and the date on a day, and
//! [`day_by_rules`] and [`date_by_rules`] are then `day_of` and `date_on` of its `ArithmeticCalendar`.

ghost use Rattle.std.specs.Prelude.{◌≡◌, ◌↔◌, ◌≤◌, pos, neg_ℤ, IsTrue, IsSome, IfSome, Some, length};
ghost use Rattle.day_numbers.specs.declared.ymd.Ymd.{Ymd};
ghost use Rattle.day_numbers.specs.Days.{IsDayNumber};
ghost use Rattle.day_numbers.specs.Dates.{IsBetween, IsDayOf, IsYear};
ghost use Rattle.day_numbers.specs.Rules.{Rules, HasYear, HasDayOf, IsDateOf, day_number_of, year_start as start};
ghost use Rattle.day_numbers.specs.Rules.{days_of_month, days_before_month, are_months};

use crate::calendar::DateFault;
use crate::day::Day;
use crate::ymd::Ymd;

/// A month of a year: its number and how many days it has, each from 0 to 99 in the years of a calendar.
#[derive(Clone, Copy, PartialEq, Eq, Debug)]
pub struct Month {
    pub number: u8,
    pub days: u8,
}

/// The months of these numbers and days, in the order in which they run.
#[macro_export]
macro_rules! months {
    ($($number:literal: $days:literal),+ $(,)?) => {
        [$($crate::rules::Month { number: $number, days: $days }),+]
    };
}

/// A year of a calendar: its number, from -99999 to 99999, the fixed day number of its first day, from -100000000 to
/// 100000000, and its months in the order in which they run.
#[derive(Clone, Copy, Debug)]
pub struct Year {
    pub number: i32,
    pub start: i64,
    pub months: &'static [Month],
}

/// A calendar that is given by rules, with the formulas by which its dates and days are found.
///
/// A year is from -99999 to 99999 wherever one is taken or given.
pub trait RuledCalendar {
    /// The epoch, which years there are, and the months of each.
    ghost rules: { Rules };

    /// Whether the calendar has the year.
    fn has_year(&self, year: i32) -> bool
        ensures { IsTrue result ↔ HasYear rules.years year };

    /// Whether the calendar has a date on the day with this fixed day number.
    fn has_day(&self, day: i64) -> bool
        ensures { IsTrue result ↔ HasDayOf rules day };

    /// The year of this number, which is one that the calendar has.
    fn year(&self, number: i32) -> Year
        requires has { HasYear rules.years number }
        requires in_range { IsYear number }
        ensures number { result.number ≡ number }
        ensures start { result.start ≡ start rules number }
        ensures months { result.months.now ≡ rules.months number }

        ensures near { IsBetween (neg_ℤ (pos 100_000_000)) (pos 100_000_000) result.start }
        ensures few { length result.months.now ≤ 13 }
        ensures numbered { IsTrue (are_months result.months.now) };

    /// The year, the month and the day of the date on the day with this fixed day number. The day is from -3652424 to
    /// 3652059, and one that the calendar has a date on.
    fn parts_on(&self, day: i64) -> (i32, u8, u8)
        requires in_range { IsDayNumber day }
        requires has { HasDayOf rules day }
        ensures year { IsYear result.0 }
        ensures small { (result.1 ≤ 99) × (result.2 ≤ 99) }
        ensures date { IsDateOf rules result.0 result.1 result.2 }
        ensures day { day_number_of rules result.0 result.1 result.2 ≡ day };
}

/// The days of the months before the month of this number, and that month's days; all the days and 0
/// where no month has the number. There are at most 13 months.
pub fn month_by_number(months: &[Month], number: u8) -> (u16, u8)
    requires { length months.now ≤ 13 }
    ensures before { result.0 ≡ days_before_month months.now number }
    ensures days { result.1 ≡ days_of_month months.now number }
{
    let mut before = 0;
    for month in months {
        if month.number == number {
            return (before, month.days);
        }
        before += month.days as u16;
    }
    (before, 0)
}

/// The fixed day number of a date, where the calendar has it.
fn day_number_by_rules<C: RuledCalendar>(calendar: &C, date: Ymd) -> Option<i64>
    ensures valid { IsSome result ↔ IsDateOf C.rules date.year date.month date.day }
    ensures value { IfSome result (λ n. n ≡ day_number_of C.rules date.year date.month date.day) }
{
    let number = date.year();
    if !calendar.has_year(number) {
        return None;
    }
    let year = calendar.year(number);
    let (before, days) = month_by_number(year.months, date.month());
    let day = date.day();
    if day < 1 || day > days {
        return None;
    }
    Some(year.start + before as i64 + day as i64 - 1)
}

/// `day_of` of a calendar that is given by rules: the day of a date.
///
/// # Errors
///
/// `NoSuchDate` exactly where the rules have no such date; `OutOfRange` exactly where they have it and
/// its fixed day number is not from -3652424 to 3652059.
pub fn day_by_rules<C: RuledCalendar>(calendar: &C, date: Ymd) -> Result<Day, DateFault>
    ensures { IsDayOf (IsDateOf C.rules date.year date.month date.day)
        (day_number_of C.rules date.year date.month date.day) DateFault.NoSuchDate DateFault.OutOfRange result }
{
    match day_number_by_rules(calendar, date) {
        Some(number) => Day::new(number).ok_or(DateFault::OutOfRange),
        None => Err(DateFault::NoSuchDate),
    }
}

/// A date on a day, where the calendar has one. That it is the only one follows in [`date_by_rules`].
#[inline(always)]
fn some_date_by_rules<C: RuledCalendar>(calendar: &C, day: Day) -> Option<Ymd>
    ensures dated { IsSome result ↔ HasDayOf C.rules day.number }
    ensures value { IfSome result (λ date. IsDateOf C.rules date.year date.month date.day
        × (day_number_of C.rules date.year date.month date.day ≡ day.number)) }
{
    let number = day.number();
    if !calendar.has_day(number) {
        return None;
    }
    let (year, month, day) = calendar.parts_on(number);
    Some(Ymd { year, month, day })
}

/// `date_on` of a calendar that is given by rules: the one date whose day this is, or `None` exactly
/// before the calendar's first day.
#[inline(always)]
pub fn date_by_rules<C: RuledCalendar>(calendar: &C, day: Day) -> Option<Ymd>
    ensures dated { IsSome result ↔ HasDayOf C.rules day.number }
    ensures value { IfSome result (λ date. IsDateOf C.rules date.year date.month date.day
        × (day_number_of C.rules date.year date.month date.day ≡ day.number)) }
    ensures only { (date : Ymd) → IsDateOf C.rules date.year date.month date.day
        → day_number_of C.rules date.year date.month date.day ≡ day.number → result ≡ Some date }
{
    some_date_by_rules(calendar, day)
}
