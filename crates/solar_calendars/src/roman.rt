//! The days of Roman dates and the Roman dates of days, by the day of the month of the Julian calendar.
//!
//! The definitions count back from the Kalends, Nones and Ides, by their day numbers. The code goes by the day of the
//! month: a name says how far a day lies from the Kalends of the month in the date, and a Julian day of the month has
//! one name.

ghost use Rattle.std.specs.Prelude.{◌≡◌, ◌↔◌, ◌≤◌, ◌<◌, ◌+◌, ◌-◌, pos, neg_ℤ, ◌-ℤ◌};
ghost use Rattle.std.specs.Prelude.{IsSome, IfSome, ◌==◌, ◌&&◌};
ghost use Rattle.day_numbers.specs.Dates.{IsBetween, IsDayOf, IsYear};
ghost use Rattle.day_numbers.specs.Rules.{HasYear, without_zero};
ghost use Rattle.solar_calendars.specs.Julian.{is_julian_leap};
ghost use Rattle.solar_calendars.specs.Roman.{day_of_ides as ides_spec, has_two_sixths as two_sixths, count_of};
ghost use Rattle.solar_calendars.specs.Roman.{roman_day_number, IsRomanDate};
ghost use Rattle.solar_calendars.specs.private.RomanPlaces.{day_of_nones as nones_spec};
ghost use Rattle.solar_calendars.specs.private.RomanPlaces.{month_length, prior_length, prior_ides, HasPlace};
ghost use Rattle.solar_calendars.specs.private.RomanPlaces.{kalends as kalends_spec, kalends_back, place as place_spec};
ghost use Rattle.solar_calendars.specs.private.RomanPlaces.{name_within as within_spec, name_after as after_spec};
ghost use Rattle.solar_calendars.specs.private.RomanPlaces.{year_of_next_month as next_year_spec, parts_on, parts_of};
ghost use Rattle.solar_calendars.specs.declared.roman_date.RomanDate.{RomanDate};
ghost use Rattle.solar_calendars.specs.declared.roman_date.RomanName.{RomanName};

use crate::julian::{Julian, is_leap};
use crate::roman_date::{RomanDate, RomanName};
use crate::twelve_months::twelve_months;
use day_numbers::rules::{RuledCalendar, month_by_number};
use day_numbers::{ArithmeticCalendar, DateFault, Day};

/// The day of the Ides in each month, January first.
static IDES: [u8; 12] = [13, 13, 15, 13, 15, 13, 15, 13, 13, 15, 13, 13];

/// The day of the month of the Ides.
fn day_of_ides(month: u8) -> u8
    requires { (1 ≤ month) × (month ≤ 12) }
    ensures { result ≡ ides_spec month }
{
    IDES[month as usize - 1]
}

/// The day of the month of the Nones.
fn day_of_nones(month: u8) -> u8
    requires { (1 ≤ month) × (month ≤ 12) }
    ensures { result ≡ nones_spec month }
{
    day_of_ides(month) - 8
}

/// Whether two days before the Kalends of the month are the sixth.
fn has_two_sixths(year: i32, month: u8) -> bool
    ensures { result ≡ two_sixths year month }
{
    month == 3 && is_leap(year)
}

/// The fixed day number of the Kalends of a month.
fn kalends(year: i32, month: u8) -> i64
    requires has { HasYear without_zero year }
    requires near { IsYear year }
    ensures value { result ≡ kalends_spec year month }
    ensures near { IsBetween (neg_ℤ (pos 100_070_000)) (pos 100_070_000) result }
{
    let year = Julian.year(year);
    let (before, _) = month_by_number(year.months, month);
    year.start + before as i64
}

/// Whether the month is February of a leap year.
fn is_leap_february(year: i32, month: u8) -> bool
    ensures { result ≡ ((month == 2) && is_julian_leap year) }
{
    month == 2 && is_leap(year)
}

/// How many days the month has.
fn length_of_month(year: i32, month: u8) -> u8
    requires { (1 ≤ month) × (month ≤ 12) }
    ensures { result ≡ month_length year month }
{
    if is_leap_february(year, month) {
        return 29;
    }
    twelve_months(false)[month as usize - 1].days
}

/// How many days the month before a month has.
fn length_before(year: i32, month: u8) -> u8
    requires { (1 ≤ month) × (month ≤ 12) }
    ensures { result ≡ prior_length year month }
{
    if month == 1 {
        31
    } else {
        length_of_month(year, month - 1)
    }
}

/// The day of the Ides of the month before a month.
fn ides_before(month: u8) -> u8
    requires { (1 ≤ month) × (month ≤ 12) }
    ensures { result ≡ prior_ides month }
{
    if month == 1 {
        13
    } else {
        day_of_ides(month - 1)
    }
}

/// How many days after the Kalends of its month a day lies that is counted back from the day `principal` of that
/// month, where it is that day or lies after the day `preceding`.
fn place_within(preceding: u8, principal: u8, count: u8) -> Option<i64>
    ensures valid { IsSome result ↔ ((1 ≤ count) × (count + preceding ≤ principal)) }
    ensures value { IfSome result (λ p. p ≡ pos principal -ℤ pos count) }
{
    if count < 1 || count as u16 + preceding as u16 > principal as u16 {
        return None;
    }
    Some(principal as i64 - count as i64)
}

/// The day of the month before, counted back from the Kalends of a month; below 1 where the count is too great.
fn day_before_kalends(year: i32, month: u8, count: u8) -> i64
    requires month { (1 ≤ month) × (month ≤ 12) }
    requires count { 1 ≤ count }
    ensures { result ≡ pos (prior_length year month + 1)
        -ℤ pos (kalends_back (two_sixths year month) count) }
{
    if count >= 6 && has_two_sixths(year, month) {
        30 - count as i64
    } else {
        length_before(year, month) as i64 + 2 - count as i64
    }
}

/// How many days after the Kalends of a month a day lies that is counted back from them; 0 or less.
fn place_before_kalends(year: i32, month: u8, count: u8) -> Option<i64>
    requires { (1 ≤ month) × (month ≤ 12) }
    ensures valid { IsSome result ↔ HasPlace year month (RomanName.Kalends count) }
    ensures value { IfSome result
        (λ p. p ≡ place_spec (two_sixths year month) (ides_spec month) (RomanName.Kalends count)) }
{
    if count < 1 {
        return None;
    }
    let day = day_before_kalends(year, month, count);
    if day <= ides_before(month) as i64 {
        return None;
    }
    Some(day - 1 - length_before(year, month) as i64)
}

/// How many days after the Kalends of the month the day with this name lies, or `None` where the name is no day's.
fn place(year: i32, month: u8, name: RomanName) -> Option<i64>
    requires { (1 ≤ month) × (month ≤ 12) }
    ensures valid { IsSome result ↔ HasPlace year month name }
    ensures value { IfSome result (λ p. p ≡ place_spec (two_sixths year month) (ides_spec month) name) }
{
    match name {
        RomanName::Kalends(count) => place_before_kalends(year, month, count),
        RomanName::Nones(count) => place_within(1, day_of_nones(month), count),
        RomanName::Ides(count) => place_within(day_of_nones(month), day_of_ides(month), count),
        RomanName::SecondSixth => {
            if has_two_sixths(year, month) {
                Some(-5)
            } else {
                None
            }
        }
    }
}

/// The fixed day number of a Roman date, where it is valid.
fn day_number(year: i32, month: u8, name: RomanName) -> Option<i64>
    requires { IsYear year }
    ensures valid { IsSome result ↔ IsRomanDate year month name }
    ensures value { IfSome result (λ n. n ≡ roman_day_number year month name) }
{
    if year == 0 || month < 1 || month > 12 {
        return None;
    }
    let kalends = kalends(year, month);
    match place(year, month, name) {
        Some(place) => Some(kalends + place),
        None => None,
    }
}

/// The day of a Roman date.
///
/// A date is valid where the Julian calendar has the year and the month, and the principal day of the name is the first
/// from the day on: the count is at least 1, and the day is that principal day or lies after the one before it. Before
/// the Kalends of March of a leap year, and nowhere else, two days are the sixth (Reingold and Dershowitz, *Calendrical
/// Calculations*, "Roman Nomenclature").
///
/// # Errors
///
/// `NoSuchDate` exactly where the date is not valid, whatever its day would be; `OutOfRange` exactly where it is valid
/// and its fixed day number is not from -3652424 to 3652059.
pub fn roman_day_of(date: &RomanDate) -> Result<Day, DateFault>
    ensures { IsDayOf (IsRomanDate date.now.year date.now.month date.now.name)
        (roman_day_number date.now.year date.now.month date.now.name) DateFault.NoSuchDate DateFault.OutOfRange result }
{
    match day_number(date.year(), date.month(), date.name()) {
        Some(number) => Day::new(number).ok_or(DateFault::OutOfRange),
        None => Err(DateFault::NoSuchDate),
    }
}

/// The name of a day up to the Ides of its month.
fn name_within(month: u8, day: u8) -> RomanName
    requires month { (1 ≤ month) × (month ≤ 12) }
    requires day { (1 ≤ day) × (day ≤ ides_spec month) }
    ensures value { result ≡ within_spec (ides_spec month) day }
    ensures small { count_of result ≤ 99 }
{
    let nones = day_of_nones(month);
    if day == 1 {
        RomanName::Kalends(1)
    } else if day <= nones {
        RomanName::Nones(nones + 1 - day)
    } else {
        RomanName::Ides(day_of_ides(month) + 1 - day)
    }
}

/// The name of a day after the Ides of its month, which is February of a leap year or has this length.
fn name_after(is_leap_february: bool, length: u8, day: u8) -> RomanName
    requires { (day ≤ length) × (length ≤ 31) }
    ensures value { result ≡ after_spec is_leap_february length day }
    ensures small { count_of result ≤ 99 }
{
    if !is_leap_february {
        return RomanName::Kalends(length + 2 - day);
    }
    match day {
        ..=24 => RomanName::Kalends(30 - day),
        25 => RomanName::SecondSixth,
        _ => RomanName::Kalends(31 - day),
    }
}

/// The year of the month after a month.
fn year_of_next_month(year: i32, month: u8) -> i32
    requires { IsBetween (neg_ℤ (pos 99_999)) (pos 99_998) year }
    ensures value { result ≡ next_year_spec year month }
    ensures near { IsYear result }
{
    if month != 12 {
        year
    } else if year == -1 {
        1
    } else {
        year + 1
    }
}

/// The Roman date of a Julian date.
fn roman_date(year: i32, month: u8, day: u8) -> RomanDate
    requires near { IsBetween (neg_ℤ (pos 99_999)) (pos 99_998) year }
    requires month { (1 ≤ month) × (month ≤ 12) }
    requires day { (1 ≤ day) × (day ≤ month_length year month) }
    ensures { parts_of result ≡ parts_on year month day }
{
    if day <= day_of_ides(month) {
        let name = name_within(month, day);
        return RomanDate { year, month, name };
    }
    let name = name_after(
        is_leap_february(year, month),
        length_of_month(year, month),
        day,
    );
    RomanDate {
        year: year_of_next_month(year, month),
        month: if month == 12 { 1 } else { month + 1 },
        name,
    }
}

/// The Roman date of a day: the one valid date whose day this is.
pub fn roman_on(day: Day) -> RomanDate
    ensures valid { IsRomanDate result.year result.month result.name }
    ensures value { roman_day_number result.year result.month result.name ≡ day.number }
    ensures only { (date : RomanDate) → IsRomanDate date.year date.month date.name
        → roman_day_number date.year date.month date.name ≡ day.number → result ≡ date }
{
    let date = Julian.date_on(day).unwrap();
    roman_date(date.year(), date.month(), date.day())
}
