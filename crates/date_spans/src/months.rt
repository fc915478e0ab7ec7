//! The months of a year.

ghost use Rattle.std.specs.Prelude.{◌≡◌, ◌≤◌, ◌↔◌, IsTrue, length, pos};
ghost use Rattle.day_numbers.specs.Rules.{are_months, days_of_month};
ghost use Rattle.date_spans.specs.Months.{first_month as first_spec, has_two_adars as two_spec, last_adar as adar_spec};
ghost use Rattle.date_spans.specs.Months.{last_month as last_spec, months_in, months_of as months_spec};

use date_texts::Calendar;
use day_numbers::rules::{Month, RuledCalendar, month_by_number};

/// The months of a year of a calendar in the order in which they run; none where the calendar has no such year.
#[tactic(auto, using(crate::proofs::MonthLemmas::months_are, crate::proofs::MonthLemmas::no_months))]
fn months_by<C: RuledCalendar>(calendar: &C, year: u32) -> &'static [Month]
    requires { year ≤ 99_999 }
    ensures value { result.now ≡ months_in C.rules year }
    ensures few { length result.now ≤ 13 }
    ensures numbered { IsTrue (are_months result.now) }
{
    let number = year as i32;
    if !calendar.has_year(number) {
        return &[];
    }
    calendar.year(number).months
}

/// The months of a year in the order in which they run; none where the calendar has no such year, or no months.
pub fn months_of(calendar: Calendar, year: u32) -> &'static [Month]
    requires { year ≤ 99_999 }
    ensures value { result.now ≡ months_spec calendar year }
    ensures few { length result.now ≤ 13 }
    ensures numbered { IsTrue (are_months result.now) }
{
    match calendar {
        Calendar::Gregorian => months_by(&solar_calendars::Gregorian, year),
        Calendar::Julian => months_by(&solar_calendars::Julian, year),
        Calendar::Coptic => months_by(&solar_calendars::Coptic, year),
        Calendar::Ethiopic => months_by(&solar_calendars::Ethiopic, year),
        Calendar::Egyptian => months_by(&solar_calendars::Egyptian, year),
        Calendar::Armenian => months_by(&solar_calendars::Armenian, year),
        Calendar::Islamic => months_by(&lunar_calendars::Islamic, year),
        Calendar::Hebrew => months_by(&lunar_calendars::Hebrew, year),
        Calendar::French => months_by(&solar_calendars::French, year),
        Calendar::Republican => months_by(&solar_calendars::Republican, year),
        Calendar::Iso | Calendar::Longcount | Calendar::Roman => &[],
    }
}

/// The number of the first of these months, or 0.
pub fn first_month(months: &[Month]) -> u8
    ensures { result ≡ first_spec months.now }
{
    match months {
        [first, ..] => first.number,
        [] => 0,
    }
}

/// The number of the last of these months, or 0.
pub fn last_month(months: &[Month]) -> u8
    ensures { result ≡ last_spec months.now }
{
    let mut last = 0;
    'months: for month in months {
        last = month.number;
    }
    last
}

/// The days of the month of this number, or 0.
#[tactic(auto, using(crate::proofs::MonthLemmas::no_large_month))]
pub fn days_in(months: &[Month], month: u32) -> u8
    requires few { length months.now ≤ 13 }
    requires numbered { IsTrue (are_months months.now) }
    ensures { result ≡ days_of_month months.now month }
{
    if month > 99 {
        return 0;
    }
    let (_, days) = month_by_number(months, month as u8);
    days
}

/// Whether a year of these months has Adar twice.
pub fn has_two_adars(months: &[Month]) -> bool
    requires few { length months.now ≤ 13 }
    requires numbered { IsTrue (are_months months.now) }
    ensures { result ≡ two_spec months.now }
{
    days_in(months, 13) != 0
}

/// The last month that is Adar.
pub fn last_adar(months: &[Month]) -> u8
    requires few { length months.now ≤ 13 }
    requires numbered { IsTrue (are_months months.now) }
    ensures { result ≡ adar_spec months.now }
{
    if has_two_adars(months) { 13 } else { 12 }
}
