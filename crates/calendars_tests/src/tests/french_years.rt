//! The French calendar as it was used beside the one by the arithmetic leap rule.

use day_numbers::{ArithmeticCalendar, Day};
use solar_calendars::{French, Republican};

/// The date in use on the day that has this date by the arithmetic rule: the same date, but one day back in the years 4,
/// 8 and 12. There the first day of the year by that rule is the sixth extra day of the year before, and the sixth extra
/// day the fifth.
fn in_use((year, month, day): (i32, u8, u8)) -> (i32, u8, u8) {
    match (month, day) {
        _ if year % 4 != 0 => (year, month, day),
        (1, 1) => (year.saturating_sub(1), 13, 6),
        (_, 1) => (year, month.saturating_sub(1), 30),
        _ => (year, month, day.saturating_sub(1)),
    }
}

/// The year, the month and the day on the day with this fixed day number.
fn parts_on<C: ArithmeticCalendar>(calendar: &C, number: i64) -> Option<(i32, u8, u8)> {
    let date = calendar.date_on(Day::new(number)?)?;
    Some((date.year(), date.month(), date.day()))
}

/// Each day of the years 1 to 14, from 22 September 1792 to 22 September 1806.
#[test]
fn years_in_use_beside_the_arithmetic_ones(rt: HostRuntime) {
    for number in 654_415..=659_527 {
        let wanted = parts_on(&French, number).map(in_use);
        assert!(rt;
            wanted.is_some() && parts_on(&Republican, number) == wanted,
            "at {number}"
        );
    }
}
