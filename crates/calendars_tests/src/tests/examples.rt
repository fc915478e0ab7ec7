//! The examples in the doc comments of `day_numbers`, of the crates of calendars and of `church_year`, each under the name
//! of its item. The lines are the same in both places.

use church_year::{Anchor, Church, Feast, Place, feast_date};
use day_numbers::{ArithmeticCalendar, DateFault, Day, Weekday, Ymd};
use lunar_calendars::hebrew_new_year;
use solar_calendars::{Gregorian, Julian};
use std::test::Fail;

/// `Day::new`
#[test]
fn a_day_has_a_number_and_a_weekday(rt: HostRuntime) -> Result<(), Fail> {
    // 1 January 1970 was a Thursday.
    let day = Day::new(719_163).ok_or("out of range")?;
    assert_eq!(rt; day.weekday(), Weekday::Thursday);
    assert!(rt; Day::new(3_652_060).is_none());
    Ok(())
}

/// `ArithmeticCalendar::day_of`
#[test]
fn a_date_of_one_calendar_is_another_s(rt: HostRuntime) -> Result<(), Fail> {
    let date = Ymd::new(1582, 10, 5).ok_or("out of bounds")?;
    let day = Julian.day_of(date)?;
    assert_eq!(rt; Gregorian.date_on(day), Ymd::new(1582, 10, 15));
    let year_zero = Ymd::new(0, 1, 1).ok_or("out of bounds")?;
    assert_eq!(rt; Julian.day_of(year_zero), Err(DateFault::NoSuchDate));
    Ok(())
}

/// `hebrew_new_year`
#[test]
fn a_hebrew_year_opens(rt: HostRuntime) -> Result<(), Fail> {
    // The year 5766 opened on Tuesday, 4 October 2005.
    let day = Day::new(hebrew_new_year(5766)).ok_or("out of range")?;
    assert_eq!(rt; day.weekday(), Weekday::Tuesday);
    assert_eq!(rt; Gregorian.date_on(day), Ymd::new(2005, 10, 4));
    Ok(())
}

/// `feast_date`
#[test]
fn a_feast_has_its_date(rt: HostRuntime) -> Result<(), Fail> {
    // Friday after St Michael, 1389.
    let michael = Feast::Day(Anchor::Fixed(9, 29), 0);
    let friday = Place::After(Weekday::Friday);
    assert_eq!(rt;
        feast_date(Church::Julian, 1389, michael, friday),
        Ymd::new(1389, 10, 1)
    );
    Ok(())
}
