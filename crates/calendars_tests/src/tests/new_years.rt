//! The new years of the Hebrew calendar.

use lunar_calendars::{hebrew_new_year, hebrew_year_length};

/// Whether the Hebrew year opens on the day with this fixed day number, and has so many days.
fn has_new_year(year: u32, new_year: i64, length: u16) -> bool {
    (1..=99_999).contains(&year)
        && hebrew_new_year(year) == new_year
        && hebrew_year_length(year) == length
}

/// New years and lengths that the closed form of Reingold and Dershowitz gives. The molads of 75795, 82082
/// and 88369 are at noon exactly, and that of 88370 is on a Monday at exactly 15 hours and 589 parts.
#[test]
fn hebrew_years(rt: HostRuntime) {
    for (year, new_year, length) in [
        (1, -1_373_427, 355),
        (2, -1_373_072, 355),
        (5706, 710_282, 383),
        (5707, 710_665, 354),
        (5745, 724_546, 354),
        (5746, 724_900, 383),
        (5766, 732_223, 354),
        (75_795, 26_310_089, 353),
        (82_082, 28_606_388, 353),
        (88_369, 30_902_687, 383),
        (88_370, 30_903_070, 354),
        (99_999, 35_150_515, 353),
    ] {
        assert!(rt; has_new_year(year, new_year, length), "in {year}");
    }
    assert!(rt; hebrew_new_year(100_000) == 35_150_868);
}

/// Whether a Hebrew year has thirteen months, by its place in nineteen years.
fn has_thirteen_months(year: u32) -> bool {
    [0, 3, 6, 8, 11, 14, 17].contains(&(year % 19))
}

/// The day that a year opens on, by the three cases in their order.
fn opening_day(leap: bool, after_leap: bool, day: i64, time: u64) -> i64 {
    let weekday = day.rem_euclid(7);
    if !leap && weekday == 2 && time >= 9_924 {
        return day.wrapping_add(2);
    }
    if after_leap && weekday == 1 && time >= 16_789 {
        return day.wrapping_add(1);
    }
    let allowed = if time >= 19_440 {
        day.wrapping_add(1)
    } else {
        day
    };
    if [0, 3, 5].contains(&allowed.rem_euclid(7)) {
        return allowed.wrapping_add(1);
    }
    allowed
}

/// The new years found plainly: the months of one year after another are added up, and the molad that
/// they lead to is put off by the three cases in their order.
#[test]
fn hebrew_new_years_by_the_molad(rt: HostRuntime) {
    let mut months: u64 = 0;
    let mut after_leap = true;
    for year in 1..=600 {
        let leap = has_thirteen_months(year);
        let molad = months.wrapping_mul(765_433).wrapping_add(5_604);
        let day = ((molad / 25_920) as i64).wrapping_sub(1_373_427);
        let new_year = opening_day(leap, after_leap, day, molad % 25_920);
        assert!(rt; hebrew_new_year(year) == new_year, "in {year}");
        months = months.wrapping_add(if leap { 13 } else { 12 });
        after_leap = leap;
    }
}
