//! Days and their weekdays.

use super::table::numbers;
use day_numbers::{DateFault, Day};

/// Weekdays of known days: the ends of the range, the days round R.D. 1, and 1 January 1970; and what is out of range.
static WEEKDAYS: &str = "\
-3652424 Monday
-1 Saturday
0 Sunday
1 Monday
2 Tuesday
-15999 Wednesday
719163 Thursday
3652059 Friday
-3652425 never
3652060 never
";

/// Whether the number on a line makes a day that has this number and the day of the week on the line.
fn is_right(line: &str) -> bool {
    let [Some(number), ..] = numbers(line) else {
        return false;
    };
    let Some(day) = Day::new(number as i64) else {
        return line.ends_with("never");
    };
    day.number() == number as i64 && line.ends_with(day.weekday().name())
}

#[test]
fn days_have_weekdays(rt: HostRuntime) {
    for line in WEEKDAYS.lines() {
        assert!(rt; is_right(line), "at {line}");
    }
    assert!(rt; Day::new(i64::MIN).is_none() && Day::new(i64::MAX).is_none());
}

#[test]
fn faults_have_numbers(rt: HostRuntime) {
    assert!(rt; DateFault::NoSuchDate.number() == 6 && DateFault::OutOfRange.number() == 7);
}
