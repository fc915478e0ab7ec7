//! Known dates of each calendar of years, months and days, and what it refuses.
//!
//! A line of a table is a year, a month and a day, and then the fixed day number of that date, or why the date
//! has none: `none` where the calendar has no such date, `out` where its day is out of range, and `never` where
//! these are not within the bounds of a date at all.

use super::table::{answer, numbers};
use day_numbers::{ArithmeticCalendar, DateFault, Day, Ymd};
use lunar_calendars::{Hebrew, Islamic};
use solar_calendars::{
    Armenian, Coptic, Egyptian, Ethiopic, French, Gregorian, IsoWeek, Julian, Republican,
};
use std::process::Abort;

static GREGORIAN: &str = "\
1 1 1 1
0 12 31 0
0 2 29 -306
0 2 27 -308
-4 2 29 -1767
-43 3 13 -15999
1582 10 15 577736
1600 2 29 584082
1700 2 28 620606
1700 3 1 620607
1752 9 14 639797
1945 11 12 710347
1970 1 1 719163
2000 2 29 730179
9999 12 31 3652059
9999 12 30 3652058
-9999 1 2 -3652423
-9999 1 1 -3652424
1700 2 29 none
-1 2 29 none
-5 2 29 none
1945 0 12 none
1945 13 12 none
1945 11 0 none
1945 11 31 none
10000 2 30 none
-10000 2 30 none
99999 2 29 none
-99999 99 99 none
10000 1 1 out
10000 2 29 out
99999 12 31 out
-10000 12 31 out
-10000 2 29 out
-99999 1 1 out
-99999 0 0 none
99999 99 99 none
-100000 1 1 never
100000 1 1 never
1 100 1 never
1 1 100 never
";

/// Those of the year's end, of Rome and of the reform are dates that history records, and some are the epochs of
/// other calendars.
static JULIAN: &str = "\
1 1 1 -1
-1 12 31 -2
-1 2 29 -308
-5 2 29 -1769
-44 3 15 -15999
-747 2 26 -272787
8 8 29 2796
284 8 29 103605
552 7 11 201443
622 7 16 227015
800 12 25 292192
1582 10 5 577736
1600 2 29 584092
1700 2 29 620617
1752 9 3 639797
1945 10 30 710347
2000 2 29 730192
9999 10 19 3652059
9999 10 18 3652058
-10000 3 20 -3652423
-10000 3 19 -3652424
0 1 1 none
0 2 29 none
-4 2 29 none
1582 10 32 none
1700 2 30 none
9999 11 31 none
10001 2 29 none
-10000 2 29 none
9999 10 20 out
10000 2 29 out
99999 12 31 out
-10000 3 18 out
-10001 2 29 out
-99999 1 1 out
";

/// The week stands in the month's place, and the day of the week in the day's.
static ISO_WEEK: &str = "\
1 1 1 1
1 1 7 7
1 2 1 8
0 1 1 -363
0 52 7 0
800 52 5 292192
1582 41 5 577736
1945 46 1 710347
1970 1 4 719163
2004 53 6 731947
2004 53 7 731948
2005 1 1 731949
9999 52 5 3652059
9999 52 4 3652058
-9999 1 2 -3652423
-9999 1 1 -3652424
2005 53 1 none
2005 0 1 none
2005 1 0 none
2005 1 8 none
10000 60 1 none
10000 53 1 none
-10000 53 1 none
99999 99 1 none
9999 52 6 out
10000 1 1 out
99999 52 7 out
-10000 52 7 out
-99999 1 1 out
";

static COPTIC: &str = "\
1 1 1 103605
3 13 6 104700
4 1 1 104701
1662 3 3 710347
9716 2 21 3652059
4 13 6 none
4 14 1 none
4 0 1 none
4 12 31 none
4 1 0 none
9716 2 22 out
0 1 1 none
-1 1 1 none
-99999 1 1 none
99999 1 31 none
99999 13 5 out
";

static ETHIOPIC: &str = "\
1 1 1 2796
3 13 6 3891
4 1 1 3892
1938 3 3 710347
9992 2 21 3652059
4 13 6 none
4 14 1 none
4 0 1 none
4 12 31 none
4 1 0 none
9992 2 22 out
0 1 1 none
-1 1 1 none
-99999 1 1 none
99999 1 31 none
99999 13 5 out
";

static EGYPTIAN: &str = "\
1 1 1 -272787
1 13 5 -272423
2 1 1 -272422
2694 7 10 710347
10754 1 2 3652059
1 13 6 none
1 14 1 none
1 0 1 none
1 12 31 none
1 1 0 none
10754 1 3 out
0 1 1 none
-1 1 1 none
-99999 1 1 none
99999 1 31 none
99999 13 5 out
";

static ARMENIAN: &str = "\
1 1 1 201443
1 13 5 201807
2 1 1 201808
1395 4 5 710347
9454 10 2 3652059
3 13 6 none
3 14 1 none
3 0 1 none
3 12 31 none
3 1 0 none
9454 10 3 out
0 1 1 none
-1 1 1 none
-99999 1 1 none
99999 1 31 none
99999 13 5 out
";

static FRENCH: &str = "\
1 1 1 654415
3 13 5 655509
4 13 6 655875
5 1 1 655876
100 13 5 690938
101 1 1 690939
154 2 21 710347
400 13 6 800511
401 1 1 800512
4000 13 5 2115383
4001 1 1 2115384
8000 13 5 3576352
8001 1 1 3576353
8208 4 13 3652059
3 13 6 none
3 14 1 none
3 0 1 none
3 12 31 none
3 1 0 none
8208 4 14 out
100 13 6 none
100 14 1 none
100 0 1 none
100 12 31 none
100 1 0 none
12000 13 5 out
4000 13 6 none
4000 14 1 none
4000 0 1 none
4000 12 31 none
4000 1 0 none
99999 1 1 out
12000 13 6 none
12000 14 1 none
12000 0 1 none
12000 12 31 none
12000 1 0 none
99999 13 5 out
0 1 1 none
-1 1 1 none
-99999 1 1 none
99999 1 31 none
99999 13 5 out
";

/// The first day of each year in use, 22 to 24 September of the Gregorian years 1792 to 1805, and the leap days, by the
/// tables of concordance; 22 Prairial and 9 Thermidor of year 2, 13 Vendémiaire of year 4, 18 Fructidor of year 5, 18
/// Brumaire of year 8, and 10 Nivôse of year 14, the last day in use; the last day in range; and what lies beside them.
static REPUBLICAN: &str = "\
1 1 1 654415
2 1 1 654780
3 1 1 655145
4 1 1 655511
5 1 1 655876
6 1 1 656241
7 1 1 656606
8 1 1 656972
9 1 1 657337
10 1 1 657702
11 1 1 658067
12 1 1 658433
13 1 1 658798
14 1 1 659163
3 13 6 655510
7 13 6 656971
11 13 6 658432
2 9 22 655041
2 11 9 655088
4 1 13 655523
5 12 18 656223
8 2 18 657019
14 4 10 659262
8208 2 8 3652059
4 13 6 none
8 13 6 none
12 13 6 none
3 13 7 none
3 14 1 none
3 0 1 none
3 12 31 none
3 1 0 none
8208 2 9 out
99999 1 1 out
99999 13 6 out
0 1 1 none
-1 1 1 none
-99999 1 1 none
99999 1 31 none
99998 13 6 none
";

/// The first day, a leap day, a day of 1945, the first days of the last years, and the last day in range; and what
/// lies beside them.
static ISLAMIC: &str = "\
1 1 1 227015
2 12 30 227723
1364 12 6 710347
9665 1 1 3651614
9665 12 30 3651968
9666 1 1 3651969
9666 4 2 3652059
1 12 30 none
0 12 29 none
-1 1 1 none
1 0 1 none
1 13 1 none
1 1 0 none
1 2 30 none
1 1 31 none
99999 2 30 none
9666 4 3 out
9666 12 29 out
99999 12 29 out
";

/// The first day, new years put off from Tuesday and from Monday, a day of 1945, the last day in range; and what lies
/// beside them, as day 30 of a month of 29 days and the second Adar of a common year. The new years of 5700 to 5712
/// follow years of each length.
static HEBREW: &str = "\
1 7 1 -1373427
2 7 1 -1373072
3 7 1 -1372717
5700 7 1 708096
5701 7 1 708481
5702 7 1 708835
5703 7 1 709190
5704 7 1 709573
5706 9 7 710347
5710 7 1 711759
5711 7 1 712112
5712 7 1 712496
5745 7 1 724546
5766 7 1 732223
13759 7 1 3651617
13760 7 1 3652002
13760 8 28 3652059
5706 8 30 none
5707 13 1 none
0 6 29 none
-1 7 1 none
5706 0 1 none
5706 14 1 none
5706 7 0 none
5706 7 31 none
99999 10 30 none
13760 8 29 out
13760 6 29 out
13761 7 1 out
99999 6 29 out
";

/// Whether the date of these has this fixed day number, and is the date on that day, or is refused with this fault; or
/// there is no such date, where no answer is given.
pub fn has_answer<C: ArithmeticCalendar>(
    calendar: &C,
    (year, month, day): (i32, u8, u8),
    answer: Option<Result<i64, DateFault>>,
) -> bool {
    let (Some(date), Some(answer)) = (Ymd::new(year, month, day), answer) else {
        return answer.is_none() && Ymd::new(year, month, day).is_none();
    };
    let number = match answer {
        Ok(number) => number,
        Err(fault) => return calendar.day_of(date) == Err(fault),
    };
    let Some(on) = Day::new(number) else {
        return false;
    };
    calendar.day_of(date) == Ok(on)
        && calendar.date_on(on) == Some(date)
        && (date.year(), date.month(), date.day()) == (year, month, day)
}

/// Whether the day with this fixed day number is in range, and the calendar has no date on it.
fn has_no_date<C: ArithmeticCalendar>(calendar: &C, number: i64) -> bool {
    let Some(day) = Day::new(number) else {
        return false;
    };
    calendar.date_on(day).is_none()
}

/// Whether the date on a line has the answer on it.
fn is_right<C: ArithmeticCalendar>(calendar: &C, line: &str) -> bool {
    let [Some(year), Some(month), Some(day), number, _, _] = numbers(line) else {
        return false;
    };
    let (Ok(month), Ok(day)) = (u8::try_from(month), u8::try_from(day)) else {
        return false;
    };
    has_answer(calendar, (year, month, day), answer(line, number))
}

/// Each date of the table has the answer on its line.
fn check<C: ArithmeticCalendar>(rt: &impl Abort, calendar: &C, table: &str) {
    for line in table.lines() {
        assert!(rt; is_right(calendar, line), "at {line}");
    }
}

/// The same of a calendar whose years begin with year 1, which has no date before its epoch.
fn check_from_epoch<C: ArithmeticCalendar>(rt: &impl Abort, calendar: &C, epoch: i64, table: &str) {
    check(rt, calendar, table);
    assert!(rt;
        has_no_date(calendar, epoch.saturating_sub(1)) && has_no_date(calendar, -3_652_424)
    );
}

#[test]
fn known_dates(rt: HostRuntime) {
    check(&rt, &Gregorian, GREGORIAN);
    check(&rt, &Julian, JULIAN);
    check(&rt, &IsoWeek, ISO_WEEK);
    check_from_epoch(&rt, &Coptic, 103_605, COPTIC);
    check_from_epoch(&rt, &Ethiopic, 2_796, ETHIOPIC);
    check_from_epoch(&rt, &Egyptian, -272_787, EGYPTIAN);
    check_from_epoch(&rt, &Armenian, 201_443, ARMENIAN);
    check_from_epoch(&rt, &French, 654_415, FRENCH);
    check_from_epoch(&rt, &Republican, 654_415, REPUBLICAN);
    check_from_epoch(&rt, &Islamic, 227_015, ISLAMIC);
    check_from_epoch(&rt, &Hebrew, -1_373_427, HEBREW);
}
