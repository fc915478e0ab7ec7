//! Dates before and behind a change of calendars, and the calendar of empty fields. Days are those of Python's `datetime`,
//! Julian ones those of the formula for Julian day numbers.

use super::table::{Case, DATE_0_IN_1, DAY_AND_GREGORIAN, DAY_FIRST, wrong_sheet};
use date_texts::Calendar;
use sheets::{CalendarColumn, CalendarField, DateColumn, Spans};
use std::test::Fail;
use written_dates::CalendarMeaning;

/// The last Julian day, days that were left out, the first Gregorian day, a Julian leap day, a day of both calendars'
/// weekdays, and what is no date.
const CHANGE: Case = Case {
    delimiter: b';',
    above: 0,
    dates: &DATE_0_IN_1,
    columns: &DAY_AND_GREGORIAN,
    spans: Spans::Unread,
    reading: DAY_FIRST,
    sheet: "D;C\n4.10.1582;Spanien\n5.10.1582;Spanien\n1582-10-14;Spanien\n15.10.1582;Spanien\n29.2.1500;Spanien\n\
        29.2.1700;Spanien\n12. Mai 1806;Spanien\nMai;Spanien\n;Spanien\n4.10.1582;gregorian\n",
    wanted: "D;C;rd;gregorian;refusal\n4.10.1582;Spanien;577735;1582-10-14;\n5.10.1582;Spanien;;;6\n\
        1582-10-14;Spanien;;;6\n15.10.1582;Spanien;577736;1582-10-15;\n29.2.1500;Spanien;547567;1500-03-10;\n\
        29.2.1700;Spanien;;;6\n12. Mai 1806;Spanien;659394;1806-05-12;\nMai;Spanien;;;5\n;Spanien;;;5\n\
        4.10.1582;gregorian;577725;1582-10-04;\n",
    rows: 10,
    counts: &[(4, 1)],
};

/// A month and a year over the change, a month before it, a range over it, one that ends in the days left out, and an
/// open one.
const CHANGE_OF_SPANS: Case = Case {
    delimiter: b';',
    above: 0,
    dates: &DATE_0_IN_1,
    columns: &DAY_AND_GREGORIAN,
    spans: Spans::Ends,
    reading: DAY_FIRST,
    sheet: "D;C\n1582;Spanien\nMai 1582;Spanien\n4.10.1582 bis 15.10.1582;Spanien\n4.10.1582 bis 12.10.1582;Spanien\n\
        nach 1582;Spanien\n",
    wanted: "D;C;first rd;first gregorian;last rd;last gregorian;mark;refusal\n\
        1582;Spanien;577459;1582-01-11;577813;1582-12-31;;\n\
        Mai 1582;Spanien;577579;1582-05-11;577609;1582-06-10;;\n\
        4.10.1582 bis 15.10.1582;Spanien;577735;1582-10-14;577736;1582-10-15;;\n\
        4.10.1582 bis 12.10.1582;Spanien;577735;1582-10-14;;;;6\n\
        nach 1582;Spanien;577814;1583-01-01;;;after;\n",
    rows: 5,
    counts: &[(1, 0)],
};

const JULIAN_WHERE_EMPTY: [DateColumn; 1] = [DateColumn {
    date: 0,
    calendar: CalendarField::Column(CalendarColumn {
        place: 1,
        otherwise: Some(CalendarMeaning::One(Calendar::Julian)),
    }),
}];

/// A field of a calendar that is empty, one of blanks, and others; a text that is longer than a date.
const EMPTY_CALENDARS: Case = Case {
    delimiter: b';',
    above: 0,
    dates: &JULIAN_WHERE_EMPTY,
    columns: &DAY_AND_GREGORIAN,
    spans: Spans::Unread,
    reading: DAY_FIRST,
    sheet: "D;C\n4.10.1582;\n4.10.1582; \n4.10.1582;gregorian\n4.10.1582;mondisch\n\
        am vierten Tag des Monats Oktober 1582;\n",
    wanted: "D;C;rd;gregorian;refusal\n4.10.1582;;577735;1582-10-14;\n4.10.1582; ;577735;1582-10-14;\n\
        4.10.1582;gregorian;577725;1582-10-04;\n4.10.1582;mondisch;;;4\n\
        am vierten Tag des Monats Oktober 1582;;;;5\n",
    rows: 5,
    counts: &[(2, 0)],
};

#[test]
fn calendars_change_and_are_empty(rt: HostRuntime) -> Result<(), Fail> {
    let cases = [CHANGE, CHANGE_OF_SPANS, EMPTY_CALENDARS];
    let wrong = wrong_sheet(rt.alloc(), &cases)?;
    assert!(rt; wrong.is_none(), "at {wrong:?}");
    Ok(())
}
