//! Dates that name their own calendar. Days are those of Python's `datetime`, Julian ones those of the formula for Julian
//! day numbers.

use super::table::{Case, DATE_0_IN_1, DAY_AND_GREGORIAN, DAY_FIRST, wrong_sheet};
use sheets::Spans;
use std::test::Fail;

/// A name in a column of its calendar, of the other one, of an unknown one, and of a change; behind a comma, and a blank
/// beyond ASCII. In dates of other calendars and of both styles it counts as little as one with no date before it, or
/// without a blank; and what stands before it may be no date.
const OWN: Case = Case {
    delimiter: b';',
    above: 0,
    dates: &DATE_0_IN_1,
    columns: &DAY_AND_GREGORIAN,
    spans: Spans::Unread,
    reading: DAY_FIRST,
    sheet: "D;C\n12. Mai 1706 n. St.;gregorian\n12. Mai 1706 n. St.;julian\n12. Mai 1706, A. ST. ;mondisch\n\
        12. Mai 1570 n. St.;Spanien\n12. Mai 1570 ,  a. St.;Spanien\n1706-05-12\u{a0}a. St.;gregorian\n\
        1 Tischri 5507 n. St.;hebrew\n12. Mai 1706 n. St.;stary/nowy\n n. St.;gregorian\nMai a. St.;gregorian\n\
        12. Mai 1706a. St.;gregorian\n",
    wanted: "D;C;rd;gregorian;refusal\n12. Mai 1706 n. St.;gregorian;622870;1706-05-12;\n\
        12. Mai 1706 n. St.;julian;622870;1706-05-12;\n12. Mai 1706, A. ST. ;mondisch;622881;1706-05-23;\n\
        12. Mai 1570 n. St.;Spanien;573197;1570-05-12;\n12. Mai 1570 ,  a. St.;Spanien;573207;1570-05-22;\n\
        1706-05-12\u{a0}a. St.;gregorian;622881;1706-05-23;\n1 Tischri 5507 n. St.;hebrew;;;5\n\
        12. Mai 1706 n. St.;stary/nowy;;;5\n n. St.;gregorian;;;5\nMai a. St.;gregorian;;;5\n\
        12. Mai 1706a. St.;gregorian;;;5\n",
    rows: 11,
    counts: &[(5, 0)],
};

/// Months and years with such a name; and `jul`, which is the name of a calendar, but a month in dates.
const OWN_SPANS: Case = Case {
    delimiter: b';',
    above: 0,
    dates: &DATE_0_IN_1,
    columns: &DAY_AND_GREGORIAN,
    spans: Spans::Ends,
    reading: DAY_FIRST,
    sheet: "D;C\nMai 1706 a. St.;gregorian\nca. 1706 n. St.;julian\n1706 jul;gregorian\n",
    wanted: "D;C;first rd;first gregorian;last rd;last gregorian;mark;refusal\n\
        Mai 1706 a. St.;gregorian;622870;1706-05-12;622900;1706-06-11;;\n\
        ca. 1706 n. St.;julian;622739;1706-01-01;623103;1706-12-31;about;\n\
        1706 jul;gregorian;622920;1706-07-01;622950;1706-07-31;;\n",
    rows: 3,
    counts: &[(0, 0)],
};

#[test]
fn dates_name_their_calendars(rt: HostRuntime) -> Result<(), Fail> {
    let cases = [OWN, OWN_SPANS];
    let wrong = wrong_sheet(rt.alloc(), &cases)?;
    assert!(rt; wrong.is_none(), "at {wrong:?}");
    Ok(())
}
