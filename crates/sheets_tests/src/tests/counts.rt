//! How many dates of a sheet are refused and empty, counted by hand.

use super::table::{Case, DATE_0_IN_1, DAY_FIRST, NO_COLUMNS, converted};
use date_texts::Refusal;
use sheets::{DateCounts, SheetCounts, SheetEnd, Spans};
use std::test::Fail;

/// One date is converted. Those of the second record, of the fifth, whose calendar is not known, and of the last, which has
/// more blanks than a date may have bytes, are empty; the third record and the fourth are blank. A calendar is not known, a
/// year has no such day, and a day is missing.
const COUNTED: Case = Case {
    delimiter: b';',
    above: 0,
    dates: &DATE_0_IN_1,
    columns: &NO_COLUMNS,
    spans: Spans::Unread,
    reading: DAY_FIRST,
    sheet: "D;C\n1. Mai 1701;julian\n;julian\n ;\t\n;\n;mondisch\n1. Mai 1701;mondisch\n29. Februar 1701;julian\n\
        Mai;julian\n                                        ;julian\n",
    wanted: "D;C;refusal\n1. Mai 1701;julian;\n;julian;5\n ;\t;4\n;;4\n;mondisch;4\n1. Mai 1701;mondisch;4\n\
        29. Februar 1701;julian;6\nMai;julian;5\n                                        ;julian;5\n",
    rows: 9,
    counts: &[(3, 3)],
};

/// Whether the counts of that sheet are these.
fn are_counted(counts: &SheetCounts) -> bool {
    let [of_date, other, ..] = &counts.dates;
    let with = &of_date.refused_with;
    let long = with.count(Refusal::FieldTooLong) == 0;
    let named = with.count(Refusal::UnknownCalendar) == 1 && with.count(Refusal::NoSuchDate) == 1;
    let dated = with.count(Refusal::DateText) == 1 && with.count(Refusal::OutOfRange) == 0;
    let all = of_date.refused == 3 && of_date.empty == 3 && counts.blank == 2;
    long && named && dated && all && *other == DateCounts::none()
}

#[test]
fn refused_and_empty_dates_are_counted(rt: HostRuntime) -> Result<(), Fail> {
    let (text, end) = converted(rt.alloc(), &COUNTED)?;
    assert!(rt; text.as_slice() == COUNTED.wanted.as_bytes());
    match end {
        SheetEnd::Whole { counts, .. } => assert!(rt; are_counted(&counts)),
        SheetEnd::Broken { .. } => assert!(rt; false),
    }
    Ok(())
}
