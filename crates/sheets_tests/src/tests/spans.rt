//! Sheets whose dates have a first and a last day. Days are those of Python's `datetime`; what is read of each date, its
//! mark and its text of EDTF were worked out by hand.

use super::table::{Case, DATE_0_IN_1, DAY_AND_GREGORIAN, DAY_FIRST, end_as_wanted};
use sheets::{SheetEnd, Spans, UnreadDates};
use std::alloc::Global;
use std::test::Fail;

const ENDS: Case = Case {
    delimiter: b';',
    above: 0,
    dates: &DATE_0_IN_1,
    columns: &DAY_AND_GREGORIAN,
    spans: Spans::Ends,
    reading: DAY_FIRST,
    sheet: "D;C\n12. Mai 1806;gregorian\nMai 1806;gregorian\nca. 1750;gregorian\nvor 12.5.1806;gregorian\n\
        nach 1800;gregorian\nzw. 1750 u. 1755;gregorian\n[ca. 1750?];gregorian\n31.4.1801 bis 5.5.1801;gregorian\n\
        1755-1750;gregorian\n;gregorian\nMai 1806;mondisch\n",
    wanted: "D;C;first rd;first gregorian;last rd;last gregorian;mark;refusal\n\
        12. Mai 1806;gregorian;659394;1806-05-12;659394;1806-05-12;;\n\
        Mai 1806;gregorian;659383;1806-05-01;659413;1806-05-31;;\n\
        ca. 1750;gregorian;638810;1750-01-01;639174;1750-12-31;about;\n\
        vor 12.5.1806;gregorian;;;659393;1806-05-11;before;\n\
        nach 1800;gregorian;657437;1801-01-01;;;after;\n\
        zw. 1750 u. 1755;gregorian;638810;1750-01-01;641000;1755-12-31;between;\n\
        [ca. 1750?];gregorian;638810;1750-01-01;639174;1750-12-31;about uncertain inferred;\n\
        31.4.1801 bis 5.5.1801;gregorian;;;657561;1801-05-05;;6\n\
        1755-1750;gregorian;;;;;;5\n\
        ;gregorian;;;;;;5\n\
        Mai 1806;mondisch;;;;;;4\n",
    rows: 11,
    counts: &[(3, 1)],
};

const WITH_EDTF: Case = Case {
    delimiter: b',',
    above: 0,
    dates: &DATE_0_IN_1,
    columns: &[],
    spans: Spans::EndsAndEdtf,
    reading: DAY_FIRST,
    sheet: "D,C\n12. Mai 1806,gregorian\nMai 1806?,gregorian\nca. 1750,gregorian\nvor 12.5.1806,gregorian\n\
        1750 bis 1755,gregorian\nzw. 1750 u. 1755,gregorian\n31.4.1801 bis 5.5.1801,gregorian\n,gregorian\n",
    wanted: "D,C,edtf,mark,refusal\n12. Mai 1806,gregorian,1806-05-12,,\nMai 1806?,gregorian,1806-05?,uncertain,\n\
        ca. 1750,gregorian,1750~,about,\nvor 12.5.1806,gregorian,../1806-05-11,before,\n\
        1750 bis 1755,gregorian,1750/1755,,\nzw. 1750 u. 1755,gregorian,[1750..1755],between,\n\
        31.4.1801 bis 5.5.1801,gregorian,,,6\n,gregorian,,,5\n",
    rows: 8,
    counts: &[(1, 1)],
};

/// Dates in both styles: of one day, of one in the order of numbers, of two days, of one style, and none.
const BOTH_STYLES: Case = Case {
    delimiter: b';',
    above: 0,
    dates: &DATE_0_IN_1,
    columns: &DAY_AND_GREGORIAN,
    spans: Spans::Ends,
    reading: DAY_FIRST,
    sheet: "D;C\n10/22 stycznia 1863;stary/nowy\n29.12.1863/10.1.1864; STARY/nowy\n\
        10/23 stycznia 1863;stary/nowy\n10 stycznia 1863;stary/nowy\n;stary/nowy\n10/22 stycznia 1863;gregorian\n\
        10/22 stycznia 1863;julian\n10/23 stycznia 1863;julian\n",
    wanted: "D;C;first rd;first gregorian;last rd;last gregorian;mark;refusal\n\
        10/22 stycznia 1863;stary/nowy;680103;1863-01-22;680103;1863-01-22;;\n\
        29.12.1863/10.1.1864; STARY/nowy;680456;1864-01-10;680456;1864-01-10;;\n\
        10/23 stycznia 1863;stary/nowy;;;;;;5\n\
        10 stycznia 1863;stary/nowy;;;;;;5\n\
        ;stary/nowy;;;;;;5\n\
        10/22 stycznia 1863;gregorian;680103;1863-01-22;680103;1863-01-22;;\n\
        10/22 stycznia 1863;julian;680103;1863-01-22;680103;1863-01-22;;\n\
        10/23 stycznia 1863;julian;;;;;;5\n",
    rows: 8,
    counts: &[(3, 1)],
};

/// A part of a year, centuries, ten years, the first third of a year, the last day of a month, and none of these.
const PARTS: Case = Case {
    delimiter: b';',
    above: 0,
    dates: &DATE_0_IN_1,
    columns: &DAY_AND_GREGORIAN,
    spans: Spans::Ends,
    reading: DAY_FIRST,
    sheet: "D;C\nFrühjahr 1750;gregorian\n18. Jh.;gregorian\nsiècle XVIII;gregorian\n1790s;gregorian\n\
        Anfang 1790;gregorian\nUltimo Mai 1750;gregorian\nFrühjahr;gregorian\nJh.;gregorian\n31. Jh.;gregorian\n\
        1800s;gregorian\nAnfang Mai 1790;gregorian\nUltimo 1750;gregorian\n",
    wanted: "D;C;first rd;first gregorian;last rd;last gregorian;mark;refusal\n\
        Frühjahr 1750;gregorian;638869;1750-03-01;638960;1750-05-31;;\n\
        18. Jh.;gregorian;620913;1701-01-01;657436;1800-12-31;;\n\
        siècle XVIII;gregorian;620548;1700-01-01;657071;1799-12-31;;\n\
        1790s;gregorian;653420;1790-01-01;657071;1799-12-31;;\n\
        Anfang 1790;gregorian;653420;1790-01-01;653539;1790-04-30;;\n\
        Ultimo Mai 1750;gregorian;638960;1750-05-31;638960;1750-05-31;;\n\
        Frühjahr;gregorian;;;;;;5\nJh.;gregorian;;;;;;5\n31. Jh.;gregorian;;;;;;5\n\
        1800s;gregorian;;;;;;5\nAnfang Mai 1790;gregorian;;;;;;5\nUltimo 1750;gregorian;;;;;;5\n",
    rows: 12,
    counts: &[(6, 0)],
};

/// Texts that say no date: bare, in brackets, with a date, with a word that is not known, and in a calendar that is not
/// known.
const UNDATED: Case = Case {
    delimiter: b';',
    above: 0,
    dates: &DATE_0_IN_1,
    columns: &DAY_AND_GREGORIAN,
    spans: Spans::EndsAndEdtf,
    reading: DAY_FIRST,
    sheet: "D;C\ns. d.;gregorian\n[S.D.];julian\ns. d. 12.5.1806;gregorian\ns. d. Foo;gregorian\ns. d.;mondisch\n",
    wanted: "D;C;first rd;first gregorian;last rd;last gregorian;edtf;mark;refusal\n\
        s. d.;gregorian;;;;;;undated;5\n\
        [S.D.];julian;;;;;;undated inferred;5\n\
        s. d. 12.5.1806;gregorian;;;;;;;5\n\
        s. d. Foo;gregorian;;;;;;;5\n\
        s. d.;mondisch;;;;;;;4\n",
    rows: 5,
    counts: &[(5, 0)],
};

/// How many dates of the first column are no single day, of a sheet that comes back as wanted.
fn spans_of(alloc: Global, case: &Case) -> Result<Option<usize>, Fail> {
    match end_as_wanted(alloc, case)? {
        Some(SheetEnd::Whole { counts, .. }) => Ok(Some(counts.dates[0].spans)),
        _ => Ok(None),
    }
}

#[test]
fn first_and_last_days(rt: HostRuntime) -> Result<(), Fail> {
    assert!(rt; spans_of(rt.alloc(), &ENDS)? == Some(6));
    Ok(())
}

#[test]
fn parts_of_years_and_whole_centuries(rt: HostRuntime) -> Result<(), Fail> {
    assert!(rt; spans_of(rt.alloc(), &PARTS)? == Some(5));
    Ok(())
}

#[test]
fn dates_in_both_styles(rt: HostRuntime) -> Result<(), Fail> {
    assert!(rt; spans_of(rt.alloc(), &BOTH_STYLES)? == Some(0));
    Ok(())
}

/// Whether two dates were stopped by a name, one of a word and one of a calendar, and one as it is no date.
fn is_unread(unread: UnreadDates) -> bool {
    let reasons = unread.reasons;
    let mut other = UnreadDates::none().reasons;
    other.no_date = 1;
    unread.stopped == 2 && unread.short == 0 && reasons == other
}

#[test]
fn texts_that_say_no_date(rt: HostRuntime) -> Result<(), Fail> {
    assert!(rt; spans_of(rt.alloc(), &UNDATED)? == Some(0));
    match end_as_wanted(rt.alloc(), &UNDATED)? {
        Some(SheetEnd::Whole { unread, .. }) => assert!(rt; is_unread(unread)),
        _ => assert!(rt; false),
    }
    Ok(())
}

#[test]
fn texts_of_edtf(rt: HostRuntime) -> Result<(), Fail> {
    assert!(rt; spans_of(rt.alloc(), &WITH_EDTF)? == Some(5));
    Ok(())
}
