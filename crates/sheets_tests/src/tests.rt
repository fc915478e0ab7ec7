//! Small sheets, and what comes back. The days are from Python's `datetime` (proleptic Gregorian ordinals) and from the
//! tables of Reingold and Dershowitz.

mod changes;
mod counts;
mod dates;
mod meanings;
mod own_calendars;
mod spans;
mod table;

use date_texts::{Calendar, Target};
use register_records::PlainOutput;
use sheets::{
    AskedColumn, CalendarColumn, CalendarField, DateColumn, IdField, ReasonCounts, SheetCause,
    SheetChoice, SheetEnd, SheetSetup, Spans, Unknown, UnreadDates, convert_sheet, unknown_names,
};
use std::alloc::Global;
use std::test::Fail;
use written_dates::{
    CalendarMeaning, CalendarName, CalendarNames, Calendars, Choice, Meaning, Name, Names, Order,
    Short,
};

/// What a name means in dates.
const NAMES: [Name<'static>; 1] = [Name {
    text: b"Mai",
    meaning: Meaning::Month(5),
    calendars: Calendars::ALL,
}];

/// A name of a calendar.
const CALENDARS: [CalendarName<'static>; 1] = [CalendarName {
    text: b"a. St.",
    meaning: CalendarMeaning::One(Calendar::Julian),
}];

/// How dates are read in these tests.
const READING: Choice = Choice {
    order: Order::DayFirst,
    short_years: Short::Refuse,
    short_hebrew_years: Short::Refuse,
    short_other_years: Short::Refuse,
    charters: false,
};

/// The day and the Gregorian date.
const COLUMNS: [AskedColumn; 2] = [
    AskedColumn::DayNumber,
    AskedColumn::Cells(Target::Date(Calendar::Gregorian)),
];

/// The second field has dates, the third their calendars.
const ONE_DATE: [DateColumn; 1] = [DateColumn {
    date: 1,
    calendar: CalendarField::Column(CalendarColumn {
        place: 2,
        otherwise: None,
    }),
}];

/// What comes behind the sheet's own names.
const HEADINGS: [&[u8]; 3] = [b"rd", b"gregorian", b"refusal"];

/// The names that hold in these tests.
#[derive(Drop)]
struct Known<'a> {
    names: Names<'a>,
    calendars: CalendarNames<'a>,
}

/// A sheet as it comes back by these names, with how it ended.
fn converted_by(
    alloc: Global,
    sheet: &[u8],
    above: u32,
    known: &Known<'static>,
) -> Result<(Vec<u8>, SheetEnd), Fail> {
    let setup = SheetSetup::new(SheetChoice {
        delimiter: b';',
        above,
        id: IdField::Number,
        dates: &ONE_DATE,
        columns: &COLUMNS,
        spans: Spans::Unread,
        headings: &HEADINGS,
        reading: READING,
        names: &known.names,
        calendars: &known.calendars,
    })?;
    let mut output = PlainOutput::new(Vec::new(alloc), 1);
    let end = convert_sheet(alloc, sheet, &setup, &mut output);
    Ok((output.into_inner(), end))
}

/// A sheet as it comes back, with how it ended.
fn converted(alloc: Global, sheet: &[u8], above: u32) -> Result<(Vec<u8>, SheetEnd), Fail> {
    let known = Known {
        names: Names::layered(alloc, &NAMES)?,
        calendars: CalendarNames::layered(alloc, &CALENDARS)?,
    };
    converted_by(alloc, sheet, above, &known)
}

#[test]
fn words_names_and_short_records(rt: HostRuntime) -> Result<(), Fail> {
    let sheet =
        "Parish of Lund\nName;Date;Style;Note\nAnna;12. Mai 1806;gregorian\nBo;3 Mai 1700;A. ST.;\"a;b\"\nCy\n";
    let (text, end) = converted(rt.alloc(), sheet.as_bytes(), 1)?;
    let wanted = "Parish of Lund\nName;Date;Style;Note;rd;gregorian;refusal\n\
        Anna;12. Mai 1806;gregorian;;659394;1806-05-12;\n\
        Bo;3 Mai 1700;A. ST.;\"a;b\";620681;1700-05-14;\n\
        Cy;;;;;;4\n";
    assert!(rt; text.as_slice() == wanted.as_bytes());
    assert!(rt; matches!(end, SheetEnd::Whole { rows: 3, .. }));
    Ok(())
}

#[test]
fn no_record_with_names(rt: HostRuntime) -> Result<(), Fail> {
    let (text, end) = converted(rt.alloc(), b"a\nb\n", 2)?;
    assert!(rt; text.is_empty());
    assert!(rt;
        end == SheetEnd::Broken {
            cause: SheetCause::NoNames
        }
    );
    Ok(())
}

/// What is not known in a sheet by these names, of which at most so many are listed.
fn unknown_by(
    alloc: Global,
    sheet: &[u8],
    known: &Known<'static>,
    reading: Choice,
    most: usize,
) -> Result<Unknown, Fail> {
    let setup = SheetSetup::new(SheetChoice {
        delimiter: b';',
        above: 0,
        id: IdField::Number,
        dates: &ONE_DATE,
        columns: &COLUMNS,
        spans: Spans::Unread,
        headings: &HEADINGS,
        reading,
        names: &known.names,
        calendars: &known.calendars,
    })?;
    Ok(unknown_names(alloc, sheet, &setup, most)?)
}

/// Five dates with names that are not known, and one with a short year.
const UNKNOWN: &[u8] =
    b"N;D;C\nA;12 Foo 1806;gregorian\nB;1 FOO 1807;gregorian\nC;2 Foo 1700;a. St.\nD;3 Mai 1700; odd\n\
    E;4 Bar 1700;julian\nF;12.5.06;gregorian\n";

#[test]
fn names_that_are_not_known(rt: HostRuntime) -> Result<(), Fail> {
    let known = Known {
        names: Names::layered(rt.alloc(), &NAMES)?,
        calendars: CalendarNames::layered(rt.alloc(), &CALENDARS)?,
    };
    let unknown = unknown_by(rt.alloc(), UNKNOWN, &known, READING, 3)?;
    let text = unknown.text(rt.alloc())?;
    let wanted = b"name,means,in,count\nFoo,?,gregorian,2\nFoo,?,julian,1\nodd,?,,1\n";
    assert!(rt; text.as_slice() == wanted.as_slice());
    assert!(rt; unknown.more == 1 && unknown.unread.short == 1 && unknown.unread.stopped == 5);
    Ok(())
}

/// The dates that were not read of a sheet that ended whole.
fn unread_in(end: SheetEnd) -> Option<UnreadDates> {
    match end {
        SheetEnd::Whole { unread, .. } => Some(unread),
        SheetEnd::Broken { .. } => None,
    }
}

#[test]
fn dates_are_counted_that_are_not_read(rt: HostRuntime) -> Result<(), Fail> {
    let known = Known {
        names: Names::layered(rt.alloc(), &NAMES)?,
        calendars: CalendarNames::layered(rt.alloc(), &CALENDARS)?,
    };
    let (_, end) = converted_by(rt.alloc(), UNKNOWN, 0, &known)?;
    let unknown = unknown_by(rt.alloc(), UNKNOWN, &known, READING, 0)?;
    assert!(rt; unread_in(end) == Some(unknown.unread));
    assert!(rt; unknown.more == 5 && unknown.unread.short == 1);
    Ok(())
}

/// A date for each reason but another weekday, two that are empty, and one that its calendar has.
const STAYING: &[u8] =
    b"N;D;C\nA;;gregorian\nB; ;gregorian\nC;1944-3-K6B;roman\nD;12 Mai 1806;\nE;12 Mai 1806 (;gregorian\n\
    F;15.3.-144;gregorian\nG;Mai 1806;gregorian\nH;12 Mai;gregorian\nI;18.2.1799;french\nJ;40 Mai Mai 1806;gregorian\n";

#[test]
fn why_dates_stay(rt: HostRuntime) -> Result<(), Fail> {
    let known = Known {
        names: Names::layered(rt.alloc(), &NAMES)?,
        calendars: CalendarNames::layered(rt.alloc(), &CALENDARS)?,
    };
    let (_, end) = converted_by(rt.alloc(), STAYING, 0, &known)?;
    let wanted = UnreadDates {
        stopped: 0,
        short: 0,
        reasons: ReasonCounts {
            no_calendar: 1,
            character: 1,
            minus: 1,
            other_weekday: 0,
            no_day: 1,
            no_year: 1,
            no_such_year: 1,
            no_date: 1,
            year_last: 0,
        },
    };
    assert!(rt; unread_in(end) == Some(wanted));
    Ok(())
}

/// Four dates with the year last, one with the year first, one with two unlike signs, and one of four numbers.
const YEARS_LAST: &[u8] =
    b"N;D;C\nA;12.5.1806;gregorian\nB;5/31/1806;gregorian\nC;1806.5.12;gregorian\nD;12.5/1806;gregorian\n\
    E;Mai 1806;gregorian\nF;1.2.3.1806;gregorian\nG;30.6.1806;julian\nH;1.9.1222;islamic\n";

#[test]
fn years_that_stand_last(rt: HostRuntime) -> Result<(), Fail> {
    let known = Known {
        names: Names::layered(rt.alloc(), &NAMES)?,
        calendars: CalendarNames::layered(rt.alloc(), &CALENDARS)?,
    };
    let year_first = Choice {
        order: Order::YearFirst,
        short_years: Short::Refuse,
        short_hebrew_years: Short::Refuse,
        short_other_years: Short::Refuse,
        charters: false,
    };
    let first = unknown_by(rt.alloc(), YEARS_LAST, &known, year_first, 0)?;
    let reasons = first.unread.reasons;
    assert!(rt; reasons.year_last == 4 && reasons.no_date == 2 && reasons.no_day == 1);
    let last = unknown_by(rt.alloc(), YEARS_LAST, &known, READING, 0)?;
    assert!(rt; last.unread.reasons.year_last == 0 && last.unread.reasons.no_date == 2);
    Ok(())
}
