//! Sheets, what is chosen of them, and what comes back. Days, weekdays and Gregorian dates are those of Python's
//! `datetime`, Julian ones those of the formula for Julian day numbers; what is read of each date was worked out by hand.

use date_texts::{Calendar, Target};
use register_records::PlainOutput;
use sheets::{
    AskedColumn, AskedOfSheet, CalendarColumn, CalendarField, DateColumn, IdField, NameList,
    SheetChoice, SheetCounts, SheetEnd, SheetSetup, Spans, convert_sheet,
};
use std::alloc::Global;
use std::test::Fail;
use written_dates::{
    CalendarMeaning, CalendarName, CalendarNames, Choice, Name, Names, Order, Short,
};

/// The names that hold in these tests.
const NAMES: &str = "name,means,in
Januar,month 1,
stycznia,month 1,
Februar,month 2,
février,month 2,
März,month 3,
Mai,month 5,
May,month 5,
května,month 5,
Juli,month 7,
Jul,month 7,
luglio,month 7,
août,month 8,
października,month 10,
Ventôse,month 6,french
Tischri,month 7,hebrew
Ian.,month 1,roman
Kal.,K,roman
er,,
an,,
grégorien,gregorian,
n. St.,gregorian,
a. St.,julian,
jul,julian,
stary/nowy,both,
Spanien,julian/gregorian:1582-10-15,
vor,before,
nach,after,
ca.,about,
bis,to,
zw.,between,
u.,and,
era,year spanish,
lětom,year creation,
s. d.,undated,
Frühjahr,months 3-5,
Jh.,century 1,
siècle,century 0,
s,decade,
Anfang,part 1/3,
Ultimo,last day,
";

/// A sheet, what is chosen of it, and what comes back: the sheet, how many records it has, and how many dates of each column
/// were refused and are empty.
#[derive(Drop)]
pub(super) struct Case {
    pub delimiter: u8,
    pub above: u32,
    pub dates: &'static [DateColumn],
    pub columns: &'static [AskedColumn],
    pub spans: Spans,
    pub reading: Choice,
    pub sheet: &'static str,
    pub wanted: &'static str,
    pub rows: u32,
    pub counts: &'static [(usize, usize)],
}

pub(super) const DATE_0_IN_1: [DateColumn; 1] = [DateColumn {
    date: 0,
    calendar: CalendarField::Column(CalendarColumn {
        place: 1,
        otherwise: None,
    }),
}];

const DATE_1_IN_2: [DateColumn; 1] = [DateColumn {
    date: 1,
    calendar: CalendarField::Column(CalendarColumn {
        place: 2,
        otherwise: None,
    }),
}];

const DATE_0_GREGORIAN: [DateColumn; 1] = [DateColumn {
    date: 0,
    calendar: CalendarField::All(CalendarMeaning::One(Calendar::Gregorian)),
}];

const DATE_1_JULIAN_AND_2_GREGORIAN: [DateColumn; 2] = [
    DateColumn {
        date: 1,
        calendar: CalendarField::All(CalendarMeaning::One(Calendar::Julian)),
    },
    DateColumn {
        date: 2,
        calendar: CalendarField::All(CalendarMeaning::One(Calendar::Gregorian)),
    },
];

const DATE_0_JULIAN_AND_0_GREGORIAN_AND_1_JULIAN: [DateColumn; 3] = [
    DateColumn {
        date: 0,
        calendar: CalendarField::All(CalendarMeaning::One(Calendar::Julian)),
    },
    DateColumn {
        date: 0,
        calendar: CalendarField::All(CalendarMeaning::One(Calendar::Gregorian)),
    },
    DateColumn {
        date: 1,
        calendar: CalendarField::All(CalendarMeaning::One(Calendar::Julian)),
    },
];

const DATE_0_GREGORIAN_AND_1_GREGORIAN: [DateColumn; 2] = [
    DateColumn {
        date: 0,
        calendar: CalendarField::All(CalendarMeaning::One(Calendar::Gregorian)),
    },
    DateColumn {
        date: 1,
        calendar: CalendarField::All(CalendarMeaning::One(Calendar::Gregorian)),
    },
];

pub(super) const DAY_AND_GREGORIAN: [AskedColumn; 2] = [
    AskedColumn::DayNumber,
    AskedColumn::Cells(Target::Date(Calendar::Gregorian)),
];

const WEEKDAY_AND_JULIAN_AND_DAY: [AskedColumn; 3] = [
    AskedColumn::Weekday,
    AskedColumn::Cells(Target::Date(Calendar::Julian)),
    AskedColumn::DayNumber,
];

const WEEKDAY_AND_GREGORIAN_AND_JULIAN: [AskedColumn; 3] = [
    AskedColumn::Weekday,
    AskedColumn::Cells(Target::Date(Calendar::Gregorian)),
    AskedColumn::Cells(Target::Date(Calendar::Julian)),
];

const DAY_AND_WEEKDAY_AND_GREGORIAN_AND_JULIAN: [AskedColumn; 4] = [
    AskedColumn::DayNumber,
    AskedColumn::Weekday,
    AskedColumn::Cells(Target::Date(Calendar::Gregorian)),
    AskedColumn::Cells(Target::Date(Calendar::Julian)),
];

const DAY_AND_WEEKDAY: [AskedColumn; 2] = [AskedColumn::DayNumber, AskedColumn::Weekday];

const DAY_AND_GREGORIAN_AND_WEEKDAY: [AskedColumn; 3] = [
    AskedColumn::DayNumber,
    AskedColumn::Cells(Target::Date(Calendar::Gregorian)),
    AskedColumn::Weekday,
];

const JULIAN_AND_GREGORIAN: [AskedColumn; 2] = [
    AskedColumn::Cells(Target::Date(Calendar::Julian)),
    AskedColumn::Cells(Target::Date(Calendar::Gregorian)),
];

const WEEKDAY_AND_CHURCH_AND_GREGORIAN: [AskedColumn; 3] = [
    AskedColumn::Weekday,
    AskedColumn::Church,
    AskedColumn::Cells(Target::Date(Calendar::Gregorian)),
];

pub(super) const NO_COLUMNS: [AskedColumn; 0] = [];

const WEEKDAY: [AskedColumn; 1] = [AskedColumn::Weekday];

const DAY: [AskedColumn; 1] = [AskedColumn::DayNumber];

const GREGORIAN: [AskedColumn; 1] = [AskedColumn::Cells(Target::Date(Calendar::Gregorian))];

pub(super) const DAY_FIRST: Choice = Choice {
    order: Order::DayFirst,
    short_years: Short::Refuse,
    short_hebrew_years: Short::Refuse,
    short_other_years: Short::Refuse,
    charters: false,
};

const CASES: [Case; 12] = [
    Case {
        delimiter: b';',
        above: 0,
        dates: &DATE_0_IN_1,
        columns: &WEEKDAY_AND_JULIAN_AND_DAY,
        spans: Spans::Unread,
        reading: DAY_FIRST,
        sheet: "D;C\n1. Januar 2000;gregorian\n",
        wanted: "D;C;weekday;julian;rd;refusal\n1. Januar 2000;gregorian;Saturday;1999-12-19;730120;\n",
        rows: 1,
        counts: &[(0, 0)],
    },
    Case {
        delimiter: b';',
        above: 0,
        dates: &DATE_0_IN_1,
        columns: &WEEKDAY_AND_GREGORIAN_AND_JULIAN,
        spans: Spans::Unread,
        reading: DAY_FIRST,
        sheet: "D;C\n29. Februar 1900;julian\n",
        wanted: "D;C;weekday;gregorian;julian;refusal\n29. Februar 1900;julian;Tuesday;1900-03-13;1900-02-29;\n",
        rows: 1,
        counts: &[(0, 0)],
    },
    Case {
        delimiter: b';',
        above: 0,
        dates: &DATE_0_IN_1,
        columns: &JULIAN_AND_GREGORIAN,
        spans: Spans::Unread,
        reading: DAY_FIRST,
        sheet: "D;C\n5 Mai 1600;julian\n",
        wanted: "D;C;julian;gregorian;refusal\n5 Mai 1600;julian;1600-05-05;1600-05-15;\n",
        rows: 1,
        counts: &[(0, 0)],
    },
    Case {
        delimiter: b';',
        above: 0,
        dates: &DATE_0_IN_1,
        columns: &NO_COLUMNS,
        spans: Spans::Unread,
        reading: DAY_FIRST,
        sheet: "D;C\n14 Juli 1789;gregorian\n",
        wanted: "D;C;refusal\n14 Juli 1789;gregorian;\n",
        rows: 1,
        counts: &[(0, 0)],
    },
    Case {
        delimiter: b';',
        above: 0,
        dates: &DATE_1_IN_2,
        columns: &DAY_AND_GREGORIAN,
        spans: Spans::Unread,
        reading: DAY_FIRST,
        sheet: "N;D;C;X\nAnna;12. Mai 1806;gregorian\n\"Bo \"\"B\"\"\";3 Mai 1700;A. ST.;\"a;b\"\nCy\n\"D\nE\";;julian;\n",
        wanted: "N;D;C;X;rd;gregorian;refusal\nAnna;12. Mai 1806;gregorian;;659394;1806-05-12;\n\
            \"Bo \"\"B\"\"\";3 Mai 1700;A. ST.;\"a;b\";620681;1700-05-14;\nCy;;;;;;4\n\"D\nE\";;julian;;;;5\n",
        rows: 4,
        counts: &[(0, 2)],
    },
    Case {
        delimiter: b';',
        above: 1,
        dates: &DATE_1_IN_2,
        columns: &DAY_AND_GREGORIAN,
        spans: Spans::Unread,
        reading: DAY_FIRST,
        sheet: "Parish of Lund;;\nN;D;C\nx;1 Mai 1701;julian\n",
        wanted: "Parish of Lund;;\nN;D;C;rd;gregorian;refusal\nx;1 Mai 1701;julian;621044;1701-05-12;\n",
        rows: 1,
        counts: &[(0, 0)],
    },
    Case {
        delimiter: b';',
        above: 2,
        dates: &DATE_0_IN_1,
        columns: &WEEKDAY,
        spans: Spans::Unread,
        reading: DAY_FIRST,
        sheet: "\"a;\"\"b\"\"\"\nc;d;e;f\nD;C\n2 Mai 1701;julian\n",
        wanted: "\"a;\"\"b\"\"\"\nc;d;e;f\nD;C;weekday;refusal\n2 Mai 1701;julian;Friday;\n",
        rows: 1,
        counts: &[(0, 0)],
    },
    Case {
        delimiter: b';',
        above: 0,
        dates: &DATE_0_IN_1,
        columns: &DAY,
        spans: Spans::Unread,
        reading: DAY_FIRST,
        sheet: "D;C\n1 Mai 1701;julian;longer;than\n2 Mai 1701;julian\n",
        wanted: "D;C;;;rd;refusal\n1 Mai 1701;julian;longer;than;621044;\n2 Mai 1701;julian;;;621045;\n",
        rows: 2,
        counts: &[(0, 0)],
    },
    Case {
        delimiter: b';',
        above: 0,
        dates: &DATE_0_IN_1,
        columns: &WEEKDAY_AND_CHURCH_AND_GREGORIAN,
        spans: Spans::Unread,
        reading: DAY_FIRST,
        sheet: "D;C\n12. März 1699;julian\n12. März 1699;gregorian\n27. März 1712;gregorian\n\
            20.7.1428;coptic\nx;julian\n27. März 1712;\n",
        wanted: "D;C;weekday;church;gregorian;refusal\n\
            12. März 1699;julian;Sunday;Dominica Oculi;1699-03-22;\n\
            12. März 1699;gregorian;Thursday;;1699-03-12;\n27. März 1712;gregorian;Sunday;Pascha;1712-03-27;\n\
            20.7.1428;coptic;Sunday;;1712-03-27;\nx;julian;;;;5\n27. März 1712;;;;;4\n",
        rows: 6,
        counts: &[(2, 0)],
    },
    Case {
        delimiter: b'\t',
        above: 0,
        dates: &DATE_0_IN_1,
        columns: &DAY_AND_GREGORIAN,
        spans: Spans::Unread,
        reading: DAY_FIRST,
        sheet: "D\tC\n1. Mai 1701\tjulian\n",
        wanted: "D\tC\trd\tgregorian\trefusal\n1. Mai 1701\tjulian\t621044\t1701-05-12\t\n",
        rows: 1,
        counts: &[(0, 0)],
    },
    Case {
        delimiter: b',',
        above: 0,
        dates: &DATE_0_IN_1,
        columns: &DAY_AND_GREGORIAN,
        spans: Spans::Unread,
        reading: DAY_FIRST,
        sheet: "D,C\n\"May 1, 1701\",julian\n1;5;1701,julian\n",
        wanted: "D,C,rd,gregorian,refusal\n\"May 1, 1701\",julian,621044,1701-05-12,\n1;5;1701,julian,,,5\n",
        rows: 2,
        counts: &[(1, 0)],
    },
    Case {
        delimiter: b';',
        above: 0,
        dates: &DATE_0_GREGORIAN,
        columns: &DAY_AND_GREGORIAN,
        spans: Spans::Unread,
        reading: DAY_FIRST,
        sheet: "D\n1. Mai 1701\n2. Mai 1701\n",
        wanted: "D;rd;gregorian;refusal\n1. Mai 1701;621033;1701-05-01;\n2. Mai 1701;621034;1701-05-02;\n",
        rows: 2,
        counts: &[(0, 0)],
    },
];

const OTHER_CASES: [Case; 11] = [
    Case {
        delimiter: b';',
        above: 0,
        dates: &DATE_1_JULIAN_AND_2_GREGORIAN,
        columns: &GREGORIAN,
        spans: Spans::Unread,
        reading: DAY_FIRST,
        sheet: "N;Birth;Death\nA;1. Mai 1701;2. Mai 1750\nB;;3. Mai 1750\nC;x;y\n",
        wanted: "N;Birth;Death;Birth gregorian;Birth refusal;Death gregorian;Death refusal\n\
            A;1. Mai 1701;2. Mai 1750;1701-05-12;;1750-05-02;\nB;;3. Mai 1750;;5;1750-05-03;\nC;x;y;;5;;5\n",
        rows: 3,
        counts: &[(1, 1), (1, 0)],
    },
    Case {
        delimiter: b';',
        above: 0,
        dates: &DATE_0_JULIAN_AND_0_GREGORIAN_AND_1_JULIAN,
        columns: &DAY,
        spans: Spans::Unread,
        reading: DAY_FIRST,
        sheet: "D;E\n1. Mai 1701;1. Mai 1702\n",
        wanted: "D;E;D rd;D refusal;D rd 2;D refusal 2;E rd;E refusal\n1. Mai 1701;1. Mai 1702;621044;;621033;;621409;\n",
        rows: 1,
        counts: &[(0, 0), (0, 0), (0, 0)],
    },
    Case {
        delimiter: b';',
        above: 0,
        dates: &DATE_0_GREGORIAN,
        columns: &DAY_AND_GREGORIAN,
        spans: Spans::Unread,
        reading: DAY_FIRST,
        sheet: "D;rd;refusal;rd 2\n1. Mai 1701;a;b;c\n",
        wanted: "D;rd;refusal;rd 2;rd 3;gregorian;refusal 2\n1. Mai 1701;a;b;c;621033;1701-05-01;\n",
        rows: 1,
        counts: &[(0, 0)],
    },
    Case {
        delimiter: b';',
        above: 0,
        dates: &DATE_0_GREGORIAN_AND_1_GREGORIAN,
        columns: &DAY,
        spans: Spans::Unread,
        reading: DAY_FIRST,
        sheet: ";;D rd\n1. Mai 1701;2. Mai 1701;\n",
        wanted: ";;D rd; rd; refusal; rd 2; refusal 2\n1. Mai 1701;2. Mai 1701;;621033;;621034;\n",
        rows: 1,
        counts: &[(0, 0), (0, 0)],
    },
    Case {
        delimiter: b';',
        above: 0,
        dates: &DATE_0_IN_1,
        columns: &DAY_AND_WEEKDAY_AND_GREGORIAN_AND_JULIAN,
        spans: Spans::Unread,
        reading: DAY_FIRST,
        sheet: "D;C\n1. Mai 1701;julian\nx;julian\n1. Mai 1701;\n2. Mai 1701;julian\n",
        wanted: "D;C;rd;weekday;gregorian;julian;refusal\n\
            1. Mai 1701;julian;621044;Thursday;1701-05-12;1701-05-01;\nx;julian;;;;;5\n1. Mai 1701;;;;;;4\n\
            2. Mai 1701;julian;621045;Friday;1701-05-13;1701-05-02;\n",
        rows: 4,
        counts: &[(2, 0)],
    },
    Case {
        delimiter: b'\t',
        above: 0,
        dates: &DATE_0_IN_1,
        columns: &DAY_AND_WEEKDAY_AND_GREGORIAN_AND_JULIAN,
        spans: Spans::Unread,
        reading: DAY_FIRST,
        sheet: "D\tC\n1. Mai 1701\tjulian\n\"a\tb\"\tjulian\n",
        wanted: "D\tC\trd\tweekday\tgregorian\tjulian\trefusal\n\
            1. Mai 1701\tjulian\t621044\tThursday\t1701-05-12\t1701-05-01\t\n\"a\tb\"\tjulian\t\t\t\t\t5\n",
        rows: 2,
        counts: &[(1, 0)],
    },
    Case {
        delimiter: b';',
        above: 0,
        dates: &DATE_0_IN_1,
        columns: &DAY_AND_WEEKDAY,
        spans: Spans::Unread,
        reading: DAY_FIRST,
        sheet: "D;C\n1. Mai 1701;julian\nx;julian\n",
        wanted: "D;C;rd;weekday;refusal\n1. Mai 1701;julian;621044;Thursday;\nx;julian;;;5\n",
        rows: 2,
        counts: &[(1, 0)],
    },
    Case {
        delimiter: b';',
        above: 0,
        dates: &DATE_0_IN_1,
        columns: &JULIAN_AND_GREGORIAN,
        spans: Spans::Unread,
        reading: DAY_FIRST,
        sheet: "D;C\nx;julian\n1. Mai 1701;gregorian\n",
        wanted: "D;C;julian;gregorian;refusal\nx;julian;;;5\n1. Mai 1701;gregorian;1701-04-20;1701-05-01;\n",
        rows: 2,
        counts: &[(1, 0)],
    },
    Case {
        delimiter: b';',
        above: 0,
        dates: &DATE_0_IN_1,
        columns: &DAY_AND_GREGORIAN_AND_WEEKDAY,
        spans: Spans::Unread,
        reading: DAY_FIRST,
        sheet: "D;C\n1. Mai 1701;julian\nx;julian\n",
        wanted: "D;C;rd;gregorian;weekday;refusal\n1. Mai 1701;julian;621044;1701-05-12;Thursday;\nx;julian;;;;5\n",
        rows: 2,
        counts: &[(1, 0)],
    },
    Case {
        delimiter: b',',
        above: 0,
        dates: &DATE_1_JULIAN_AND_2_GREGORIAN,
        columns: &WEEKDAY_AND_GREGORIAN_AND_JULIAN,
        spans: Spans::Unread,
        reading: DAY_FIRST,
        sheet: "N,Birth,Death\n\"A \"\"B\"\"\",1. Mai 1701,\"May 2, 1750\"\nC,,3. Mai 1750\n",
        wanted: "N,Birth,Death,Birth weekday,Birth gregorian,Birth julian,Birth refusal,\
            Death weekday,Death gregorian,Death julian,Death refusal\n\
            \"A \"\"B\"\"\",1. Mai 1701,\"May 2, 1750\",Thursday,1701-05-12,1701-05-01,,\
            Saturday,1750-05-02,1750-04-21,\nC,,3. Mai 1750,,,,5,Sunday,1750-05-03,1750-04-22,\n",
        rows: 2,
        counts: &[(0, 1), (0, 0)],
    },
    Case {
        delimiter: b';',
        above: 2,
        dates: &DATE_0_GREGORIAN,
        columns: &WEEKDAY_AND_GREGORIAN_AND_JULIAN,
        spans: Spans::Unread,
        reading: DAY_FIRST,
        sheet: "\"\"\n\"\"\nD\n1. Mai 1701\n\"\"\n",
        wanted: "\"\"\n\"\"\nD;weekday;gregorian;julian;refusal\n\
            1. Mai 1701;Sunday;1701-05-01;1701-04-20;\n;;;;5\n",
        rows: 2,
        counts: &[(0, 0)],
    },
];

/// The names of a list, and the headings of a sheet.
#[derive(Drop)]
struct Known<'a> {
    names: Names<'a>,
    calendars: CalendarNames<'a>,
    headings: Vec<&'a [u8]>,
}

/// The bytes of texts.
fn slices_of(alloc: Global, texts: &[Vec<u8>]) -> Result<Vec<&[u8]>, Fail> {
    let mut slices = Vec::new(alloc);
    for text in texts {
        slices.push(text.as_slice())?;
    }
    Ok(slices)
}

/// These names and headings.
fn known_by<'a>(
    alloc: Global,
    names: &'a [Name<'a>],
    calendars: &'a [CalendarName<'a>],
    headings: &'a [Vec<u8>],
) -> Result<Known<'a>, Fail> {
    Ok(Known {
        names: Names::layered(alloc, names)?,
        calendars: CalendarNames::layered(alloc, calendars)?,
        headings: slices_of(alloc, headings)?,
    })
}

/// The sheet of a case as it comes back, with how it ended.
fn converted_by(alloc: Global, case: &Case, known: &Known) -> Result<(Vec<u8>, SheetEnd), Fail> {
    let setup = SheetSetup::new(SheetChoice {
        delimiter: case.delimiter,
        above: case.above,
        id: IdField::Number,
        dates: case.dates,
        columns: case.columns,
        spans: case.spans,
        headings: known.headings.as_slice(),
        reading: case.reading,
        names: &known.names,
        calendars: &known.calendars,
    })?;
    let mut output = PlainOutput::new(Vec::new(alloc), 1);
    let end = convert_sheet(alloc, case.sheet.as_bytes(), &setup, &mut output);
    Ok((output.into_inner(), end))
}

/// The same, by the list of names.
pub(super) fn converted(alloc: Global, case: &Case) -> Result<(Vec<u8>, SheetEnd), Fail> {
    let list = NameList::read(alloc, NAMES.as_bytes())?;
    let names = list.names(alloc)?;
    let calendars = list.calendar_names(alloc)?;
    let asked = AskedOfSheet {
        delimiter: case.delimiter,
        above: case.above,
        id: IdField::Number,
        reading: case.reading,
        spans: case.spans,
        dates: case.dates.to_vec(alloc)?,
        columns: case.columns.to_vec(alloc)?,
    };
    let headings = asked.headings(alloc, case.sheet.as_bytes())?;
    let known = known_by(
        alloc,
        names.as_slice(),
        calendars.as_slice(),
        headings.as_slice(),
    )?;
    converted_by(alloc, case, &known)
}

/// Whether of each column of dates so many were refused, and so many are empty.
fn are_counts(counts: &SheetCounts, wanted: &[(usize, usize)]) -> bool {
    for (counts, (refused, empty)) in counts.dates.iter().zip(wanted) {
        if counts.refused != *refused || counts.empty != *empty {
            return false;
        }
    }
    true
}

/// Whether a sheet ended whole, with so many records, and these counts of its dates.
fn is_whole(end: SheetEnd, case: &Case) -> bool {
    match end {
        SheetEnd::Whole { rows, counts, .. } => {
            rows == case.rows && are_counts(&counts, case.counts)
        }
        SheetEnd::Broken { .. } => false,
    }
}

/// How a sheet ended that comes back as wanted, whole, with its number of records and counts of its dates.
pub(super) fn end_as_wanted(alloc: Global, case: &Case) -> Result<Option<SheetEnd>, Fail> {
    let (text, end) = converted(alloc, case)?;
    let is_wanted = text.as_slice() == case.wanted.as_bytes() && is_whole(end, case);
    Ok(if is_wanted { Some(end) } else { None })
}

/// The first sheet that does not come back so.
pub(super) fn wrong_sheet<'a>(alloc: Global, cases: &'a [Case]) -> Result<Option<&'a str>, Fail> {
    for case in cases {
        if end_as_wanted(alloc, case)?.is_none() {
            return Ok(Some(case.sheet));
        }
    }
    Ok(None)
}

#[test]
fn sheets_come_back_with_the_columns_asked(rt: HostRuntime) -> Result<(), Fail> {
    let wrong = wrong_sheet(rt.alloc(), &CASES)?;
    assert!(rt; wrong.is_none(), "at {wrong:?}");
    Ok(())
}

#[test]
fn other_sheets_come_back_with_the_columns_asked(rt: HostRuntime) -> Result<(), Fail> {
    let wrong = wrong_sheet(rt.alloc(), &OTHER_CASES)?;
    assert!(rt; wrong.is_none(), "at {wrong:?}");
    Ok(())
}
