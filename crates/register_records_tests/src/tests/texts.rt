//! Date texts, names and cells of known days, a line of a table each. One assertion asks of each line whether it is
//! right.

use date_texts::{
    Calendar, CivilDate, MAX_CELL, Refusal, Target, calendar_named, cell, day_of_date, read_date,
    target_named, write_cell, write_cell_within, write_date,
};
use day_numbers::{Day, Ymd};

/// A calendar, a text, the canonical text of the date that it says, and the fixed day number of that date, or why the
/// date has none: `none` where the calendar has no such date, and `out` where its day is out of range.
const DATES: &str = "\
gregorian|1945-11-12|1945-11-12|710347
gregorian|-0-3-1|0000-03-01|-305
gregorian|1945-00-12|1945-00-12|none
gregorian|\t 01752-9-14 \t|1752-09-14|639797
gregorian|9999-12-31|9999-12-31|3652059
gregorian|10000-1-1|10000-01-01|out
gregorian|10000-02-30|10000-02-30|none
gregorian|-9999-01-01|-9999-01-01|-3652424
gregorian|-99999-99-99|-99999-99-99|none
iso|2004-w53-6|2004-W53-6|731947
iso|2005-W53-1|2005-W53-1|none
iso|1970-W1-04|1970-W01-4|719163
iso|1970-W01-14|1970-W01-14|none
iso|1970-W01-0|1970-W01-0|none
iso|9999-W52-5|9999-W52-5|3652059
iso|9999-W52-6|9999-W52-6|out
iso| -9999-w01-1\t|-9999-W01-1|-3652424
julian|-0-3-1|0000-03-01|none
julian|-44-3-15|-0044-03-15|-15999
julian|1582-10-05|1582-10-05|577736
julian|-1-2-29|-0001-02-29|-308
julian|-0001-12-31|-0001-12-31|-2
julian|0800-12-25|0800-12-25|292192
coptic|3-13-6|0003-13-06|104700
coptic|4-13-6|0004-13-06|none
ethiopic|1-1-1|0001-01-01|2796
ethiopic|0-1-1|0000-01-01|none
egyptian|1-13-6|0001-13-06|none
armenian|0001-13-05|0001-13-05|201807
islamic|1-12-30|0001-12-30|none
islamic|2-12-30|0002-12-30|227723
hebrew|5745-07-01|5745-07-01|724546
hebrew|5706-08-30|5706-08-30|none
longcount|0.0.0.0.0|0.0.0.0.0|-1137142
longcount| 0.0.0.00.012|0.0.0.0.12|-1137130
longcount|12.16.11.16.9|12.16.11.16.9|710347
longcount|0.0.0.18.0|0.0.0.18.0|none
longcount|0.0.0.0.25|0.0.0.0.25|none
longcount|9999.0.0.0.0|9999.0.0.0.0|out
longcount|0.9999.0.0.0|0.9999.0.0.0|none
longcount|0.0.9999.0.0|0.0.9999.0.0|none
longcount|0.0.0.9999.0|0.0.0.9999.0|none
longcount|9999.9999.9999.9999.9999|9999.9999.9999.9999.9999|none
french|4000-13-6|4000-13-06|none
french|4-13-6|0004-13-06|655875
republican|8-2-18|0008-02-18|657019
republican|3-13-6|0003-13-06|655510
republican|4-13-6|0004-13-06|none
roman|0801-01-K8|0801-01-K8|292192
roman|-44-03-i1|-0044-03-I1|-15999
roman|-1-3-k6b|-0001-03-K6B|-312
roman|-1-3-K6|-0001-03-K6|-313
roman|1-3-K6B|0001-03-K6B|none
roman|0-1-K1|0000-01-K1|none
roman|1-1-K20|0001-01-K20|none
roman|1-1-K2|0001-01-K2|-2
roman|1-1-k00|0001-01-K0|none
roman|1-1-n04|0001-01-N4|0
roman|1-99-I99|0001-99-I99|none
roman|-99999-1-K2|-99999-01-K2|out
roman|\t1945-11-K3 |1945-11-K3|710347
roman|1752-9-N3|1752-09-N3|639797";

/// Whether this is the day of a date, or why it has none, as tables write it.
fn is_answer(day: Result<Day, Refusal>, answer: &str) -> bool {
    match day {
        Ok(day) => answer.parse() == Ok(day.number()),
        Err(Refusal::NoSuchDate) => answer == "none",
        Err(Refusal::OutOfRange) => answer == "out",
        Err(_) => false,
    }
}

/// Whether the text on a line says a date with the canonical text and the answer there.
fn says_date(line: &str) -> bool {
    let mut parts = line.split('|');
    let (Some(name), Some(text), Some(written), Some(answer)) = (
        parts.next(),
        parts.next(),
        parts.next(),
        parts.next(),
    ) else {
        return false;
    };
    let Some(calendar) = calendar_named(name) else {
        return false;
    };
    let Ok(date) = read_date(calendar, text) else {
        return false;
    };
    write_date(&date).as_str() == written
        && read_date(calendar, written) == Ok(date)
        && is_answer(day_of_date(&date), answer)
}

/// Texts, and after a bar the names of the calendars that read them, if any does. Most are near those that are read: of
/// years, months and days, of weeks, of long counts and of Roman names.
const READERS: &str = "\
1945-11-12|gregorian julian coptic ethiopic egyptian armenian islamic hebrew french republican;\
1945-W11-2|iso;1.9.4.5.11|longcount;1945-11-K2|roman;\
 01945-011-12;100000-01-01;100000-W01-1;000001-01-01;+1945-11-12;-;--1-1-1;1945;1945-11;1945-11-;\
1945--12;-11-12;1945-11-12-;1945-11-123;1945 -11-12;1945- 11-12;1945/11/12;\u{660}1-1-1;\
1945-11-1\u{663};\u{a0}1945-11-12;1945-11-12\n;; \t ;\
2004W536;2004-WW53-6;2004-W-6;2004-W053-6;2004-W53-;2004-W53-006;2004-W 53-6;2004-V53-6;W53-6;\
12.16.11.16;12.16.11.16.9.0;12.16.11.16.;12..11.16.9;12.16.11.16.00009;10000.0.0.0.0;-1.0.0.0.0;\
+1.0.0.0.0;12.16.11.16 .9;12,16,11,16,9;7 Zac;11 Muluc;\
1-1-X3;1-1-K;1-1-KK3;1-1-K003;1-1-K+3;1-1-K 3;1-1-III;1-1-K3A;1-3-K06B;1-3-K6BB;1-3-N6B;1-3-6B;\
1-3-K6\u{df};1-3-\u{212a}6;1-003-K6;1--K6;3-K6;K6B";

/// Whether the calendars that read a text are those named after it, and each other one refuses it as no date text.
fn has_readers(entry: &str) -> bool {
    let (text, readers) = entry.split_once('|').unwrap_or((entry, ""));
    for calendar in &Calendar::ALL {
        let expected = readers.contains(calendar.name());
        let is_right = match read_date(*calendar, text) {
            Ok(_) => expected,
            Err(refusal) => !expected && refusal == Refusal::DateText,
        };
        if !is_right {
            return false;
        }
    }
    true
}

/// Texts, and after a bar the name of the target that they name, or `none`. Blanks at the ends and the case of letters
/// do not matter.
const NAMES: &str = "\
gregorian|gregorian
iso|iso
julian|julian
coptic|coptic
ethiopic|ethiopic
egyptian|egyptian
armenian|armenian
islamic|islamic
hebrew|hebrew
longcount|longcount
french|french
roman|roman
republican|republican
haab|haab
tzolkin|tzolkin
 Gregorian\t|gregorian
\t \tJULIAN|julian
LongCount|longcount
ISO|iso
 hAAb |haab
TZOLKIN\t|tzolkin
ROMAN |roman
\tRepublican|republican
julian calendar|none
jul ian|none
long count|none
mayan|none
romans|none
republicain|none
repub|none
julia|none
\u{a0}julian|none
\u{212a}ulian|none
|none
 \t |none";

/// Whether the text on a line names the target there, and its calendar where it is one.
fn names_target(line: &str) -> bool {
    let Some((text, name)) = line.split_once('|') else {
        return false;
    };
    let calendar = calendar_named(text);
    match target_named(text) {
        Some(Target::Date(of)) => of.name() == name && calendar == Some(of),
        Some(other) => other.name() == name && calendar.is_none(),
        None => name == "none" && calendar.is_none(),
    }
}

/// A day number and the cells of its day in all fifteen targets: one day, and the day 0.0.0.0.0 and the day before
/// it, on which some calendars have no date yet.
///
/// After them stand days as another program has them: the calendar of GNU Emacs, for the Egyptian and Armenian columns
/// a division of the days since the epoch by 365, for the Roman column a table of the days of a month, looked up at the
/// Julian date, and for the last column a count of years of 365 and 366 days.
const CELLS: &str = "\
710347,1945-11-12,1945-W46-1,1945-10-30,1662-03-03,1938-03-03,2694-07-10,1395-04-05,\
1364-12-06,5706-09-07,12.16.11.16.9,0154-02-21,1945-11-K3,7 Zac,11 Muluc,0154-02-20
-1137142,-3113-08-11,-3113-W33-1,-3114-09-06,,,,,\
,0647-06-11,0.0.0.0.0,,-3114-09-I8,8 Cumku,4 Ahau,
-1137143,-3113-08-10,-3113-W32-7,-3114-09-05,,,,,\
,0647-06-10,,,-3114-09-N1,7 Cumku,3 Cauac,
227015,0622-07-19,0622-W29-5,0622-07-16,0338-11-22,0614-11-22,1370-04-28,0071-01-23,\
0001-01-01,4382-05-03,9.9.9.5.17,,0622-08-K17,15 Yaxkin,6 Caban,
334455,0916-09-15,0916-W38-2,0916-09-10,0633-01-13,0909-01-13,1664-09-08,0365-06-03,\
0304-03-09,4677-07-11,10.4.7.13.17,,0916-09-I4,5 Kankin,1 Caban,
456789,1251-08-24,1251-W34-4,1251-08-17,0967-12-24,1243-12-24,1999-11-07,0700-08-02,\
0649-05-27,5011-05-28,11.1.7.10.11,,1251-09-K16,4 Kayab,5 Chuen,
601716,1648-06-10,1648-W24-3,1648-05-31,1364-10-06,1640-10-06,2396-11-29,1097-08-24,\
1058-05-18,5408-03-20,12.1.10.2.18,,1648-06-K2,6 Cumku,8 Etznab,
654415,1792-09-22,1792-W38-6,1792-09-11,1509-01-14,1785-01-14,2541-04-13,1242-01-08,\
1207-02-05,5553-07-06,12.8.16.9.17,0001-01-01,1792-09-I3,0 Yaxkin,5 Caban,0001-01-01
693596,1900-01-01,1900-W01-1,1899-12-20,1616-04-23,1892-04-23,2648-08-19,1349-05-14,\
1317-08-28,5660-11-01,12.14.5.6.18,0108-04-12,1900-01-K13,6 Mac,4 Etznab,0108-04-10
737000,2018-11-02,2018-W44-5,2018-10-20,1735-02-23,2011-02-23,2767-07-18,1468-04-13,\
1440-02-22,5779-08-24,13.0.5.17.2,0227-02-12,2018-11-K13,15 Zac,1 Ik,0227-02-10
764652,2094-07-18,2094-W28-7,2094-07-05,1810-11-11,2086-11-11,2843-04-20,1544-01-15,\
1518-03-05,5854-05-05,13.4.2.13.14,0302-11-01,2094-07-N3,7 Yaxkin,2 Ix,0302-10-28
1000000,2738-11-28,2738-W48-1,2738-11-09,2455-03-13,2731-03-13,3488-02-03,2188-11-03,\
2182-04-23,6499-08-24,14.16.16.9.2,0947-03-07,2738-11-I5,10 Zip,11 Ik,0947-02-30";

/// The day of a number.
fn day_numbered(number: &str) -> Option<Day> {
    match number.parse() {
        Ok(number) => Day::new(number),
        Err(_) => None,
    }
}

/// Whether this is the cell of the day in the target's column, as a text and at the front of a cell's room.
fn has_cell(target: Target, day: Day, text: &str) -> bool {
    let mut buffer = [b'?'; MAX_CELL];
    let count = write_cell(&mut buffer, target, day);
    let mut too_few = [b'?'; MAX_CELL - 1];
    cell(target, day).as_str() == text
        && buffer.get(..count as usize) == Some(text.as_bytes())
        && write_cell_within(&mut buffer, target, day) == Some(count)
        && write_cell_within(&mut too_few, target, day).is_none()
}

/// Whether the day whose number stands first on the line has the cells after it, one for each target.
fn has_cells(line: &str) -> bool {
    let mut parts = line.split(',');
    let Some(day) = parts.next().and_then(day_numbered) else {
        return false;
    };
    for target in &Target::ALL {
        let Some(text) = parts.next() else {
            return false;
        };
        if !has_cell(*target, day, text) {
            return false;
        }
    }
    parts.next().is_none()
}

/// A target, a day number and the cell of the day in the target's column: the first day of each calendar that has one.
const FIRST_CELLS: &str = "\
coptic,103605,0001-01-01
ethiopic,2796,0001-01-01
egyptian,-272787,0001-01-01
armenian,201443,0001-01-01
islamic,227015,0001-01-01
hebrew,-1373427,0001-07-01
longcount,-1137142,0.0.0.0.0
french,654415,0001-01-01
republican,654415,0001-01-01";

/// The same of known days of the calendars that have no first day, among them the ends of the range.
const CELLS_OF_ONE_TARGET: &str = "\
gregorian,577736,1582-10-15
julian,577736,1582-10-05
roman,577736,1582-10-N3
gregorian,639797,1752-09-14
julian,639797,1752-09-03
roman,639797,1752-09-N3
gregorian,-308,0000-02-27
julian,-308,-0001-02-29
roman,-308,-0001-03-K2
gregorian,-15999,-0043-03-13
julian,-15999,-0044-03-15
roman,-15999,-0044-03-I1
gregorian,3652059,9999-12-31
julian,3652059,9999-10-19
roman,3652059,9999-11-K14
gregorian,-3652424,-9999-01-01
julian,-3652424,-10000-03-19
roman,-3652424,-10000-04-K14";

/// The target, the day and the cell on a line.
fn cell_on(line: &str) -> Option<(Target, Day, &str)> {
    let mut parts = line.split(',');
    let target = target_named(parts.next()?)?;
    let day = day_numbered(parts.next()?)?;
    Some((target, day, parts.next()?))
}

/// Whether the day and the target on a line have the cell there.
fn has_one_cell(line: &str) -> bool {
    match cell_on(line) {
        Some((target, day, text)) => has_cell(target, day, text),
        None => false,
    }
}

/// Whether they do, and the day before has an empty cell.
fn has_first_cell(line: &str) -> bool {
    let Some((target, day, text)) = cell_on(line) else {
        return false;
    };
    match Day::new(day.number() - 1) {
        Some(before) => has_cell(target, day, text) && has_cell(target, before, ""),
        None => false,
    }
}

/// Whether a date that is made of a calendar and of a year, a month and a day keeps them.
fn keeps_parts(calendar: Calendar, year: i32, month: u8, day: u8) -> bool {
    let Some(ymd) = Ymd::new(year, month, day) else {
        return false;
    };
    let Some(date) = CivilDate::new(calendar, ymd) else {
        return false;
    };
    date.calendar() == calendar && date.ymd() == ymd
}

/// Refusals and their numbers.
static NUMBERS: [(Refusal, u8); 7] = [
    (Refusal::FieldCount, 1),
    (Refusal::FieldTooLong, 2),
    (Refusal::NotUtf8, 3),
    (Refusal::UnknownCalendar, 4),
    (Refusal::DateText, 5),
    (Refusal::NoSuchDate, 6),
    (Refusal::OutOfRange, 7),
];

/// Whether each refusal has its number.
fn have_numbers() -> bool {
    for (refusal, number) in &NUMBERS {
        if refusal.number() != *number {
            return false;
        }
    }
    true
}

/// What a line of a table says.
#[derive(Clone, Copy)]
enum Kind {
    Date,
    Readers,
    Name,
    Cells,
    FirstCell,
    OneCell,
}

/// What its lines say, what stands between them, and a table.
const TABLES: [(Kind, char, &str); 6] = [
    (Kind::Date, '\n', DATES),
    (Kind::Readers, ';', READERS),
    (Kind::Name, '\n', NAMES),
    (Kind::Cells, '\n', CELLS),
    (Kind::FirstCell, '\n', FIRST_CELLS),
    (Kind::OneCell, '\n', CELLS_OF_ONE_TARGET),
];

/// Whether a line is right.
fn is_right(kind: Kind, line: &str) -> bool {
    match kind {
        Kind::Date => says_date(line),
        Kind::Readers => has_readers(line),
        Kind::Name => names_target(line),
        Kind::Cells => has_cells(line),
        Kind::FirstCell => has_first_cell(line),
        Kind::OneCell => has_one_cell(line),
    }
}

#[test]
fn texts_names_and_cells_are_right(rt: HostRuntime) {
    for (kind, between, table) in TABLES {
        for line in table.split(between) {
            assert!(rt; is_right(kind, line), "at {line:?}");
        }
    }
    assert!(rt; keeps_parts(Calendar::Julian, 1752, 9, 3) && have_numbers());
}
