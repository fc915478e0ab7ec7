//! Texts that become their tables, by runs of many shapes: registers of some records, sealed ones, and texts that are
//! meant to harm. The rows are worked by hand from the calendars' rules: 5 October 1582 in the Julian calendar is day
//! 577736, a Friday.

use super::streams::{ReadFault, Text};
use super::{
    HEADER, Host, RECORD, ROOM, cause_of, end_on_one_thread, is_complete, plain_setup, report_of,
    sinks_of,
};
use date_texts::{Calendar, Target};
use register_records::faults::Sink;
use register_records::{Form, Note, Setup, SetupFault, SourceEnd};
use register_run::Report;
use std::alloc::{AllocError, Global};

/// The heading with no target.
const HEADING: &[u8] = b"row,id,calendar,date,rd,weekday,refusal\n";

/// Whether a line is the row of this number.
fn is_row(line: &str, row: u32) -> bool {
    let Some(number) = line.strip_suffix(",x,gregorian,1970-01-01,719163,Thursday,") else {
        return false;
    };
    number.parse() == Ok(row) && !number.starts_with('0') && !number.starts_with('+')
}

/// Whether these are the bytes of the table of so many records, with no target.
fn is_table(bytes: &[u8], records: u32) -> bool {
    let Some(rows) = bytes.strip_prefix(HEADING) else {
        return false;
    };
    let Ok(rows) = str::from_utf8(rows) else {
        return false;
    };
    let mut row = 0u32;
    for line in rows.lines() {
        row = row.saturating_add(1);
        if !is_row(line, row) {
            return false;
        }
    }
    row == records && (records == 0 || rows.ends_with('\n'))
}

/// Whether a source is whole with so many rows, and its journal has these notes alone, one for each refused row.
fn is_whole_with(end: &SourceEnd, count: u32, notes: &[Note]) -> bool {
    let SourceEnd::Whole {
        rows,
        refused,
        journal,
    } = end
    else {
        return false;
    };
    *rows == count && *refused as usize == notes.len() && journal.as_slice() == notes
}

/// Whether a run is complete with sources of so many records, and its outputs hold their tables.
fn has_tables(report: &Report<Sink>, counts: &[u32]) -> bool {
    let mut right = 0usize;
    for ((end, sink), count) in report.ends.iter().zip(&report.outputs).zip(counts) {
        if is_whole_with(end, *count, &[]) && is_table(sink.bytes(), *count) {
            right = right.saturating_add(1);
        }
    }
    is_complete(report) && right == counts.len() && report.ends.len() == right
}

/// Sources of so many records each.
fn sources_of(alloc: Global, counts: &[u32]) -> Result<Vec<Text<'static>>, AllocError> {
    let mut sources = Vec::new(alloc);
    for count in counts {
        sources.push(Text::new(HEADER, RECORD, *count))?;
    }
    Ok(sources)
}

/// Whether sources of so many records each become their tables.
fn become_tables(
    rt: &impl Host,
    alloc: Global,
    counts: &[u32],
    (ring, stripes): (usize, usize),
) -> bool {
    let sources = sources_of(alloc, counts);
    let sinks = sinks_of(alloc, counts.len());
    let setup = plain_setup(ring, stripes);
    match report_of(rt, alloc, setup, sources.ok(), sinks.ok()) {
        Some(report) => has_tables(&report, counts),
        None => false,
    }
}

#[test]
fn a_header_alone_gives_the_heading_and_no_source_is_complete(rt: HostRuntime) {
    for counts in [[].as_slice(), [0].as_slice()] {
        assert!(rt; become_tables(&rt, rt.alloc(), counts, (16, 1)));
    }
}

#[test]
fn tables_do_not_depend_on_stripes_and_rings(rt: HostRuntime) {
    for stripes in 1..5usize {
        for ring in [1, 4096] {
            assert!(rt;
                become_tables(&rt, rt.alloc(), &[0, 1, 100, 3], (ring, stripes)),
                "{stripes} stripes, rings of {ring}"
            );
        }
    }
}

/// A text, the cause that is reported, or 0, and the table: the text and the table each in two parts, of which the first
/// is that of many.
type Case<'a> = (&'a [u8], &'a [u8], u8, &'a [u8], &'a [u8]);

/// Whether a source has ended so, with this in its output.
fn is_met(case: &Case<'_>, end: &SourceEnd, sink: &Sink) -> bool {
    let (_, _, cause, front, rest) = *case;
    cause_of(end) == cause && sink.bytes().strip_prefix(front) == Some(rest)
}

/// The reader of a text, with at most so many bytes by each read, and this fault.
fn reader_of<'a>(case: &Case<'a>, most: usize, fault: ReadFault) -> Text<'a> {
    let (front, rest, ..) = *case;
    Text::new(front, rest, 1).read_by(most, fault).joined()
}

/// Whether one thread ends a text so.
fn is_met_on_one_thread(case: &Case<'_>, alloc: Global, most: usize) -> bool {
    let Ok(mut sink) = Sink::new(alloc, 7, ROOM, 0, 0, ROOM) else {
        return false;
    };
    let reader = reader_of(case, most, ReadFault::Nothing);
    match end_on_one_thread(alloc, reader, &mut sink) {
        Some(end) => is_met(case, &end, &sink),
        None => false,
    }
}

/// The readers of these texts.
fn readers_of<'a>(
    alloc: Global,
    cases: &[Case<'a>],
    most: usize,
    fault: ReadFault,
) -> Result<Vec<Text<'a>>, AllocError> {
    let mut readers = Vec::new(alloc);
    for case in cases {
        readers.push(reader_of(case, most, fault))?;
    }
    Ok(readers)
}

/// How many texts a run converts as it should, up to the first that it does not.
fn right_in_run(
    rt: &impl Host,
    alloc: Global,
    setup: Result<Setup, SetupFault>,
    cases: &[Case<'_>],
    (most, fault): (usize, ReadFault),
) -> usize {
    let sources = readers_of(alloc, cases, most, fault);
    let sinks = sinks_of(alloc, cases.len());
    match report_of(rt, alloc, setup, sources.ok(), sinks.ok()) {
        Some(report) => right_in_report(&report, cases),
        None => 0,
    }
}

fn right_in_report(report: &Report<Sink>, cases: &[Case<'_>]) -> usize {
    let mut right = 0usize;
    for ((end, sink), case) in report.ends.iter().zip(&report.outputs).zip(cases) {
        if !is_met(case, end, sink) {
            break;
        }
        right = right.saturating_add(1);
    }
    right
}

const GREGORIAN: Target = Target::Date(Calendar::Gregorian);

/// A register that is broken leaves the other one alone.
static PLAIN: [Case<'static>; 2] = [
    (b"", b"", 6, b"", b""),
    (
        HEADER,
        b"b,julian,1582-10-05\n",
        0,
        b"row,id,calendar,date,rd,weekday,gregorian,refusal\n",
        b"1,b,julian,1582-10-05,577736,Friday,1582-10-15,\n",
    ),
];

/// Two records, of which the second has three fields.
const ENTRIES: &[u8] =
    b"id,calendar,date,note\na,julian,1582-10-05,parish book\nb,julian,1582-10-06\n";

/// Their table.
const ROWS: &[u8] = b"row,id,calendar,date,note,rd,weekday,gregorian,refusal\n\
    1,a,julian,1582-10-05,parish book,577736,Friday,1582-10-15,\n2,,,,,,,,1\n";

/// The row of a third record that does not have four fields.
const THIRD_ROW: &[u8] = b"3,,,,,,,,1\n";

/// Sealed registers: which are whole, and why the others are not.
static SEALED: [Case<'static>; 22] = [
    (ENTRIES, b"END,2\n", 0, ROWS, b""),
    (ENTRIES, b" END , 02\n", 0, ROWS, b""),
    (ENTRIES, b"\"END\",0000002", 0, ROWS, b""),
    // There is no seal, or the first one does not agree, or it is not the last record.
    (ENTRIES, b"", 8, ROWS, b""),
    (ENTRIES, b"END,3\n", 8, ROWS, b""),
    (ENTRIES, b"END,1\n", 8, ROWS, b""),
    (ENTRIES, b"END,x\n", 8, ROWS, b""),
    (ENTRIES, b"END,\n", 8, ROWS, b""),
    (ENTRIES, b"END,00000002\n", 8, ROWS, b""),
    (ENTRIES, b"END,2\nc,julian,1582-10-07,\n", 8, ROWS, b""),
    (ENTRIES, b"END,2\nEND,2\n", 8, ROWS, b""),
    (ENTRIES, b"END,3\nEND,3\n", 8, ROWS, b""),
    // A record that is no seal is an entry.
    (ENTRIES, b"END\n", 8, ROWS, THIRD_ROW),
    (ENTRIES, b"END,2,\n", 8, ROWS, THIRD_ROW),
    (ENTRIES, b"end,2\n", 8, ROWS, THIRD_ROW),
    (ENTRIES, b"2,END\n", 8, ROWS, THIRD_ROW),
    (ENTRIES, b"end,2\nEND,3\n", 0, ROWS, THIRD_ROW),
    // A register without entries has a seal too.
    (
        b"id,calendar,date,note\n",
        b"END,0\n",
        0,
        b"row,id,calendar,date,note,rd,weekday,gregorian,refusal\n",
        b"",
    ),
    (b"id,calendar,date,note\n", b"", 8, b"", b""),
    (HEADER, b"END,0\n", 6, b"", b""),
    (b"END,0\nEND,0\n", b"", 6, b"", b""),
    (b"", b"", 6, b"", b""),
];

/// What follows a seal has to be seen, so a register that cannot be read to its end is not whole.
static CUT_OFF: [Case<'static>; 1] = [(ENTRIES, b"END,2\n", 5, ROWS, b"")];

/// The setup of registers in this form.
fn setup_of(form: Form, ring: usize, stripes: usize) -> Result<Setup, SetupFault> {
    Setup::new(&[GREGORIAN], ring, b',', stripes, form)
}

#[test]
fn registers_end_whole_or_with_their_causes(rt: HostRuntime) {
    for (form, ring, stripes, fault, cases) in [
        (Form::Plain, 16, 1, ReadFault::Nothing, PLAIN.as_slice()),
        (Form::Sealed, 1, 1, ReadFault::Nothing, SEALED.as_slice()),
        (Form::Sealed, 1, 4, ReadFault::Nothing, SEALED.as_slice()),
        (Form::Sealed, 1, 1, ReadFault::Behind, CUT_OFF.as_slice()),
    ] {
        let setup = setup_of(form, ring, stripes);
        let right = right_in_run(&rt, rt.alloc(), setup, cases, (ROOM, fault));
        assert!(rt;
            right == cases.len(),
            "{stripes} stripes, behind {right} texts"
        );
    }
}

/// Texts that are meant to harm.
static HOSTILE: [Case<'static>; 16] = [
    (
        HEADER,
        b"aaaaaaaaaaaaaaaaaaaaaaaaaaaaaaaaaaaaaaaa,gregorian,                      1945-11-12\n",
        0,
        HEADING,
        b"1,aaaaaaaaaaaaaaaaaaaaaaaaaaaaaaaaaaaaaaaa,gregorian,                      1945-11-12,710347,Monday,\n",
    ),
    (
        HEADER,
        b"aaaaaaaaaaaaaaaaaaaaaaaaaaaaaaaaaaaaaaaa,gregorian,                       1945-11-12\n",
        0,
        HEADING,
        b"1,,,,,,2\n",
    ),
    (
        HEADER,
        b"d,                 ,1945-11-12\n",
        0,
        HEADING,
        b"1,,,,,,2\n",
    ),
    (
        HEADER,
        b"\xff\xff\xff\xff\xff\xff\xff\xff\xff\xff\
        \xff\xff\xff\xff\xff\xff\xff\xff\xff\xff\
        \xff\xff\xff\xff\xff\xff\xff\xff\xff\xff\
        \xff\xff\xff\xff\xff\xff\xff\xff\xff\xff\
        \xff,gregorian,1945-11-12\n",
        0,
        HEADING,
        b"1,,,,,,2\n",
    ),
    (
        HEADER,
        b"\xff,gregorian,1945-11-12\n",
        0,
        HEADING,
        b"1,,,,,,3\n",
    ),
    (
        HEADER,
        b"\"a\"\"b\",gregorian,1970-01-01\n",
        0,
        HEADING,
        b"1,\"a\"\"b\",gregorian,1970-01-01,719163,Thursday,\n",
    ),
    (
        HEADER,
        b"x,gregorian,1970-01-01",
        0,
        HEADING,
        b"1,x,gregorian,1970-01-01,719163,Thursday,\n",
    ),
    (b"id,calendar,date", b"", 0, HEADING, b""),
    (b"", b"", 6, b"", b""),
    (b"\n\r\n\n", b"", 6, b"", b""),
    (b"id\n", b"", 6, b"", b""),
    (b"id,calendar\n", b"", 6, b"", b""),
    (b"id,calendar,date,note\n", b"", 6, b"", b""),
    (b"id,calendar,date,note,place\n", b"", 6, b"", b""),
    (
        b"id,calendar,date,,,,,,,,,,,,,,,,,,,,,,,,,,,,,,,,,,,,,\n",
        RECORD,
        6,
        b"",
        b"",
    ),
    (b"\xff,calendar,date\n", RECORD, 6, b"", b""),
];

/// How many texts one thread converts as it should, up to the first that it does not.
fn right_on_one_thread(alloc: Global, cases: &[Case<'_>], most: usize) -> usize {
    let mut right = 0usize;
    for case in cases {
        if !is_met_on_one_thread(case, alloc, most) {
            break;
        }
        right = right.saturating_add(1);
    }
    right
}

/// The same on one thread and by runs of one stripe and of four.
fn right_by_calls(rt: &impl Host, alloc: Global, cases: &[Case<'_>], most: usize) -> [usize; 3] {
    let how = (most, ReadFault::Nothing);
    [
        right_on_one_thread(alloc, cases, most),
        right_in_run(rt, alloc, plain_setup(1, 1), cases, how),
        right_in_run(rt, alloc, plain_setup(1, 4), cases, how),
    ]
}

/// A text with no closing quote: what it means is left open, but every call means the same.
const OPEN_QUOTE: &[u8] =
    b"x,gregorian,1970-01-01\na,\"gregorian,1945-11-12\nb,gregorian,1945-11-12\n";

/// What one thread makes of this text, where it is read at once, comes of all calls.
fn right_with_open_quote(rt: &impl Host, alloc: Global, most: usize) -> [usize; 3] {
    let Ok(mut sink) = Sink::new(alloc, 7, ROOM, 0, 0, ROOM) else {
        return [0; 3];
    };
    let text = Text::new(HEADER, OPEN_QUOTE, 1).joined();
    let Some(end) = end_on_one_thread(alloc, text, &mut sink) else {
        return [0; 3];
    };
    let case: Case<'_> = (HEADER, OPEN_QUOTE, cause_of(&end), sink.bytes(), b"");
    right_by_calls(rt, alloc, &[case], most)
}

#[test]
fn every_call_says_the_same_of_a_hostile_text(rt: HostRuntime) {
    for most in [ROOM, 1] {
        let right = right_by_calls(&rt, rt.alloc(), &HOSTILE, most);
        assert!(rt;
            right == [HOSTILE.len(); 3],
            "reads of {most}, behind {right:?} texts"
        );
        assert!(rt;
            right_with_open_quote(&rt, rt.alloc(), most) == [1; 3],
            "reads of {most}"
        );
    }
}
