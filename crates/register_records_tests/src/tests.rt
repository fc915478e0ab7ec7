//! The tables that are wanted are worked by hand from the calendars' rules and from published day numbers: R.D. 719163,
//! a Thursday, is 1970-01-01, and R.D. 577736, a Friday, is 1582-10-05 of the Julian calendar.

use arrayvec::ArrayString;
use date_texts::{Calendar, Target};
use register_records::{
    Body, Entry, Form, Output, Row, Setup, SetupFault, SourceEnd, convert, convert_source,
};
use std::alloc::Global;
use std::io;
use std::io::{ErrorKind, Read};

mod examples;
mod faults;
mod parts;
mod streams;
mod tables;
mod texts;

const GREGORIAN: Target = Target::Date(Calendar::Gregorian);

const ISO: Target = Target::Date(Calendar::Iso);

const JULIAN: Target = Target::Date(Calendar::Julian);

const ISLAMIC: Target = Target::Date(Calendar::Islamic);

const LONGCOUNT: Target = Target::Date(Calendar::Longcount);

const FRENCH: Target = Target::Date(Calendar::French);

const ROMAN: Target = Target::Date(Calendar::Roman);

const REPUBLICAN: Target = Target::Date(Calendar::Republican);

/// The setup of plain registers for these targets, with rings of one and a comma. Nothing is promised of it, nor of the
/// functions below that call others of the crate, so that a test is proved without all that is proved of these.
fn plain(targets: &[Target]) -> Result<Setup, SetupFault> {
    Setup::new(targets, 1, b',', 1, Form::Plain)
}

/// How a source ends under a setup, if there is one.
fn end_of<R: Read + Drop, W: Output>(
    alloc: Global,
    reader: R,
    output: &mut W,
    setup: Result<Setup, SetupFault>,
) -> Option<SourceEnd> {
    let setup = setup.ok()?;
    Some(convert_source(alloc, reader, output, &setup))
}

/// The number of the cause of that end, or 0 where the source is whole.
fn cause_from<R: Read + Drop, W: Output>(
    alloc: Global,
    reader: R,
    output: &mut W,
    setup: Result<Setup, SetupFault>,
) -> Option<u8> {
    let end = end_of(alloc, reader, output, setup)?;
    Some(cause_of(&end))
}

/// The number of the cause of an end, or 0 where the source is whole.
fn cause_of(end: &SourceEnd) -> u8 {
    match end {
        SourceEnd::Whole { .. } => 0,
        SourceEnd::Broken { cause } => cause.number(),
    }
}

/// The fields of a record that has no note, if it may hold them.
fn fields_of([id, calendar, date]: [&str; 3]) -> Option<Body> {
    Some(Body::Fields {
        id: ArrayString::from(id).ok()?,
        calendar: ArrayString::from(calendar).ok()?,
        date: ArrayString::from(date).ok()?,
        note: ArrayString::new(),
    })
}

/// An entry of the last number with these fields.
fn last_entry(fields: [&str; 3]) -> Option<Entry> {
    Entry::new(1_000_000, fields_of(fields)?)
}

/// The row of an entry.
fn row_of(entry: Entry, setup: &Setup) -> Row {
    convert(entry, setup)
}

/// How many lines there are.
fn lines_of(bytes: &[u8]) -> usize {
    let mut lines = 0usize;
    for byte in bytes {
        if *byte == b'\n' {
            lines = lines.saturating_add(1);
        }
    }
    lines
}

/// How many lines these bytes are of the front of a table; else a number that no table has.
fn lines_of_front(bytes: &[u8], table: &[u8]) -> usize {
    if table.starts_with(bytes) && (bytes.is_empty() || bytes.ends_with(b"\n")) {
        lines_of(bytes)
    } else {
        usize::MAX
    }
}

static THREE_RECORDS: &[u8] = b"\
id,calendar,date
x,gregorian,1970-01-01
x,gregorian,1970-01-01
x,gregorian,1970-01-01
";

static THREE_ROWS: &[u8] = b"\
row,id,calendar,date,rd,weekday,refusal
1,x,gregorian,1970-01-01,719163,Thursday,
2,x,gregorian,1970-01-01,719163,Thursday,
3,x,gregorian,1970-01-01,719163,Thursday,
";

/// A reader of a text in two parts, in which the substitute U+001A stands for the byte FF, which is nowhere in UTF-8.
#[derive(Drop)]
struct Text<'a> {
    rest: &'a [u8],
    more: &'a [u8],
    // The most bytes of a read, and how many reads succeed.
    most: usize,
    reads: u32,
}

impl<'a> Text<'a> {
    fn new(front: &'a [u8], more: &'a [u8]) -> Text<'a> {
        Text {
            rest: front,
            more,
            most: usize::MAX,
            reads: u32::MAX,
        }
    }

    /// A text of which so many reads succeed, of at most so many bytes.
    fn cut(text: &'a [u8], most: usize, reads: u32) -> Text<'a> {
        Text {
            rest: text,
            more: b"",
            most,
            reads,
        }
    }
}

impl Text<'_> {
    fn is_given(&self) -> bool {
        self.rest.is_empty() && self.more.is_empty()
    }
}

impl Read for Text<'_> {
    fn read(&mut self, buf: &mut [u8]) -> io::Result<usize> {
        if self.reads == 0 {
            return Err(io::Error::from(ErrorKind::Other));
        }
        self.reads = self.reads.saturating_sub(1);
        let most = buf.len().min(self.most);
        let front = self.rest.read(&mut buf[..most])?;
        let behind = if self.rest.is_empty() {
            self.more.read(&mut buf[front..most])?
        } else {
            0
        };
        let count = front + behind;
        for byte in &mut buf[..count] {
            if *byte == 0x1A {
                *byte = 0xFF;
            }
        }
        Ok(count)
    }
}
