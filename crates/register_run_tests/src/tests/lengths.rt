//! A million records: of one date, and with fields of every length that is allowed. No length and no number is an
//! error, and one record more ends a source.

use super::gates::counters;
use super::streams::{Counter, Text};
use super::{HEADER, Host, RECORD, end_on_one_thread, plain_setup, report_of};
use register_records::{PlainOutput, SourceEnd};
use std::alloc::Global;
use std::io;
use std::io::Read;
use std::sync::atomic::{AtomicU64, Ordering};

/// The most records of a source.
const MOST: u32 = 1_000_000;

/// A quote stands twice in a field between quotes.
const QUOTES: &[u8] =
    b"\"\"\"\"\"\"\"\"\"\"\"\"\"\"\"\"\"\"\"\"\"\"\"\"\"\"\"\"\"\"\"\"\"\"\"\"\"\"\"\"\"\"\"\"\"\"\"\"\"\"\"\"\"\"\"\"\"\"\"\"\"\"\"\"\"\"\"\"\"\"\"\"\"\"\"\"\"\"\"\"\"\"";

/// A reader of the most records: record k has an id of k modulo 41 quotes, the calendar `gregorian` with k modulo 8
/// spaces behind it, and the date 1970-01-01 behind k modulo 23 spaces.
#[derive(Drop)]
struct Lengths {
    rest: &'static [u8],
    number: u32,
    // The part of the record that comes next.
    part: u32,
}

/// A part of a record.
fn part_of(number: u32, part: u32) -> &'static [u8] {
    let (text, length) = match part {
        0 => (QUOTES, number % 41 * 2 + 2),
        1 => (b",gregorian       ".as_slice(), number % 8 + 10),
        2 => (b",                      ".as_slice(), number % 23 + 1),
        _ => (b"1970-01-01\n".as_slice(), 11),
    };
    text.get(..length as usize).unwrap_or(b"")
}

impl Lengths {
    fn new() -> Lengths {
        Lengths {
            rest: HEADER,
            number: 1,
            part: 0,
        }
    }

    /// Goes on to the next part. A record without quotes has no first one.
    fn advance(&mut self) {
        if self.part < 3 {
            self.part = self.part.saturating_add(1);
            return;
        }
        self.number = self.number.saturating_add(1);
        self.part = if self.number % 41 == 0 { 1 } else { 0 };
    }
}

impl Read for Lengths {
    fn read(&mut self, buf: &mut [u8]) -> io::Result<usize> {
        if self.rest.is_empty() && self.number <= MOST {
            self.rest = part_of(self.number, self.part);
            self.advance();
        }
        self.rest.read(buf)
    }
}

/// The bytes of the heading, and of the lines of so many records of one date: 41 and the digits of its number for each.
const BYTES_OF_MOST: u64 = 46_888_936;

const BYTES_OF_ONE_LESS: u64 = BYTES_OF_MOST - 48;

/// The bytes of the table of records of all lengths, which a Python program added up, line by line.
const BYTES_OF_LENGTHS: u64 = 102_339_821;

/// Whether a source is whole with so many rows, or for none broken since it has too many.
fn is_right(end: &SourceEnd, wanted: Option<u32>) -> bool {
    match end {
        SourceEnd::Whole { rows, refused, .. } => wanted == Some(*rows) && *refused == 0,
        SourceEnd::Broken { cause } => wanted.is_none() && cause.number() == 7,
    }
}

/// Whether one thread converts a source to so many rows and bytes.
fn one_thread_converts<R: Read + Drop>(
    alloc: Global,
    source: R,
    wanted: Option<u32>,
    bytes: u64,
) -> bool {
    let (rows, written) = (AtomicU64::new(0), AtomicU64::new(0));
    let mut output = PlainOutput::new(Counter::new(&rows, &written), 1);
    let end = end_on_one_thread(alloc, source, &mut output);
    let is_right = match end {
        Some(end) => is_right(&end, wanted),
        None => false,
    };
    is_right && written.load(Ordering::SeqCst) == bytes
}

#[test]
fn one_thread_converts_a_million_records_and_no_more(rt: HostRuntime) {
    for (count, wanted, bytes) in [
        (MOST - 1, Some(MOST - 1), BYTES_OF_ONE_LESS),
        (MOST, Some(MOST), BYTES_OF_MOST),
        (MOST + 1, None, BYTES_OF_MOST),
    ] {
        let source = Text::new(HEADER, RECORD, count);
        assert!(rt;
            one_thread_converts(rt.alloc(), source, wanted, bytes),
            "{count} records"
        );
    }
    assert!(rt;
        one_thread_converts(rt.alloc(), Lengths::new(), Some(MOST), BYTES_OF_LENGTHS),
        "all lengths"
    );
}

/// Whether the sources of a run end so.
fn are_right(ends: &[SourceEnd], wanted: &[Option<u32>]) -> bool {
    let mut right = 0usize;
    for (end, wanted) in ends.iter().zip(wanted) {
        if is_right(end, *wanted) {
            right = right.saturating_add(1);
        }
    }
    ends.len() == wanted.len() && right == wanted.len()
}

/// Whether a run converts sources to so many rows, and to so many bytes together.
fn run_converts<R: Read + Send + Drop>(
    rt: &impl Host,
    alloc: Global,
    (ring, stripes): (usize, usize),
    sources: Option<Vec<R>>,
    wanted: &[Option<u32>],
    bytes: u64,
) -> bool {
    let (rows, written) = (AtomicU64::new(0), AtomicU64::new(0));
    let outputs = counters(alloc, wanted.len(), &rows, &written);
    let setup = plain_setup(ring, stripes);
    let report = report_of(rt, alloc, setup, sources, outputs.ok());
    let are_right = match report {
        Some(report) => are_right(report.ends.as_slice(), wanted),
        None => false,
    };
    are_right && written.load(Ordering::SeqCst) == bytes
}

/// Whether a run of so many stripes converts a million records, and no more of one more beside it; and a million
/// records of all lengths.
fn runs_convert(rt: &impl Host, alloc: Global, stripes: usize) -> bool {
    let texts = Vec::from_array(
        alloc,
        [
            Text::new(HEADER, RECORD, MOST),
            Text::new(HEADER, RECORD, MOST + 1),
        ],
    );
    let lengths = Vec::from_array(alloc, [Lengths::new()]);
    let wanted = [Some(MOST), None];
    run_converts(
        rt,
        alloc,
        (4096, stripes),
        texts.ok(),
        &wanted,
        2 * BYTES_OF_MOST,
    ) && run_converts(
        rt,
        alloc,
        (64, stripes),
        lengths.ok(),
        &wanted[..1],
        BYTES_OF_LENGTHS,
    )
}

#[test]
fn a_run_converts_a_million_records_and_no_more(rt: HostRuntime) {
    for stripes in [1, 4] {
        assert!(rt; runs_convert(&rt, rt.alloc(), stripes), "{stripes} stripes");
    }
}
