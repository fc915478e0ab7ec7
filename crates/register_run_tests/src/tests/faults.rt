//! Sources and outputs that fail at each place in turn, and memory that is refused, beside sources that do not fail.

use super::streams::{ReadFault, Text};
use super::{
    HEADER, Host, RECORD, ROOM, cause_of, is_complete, plain_setup, report_of, result_of_run,
    sinks_of,
};
use register_records::faults::Sink;
use register_records::{Output, PlainOutput, SourceEnd};
use register_run::{Report, RunFault, RunFaultKind};
use std::alloc::{AllocError, Global};
use std::io;
use std::io::{ErrorKind, Write};
use std::process::Abort;

/// The table of three records.
static TABLE: &[u8] = b"\
row,id,calendar,date,rd,weekday,refusal
1,x,gregorian,1970-01-01,719163,Thursday,
2,x,gregorian,1970-01-01,719163,Thursday,
3,x,gregorian,1970-01-01,719163,Thursday,
";

/// The bytes of its heading, and of each row.
const HEADING_BYTES: usize = 40;

const ROW_BYTES: usize = 42;

/// The bytes of the table of so many records.
fn bytes_of_table(records: u32) -> usize {
    ROW_BYTES
        .saturating_mul(records as usize)
        .saturating_add(HEADING_BYTES)
}

static OTHER_RECORD: &[u8] = b"b,julian,1582-10-05\n";

static OTHER_TABLE: &[u8] =
    b"row,id,calendar,date,rd,weekday,refusal\n1,b,julian,1582-10-05,577736,Friday,\n";

/// What fails: a read; the write and the flush of these numbers, from 1, or 0 for none; and each write of more than so
/// many bytes takes so many alone.
#[derive(Clone, Copy)]
struct Faults {
    read: ReadFault,
    write: u32,
    flush: u32,
    most: usize,
}

const NO_FAULT: Faults = Faults {
    read: ReadFault::Nothing,
    write: 0,
    flush: 0,
    most: ROOM,
};

/// The output with these faults, and another one.
fn sinks_with(alloc: Global, faults: Faults) -> Result<Vec<Sink>, AllocError> {
    let first = Sink::new(alloc, 1, ROOM, faults.write, faults.flush, faults.most)?;
    let other = Sink::new(alloc, 2, ROOM, 0, 0, ROOM)?;
    Ok(Vec::from_array(alloc, [first, other])?)
}

/// What is seen of a source and its output: the number of the cause, or 0, whether the output has failed, and how many
/// bytes of the table's front stand on it, if nothing else does.
#[derive(Clone, Copy)]
struct Seen {
    cause: u8,
    has_failed: bool,
    bytes: Option<usize>,
}

impl Seen {
    fn of(end: &SourceEnd, sink: &Sink) -> Seen {
        Seen {
            cause: cause_of(end),
            has_failed: sink.has_failed(),
            bytes: if TABLE.starts_with(sink.bytes()) {
                Some(sink.bytes().len())
            } else {
                None
            },
        }
    }

    /// Whether the source has this cause, and so many bytes of the table are all that stands on its output.
    fn is(self, cause: u8, bytes: usize) -> bool {
        self.cause == cause && self.has_failed == (cause == 4) && self.bytes == Some(bytes)
    }

    /// Whether the source has this cause, and whole lines of the table of so many records stand on its output.
    fn has_lines(self, cause: u8, records: u32) -> bool {
        let Some(bytes) = self.bytes else {
            return false;
        };
        let is_whole = bytes == 0 || bytes % ROW_BYTES == HEADING_BYTES;
        is_whole && bytes <= bytes_of_table(records) && self.is(cause, bytes)
    }
}

/// What is seen of the first source of a run, where the second is whole with its table, and the run complete only if
/// the first is whole too.
fn seen_beside_whole(report: &Report<Sink>) -> Option<Seen> {
    let ([end, other_end], [sink, other]) = (report.ends.as_slice(), report.outputs.as_slice())
    else {
        return None;
    };
    let seen = Seen::of(end, sink);
    let is_right = is_complete(report) == (seen.cause == 0)
        && (sink.mark(), other.mark()) == (1, 2)
        && cause_of(other_end) == 0
        && !other.has_failed()
        && other.bytes() == OTHER_TABLE;
    if is_right { Some(seen) } else { None }
}

/// Runs a text of so many records with these faults beside another text, which becomes its table, and says what is
/// seen of the first.
fn seen_of(
    rt: &impl Host,
    alloc: Global,
    stripes: usize,
    records: u32,
    faults: Faults,
) -> Option<Seen> {
    let first = Text::new(HEADER, RECORD, records).read_by(ROOM, faults.read);
    let sources = Vec::from_array(alloc, [first, Text::new(HEADER, OTHER_RECORD, 1)]);
    let sinks = sinks_with(alloc, faults);
    let setup = plain_setup(1, stripes);
    let report = report_of(rt, alloc, setup, sources.ok(), sinks.ok())?;
    seen_beside_whole(&report)
}

/// What is called of a source or an output.
#[derive(Clone, Copy)]
enum Call {
    Read,
    Write,
    Flush,
}

impl Call {
    /// The fault of the call of this number.
    fn fault(self, number: u32) -> Faults {
        match self {
            Call::Read => Faults {
                read: ReadFault::At(number),
                ..NO_FAULT
            },
            Call::Write => Faults {
                write: number,
                ..NO_FAULT
            },
            Call::Flush => Faults {
                flush: number,
                ..NO_FAULT
            },
        }
    }

    /// Whether the call of this number broke the source, with whole lines on its output, and with none where no read
    /// succeeded.
    fn broke(self, number: u32, seen: Seen) -> bool {
        match self {
            Call::Read if number == 1 => seen.is(5, 0),
            Call::Read => seen.has_lines(5, 3),
            _ => seen.has_lines(4, 3),
        }
    }
}

/// More reads, writes or flushes than three records need.
const MANY: u32 = 20;

/// How many of the first calls break the source, each alone: from the next one on it is whole. It is more than there
/// are where one does anything else.
fn count_of_broken(rt: &impl Host, alloc: Global, stripes: usize, call: Call) -> u32 {
    for number in 1..MANY {
        let Some(seen) = seen_of(rt, alloc, stripes, 3, call.fault(number)) else {
            return MANY;
        };
        if seen.is(0, TABLE.len()) {
            return number.saturating_sub(1);
        }
        if !call.broke(number, seen) {
            return MANY.saturating_add(number);
        }
    }
    MANY
}

#[test]
fn a_read_a_write_and_a_flush_fail_at_each_place(rt: HostRuntime) {
    for stripes in [1, 4] {
        // The heading and the rows are at least two writes.
        for (call, name, least) in [
            (Call::Read, "read", 4),
            (Call::Write, "write", 2),
            (Call::Flush, "flush", 2),
        ] {
            let broken = count_of_broken(&rt, rt.alloc(), stripes, call);
            assert!(rt;
                (least..MANY - 1).contains(&broken),
                "{name}, {stripes} stripes: {broken}"
            );
        }
    }
}

/// A name, the records of a text, what fails, the cause, and the bytes of the table's front.
static TRIALS: [(&str, u32, Faults, u8, usize); 8] = [
    // Each write takes one byte, so the heading or the line of the first row is cut where a write fails. What was
    // written before stays, and nothing is added, no line feed either.
    (
        "a line is cut",
        3,
        Faults {
            write: 1,
            most: 1,
            ..NO_FAULT
        },
        4,
        0,
    ),
    (
        "a line is cut",
        3,
        Faults {
            write: 8,
            most: 1,
            ..NO_FAULT
        },
        4,
        7,
    ),
    (
        "a line is cut",
        3,
        Faults {
            write: 41,
            most: 1,
            ..NO_FAULT
        },
        4,
        40,
    ),
    (
        "a line is cut",
        3,
        Faults {
            write: 51,
            most: 1,
            ..NO_FAULT
        },
        4,
        50,
    ),
    // An output may take one byte, but not none.
    (
        "one byte by each write",
        3,
        Faults {
            most: 1,
            ..NO_FAULT
        },
        0,
        166,
    ),
    (
        "no byte by each write",
        3,
        Faults {
            most: 0,
            ..NO_FAULT
        },
        4,
        0,
    ),
    // A fault of writing is reported before one of reading. A text is cut off behind its record.
    (
        "a fault of reading",
        1,
        Faults {
            read: ReadFault::Behind,
            ..NO_FAULT
        },
        5,
        82,
    ),
    (
        "faults of reading and writing",
        1,
        Faults {
            read: ReadFault::Behind,
            write: 1,
            ..NO_FAULT
        },
        4,
        0,
    ),
];

/// Whether a source was seen with this cause and so many bytes.
fn is_seen(seen: Option<Seen>, cause: u8, bytes: usize) -> bool {
    match seen {
        Some(seen) => seen.is(cause, bytes),
        None => false,
    }
}

#[test]
fn a_fault_leaves_what_was_written(rt: HostRuntime) {
    for stripes in [1, 4] {
        for (name, records, faults, cause, bytes) in &TRIALS {
            let seen = seen_of(&rt, rt.alloc(), stripes, *records, *faults);
            assert!(rt;
                is_seen(seen, *cause, *bytes),
                "{name}, {stripes} stripes, {bytes} bytes"
            );
        }
    }
}

/// Writes a byte by each second call; the others are interrupted.
#[derive(Drop)]
struct Nervous {
    bytes: Vec<u8>,
    interrupted: bool,
}

impl Write for Nervous {
    fn write(&mut self, buf: &[u8]) -> io::Result<usize> {
        self.interrupted = !self.interrupted;
        if self.interrupted {
            return Err(io::Error::from(ErrorKind::Interrupted));
        }
        let most = buf.len().min(1);
        self.bytes.extend_from_slice(&buf[..most])?;
        Ok(most)
    }

    fn flush(&mut self) -> io::Result<()> {
        Ok(())
    }
}

/// Whether a run is complete, and its only output holds the table.
fn is_table(report: Report<PlainOutput<Nervous>>) -> bool {
    let mut is_right = is_complete(&report) && report.outputs.len() == 1;
    for output in report.outputs {
        is_right = output.into_inner().bytes.as_slice() == TABLE && is_right;
    }
    is_right
}

/// Whether three records become their table by reads and writes that are interrupted.
fn becomes_table(rt: &impl Host, alloc: Global, stripes: usize) -> bool {
    let text = Text::new(HEADER, RECORD, 3).read_by(1, ReadFault::Interrupted);
    let nervous = Nervous {
        bytes: Vec::new(alloc),
        interrupted: false,
    };
    let sources = Vec::from_array(alloc, [text]);
    let outputs = Vec::from_array(alloc, [PlainOutput::new(nervous, 1)]);
    let setup = plain_setup(1, stripes);
    match report_of(rt, alloc, setup, sources.ok(), outputs.ok()) {
        Some(report) => is_table(report),
        None => false,
    }
}

#[test]
fn interrupted_reads_and_writes_are_tried_again(rt: HostRuntime) {
    for stripes in [1, 4] {
        assert!(rt;
            becomes_table(&rt, rt.alloc(), stripes),
            "{stripes} stripes"
        );
    }
}

/// How many records each source has where memory is refused.
const COUNTS: [u32; 3] = [0, 1, 3];

/// Whether a run did not begin since memory ran out, and gives back its sources and its outputs, which are empty.
fn are_given_back<R>(fault: &RunFault<R, Sink>) -> bool {
    let mut empty = 0usize;
    for sink in &fault.outputs {
        if sink.bytes().is_empty() {
            empty = empty.saturating_add(1);
        }
    }
    fault.kind == RunFaultKind::NoMemory
        && fault.kind.number() == 3
        && fault.sources.len() == COUNTS.len()
        && empty == COUNTS.len()
}

/// Whether each source of a run is whole with its table, or has a cause of want and whole lines of its table, which one
/// of them at most has, and the run is complete if none has.
fn breaks_one_at_most(report: &Report<Sink>) -> bool {
    let (mut whole, mut broken) = (0usize, 0usize);
    for ((end, sink), records) in report.ends.iter().zip(&report.outputs).zip(COUNTS) {
        let seen = Seen::of(end, sink);
        if seen.is(0, bytes_of_table(records)) {
            whole = whole.saturating_add(1);
        } else if (1..=3).contains(&seen.cause) && seen.has_lines(seen.cause, records) {
            broken = broken.saturating_add(1);
        }
    }
    broken <= 1
        && whole.saturating_add(broken) == COUNTS.len()
        && report.ends.len() == COUNTS.len()
        && is_complete(report) == (broken == 0)
}

/// Whether a run goes as it should where memory may be refused. Its sources and outputs take none in it.
fn goes_in_need(rt: &impl Host, alloc: Global) -> bool {
    let sources = Vec::from_array(
        alloc,
        COUNTS.map(|records| Text::new(HEADER, RECORD, records)),
    );
    let (Ok(setup), Ok(sources), Ok(sinks)) = (
        plain_setup(1, 2),
        sources,
        sinks_of(alloc, COUNTS.len()),
    ) else {
        return true;
    };
    match result_of_run(rt, alloc, &setup, sources, sinks) {
        Ok(report) => breaks_one_at_most(&report),
        Err(fault) => are_given_back(&fault),
    }
}

// It passes whichever allocation is refused: then the run does not begin, and says so, or one source alone is broken,
// since memory ran out, or a thread or a confirmation was missing.
#[test]
fn a_run_that_is_refused_memory_does_not_begin_or_breaks_one_source(rt: HostRuntime) {
    assert!(rt; goes_in_need(&rt, rt.alloc()));
}
