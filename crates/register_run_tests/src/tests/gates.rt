//! Runs with a gate and with readers that wait show that the work of several threads goes on at the same time. Each of
//! them looks only so often: where what it waits for does not come, it fails.

use super::streams::{Counter, Text};
use super::{HEADER, Host, RECORD, is_complete, plain_setup, report_of, sinks_of};
use register_records::{Output, PlainOutput, Setup, SetupFault};
use register_run::{Gate, Report, run_gated};
use std::alloc::{AllocError, Global};
use std::io::{ErrorKind, Read};
use std::sync::Wait;
use std::sync::atomic::{AtomicU64, Ordering};
use std::{io, thread};

/// How often a test looks for what it waits for.
const MOST_LOOKS: u32 = 100_000_000;

/// How often a test looks for what must not come.
const FEW_LOOKS: u32 = 100_000;

const WHOLE_TEXT: &[u8] = b"id,calendar,date\nx,gregorian,1970-01-01\n";

/// Looks so often at most until the count has come so far, and says whether it did.
fn has_come(count: &AtomicU64, wanted: u64, looks: u32) -> bool {
    for _ in 0..looks {
        if count.load(Ordering::SeqCst) >= wanted {
            return true;
        }
        thread::yield_now();
    }
    false
}

/// What is counted of a run.
#[derive(Drop)]
struct Counts {
    // The reads of the first and of the second source for what is behind what they have given.
    asked: AtomicU64,
    asked_of_other: AtomicU64,
    // The entries that came to the gate, and those that left it in vain.
    came: AtomicU64,
    late: AtomicU64,
    // The writes behind the headings, of a row or of several, and the bytes of all.
    rows: AtomicU64,
    bytes: AtomicU64,
}

/// One of these counts.
#[derive(Clone, Copy)]
enum Count {
    Asked,
    Came,
    Rows,
}

impl Counts {
    fn new() -> Counts {
        Counts {
            asked: AtomicU64::new(0),
            asked_of_other: AtomicU64::new(0),
            came: AtomicU64::new(0),
            late: AtomicU64::new(0),
            rows: AtomicU64::new(0),
            bytes: AtomicU64::new(0),
        }
    }

    fn of(&self, count: Count) -> &AtomicU64 {
        match count {
            Count::Asked => &self.asked,
            Count::Came => &self.came,
            Count::Rows => &self.rows,
        }
    }

    fn awaited(&self, count: Option<Count>) -> Option<&AtomicU64> {
        Some(self.of(count?))
    }

    fn are_those_of(&self, trial: &Trial) -> bool {
        self.came.load(Ordering::SeqCst) == trial.entries
            && self.late.load(Ordering::SeqCst) == trial.late
            && (1..=trial.entries).contains(&self.rows.load(Ordering::SeqCst))
    }
}

/// A reader of a text that counts the reads behind what it has given. With the first of them it waits, where it has to,
/// until a count has come to 1; where that does not come it gives a fault.
#[derive(Drop)]
struct Waiting<'a> {
    text: Text<'a>,
    asked: &'a AtomicU64,
    until: Option<&'a AtomicU64>,
}

impl<'a> Waiting<'a> {
    /// The reader of a text of one record that waits before it gives any of it.
    fn new(asked: &'a AtomicU64, until: &'a AtomicU64) -> Waiting<'a> {
        Waiting {
            text: Text::new(b"", WHOLE_TEXT, 1),
            asked,
            until: Some(until),
        }
    }
}

impl Read for Waiting<'_> {
    fn read(&mut self, buf: &mut [u8]) -> io::Result<usize> {
        if self.text.is_between() {
            let asked = self.asked.fetch_add(1, Ordering::SeqCst);
            if let Some(until) = self.until
                && asked == 0
                && !has_come(until, 1, MOST_LOOKS)
            {
                return Err(io::Error::from(ErrorKind::TimedOut));
            }
        }
        self.text.read(buf)
    }
}

/// A gate that holds some entries until a count has come, and notes where it did not come.
#[derive(Drop)]
struct Held<'a> {
    counts: &'a Counts,
    trial: &'a Trial,
}

impl Gate for Held<'_> {
    fn pass<T: Wait>(&self, _rt: &T, _number: u32) {
        let before = self.counts.came.fetch_add(1, Ordering::SeqCst);
        let count = self.counts.of(self.trial.until);
        if before < self.trial.held && !has_come(count, self.trial.wanted, self.trial.looks) {
            self.counts.late.fetch_add(1, Ordering::SeqCst);
        }
    }
}

/// A run of two sources through a gate.
#[derive(Clone, Copy)]
struct Trial {
    ring: usize,
    stripes: usize,
    // The first source: a front, and the records behind it, before which its reader may wait for a count.
    front: &'static [u8],
    records: u32,
    waits: Option<Count>,
    // The second source.
    other: &'static [u8],
    // The entries of both.
    entries: u64,
    // How many of them the gate holds until what count has come how far, how often it looks, and how many it lets go
    // though that has not come.
    held: u64,
    until: Count,
    wanted: u64,
    looks: u32,
    late: u64,
}

/// A source of one record and one of none, with nothing held.
const PLAIN: Trial = Trial {
    ring: 16,
    stripes: 1,
    front: WHOLE_TEXT,
    records: 0,
    waits: None,
    other: HEADER,
    entries: 1,
    held: 0,
    until: Count::Came,
    wanted: 0,
    looks: MOST_LOOKS,
    late: 0,
};

/// The reader gives the second record only after a row was written.
const FIRST_ROW_BEFORE_SECOND_RECORD: Trial = Trial {
    records: 1,
    waits: Some(Count::Rows),
    entries: 2,
    ..PLAIN
};

/// All records are read apart.
const HEADER_APART: Trial = Trial {
    front: HEADER,
    ..PLAIN
};

static TRIALS: [(&str, Trial); 9] = [
    (
        "first_row_before_second_record",
        FIRST_ROW_BEFORE_SECOND_RECORD,
    ),
    (
        "first_row_before_second_record, 4 stripes",
        Trial {
            stripes: 4,
            ..FIRST_ROW_BEFORE_SECOND_RECORD
        },
    ),
    // The gate holds the first entry until the second record was asked for.
    (
        "reader_beside_converter",
        Trial {
            records: 1,
            entries: 2,
            held: 1,
            until: Count::Asked,
            wanted: 1,
            ..PLAIN
        },
    ),
    // The gate holds the first entry that comes until a row stands in an output.
    (
        "converter_beside_writer",
        Trial {
            other: WHOLE_TEXT,
            entries: 2,
            held: 1,
            until: Count::Rows,
            wanted: 1,
            ..PLAIN
        },
    ),
    // The gate holds each entry until all of them came.
    (
        "all_converters_at_once, 2 stripes",
        Trial {
            stripes: 2,
            records: 2,
            entries: 2,
            held: 2,
            wanted: 2,
            ..HEADER_APART
        },
    ),
    (
        "all_converters_at_once, 3 stripes",
        Trial {
            stripes: 3,
            records: 3,
            entries: 3,
            held: 3,
            wanted: 3,
            ..HEADER_APART
        },
    ),
    (
        "all_converters_at_once, 4 stripes",
        Trial {
            stripes: 4,
            records: 4,
            entries: 4,
            held: 4,
            wanted: 4,
            ..HEADER_APART
        },
    ),
    // With rings of one a reader is soon held up by its converter.
    (
        "bounded_run_ahead",
        Trial {
            ring: 1,
            records: 100,
            entries: 100,
            held: 1,
            until: Count::Asked,
            wanted: 10,
            looks: FEW_LOOKS,
            late: 1,
            ..HEADER_APART
        },
    ),
    // The row of an entry is not written before the entry has passed the gate.
    (
        "no_row_before_the_gate",
        Trial {
            held: 1,
            until: Count::Rows,
            wanted: 1,
            looks: FEW_LOOKS,
            late: 1,
            ..PLAIN
        },
    ),
];

/// So many outputs that count what they are given.
pub fn counters<'a>(
    alloc: Global,
    count: usize,
    rows: &'a AtomicU64,
    bytes: &'a AtomicU64,
) -> Result<Vec<PlainOutput<Counter<'a>>>, AllocError> {
    let mut outputs = Vec::new(alloc);
    for _ in 0..count {
        outputs.push(PlainOutput::new(Counter::new(rows, bytes), 1))?;
    }
    Ok(outputs)
}

/// The report of a run with a gate. Nothing is promised of it, as of a run without one.
fn report_of_gated<T: Host, R: Read + Send + Drop, W: Output + Drop>(
    rt: &T,
    alloc: Global,
    setup: &Setup,
    sources: Vec<R>,
    outputs: Vec<W>,
    gate: &Held<'_>,
) -> Option<Report<W>> {
    run_gated(rt, alloc, sources, outputs, setup, gate).ok()
}

/// Whether a run with a gate begins and is complete.
fn is_complete_gated<T: Host, R: Read + Send + Drop, W: Output + Drop>(
    rt: &T,
    alloc: Global,
    setup: Result<Setup, SetupFault>,
    sources: Option<Vec<R>>,
    outputs: Option<Vec<W>>,
    gate: &Held<'_>,
) -> bool {
    let (Ok(setup), Some(sources), Some(outputs)) = (setup, sources, outputs) else {
        return false;
    };
    match report_of_gated(rt, alloc, &setup, sources, outputs, gate) {
        Some(report) => is_complete(&report),
        None => false,
    }
}

/// Whether a run is complete, and as many entries came to the gate, and as many left it in vain, as the trial says.
fn goes(rt: &impl Host, alloc: Global, trial: &Trial) -> bool {
    let counts = Counts::new();
    let first = Waiting {
        text: Text::new(trial.front, RECORD, trial.records),
        asked: &counts.asked,
        until: counts.awaited(trial.waits),
    };
    let other = Waiting {
        text: Text::new(trial.other, RECORD, 0),
        asked: &counts.asked_of_other,
        until: None,
    };
    let sources = Vec::from_array(alloc, [first, other]);
    let outputs = counters(alloc, 2, &counts.rows, &counts.bytes);
    let setup = plain_setup(trial.ring, trial.stripes);
    let gate = Held {
        counts: &counts,
        trial,
    };
    is_complete_gated(rt, alloc, setup, sources.ok(), outputs.ok(), &gate)
        && counts.are_those_of(trial)
}

#[test]
fn threads_work_at_the_same_time(rt: HostRuntime) {
    for (name, trial) in &TRIALS {
        assert!(rt; goes(&rt, rt.alloc(), trial), "{name}");
    }
}

/// Whether a run of two readers is complete, each of which gives its text only after the other one's was asked for.
fn readers_meet(rt: &impl Host, alloc: Global, stripes: usize) -> bool {
    let (first, second) = (AtomicU64::new(0), AtomicU64::new(0));
    let sources = Vec::from_array(
        alloc,
        [Waiting::new(&first, &second), Waiting::new(&second, &first)],
    );
    let outputs = sinks_of(alloc, 2);
    let setup = plain_setup(16, stripes);
    match report_of(rt, alloc, setup, sources.ok(), outputs.ok()) {
        Some(report) => is_complete(&report),
        None => false,
    }
}

#[test]
fn two_readers_meet(rt: HostRuntime) {
    for stripes in [1, 4] {
        assert!(rt; readers_meet(&rt, rt.alloc(), stripes), "{stripes} stripes");
    }
}
