//! The tables that are wanted are worked by hand from the calendars' rules.

use register_records::faults::Sink;
use register_records::{Form, Output, Setup, SetupFault, SourceEnd, convert_source};
use register_run::laws::every_schedule;
use register_run::{Report, RunFault, Verdict, run};
use std::alloc::{AllocError, Global};
use std::io::Read;
use std::sync::Wait;
use std::thread::Threads;
use std::time::{Clock, CpuClock};

mod ends;
mod examples;
mod faults;
mod gates;
mod lanes;
mod lengths;
mod patience;
mod streams;
mod texts;

/// The runtime of a run: it starts threads, waits and reads the clock, in each of them.
trait Host: Threads + Wait + Clock + CpuClock + Sync {}

impl<T: Threads + Wait + Clock + CpuClock + Sync> Host for T {}

const HEADER: &[u8] = b"id,calendar,date\n";

const RECORD: &[u8] = b"x,gregorian,1970-01-01\n";

/// Room for all that an output is given that keeps it.
const ROOM: usize = 8192;

/// A setup of plain registers with no target and a comma. Nothing is promised of it, nor of the functions below that
/// call others of the library, so that a test is proved without all that is proved of these.
fn plain_setup(ring: usize, stripes: usize) -> Result<Setup, SetupFault> {
    Setup::new(&[], ring, b',', stripes, Form::Plain)
}

fn is_complete<W>(report: &Report<W>) -> bool {
    report.verdict == Verdict::Complete
}

/// The number of the cause of an end, or 0.
fn cause_of(end: &SourceEnd) -> u8 {
    match end {
        SourceEnd::Whole { .. } => 0,
        SourceEnd::Broken { cause } => cause.number(),
    }
}

/// So many outputs over memory.
fn sinks_of(alloc: Global, count: usize) -> Result<Vec<Sink>, AllocError> {
    let mut sinks = Vec::new(alloc);
    for _ in 0..count {
        sinks.push(Sink::new(alloc, 7, ROOM, 0, 0, ROOM)?)?;
    }
    Ok(sinks)
}

/// How a source ends on one thread, with a setup of one stripe.
fn end_on_one_thread<R: Read + Drop, W: Output>(
    alloc: Global,
    source: R,
    output: &mut W,
) -> Option<SourceEnd> {
    let setup = plain_setup(1, 1).ok()?;
    Some(convert_source(alloc, source, output, &setup))
}

/// What `run` returns.
fn result_of_run<T: Host, R: Read + Send + Drop, W: Output + Drop>(
    rt: &T,
    alloc: Global,
    setup: &Setup,
    sources: Vec<R>,
    outputs: Vec<W>,
) -> Result<Report<W>, RunFault<R, W>> {
    run(rt, alloc, sources, outputs, setup)
}

/// The report of a run, where it begins and all that it takes was made. Those that make it leave that to this function,
/// so that they have no exit of their own.
fn report_of<T: Host, R: Read + Send + Drop, W: Output + Drop>(
    rt: &T,
    alloc: Global,
    setup: Result<Setup, SetupFault>,
    sources: Option<Vec<R>>,
    outputs: Option<Vec<W>>,
) -> Option<Report<W>> {
    result_of_run(rt, alloc, &setup.ok()?, sources?, outputs?).ok()
}

/// The machine of which this law speaks is tried by `check/schedules`.
#[test]
fn the_law_of_every_schedule_is_called() {
    every_schedule();
}
