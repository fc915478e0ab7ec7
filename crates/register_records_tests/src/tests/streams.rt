//! Streams of the standard library that are interrupted, take a part or fail, and the longest registers.

use super::{THREE_RECORDS, THREE_ROWS, cause_from, lines_of_front, plain};
use register_records::{Form, Output, PlainOutput, Setup};
use std::alloc::Global;
use std::io;
use std::io::{ErrorKind, Read, Write};

/// Gives and takes a byte at each fourth call, and is interrupted at the others.
#[derive(Drop)]
struct Nervous<'a> {
    rest: &'a [u8],
    bytes: Vec<u8>,
    interruptions: u8,
}

impl Nervous<'_> {
    /// Whether this call is interrupted.
    fn is_interrupted(&mut self) -> bool {
        match self.interruptions.checked_sub(1) {
            Some(fewer) => {
                self.interruptions = fewer;
                true
            }
            None => {
                self.interruptions = 3;
                false
            }
        }
    }
}

impl Read for Nervous<'_> {
    fn read(&mut self, buf: &mut [u8]) -> io::Result<usize> {
        if self.is_interrupted() {
            return Err(io::Error::from(ErrorKind::Interrupted));
        }
        match (self.rest.split_first(), buf.first_mut()) {
            (Some((byte, rest)), Some(slot)) => {
                *slot = *byte;
                self.rest = rest;
                Ok(1)
            }
            _ => Ok(0),
        }
    }
}

impl Write for Nervous<'_> {
    fn write(&mut self, buf: &[u8]) -> io::Result<usize> {
        if self.is_interrupted() {
            return Err(io::Error::from(ErrorKind::Interrupted));
        }
        let Some(byte) = buf.first() else {
            return Ok(0);
        };
        self.bytes.push(*byte)?;
        Ok(1)
    }

    fn flush(&mut self) -> io::Result<()> {
        Ok(())
    }
}

/// A stream that gives this text, and has taken nothing.
fn stream_of(alloc: Global, text: &[u8]) -> Nervous<'_> {
    Nervous {
        rest: text,
        bytes: Vec::new(alloc),
        interruptions: 3,
    }
}

/// Whether three records become their table by calls that are interrupted.
fn are_made_again(alloc: Global) -> bool {
    let mut output = PlainOutput::new(stream_of(alloc, b""), 7);
    let reader = stream_of(alloc, THREE_RECORDS);
    let cause = cause_from(alloc, reader, &mut output, plain(&[]));
    cause == Some(0) && output.into_inner().bytes.as_slice() == THREE_ROWS
}

#[test]
fn interrupted_calls_are_made_again(rt: HostRuntime) {
    assert!(rt; are_made_again(rt.alloc()));
}

/// Counts the calls and the flushes; the call of number `bad_call`, from 0, is a fault.
#[derive(Drop)]
struct Paper {
    text: Vec<u8>,
    bad_call: usize,
    calls: usize,
    flushes: usize,
}

impl Write for Paper {
    fn write(&mut self, buf: &[u8]) -> io::Result<usize> {
        if self.calls == self.bad_call {
            return Err(io::Error::from(ErrorKind::BrokenPipe));
        }
        self.calls = self.calls.saturating_add(1);
        self.text.extend_from_slice(buf)?;
        Ok(buf.len())
    }

    fn flush(&mut self) -> io::Result<()> {
        self.flushes = self.flushes.saturating_add(1);
        Ok(())
    }
}

/// Whether each call before the bad one wrote a line and was followed by a flush, and the output kept its mark.
fn stops_at(alloc: Global, bad_call: usize) -> bool {
    let paper = Paper {
        text: Vec::new(alloc),
        bad_call,
        calls: 0,
        flushes: 0,
    };
    let mut output = PlainOutput::new(paper, 7);
    let cause = cause_from(alloc, THREE_RECORDS, &mut output, plain(&[]));
    let mark = output.mark();
    let paper = output.into_inner();
    cause == Some(if bad_call == 4 { 0 } else { 4 })
        && mark == 7
        && (paper.calls, paper.flushes) == (bad_call, bad_call)
        && lines_of_front(paper.text.as_slice(), THREE_ROWS) == bad_call
}

#[test]
fn each_row_is_one_write_and_a_flush(rt: HostRuntime) {
    for bad_call in 0..5 {
        assert!(rt; stops_at(rt.alloc(), bad_call), "at {bad_call}");
    }
}

/// Gives a header, so many times a record, and then the rest.
#[derive(Drop)]
struct Repeated<'a> {
    at: &'a [u8],
    record: &'a [u8],
    more: u32,
    last: &'a [u8],
}

impl Read for Repeated<'_> {
    fn read(&mut self, buf: &mut [u8]) -> io::Result<usize> {
        if self.at.is_empty() {
            if self.more == 0 {
                self.at = self.last;
                self.last = b"";
            } else {
                self.at = self.record;
                self.more = self.more.saturating_sub(1);
            }
        }
        self.at.read(buf)
    }
}

/// Counts the bytes that it takes.
#[derive(Drop)]
struct Count {
    bytes: usize,
}

impl Write for Count {
    fn write(&mut self, buf: &[u8]) -> io::Result<usize> {
        self.bytes = self.bytes.saturating_add(buf.len());
        Ok(buf.len())
    }

    fn flush(&mut self) -> io::Result<()> {
        Ok(())
    }
}

/// Whether so many entries with this seal give 1,000,000 rows, and the cause of this number, or for 0 none.
fn gives_a_million(alloc: Global, entries: u32, seal: &'static [u8], cause: u8) -> bool {
    let reader = Repeated {
        at: b"id,calendar,date,note\n",
        record: b"x,gregorian,1970-01-01,\n",
        more: entries,
        last: seal,
    };
    let setup = Setup::new(&[], 1, b',', 1, Form::Sealed);
    let mut output = PlainOutput::new(Count { bytes: 0 }, 1);
    let found = cause_from(alloc, reader, &mut output, setup);
    found == Some(cause) && output.into_inner().bytes == 47_888_941
}

#[test]
fn a_million_entries_are_sealed_and_one_more_is_too_many(rt: HostRuntime) {
    assert!(rt;
        gives_a_million(rt.alloc(), 1_000_000, b"END,1000000\n", 0),
        "a million"
    );
    assert!(rt;
        gives_a_million(rt.alloc(), 1_000_001, b"END,1000001\n", 7),
        "one more"
    );
}
