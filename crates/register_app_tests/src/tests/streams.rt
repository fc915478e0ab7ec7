//! What is read, opened and made, and what is reported where a stream breaks.

ghost use Rattle.std.specs.Prelude.{⊤};

use crate::tests::helpers::{Heard, NoFiles, hear, hear_in_memory};
use crate::tests::pages::page_of_help;
use programs::{FileStore, LoggedWriter, Place};
use register_records::PlainOutput;
use std::alloc::{AllocError, Global};
use std::io;
use std::io::{ErrorKind, Read, Write};
use std::sync::Wait;
use std::sync::atomic::{AtomicU32, Ordering};
use std::thread::Threads;
use std::time::{Clock, CpuClock};

/// How often something was read, opened, made and named.
#[derive(Drop)]
struct Counts {
    reads: AtomicU32,
    opened: AtomicU32,
    made: AtomicU32,
    named: AtomicU32,
}

impl Counts {
    /// Nothing was read, opened, made or named.
    fn none() -> Counts {
        Counts {
            reads: AtomicU32::new(0),
            opened: AtomicU32::new(0),
            made: AtomicU32::new(0),
            named: AtomicU32::new(0),
        }
    }

    /// Whether nothing was read, opened, made or named.
    fn are_none(&self) -> bool {
        self.reads.load(Ordering::SeqCst) == 0
            && self.opened.load(Ordering::SeqCst) == 0
            && self.made.load(Ordering::SeqCst) == 0
            && self.named.load(Ordering::SeqCst) == 0
    }
}

/// A text without bytes that counts how often it is read.
#[derive(Drop)]
struct CountedText<'a> {
    counts: &'a Counts,
}

impl Read for CountedText<'_> {
    fn read(&mut self, _buf: &mut [u8]) -> io::Result<usize> {
        self.counts.reads.fetch_add(1, Ordering::SeqCst);
        Ok(0)
    }
}

/// Files that count how often they are opened and made.
#[derive(Drop)]
struct CountedFiles<'a> {
    alloc: Global,
    counts: &'a Counts,
}

impl<'a> FileStore<CountedText<'a>, PlainOutput<LoggedWriter<Vec<u8>>>> for CountedFiles<'a> {
    ghost is_opened = { λ _ _ _. ⊤ };

    ghost is_made = { λ _ _ _ _. ⊤ };

    ghost is_named = { λ _ _. ⊤ };

    ghost are_apart = { λ _ _ _. ⊤ };

    fn open(&self, _name: &str) -> io::Result<CountedText<'a>> {
        self.counts.opened.fetch_add(1, Ordering::SeqCst);
        Ok(CountedText {
            counts: self.counts,
        })
    }

    fn make(
        &self,
        _place: &mut Place,
        mark: u32,
    ) -> io::Result<PlainOutput<LoggedWriter<Vec<u8>>>> {
        self.counts.made.fetch_add(1, Ordering::SeqCst);
        Ok(PlainOutput::new(LoggedWriter::new(Vec::new(self.alloc)), mark))
    }

    fn give_name(&self, _place: &Place) -> bool {
        self.counts.named.fetch_add(1, Ordering::SeqCst);
        true
    }

    fn are_one_file(&self, _name: &str, _other: &str) -> bool {
        false
    }
}

/// Command lines, the status of each, and how many files are opened and made.
#[derive(Clone, Copy)]
struct Touching {
    arguments: &'static [&'static str],
    status: u8,
    files: u32,
    reads_input: bool,
}

static TOUCHINGS: [Touching; 6] = [
    Touching {
        arguments: &["--help", "a.csv"],
        status: 0,
        files: 0,
        reads_input: false,
    },
    Touching {
        arguments: &["a.csv", "--version"],
        status: 0,
        files: 0,
        reads_input: false,
    },
    Touching {
        arguments: &["--ring", "0", "a.csv"],
        status: 2,
        files: 0,
        reads_input: false,
    },
    Touching {
        arguments: &["a.csv", "b.csv", "a.csv"],
        status: 2,
        files: 0,
        reads_input: false,
    },
    Touching {
        arguments: &[],
        status: 1,
        files: 0,
        reads_input: true,
    },
    Touching {
        arguments: &["a.csv", "b.csv"],
        status: 1,
        files: 2,
        reads_input: false,
    },
];

/// The status that these arguments give over a text and files that count.
fn status_of<'a>(
    rt: &(impl Threads + Wait + Clock + CpuClock + Sync),
    alloc: Global,
    arguments: &[&str],
    input: &'a Counts,
    files: &'a Counts,
) -> Result<u8, AllocError> {
    let input = CountedText { counts: input };
    let files = CountedFiles {
        alloc,
        counts: files,
    };
    let heard = hear_in_memory(rt, alloc, arguments, input, &files)?;
    Ok(heard.status)
}

/// Whether these arguments get their status, and nothing is touched that they do not ask for.
fn touches_as_wanted(
    rt: &(impl Threads + Wait + Clock + CpuClock + Sync),
    alloc: Global,
    touching: &Touching,
) -> bool {
    let input = Counts::none();
    let files = Counts::none();
    let Ok(status) = status_of(rt, alloc, touching.arguments, &input, &files) else {
        return false;
    };
    status == touching.status
        && files.opened.load(Ordering::SeqCst) == touching.files
        && files.made.load(Ordering::SeqCst) == touching.files
        && files.named.load(Ordering::SeqCst) == touching.files
        && (input.reads.load(Ordering::SeqCst) > 0) == touching.reads_input
        && (files.reads.load(Ordering::SeqCst) > 0) == (touching.files > 0)
}

#[test]
fn nothing_is_touched_that_is_not_asked_for(rt: HostRuntime) {
    for touching in &TOUCHINGS {
        assert!(rt;
            touches_as_wanted(&rt, rt.alloc(), touching),
            "{:?}",
            touching.arguments
        );
    }
}

/// Fails at every read and every write.
#[derive(Drop)]
struct Broken;

impl Read for Broken {
    fn read(&mut self, _buf: &mut [u8]) -> io::Result<usize> {
        Err(io::Error::from(ErrorKind::BrokenPipe))
    }
}

impl Write for Broken {
    fn write(&mut self, _buf: &[u8]) -> io::Result<usize> {
        Err(io::Error::from(ErrorKind::BrokenPipe))
    }

    fn flush(&mut self) -> io::Result<()> {
        Err(io::Error::from(ErrorKind::BrokenPipe))
    }
}

/// What these arguments give where standard input breaks.
fn hear_broken<E: Write + Drop>(
    rt: &(impl Threads + Wait + Clock + CpuClock + Sync),
    alloc: Global,
    arguments: &[&str],
    errors: E,
) -> Result<Heard<Vec<u8>, E>, AllocError> {
    hear(
        rt,
        alloc,
        arguments,
        Broken,
        Vec::new(alloc),
        &NoFiles,
        errors,
    )
}

/// Whether an input that breaks is reported.
fn is_broken_input_reported(
    rt: &(impl Threads + Wait + Clock + CpuClock + Sync),
    alloc: Global,
) -> bool {
    let Ok(heard) = hear_broken(rt, alloc, &[], Vec::new(alloc)) else {
        return false;
    };
    heard.is_answer(1, b"", b"source 1: cause 5\n")
}

/// Whether an output that breaks is reported.
fn is_broken_output_reported(
    rt: &(impl Threads + Wait + Clock + CpuClock + Sync),
    alloc: Global,
) -> bool {
    let text: &'static [u8] = b"id,calendar,date\n";
    let Ok(heard) = hear(rt, alloc, &[], text, Broken, &NoFiles, Vec::new(alloc)) else {
        return false;
    };
    heard.reports(1, b"source 1: cause 4\n")
}

/// Whether standard error that breaks changes neither the status nor the output.
fn are_broken_errors_let_go(
    rt: &(impl Threads + Wait + Clock + CpuClock + Sync),
    alloc: Global,
) -> bool {
    let Ok(heard) = hear_broken(rt, alloc, &[], Broken) else {
        return false;
    };
    heard.status == 1 && heard.output.is_empty()
}

#[test]
fn broken_streams_are_reported(rt: HostRuntime) {
    assert!(rt; is_broken_input_reported(&rt, rt.alloc()));
    assert!(rt; is_broken_output_reported(&rt, rt.alloc()));
    assert!(rt; are_broken_errors_let_go(&rt, rt.alloc()));
}

/// Command lines that ask for help: before anything is wrong with them, and before the version.
static FOR_HELP: [&[&str]; 6] = [
    &["--help"],
    &["-h"],
    &["--help", "--version"],
    &["--help", "--bogus"],
    &["--to", "x", "-h"],
    &["a", "a", "--help"],
];

/// What these arguments give over a text and files that count.
fn hear_counted<'a>(
    rt: &(impl Threads + Wait + Clock + CpuClock + Sync),
    alloc: Global,
    arguments: &[&str],
    counts: &'a Counts,
) -> Result<Heard<Vec<u8>, Vec<u8>>, AllocError> {
    let files = CountedFiles { alloc, counts };
    hear_in_memory(rt, alloc, arguments, CountedText { counts }, &files)
}

/// Whether these arguments get help, with nothing reported, read, opened or made.
fn get_help(
    rt: &(impl Threads + Wait + Clock + CpuClock + Sync),
    alloc: Global,
    arguments: &[&str],
    help: &str,
) -> bool {
    let counts = Counts::none();
    let Ok(heard) = hear_counted(rt, alloc, arguments, &counts) else {
        return false;
    };
    heard.is_answer(0, help.as_bytes(), b"") && counts.are_none()
}

#[test]
fn help_reads_nothing(rt: HostRuntime) {
    let help = page_of_help(rt.alloc()).unwrap_or(String::new(rt.alloc()));
    for arguments in &FOR_HELP {
        assert!(rt;
            get_help(&rt, rt.alloc(), arguments, help.as_str()),
            "{arguments:?}"
        );
    }
    for line in help.as_str().lines() {
        assert!(rt; line.len() <= 80, "{line}");
    }
}
