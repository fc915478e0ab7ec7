//! Streams that break at a chosen byte or at their flush, and memory that is refused: what is reported and given then.

ghost use Rattle.std.specs.Prelude.{⊤};

use crate::tests::helpers::{Heard, NoFiles, ONE_RECORD, ONE_ROW, hear};
use crate::tests::pages::page_of_help;
use programs::{FileStore, LoggedWriter, Place};
use register_records::PlainOutput;
use std::alloc::{AllocError, Global};
use std::io;
use std::io::{ErrorKind, Write};
use std::sync::Wait;
use std::thread::Threads;
use std::time::{Clock, CpuClock};

/// Room for all that these tests write.
const ROOM: usize = 8192;

/// Where a stream breaks: where it has so many bytes, or at each flush.
#[derive(Clone, Copy, Debug)]
enum Break {
    After(usize),
    AtFlush,
}

/// A stream breaks nowhere.
const NOWHERE: Break = Break::After(ROOM);

/// A stream over memory that breaks where its room is used up, or at each flush. It takes all its memory at once.
#[derive(Drop)]
struct Breaking {
    bytes: Vec<u8>,
    room: usize,
    breaks_at_flush: bool,
}

impl Breaking {
    /// A stream that breaks there.
    fn new(alloc: Global, place: Break) -> Result<Breaking, AllocError> {
        let (room, breaks_at_flush) = match place {
            Break::After(room) => (room, false),
            Break::AtFlush => (ROOM, true),
        };
        Ok(Breaking {
            bytes: Vec::with_capacity(alloc, ROOM)?,
            room,
            breaks_at_flush,
        })
    }
}

impl Write for Breaking {
    fn write(&mut self, buf: &[u8]) -> io::Result<usize> {
        let most = buf.len().min(self.room);
        if most == 0 && !buf.is_empty() {
            return Err(io::Error::from(ErrorKind::BrokenPipe));
        }
        self.bytes.extend_from_slice(&buf[..most])?;
        self.room -= most;
        Ok(most)
    }

    fn flush(&mut self) -> io::Result<()> {
        if self.breaks_at_flush {
            return Err(io::Error::from(ErrorKind::BrokenPipe));
        }
        Ok(())
    }
}

/// A folder whose files all hold one record, but that `none.csv` is not there. No table can be made for `locked.csv`, and that
/// of `unnamed.csv` does not get its name.
#[derive(Clone, Copy)]
struct Folder {
    alloc: Global,
}

impl FileStore<&'static [u8], PlainOutput<LoggedWriter<Breaking>>> for Folder {
    ghost is_opened = { λ _ _ _. ⊤ };

    ghost is_made = { λ _ _ _ _. ⊤ };

    ghost is_named = { λ _ _. ⊤ };

    ghost are_apart = { λ _ _ _. ⊤ };

    fn open(&self, name: &str) -> io::Result<&'static [u8]> {
        if name == "none.csv" {
            return Err(io::Error::from(ErrorKind::NotFound));
        }
        Ok(ONE_RECORD)
    }

    fn make(
        &self,
        place: &mut Place,
        mark: u32,
    ) -> io::Result<PlainOutput<LoggedWriter<Breaking>>> {
        if place.name() == "locked.csv.out.csv" {
            return Err(io::Error::from(ErrorKind::PermissionDenied));
        }
        let table = Breaking::new(self.alloc, NOWHERE)?;
        Ok(PlainOutput::new(LoggedWriter::new(table), mark))
    }

    fn give_name(&self, place: &Place) -> bool {
        place.name() != "unnamed.csv.out.csv"
    }

    fn are_one_file(&self, _name: &str, _other: &str) -> bool {
        false
    }
}

/// Words with a text for standard input, and what they give: the status, standard output, the table of each file, and
/// how standard error begins.
#[derive(Clone, Copy)]
struct Case {
    arguments: &'static [&'static str],
    text: &'static [u8],
    status: u8,
    output: &'static [u8],
    tables: &'static [&'static [u8]],
    errors: &'static [u8],
}

/// Nothing is converted.
const REFUSED: Case = Case {
    arguments: &[],
    text: ONE_RECORD,
    status: 2,
    output: b"",
    tables: &[],
    errors: b"",
};

static CASES: [Case; 13] = [
    // What is wrong with the arguments: what clap refuses, and each fault that the program finds itself.
    Case {
        arguments: &["--bogus"],
        errors: b"error: unexpected argument '--bogus' found\n",
        ..REFUSED
    },
    Case {
        arguments: &["--to", "julian,Mayan", "a.csv"],
        errors: b"register: unknown target: Mayan\n",
        ..REFUSED
    },
    Case {
        arguments: &["--to", "julian,Julian"],
        errors: b"register: target named twice: julian\n",
        ..REFUSED
    },
    Case {
        arguments: &["--ring", "0", "a.csv", "b.csv"],
        errors: b"register: bad ring size: 0\n",
        ..REFUSED
    },
    Case {
        arguments: &["--delimiter", ";"],
        errors: b"register: unknown delimiter: ;\n",
        ..REFUSED
    },
    Case {
        arguments: &["--stripes", "5"],
        errors: b"register: bad stripes: 5\n",
        ..REFUSED
    },
    Case {
        arguments: &["a.csv", "b.csv", "a.csv"],
        errors: b"register: file named twice: a.csv\n",
        ..REFUSED
    },
    // A file that cannot be opened, and a table that cannot be made.
    Case {
        arguments: &["a.csv", "none.csv"],
        status: 3,
        errors: b"register: cannot open none.csv\n",
        ..REFUSED
    },
    Case {
        arguments: &["a.csv", "locked.csv"],
        status: 3,
        errors: b"register: cannot make locked.csv.out.csv\n",
        ..REFUSED
    },
    // A text that breaks off; and summaries of whole ones.
    Case {
        arguments: &[],
        text: b"",
        status: 1,
        errors: b"source 1: cause 6\n",
        ..REFUSED
    },
    Case {
        arguments: &["--to", "gregorian", "--summary"],
        status: 0,
        output: ONE_ROW,
        errors: b"source 1: 1 rows, 0 refused\n",
        ..REFUSED
    },
    Case {
        arguments: &["--to", "gregorian", "--summary", "a.csv", "b.csv"],
        status: 0,
        tables: &[ONE_ROW, ONE_ROW],
        errors: b"source 1: 1 rows, 0 refused\nsource 2: 1 rows, 0 refused\n",
        ..REFUSED
    },
    // A table that does not get its name beside one that does.
    Case {
        arguments: &["--to", "gregorian", "unnamed.csv", "a.csv"],
        status: 1,
        tables: &[ONE_ROW, ONE_ROW],
        errors: b"register: cannot name unnamed.csv.out.csv\n",
        ..REFUSED
    },
];

/// What these arguments give where standard error breaks there.
fn hear_with(
    rt: &(impl Threads + Wait + Clock + CpuClock + Sync),
    alloc: Global,
    case: &Case,
    errors: Break,
) -> Result<Heard<Breaking, Breaking>, AllocError> {
    let output = Breaking::new(alloc, NOWHERE)?;
    let errors = Breaking::new(alloc, errors)?;
    hear(
        rt,
        alloc,
        case.arguments,
        case.text,
        output,
        &Folder { alloc },
        errors,
    )
}

/// How much of a table stands on an output.
#[derive(Clone, Copy)]
enum Part {
    Whole,
    Front,
}

/// Whether these are whole lines at the front of a table.
fn is_front(bytes: &[u8], table: &[u8]) -> bool {
    table.starts_with(bytes) && bytes.last().is_none_or(|byte| *byte == b'\n')
}

/// Whether this part of a table stands on the output.
fn holds(output: &Breaking, table: &[u8], part: Part) -> bool {
    match part {
        Part::Whole => output.bytes.as_slice() == table,
        Part::Front => is_front(output.bytes.as_slice(), table),
    }
}

/// Whether this part of each table that is wanted stands on its output.
fn holds_tables(heard: &Heard<Breaking, Breaking>, case: &Case, part: Part) -> bool {
    holds(&heard.output, case.output, part)
        && heard.outputs.len() == case.tables.len()
        && heard
            .outputs
            .iter()
            .zip(case.tables)
            .all(|(output, table)| holds(output, table, part))
}

/// Whether the status, standard output and the tables are as they are wanted.
fn is_as_wanted(heard: &Heard<Breaking, Breaking>, case: &Case) -> bool {
    heard.status == case.status && holds_tables(heard, case, Part::Whole)
}

/// Whether a stream that breaks there has taken all of this text that it could. More may follow a whole text.
fn has_taken(bytes: &[u8], text: &[u8], place: Break) -> bool {
    let is_front = text.starts_with(bytes);
    let is_whole = bytes.starts_with(text);
    match place {
        Break::After(room) => (is_front && bytes.len() == room) || (is_whole && text.len() <= room),
        Break::AtFlush => is_front || is_whole,
    }
}

/// Whether all is as it is wanted where standard error breaks there, but that what is reported breaks off.
fn is_reported_until(
    rt: &(impl Threads + Wait + Clock + CpuClock + Sync),
    alloc: Global,
    case: &Case,
    errors: Break,
) -> bool {
    let Ok(heard) = hear_with(rt, alloc, case, errors) else {
        return false;
    };
    is_as_wanted(&heard, case) && has_taken(heard.errors.bytes.as_slice(), case.errors, errors)
}

#[test]
fn standard_error_that_breaks_changes_neither_status_nor_tables(rt: HostRuntime) {
    for case in &CASES {
        for room in 0..case.errors.len() {
            assert!(rt;
                is_reported_until(&rt, rt.alloc(), case, Break::After(room)),
                "{:?}, after {room}",
                case.arguments
            );
        }
        for errors in [Break::AtFlush, NOWHERE] {
            assert!(rt;
                is_reported_until(&rt, rt.alloc(), case, errors),
                "{:?}, {errors:?}",
                case.arguments
            );
        }
    }
}

/// The page of the version.
const VERSION: &str = "register 1.2.0\n";

const CANNOT_PRINT: &[u8] = b"register: cannot write to standard output\n";

/// What a page gives where standard output and standard error break there.
fn hear_page(
    rt: &(impl Threads + Wait + Clock + CpuClock + Sync),
    alloc: Global,
    argument: &str,
    output: Break,
    errors: Break,
) -> Result<Heard<Breaking, Breaking>, AllocError> {
    let text: &'static [u8] = b"";
    let output = Breaking::new(alloc, output)?;
    let errors = Breaking::new(alloc, errors)?;
    hear(rt, alloc, &[argument], text, output, &NoFiles, errors)
}

/// Whether a page gets this status where standard output and standard error break there, with as much of the page on
/// the one, and on the other of the line that it cannot be printed, as they could take.
fn is_printed_until(
    rt: &(impl Threads + Wait + Clock + CpuClock + Sync),
    alloc: Global,
    (argument, page): (&str, &str),
    (output, errors): (Break, Break),
    status: u8,
) -> bool {
    let Ok(heard) = hear_page(rt, alloc, argument, output, errors) else {
        return false;
    };
    let printed = heard.output.bytes.as_slice();
    let reported = heard.errors.bytes.as_slice();
    heard.status == status
        && printed.len() <= page.len()
        && has_taken(printed, page.as_bytes(), output)
        && reported.len() <= CANNOT_PRINT.len()
        && has_taken(reported, CANNOT_PRINT, errors)
}

#[test]
fn a_page_that_cannot_be_printed_is_reported(rt: HostRuntime) {
    let page_of_help = page_of_help(rt.alloc()).unwrap_or(String::new(rt.alloc()));
    let help = page_of_help.as_str();
    for (argument, page) in [
        ("--help", help),
        ("-h", help),
        ("--version", VERSION),
        ("-V", VERSION),
    ] {
        let size = page.len();
        for (output, errors, status) in [
            (Break::After(0), NOWHERE, 1),
            (Break::After(1), NOWHERE, 1),
            (Break::After(size / 2), NOWHERE, 1),
            (Break::After(size.saturating_sub(1)), NOWHERE, 1),
            (Break::AtFlush, NOWHERE, 1),
            // A page that is printed says nothing on standard error, so it may break.
            (Break::After(size), Break::After(0), 0),
        ] {
            assert!(rt;
                is_printed_until(&rt, rt.alloc(), (argument, page), (output, errors), status),
                "{argument}, {output:?}"
            );
        }
        // Standard error breaks too, at each byte.
        for room in 0..CANNOT_PRINT.len() {
            let places = (Break::After(0), Break::After(room));
            assert!(rt;
                is_printed_until(&rt, rt.alloc(), (argument, page), places, 1),
                "{argument}, after {room}"
            );
        }
    }
}

const OUT_OF_MEMORY: &[u8] = b"register: out of memory\n";

/// Whether a line says that a source is broken since memory ran out or a thread did not start, or that there was no memory
/// for the line on a name.
fn is_of_memory(line: &[u8]) -> bool {
    let is_broken = line.starts_with(b"source ")
        && (line.ends_with(b": cause 1\n") || line.ends_with(b": cause 2\n"));
    is_broken || line == OUT_OF_MEMORY
}

/// Whether each line on standard error is wanted, or is that of one source that is refused memory.
fn are_lines_of_memory(errors: &[u8], wanted: &[u8]) -> bool {
    let mut of_memory = 0u32;
    for line in errors.split_inclusive(|byte| *byte == b'\n') {
        if is_of_memory(line) {
            of_memory = of_memory.saturating_add(1);
        } else if !wanted
            .split_inclusive(|byte| *byte == b'\n')
            .any(|other| other == line)
        {
            return false;
        }
    }
    of_memory <= 1
}

/// Whether nothing was written to standard output and to the tables.
fn is_unwritten(heard: &Heard<Breaking, Breaking>) -> bool {
    heard.output.bytes.is_empty() && heard.outputs.iter().all(|output| output.bytes.is_empty())
}

/// Whether this reports that there was no memory before the run, or what is wanted where no allocation is refused.
fn reports_status_3(reported: &[u8], case: &Case) -> bool {
    let as_wanted = case.status == 3 && reported == case.errors;
    let cannot_make = reported.starts_with(b"register: cannot make ");
    as_wanted || cannot_make || reported == OUT_OF_MEMORY
}

/// Whether these arguments may have this outcome where one allocation is refused: this is reported, with nothing
/// written, or one source is broken. A table that is refused its memory cannot be made.
fn fits_refused_memory(heard: &Heard<Breaking, Breaking>, case: &Case) -> bool {
    let reported = heard.errors.bytes.as_slice();
    match heard.status {
        3 => reports_status_3(reported, case) && is_unwritten(heard),
        1 => {
            case.status <= 1
                && are_lines_of_memory(reported, case.errors)
                && holds_tables(heard, case, Part::Front)
        }
        _ => reported.starts_with(case.errors) && is_as_wanted(heard, case),
    }
}

/// Whether these arguments are answered so where one allocation is refused, which may be one of the test's own.
fn fits_any_memory(
    rt: &(impl Threads + Wait + Clock + CpuClock + Sync),
    alloc: Global,
    case: &Case,
) -> bool {
    match hear_with(rt, alloc, case, NOWHERE) {
        Ok(heard) => fits_refused_memory(&heard, case),
        Err(_) => true,
    }
}

// It passes whichever allocation is refused.
#[test]
fn arguments_that_are_refused_memory_are_reported(rt: HostRuntime) {
    for case in &CASES {
        assert!(rt;
            fits_any_memory(&rt, rt.alloc(), case),
            "{:?}",
            case.arguments
        );
    }
}

/// Whether a page is printed, with nothing reported, or this is reported where memory ran out, with nothing printed.
fn is_printed_or_reported(heard: &Heard<Breaking, Breaking>, page: &str) -> bool {
    let printed = heard.output.bytes.as_slice();
    let reported = heard.errors.bytes.as_slice();
    match heard.status {
        3 => reported == OUT_OF_MEMORY && printed.is_empty(),
        status => status == 0 && reported.is_empty() && printed == page.as_bytes(),
    }
}

/// Whether a page is answered so where one allocation is refused, which may be one of the test's own.
fn is_page_of_any_memory(
    rt: &(impl Threads + Wait + Clock + CpuClock + Sync),
    alloc: Global,
    argument: &str,
    page: &str,
) -> bool {
    match hear_page(rt, alloc, argument, NOWHERE, NOWHERE) {
        Ok(heard) => is_printed_or_reported(&heard, page),
        Err(_) => true,
    }
}

// The same of a page.
#[test]
fn a_page_that_is_refused_memory_is_reported(rt: HostRuntime) {
    let Some(help) = page_of_help(rt.alloc()) else {
        return;
    };
    for (argument, page) in [("--help", help.as_str()), ("--version", VERSION)] {
        assert!(rt;
            is_page_of_any_memory(&rt, rt.alloc(), argument, page),
            "{argument}"
        );
    }
}
