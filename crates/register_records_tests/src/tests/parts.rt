//! Setups, entries, rows, cells and lines that wait.

use super::{GREGORIAN, ISO, JULIAN, ROMAN, fields_of, last_entry, plain, row_of};
use date_texts::{MAX_CELL, MAX_TARGETS, Refusal, Target};
use register_records::{
    Body, Cause, Entry, EntryFault, Form, LINE_ROOM, MOST_WAITING, PlainOutput, Row, RowFault,
    RowWriter, Setup,
};
use std::alloc::Global;
use std::mem::size_of;

/// Whether a setup has the parts that it was made of.
fn has_parts(targets: &[Target], ring: usize, delimiter: u8, stripes: usize) -> bool {
    match Setup::new(targets, ring, delimiter, stripes, Form::Sealed) {
        Ok(setup) => {
            setup.targets() == targets
                && setup.ring() == ring
                && setup.delimiter() == delimiter
                && setup.stripes() == stripes
                && setup.form() == Form::Sealed
        }
        Err(_) => false,
    }
}

/// Targets, a ring, a delimiter and stripes, and the number of the fault of a setup of these.
static FAULTS: [(&[Target], usize, u8, usize, u8); 7] = [
    (&[JULIAN, JULIAN], 0, b',', 1, 1),
    (&[], 0, b',', 1, 2),
    (&[], 4097, b'|', 1, 2),
    (&[], 1, b'|', 1, 3),
    (&[], 1, b'|', 0, 3),
    (&[], 1, b',', 0, 4),
    (&[], 1, b',', 5, 4),
];

/// Whether a setup of these has its fault.
fn has_fault(parts: &(&[Target], usize, u8, usize, u8)) -> bool {
    let (targets, ring, delimiter, stripes, number) = *parts;
    match Setup::new(targets, ring, delimiter, stripes, Form::Plain) {
        Ok(_) => false,
        Err(fault) => fault.number() == number,
    }
}

#[test]
fn setups_have_their_parts_and_faults(rt: HostRuntime) {
    assert!(rt; has_parts(&[], 4096, b'\t', 1) && has_parts(&[JULIAN], 1, b',', 4));
    for parts in &FAULTS {
        assert!(rt; has_fault(parts), "fault {}", parts.4);
    }
}

/// Whether this is the last row of a register with these two targets, and of no other setup.
fn has_its_parts(row: &Row, setup: &Setup, other: &Setup) -> bool {
    row.entry().number() == 1_000_000
        && row.targets().len() == 2
        && row.outcome().is_ok_and(|day| day.number() == 577_736)
        && row.cells().as_slice().len() == 2
        && row
            .cells()
            .as_slice()
            .first()
            .is_some_and(|cell| *cell == "1582-10-15".as_bytes())
        && row.is_for(setup)
        && !row.is_for(other)
        && row.refusal_note().is_none()
}

/// The row of an entry that was made for another setup, made again for this one.
fn renewed_row(entry: &Entry, other: &Setup, setup: &Setup) -> Row {
    let mut row = row_of(*entry, other);
    row.renew(entry, setup);
    row
}

/// The most bytes of a row: its entry; its outcome, a tag and a day; its targets, each with its place; its tail, which is
/// a day's number, a weekday, the cells and a refusal, each behind a delimiter; and two words for lengths and for gaps.
const ROW_LIMIT: usize = size_of::<Entry>()
    + 2 * size_of::<u64>()
    + MAX_TARGETS * (size_of::<Target>() + 1)
    + (1 + 8)
    + (1 + 9)
    + MAX_TARGETS * (1 + MAX_CELL)
    + (1 + 1)
    + 2 * size_of::<u64>();

/// Whether the rows of this entry have their parts, also where one was made for another setup.
fn have_their_parts(last: &Entry) -> bool {
    let (Ok(setup), Ok(other), Ok(third)) = (
        plain(&[GREGORIAN, JULIAN]),
        plain(&[JULIAN, GREGORIAN]),
        plain(&[ISO, JULIAN, ROMAN]),
    ) else {
        return false;
    };
    let row = row_of(*last, &setup);
    let renewed = renewed_row(last, &third, &setup);
    has_its_parts(&row, &setup, &other) && has_its_parts(&renewed, &setup, &other)
}

/// The same of the last entry.
fn rows_have_their_parts() -> bool {
    match last_entry(["", "Julian", "1582-10-05"]) {
        Some(last) => have_their_parts(&last),
        None => false,
    }
}

#[test]
fn rows_have_their_parts_and_are_small(rt: HostRuntime) {
    assert!(rt; rows_have_their_parts());
    assert!(rt; size_of::<Entry>() == 216 && size_of::<Row>() <= ROW_LIMIT);
}

/// The id, the calendar's name and the date of a body, and whether it may hold them.
static BODIES: [([&str; 3], bool); 4] = [
    (
        [
            "0123456789012345678901234567890123456789",
            "0123456789012345",
            "01234567890123456789012345678901",
        ],
        true,
    ),
    (["01234567890123456789012345678901234567890", "", ""], false),
    (["", "01234567890123456", ""], false),
    (["", "", "012345678901234567890123456789012"], false),
];

/// Entries with these numbers and refusals are none.
static NO_ENTRIES: [(u32, Refusal); 3] = [
    (0, Refusal::NotUtf8),
    (1_000_001, Refusal::NotUtf8),
    (1, Refusal::DateText),
];

/// How many of these are no entries, up to the first that is one.
fn count_of_none() -> usize {
    let mut count = 0usize;
    for (number, refusal) in &NO_ENTRIES {
        if Entry::new(*number, Body::Refused(*refusal)).is_some() {
            break;
        }
        count = count.saturating_add(1);
    }
    count
}

#[test]
fn entries_have_their_limits_and_faults_their_causes(rt: HostRuntime) {
    for (texts, fits) in &BODIES {
        assert!(rt; fields_of(*texts).is_some() == *fits, "at {:?}", texts[2]);
    }
    let none = count_of_none();
    assert!(rt; none == NO_ENTRIES.len(), "{none} are no entries");
    assert!(rt;
        Cause::from(RowFault::WriteFault) == Cause::SinkFault
            && Cause::from(EntryFault::Failed) == Cause::Unconfirmed
    );
}

static REFUSED_LINE: &str = "1,,,,,,3\n";

static FOUR_LINES: &str = "\
row,id,calendar,date,rd,weekday,refusal
1,,,,,,3
1,,,,,,3
1,,,,,,3
1,,,,,,3
";

/// Whether two lines wait until they are sent, and a line then waits until another is put.
fn wait_and_go(
    writer: &mut RowWriter,
    output: &mut PlainOutput<Vec<u8>>,
    row: &Row,
) -> Result<bool, RowFault> {
    writer.add(row)?;
    writer.add(row)?;
    let two = writer.pending_len();
    writer.send(output)?;
    let none = writer.pending_len();
    writer.send(output)?;
    writer.add(row)?;
    writer.put(output, row)?;
    Ok(two == 2 * REFUSED_LINE.len() && none == 0)
}

/// Whether a writer of this setup, which is then ended, does so.
fn waits_and_goes(
    alloc: Global,
    output: &mut PlainOutput<Vec<u8>>,
    row: &Row,
    setup: &Setup,
) -> bool {
    let Ok(mut writer) = RowWriter::open(alloc, output, setup) else {
        return false;
    };
    let has_waited = wait_and_go(&mut writer, output, row) == Ok(true);
    writer.end().is_ok() && has_waited
}

/// Whether a refused entry becomes four lines, of which two wait together.
fn makes_four_lines(alloc: Global) -> bool {
    let (Ok(setup), Some(refused)) = (plain(&[]), Entry::new(1, Body::Refused(Refusal::NotUtf8)))
    else {
        return false;
    };
    let row = row_of(refused, &setup);
    let mut output = PlainOutput::new(Vec::new(alloc), 1);
    let has_waited = waits_and_goes(alloc, &mut output, &row, &setup);
    has_waited && output.into_inner().as_slice() == FOUR_LINES.as_bytes()
}

#[test]
fn lines_wait_until_they_are_sent(rt: HostRuntime) {
    assert!(rt; makes_four_lines(rt.alloc()));
    assert!(rt; MOST_WAITING == 16_384 && LINE_ROOM == 1024);
}
