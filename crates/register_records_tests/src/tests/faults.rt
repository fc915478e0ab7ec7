//! Readers and outputs that fail at each place in turn, and refused memory.

use super::{
    THREE_RECORDS, THREE_ROWS, Text, cause_from, last_entry, lines_of, lines_of_front, plain,
    row_of,
};
use date_texts::Target;
use register_records::faults::{Chunks, Sink};
use register_records::{
    EntryFault, EntryReader, Form, LINE_ROOM, MOST_WAITING, Output, Row, RowFault, RowWriter,
    Setup, SetupFault,
};
use std::alloc::{AllocError, Global};

/// Room for all that the tests write.
const ROOM: usize = 4096;

/// An output with room for all, in which nothing fails.
fn sink_of(alloc: Global) -> Result<Sink, AllocError> {
    Sink::new(alloc, 7, ROOM, 0, 0, ROOM)
}

/// Whether a text ends with the cause of this number, or for 0 with none, and this is all that its output takes, which
/// has failed where the cause is a fault of writing.
fn gives(
    alloc: Global,
    text: Text<'_>,
    setup: Result<Setup, SetupFault>,
    sink: Result<Sink, AllocError>,
    (cause, table): (u8, &[u8]),
) -> bool {
    let Ok(mut sink) = sink else {
        return false;
    };
    cause_from(alloc, text, &mut sink, setup) == Some(cause)
        && sink.has_failed() == (cause == 4)
        && sink.mark() == 7
        && sink.bytes() == table
}

/// Whether three records that are cut off after so many bytes end with a fault of reading, and give their whole lines.
fn is_cut_off(alloc: Global, cut: usize) -> bool {
    let (Some(whole), Ok(mut sink)) = (THREE_RECORDS.get(..cut), sink_of(alloc)) else {
        return false;
    };
    let text = Text::cut(THREE_RECORDS, 1, cut as u32);
    let cause = cause_from(alloc, text, &mut sink, plain(&[]));
    cause == Some(5)
        && !sink.has_failed()
        && lines_of_front(sink.bytes(), THREE_ROWS) == lines_of(whole)
}

#[test]
fn a_text_that_is_cut_off_at_any_byte_gives_its_whole_lines(rt: HostRuntime) {
    for cut in 0..THREE_RECORDS.len() {
        assert!(rt; is_cut_off(rt.alloc(), cut), "at {cut}");
    }
}

/// The room of an output, the most bytes that it takes by a call, the numbers of the offer and of the flush that fail,
/// or 0 for none, the cause, or 0, and how many bytes of the table of three records the output has then. A line is
/// missing where its offer fails, and where its flush fails it is the last.
static OUTPUTS: [(usize, usize, u32, u32, u8, usize); 13] = [
    (ROOM, ROOM, 1, 0, 4, 0),
    (ROOM, ROOM, 0, 1, 4, 40),
    (ROOM, ROOM, 2, 0, 4, 40),
    (ROOM, ROOM, 0, 2, 4, 82),
    (ROOM, ROOM, 3, 0, 4, 82),
    (ROOM, ROOM, 0, 3, 4, 124),
    (ROOM, ROOM, 4, 0, 4, 124),
    (ROOM, ROOM, 0, 4, 4, 166),
    (ROOM, ROOM, 5, 5, 0, 166),
    // An output may take one byte, but not none, and has to have room.
    (ROOM, 1, 0, 0, 0, 166),
    (ROOM, 0, 0, 0, 4, 0),
    (165, ROOM, 0, 0, 4, 165),
    (166, ROOM, 0, 0, 0, 166),
];

/// Whether an output takes what it should of three records.
fn takes(alloc: Global, output: &(usize, usize, u32, u32, u8, usize)) -> bool {
    let (room, most, fail_write, fail_flush, cause, length) = *output;
    let sink = Sink::new(alloc, 7, room, fail_write, fail_flush, most);
    let text = Text::new(THREE_RECORDS, b"");
    match THREE_ROWS.get(..length) {
        Some(table) => gives(alloc, text, plain(&[]), sink, (cause, table)),
        None => false,
    }
}

#[test]
fn an_offer_and_a_flush_fail_at_each_place(rt: HostRuntime) {
    for output in &OUTPUTS {
        assert!(rt; takes(rt.alloc(), output), "{output:?}");
    }
}

const WEEK_DATE: &[u8] = b"id,calendar,date\na,iso,1970-W01-4\n";

const WEEK_DATE_TABLE: &[u8] = b"\
row,id,calendar,date,rd,weekday,refusal
1,a,iso,1970-W01-4,719163,Thursday,
";

const SEALED_TABLE: &[u8] = b"\
row,id,calendar,date,note,rd,weekday,refusal
1,a,iso,1970-W01-4,,719163,Thursday,
";

/// Texts that a fault of reading follows, the number of the offer that fails, or 0 for none, the cause, and the table.
static CUT: [(Form, &[u8], u32, u8, &[u8]); 4] = [
    (Form::Plain, WEEK_DATE, 0, 5, WEEK_DATE_TABLE),
    (Form::Plain, WEEK_DATE, 1, 4, b""),
    (
        Form::Sealed,
        b"id,calendar,date,note\na,iso,1970-W01-4,\nEND,1\n",
        0,
        5,
        SEALED_TABLE,
    ),
    (
        Form::Sealed,
        b"id,calendar,date,note\na,iso,1970-W01-4,\nEND,2\n",
        0,
        5,
        SEALED_TABLE,
    ),
];

/// The text in one piece, and then a fault: the third read, since `csv` asks for the first byte alone.
fn cut_text(text: &[u8]) -> Text<'_> {
    Text::cut(text, usize::MAX, 2)
}

/// Whether the fault of this number comes of a text, and this table.
fn is_cut(alloc: Global, cut: &(Form, &[u8], u32, u8, &[u8])) -> bool {
    let (form, text, fail_write, cause, table) = *cut;
    let setup = Setup::new(&[], 1, b',', 1, form);
    let sink = Sink::new(alloc, 7, ROOM, fail_write, 0, ROOM);
    gives(alloc, cut_text(text), setup, sink, (cause, table))
}

#[test]
fn a_fault_of_reading_is_reported_but_not_after_one_of_writing(rt: HostRuntime) {
    for cut in &CUT {
        assert!(rt; is_cut(rt.alloc(), cut), "{:?}, cause {}", cut.1, cut.3);
    }
}

/// Whether a reader gives one entry, of number 1, meets a fault, and has failed from then on.
fn fails_after_one(entries: &mut EntryReader<Chunks>) -> bool {
    let Ok(Some(entry)) = entries.next() else {
        return false;
    };
    entry.number() == 1
        && entries.next().err() == Some(EntryFault::ReadFault)
        && entries.next().err() == Some(EntryFault::Failed)
}

/// The week date's text in one chunk, and then a fault.
fn cut_chunks(alloc: Global) -> Option<Chunks> {
    let chunk = WEEK_DATE.to_vec(alloc).ok()?;
    Some(Chunks::new(Vec::from_array(alloc, [chunk]).ok()?, 3))
}

/// Whether the reader of a text that is cut after its first record does so.
fn a_cut_reader_fails(alloc: Global) -> bool {
    let (Some(chunks), Ok(setup)) = (cut_chunks(alloc), plain(&[])) else {
        return false;
    };
    match EntryReader::open(alloc, chunks, &setup) {
        Ok(mut entries) => fails_after_one(&mut entries),
        Err(_) => false,
    }
}

/// The fields of the only record in the week date's text.
const WEEK_FIELDS: [&str; 3] = ["a", "iso", "1970-W01-4"];

/// Whether a writer meets a fault at this row, and has failed from then on, with nothing but the heading written.
fn fails_at(alloc: Global, setup: &Setup, row: &Row, torn: &mut Sink) -> bool {
    let Ok(mut writer) = RowWriter::open(alloc, torn, setup) else {
        return false;
    };
    let first = writer.put(torn, row);
    let second = writer.put(torn, row);
    first == Err(RowFault::WriteFault)
        && second == Err(RowFault::Failed)
        && writer.end() == Err(RowFault::Failed)
}

/// Whether a writer fails at its first row.
fn fails_at_a_row(alloc: Global) -> bool {
    let torn = Sink::new(alloc, 7, ROOM, 2, 0, ROOM);
    let (Ok(setup), Some(entry), Ok(mut torn)) = (plain(&[]), last_entry(WEEK_FIELDS), torn) else {
        return false;
    };
    fails_at(alloc, &setup, &row_of(entry, &setup), &mut torn)
        && lines_of_front(torn.bytes(), WEEK_DATE_TABLE) == 1
}

#[test]
fn a_reader_and_a_writer_fail_from_a_fault_on(rt: HostRuntime) {
    assert!(rt; a_cut_reader_fails(rt.alloc()) && fails_at_a_row(rt.alloc()));
}

/// Whether a row can be written.
fn is_put(alloc: Global, setup: &Setup, row: &Row, sink: &mut Sink) -> bool {
    let Ok(mut writer) = RowWriter::open(alloc, sink, setup) else {
        return false;
    };
    writer.put(sink, row).is_ok() && writer.end().is_ok()
}

/// Whether a text ends with these parts.
fn ends_with(text: &[u8], parts: &[&str]) -> bool {
    let mut rest = text;
    for part in parts.iter().rev() {
        let Some(before) = rest.strip_suffix(part.as_bytes()) else {
            return false;
        };
        rest = before;
    }
    true
}

/// Whether the table of one record of the last number, with these fields, ends with these parts.
fn has_last_line(alloc: Global, targets: &[Target], fields: [&str; 3], parts: &[&str]) -> bool {
    let (Ok(setup), Some(entry), Ok(mut sink)) = (
        plain(targets),
        last_entry(fields),
        sink_of(alloc),
    ) else {
        return false;
    };
    is_put(alloc, &setup, &row_of(entry, &setup), &mut sink) && ends_with(sink.bytes(), parts)
}

const FORTY_QUOTES: &str =
    "\"\"\"\"\"\"\"\"\"\"\"\"\"\"\"\"\"\"\"\"\"\"\"\"\"\"\"\"\"\"\"\"\"\"\"\"\"\"\"\"";

const THIRTY_TWO_QUOTES: &str = "\"\"\"\"\"\"\"\"\"\"\"\"\"\"\"\"\"\"\"\"\"\"\"\"\"\"\"\"\"\"\"\"";

const SIXTEEN_QUOTES: &str = "\"\"\"\"\"\"\"\"\"\"\"\"\"\"\"\"";

/// A date with as many blanks as a field may have.
const LONG_FIELDS: [&str; 3] = [
    FORTY_QUOTES,
    "    gregorian   ",
    "            1945-11-12          ",
];

const LONG_ROW: &str = "    gregorian   ,            1945-11-12          ,710347,Monday,1945-11-12,\
1945-W46-1,1945-10-30,1662-03-03,1938-03-03,2694-07-10,1395-04-05,1364-12-06,\
5706-09-07,12.16.11.16.9,0154-02-21,1945-11-K3,7 Zac,11 Muluc,0154-02-20,\n";

/// A field of quotes is twice as long in the table, and two more.
static LONG_LINES: [(&[Target], [&str; 3], &[&str]); 2] = [
    (
        &Target::ALL,
        LONG_FIELDS,
        &["\n1000000,\"", FORTY_QUOTES, FORTY_QUOTES, "\",", LONG_ROW],
    ),
    (
        &[],
        [FORTY_QUOTES, SIXTEEN_QUOTES, THIRTY_TWO_QUOTES],
        &[
            "\n1000000,\"",
            FORTY_QUOTES,
            FORTY_QUOTES,
            "\",\"",
            SIXTEEN_QUOTES,
            SIXTEEN_QUOTES,
            "\",\"",
            THIRTY_TWO_QUOTES,
            THIRTY_TWO_QUOTES,
            "\",,,4\n",
        ],
    ),
];

#[test]
fn the_longest_fields_and_the_last_number_fit_a_row(rt: HostRuntime) {
    for (targets, fields, parts) in &LONG_LINES {
        assert!(rt;
            has_last_line(rt.alloc(), targets, *fields, parts),
            "{fields:?}"
        );
    }
}

/// Whether one line after the other can be added until more than `MOST_WAITING` bytes wait, and none takes more than
/// `LINE_ROOM` of them.
fn adds_lines(writer: &mut RowWriter, row: &Row) -> bool {
    for _ in 0..MOST_WAITING {
        let waiting = writer.pending_len();
        if waiting > MOST_WAITING {
            return true;
        }
        if writer.add(row).is_err() {
            return false;
        }
        let now = writer.pending_len();
        if now <= waiting || now > waiting + LINE_ROOM {
            return false;
        }
    }
    false
}

/// Whether lines wait in the memory that a writer has, once it was opened.
fn lines_wait(alloc: Global) -> bool {
    let (Ok(setup), Some(entry)) = (plain(&Target::ALL), last_entry(LONG_FIELDS)) else {
        return false;
    };
    let row = row_of(entry, &setup);
    let Ok(mut sink) = sink_of(alloc) else {
        return true;
    };
    match RowWriter::open(alloc, &mut sink, &setup) {
        Ok(mut writer) => adds_lines(&mut writer, &row),
        Err(_) => true,
    }
}

// It passes whichever allocation is refused: once a writer was opened, lines wait in memory that it has.
#[test]
fn lines_that_wait_take_no_memory(rt: HostRuntime) {
    assert!(rt; lines_wait(rt.alloc()));
}

/// Whether three records are whole, or end where memory runs out and leave a front of their table, in whole lines.
fn is_front_in_need(alloc: Global) -> bool {
    let Ok(mut sink) = sink_of(alloc) else {
        return true;
    };
    let cause = cause_from(alloc, THREE_RECORDS, &mut sink, plain(&[]));
    let lines = lines_of_front(sink.bytes(), THREE_ROWS);
    !sink.has_failed()
        && match cause {
            Some(0) => lines == 4,
            cause => cause == Some(1) && lines <= 4,
        }
}

// It passes whichever allocation is refused: then the cause is that memory ran out, and nothing else.
#[test]
fn a_source_that_is_refused_memory_leaves_a_front_of_its_table(rt: HostRuntime) {
    assert!(rt; is_front_in_need(rt.alloc()));
}
