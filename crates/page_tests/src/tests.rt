//! The day numbers and weekdays that are wanted are those of Python's `datetime.date`, the Julian dates those of the
//! reform of 1582, when 4 October was followed by 15 October, and of the years after it.

use date_texts::Refusal;
use page_rules::{Converted, RequestFault, WriteFault, convert_text, pick, write};
use register_records::SourceEnd;
use std::alloc::Global;

mod days;
mod examples;
mod names;
mod orders;
mod parts;
mod trees;

const REGISTER: &[u8] = b"id,calendar,date
B-1582-17,Julian,1582-10-04
B-1582-18,Gregorian,1582-10-15
\"Smith, Anne\",Julian,1700-2-29
\"Smith, John\",Gregorian,1700-02-29
";

const TABLE: &str = "row,id,calendar,date,rd,weekday,julian,gregorian,refusal
1,B-1582-17,Julian,1582-10-04,577735,Thursday,1582-10-04,1582-10-14,
2,B-1582-18,Gregorian,1582-10-15,577736,Friday,1582-10-05,1582-10-15,
3,\"Smith, Anne\",Julian,1700-2-29,620617,Thursday,1700-02-29,1700-03-11,
4,\"Smith, John\",Gregorian,1700-02-29,,,,,6
";

/// The number of the cause, or 0 for a whole table.
fn ending(converted: &Converted) -> u8 {
    match &converted.end {
        SourceEnd::Whole { .. } => 0,
        SourceEnd::Broken { cause } => cause.number(),
    }
}

const EVERY_COLUMN: &str =
    "row,id,calendar,date,rd,weekday,gregorian,iso,julian,coptic,ethiopic,egyptian,armenian,\
islamic,hebrew,longcount,french,roman,haab,tzolkin,republican,refusal\n";

const HEADING: &str = "row,id,calendar,date,rd,weekday,julian,gregorian,refusal\n";

const SEALED: &str = "row,id,calendar,date,note,rd,weekday,julian,gregorian,refusal\n";

/// A register, its columns, whether it is sealed, the cause, and its table.
type Case = (&'static [u8], &'static [u8], bool, u8, &'static str);

static CASES: [Case; 7] = [
    (REGISTER, &[2, 0], false, 0, TABLE),
    (b"id,calendar,date", &[2, 0], false, 0, HEADING),
    (b"", &[2, 0], false, 6, ""),
    (b"\xff\xfe\0\"\r\r\n,", &[2, 0], false, 6, ""),
    (b"id,calendar,date,note\n", &[2, 0], true, 8, SEALED),
    (REGISTER, &[2, 0], true, 6, ""),
    (
        b"id,calendar,date\n",
        &[0, 1, 2, 3, 4, 5, 6, 7, 8, 9, 10, 11, 12, 13, 14],
        false,
        0,
        EVERY_COLUMN,
    ),
];

/// Whether these are bytes of a room that nothing was written to.
fn are_free(bytes: &[u8]) -> bool {
    for byte in bytes {
        if *byte != b'#' {
            return false;
        }
    }
    true
}

/// Whether the register ends so in a room of 400 bytes, with its table in its front, and is as it was behind it.
fn fills(alloc: Global, case: &Case) -> bool {
    let (register, columns, sealed, cause, table) = *case;
    let mut room = [b'#'; 400];
    let Ok(converted) = convert_text(alloc, register, columns, b',', sealed, &mut room) else {
        return false;
    };
    let Some((front, rest)) = room.split_at_checked(converted.length) else {
        return false;
    };
    ending(&converted) == cause && front == table.as_bytes() && are_free(rest)
}

#[test]
fn a_register_fills_the_front_of_the_room(rt: HostRuntime) {
    for case in &CASES {
        assert!(rt; fills(rt.alloc(), case), "{}", case.4);
    }
}

/// Whether a room that is too small for the table stays as it was, and the refusals are counted.
fn small_room_stays(alloc: Global) -> bool {
    let mut room = [b'#'; 100];
    let register = REGISTER;
    let Ok(converted) = convert_text(alloc, register, &[2, 0], b',', false, &mut room) else {
        return false;
    };
    let counts = converted.end.refusal_counts();
    ending(&converted) == 0
        && converted.length == TABLE.len()
        && are_free(&room)
        && counts.count(Refusal::NoSuchDate) == 1
        && counts.count(Refusal::NotUtf8) == 0
}

/// What is asked of columns and a delimiter, and why it is refused.
static ASKED: [(&[u8], u8, Option<RequestFault>); 7] = [
    (
        &[0, 1, 2, 3, 4, 5, 6, 7, 8, 9, 10, 11, 12, 13, 14],
        b',',
        None,
    ),
    (&[], b'\t', None),
    (
        &[0, 1, 2, 3, 4, 5, 6, 7, 8, 9, 10, 11, 12, 13, 14, 0],
        b',',
        Some(RequestFault::ColumnTwice),
    ),
    (&[3, 2, 3], b',', Some(RequestFault::ColumnTwice)),
    (&[3, 15, 3], b'|', Some(RequestFault::NoSuchColumn)),
    (&[3, 2, 3], b'|', Some(RequestFault::ColumnTwice)),
    (&[3, 2], b'|', Some(RequestFault::Delimiter)),
];

/// Whether a text without bytes gets this fault, with nothing written to its room.
fn has_fault(alloc: Global, columns: &[u8], delimiter: u8, fault: Option<RequestFault>) -> bool {
    let mut room = [b'#'; 9];
    let found = convert_text(alloc, b"", columns, delimiter, false, &mut room).err();
    found == fault && are_free(&room)
}

#[test]
fn what_cannot_be_asked_is_a_fault(rt: HostRuntime) {
    for (columns, delimiter, fault) in &ASKED {
        assert!(rt;
            has_fault(rt.alloc(), columns, *delimiter, *fault),
            "{columns:?}"
        );
    }
    assert!(rt; small_room_stays(rt.alloc()));
}

/// Whether of two records of a sheet these bytes, of fields of these lengths, are picked.
fn is_picked(
    alloc: Global,
    sheet: &[u8],
    columns: &[u32],
    (bytes, lengths): (&[u8], &[u32]),
    (records, widest): (usize, usize),
) -> bool {
    let Ok(picked) = pick(alloc, sheet, b',', columns, 2) else {
        return false;
    };
    picked.bytes.as_slice() == bytes
        && picked.lengths.as_slice() == lengths
        && picked.records == records
        && picked.widest == widest
}

/// Whether fields of these lengths are written so, three records of one column.
fn is_written(alloc: Global, bytes: &[u8], lengths: &[u32], wanted: &[u8]) -> bool {
    match write(alloc, bytes, lengths, 1, b';') {
        Ok(text) => text.as_slice() == wanted,
        Err(_) => false,
    }
}

#[test]
fn records_of_a_sheet_are_picked_and_written(rt: HostRuntime) {
    let sheet = b"\xef\xbb\xbfKB-1,Julian\r\n\r\n\"KB-\"\"2\"\"\",\"Old\nStyle\",1700\n\xff";
    let fields = b"JulianKB-1JulianOld\nStyleKB-\"2\"Old\nStyle";
    assert!(rt;
        is_picked(
            rt.alloc(),
            sheet,
            &[1, 0, 1],
            (fields, &[6, 4, 6, 9, 6, 9]),
            (2, 3)
        ) && is_picked(rt.alloc(), b"", &[0], (b"", &[]), (0, 0))
    );
    // A record without a byte is written in quotes.
    assert!(rt;
        is_written(rt.alloc(), b"a;", &[0, 1, 9], b"\"\"\na\n\";\"\n")
            && write(rt.alloc(), b"", &[], 0, b';').err() == Some(WriteFault::NoWidth)
    );
}
