//! The order of entries by their days, and records in an order.

use page_rules::{NO_DAY, OrderFault, day_order, records_in_order};
use std::alloc::Global;

/// Whether entries of these days come in this order.
fn come_in_order(alloc: Global, days: &[u32], wanted: &[u32]) -> bool {
    match day_order(alloc, days) {
        Ok(order) => order.as_slice() == wanted,
        Err(_) => false,
    }
}

/// Five records, of which one has no byte in its field.
const TEXT: &[u8] = b"\xef\xbb\xbfname;date\r\n\"a\nb\";\"1;\"\"2\"\"\"\n\nc\n\"\"\n\xff;;";

/// Texts, indices of records, and the records that stand there, or why there are none.
static CASES: [(&[u8], &[u32], Result<&[u8], OrderFault>); 10] = [
    (TEXT, &[], Ok(b"")),
    (
        TEXT,
        &[0, 1, 2, 3, 4],
        Ok(b"name;date\n\"a\nb\";\"1;\"\"2\"\"\"\nc\n\"\"\n\xff;;\n"),
    ),
    (
        TEXT,
        &[0, 4, 3, 2, 1],
        Ok(b"name;date\n\xff;;\n\"\"\nc\n\"a\nb\";\"1;\"\"2\"\"\"\n"),
    ),
    (TEXT, &[2, 2, 0, 2], Ok(b"c\nc\nname;date\nc\n")),
    (TEXT, &[1], Ok(b"\"a\nb\";\"1;\"\"2\"\"\"\n")),
    (b"", &[], Ok(b"")),
    (b"", &[0], Err(OrderFault::NoSuchRecord)),
    (b"a\nb\n", &[1, 0], Ok(b"b\na\n")),
    (b"a\nb\n", &[0, 2], Err(OrderFault::NoSuchRecord)),
    (b"a\nb", &[4294967295, 0], Err(OrderFault::NoSuchRecord)),
];

/// Whether these records stand at the indices, or this is why there are none.
fn has_records(
    alloc: Global,
    text: &[u8],
    indices: &[u32],
    wanted: Result<&[u8], OrderFault>,
) -> bool {
    match (records_in_order(alloc, text, b';', indices), wanted) {
        (Ok(made), Ok(wanted)) => made.as_slice() == wanted,
        (Err(fault), Err(wanted)) => fault == wanted,
        _ => false,
    }
}

#[test]
fn records_come_in_the_order_that_is_asked(rt: HostRuntime) {
    let days = [5, NO_DAY, 3, 5, NO_DAY, 3, 0];
    assert!(rt;
        come_in_order(rt.alloc(), &days, &[6, 2, 5, 0, 3, 1, 4])
            && come_in_order(rt.alloc(), &[], &[])
    );
    for (text, indices, wanted) in &CASES {
        assert!(rt;
            has_records(rt.alloc(), text, indices, *wanted),
            "{text:?}, {indices:?}"
        );
    }
}
