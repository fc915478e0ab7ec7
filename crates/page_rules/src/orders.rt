//! Records by their indices.

ghost use Rattle.std.specs.Prelude.{◌≡◌, ◌≤◌, ◌<◌, All, Any, IfErr, IfOk, length};
ghost use Rattle.std.specs.List.{flat_map};
ghost use Rattle.register_records.specs.Entries.{text_records};
ghost use Rattle.register_records.specs.Lines.{line_text};
ghost use Rattle.page_rules.specs.Orders.{records_at};

use crate::lines::RecordLines;
use std::alloc::{AllocError, Global};

/// Why no text is made.
#[derive(Clone, Copy, PartialEq, Eq, Debug)]
pub enum OrderFault {
    /// Memory ran out.
    OutOfMemory,
    /// An index is that of no record.
    NoSuchRecord,
}

impl From<AllocError> for OrderFault {
    ghost use Rattle.std.specs.Prelude.{◌≡◌};
    ghost use Rattle.page_rules.specs.declared.orders.OrderFault.TheVariants.{OutOfMemory};

    ghost from_gives = { λ error fault. fault ≡ OutOfMemory };

    fn from(_error: AllocError) -> Self {
        OrderFault::OutOfMemory
    }
}

/// The CSV text of the records of `text` at these `indices`, in this order; the first record, be it a header or not, has
/// the index 0, and an index may come twice or not at all. `delimiter` stands between two fields, each line ends with a
/// line feed, and a field is quoted where it must be.
///
/// # Errors
///
/// `NoSuchRecord` where an index is that of no record, and `OutOfMemory`.
///
/// # Examples
///
/// ```
/// let text = b"Name,Date\r\n\"Shaw, Anna\",\"1699\"\nLund";
/// let made = records_in_order(rt.alloc(), text, b',', &[0, 2, 1])?;
/// assert!(rt; made.as_slice() == b"Name,Date\nLund\n\"Shaw, Anna\",1699\n".as_slice());
/// ```
pub fn records_in_order(
    alloc: Global,
    text: &[u8],
    delimiter: u8,
    indices: &[u32],
) -> Result<Vec<u8>, OrderFault>
    // A line for each of the records at these indices.
    ensures text { IfOk result (λ made. made.items
        ≡ flat_map (line_text delimiter) (records_at (text_records delimiter text.now) indices.now)) }
    ensures there { IfOk result (λ made. All (λ index. index < length (text_records delimiter text.now)) indices.now) }
    ensures none { IfErr result (λ fault. fault ≡ OrderFault.NoSuchRecord
        → Any (λ index. length (text_records delimiter text.now) ≤ index) indices.now) }
{
    let lines = RecordLines::of(alloc, text, delimiter)?;
    let mut made = Vec::new(alloc);
    'indices: for index in indices {
        let Some(line) = lines.line(*index) else {
            return Err(OrderFault::NoSuchRecord);
        };
        if made.extend_from_slice(line).is_err() {
            return Err(OrderFault::OutOfMemory);
        }
    }
    Ok(made)
}
