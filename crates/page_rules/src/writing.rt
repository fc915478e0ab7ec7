//! The text of records.

ghost use Rattle.std.specs.Prelude.{◌≡◌, ◌≢◌, ◌↔◌, length, Err, IfOk};
ghost use Rattle.std.specs.Int.{div_ceil};
ghost use Rattle.sheets.specs.Sheets.{records_text};
ghost use Rattle.page_rules.specs.Fields.{fields_by, groups};

use crate::field_lists::FieldsLeft;
use crate::lines::RecordLines;
use csv::ByteRecord;
use std::alloc::{AllocError, Global};

/// Why no text is written.
#[derive(Clone, Copy, PartialEq, Eq, Debug)]
pub enum WriteFault {
    /// Memory ran out.
    OutOfMemory,
    /// Records of no field were asked for.
    NoWidth,
}

impl WriteFault {
    ghost use Rattle.std.specs.Prelude.{◌≡◌};
    ghost use Rattle.page_rules.specs.Fields.{write_fault_number};

    /// The number of the fault: 1 for `OutOfMemory` and 3 for `NoWidth`.
    pub fn number(self) -> u8
        ensures { result ≡ write_fault_number self }
    {
        match self {
            WriteFault::OutOfMemory => 1,
            WriteFault::NoWidth => 3,
        }
    }
}

impl From<AllocError> for WriteFault {
    ghost use Rattle.std.specs.Prelude.{◌≡◌};
    ghost use Rattle.page_rules.specs.declared.writing.WriteFault.TheVariants.{OutOfMemory};

    ghost from_gives = { λ error fault. fault ≡ OutOfMemory };

    fn from(_error: AllocError) -> Self {
        WriteFault::OutOfMemory
    }
}

/// The CSV text of records of `width` fields each: of the fields of these `lengths` in `bytes`, in order; the last record
/// has what is left. `delimiter` stands between two fields, and each line ends with a line feed.
///
/// # Errors
///
/// `NoWidth` exactly where the width is 0, and `OutOfMemory`.
///
/// # Examples
///
/// ```
/// let text = write(rt.alloc(), b"a,bc\"d", &[3, 0, 3], 2, b',')?;
/// assert!(rt; text.as_slice() == b"\"a,b\",\n\"c\"\"d\"\n".as_slice());
/// ```
pub fn write(
    alloc: Global,
    bytes: &[u8],
    lengths: &[u32],
    width: usize,
    delimiter: u8,
) -> Result<Vec<u8>, WriteFault>
    ensures text { IfOk result (λ text. (width ≢ 0) × (text.items ≡ records_text delimiter
        (groups (div_ceil (length lengths.now) width) width (fields_by lengths.now bytes.now)))) }
    ensures width { (result ≡ Err WriteFault.NoWidth) ↔ (width ≡ 0) }
{
    if width == 0 {
        return Err(WriteFault::NoWidth);
    }
    let mut fields = FieldsLeft::new(bytes, lengths);
    let mut lines = RecordLines::new(alloc, delimiter)?;
    let mut row = ByteRecord::new(alloc);
    'groups: for _ in 0..lengths.len().div_ceil(width) {
        fields.take_record(width, &mut row)?;
        lines.push(&row)?;
    }
    Ok(lines.into_text()?)
}
