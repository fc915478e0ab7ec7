//! Why a sheet breaks off.

ghost use Rattle.std.specs.Prelude.{◌≡◌, ◌++◌, List, OnOk, codes};
ghost use Rattle.csv.specs.Records.{fields_of};
ghost use Rattle.sheets.specs.declared.name_lists.NameLine.{NameLine};
ghost use Rattle.sheet_arguments.specs.Requests.{Task};
ghost use Rattle.sheet_app.specs.Columns.{IsMissing};
ghost use Rattle.sheet_app.specs.private.Columns.{IsForWord};
ghost use Rattle.sheet_app.specs.Lines.{told};
ghost use Rattle.sheet_app.specs.private.Lines.{listed_at};
ghost use Rattle.sheet_app.specs.SheetFaults.{IsOfColumns};

use crate::columns::ColumnFault;
use csv::ByteRecord;
use register_records::OutputFault;
use sheets::{SheetCause, field_at};
use std::alloc::{AllocError, Global};

/// How many names of a sheet are told.
const NAMES_TOLD: usize = 10;

/// Why a sheet breaks off.
#[derive(Drop)]
pub enum SheetFault<'a> {
    /// Memory ran out.
    OutOfMemory,
    /// It could not be read.
    Unread,
    /// What comes of it could not be written.
    Unwritten,
    /// What comes of it has not got its name.
    Unnamed,
    /// It is to be a family tree, and is not UTF-8.
    NotUtf8,
    /// It is to be a family tree, and does not begin as one.
    NoTree,
    /// No record with names stands below those above them.
    NoNames,
    /// More than 1,000,000 records stand below the names.
    TooManyRecords,
    /// It has no column that this word names; these are its names.
    NoColumn { word: &'a str, names: ByteRecord },
}

impl From<AllocError> for SheetFault<'_> {
    ghost use Rattle.std.specs.Prelude.{◌≡◌};
    ghost use Rattle.sheet_app.specs.declared.sheet_faults.SheetFault.TheVariants.{OutOfMemory};

    ghost from_gives = { λ error fault. fault ≡ OutOfMemory };

    fn from(_error: AllocError) -> Self {
        SheetFault::OutOfMemory
    }
}

impl From<OutputFault> for SheetFault<'_> {
    ghost use Rattle.std.specs.Prelude.{◌≡◌};
    ghost use Rattle.sheet_app.specs.declared.sheet_faults.SheetFault.TheVariants.{Unwritten};

    ghost from_gives = { λ error fault. fault ≡ Unwritten };

    fn from(_error: OutputFault) -> Self {
        SheetFault::Unwritten
    }
}

impl From<SheetCause> for SheetFault<'_> {
    ghost use Rattle.std.specs.Prelude.{◌≡◌};
    ghost use Rattle.sheet_app.specs.SheetFaults.{fault_by};

    ghost from_gives = { λ cause fault. fault ≡ fault_by cause };

    fn from(cause: SheetCause) -> Self {
        match cause {
            SheetCause::NoMemory => SheetFault::OutOfMemory,
            SheetCause::SinkFault => SheetFault::Unwritten,
            SheetCause::NoNames => SheetFault::NoNames,
            SheetCause::TooManyRecords => SheetFault::TooManyRecords,
        }
    }
}

/// The fault for columns that are not found in a sheet with these names.
pub fn fault_of_columns<'a>(fault: ColumnFault<'a>, names: ByteRecord) -> SheetFault<'a>
    ensures { (task : Task) (lines : List NameLine) → IsForWord (IsMissing lines (fields_of names) task) fault.entry
        → IsOfColumns task lines (fields_of names) result }
{
    match fault {
        ColumnFault::OutOfMemory => SheetFault::OutOfMemory,
        ColumnFault::NoColumn(word) => SheetFault::NoColumn { word, names },
    }
}

/// Adds the text at an index of a list to a line: behind a comma and a space, unless it is the first.
pub fn push_listed(line: &mut Vec<u8>, index: usize, text: &[u8]) -> Result<(), AllocError>
    ensures { OnOk result (line.new.items ≡ line.old.items ++ listed_at index text.now) }
{
    if index > 0 {
        line.extend_from_slice(b", ")?;
    }
    line.extend_from_slice(text)
}

/// Adds the first names of a sheet to a line, with a comma between two, and dots where there are more.
fn push_names(line: &mut Vec<u8>, names: &ByteRecord) -> Result<(), AllocError>
    ensures { OnOk result (line.new.items ≡ line.old.items ++ told (fields_of names.now)) }
{
    'names: for index in 0..names.len().min(NAMES_TOLD) {
        push_listed(line, index, field_at(names, index))?;
    }
    if names.len() > NAMES_TOLD {
        line.extend_from_slice(b", ..")?;
    }
    Ok(())
}

/// Adds to a line that a sheet has no column of this word, and its names.
fn push_no_column(line: &mut Vec<u8>, word: &str, names: &ByteRecord) -> Result<(), AllocError>
    ensures { OnOk result (line.new.items ≡ line.old.items
        ++ (codes "no column " ++ (word.now ++ (codes ": the columns are " ++ told (fields_of names.now))))) }
{
    line.extend_from_slice(b"no column ")?;
    line.extend_from_slice(word.as_bytes())?;
    line.extend_from_slice(b": the columns are ")?;
    push_names(line, names)
}

impl SheetFault<'_> {
    ghost use Rattle.std.specs.Prelude.{◌≡◌, ◌++◌, OnOk};
    ghost use Rattle.sheet_app.specs.Lines.{fault_text};

    /// Adds to a line why the sheet breaks off.
    pub fn push_to(&self, line: &mut Vec<u8>) -> Result<(), AllocError>
        ensures { OnOk result (line.new.items ≡ line.old.items ++ fault_text self.now) }
    {
        match self {
            SheetFault::OutOfMemory => line.extend_from_slice(b"out of memory"),
            SheetFault::Unread => line.extend_from_slice(b"cannot be read"),
            SheetFault::Unwritten => line.extend_from_slice(b"cannot write what comes of it"),
            SheetFault::Unnamed => line.extend_from_slice(b"cannot name what comes of it"),
            SheetFault::NotUtf8 => line.extend_from_slice(b"is not UTF-8"),
            SheetFault::NoTree => {
                line.extend_from_slice(b"is no family tree: its first line is not 0 HEAD")
            }
            SheetFault::NoNames => line.extend_from_slice(b"no record with names"),
            SheetFault::TooManyRecords => line.extend_from_slice(b"more than 1000000 records"),
            SheetFault::NoColumn { word, names } => push_no_column(line, word, names),
        }
    }
}
