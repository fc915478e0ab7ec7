//! How a source ends.

ghost use Rattle.std.specs.Prelude.{◌≡◌};
ghost use Rattle.register_records.specs.Sources.{cause_number, is_whole_end};

use date_texts::Refusal;
use thiserror::Error;

/// A refused row: its number in the table, from 1, and its refusal.
#[derive(Clone, Copy, PartialEq, Eq, Debug)]
pub struct Note {
    pub number: u32,
    pub refusal: Refusal,
}

/// Why a source is broken.
#[derive(Clone, Copy, PartialEq, Eq, Debug, Error)]
pub enum Cause {
    /// Memory ran out.
    #[error("out of memory")]
    NoMemory,
    /// A thread did not start.
    #[error("a thread could not be started")]
    NoThread,
    /// It could not be shown that the stages of a source passed on every record.
    #[error("not every row could be confirmed")]
    Unconfirmed,
    /// The output failed.
    #[error("the table could not be written")]
    SinkFault,
    /// The reader failed.
    #[error("the register could not be read")]
    ReadFault,
    /// The first record is not the header, or there is none.
    #[error("the header is missing or wrong")]
    BadHeader,
    /// The text has more than 1,000,000 entries.
    #[error("there are more than 1,000,000 records")]
    TooManyRecords,
    /// A sealed text does not end with a seal that agrees.
    #[error("the seal is missing or wrong")]
    NotSealed,
}

/// How a source ended.
#[derive(Drop)]
pub enum SourceEnd {
    /// The output has gained the table of the text, with so many rows. The journal has the refused ones
    /// in order, and `refused` is their count.
    Whole {
        rows: u32,
        refused: u32,
        journal: Vec<Note>,
    },
    /// The conversion stopped at a fault.
    Broken {
        cause: Cause,
    },
}

impl Cause {
    /// The number of the cause, from 1 for `NoMemory` to 8 for `NotSealed`.
    pub fn number(&self) -> u8
        ensures { result ≡ cause_number self.now }
    {
        match self {
            Cause::NoMemory => 1,
            Cause::NoThread => 2,
            Cause::Unconfirmed => 3,
            Cause::SinkFault => 4,
            Cause::ReadFault => 5,
            Cause::BadHeader => 6,
            Cause::TooManyRecords => 7,
            Cause::NotSealed => 8,
        }
    }
}

impl SourceEnd {
    /// Whether the source ended whole.
    pub fn is_whole(&self) -> bool
        ensures { result ≡ is_whole_end self.now }
    {
        matches!(self, SourceEnd::Whole { .. })
    }
}
