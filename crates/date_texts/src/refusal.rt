//! Why records are refused.

ghost use Rattle.std.specs.Prelude.{◌≡◌};

use day_numbers::DateFault;
use thiserror::Error;

/// Why a record is refused. A record is refused by the first that applies, in this order.
#[derive(Clone, Copy, PartialEq, Eq, Debug, Error)]
pub enum Refusal {
    /// The record does not have as many fields as a register of its form.
    #[error("the record does not have three fields; in a sealed register, four")]
    FieldCount,
    /// A field is over its limit in bytes.
    #[error("a field is too long")]
    FieldTooLong,
    /// A field is not UTF-8.
    #[error("a field is not UTF-8")]
    NotUtf8,
    /// No calendar has the name.
    #[error("no calendar has the name")]
    UnknownCalendar,
    /// The date text is not in the calendar's grammar.
    #[error("the date is not written as its calendar wants it")]
    DateText,
    /// The calendar has no such date.
    #[error("the calendar has no such date")]
    NoSuchDate,
    /// The calendar has the date, and its day number is not from -3652424 to 3652059.
    #[error("the day lies outside the Gregorian years -9999 to 9999")]
    OutOfRange,
}

impl Refusal {
    ghost use Rattle.date_texts.specs.Refusals.{refusal_number};

    /// The number that a table shows, from 1 for `FieldCount` to 7 for `OutOfRange`.
    pub fn number(&self) -> u8
        ensures { result ≡ refusal_number self.now }
    {
        match self {
            Refusal::FieldCount => 1,
            Refusal::FieldTooLong => 2,
            Refusal::NotUtf8 => 3,
            Refusal::UnknownCalendar => 4,
            Refusal::DateText => 5,
            Refusal::NoSuchDate => 6,
            Refusal::OutOfRange => 7,
        }
    }
}

impl From<DateFault> for Refusal {
    ghost use Rattle.date_texts.specs.Refusals.{refusal_of};

    ghost from_gives = { λ fault refusal. refusal ≡ refusal_of fault };

    fn from(fault: DateFault) -> Self {
        match fault {
            DateFault::NoSuchDate => Refusal::NoSuchDate,
            DateFault::OutOfRange => Refusal::OutOfRange,
        }
    }
}
