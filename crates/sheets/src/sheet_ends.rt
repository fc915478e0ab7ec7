//! How a sheet ends.

use crate::date_counts::SheetCounts;
use crate::unread_dates::UnreadDates;
use register_records::OutputFault;
use std::alloc::AllocError;
use thiserror::Error;

/// Why a sheet is broken.
#[derive(Clone, Copy, PartialEq, Eq, Debug, Error)]
pub enum SheetCause {
    /// Memory ran out.
    #[error("out of memory")]
    NoMemory,
    /// The output failed.
    #[error("the sheet could not be written")]
    SinkFault,
    /// No record with names stands below those that stand above them.
    #[error("the sheet has no record with names")]
    NoNames,
    /// More than 1,000,000 records stand below the names.
    #[error("there are more than 1,000,000 records")]
    TooManyRecords,
}

/// How a sheet ended.
#[derive(Clone, Copy, PartialEq, Eq)]
pub enum SheetEnd {
    /// The output has gained the sheet with the columns asked. So many records stand below the names. Of their dates so
    /// many were refused or are empty, and so many were not read.
    Whole {
        rows: u32,
        counts: SheetCounts,
        unread: UnreadDates,
    },
    /// It stopped at a fault.
    Broken {
        cause: SheetCause,
    },
}

impl From<AllocError> for SheetCause {
    ghost use Rattle.std.specs.Prelude.{◌≡◌};
    ghost use Rattle.sheets.specs.declared.sheet_ends.SheetCause.TheVariants.{NoMemory};

    ghost from_gives = { λ error cause. cause ≡ NoMemory };

    fn from(_error: AllocError) -> Self {
        SheetCause::NoMemory
    }
}

impl From<OutputFault> for SheetCause {
    ghost use Rattle.std.specs.Prelude.{◌≡◌};
    ghost use Rattle.sheets.specs.declared.sheet_ends.SheetCause.TheVariants.{SinkFault};

    ghost from_gives = { λ error cause. cause ≡ SinkFault };

    fn from(_error: OutputFault) -> Self {
        SheetCause::SinkFault
    }
}
