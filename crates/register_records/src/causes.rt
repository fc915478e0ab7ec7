//! The cause that a fault is, and how it ends a source.

ghost use Rattle.std.specs.Prelude.{◌≡◌};
ghost use Rattle.register_records.specs.Causes.{entry_fault_cause, row_fault_cause};

use crate::ends::{Cause, SourceEnd};
use crate::reading::EntryFault;
use crate::writing::RowFault;
use std::alloc::AllocError;

impl From<AllocError> for Cause {
    ghost use Rattle.register_records.specs.declared.ends.Cause.TheVariants.{NoMemory};

    ghost from_gives = { λ _ cause. cause ≡ NoMemory };

    fn from(_: AllocError) -> Cause {
        Cause::NoMemory
    }
}

impl From<EntryFault> for Cause {
    ghost from_gives = { λ fault cause. cause ≡ entry_fault_cause fault };

    fn from(fault: EntryFault) -> Cause {
        match fault {
            EntryFault::OutOfMemory => Cause::NoMemory,
            EntryFault::ReadFault => Cause::ReadFault,
            EntryFault::BadHeader => Cause::BadHeader,
            EntryFault::TooManyRecords => Cause::TooManyRecords,
            EntryFault::NotSealed => Cause::NotSealed,
            EntryFault::Failed => Cause::Unconfirmed,
        }
    }
}

impl From<EntryFault> for SourceEnd {
    ghost use Rattle.register_records.specs.declared.ends.SourceEnd.TheVariants.{Broken};

    ghost from_gives = { λ fault end. end ≡ Broken (entry_fault_cause fault) };

    fn from(fault: EntryFault) -> SourceEnd {
        SourceEnd::Broken {
            cause: Cause::from(fault),
        }
    }
}

impl From<RowFault> for Cause {
    ghost from_gives = { λ fault cause. cause ≡ row_fault_cause fault };

    fn from(fault: RowFault) -> Cause {
        match fault {
            RowFault::OutOfMemory => Cause::NoMemory,
            RowFault::WriteFault => Cause::SinkFault,
            RowFault::Failed => Cause::Unconfirmed,
        }
    }
}
