//! The records that a reader has given, which clauses alone read.

ghost use Rattle.std.specs.Prelude.{◌≡◌, ◌++◌, ◌∷◌, []};
ghost use Rattle.sheets.specs.private.SheetRecords.{record_read};

use crate::sheet_records::SheetRecord;
use std::marker::Model;
use std::snapshot::Snapshot;

/// A record that was given, and those given before it.
#[derive(Drop)]
#[cycle(record_log)]
struct GivenRecord {
    before: Snapshot<RecordLog>,
    of_sheet: Snapshot<SheetRecord>,
}

/// The records given, in order. It keeps none of them in memory: a log takes one byte.
#[derive(Drop)]
#[cycle(record_log)]
pub(crate) struct RecordLog {
    last: Option<GivenRecord>,
}

impl Model for RecordLog {
    ghost use Rattle.std.proofs.Common.{arith, length-append};
    ghost use Rattle.std.specs.Prelude.{◌++◌, ◌∷◌, [], List, length};
    ghost use Rattle.std.specs.Option.{option_map_or};
    ghost use Rattle.sheets.specs.private.SheetRecords.{RecordRead, record_read};

    ghost Value = { List RecordRead };

    ghost view = { λ log.
        option_map_or (λ given. given.before.value ++ record_read given.of_sheet.value ∷ []) log.last [] };

    ghost size = { length };

    ghost size_decreases = { λ log h. Prim.grind (arith, length-append) };
}

impl RecordLog {
    /// The log of no record.
    pub fn new() -> RecordLog
        ensures { result ≡ [] }
    {
        RecordLog { last: None }
    }

    /// Notes one more record.
    pub fn push(&mut self, of_sheet: &SheetRecord)
        ensures { self.new ≡ self.old ++ record_read of_sheet.now ∷ [] }
    {
        self.last = Some(GivenRecord {
            before: Snapshot::of(self),
            of_sheet: Snapshot::of(of_sheet),
        });
    }
}
