//! The conversion of an entry.

ghost use Rattle.std.specs.Prelude.{◌≡◌};
ghost use Rattle.register_records.specs.Outcomes.{IsRowOf};
ghost use Rattle.register_records.specs.Seen.{entry_seen};
ghost use Rattle.register_records.specs.Views.{row_seen, row_targets, targets_of};

use crate::entries::Entry;
use crate::rows::Row;
use crate::setups::Setup;

/// The row of an entry for the setup's targets: the refusal of its body, else `UnknownCalendar`,
/// `DateText`, `NoSuchDate` or `OutOfRange`, the first that applies, else the day and its cells.
// Inlined, so that the row, which is large, is made where the caller keeps it.
#[inline(always)]
pub fn convert(entry: Entry, setup: &Setup) -> Row
    ensures entry { result.entry ≡ entry }
    ensures targets { row_targets result ≡ targets_of setup.now }
    ensures row { IsRowOf (targets_of setup.now) (entry_seen entry) (row_seen result) }
{
    let mut row = Row::blank();
    row.renew(&entry, setup);
    row
}
