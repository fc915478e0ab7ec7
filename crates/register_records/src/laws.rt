//! Laws of tables.

ghost use Rattle.register_records.specs.Laws.{CellsReadBack, EveryTextHasTable, NoLossIsSealed, OneFate, OneTable};
ghost use Rattle.register_records.specs.Laws.{TablesGrow};
ghost use Rattle.register_records.specs.Outcomes.{IsRowOf, TableRow};
ghost use Rattle.register_records.specs.Seen.{entry_seen};
ghost use Rattle.register_records.specs.Views.{targets_of};

use crate::converting::convert;
use crate::entries::Entry;
use crate::setups::Setup;
use date_texts::laws::{canonical_texts_read_back, one_calendar, one_cell, one_date_text};

/// A text has at most one table: at most one list of entries, and for each list of targets at most one
/// list of rows.
pub fn one_table()
    ensures { OneTable }
{
    one_calendar();
    one_date_text();
    one_cell();
}

/// Every entry has a row, for the targets of every setup.
pub fn every_entry_has_row(entry: Entry, setup: &Setup)
    ensures { (row : TableRow) × IsRowOf (targets_of setup.now) (entry_seen entry) row }
{
    convert(entry, setup);
}

/// An accepted text has a table, for every list of targets.
pub fn every_text_has_table()
    ensures { EveryTextHasTable }
{}

/// A cell of a calendar, unless it is empty, gives its day again where it stands in a record as a date of that
/// calendar.
pub fn cells_read_back()
    ensures { CellsReadBack }
{
    canonical_texts_read_back();
}

/// The table of rows and one more is the table of the rows and then the line of the last; and the journal
/// gains its note.
pub fn tables_grow()
    ensures { TablesGrow }
{}

/// Where one or more of the records of an accepted sealed text are taken out, wherever they stand, what is
/// left is not accepted.
#[tactic(auto, using(crate::proofs::NoLossLemmas::no_loss))]
pub fn no_loss_is_sealed()
    ensures { NoLossIsSealed }
{}

/// A text is accepted, or it has no accepted header, or too many records, or it is not sealed as its form wants it: one
/// of these, and no other.
#[tactic(auto, using(crate::proofs::OneFateLemmas::one_fate))]
pub fn one_fate()
    ensures { OneFate }
{}
