//! Family trees: the dates of a text in GEDCOM, as genealogy programs save it, each with what it is the date of.
//!
//! [`dates_of`] finds each line `DATE` of a record, once and in order, and [`tree_sheet`] writes them as a sheet;
//! [`own_tree_sheet`] leaves out those of the file itself.
#![tactic(auto)]

mod date_values;
mod dates;
mod lines;
mod own_dates;
mod tree_sheets;
mod trees;
mod values;

pub use dates::{TreeDate, dates_of};
pub use own_dates::is_tree;
pub use tree_sheets::{own_tree_sheet, tree_sheet};
pub use values::Text;
