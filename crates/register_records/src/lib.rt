//! The records of a register and its table.
//!
//! A source is a CSV text: a header `id,calendar,date` and records of three fields. Its table has one
//! row for each record, in order: the day, its weekday and its dates in the calendars asked, or the
//! number of the refusal. [`convert_source`] makes the table of a text on the caller's thread.
//!
//! A sealed register has a fourth column, `note`, and after its entries a seal: the record `END` and the
//! number of the entries. A text without it was cut off.
#![tactic(auto)]

mod causes;
mod converting;
mod ends;
mod entries;
mod entry_logs;
pub mod faults;
mod flush_tokens;
mod header;
pub mod laws;
mod lines;
mod outputs;
mod reading;
mod record_fields;
mod refusal_counts;
mod retrying;
mod row_lines;
mod row_tails;
mod rows;
mod seals;
mod setups;
mod short_lists;
mod sources;
mod table_columns;
mod tables;
mod target_lists;
mod writing;

pub use converting::convert;
pub use ends::{Cause, Note, SourceEnd};
pub use entries::{Body, CALENDAR_LIMIT, DATE_LIMIT, Entry, ID_LIMIT, MAX_RECORDS, NOTE_LIMIT};
pub use lines::LineBuffer;
pub use outputs::{Output, OutputFault, PlainOutput, send};
pub use reading::{EntryFault, EntryReader};
pub use refusal_counts::RefusalCounts;
pub use row_lines::LINE_ROOM;
pub use row_tails::TAIL_ROOM;
pub use rows::Row;
pub use setups::{Form, MAX_RING, MAX_STRIPES, Setup, SetupFault};
pub use sources::convert_source;
pub use tables::Table;
pub use writing::{MOST_WAITING, RowFault, RowWriter};
