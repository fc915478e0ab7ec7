//! Sheets: the fields of their records, and texts of records. All CSV is read by `csv`, and written in a buffer as `csv`
//! would write it; what a caller gives and gets are values.
//!
//! [`convert_sheet`] writes a sheet with the columns of its dates' rows behind it, [`write_register`] the register of a
//! column of dates, and [`unknown_names`] finds the names that are not known.
#![tactic(auto)]

mod asked;
mod asked_of_sheets;
mod calendar_changes;
mod choices;
mod converting;
mod date_counts;
mod date_marks;
mod end_texts;
mod feast_names;
pub mod laws;
mod line_writers;
mod lines;
mod met_calendars;
mod name_calendars;
mod name_lists;
mod name_meanings;
mod new_headings;
mod no_outputs;
mod own_calendars;
mod own_fields;
mod reading;
mod reasons;
mod record_lines;
mod record_logs;
mod register_fields;
mod registers;
mod sending;
mod sheet_ends;
mod sheet_notes;
mod sheet_reader;
mod sheet_readings;
mod sheet_records;
mod sheet_tops;
mod sheet_writers;
mod stopped_dates;
mod stopped_names;
mod stops;
mod unread_dates;

pub use asked_of_sheets::{AskedByNames, AskedOfSheet};
pub use choices::{
    AskedColumn, CalendarColumn, CalendarField, ChoiceFault, DateColumn, End, IdField, MAX_COLUMNS,
    MAX_DATES, SheetChoice, SheetSetup, Spans,
};
pub use converting::{OutputsEnd, convert_outputs, convert_sheet};
pub use date_counts::{DateCounts, SheetCounts};
pub use name_lists::{NameLine, NameList, NameListFault};
pub use name_meanings::{Means, calendar_said};
pub use reading::{field_at, head_record, read_next, records_of};
pub use reasons::{Reason, ReasonCounts};
pub use registers::write_register;
pub use sheet_ends::{SheetCause, SheetEnd};
pub use stopped_dates::{Unknown, unknown_names};
pub use stopped_names::UnknownName;
pub use stops::{DateStop, NameStop, stop_in};
pub use unread_dates::UnreadDates;
