//! The names of calendars, dates as text, and the cells of a table.
//!
//! A date text is read where the grammar of its calendar has it and written in one canonical form, which
//! is read back as the same date. A cell is the canonical text of a day in a calendar, or the name of a
//! day in the haab or the tzolkin. Short texts and small numbers are put into a buffer, one piece behind the other.
#![tactic(auto)]

mod buffer;
mod calendar;
mod cells;
mod civil_text;
mod comparing;
mod copying;
mod date;
mod days;
mod decimals;
mod grammar;
pub mod laws;
mod long_text;
mod names;
mod numerals;
mod pieces;
mod read;
mod refusal;
mod roman_text;
mod target;
mod trim;
mod write;

pub use buffer::MAX_TEXT;
pub use calendar::Calendar;
pub use cells::{MAX_CELL, cell, write_cell, write_cell_within};
pub use comparing::{WORD_LEN, are_equal, word};
pub use copying::copy_to_front;
pub use date::{CivilDate, Date};
pub use days::day_of_date;
pub use decimals::{put_decimal, put_integer, put_number, put_short, put_two_digits};
pub use maya_calendars::LongCount;
pub use names::{calendar_named, target_named};
pub use pieces::{put_byte, put_bytes, put_text};
pub use read::read_date;
pub use refusal::Refusal;
pub use solar_calendars::{RomanDate, RomanName};
pub use target::{MAX_TARGETS, Target};
pub use trim::trimmed;
pub use write::write_date;
