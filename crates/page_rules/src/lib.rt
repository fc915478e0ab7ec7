//! What a page asks for, with no file and no thread: a register converted into memory that the caller lends; the day and
//! the calendar of each of its records, in numbers, and the order of entries by their days; the fields of a text's
//! records at places, the text of fields, and the records of a text in another order. All CSV is read and written by
//! `csv`.
#![tactic(auto)]

mod converting;
mod day_orders;
mod day_rooms;
mod entry_days;
mod field_lists;
mod lines;
mod orders;
mod picking;
mod registers;
mod requests;
mod rooms;
mod writing;

pub use converting::{Converted, convert_text};
pub use day_orders::{NO_DAY, day_order, sorting_days};
pub use day_rooms::put_days;
pub use entry_days::{EntryDay, NO_CALENDAR};
pub use orders::{OrderFault, records_in_order};
pub use picking::{PickFault, Picked, pick};
pub use registers::register_days;
pub use requests::RequestFault;
pub use rooms::{bytes_for, copy_if_fits};
pub use writing::{WriteFault, write};
