//! What the arguments of the program `register-sheet` ask for, and what is wrong with them.
#![tactic(auto)]

mod column_lists;
mod help;
mod option_values;
mod requests;
mod three_columns;

pub use help::{ARGUMENTS, HELP, page_of_help};
pub use requests::{CalendarsAsked, Job, NAME, VERSION, command, read_request};
pub use three_columns::ThreeColumns;
