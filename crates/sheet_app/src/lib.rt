//! What the program `register-sheet` does with its arguments, over any streams and any store of files. The program itself
//! is the crate `register_sheet`, which hands this its arguments, its standard streams, the files of the system and the
//! built-in list of names.
#![tactic(auto)]

mod calendar_words;
mod columns;
mod conversions;
mod converting;
mod file_sheets;
mod joined_texts;
mod name_lists;
mod prepared;
mod program;
mod program_faults;
mod reports;
mod sheet_faults;
mod tree_texts;

pub use converting::EndedSheet;
pub use program::{Outcome, Streams, answer};
pub use programs::{COMPLETE, INCOMPLETE};
