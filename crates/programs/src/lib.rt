//! What the programs share: how options, flags and files are taken and found, what their words mean, that arguments mean
//! one thing, and the statuses of what is done; what a program reads and writes: the files of a command line, the
//! standard streams, and a log of what each output has taken.
#![tactic(auto)]

mod arguments;
mod disk;
mod file_store;
mod files;
mod logged_writer;
mod opening;
mod own_lines;
mod pages;
mod places;
mod refusals;
mod request_faults;
mod requests;
mod starting;
mod statuses;
mod terminal;
mod values;

pub use arguments::{
    Argument, Kind, Value, are_given, command_with, is_given, value_given, values_given,
};
pub use disk::{Destination, Disk, Exclusive, Source};
pub use file_store::{FileStore, is_of_output, share_file};
pub use files::{MAX_FILES, check_files};
pub use logged_writer::LoggedWriter;
pub use opening::{FileFault, Opened, open_files, output_name};
pub use own_lines::{OUT_OF_MEMORY, own_line, report_out_of_memory, version_line};
pub use pages::{Help, Page, print_page};
pub use places::Place;
pub use refusals::{Refusal, report_refusal};
pub use request_faults::RequestFault;
pub use requests::{Request, read_arguments};
pub use starting::{arguments_of, end_without_memory, open_nothing, unread_arguments};
pub use statuses::{COMPLETE, INCOMPLETE, NOT_BEGUN, REFUSED};
pub use terminal::{Lines, lines_to};
pub use values::{Delimiter, NumberTo, OptionWords, chosen, chosen_word, number_named};
