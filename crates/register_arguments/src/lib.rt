//! What the arguments ask for, and what is wrong with them.
#![tactic(auto)]

mod fittings;
mod help;
mod jobs;
mod option_values;
mod requests;

pub use fittings::{Fit, fitting};
pub use help::{ARGUMENTS, HELP, page_of_help};
pub use jobs::Job;
pub use option_values::NO_TARGET;
pub use programs::MAX_FILES;
pub use requests::{NAME, VERSION, command, read_request};
