//! What the program `register` does with its arguments, over any streams and any store of files. The program itself is
//! the crate `register`, which hands this its arguments, its standard streams and the files of the system.
#![tactic(auto)]

mod naming;
mod program;
mod program_faults;
mod reporting;

pub use program::{Outcome, answer};
pub use programs::{COMPLETE, INCOMPLETE};
