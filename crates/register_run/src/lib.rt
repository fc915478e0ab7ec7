//! Many registers converted at once, each by threads of its own.
//!
//! A source has a reader and one to four converters, each on a thread of its own, and the calling thread writes. They
//! are joined by lanes: the reader sends the entries to the converters by turns, each converter sends on the row of
//! each entry, and the calling thread takes the rows by the same turns and writes them. When the threads have been
//! joined, each lane is confirmed, and only then is a source called whole. [`run`] converts a list of sources.
#![tactic(auto)]

mod converting;
mod ended_sources;
mod gates;
pub mod laws;
mod reading;
mod reports;
mod running;
mod running_sources;
mod stripes;
mod turns;

pub use gates::{Gate, Open};
pub use reports::{Ran, Report, RunFault, RunFaultKind, Verdict};
pub use running::{MAX_SOURCES, run, run_gated};
