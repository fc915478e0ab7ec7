//! Texts that say no single day: months, years, ranges, and what lies before or after them. Each says a first and a last
//! day, as date texts of registers; and texts of EDTF, the extended date format of ISO 8601-2, for these.
#![tactic(auto)]

mod brackets;
mod cuts;
mod edtf;
mod ends;
mod extents;
mod feast_sides;
mod items;
pub mod laws;
mod months;
mod sayings;
mod spans;
mod styles;

pub use edtf::{Sense, write_edtf};
pub use ends::Numbers;
pub use sayings::Kind;
pub use spans::{Marks, write_span};
pub use styles::{date_in_both, write_in_both};
