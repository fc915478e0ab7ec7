//! What days are called in the church year, what a column has of these names, and that texts which say them are read as
//! their dates.
#![tactic(auto)]

mod cells;
mod day_names;
pub mod laws;
mod names;

pub use cells::church_cell;
pub use names::name_on;
