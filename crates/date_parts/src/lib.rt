//! Sheets whose dates stand in three columns, with their years, months and days: the same sheet with one column more,
//! of the dates.
#![tactic(auto)]

mod joined_sheets;
mod joining;
mod places;

pub use joining::joined_sheet;
pub use places::DatePlaces;
