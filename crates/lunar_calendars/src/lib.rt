//! The arithmetic Islamic calendar and the Hebrew calendar, as calendars over fixed day numbers.
//!
//! Both count years from 1 on and have no date before their first day. The rules are those of Reingold
//! and Dershowitz, *Calendrical Calculations*.
#![tactic(auto)]

mod hebrew;
mod islamic;

pub use hebrew::{Hebrew, hebrew_new_year, hebrew_year_length};
pub use islamic::Islamic;
