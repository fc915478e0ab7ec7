//! The Mayan long count, haab and tzolkin.
//!
//! A day of the long count is R.D. -1137142 and a weighted sum of five places; the haab and the tzolkin
//! are names that move one place on in their rounds from each day to the next, and that each day has,
//! also before the long count begins (Reingold and Dershowitz, *Calendrical Calculations*).
#![tactic(auto)]

mod epoch;
mod haab;
pub mod laws;
mod long_count;
mod long_days;
mod round;
mod tzolkin;

pub use haab::{Haab, haab_on};
pub use long_count::LongCount;
pub use long_days::{long_day_of, long_on};
pub use tzolkin::{Tzolkin, tzolkin_on};
