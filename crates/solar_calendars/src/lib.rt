//! Calendars of the sun: Gregorian, ISO week, Julian, Coptic, Ethiopic, Egyptian, Armenian, French and Republican, and
//! the Roman names of the days of the Julian calendar.
//!
//! Each calendar is a unit type with [`day_numbers::ArithmeticCalendar`], by the rules of Reingold and
//! Dershowitz, *Calendrical Calculations*, and for the week date of ISO 8601. The Gregorian calendar is
//! computed by `jiff` where it has the year. A [`RomanDate`] is not a year, a month and a day; [`roman_day_of`] and
//! [`roman_on`] do for it what the trait does for the others.
#![tactic(auto)]

mod centuries;
mod french;
mod gregorian;
mod iso_week;
mod julian;
pub mod laws;
mod roman;
mod roman_date;
mod thirteen_months;
mod twelve_months;

pub use gregorian::Gregorian;
pub use iso_week::IsoWeek;
pub use julian::Julian;
pub use roman::{roman_day_of, roman_on};
pub use roman_date::{RomanDate, RomanName};
pub use thirteen_months::{Armenian, Coptic, Egyptian, Ethiopic, French, Republican};
