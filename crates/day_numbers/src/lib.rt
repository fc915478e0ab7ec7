//! Fixed day numbers, weekdays, and what an arithmetic calendar is.
//!
//! A day is named by its fixed day number (R.D.) of Reingold and Dershowitz, *Calendrical
//! Calculations*: R.D. 1 is Monday, 1 January of year 1 of the proleptic Gregorian calendar. A calendar
//! is an [`ArithmeticCalendar`]: its dates and the days are matched one to one. Most calendars are
//! given by rules, where their years begin and how long their months are: the modules [`rules`],
//! [`from_year_one`] and [`by_rules`] make a calendar of such rules, with its proofs.
#![tactic(auto)]

pub mod by_rules;
mod calendar;
mod day;
pub mod from_year_one;
pub mod rules;
mod ymd;

pub use calendar::{ArithmeticCalendar, DateFault};
pub use day::{Day, Weekday};
pub use ymd::Ymd;
