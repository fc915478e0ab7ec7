//! Dates as people write them, and the date texts of registers that they become.
#![tactic(auto)]

mod calendars;
mod feast_rules;
mod fields;
mod items;
mod joining;
mod keyed_names;
pub mod laws;
mod meanings;
mod names;
mod parts;
mod roman;
mod rules;
mod signs;
mod stops;
mod times;
mod tokens;
mod unknown;
mod weekdays;
mod whole_names;
mod words;
mod written;

pub use calendars::{Form, form_of};
pub use fields::{CalendarMeaning, CalendarName, CalendarNames, without_blanks};
pub use items::{Item, Number, is_long, is_of_calendar, items_of};
pub use joining::{count_bars, has_mixed_signs, has_other_signs_between, is_bar};
pub use meanings::{Calendars, Era, Mark, Meaning, Name, Relation, Word};
pub use names::{Names, is_name};
pub use roman::roman_number;
pub use rules::{InYear, Order, Reading, beside_weekday, is_year_first, plain_of};
pub use signs::{bare, is_blank, is_dash, runs_behind_minus, signs_of};
pub use stops::{Stop, date_beside_weekday, stop_of};
pub use tokens::{Kind, Token, next_token};
pub use unknown::unknown_word;
pub use words::is_same_word;
pub use written::{
    Answer, Choice, Short, agrees, answer_of, dated_text, has_year, is_found, is_half_year,
    push_answer, push_dated, push_stood, short_rule, standing, write_date,
};
