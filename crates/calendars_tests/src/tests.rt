//! Known dates and days, and walks from day to day or from month to month.

mod dates;
mod days;
mod examples;
mod feasts;
mod french_years;
mod maya;
mod months;
mod new_years;
mod roman;
mod table;
