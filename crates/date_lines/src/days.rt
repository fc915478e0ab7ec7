//! What days are called.

use church_days::name_on;
use church_year::Church;
use day_numbers::Day;

/// The church that a line names.
fn church_of(name: &str) -> Option<Church> {
    match name {
        "julian" => Some(Church::Julian),
        "gregorian" => Some(Church::Gregorian),
        _ => None,
    }
}

/// What the day is called that a church and its number name, with a blank between them.
pub fn name_of(line: &str) -> Option<&'static str> {
    let (church, number) = line.split_once(' ')?;
    match number.parse::<i64>() {
        Ok(number) => name_on(church_of(church)?, Day::new(number)?),
        Err(_) => None,
    }
}
