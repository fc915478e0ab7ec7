//! The words of the options.

ghost use Rattle.std.specs.Prelude.{◌≡◌, option_map};
ghost use Rattle.std.specs.Str.{bytes_eq, str_to_ascii_lowercase};
ghost use Rattle.sheet_arguments.specs.OptionValues.{century_of, order_of, other_word as other_spec};
ghost use Rattle.sheet_arguments.specs.OptionValues.{short_hebrew_of, short_of, skip_of};

use programs::{OptionWords, number_named};
use written_dates::{Order, Short};

/// The last century that may be added to short years.
const LAST_CENTURY: usize = 2000;

/// How many years a century has.
const CENTURY: usize = 100;

/// The most records above the names.
pub(crate) const MOST_ABOVE: usize = 99_999;

/// In which order three numbers stand, by `--order`.
pub enum OrderWords {}

/// Whether a text is this word, in letters of any case.
fn is_caseless(text: &str, word: &str) -> bool
    ensures { result ≡ bytes_eq (str_to_ascii_lowercase text.now) (str_to_ascii_lowercase word.now) }
{
    text.eq_ignore_ascii_case(word)
}

impl OptionWords for OrderWords {
    type Value = Order;

    ghost value_of = { order_of };

    fn named(word: &str) -> Option<Order> {
        if is_caseless(word, "year") {
            Some(Order::YearFirst)
        } else if is_caseless(word, "day") {
            Some(Order::DayFirst)
        } else if is_caseless(word, "month") {
            Some(Order::MonthFirst)
        } else {
            None
        }
    }
}

/// What is done with short years, by `--short-years`.
pub enum ShortYears {}

/// The century that a word names: 100, 200 and so on to 2000.
fn century_named(word: &str) -> Option<u32>
    ensures { result ≡ century_of word.now }
{
    let Some(years) = number_named(word, LAST_CENTURY) else {
        return None;
    };
    if years % CENTURY == 0 {
        Some(years as u32)
    } else {
        None
    }
}

impl OptionWords for ShortYears {
    type Value = Short;

    ghost value_of = { short_of };

    fn named(word: &str) -> Option<Short> {
        if word == "refuse" {
            return Some(Short::Refuse);
        }
        if word == "keep" {
            return Some(Short::Keep);
        }
        match century_named(word) {
            Some(years) => Some(Short::Add(years)),
            None => None,
        }
    }
}

/// What is done with short Hebrew years, by `--short-hebrew-years`.
pub enum ShortHebrewYears {}

impl OptionWords for ShortHebrewYears {
    type Value = Short;

    ghost value_of = { short_hebrew_of };

    fn named(word: &str) -> Option<Short> {
        match word {
            "refuse" => Some(Short::Refuse),
            "keep" => Some(Short::Keep),
            "5000" => Some(Short::Add(5000)),
            _ => None,
        }
    }
}

/// How many records stand above the names, by `--skip`.
pub enum Skip {}

impl OptionWords for Skip {
    type Value = u32;

    ghost value_of = { skip_of };

    fn named(word: &str) -> Option<u32> {
        if word == "0" {
            return Some(0);
        }
        match number_named(word, MOST_ABOVE) {
            Some(count) => Some(count as u32),
            None => None,
        }
    }
}

/// The word that counts for short years of other calendars: the one for them, and without it `keep`, where that stands
/// for short years.
pub fn other_word<'a>(word: Option<&'a str>, years: Option<&'a str>) -> Option<&'a str>
    ensures { option_map (λ w. w.now) result
        ≡ other_spec (option_map (λ w. w.now) word.entry) (option_map (λ w. w.now) years.entry) }
{
    match (word, years) {
        (None, Some(rule)) if rule == "keep" => Some(rule),
        (word, _) => word,
    }
}
