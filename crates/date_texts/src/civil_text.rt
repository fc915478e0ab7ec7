//! Civil dates and week dates as text: a year, a month and a day, or a year, a week and a weekday.

ghost use Rattle.std.specs.Prelude.{◌≡◌, ◌↔◌, ◌≤◌, IfSome, Some, length};
ghost use Rattle.day_numbers.specs.Dates.{IsYmd};
ghost use Rattle.date_texts.specs.declared.cells.TheConstants.{MAX_CELL};
ghost use Rattle.date_texts.specs.declared.date.Date.{Date};
ghost use Rattle.date_texts.specs.Calendars.{IsCivil, grammar as grammar_spec};
ghost use Rattle.date_texts.specs.CivilText.{canonical_civil};
ghost use Rattle.date_texts.specs.DateText.{SaysDate};
ghost use Rattle.date_texts.specs.Buffers.{IsPut};
ghost use Rattle.date_texts.specs.private.CivilReading.{after_week_letter as after_letter_spec};
ghost use Rattle.date_texts.specs.private.CivilReading.{after_mark as after_mark_spec};
ghost use Rattle.date_texts.specs.private.CivilReading.{civil_at as civil_spec};
ghost use Rattle.date_texts.specs.private.Reading.{seen_rest};

use crate::buffer::put_year;
use crate::calendar::Calendar;
use crate::date::{CivilDate, Date};
use crate::decimals::{put_short, put_two_digits};
use crate::grammar::Grammar;
use crate::numerals::{after_byte, at_end, number_at, year_at};
use crate::pieces::put_byte;
use day_numbers::Ymd;

/// The bytes after the letter W, of either case, at the front.
#[tactic(auto, unfolding(crate::specs::private::CivilReading::after_week_letter))]
fn after_week_letter(bytes: &[u8]) -> Option<&[u8]>
    ensures { seen_rest result ≡ after_letter_spec bytes.now }
{
    match bytes {
        [b'W' | b'w', rest @ ..] => Some(rest),
        _ => None,
    }
}

/// The bytes after what stands before a week, the letter W, and before a month, nothing.
#[tactic(auto, unfolding(crate::specs::private::CivilReading::after_mark))]
fn after_mark(grammar: Grammar, bytes: &[u8]) -> Option<&[u8]>
    ensures { seen_rest result ≡ after_mark_spec grammar bytes.now }
{
    match grammar {
        Grammar::Civil => Some(bytes),
        Grammar::Week => after_week_letter(bytes),
        Grammar::LongCount | Grammar::Roman => None,
    }
}

/// The year, month and day that the bytes spell, or the year, week and weekday.
#[inline(always)]
#[tactic(auto, unfolding(crate::specs::private::CivilReading::civil_at, crate::specs::private::Reading::part_at))]
fn civil_at(grammar: Grammar, bytes: &[u8]) -> Option<(i32, u8, u8)>
    ensures value { result ≡ civil_spec grammar bytes.now }
    ensures near { IfSome result (λ d. IsYmd d.0 d.1 d.2) }
{
    let (year, rest) = year_at(bytes)?;
    let (month, rest) = number_at(1, after_mark(grammar, after_byte(b'-', rest)?)?)?;
    let (day, rest) = number_at(1, after_byte(b'-', rest)?)?;
    at_end(rest, (year, month as u8, day as u8))
}

/// The date that a text without blanks at its ends says in a calendar of civil or week dates, whose grammar this is.
#[inline(always)]
pub fn civil_date_at(calendar: Calendar, grammar: Grammar, text: &[u8]) -> Option<Date>
    requires own { grammar ≡ grammar_spec calendar }
    requires civil { IsCivil calendar }
    ensures { (date : Date) → (result ≡ Some date) ↔ SaysDate calendar text.now date }
{
    let (year, month, day) = civil_at(grammar, text)?;
    let ymd = Ymd::new(year, month, day)?;
    Some(Date::Civil(CivilDate { calendar, ymd }))
}

/// Writes a year, a month and a day, or a year, a week and a weekday, to the front.
#[inline(always)]
#[tactic(auto, using(crate::proofs::DigitLemmas::one_or_two))]
pub fn put_civil(buffer: &mut [u8], grammar: Grammar, date: Ymd) -> usize
    requires { MAX_CELL ≤ length buffer.old }
    ensures value { IsPut buffer.old buffer.new 0 result (canonical_civil grammar date.year date.month date.day) }
    ensures few { result ≤ MAX_CELL }
{
    let after = put_year(buffer, date.year());
    let after = put_byte(buffer, after, b'-');
    match grammar {
        Grammar::Week => {
            let after = put_byte(buffer, after, b'W');
            let after = put_two_digits(buffer, after, date.month());
            let after = put_byte(buffer, after, b'-');
            put_short(buffer, after, date.day())
        }
        Grammar::Civil | Grammar::LongCount | Grammar::Roman => {
            let after = put_two_digits(buffer, after, date.month());
            let after = put_byte(buffer, after, b'-');
            put_two_digits(buffer, after, date.day())
        }
    }
}
