//! Roman dates as text: a year, a month and the Roman name of a day.

ghost use Rattle.std.specs.Prelude.{◌≡◌, ◌↔◌, ◌≤◌, ◌+◌, ◌∷◌, length, IfSome, Some};
ghost use Rattle.std.specs.Fmt.{decimal};
ghost use Rattle.day_numbers.specs.Dates.{IsYear};
ghost use Rattle.solar_calendars.specs.Roman.{count_of};
ghost use Rattle.date_texts.specs.declared.calendar.Calendar.TheVariants.{Roman};
ghost use Rattle.date_texts.specs.declared.cells.TheConstants.{MAX_CELL};
ghost use Rattle.date_texts.specs.declared.date.Date.{Date};
ghost use Rattle.date_texts.specs.DateText.{SaysDate, canonical_text};
ghost use Rattle.date_texts.specs.RomanText.{canonical_name};
ghost use Rattle.date_texts.specs.Buffers.{IsPut};
ghost use Rattle.date_texts.specs.private.RomanReading.{count_at as count_spec, counted_at as counted_spec};
ghost use Rattle.date_texts.specs.private.RomanReading.{name_at as name_spec};
ghost use Rattle.date_texts.specs.private.RomanReading.{roman_at as roman_spec};

use crate::buffer::put_year;
use crate::date::Date;
use crate::decimals::{put_short, put_two_digits};
use crate::numerals::{after_byte, at_end, number_at, year_at};
use crate::pieces::{put_byte, put_text};
use solar_calendars::{RomanDate, RomanName};

/// The count that the bytes spell, of one or two digits.
#[tactic(auto, unfolding(crate::specs::private::RomanReading::count_at))]
fn count_at(bytes: &[u8]) -> Option<u8>
    ensures value { result ≡ count_spec bytes.now }
    ensures small { IfSome result (λ count. count ≤ 99) }
{
    let (count, rest) = number_at(1, bytes)?;
    at_end(rest, count as u8)
}

/// The name of a day that the bytes spell by a letter and a count.
#[tactic(auto, unfolding(crate::specs::private::RomanReading::counted_at))]
fn counted_at(bytes: &[u8]) -> Option<RomanName>
    ensures value { result ≡ counted_spec bytes.now }
    ensures small { IfSome result (λ name. count_of name ≤ 99) }
{
    let [letter, count @ ..] = bytes else {
        return None;
    };
    match letter.to_ascii_lowercase() {
        b'k' => Some(RomanName::Kalends(count_at(count)?)),
        b'n' => Some(RomanName::Nones(count_at(count)?)),
        b'i' => Some(RomanName::Ides(count_at(count)?)),
        _ => None,
    }
}

/// The name of a day that the bytes spell.
#[tactic(auto, unfolding(crate::specs::private::RomanReading::name_at))]
fn name_at(bytes: &[u8]) -> Option<RomanName>
    ensures value { result ≡ name_spec bytes.now }
    ensures small { IfSome result (λ name. count_of name ≤ 99) }
{
    if bytes.eq_ignore_ascii_case(b"K6B") {
        return Some(RomanName::SecondSixth);
    }
    counted_at(bytes)
}

/// The year, month and name of a day that the bytes spell.
#[tactic(auto, unfolding(crate::specs::private::RomanReading::roman_at, crate::specs::private::Reading::part_at))]
fn roman_at(bytes: &[u8]) -> Option<(i32, u8, RomanName)>
    ensures value { result ≡ roman_spec bytes.now }
    ensures near { IfSome result (λ d. IsYear d.0 × (d.1 ≤ 99) × (count_of d.2 ≤ 99)) }
{
    let (year, rest) = year_at(bytes)?;
    let (month, rest) = number_at(1, after_byte(b'-', rest)?)?;
    let name = name_at(after_byte(b'-', rest)?)?;
    Some((year, month as u8, name))
}

/// The Roman date that a text without blanks at its ends says.
pub fn roman_date_at(text: &[u8]) -> Option<Date>
    ensures { (date : Date) → (result ≡ Some date) ↔ SaysDate Roman text.now date }
{
    let (year, month, name) = roman_at(text)?;
    let date = RomanDate::new(year, month, name)?;
    Some(Date::Roman(date))
}

/// Writes a letter and a count.
#[inline(always)]
#[tactic(auto, using(crate::proofs::DigitLemmas::one_or_two))]
fn put_count(buffer: &mut [u8], at: usize, letter: u8, count: u8) -> usize
    requires room { at + 3 ≤ length buffer.old }
    requires small { count ≤ 99 }
    ensures value { IsPut buffer.old buffer.new at result (letter ∷ decimal count) }
    ensures few { result ≤ at + 3 }
{
    let after = put_byte(buffer, at, letter);
    put_short(buffer, after, count)
}

/// Writes the name of a day.
#[inline(always)]
fn put_name(buffer: &mut [u8], at: usize, name: RomanName) -> usize
    requires room { at + 3 ≤ length buffer.old }
    requires small { count_of name ≤ 99 }
    ensures value { IsPut buffer.old buffer.new at result (canonical_name name) }
    ensures few { result ≤ at + 3 }
{
    match name {
        RomanName::Kalends(count) => put_count(buffer, at, b'K', count),
        RomanName::Nones(count) => put_count(buffer, at, b'N', count),
        RomanName::Ides(count) => put_count(buffer, at, b'I', count),
        RomanName::SecondSixth => put_text(buffer, at, "K6B"),
    }
}

/// Writes a Roman date to the front.
#[inline(always)]
pub fn put_roman(buffer: &mut [u8], date: RomanDate) -> usize
    requires { MAX_CELL ≤ length buffer.old }
    ensures value { IsPut buffer.old buffer.new 0 result (canonical_text (Date.Roman date)) }
    ensures few { result ≤ MAX_CELL }
{
    let after = put_year(buffer, date.year());
    let after = put_byte(buffer, after, b'-');
    let after = put_two_digits(buffer, after, date.month());
    let after = put_byte(buffer, after, b'-');
    put_name(buffer, after, date.name())
}
