//! Date texts, read by the grammar of each calendar.

ghost use Rattle.std.specs.Prelude.{◌≡◌, ◌↔◌, IfErr, Some, Ok, Err};
ghost use Rattle.date_texts.specs.declared.date.Date.{Date};
ghost use Rattle.date_texts.specs.DateText.{SaysDate, IsDateText};

use crate::calendar::Calendar;
use crate::civil_text::civil_date_at;
use crate::date::Date;
use crate::grammar::Grammar;
use crate::long_text::long_date_at;
use crate::refusal::Refusal;
use crate::roman_text::roman_date_at;
use crate::trim::trimmed;

/// The date that a text without blanks at its ends says in a calendar.
#[inline(always)]
fn date_at(calendar: Calendar, text: &[u8]) -> Option<Date>
    ensures { (date : Date) → (result ≡ Some date) ↔ SaysDate calendar text.now date }
{
    let grammar = calendar.grammar();
    match grammar {
        Grammar::Civil | Grammar::Week => civil_date_at(calendar, grammar, text),
        Grammar::LongCount => long_date_at(text),
        Grammar::Roman => roman_date_at(text),
    }
}

/// The date that a text says in a calendar.
///
/// Spaces and tabs at both ends are taken off. In most calendars a text is a year, a month and a day: the year has one
/// to five digits, after a minus sign where it is negative, the month and the day have one or two, and dashes join
/// them. A week date is a year, a week and a weekday, written in the same way, with the letter W of either case before
/// the week. A long count is five places of one to four digits, joined by dots. A Roman date is a year, a month and
/// the name of a day: the letter K, N or I with a count of one or two digits, or K6B, in letters of either case.
/// Leading zeros are allowed in numbers, but not in K6B. The date need not be one that the calendar has. The grammar is
/// this project's own, after the calendar dates and week dates of ISO 8601.
///
/// # Errors
///
/// `DateText` exactly where the text is not in this grammar, and no other refusal.
///
/// # Examples
///
/// ```
/// let date = read_date(Calendar::Julian, " 1582-10-5 ")?;
/// assert_eq!(rt; day_of_date(&date)?.number(), 577_736);
/// let slashed = read_date(Calendar::Julian, "1582/10/05");
/// assert_eq!(rt; slashed, Err(Refusal::DateText));
/// ```
#[inline(always)]
pub fn read_date(calendar: Calendar, text: &str) -> Result<Date, Refusal>
    ensures value { (date : Date) → (result ≡ Ok date) ↔ IsDateText calendar text.now date }
    ensures refused { (result ≡ Err Refusal.DateText) ↔ ((date : Date) → ¬ (IsDateText calendar text.now date)) }
    ensures only_refusal { IfErr result (λ refusal. refusal ≡ Refusal.DateText) }
{
    date_at(calendar, trimmed(text.as_bytes())).ok_or(Refusal::DateText)
}
