//! The canonical texts of dates.

ghost use Rattle.std.specs.Prelude.{◌≡◌, ◌≤◌, length};
ghost use Rattle.date_texts.specs.declared.date.Date.{Date};
ghost use Rattle.date_texts.specs.declared.buffer.TheConstants.{MAX_TEXT};
ghost use Rattle.date_texts.specs.DateText.{canonical_text};
ghost use Rattle.date_texts.specs.Buffers.{IsPut};

use crate::buffer::{MAX_TEXT, text_of};
use crate::civil_text::put_civil;
use crate::date::Date;
use crate::long_text::put_long;
use crate::roman_text::put_roman;
use arrayvec::ArrayString;

/// Writes a date to the front.
#[inline(always)]
#[tactic(auto, using(crate::proofs::CellLemmas::text_room))]
fn put_date(buffer: &mut [u8], date: Date) -> usize
    requires { MAX_TEXT ≤ length buffer.old }
    ensures value { IsPut buffer.old buffer.new 0 result (canonical_text date) }
    ensures few { result ≤ MAX_TEXT }
{
    match date {
        Date::Civil(civil) => put_civil(buffer, civil.calendar().grammar(), civil.ymd()),
        Date::Long(count) => put_long(buffer, count),
        Date::Roman(date) => put_roman(buffer, date),
    }
}

/// The canonical text of a date. Read in the date's calendar, it is the same date again
/// ([`canonical_texts_read_back`](crate::laws::canonical_texts_read_back)).
///
/// A year has at least four digits, after a minus sign where it is negative, a month, a week and a day have at least
/// two, and dashes join them. A week date has the letter W before the week, and no leading zero in the weekday. A long
/// count has five places without leading zeros, joined by dots. A Roman date has the name of a day in the place of the
/// day, in capital letters, with a count without leading zeros.
///
/// # Examples
///
/// ```
/// let ides_of_march = read_date(Calendar::Julian, "-44-3-15")?;
/// assert_eq!(rt; write_date(&ides_of_march).as_str(), "-0044-03-15");
/// let week_date = read_date(Calendar::Iso, "2004-w53-6")?;
/// assert_eq!(rt; write_date(&week_date).as_str(), "2004-W53-6");
/// ```
#[tactic(auto, using(crate::proofs::CanonicalTextLemmas::canonical_plain))]
pub fn write_date(date: &Date) -> ArrayString<MAX_TEXT>
    ensures { result.bytes ≡ canonical_text date.now }
{
    let mut buffer = [0; MAX_TEXT];
    let len = put_date(&mut buffer, *date);
    text_of(&buffer[..len])
}
