//! Long counts as text: five places, joined by dots.

ghost use Rattle.std.specs.Prelude.{◌≡◌, ◌↔◌, ◌≤◌, ◌<◌, ◌+◌, ◌∷◌, IfSome, Some, length};
ghost use Rattle.std.specs.Fmt.{decimal};
ghost use Rattle.maya_calendars.specs.Places.{ArePlaces};
ghost use Rattle.date_texts.specs.declared.calendar.Calendar.TheVariants.{Longcount};
ghost use Rattle.date_texts.specs.declared.date.Date.{Date};
ghost use Rattle.date_texts.specs.DateText.{SaysDate, canonical_text};
ghost use Rattle.date_texts.specs.Buffers.{IsPut};
ghost use Rattle.date_texts.specs.private.LongText.{place_row as place_row_of};
ghost use Rattle.date_texts.specs.private.LongReading.{long_at as long_spec, place_at as place_spec};
ghost use Rattle.date_texts.specs.private.Reading.{seen_number};

use crate::date::Date;
use crate::decimals::put_number;
use crate::numerals::{after_byte, at_end, number_at};
use crate::pieces::put_byte;
use maya_calendars::LongCount;

/// A place of a long count, and the bytes after the dot behind it.
#[inline(always)]
#[tactic(auto, unfolding(crate::specs::private::LongReading::place_at, crate::specs::private::Reading::part_at))]
fn place_at(bytes: &[u8]) -> Option<(u16, &[u8])>
    ensures value { seen_number result ≡ place_spec bytes.now }
    ensures small { IfSome result (λ r. r.0 ≤ 9_999) }
{
    let (place, rest) = number_at(3, bytes)?;
    Some((place as u16, after_byte(b'.', rest)?))
}

/// The five places of a long count that the bytes spell.
#[tactic(auto, unfolding(crate::specs::private::LongReading::long_at))]
fn long_at(bytes: &[u8]) -> Option<(u16, u16, u16, u16, u16)>
    ensures value { result ≡ long_spec bytes.now }
    ensures near { IfSome result (λ c. ArePlaces c.0 c.1 c.2 c.3 c.4) }
{
    let (baktun, rest) = place_at(bytes)?;
    let (katun, rest) = place_at(rest)?;
    let (tun, rest) = place_at(rest)?;
    let (uinal, rest) = place_at(rest)?;
    let (kin, rest) = number_at(3, rest)?;
    at_end(rest, (baktun, katun, tun, uinal, kin as u16))
}

/// The long count that a text without blanks at its ends says.
pub fn long_date_at(text: &[u8]) -> Option<Date>
    ensures { (date : Date) → (result ≡ Some date) ↔ SaysDate Longcount text.now date }
{
    let (baktun, katun, tun, uinal, kin) = long_at(text)?;
    let count = LongCount::new(baktun, katun, tun, uinal, kin)?;
    Some(Date::Long(count))
}

/// A dot and each place under 20, with blanks to three bytes, and how many bytes the two have.
#[rattlefmt::skip]
static PLACES: [[u8; 4]; 20] = [
    *b".0 \x02", *b".1 \x02", *b".2 \x02", *b".3 \x02", *b".4 \x02",
    *b".5 \x02", *b".6 \x02", *b".7 \x02", *b".8 \x02", *b".9 \x02",
    *b".10\x03", *b".11\x03", *b".12\x03", *b".13\x03", *b".14\x03",
    *b".15\x03", *b".16\x03", *b".17\x03", *b".18\x03", *b".19\x03",
];

/// The row of a place in this table.
#[inline(always)]
fn place_row(place: u16) -> &'static [u8; 4]
    requires { place < 20 }
    ensures { result.now ≡ place_row_of place }
{
    &PLACES[place as usize]
}

/// Writes a dot and a place of a long count. For a place under 20 four bytes are written, of which the last one or two
/// are no part of the text.
#[inline(always)]
#[tactic(auto, using(crate::proofs::CellLemmas::four_digits))]
fn put_place(buffer: &mut [u8], at: usize, place: u16) -> usize
    requires room { at + 5 ≤ length buffer.old }
    requires small { place ≤ 9_999 }
    ensures { IsPut buffer.old buffer.new at result (46 ∷ decimal place) }
{
    if place < 20 {
        // The whole row is written, and the next place over what lies behind this one.
        let row = place_row(place);
        let second = put_byte(buffer, at, row[0]);
        let third = put_byte(buffer, second, row[1]);
        let fourth = put_byte(buffer, third, row[2]);
        put_byte(buffer, fourth, row[3]);
        return at + row[3] as usize;
    }
    let after = put_byte(buffer, at, b'.');
    put_number(buffer, after, place)
}

/// Writes a long count to the front. Up to two bytes behind it are overwritten.
#[inline(always)]
pub fn put_long(buffer: &mut [u8], count: LongCount) -> usize
    requires { length (canonical_text (Date.Long count)) + 4 ≤ length buffer.old + length (decimal count.kin) }
    ensures { IsPut buffer.old buffer.new 0 result (canonical_text (Date.Long count)) }
{
    let after = put_number(buffer, 0, count.baktun());
    let after = put_place(buffer, after, count.katun());
    let after = put_place(buffer, after, count.tun());
    let after = put_place(buffer, after, count.uinal());
    put_place(buffer, after, count.kin())
}
