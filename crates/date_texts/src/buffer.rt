//! What a date is written to a buffer by, and the text of the buffer.

ghost use Rattle.std.specs.Prelude.{◌≡◌, ◌≤◌, ◌<◌, ◌+◌, IsTrue, length};
ghost use Rattle.std.specs.List.{list_all};
ghost use Rattle.date_texts.specs.Buffers.{IsPut, padded};
ghost use Rattle.day_numbers.specs.Dates.{IsYear};
ghost use Rattle.date_texts.specs.declared.buffer.TheConstants.{MAX_TEXT};
ghost use Rattle.date_texts.specs.Cells.{is_plain};
ghost use Rattle.date_texts.specs.Numerals.{canonical_year};

use crate::decimals::put_two_digits;
use crate::pieces::put_byte;
use arrayvec::ArrayString;

/// The most bytes of a date's text: those of a long count of five times four digits.
pub const MAX_TEXT: usize = 24;

/// Writes the digits of a year.
#[inline(always)]
fn put_year_digits(buffer: &mut [u8], at: usize, number: u32) -> usize
    requires room { at + 5 ≤ length buffer.old }
    requires small { number < 100_000 }
    ensures value { IsPut buffer.old buffer.new at result (padded 4 number) }
    ensures few { result ≤ at + 5 }
{
    let (after, last) = if number < 10_000 {
        (at, number)
    } else {
        let after = put_byte(buffer, at, b'0' + (number / 10_000) as u8);
        (after, number % 10_000)
    };
    let after = put_two_digits(buffer, after, (last / 100) as u8);
    put_two_digits(buffer, after, (last % 100) as u8)
}

/// Writes a year to the front.
#[inline(always)]
pub fn put_year(buffer: &mut [u8], year: i32) -> usize
    requires room { 6 ≤ length buffer.old }
    requires near { IsYear year }
    ensures value { IsPut buffer.old buffer.new 0 result (canonical_year year) }
    ensures few { result ≤ 6 }
{
    let (at, number) = if year < 0 {
        (put_byte(buffer, 0, b'-'), year.unsigned_abs())
    } else {
        (0, year as u32)
    };
    put_year_digits(buffer, at, number)
}

/// The text of a few bytes, each of which is plain.
#[inline(always)]
pub fn text_of(bytes: &[u8]) -> ArrayString<MAX_TEXT>
    requires few { length bytes.now ≤ MAX_TEXT }
    requires plain { IsTrue (list_all is_plain bytes.now) }
    ensures { result.bytes ≡ bytes.now }
{
    let mut text = ArrayString::new();
    match str::from_utf8(bytes) {
        Ok(whole) => text.push_str(whole),
        Err(_) => unreachable!(),
    }
    text
}
