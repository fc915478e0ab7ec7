//! A time of day at the end of a text.

ghost use Rattle.std.specs.Prelude.{◌≡◌};
ghost use Rattle.std.specs.Char.{is_ascii_digit};
ghost use Rattle.std.specs.List.{list_all};
ghost use Rattle.written_dates.specs.private.SignViews.{seen_text};
ghost use Rattle.written_dates.specs.Times.{begins_time as begins_spec, behind_byte as byte_spec, behind_gaps as gaps_spec};
ghost use Rattle.written_dates.specs.Times.{behind_hour as hour_spec, behind_sixtieth as sixtieth_spec};
ghost use Rattle.written_dates.specs.Times.{is_after_hour as after_hour_spec, is_after_minutes as after_minutes_spec};
ghost use Rattle.written_dates.specs.Times.{is_after_seconds as after_seconds_spec, is_fraction as fraction_spec};
ghost use Rattle.written_dates.specs.Times.{is_gap as gap_spec, is_hour as is_hour_spec, is_hour_word as word_spec};
ghost use Rattle.written_dates.specs.Times.{is_time as time_spec, is_worded as worded_spec, is_worded_hour as worded_hour_spec};
ghost use Rattle.written_dates.specs.Times.{are_digits as digits_spec, behind_part as part_spec, is_so, timeless as timeless_spec};

use crate::fields::without_blanks;
use crate::words::is_same_word;

/// Whether a byte is a space or a tab.
fn is_gap(byte: u8) -> bool
    ensures { result ≡ gap_spec byte }
{
    byte == b' ' || byte == b'\t'
}

/// Whether spaces and tabs at most stand in a text.
fn is_over(text: &[u8]) -> bool
    ensures { result ≡ list_all gap_spec text.now }
{
    text.iter().all(|byte| is_gap(*byte))
}

/// A text from the first byte on that is no space or tab.
fn behind_gaps(text: &[u8]) -> &[u8]
    ensures { result.now ≡ gaps_spec text.now }
{
    let mut rest = text;
    'bytes: while !rest.is_empty() && is_gap(rest[0]) {
        let (_, after) = rest.split_at(1);
        rest = after;
    }
    rest
}

/// What follows a byte, if it is in front.
fn behind_byte(byte: u8, text: &[u8]) -> Option<&[u8]>
    ensures { seen_text result ≡ byte_spec byte text.now }
{
    if text.is_empty() || text[0] != byte {
        return None;
    }
    let (_, rest) = text.split_at(1);
    Some(rest)
}

/// What follows two digits, 00 to 59.
fn behind_sixtieth(text: &[u8]) -> Option<&[u8]>
    ensures { seen_text result ≡ sixtieth_spec text.now }
{
    if text.len() < 2 {
        return None;
    }
    if !(text[0].is_ascii_digit() && text[0] <= b'5' && text[1].is_ascii_digit()) {
        return None;
    }
    let (_, rest) = text.split_at(2);
    Some(rest)
}

/// Whether two digits are an hour.
fn is_hour(first: u8, second: u8) -> bool
    ensures { result ≡ is_hour_spec first second }
{
    first.is_ascii_digit()
        && second.is_ascii_digit()
        && (first <= b'1' || (first == b'2' && second <= b'4'))
}

/// What follows an hour, in one digit or two.
fn behind_hour(text: &[u8]) -> Option<&[u8]>
    ensures { seen_text result ≡ hour_spec text.now }
{
    if text.len() < 2 {
        return None;
    }
    if is_hour(text[0], text[1]) {
        let (_, rest) = text.split_at(2);
        return Some(rest);
    }
    if text[0].is_ascii_digit() && !text[1].is_ascii_digit() {
        let (_, rest) = text.split_at(1);
        return Some(rest);
    }
    None
}

/// Whether a word says that the number before it is an hour.
fn is_hour_word(word: &[u8]) -> bool
    ensures { result ≡ word_spec word.now }
{
    is_same_word(word, b"am")
        || is_same_word(word, b"a.m.")
        || is_same_word(word, b"pm")
        || is_same_word(word, b"p.m.")
        || is_same_word(word, b"Uhr")
        || is_same_word(word, b"h")
}

/// Whether what follows an hour or minutes is such a word.
fn is_worded(rest: &[u8]) -> bool
    ensures { result ≡ worded_spec rest.now }
{
    is_hour_word(without_blanks(rest))
}

/// Whether no other bytes than digits stand in a text.
fn has_digits_only(text: &[u8]) -> bool
    ensures { result ≡ list_all is_ascii_digit text.now }
{
    text.iter().all(|byte| byte.is_ascii_digit())
}

/// Whether a text is digits, one at least.
fn are_digits(text: &[u8]) -> bool
    ensures { result ≡ digits_spec text.now }
{
    text.len() > 0 && has_digits_only(text)
}

/// Whether what follows seconds is a fraction of them.
fn is_fraction(rest: &[u8]) -> bool
    ensures { result ≡ fraction_spec rest.now }
{
    match behind_byte(b'.', rest) {
        Some(digits) => are_digits(digits),
        None => false,
    }
}

/// Whether this may follow seconds.
fn is_after_seconds(rest: &[u8]) -> bool
    ensures { result ≡ after_seconds_spec rest.now }
{
    is_over(rest) || is_worded(rest) || is_fraction(rest)
}

/// What follows a byte and two digits from 00 to 59.
fn behind_part(byte: u8, text: &[u8]) -> Option<&[u8]>
    ensures { seen_text result ≡ part_spec byte text.now }
{
    behind_sixtieth(behind_byte(byte, text)?)
}

/// Whether this may follow minutes.
fn is_after_minutes(rest: &[u8]) -> bool
    ensures { result ≡ after_minutes_spec rest.now }
{
    if is_over(rest) || is_worded(rest) {
        return true;
    }
    match behind_part(b':', rest) {
        Some(after) => is_after_seconds(after),
        None => false,
    }
}

/// Whether minutes follow an hour, behind a colon.
fn is_after_hour(rest: &[u8]) -> bool
    ensures { result ≡ after_hour_spec rest.now }
{
    match behind_part(b':', rest) {
        Some(after) => is_after_minutes(after),
        None => false,
    }
}

/// Whether a word follows an hour, or minutes behind a dot and a word.
fn is_worded_hour(rest: &[u8]) -> bool
    ensures { result ≡ worded_hour_spec rest.now }
{
    if is_worded(rest) {
        return true;
    }
    match behind_part(b'.', rest) {
        Some(after) => is_worded(after),
        None => false,
    }
}

/// Whether a text is a time of day by colons.
fn is_clock(text: &[u8]) -> bool
    ensures { result ≡ is_so after_hour_spec (hour_spec text.now) }
{
    match behind_hour(text) {
        Some(rest) => is_after_hour(rest),
        None => false,
    }
}

/// Whether a text is a time of day.
fn is_time(text: &[u8]) -> bool
    ensures { result ≡ time_spec text.now }
{
    match behind_hour(text) {
        Some(rest) => is_after_hour(rest) || is_worded_hour(rest),
        None => false,
    }
}

/// Whether a time of day follows a byte to the end of a text.
fn begins_time(byte: u8, rest: &[u8]) -> bool
    ensures { result ≡ begins_spec byte rest.now }
{
    (byte == b'T' && is_clock(rest))
        || ((byte == b',' || is_gap(byte)) && is_time(behind_gaps(rest)))
}

/// The text before the time of day that a text ends with, if it ends with one.
#[tactic(auto, unfolding(crate::specs::Times::timeless))]
pub fn timeless(text: &[u8]) -> Option<&[u8]>
    ensures { seen_text result ≡ timeless_spec text.now }
{
    let mut place = 0;
    'bytes: while place < text.len() {
        let (before, after) = text.split_at(place);
        let (_, rest) = after.split_at(1);
        if begins_time(after[0], rest) {
            return Some(before);
        }
        place += 1;
    }
    None
}
