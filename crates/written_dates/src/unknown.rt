//! The word for which a date stays as it is written.

ghost use Rattle.std.specs.Prelude.{◌≡◌};
ghost use Rattle.std.specs.List.{list_any};
ghost use Rattle.written_dates.specs.WholeNames.{is_letter as is_letter_spec, whole_name as whole_spec};
ghost use Rattle.written_dates.specs.Tokens.{kind_of, piece, tokens};
ghost use Rattle.written_dates.specs.Names.{names_in};
ghost use Rattle.written_dates.specs.Parts.{parts};
ghost use Rattle.written_dates.specs.Unknown.{first_unknown, if_letters, is_never_read as never_spec, seen_text};
ghost use Rattle.written_dates.specs.Unknown.{unknown_word, word_in};

use crate::calendars::{Form, form_of};
use crate::items::item_in_front;
use crate::names::Names;
use crate::parts::next_part;
use crate::signs::{begins_with_dash, signs_of};
use crate::tokens::{Kind, Token, kind_of_byte};
use crate::whole_names::{is_letter, whole_name};
use date_texts::Calendar;

/// Whether dates of this form are never read.
fn is_never_read(form: Form) -> bool
    ensures { result ≡ never_spec form }
{
    match form {
        Form::Other => true,
        _ => false,
    }
}

/// Whether a byte stands in a text that may be of a word. Most dates have none.
fn has_letter(text: &[u8]) -> bool
    ensures { result ≡ list_any (λ byte. is_letter_spec (kind_of byte)) text.now }
{
    text.iter().any(|byte| is_letter(kind_of_byte(*byte)))
}

/// The bytes of a word; nothing for digits.
fn word_of<'a>(part: Token<'a>) -> Option<&'a [u8]>
    ensures { seen_text result ≡ if_letters part.entry.kind part.entry.text.now }
{
    match part.kind {
        Kind::Letter => Some(part.text),
        _ => None,
    }
}

/// The first word of a text that means nothing, if no digits before it do.
fn stopping_word<'a>(text: &'a [u8], names: &Names, calendar: Calendar) -> Option<&'a [u8]>
    ensures { seen_text result
        ≡ word_in (first_unknown (names_in calendar names.now.listed.now) 0 (parts text.now)) }
{
    let mut rest = text;
    'items: while let Some((part, after)) = next_part(rest) {
        let Some((_, behind)) = item_in_front(rest, part, after, names, calendar) else {
            return word_of(part);
        };
        rest = behind;
    }
    None
}

/// The whole name in which that word stands.
fn stopping_name<'a>(text: &'a [u8], names: &Names, calendar: Calendar) -> Option<&'a [u8]>
    ensures { seen_text result ≡ whole_spec (tokens 0 text.now)
        (word_in (first_unknown (names_in calendar names.now.listed.now) 0 (parts text.now))) }
{
    match stopping_word(text, names, calendar) {
        Some(word) => Some(whole_name(text, word)),
        None => None,
    }
}

/// The first word of a date that is no name in its calendar and no Roman number, where the date stays as it is written
/// because of this word; with it the words that hyphens join to it, as in `Dhu-l-Hijja`.
#[tactic(auto, unfolding(crate::specs::Unknown::unknown_word))]
pub fn unknown_word<'a>(text: &'a [u8], names: &Names, calendar: Calendar) -> Option<&'a [u8]>
    ensures { seen_text result ≡ unknown_word calendar names.now.listed.now text.now }
{
    if !has_letter(text) {
        return None;
    }
    let (other, minus) = signs_of(text);
    if is_never_read(form_of(calendar)) || other || minus || begins_with_dash(text) {
        return None;
    }
    stopping_name(text, names, calendar)
}
