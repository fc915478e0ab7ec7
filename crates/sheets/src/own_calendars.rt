//! A calendar that a date names at the end of its text, as `12. Mai 1706 n. St.`.

ghost use Rattle.std.specs.Prelude.{◌≡◌, ◌≤◌, IfSome, length, option_map};
ghost use Rattle.written_dates.specs.Sums.{found_items};
ghost use Rattle.written_dates.specs.Tokens.{tokens};
ghost use Rattle.std.specs.Char.{is_ascii_digit as digit_spec};
ghost use Rattle.std.specs.List.{list_any};
ghost use Rattle.sheets.specs.OwnCalendars.{before_name as before_spec, begins_with_blank as begins_spec};
ghost use Rattle.sheets.specs.OwnCalendars.{first_style as first_spec, has_styles as has_spec, last_byte as last_spec};
ghost use Rattle.sheets.specs.OwnCalendars.{is_behind_blank as behind_spec, is_style as is_spec, own_date as own_spec};
ghost use Rattle.sheets.specs.OwnCalendars.{says_something as says_spec, style_meant as meant_spec};
ghost use Rattle.sheets.specs.OwnCalendars.{style_named as named_spec, without_comma as comma_spec};
ghost use Rattle.sheets.specs.private.OwnViews.{own_seen};

use date_texts::Calendar;
use written_dates::{
    CalendarMeaning, CalendarNames, Names, is_blank, items_of, next_token, without_blanks,
};

/// The most bytes of an end that names a calendar.
const MAX_END: usize = 64;

/// A date, and the calendar that its text names.
#[derive(Clone, Copy)]
pub(crate) struct OwnDate<'a> {
    pub date: &'a [u8],
    pub calendar: Calendar,
}

/// Whether a calendar is that of one of the two styles.
fn is_style(calendar: Calendar) -> bool
    ensures { result ≡ is_spec calendar }
{
    matches!(calendar, Calendar::Gregorian | Calendar::Julian)
}

/// The style that a name means.
fn style_meant(meaning: Option<CalendarMeaning>) -> Option<Calendar>
    ensures { result ≡ meant_spec meaning }
{
    match meaning {
        Some(CalendarMeaning::One(calendar)) if is_style(calendar) => Some(calendar),
        _ => None,
    }
}

/// Whether a date may name one of the styles where this is meant for its record.
pub(crate) fn has_styles(meaning: Option<CalendarMeaning>) -> bool
    ensures { result ≡ has_spec meaning }
{
    match meaning {
        None | Some(CalendarMeaning::Changed(_)) => true,
        Some(CalendarMeaning::One(calendar)) => is_style(calendar),
        Some(CalendarMeaning::Both) => false,
    }
}

/// Whether a name says something in dates of a calendar.
fn says_something(name: &[u8], names: &Names, calendar: Calendar) -> bool
    ensures { result ≡ says_spec (found_items calendar names.now.listed.now name.now) }
{
    match items_of::<16>(name, names, calendar) {
        Some(found) => {
            let items = found.as_slice();
            prove!(items.len() <= 16);
            !items.is_empty()
        }
        None => false,
    }
}

/// Whether a text begins with a blank.
fn begins_with_blank(text: &[u8]) -> bool
    ensures { result ≡ begins_spec (tokens 0 text.now) }
{
    match next_token(text) {
        Some((token, _)) => is_blank(token.kind),
        None => false,
    }
}

/// Whether a digit stands in a text.
fn has_digit(text: &[u8]) -> bool
    ensures { result ≡ list_any digit_spec text.now }
{
    text.iter().any(|byte| byte.is_ascii_digit())
}

/// Whether an end of a text is a blank, and behind it something without digits.
fn is_behind_blank(end: &[u8]) -> bool
    ensures { result ≡ behind_spec end.now }
{
    begins_with_blank(end) && !has_digit(end)
}

/// The style that an end of a text names.
#[tactic(auto, unfolding(crate::specs::OwnCalendars::style_named))]
fn style_named(calendars: &CalendarNames, names: &Names, end: &[u8]) -> Option<Calendar>
    ensures { result ≡ named_spec calendars.now names.now.listed.now end.now }
{
    if !is_behind_blank(end) {
        return None;
    }
    match style_meant(calendars.meant(end)) {
        Some(calendar) if !says_something(end, names, calendar) => Some(calendar),
        _ => None,
    }
}

/// How many bytes the first end of a text has that names a style, and this style.
fn first_style(calendars: &CalendarNames, names: &Names, text: &[u8]) -> Option<(usize, Calendar)>
    ensures value { result ≡ first_spec calendars.now names.now.listed.now text.now }
    ensures within { IfSome result (λ end. end.0 ≤ length text.now) }
{
    let mut rest = text;
    'ends: while let [_, after @ ..] = rest {
        if let Some(style) = style_named(calendars, names, rest) {
            return Some((rest.len(), style));
        }
        rest = after;
    }
    None
}

/// The last byte of a text; 0 where it has none.
fn last_byte(text: &[u8]) -> u8
    ensures { result ≡ last_spec text.now }
{
    match text {
        [.., last] => *last,
        [] => 0,
    }
}

/// A text without a comma at its end.
fn without_comma(text: &[u8]) -> &[u8]
    ensures { result.now ≡ comma_spec text.now }
{
    match text {
        [front @ .., b','] => front,
        _ => text,
    }
}

/// A text without blanks at its ends and a comma at the last of them.
fn before_name(text: &[u8]) -> &[u8]
    ensures { result.now ≡ before_spec text.now }
{
    without_blanks(without_comma(without_blanks(text)))
}

/// The date that a text says whose end names its style, and this calendar.
#[tactic(auto, unfolding(crate::specs::OwnCalendars::own_date))]
pub(crate) fn own_date<'a>(
    calendars: &CalendarNames,
    names: &Names,
    text: &'a [u8],
) -> Option<OwnDate<'a>>
    ensures { option_map own_seen result ≡ own_spec calendars.now names.now.listed.now text.now }
{
    if last_byte(text).is_ascii_digit() {
        return None;
    }
    let (_, tail) = text.split_at(text.len().saturating_sub(MAX_END));
    let (count, calendar) = first_style(calendars, names, tail)?;
    let (front, _) = text.split_at(text.len() - count);
    let date = before_name(front);
    if date.is_empty() {
        return None;
    }
    Some(OwnDate { date, calendar })
}
