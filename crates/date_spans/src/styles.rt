//! Days in two styles.

ghost use Rattle.std.specs.Prelude.{◌≡◌, ◌↔◌, ◌≤◌, IsTrue, OnOk, Some, length};
ghost use Rattle.date_spans.specs.Styles.{IsOfBoth, IsOneDay, IsWrittenInBoth, both_dates as both_spec};
ghost use Rattle.date_spans.specs.Styles.{date_of as date_spec, written_by};
ghost use Rattle.date_spans.specs.Styles.{IsOwnDay, has_styles as styles_spec, styles_in as styles_in_spec};
ghost use Rattle.date_spans.specs.Styles.{of_items as items_spec, style_sides as sides_spec, two_dates as two_spec};

use crate::cuts::{Cut, sides};
use crate::ends::{Numbers, day_of, first_of, holds, set_date, set_text};
use crate::extents::{Extent, extent_of};
use crate::items::items_in;
use crate::sayings::{RangeSigns, left_of};
use crate::spans::one_side;
use date_texts::Calendar;
use day_numbers::Day;
use std::alloc::AllocError;
use written_dates::{Choice, Item, Names, signs_of};

/// The date of a day that is said, where it is so.
fn date_of(choice: &Choice, calendar: Calendar, said: Option<Extent>) -> Option<Numbers>
    ensures { result ≡ date_spec choice.now calendar said }
{
    match said {
        Some(Extent::Day(day)) => {
            if holds(choice, calendar, Extent::Day(day)) {
                first_of(choice, calendar, Extent::Day(day))
            } else {
                None
            }
        }
        _ => None,
    }
}

fn both_dates(old: Option<Numbers>, new: Option<Numbers>) -> Option<(Numbers, Numbers)>
    ensures { result ≡ both_spec old new }
{
    match (old, new) {
        (Some(old), Some(new)) => Some((old, new)),
        _ => None,
    }
}

/// The dates that the items before and behind a slash say.
fn of_items(
    choice: &Choice,
    signs: RangeSigns,
    left: &[Item],
    right: &[Item],
) -> Option<(Numbers, Numbers)>
    requires left { length left.now ≤ 16 }
    requires right { length right.now ≤ 16 }
    ensures { result ≡ items_spec choice.now signs (Some left.now) (Some right.now) }
{
    let old = left_of(Calendar::Julian, signs, choice.order, left, right);
    let new = extent_of(Calendar::Gregorian, signs.right, choice.order, right);
    both_dates(
        date_of(choice, Calendar::Julian, old),
        date_of(choice, Calendar::Gregorian, new),
    )
}

/// The signs of the sides of a text at a slash.
fn style_sides(left: &[u8], right: &[u8]) -> RangeSigns
    ensures { result ≡ sides_spec left.now right.now }
{
    let behind = one_side(right);
    RangeSigns {
        left: one_side(left),
        shared: behind,
        right: behind,
    }
}

/// The Julian date before the only slash of a text, and the Gregorian one behind it.
#[tactic(auto, unfolding(crate::specs::Styles::two_dates))]
fn two_dates(choice: &Choice, names: &Names, text: &[u8]) -> Option<(Numbers, Numbers)>
    ensures { result ≡ two_spec choice.now names.now.listed.now text.now }
{
    let (left, right) = sides(Cut::Slash, text)?;
    let before = items_in(Calendar::Julian, names, left)?;
    let behind = items_in(Calendar::Gregorian, names, right)?;
    of_items(
        choice,
        style_sides(left, right),
        before.as_slice(),
        behind.as_slice(),
    )
}

/// Whether two days are one.
fn is_same(day: Day, other: Day) -> bool
    ensures { IsTrue result ↔ (day.number ≡ other.number) }
{
    day.number() == other.number()
}

/// The second of two dates, where the first one in the Julian calendar and this one in the Gregorian are one day.
fn one_day(old: Numbers, new: Numbers) -> Option<Numbers>
    ensures { IsOneDay old new result }
{
    let Some(old_day) = day_of(Calendar::Julian, old) else {
        return None;
    };
    let Some(new_day) = day_of(Calendar::Gregorian, new) else {
        return None;
    };
    if is_same(old_day, new_day) {
        return Some(new);
    }
    None
}

/// The Gregorian date of the day that a text says in both styles, as `10/22 stycznia 1863`: the Julian date before its
/// only slash, and the Gregorian one behind it. `None` where it says no such two dates, or they are not one day.
pub fn date_in_both(choice: &Choice, names: &Names, text: &[u8]) -> Option<Numbers>
    ensures { IsOfBoth (two_spec choice.now names.now.listed.now text.now) result }
{
    match two_dates(choice, names, text) {
        Some((old, new)) => one_day(old, new),
        None => None,
    }
}

/// Whether dates of a calendar may have both styles.
fn has_styles(calendar: Calendar) -> bool
    ensures { result ≡ styles_spec calendar }
{
    matches!(calendar, Calendar::Gregorian | Calendar::Julian)
}

/// The two dates that a text says in both styles, in the calendars that have these.
#[tactic(auto, unfolding(crate::specs::Styles::styles_in))]
fn styles_in(
    choice: &Choice,
    calendar: Calendar,
    names: &Names,
    text: &[u8],
) -> Option<(Numbers, Numbers)>
    ensures { result ≡ styles_in_spec choice.now calendar names.now.listed.now text.now }
{
    let (other, _) = signs_of(text);
    if !has_styles(calendar) || other {
        return None;
    }
    two_dates(choice, names, text)
}

/// The date in a calendar of the day that a text says in both styles.
pub(crate) fn day_in_styles(
    choice: &Choice,
    calendar: Calendar,
    names: &Names,
    text: &[u8],
) -> Option<Numbers>
    ensures { IsOwnDay choice.now calendar names.now.listed.now text.now result }
{
    let (old, new) = styles_in(choice, calendar, names, text)?;
    let day = one_day(old, new)?;
    match calendar {
        Calendar::Julian => Some(old),
        _ => Some(day),
    }
}

/// Makes a buffer this date, where there is one, and else the text.
fn set_found(out: &mut Vec<u8>, text: &[u8], date: Option<Numbers>) -> Result<(), AllocError>
    ensures { OnOk result (out.new.items ≡ written_by text.now date) }
{
    match date {
        None => set_text(out, text),
        Some(_) => set_date(out, date),
    }
}

/// Makes a buffer what is written for a text in both styles: the Gregorian date of its day, as [`date_in_both`] finds
/// it; the text itself where it finds none. What the buffer held is gone.
///
/// # Errors
///
/// `AllocError` where the buffer could not grow; then it may hold anything.
pub fn write_in_both(
    out: &mut Vec<u8>,
    text: &[u8],
    names: &Names,
    choice: &Choice,
) -> Result<(), AllocError>
    ensures { OnOk result (IsWrittenInBoth choice.now names.now.listed.now text.now out.new.items) }
{
    let date = date_in_both(choice, names, text);
    set_found(out, text, date)
}
