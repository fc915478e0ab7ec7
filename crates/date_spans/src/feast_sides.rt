//! Feasts as sides of sayings.

ghost use Rattle.std.specs.Prelude.{◌≡◌, ◌≤◌, Some, length, pos};
ghost use Rattle.church_year.specs.FeastDates.{feast_date_in};
ghost use Rattle.church_year.specs.declared.feasts.Place.TheVariants.{Days};
ghost use Rattle.date_spans.specs.FeastSides.{bare_side as bare_spec, counts_sundays as counts_spec, feast_extent as extent_spec};
ghost use Rattle.date_spans.specs.FeastSides.{feast_in as in_spec, in_year_of as in_year_spec, is_whole as whole_spec};
ghost use Rattle.date_spans.specs.FeastSides.{in_year_of_item as in_item_spec, side_of as side_spec, sunday_in as sunday_spec};
ghost use Rattle.date_spans.specs.FeastSides.{yearless_feast as yearless_spec};
ghost use Rattle.written_dates.specs.Written.{church_of as church_spec, feast_of as feast_spec};

use crate::extents::{
    Extent, Signs, if_year, is_letter, plain_extent, said_day, weekday_among, with_weekday,
};
use church_year::{Church, Feast, Place, Season, feast_date};
use date_texts::Calendar;
use written_dates::{Item, Number, Order, beside_weekday, is_long, is_of_calendar};

/// The church that reckons in a calendar.
fn church_of(calendar: Calendar) -> Option<Church>
    ensures { result ≡ church_spec calendar }
{
    match calendar {
        Calendar::Gregorian => Some(Church::Gregorian),
        Calendar::Julian => Some(Church::Julian),
        _ => None,
    }
}

/// The month and the day of a feast, where the year, which may be any number, has it.
#[tactic(auto, using(written_dates::proofs::FeastRuleLemmas::never_named))]
fn date_in(church: Church, year: u32, feast: Feast) -> Option<(u8, u8)>
    ensures { result ≡ feast_date_in church year feast (Days (pos 0)) }
{
    if year > 9_999 {
        return None;
    }
    match feast_date(church, year as u16, feast, Place::Days(0)) {
        Some(date) => Some((date.month(), date.day())),
        None => None,
    }
}

/// The same in the church of a calendar, if one reckons in it.
fn date_of(church: Option<Church>, year: u32, feast: Feast) -> Option<(u32, u32)>
    ensures { result ≡ feast_spec church year feast (Days (pos 0)) }
{
    let church = church?;
    match date_in(church, year, feast) {
        Some((month, day)) => Some((month as u32, day as u32)),
        None => None,
    }
}

/// Whether a year is one of the calendar, and never short.
fn is_whole(year: Number) -> bool
    ensures { result ≡ whole_spec year }
{
    (year.value >= 100 || year.digits >= 3) && !is_letter(year) && is_of_calendar(year.year)
}

/// The day of a feast in a year that has it, in the calendar of a church.
fn feast_in(calendar: Calendar, year: Number, feast: Feast) -> Option<Extent>
    ensures { result ≡ in_spec calendar year feast }
{
    if !is_whole(year) {
        return None;
    }
    match date_of(church_of(calendar), year.value, feast) {
        Some((month, day)) => Some(Extent::Day(said_day(year, month, day))),
        None => None,
    }
}

/// Whether a number may be that of a Sunday.
fn counts_sundays(number: Number) -> bool
    ensures { result ≡ counts_spec number }
{
    !is_long(number) && !number.day && number.value <= 255
}

/// The day of a numbered Sunday in a year that has it.
fn sunday_in(calendar: Calendar, number: Number, season: Season, year: Number) -> Option<Extent>
    ensures { result ≡ sunday_spec calendar number season year }
{
    if counts_sundays(number) {
        feast_in(calendar, year, Feast::Sunday(season, number.value as u8))
    } else {
        None
    }
}

/// What a feast, or a numbered Sunday, and the year say.
fn feast_extent(calendar: Calendar, items: &[Item]) -> Option<Extent>
    ensures { result ≡ extent_spec calendar items.now }
{
    match items {
        [Item::Feast(feast), Item::Number(year)] => feast_in(calendar, *year, *feast),
        [Item::Number(n), Item::Sundays(season), Item::Number(year)] => {
            sunday_in(calendar, *n, *season, *year)
        }
        _ => None,
    }
}

/// What a feast, or a numbered Sunday, says in a year.
fn yearless_feast(calendar: Calendar, items: &[Item], year: Number) -> Option<Extent>
    ensures { result ≡ yearless_spec calendar items.now year }
{
    match items {
        [Item::Feast(feast)] => feast_in(calendar, year, *feast),
        [Item::Number(n), Item::Sundays(season)] => sunday_in(calendar, *n, *season, year),
        _ => None,
    }
}

fn in_year_of_item(calendar: Calendar, left: &[Item], item: Item) -> Option<Extent>
    ensures { result ≡ in_item_spec calendar left.now (Some item) }
{
    match item {
        Item::Number(year) => yearless_feast(calendar, left, year),
        _ => None,
    }
}

/// What a feast, or a numbered Sunday, says in the year that another side has at its end.
pub fn in_year_of(calendar: Calendar, left: &[Item], right: &[Item]) -> Option<Extent>
    ensures { result ≡ in_year_spec calendar left.now right.now }
{
    match right.last() {
        Some(item) => in_year_of_item(calendar, left, *item),
        None => None,
    }
}

/// What a side without a weekday says.
pub fn bare_side(calendar: Calendar, signs: Signs, order: Order, items: &[Item]) -> Option<Extent>
    requires { length items.now ≤ 16 }
    ensures { result ≡ bare_spec calendar signs order items.now }
{
    match plain_extent(signs, order, items) {
        Some(said) => Some(said),
        None => feast_extent(calendar, items),
    }
}

/// What a side says.
#[tactic(auto, using(crate::proofs::ExtentLemmas::few_beside))]
pub fn side_of(calendar: Calendar, signs: Signs, order: Order, items: &[Item]) -> Option<Extent>
    requires { length items.now ≤ 16 }
    ensures { result ≡ side_spec calendar signs order items.now }
{
    let bare = bare_side(calendar, signs, order, beside_weekday(items));
    if_year(calendar, with_weekday(weekday_among(items), bare))
}
