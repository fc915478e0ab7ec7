//! What numbers, months and marks say together.

ghost use Rattle.std.specs.Prelude.{◌≡◌};
ghost use Rattle.written_dates.specs.Tokens.{tokens};
ghost use Rattle.written_dates.specs.FeastRules.{feast_naming};
ghost use Rattle.written_dates.specs.Rules.{in_digits as digits_spec, civil as civil_spec, in_order as order_spec};
ghost use Rattle.written_dates.specs.Rules.{month_between as between_spec, is_month_between as is_between_spec};
ghost use Rattle.written_dates.specs.Rules.{month_in_front as front_spec, three_numbers as three_spec, civil_reading};
ghost use Rattle.written_dates.specs.Rules.{plain_reading, beside_weekday as beside_spec, named_reading};
ghost use Rattle.written_dates.specs.Rules.{weekday_in_month as in_month_spec};
ghost use Rattle.written_dates.specs.Rules.{charter_year as charter_spec, marked as marked_spec, roman_reading};
ghost use Rattle.written_dates.specs.Rules.{is_year_first as first_spec};

use crate::feast_rules::naming_of;
use crate::items::{Item, Number, is_long, is_of_calendar};
use crate::joining::{has_bar_between, has_mixed_signs, has_two_dashes};
use crate::meanings::Mark;
use church_year::{Feast, Place};
use day_numbers::Weekday;

/// In which order a year, a month and a day stand.
#[derive(Clone, Copy, PartialEq, Eq)]
pub enum Order {
    /// Year, month, day.
    YearFirst,
    /// Day, month, year.
    DayFirst,
    /// Month, day, year.
    MonthFirst,
}

/// How a day is named in its year.
#[derive(Clone, Copy)]
pub enum InYear {
    /// A month and a day.
    Day(u32, u32),
    /// The weekday of a number in a month: the number, the weekday and the month.
    NumberedWeekday(u32, Weekday, u32),
    /// A feast, and which day beside it.
    Feast(Feast, Place),
}

/// What a text says.
#[derive(Clone, Copy)]
pub enum Reading {
    /// A year, and a day in it.
    Civil(Number, InYear),
    /// A year, a month, a mark and a count.
    Roman(u64, u32, Mark, u32),
}

/// Whether a number stands in digits, and not as a Roman one or a name.
fn in_digits(number: Number) -> bool
    ensures { result ≡ digits_spec number }
{
    number.digits > 0
}

/// Whether the year is first.
pub fn is_year_first(order: Order) -> bool
    ensures { result ≡ first_spec order }
{
    match order {
        Order::YearFirst => true,
        _ => false,
    }
}

fn civil(year: Number, month: u32, day: u32) -> Option<Reading>
    ensures { result ≡ civil_spec year month day }
{
    Some(Reading::Civil(year, InYear::Day(month, day)))
}

fn in_order(order: Order, a: Number, b: Number, c: Number) -> Option<Reading>
    ensures { result ≡ order_spec order a b c }
{
    match order {
        Order::YearFirst => civil(a, b.value, c.value),
        Order::DayFirst => civil(c, b.value, a.value),
        Order::MonthFirst => civil(c, a.value, b.value),
    }
}

fn month_between(order: Order, a: Number, month: u32, c: Number) -> Option<Reading>
    ensures { result ≡ between_spec order a month c }
{
    if is_long(a) && is_long(c) {
        None
    } else if is_long(a) || (!is_long(c) && is_year_first(order)) {
        civil(a, month, c.value)
    } else {
        civil(c, month, a.value)
    }
}

fn month_in_front(text: &[u8], month: u32, a: Number, c: Number) -> Option<Reading>
    ensures { result ≡ front_spec (tokens 0 text.now) month a c }
{
    if is_long(a) || (!is_long(c) && has_bar_between(text)) {
        None
    } else {
        civil(c, month, a.value)
    }
}

/// Whether the middle one of three numbers is the month, being the only Roman one.
fn is_month_between(a: Number, b: Number, c: Number) -> bool
    ensures { result ≡ is_between_spec a b c }
{
    in_digits(a) && !in_digits(b) && in_digits(c)
}

fn three_numbers(text: &[u8], order: Order, a: Number, b: Number, c: Number) -> Option<Reading>
    ensures { result ≡ three_spec (tokens 0 text.now) order a b c }
{
    if is_long(b) || (is_long(a) && is_long(c)) || has_mixed_signs(text) {
        None
    } else if is_month_between(a, b, c) {
        month_between(order, a, b.value, c)
    } else if is_long(a) {
        in_order(Order::YearFirst, a, b, c)
    } else if is_long(c) {
        if is_year_first(order) {
            None
        } else {
            in_order(order, a, b, c)
        }
    } else if in_digits(a) && in_digits(b) && in_digits(c) && has_two_dashes(text) {
        in_order(Order::YearFirst, a, b, c)
    } else {
        in_order(order, a, b, c)
    }
}

/// What three items of a text say as a year, a month and a day.
pub fn plain_of(text: &[u8], order: Order, items: &[Item]) -> Option<Reading>
    ensures { result ≡ plain_reading (tokens 0 text.now) order items.now }
{
    let [first, second, Item::Number(c)] = items else {
        return None;
    };
    match (first, second) {
        (Item::Number(a), Item::Month(m)) => month_between(order, *a, *m as u32, *c),
        (Item::Month(m), Item::Number(a)) => month_in_front(text, *m as u32, *a, *c),
        (Item::Number(a), Item::Number(b)) => three_numbers(text, order, *a, *b, *c),
        _ => None,
    }
}

/// The items behind a weekday or a day of a decade, or three items before one.
pub fn beside_weekday(items: &[Item]) -> &[Item]
    ensures { result.now ≡ beside_spec items.now }
{
    match items {
        [Item::Weekday(_) | Item::DecadeDay(_), ..] => &items[1..],
        [_, _, _, Item::Weekday(_) | Item::DecadeDay(_)] => &items[..3],
        _ => items,
    }
}

/// The weekday of a number in a month, and the year.
fn weekday_in_month(items: &[Item]) -> Option<Reading>
    ensures { result ≡ in_month_spec items.now }
{
    match items {
        [
            Item::Number(n),
            Item::Weekday(weekday),
            Item::Month(m),
            Item::Number(year),
        ] => {
            if is_long(*n) {
                return None;
            }
            Some(Reading::Civil(*year, InYear::NumberedWeekday(n.value, *weekday, *m as u32)))
        }
        _ => None,
    }
}

/// What items say as a day that is named by a feast.
fn named_of(items: &[Item]) -> Option<Reading>
    ensures { result ≡ named_reading (feast_naming items.now) }
{
    match naming_of(items) {
        Some(naming) => Some(Reading::Civil(
            naming.year,
            InYear::Feast(naming.feast, naming.place),
        )),
        None => None,
    }
}

/// What items of a text say as a day of a year.
pub(crate) fn civil_of(text: &[u8], order: Order, items: &[Item]) -> Option<Reading>
    ensures { result ≡ civil_reading (tokens 0 text.now) order items.now }
{
    match plain_of(text, order, beside_weekday(items)) {
        Some(reading) => Some(reading),
        None => match weekday_in_month(items) {
            Some(reading) => Some(reading),
            None => named_of(items),
        },
    }
}

fn charter_year(charters: bool, count: u32, mark: Mark, month: u8, year: u32) -> u64
    ensures { result ≡ charter_spec charters count mark month year }
{
    if let Mark::Kalends = mark {
        if charters && month == 1 && count >= 2 {
            return year as u64 + 1;
        }
    }
    year as u64
}

/// A Roman date, in a year of the calendar.
fn marked(charters: bool, count: u32, mark: Mark, month: u8, year: Number) -> Option<Reading>
    ensures { result ≡ marked_spec charters count mark month year }
{
    if !is_of_calendar(year.year) {
        return None;
    }
    Some(Reading::Roman(
        charter_year(charters, count, mark, month, year.value),
        month as u32,
        mark,
        count,
    ))
}

/// What items say as a Roman date.
pub(crate) fn roman_of(charters: bool, items: &[Item]) -> Option<Reading>
    ensures { result ≡ roman_reading charters items.now }
{
    match items {
        [
            Item::Number(n),
            Item::Mark(mark),
            Item::Month(m),
            Item::Number(y),
        ] => marked(charters, n.value, *mark, *m, *y),
        [Item::Mark(mark), Item::Month(m), Item::Number(y)] => marked(charters, 1, *mark, *m, *y),
        _ => None,
    }
}
