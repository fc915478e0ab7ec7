//! The text of EDTF for a first and a last day.

ghost use Rattle.std.specs.Prelude.{◌≡◌, ◌++◌, OnOk, codes, option_map};
ghost use Rattle.day_numbers.specs.Rules.{days_of_month};
ghost use Rattle.solar_calendars.specs.Gregorian.{gregorian_rules};
ghost use Rattle.date_spans.specs.Edtf.{IsEdtf, IsOn, begins_month as begins_month_spec, begins_year as begins_year_spec};
ghost use Rattle.date_spans.specs.Edtf.{closed as closed_spec, closed_by, date_text as text_spec, ends_month as ends_month_spec};
ghost use Rattle.date_spans.specs.Edtf.{ends_year as ends_year_spec, joined, mark as mark_spec, precision_of as precision_spec};

use arrayvec::ArrayString;
use date_texts::{Calendar, CivilDate, Date, MAX_TEXT, write_date};
use day_numbers::rules::{RuledCalendar, month_by_number};
use day_numbers::{ArithmeticCalendar, Day, Ymd};
use solar_calendars::Gregorian;
use std::alloc::AllocError;

/// How a first and a last day are meant.
#[derive(Clone, Copy, PartialEq, Eq, Debug)]
pub struct Sense {
    /// One day from the first to the last is meant, and not all of them.
    pub one_of: bool,
    /// It is about then.
    pub about: bool,
    /// It is uncertain.
    pub uncertain: bool,
}

/// How much of a date is written.
#[derive(Clone, Copy)]
enum Precision {
    /// The year, the month and the day.
    Day,
    /// The year and the month.
    Month,
    /// The year.
    Year,
}

/// The Gregorian date of a day.
fn date_on(day: Day) -> Ymd
    ensures { IsOn day.number result }
{
    match Gregorian.date_on(day) {
        Some(date) => date,
        None => unreachable!(),
    }
}

/// How many days the month of a date has.
fn days_in(date: Ymd) -> u8
    ensures { result ≡ days_of_month (gregorian_rules.months date.year) date.month }
{
    let (_, days) = month_by_number(Gregorian.year(date.year()).months, date.month());
    days
}

fn begins_month(date: Ymd) -> bool
    ensures { result ≡ begins_month_spec date }
{
    date.day() == 1
}

fn ends_month(date: Ymd) -> bool
    ensures { result ≡ ends_month_spec date }
{
    date.day() == days_in(date)
}

fn begins_year(date: Ymd) -> bool
    ensures { result ≡ begins_year_spec date }
{
    begins_month(date) && date.month() == 1
}

fn ends_year(date: Ymd) -> bool
    ensures { result ≡ ends_year_spec date }
{
    ends_month(date) && date.month() == 12
}

/// How much has to be written of two dates for the days from one to the other.
fn precision_of(a: Ymd, b: Ymd) -> Precision
    ensures { result ≡ precision_spec a b }
{
    if begins_year(a) && ends_year(b) {
        Precision::Year
    } else if begins_month(a) && ends_month(b) {
        Precision::Month
    } else {
        Precision::Day
    }
}

/// All of a Gregorian date as text.
fn day_text(date: Ymd) -> ArrayString<MAX_TEXT>
    ensures { result.bytes ≡ text_spec Precision.Day date }
{
    match CivilDate::new(Calendar::Gregorian, date) {
        Some(civil) => write_date(&Date::Civil(civil)),
        None => unreachable!(),
    }
}

/// As much of a date's text as is written.
#[tactic(auto, using(crate::proofs::TextLemmas::sized, crate::proofs::TextLemmas::by_month, crate::proofs::TextLemmas::by_year))]
fn shortened(text: &[u8], date: Ymd, precision: Precision) -> &[u8]
    requires { text.now ≡ text_spec Precision.Day date }
    ensures { result.now ≡ text_spec precision date }
{
    match precision {
        Precision::Day => text,
        Precision::Month => &text[..text.len() - 3],
        Precision::Year => &text[..text.len() - 6],
    }
}

/// The mark behind a text.
fn mark(sense: Sense) -> &'static [u8]
    ensures { result.now ≡ mark_spec sense }
{
    if sense.about && sense.uncertain {
        b"%"
    } else if sense.about {
        b"~"
    } else if sense.uncertain {
        b"?"
    } else {
        b""
    }
}

/// Appends two texts that are not the same.
fn push_joined(out: &mut Vec<u8>, sense: Sense, x: &[u8], y: &[u8]) -> Result<(), AllocError>
    ensures { OnOk result (out.new.items ≡ out.old.items ++ joined sense x.now y.now) }
{
    if sense.one_of {
        out.extend_from_slice(b"[")?;
        out.extend_from_slice(x)?;
        out.extend_from_slice(mark(sense))?;
        out.extend_from_slice(b"..")?;
        out.extend_from_slice(y)?;
        out.extend_from_slice(mark(sense))?;
        out.extend_from_slice(b"]")?;
        return Ok(());
    }
    out.extend_from_slice(x)?;
    out.extend_from_slice(mark(sense))?;
    out.extend_from_slice(b"/")?;
    out.extend_from_slice(y)?;
    out.extend_from_slice(mark(sense))?;
    Ok(())
}

/// Appends the text of two texts of one precision.
fn push_closed_by(out: &mut Vec<u8>, sense: Sense, x: &[u8], y: &[u8]) -> Result<(), AllocError>
    ensures { OnOk result (out.new.items ≡ out.old.items ++ closed_by sense x.now y.now) }
{
    if x == y {
        out.extend_from_slice(x)?;
        out.extend_from_slice(mark(sense))?;
        return Ok(());
    }
    push_joined(out, sense, x, y)
}

/// Appends the text of two dates.
fn push_closed(out: &mut Vec<u8>, sense: Sense, a: Ymd, b: Ymd) -> Result<(), AllocError>
    ensures { OnOk result (out.new.items ≡ out.old.items ++ closed_spec sense a b) }
{
    let kept = precision_of(a, b);
    let first = day_text(a);
    let last = day_text(b);
    push_closed_by(
        out,
        sense,
        shortened(first.as_str().as_bytes(), a, kept),
        shortened(last.as_str().as_bytes(), b, kept),
    )
}

/// Appends the text of a first day without a last one.
fn push_from(out: &mut Vec<u8>, sense: Sense, date: Ymd) -> Result<(), AllocError>
    ensures { OnOk result (out.new.items
        ≡ out.old.items ++ (text_spec Precision.Day date ++ (mark_spec sense ++ codes "/.."))) }
{
    out.extend_from_slice(day_text(date).as_str().as_bytes())?;
    out.extend_from_slice(mark(sense))?;
    out.extend_from_slice(b"/..")?;
    Ok(())
}

/// Appends the text of a last day without a first one.
fn push_until(out: &mut Vec<u8>, sense: Sense, date: Ymd) -> Result<(), AllocError>
    ensures { OnOk result (out.new.items
        ≡ out.old.items ++ (codes "../" ++ (text_spec Precision.Day date ++ mark_spec sense))) }
{
    out.extend_from_slice(b"../")?;
    out.extend_from_slice(day_text(date).as_str().as_bytes())?;
    out.extend_from_slice(mark(sense))?;
    Ok(())
}

/// Makes `out` the text of EDTF for a first and a last day, which is not before the first, by their Gregorian dates: one
/// date, month or year; an interval; or a set of which one day is meant. `None` is an end that is open; where both are,
/// `out` is empty. What it held is gone.
///
/// # Errors
///
/// `AllocError` where `out` could not grow; then it may hold anything.
pub fn write_edtf(
    out: &mut Vec<u8>,
    first: Option<Day>,
    last: Option<Day>,
    sense: Sense,
) -> Result<(), AllocError>
    ensures { OnOk result (IsEdtf sense (option_map (λ day. day.number) first) (option_map (λ day. day.number) last)
        out.new.items) }
{
    out.clear();
    match (first, last) {
        (Some(a), Some(b)) => push_closed(out, sense, date_on(a), date_on(b)),
        (Some(a), None) => push_from(out, sense, date_on(a)),
        (None, Some(b)) => push_until(out, sense, date_on(b)),
        (None, None) => Ok(()),
    }
}
