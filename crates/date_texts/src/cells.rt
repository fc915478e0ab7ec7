//! The cells of a table.

ghost use Rattle.std.specs.Prelude.{◌≡◌, ◌≤◌, ◌↔◌, IfSome, IsSome, length, take};
ghost use Rattle.day_numbers.specs.declared.ymd.Ymd.{Ymd};
ghost use Rattle.date_texts.specs.Calendars.{IsCivil, IsDateBy, day_number_by, first_day_by, reckoning};
ghost use Rattle.date_texts.specs.declared.cells.TheConstants.{MAX_CELL};
ghost use Rattle.date_texts.specs.Cells.{IsDateCell, IsCell, numbered_name};
ghost use Rattle.date_texts.specs.declared.calendar.Calendar.TheVariants.{Longcount, Roman};
ghost use Rattle.date_texts.specs.declared.target.Target.TheVariants.{Haab, Tzolkin};

use crate::buffer::{MAX_TEXT, text_of};
use crate::calendar::{Calendar, by_calendar};
use crate::civil_text::put_civil;
use crate::decimals::put_short;
use crate::laws::{cells_are_plain, cells_are_short};
use crate::long_text::put_long;
use crate::pieces::{put_byte, put_text};
use crate::roman_text::put_roman;
use crate::target::Target;
use arrayvec::ArrayString;
use day_numbers::{ArithmeticCalendar, Day};
use maya_calendars::{haab_on, long_on, tzolkin_on};
use solar_calendars::roman_on;

/// The most bytes of a cell: those of a long count of four digits and four times two, with its dots.
pub const MAX_CELL: usize = 16;

/// Writes the one date that a calendar of civil or week dates has on a day to the front of a cell's room, and returns
/// how many bytes it has: none before the calendar's first day. `by` finds the calendar's dates.
// A function for each calendar: it finds the date and writes it without a call between.
#[inline(never)]
fn write_civil<C: ArithmeticCalendar>(buffer: &mut [u8], by: &C, calendar: Calendar, day: Day) -> u8
    requires room { MAX_CELL ≤ length buffer.old }
    requires civil { IsCivil calendar }
    requires dates { (date : Ymd) → C.IsDate date
        → IsDateBy (reckoning calendar) date × (day_number_by (reckoning calendar) date ≡ C.day_number date) }
    requires first_day { C.first_day ≡ first_day_by (reckoning calendar) }
    ensures few { result ≤ MAX_CELL }
    ensures value { IsDateCell calendar day.number (take result buffer.new) }
{
    match by.date_on(day) {
        Some(date) => put_civil(buffer, calendar.grammar(), date) as u8,
        None => 0,
    }
}

/// Writes the long count of a day to the front of a cell's room, and returns how many bytes it has: none before the
/// first long count.
#[inline(never)]
#[tactic(auto, using(crate::proofs::CellLemmas::long_room))]
fn write_long_count(buffer: &mut [u8], day: Day) -> u8
    requires { MAX_CELL ≤ length buffer.old }
    ensures few { result ≤ MAX_CELL }
    ensures value { IsDateCell Longcount day.number (take result buffer.new) }
{
    cells_are_short();
    match long_on(day) {
        Some(count) => put_long(buffer, count) as u8,
        None => 0,
    }
}

/// Writes the Roman date of a day to the front of a cell's room, and returns how many bytes it has.
#[inline(never)]
fn write_roman(buffer: &mut [u8], day: Day) -> u8
    requires { MAX_CELL ≤ length buffer.old }
    ensures few { result ≤ MAX_CELL }
    ensures value { IsDateCell Roman day.number (take result buffer.new) }
{
    put_roman(buffer, roman_on(day)) as u8
}

/// Writes the cell of a day in the column of a calendar to the front of a cell's room, and returns how many bytes it
/// has.
#[inline(always)]
fn write_date_cell(buffer: &mut [u8], calendar: Calendar, day: Day) -> u8
    requires { MAX_CELL ≤ length buffer.old }
    ensures few { result ≤ MAX_CELL }
    ensures value { IsDateCell calendar day.number (take result buffer.new) }
{
    by_calendar!(calendar,
        by => write_civil(buffer, by, calendar, day),
        Longcount => write_long_count(buffer, day),
        Roman => write_roman(buffer, day))
}

/// Writes a number without leading zeros, one space and a name to the front of a cell's room, and returns how many
/// bytes they have.
#[inline(always)]
#[tactic(auto, using(crate::proofs::DigitLemmas::one_or_two))]
fn write_numbered(buffer: &mut [u8], number: u8, name: &str) -> u8
    requires room { MAX_CELL ≤ length buffer.old }
    requires small { number ≤ 99 }
    requires short { length name.now ≤ 13 }
    ensures few { result ≤ MAX_CELL }
    ensures value { take result buffer.new ≡ numbered_name number name.now }
{
    let after = put_short(buffer, 0, number);
    let after = put_byte(buffer, after, b' ');
    put_text(buffer, after, name) as u8
}

/// Writes the haab of a day to the front of a cell's room, and returns how many bytes it has.
// A function of its own, as that of the tzolkin, so that a row without the column does not find the name.
#[inline(never)]
#[tactic(auto, using(crate::proofs::CellLemmas::month_length))]
fn write_haab(buffer: &mut [u8], day: Day) -> u8
    requires { MAX_CELL ≤ length buffer.old }
    ensures few { result ≤ MAX_CELL }
    ensures value { IsCell Haab day.number (take result buffer.new) }
{
    let haab = haab_on(day);
    write_numbered(buffer, haab.day(), haab.month_name())
}

/// Writes the tzolkin of a day to the front of a cell's room, and returns how many bytes it has.
#[inline(never)]
#[tactic(auto, using(crate::proofs::CellLemmas::day_name_length))]
fn write_tzolkin(buffer: &mut [u8], day: Day) -> u8
    requires { MAX_CELL ≤ length buffer.old }
    ensures few { result ≤ MAX_CELL }
    ensures value { IsCell Tzolkin day.number (take result buffer.new) }
{
    let tzolkin = tzolkin_on(day);
    write_numbered(buffer, tzolkin.number(), tzolkin.name())
}

/// Writes the [`cell`] of a day to the front of a cell's room, and returns how many bytes it has.
// Inlined, so that a loop over targets jumps to what writes each cell.
#[inline(always)]
fn put_cell(buffer: &mut [u8], target: Target, day: Day) -> u8
    requires { MAX_CELL ≤ length buffer.old }
    ensures few { result ≤ MAX_CELL }
    ensures value { IsCell target day.number (take result buffer.new) }
{
    match target {
        Target::Date(calendar) => write_date_cell(buffer, calendar, day),
        Target::Haab => write_haab(buffer, day),
        Target::Tzolkin => write_tzolkin(buffer, day),
    }
}

/// Writes the [`cell`] of a day to the front of a cell's room, and returns how many bytes it has. What lies behind them
/// is no part of it.
pub fn write_cell(buffer: &mut [u8; MAX_CELL], target: Target, day: Day) -> u8
    ensures few { result ≤ MAX_CELL }
    ensures value { IsCell target day.number (take result buffer.new) }
{
    put_cell(buffer, target, day)
}

/// Writes the [`cell`] of a day to the front of a buffer, as [`write_cell`] does, or returns `None` where it has fewer
/// bytes than [`MAX_CELL`].
#[inline(always)]
pub fn write_cell_within(buffer: &mut [u8], target: Target, day: Day) -> Option<u8>
    ensures room { IsSome result ↔ (MAX_CELL ≤ length buffer.old) }
    ensures few { IfSome result (λ count. count ≤ MAX_CELL) }
    ensures value { IfSome result (λ count. IsCell target day.number (take count buffer.new)) }
{
    if buffer.len() < MAX_CELL {
        return None;
    }
    Some(put_cell(buffer, target, day))
}

/// The cell of a day in the column of a target. For a calendar it is the canonical text of the one date
/// that the calendar has on that day, and empty before the calendar's first day. For the haab it is the
/// day of the month, without leading zeros, a space and the name of the month, and for the tzolkin the
/// number, a space and the name.
///
/// # Examples
///
/// ```
/// // 12 November 1945.
/// let day = Day::new(710_347).ok_or("out of range")?;
/// let hebrew = Target::Date(Calendar::Hebrew);
/// assert_eq!(rt; cell(hebrew, day).as_str(), "5706-09-07");
/// assert_eq!(rt; cell(Target::Haab, day).as_str(), "7 Zac");
/// ```
#[inline(always)]
pub fn cell(target: Target, day: Day) -> ArrayString<MAX_TEXT>
    ensures { IsCell target day.number result.bytes }
{
    cells_are_plain();
    let mut buffer = [0; MAX_CELL];
    let len = write_cell(&mut buffer, target, day);
    text_of(&buffer[..len as usize])
}
