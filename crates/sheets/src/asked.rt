//! The columns asked of a row.

ghost use Rattle.std.specs.Prelude.{◌≡◌, ◌≤◌, ◌++◌, ◌∷◌, [], List, IfOk, IfSome, OnOk, codes, drop, get_or, length, map};
ghost use Rattle.std.specs.List.{flat_map, list_all};
ghost use Rattle.date_texts.specs.declared.target.Target.{Target};
ghost use Rattle.register_records.specs.Columns.{Column, kind_columns, tail_order};
ghost use Rattle.register_records.specs.Outcomes.{TableRow};
ghost use Rattle.register_records.specs.Views.{row_seen};
ghost use Rattle.sheets.specs.Converted.{asked_cells, asked_fields, asked_text, cells_taken, shown_in};
ghost use Rattle.sheets.specs.Choices.{column_limit};
ghost use Rattle.sheets.specs.ChurchNames.{church_shown, row_calendar};
ghost use Rattle.sheets.specs.private.AskedViews.{day_columns, has_cells};
ghost use Rattle.sheets.specs.private.LineViews.{GainsFields};

use crate::choices::AskedColumn;
use crate::lines::SheetLines;
use crate::register_fields::calendar_called;
use church_days::church_cell;
use date_texts::Calendar;
use itoa::Buffer;
use register_records::{Body, Row};
use std::alloc::AllocError;

/// Appends the number of a row's day, or nothing where it was refused.
fn push_day(lines: &mut SheetLines, row: &Row) -> Result<(), AllocError>
    ensures { OnOk result (GainsFields (shown_in (codes "rd") (row_seen row.now) ∷ []) lines.old lines.new) }
{
    match row.outcome() {
        Ok(day) => lines.push(Buffer::new().format(day.number()).as_bytes()),
        Err(_) => lines.push(b""),
    }
}

/// Appends the weekday of a row's day, or nothing where it was refused.
fn push_weekday(lines: &mut SheetLines, row: &Row) -> Result<(), AllocError>
    ensures { OnOk result (GainsFields (shown_in (codes "weekday") (row_seen row.now) ∷ []) lines.old lines.new) }
{
    match row.outcome() {
        Ok(day) => lines.push(day.weekday().name().as_bytes()),
        Err(_) => lines.push(b""),
    }
}

/// The calendar that the texts of a row name.
fn calendar_in(row: &Row) -> Option<Calendar>
    ensures { result ≡ row_calendar (row_seen row.now) }
{
    match row.entry().body() {
        Body::Fields { calendar, .. } => calendar_called(calendar.as_str().as_bytes()),
        Body::Refused(_) => None,
    }
}

/// The Sunday or feast that a row's day is, in the church year of its calendar.
fn church_in(row: &Row) -> &'static str
    ensures { result.now ≡ church_shown (row_seen row.now) }
{
    let Ok(day) = row.outcome() else {
        return "";
    };
    match calendar_in(row) {
        Some(calendar) => church_cell(calendar, day),
        None => "",
    }
}

/// Appends the Sunday or feast that a row's day is, or nothing where it is none or the row was refused.
fn push_church(lines: &mut SheetLines, row: &Row) -> Result<(), AllocError>
    ensures { OnOk result (GainsFields (church_shown (row_seen row.now) ∷ []) lines.old lines.new) }
{
    lines.push(church_in(row).as_bytes())
}

/// Appends the number of a row's refusal, or nothing where it has none.
pub(crate) fn push_refusal(lines: &mut SheetLines, row: &Row) -> Result<(), AllocError>
    ensures { OnOk result (GainsFields (shown_in (codes "refusal") (row_seen row.now) ∷ []) lines.old lines.new) }
{
    match row.outcome() {
        Ok(_) => lines.push(b""),
        Err(refusal) => lines.push(Buffer::new().format(refusal.number()).as_bytes()),
    }
}

/// Appends the cell at a place, or nothing where there is none.
fn push_cell(lines: &mut SheetLines, cells: &[&[u8]], place: usize) -> Result<(), AllocError>
    ensures { OnOk result
        (GainsFields (get_or (map (λ cell. cell.now) cells.now) place [] ∷ []) lines.old lines.new) }
{
    match cells.get(place) {
        Some(cell) => lines.push(cell),
        None => lines.push(b""),
    }
}

/// Appends what stands in a column asked of a row with these cells, of which so many were taken, and returns how many more
/// it takes.
fn push_column(
    lines: &mut SheetLines,
    column: AskedColumn,
    row: &Row,
    cells: &[&[u8]],
    taken: usize,
) -> Result<usize, AllocError>
    requires { map (λ cell. cell.now) cells.now ≡ (row_seen row.now).cells }
    ensures line { OnOk result (GainsFields
        (asked_text column (row_seen row.now) (drop taken (row_seen row.now).cells) ∷ []) lines.old lines.new) }
    ensures taken { IfOk result (λ more. more ≡ cells_taken column) }
{
    match column {
        AskedColumn::DayNumber => {
            push_day(lines, row)?;
            Ok(0)
        }
        AskedColumn::Weekday => {
            push_weekday(lines, row)?;
            Ok(0)
        }
        AskedColumn::Church => {
            push_church(lines, row)?;
            Ok(0)
        }
        AskedColumn::Cells(_) => {
            push_cell(lines, cells, taken)?;
            Ok(1)
        }
    }
}

/// Appends what stands in the columns asked of a row, one by one.
pub(crate) fn push_cells(
    lines: &mut SheetLines,
    columns: &[AskedColumn],
    row: &Row,
) -> Result<(), AllocError>
    requires { length columns.now ≤ column_limit }
    ensures { OnOk result (GainsFields (asked_cells columns.now (row_seen row.now)) lines.old lines.new) }
{
    let cells = row.cells();
    let mut taken = 0;
    'columns: for column in columns {
        taken += push_column(lines, *column, row, cells.as_slice(), taken)?;
    }
    Ok(())
}

/// Appends what stands in the columns asked of a row, and behind them the refusal, one by one.
fn push_each(lines: &mut SheetLines, columns: &[AskedColumn], row: &Row) -> Result<(), AllocError>
    requires { length columns.now ≤ column_limit }
    ensures { OnOk result (GainsFields (asked_fields columns.now (row_seen row.now)) lines.old lines.new) }
{
    push_cells(lines, columns, row)?;
    push_refusal(lines, row)
}

/// Whether a column has cells.
fn has_cells(column: &AskedColumn) -> bool
    ensures { result ≡ has_cells column.now }
{
    matches!(column, AskedColumn::Cells(_))
}

/// Whether each column has cells.
fn all_have_cells(columns: &[AskedColumn]) -> bool
    ensures { result ≡ list_all has_cells columns.now }
{
    columns.iter().all(|column| has_cells(column))
}

/// How many of the first two columns that a table has behind an entry, the day's number and its weekday, are not asked,
/// where the others are the first that are asked; and the columns asked behind these.
fn behind_days(columns: &[AskedColumn]) -> (usize, &[AskedColumn])
    ensures few { result.0 ≤ 2 }
    ensures value { columns.now ≡ drop result.0 day_columns ++ result.1.now }
{
    match columns {
        [AskedColumn::DayNumber, AskedColumn::Weekday, others @ ..] => (0, others),
        [AskedColumn::Weekday, others @ ..] => (1, others),
        _ => (2, columns),
    }
}

/// How many of the first columns that a table for so many targets has behind an entry are not asked, where all others
/// are, in order.
#[tactic(auto, using(crate::proofs::AskedLemmas::asked_of_tail))]
fn passed_columns(columns: &[AskedColumn], targets: usize) -> Option<usize>
    ensures few { IfSome result (λ passed. passed ≤ 2) }
    ensures value { IfSome result (λ passed. (row : TableRow) (ts : List Target) → length ts ≡ targets
        → asked_fields columns.now row
        ≡ drop passed (map (λ (c : Column). c.field row) (flat_map (kind_columns ts) tail_order))) }
{
    let (passed, others) = behind_days(columns);
    if others.len() == targets && all_have_cells(others) {
        Some(passed)
    } else {
        None
    }
}

/// Appends what stands in the columns asked of a row, and behind them the refusal. Where a table has these columns side
/// by side, they are copied as the row has them.
pub(crate) fn push_asked(
    lines: &mut SheetLines,
    columns: &[AskedColumn],
    row: &Row,
) -> Result<(), AllocError>
    requires { length columns.now ≤ column_limit }
    ensures { OnOk result (GainsFields (asked_fields columns.now (row_seen row.now)) lines.old lines.new) }
{
    if !lines.takes_tail(row) {
        return push_each(lines, columns, row);
    }
    match passed_columns(columns, row.targets().len()) {
        Some(passed) => lines.push_tail(row, passed),
        None => push_each(lines, columns, row),
    }
}
