//! The dates of a family tree as a sheet.

ghost use Rattle.std.specs.Prelude.{◌≡◌, ◌++◌, ◌∷◌, ℕ, List, IfOk, OnOk, map};
ghost use Rattle.csv.specs.Writing.{default_writer, row_text};
ghost use Rattle.family_trees.specs.DateViews.{date_seen};
ghost use Rattle.family_trees.specs.OwnDates.{own_text};
ghost use Rattle.family_trees.specs.private.SheetViews.{Holds};
ghost use Rattle.family_trees.specs.TreeSheets.{date_record, records_text, tree_head, tree_text};

use crate::dates::{TreeDate, dates_of};
use crate::own_dates::own_dates_of;
use csv::Writer;
use std::alloc::{AllocError, Global};

/// Appends a record. Over memory nothing else goes wrong than that it runs out.
fn write(sheet: &mut Writer<Vec<u8>>, fields: &[&[u8]]) -> Result<(), AllocError>
    ensures { OnOk result ((text : List ℕ) → Holds text sheet.old
        → Holds (text ++ row_text default_writer (map (λ field. field.now) fields.now)) sheet.new) }
{
    match sheet.write_fields(fields) {
        Ok(()) => Ok(()),
        Err(_) => Err(AllocError),
    }
}

/// Appends the names of the columns.
fn write_head(sheet: &mut Writer<Vec<u8>>) -> Result<(), AllocError>
    ensures { OnOk result ((text : List ℕ) → Holds text sheet.old
        → Holds (text ++ row_text default_writer tree_head) sheet.new) }
{
    let names: [&[u8]; 9] = [
        b"record",
        b"name",
        b"partner",
        b"event",
        b"part",
        b"type",
        b"place",
        b"calendar",
        b"date",
    ];
    write(sheet, &names)
}

/// Appends what is known of a date.
fn write_date(
    sheet: &mut Writer<Vec<u8>>,
    date: &TreeDate,
    place: &[u8],
    text: &[u8],
) -> Result<(), AllocError>
    requires place { place.now ≡ (date_seen date.now).place }
    requires text { text.now ≡ (date_seen date.now).date }
    ensures { OnOk result ((text : List ℕ) → Holds text sheet.old
        → Holds (text ++ row_text default_writer (date_record (date_seen date.now))) sheet.new) }
{
    let fields: [&[u8]; 9] = [
        date.number,
        date.name,
        date.partner,
        date.event,
        date.part,
        date.kind,
        place,
        date.calendar,
        text,
    ];
    write(sheet, &fields)
}

/// The text of a sheet.
fn text_of(sheet: Writer<Vec<u8>>) -> Result<Vec<u8>, AllocError>
    ensures { IfOk result (λ whole. (text : List ℕ) → Holds text sheet → whole.items ≡ text) }
{
    match sheet.into_inner() {
        Ok(text) => Ok(text),
        Err(_) => Err(AllocError),
    }
}

/// The sheet of dates: a record for each, in order, below a record of names.
fn sheet_of(alloc: Global, dates: &[TreeDate]) -> Result<Vec<u8>, AllocError>
    ensures { IfOk result (λ text.
        text.items ≡ records_text (tree_head ∷ map date_record (map date_seen dates.now))) }
{
    let mut sheet = Writer::from_writer(Vec::new(alloc));
    write_head(&mut sheet)?;
    'dates: for date in dates {
        write_date(
            &mut sheet,
            date,
            date.place.as_slice(),
            date.date.as_slice(),
        )?;
    }
    text_of(sheet)
}

/// The dates of a family tree in GEDCOM 5.5.1 or 7 as a sheet: a CSV text with a record for each line `DATE` of the tree,
/// in order, below a record of names.
///
/// # Errors
///
/// Where memory ran out.
pub fn tree_sheet(alloc: Global, tree: &[u8]) -> Result<Vec<u8>, AllocError>
    ensures { IfOk result (λ text. text.items ≡ tree_text tree.now) }
{
    let dates = dates_of(alloc, tree)?;
    sheet_of(alloc, dates.as_slice())
}

/// The same without the dates of the file itself: those of its header, and of when a record was changed or made.
///
/// # Errors
///
/// Where memory ran out.
pub fn own_tree_sheet(alloc: Global, tree: &[u8]) -> Result<Vec<u8>, AllocError>
    ensures { IfOk result (λ text. text.items ≡ own_text tree.now) }
{
    let dates = own_dates_of(alloc, tree)?;
    sheet_of(alloc, dates.as_slice())
}
