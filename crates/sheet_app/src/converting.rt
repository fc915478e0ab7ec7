//! Reads the sheets of a command line, and converts each.

ghost use Rattle.std.specs.Prelude.{◌≡◌, ◌↔◌, All, IfErr, IfOk, map, true};
ghost use Rattle.std.specs.List.{AllZip};
ghost use Rattle.programs.specs.Places.{place_name};
ghost use Rattle.sheet_arguments.specs.Requests.{task_of};
ghost use Rattle.sheet_app.specs.EndedSheets.{AreReported, IsConverted, IsUnread, ended_lines, is_complete};
ghost use Rattle.sheet_app.specs.private.Conversions.{lines_by, task_by};
ghost use Rattle.sheet_app.specs.private.EndedSheets.{IsEndOf};
ghost use Rattle.sheet_app.specs.private.SheetViews.{Says};
ghost use Rattle.sheet_app.specs.JoinedTexts.{IsSheetMade, IsTextEnded, LacksSheet};

use crate::conversions::{SheetDone, convert_text};
use crate::file_sheets::FileSheet;
use crate::joined_texts::joined_of;
use crate::prepared::{Conversion, RoomySheets};
use crate::reports::{report_names, report_sheet};
use crate::sheet_faults::SheetFault;
use crate::tree_texts::sheet_of;
use programs::{FileStore, Place};
use register_records::Output;
use sheet_arguments::Job;
use std::alloc::Global;
use std::io::{ErrorKind, Read};

/// What standard input is called.
pub(crate) const INPUT: &str = "standard input";

/// A sheet that was converted or broke off.
#[derive(Drop)]
pub struct EndedSheet<'a, W> {
    /// What it is called.
    pub name: &'a str,
    /// Its output and those of its registers, as they were left.
    pub output: W,
    pub registers: Vec<W>,
    /// How it ended.
    pub done: SheetDone<'a>,
    /// Whether all its outputs have got their names.
    pub are_named: bool,
    /// Whether there was memory for the lines on it.
    pub is_reported: bool,
}

/// Why a sheet was not read to its end.
fn fault_of_reading<'b>(kind: ErrorKind) -> SheetFault<'b>
    ensures { IsUnread result }
{
    match kind {
        ErrorKind::OutOfMemory => SheetFault::OutOfMemory,
        _ => SheetFault::Unread,
    }
}

/// The sheet that a job converts of a text: with three columns to be joined the text with their dates, and else the text
/// itself or the sheet of its tree.
fn sheet_made<'b>(alloc: Global, text: Vec<u8>, job: &Job<'b>) -> Result<Vec<u8>, SheetFault<'b>>
    ensures sheet { IfOk result (λ sheet. IsSheetMade (task_of job.now).three (task_of job.now) text.items sheet.items) }
    ensures fault { IfErr result (LacksSheet (task_of job.now).three (task_of job.now) text.items) }
{
    match job.three {
        Some(three) => joined_of(alloc, text, job, three),
        None => sheet_of(alloc, text, job),
    }
}

/// Writes what is asked of the sheet of a text.
fn convert_read<'b, W: Output>(
    alloc: Global,
    by: &Conversion<'_, 'b>,
    text: Vec<u8>,
    output: &mut W,
    registers: &mut [W],
) -> SheetDone<'b>
    ensures { IsTextEnded W.Output (task_by by.now) (lines_by by.now) text.items output.old output.new registers.old
        registers.new result }
{
    match sheet_made(alloc, text, by.job) {
        Ok(sheet) => convert_text(alloc, sheet.as_slice(), by, output, registers),
        Err(fault) => SheetDone::Broken(fault),
    }
}

/// Reads a sheet, and writes what is asked of it.
fn convert_source<'b, R: Read, W: Output>(
    alloc: Global,
    by: &Conversion<'_, 'b>,
    source: &mut R,
    output: &mut W,
    registers: &mut [W],
) -> SheetDone<'b>
    ensures { IsConverted R.Read W.Output (task_by by.now) (lines_by by.now) source.old output.old output.new
        registers.old registers.new result }
{
    let mut text = Vec::new(alloc);
    match source.read_to_end(&mut text) {
        Ok(_) => convert_read(alloc, by, text, output, registers),
        Err(error) => SheetDone::Broken(fault_of_reading(error.kind())),
    }
}

/// Gives the outputs of a sheet their names, and returns whether all have theirs.
fn give_names<R, W: Output, P: FileStore<R, W>>(store: &P, places: &[Place]) -> bool
    ensures { result ≡ true → All (P.is_named store.now) (map place_name places.now) }
{
    let mut are_named = true;
    'places: for place in places {
        if !store.give_name(place) {
            are_named = false;
        }
    }
    are_named
}

/// Converts a sheet, gives its outputs their names, and reports how it has ended.
pub fn convert_one<'a, R: Read + Drop, W: Output + Drop, P: FileStore<R, W>, E: Output>(
    alloc: Global,
    by: &Conversion<'_, 'a>,
    sheet: FileSheet<'a, R, W>,
    store: &P,
    errors: &mut E,
) -> EndedSheet<'a, W>
    ensures ended { IsEndOf R.Read W.Output (P.is_named store.now) (task_by by.now) (lines_by by.now) sheet.entry
        result }
    ensures lines { Says E.Output errors.old errors.new result.is_reported (ended_lines (task_by by.now) result) }
{
    let FileSheet {
        name,
        mut source,
        mut output,
        mut registers,
        places,
    } = sheet;
    let files = registers.as_mut_slice();
    let done = convert_source(alloc, by, &mut source, &mut output, files);
    let are_named = give_names(store, places.as_slice());
    let is_told = report_sheet(alloc, errors, name, by.job, &done);
    let is_reported = report_names(alloc, errors, name, are_named) && is_told;
    EndedSheet {
        name,
        output,
        registers,
        done,
        are_named,
        is_reported,
    }
}

/// Converts each sheet.
pub fn convert_all<'a, R: Read + Drop, W: Output + Drop, P: FileStore<R, W>, E: Output>(
    alloc: Global,
    by: &Conversion<'_, 'a>,
    files: RoomySheets<'a, R, W>,
    store: &P,
    errors: &mut E,
) -> Vec<EndedSheet<'a, W>>
    ensures ended { AllZip (IsEndOf R.Read W.Output (P.is_named store.now) (task_by by.now) (lines_by by.now))
        files.entry.sheets.items result.items }
    ensures lines { AreReported E.Output (task_by by.now) result.items errors.old errors.new }
    ensures errors_mark { E.own_mark errors.new ≡ E.own_mark errors.old }
{
    let RoomySheets { sheets, room } = files;
    let mut ended = room;
    'sheets: for sheet in sheets {
        ended.push_reserved(convert_one(alloc, by, sheet, store, errors));
    }
    ended
}

impl<W> EndedSheet<'_, W> {
    ghost use Rattle.std.specs.Prelude.{◌≡◌};
    ghost use Rattle.sheet_app.specs.EndedSheets.{is_complete};

    /// Whether all that was asked for is there, and nothing to report was lost.
    pub fn is_complete(&self) -> bool
        ensures { result ≡ is_complete self.now }
    {
        let is_whole = match self.done {
            SheetDone::Whole(_) | SheetDone::Listed(_) => true,
            SheetDone::WholeBut(_) | SheetDone::Broken(_) => false,
        };
        is_whole && self.are_named && self.is_reported
    }
}

/// Whether all sheets are complete.
pub fn are_complete<W>(sheets: &[EndedSheet<'_, W>]) -> bool
    ensures { (result ≡ true) ↔ All (λ sheet. is_complete sheet ≡ true) sheets.now }
{
    sheets.iter().all(|sheet| sheet.is_complete())
}
