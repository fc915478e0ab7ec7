//! What is made of a sheet while it is read once.

ghost use Rattle.std.specs.Prelude.{◌≡◌, ◌∷◌, [], IfOk, length};
ghost use Rattle.sheets.specs.private.LineWriters.{Waits};
ghost use Rattle.sheets.specs.Registers.{register_head};
ghost use Rattle.sheets.specs.private.SheetNotes.{HasNotes, HasSpaceFor};
ghost use Rattle.sheets.specs.private.SheetReadings.{AreRegisterWriters, Takes, entry_maker as maker_spec};
ghost use Rattle.sheets.specs.private.SheetRecords.{IsRecordRead, record_read};
ghost use Rattle.sheets.specs.declared.choices.SheetChoice.{SheetChoice as SheetChoiceValue};

use crate::choices::{End, SheetSetup};
use crate::line_writers::{LineWriter, take_each};
use crate::record_lines::{EntryLine, RecordLine};
use crate::sheet_notes::SheetNotes;
use crate::sheet_records::SheetRecord;
use register_records::Output;
use std::alloc::{AllocError, Global};

/// What is made of a sheet: the notes on it, lines for its output, and those of registers for theirs.
#[derive(Drop)]
pub(crate) struct SheetWriters<M> {
    pub notes: SheetNotes,
    pub sheet: LineWriter<M>,
    pub registers: Vec<LineWriter<EntryLine>>,
}

/// A writer of a register of a column of dates, whose header waits in it.
fn register_writer(alloc: Global, delimiter: u8, maker: EntryLine) -> LineWriter<EntryLine>
    ensures maker { result.maker ≡ maker }
    ensures waits { Waits delimiter (register_head ∷ []) result }
{
    LineWriter::headed(alloc, maker, delimiter, &[b"id", b"calendar", b"date"])
}

/// What the writer of the register at a place makes, of a sheet with so many columns of dates.
fn entry_maker(columns: usize, place: usize) -> EntryLine
    ensures { result ≡ maker_spec columns place }
{
    if place < columns {
        EntryLine {
            place,
            end: End::First,
        }
    } else {
        EntryLine {
            place: place - columns,
            end: End::Last,
        }
    }
}

/// Writers of the first registers, so many, of a sheet with so many columns of dates.
pub(crate) fn register_writers(
    alloc: Global,
    delimiter: u8,
    columns: usize,
    count: usize,
) -> Result<Vec<LineWriter<EntryLine>>, AllocError>
    ensures { IfOk result (λ writers. AreRegisterWriters delimiter columns count writers.items) }
{
    let mut writers = Vec::new(alloc);
    'columns: for place in 0..count {
        writers.push(register_writer(alloc, delimiter, entry_maker(columns, place)))?;
    }
    Ok(writers)
}

impl SheetWriters<EntryLine> {
    /// A writer of a register of a column of dates, and no other.
    pub fn of_register(alloc: Global, maker: EntryLine, delimiter: u8) -> SheetWriters<EntryLine>
        ensures notes { (choice : SheetChoiceValue) → HasNotes choice [] 0 result.notes }
        ensures maker { result.sheet.maker ≡ maker }
        ensures waits { Waits delimiter (register_head ∷ []) result.sheet }
        ensures none { result.registers.items ≡ [] }
    {
        SheetWriters {
            notes: SheetNotes::none(alloc, 0),
            sheet: register_writer(alloc, delimiter, maker),
            registers: Vec::new(alloc),
        }
    }

    /// Notes alone: at most so many of the names that are not known are listed.
    pub fn of_notes(alloc: Global, most: usize) -> SheetWriters<EntryLine>
        ensures notes { (choice : SheetChoiceValue) → HasNotes choice [] most result.notes }
        ensures none { result.registers.items ≡ [] }
    {
        SheetWriters {
            notes: SheetNotes::none(alloc, most),
            sheet: LineWriter::stopped(alloc, entry_maker(1, 0)),
            registers: Vec::new(alloc),
        }
    }
}

impl<M: RecordLine> SheetWriters<M> {
    /// Notes a record, and makes its lines.
    pub fn take<W: Output>(
        &mut self,
        setup: &SheetSetup,
        of_sheet: &SheetRecord,
        output: &mut W,
        files: &mut [W],
    )
        requires space { HasSpaceFor setup.now.choice self.old.notes }
        requires read { IsRecordRead setup.now.choice (record_read of_sheet.now) }
        requires matched { length self.old.registers.items ≡ length files.old }
        ensures { Takes W.Output M.line setup.now.choice (record_read of_sheet.now ∷ []) self.old self.new output.old
            output.new files.old files.new }
    {
        self.notes.add(&setup.choice, of_sheet);
        self.sheet.take(setup, of_sheet, output);
        take_each(self.registers.as_mut_slice(), setup, of_sheet, files);
    }
}
