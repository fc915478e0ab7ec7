//! Lines of a sheet's records on their way to an output.

ghost use Rattle.std.specs.Prelude.{◌≡◌, ◌++◌, ◌∷◌, ◌⊎◌, [], ℕ, IfErr, List, None, OnOk, Option, Result, length, map};
ghost use Rattle.sheets.specs.declared.sheet_ends.SheetCause.{SheetCause as SheetCauseValue};
ghost use Rattle.csv.specs.Records.{fields_of};
ghost use Rattle.sheets.specs.Produced.{first_fault};
ghost use Rattle.sheets.specs.private.Produced.{lacks_memory as memory_spec};
ghost use Rattle.sheets.specs.Sheets.{filled};
ghost use Rattle.register_records.specs.Entries.{Fields};
ghost use Rattle.sheets.specs.private.LineWriters.{Finishes, FinishesEach, Gathers, GathersEach, Makes, Waits};
ghost use Rattle.sheets.specs.private.LineWriters.{Writes};
ghost use Rattle.sheets.specs.private.Sending.{HasMade};
ghost use Rattle.sheets.specs.private.SheetRecords.{record_read};

use crate::choices::SheetSetup;
use crate::own_fields::push_own;
use crate::record_lines::RecordLine;
use crate::sending::SheetSender;
use crate::sheet_ends::SheetCause;
use crate::sheet_records::SheetRecord;
use csv::ByteRecord;
use register_records::Output;
use std::alloc::{AllocError, Global};

/// The lines of a sheet's records on their way to an output, which is lent to each call. From its first fault on it
/// makes no more lines.
#[derive(Drop)]
pub(crate) struct LineWriter<M> {
    pub maker: M,
    pub sender: SheetSender,
    pub fault: Option<SheetCause>,
}

/// Whether memory ran out.
fn lacks_memory(read: Result<(), SheetCause>) -> bool
    ensures { result ≡ memory_spec read }
{
    matches!(read, Err(SheetCause::NoMemory))
}

/// The first fault of two answers.
fn first_of(first: Result<(), SheetCause>, second: Result<(), SheetCause>) -> Result<(), SheetCause>
    ensures { result ≡ first_fault (first ∷ second ∷ []) }
{
    match first {
        Ok(()) => second,
        Err(_) => first,
    }
}

impl<M: RecordLine> LineWriter<M> {
    /// A writer that has made no line.
    pub fn new(alloc: Global, maker: M, delimiter: u8) -> LineWriter<M>
        ensures maker { result.maker ≡ maker }
        ensures delimiter { result.sender.delimiter ≡ delimiter }
        ensures fault { result.fault ≡ None }
        ensures none { (begun : Option (List ℕ)) → HasMade delimiter begun begun result.sender.lines [] [] }
    {
        LineWriter {
            maker,
            sender: SheetSender::new(alloc, delimiter),
            fault: None,
        }
    }

    /// Makes a line of fields.
    fn begin(&mut self, fields: &[&[u8]]) -> Result<(), AllocError>
        ensures kept { (self.new.maker ≡ self.old.maker) × (self.new.sender.delimiter ≡ self.old.sender.delimiter)
            × (self.new.fault ≡ self.old.fault) }
        ensures made { OnOk result ((delimiter : ℕ) (begun : Option (List ℕ))
            → HasMade delimiter begun begun self.old.sender.lines [] []
            → HasMade delimiter begun begun self.new.sender.lines (map (λ field. field.now) fields.now ∷ []) []) }
    {
        self.sender.lines.push_all(fields)?;
        self.sender.lines.end()
    }

    /// A writer whose first line has these fields, unless memory ran out for it.
    pub fn headed(alloc: Global, maker: M, delimiter: u8, head: &[&[u8]]) -> LineWriter<M>
        ensures maker { result.maker ≡ maker }
        ensures waits { Waits delimiter (map (λ field. field.now) head.now ∷ []) result }
    {
        let mut writer = LineWriter::new(alloc, maker, delimiter);
        if writer.begin(head).is_err() {
            writer.fault = Some(SheetCause::NoMemory);
        }
        writer
    }

    /// A writer that makes no line.
    pub fn stopped(alloc: Global, maker: M) -> LineWriter<M> {
        LineWriter {
            maker,
            sender: SheetSender::new(alloc, b','),
            fault: Some(SheetCause::NoMemory),
        }
    }

    /// Makes the line of a record.
    fn write<W: Output>(
        &mut self,
        setup: &SheetSetup,
        of_sheet: &SheetRecord,
        output: &mut W,
    ) -> Result<(), SheetCause>
        ensures { Writes W.Output (M.line self.old.maker setup.now.choice (record_read of_sheet.now)) self.old self.new
            output.old output.new result }
    {
        self.maker.push(setup, of_sheet, &mut self.sender.lines)?;
        self.sender.end(output)
    }

    /// Makes the line of a record, unless a fault was met before.
    pub fn take<W: Output>(&mut self, setup: &SheetSetup, of_sheet: &SheetRecord, output: &mut W)
        ensures { Gathers W.Output M.line setup.now.choice (record_read of_sheet.now ∷ []) self.old self.new output.old
            output.new }
    {
        if self.fault.is_some() {
            return;
        }
        if let Err(cause) = self.write(setup, of_sheet, output) {
            self.fault = Some(cause);
        }
    }

    /// Makes a line of the fields of a record, empty ones up to `fill` in all, and other fields behind them.
    fn write_fields<W: Output>(
        &mut self,
        own: &ByteRecord,
        fill: usize,
        more: &[&[u8]],
        output: &mut W,
    ) -> Result<(), SheetCause>
        ensures { Writes W.Output (filled fill (fields_of own.now) ++ map (λ field. field.now) more.now) self.old self.new
            output.old output.new result }
    {
        push_own(&mut self.sender.lines, own, fill)?;
        self.sender.lines.push_all(more)?;
        self.sender.end(output)
    }

    /// Makes such a line, unless a fault was met before.
    pub fn put<W: Output>(&mut self, own: &ByteRecord, fill: usize, more: &[&[u8]], output: &mut W)
        ensures { Makes W.Output ((filled fill (fields_of own.now) ++ map (λ field. field.now) more.now) ∷ []) self.old
            self.new output.old output.new }
    {
        if self.fault.is_some() {
            return;
        }
        if let Err(cause) = self.write_fields(own, fill, more, output) {
            self.fault = Some(cause);
        }
    }

    /// Makes no more lines, since memory ran out.
    pub fn cut<W: Output>(&mut self, _output: &W)
        ensures { (lines : List Fields) → Makes W.Output lines self.old self.new _output.now _output.now }
    {
        if self.fault.is_some() {
            return;
        }
        self.fault = Some(SheetCause::NoMemory);
    }

    /// Sends what waits, once a sheet was read, and returns why the output has not all lines.
    pub fn finish<W: Output>(
        &mut self,
        read: Result<(), SheetCause>,
        output: &mut W,
    ) -> Result<(), SheetCause>
        requires { IfErr read (λ c. (c ≡ SheetCause.NoMemory) ⊎ (c ≡ SheetCause.TooManyRecords)) }
        ensures { Finishes W.Output read self.old output.old output.new result }
    {
        if let Some(cause) = self.fault {
            return Err(cause);
        }
        if lacks_memory(read) {
            return read;
        }
        self.sender.send(output)?;
        read
    }
}

/// Makes the line of a record by each writer, for the output at its place.
pub(crate) fn take_each<M: RecordLine, W: Output>(
    writers: &mut [LineWriter<M>],
    setup: &SheetSetup,
    of_sheet: &SheetRecord,
    files: &mut [W],
)
    requires { length writers.old ≡ length files.old }
    ensures { GathersEach W.Output M.line setup.now.choice (record_read of_sheet.now ∷ []) writers.old writers.new
        files.old files.new }
{
    'writers: for place in 0..writers.len() {
        writers[place].take(setup, of_sheet, &mut files[place]);
    }
}

/// Finishes each writer, for the output at its place, and returns the first fault of one.
pub(crate) fn finish_each<M: RecordLine, W: Output>(
    writers: &mut [LineWriter<M>],
    read: Result<(), SheetCause>,
    files: &mut [W],
) -> Result<(), SheetCause>
    requires matched { length writers.old ≡ length files.old }
    requires causes { IfErr read (λ c. (c ≡ SheetCause.NoMemory) ⊎ (c ≡ SheetCause.TooManyRecords)) }
    ensures { (answers : List (Result (Unit {0}) SheetCauseValue)) × (length answers ≡ length writers.old)
        × (result ≡ first_fault answers)
        × FinishesEach W.Output read answers writers.old writers.new files.old files.new }
{
    let mut result = Ok(());
    'writers: for place in 0..writers.len() {
        let answer = writers[place].finish(read, &mut files[place]);
        result = first_of(result, answer);
    }
    result
}
