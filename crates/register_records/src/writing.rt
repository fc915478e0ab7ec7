//! Rows as lines, each completed before its first byte goes out.

ghost use Rattle.std.specs.Prelude.{◌≡◌, ◌≢◌, ◌≤◌, ◌+◌, ◌++◌, ◌||◌, [], true, false, length, OnOk, OnErr, IfOk, IfErr};
ghost use Rattle.std.specs.Prelude.{Ok, Err, IsOk, if◌then◌else◌, is_err};
ghost use Rattle.std.specs.Io.KnownBytes.{Appends};
ghost use Rattle.register_records.specs.LineViews.{line_capacity};
ghost use Rattle.register_records.specs.SetupRules.{is_delimiter};
ghost use Rattle.register_records.specs.declared.writing.TheConstants.{ROOM};

use crate::lines::LineBuffer;
use crate::outputs::{Output, send};
use crate::row_lines::{LINE_ROOM, make_heading, make_row};
use crate::rows::Row;
use crate::setups::{Form, Setup};
use std::alloc::{AllocError, Global};
use thiserror::Error;

/// Why writing rows stopped.
#[derive(Clone, Copy, PartialEq, Eq, Debug, Error)]
pub enum RowFault {
    /// Memory ran out; the output is as it was.
    #[error("out of memory")]
    OutOfMemory,
    /// The output failed.
    #[error("a fault of writing")]
    WriteFault,
    /// An earlier call returned a fault.
    #[error("an earlier call failed")]
    Failed,
}

impl From<AllocError> for RowFault {
    ghost use Rattle.register_records.specs.declared.writing.RowFault.TheVariants.{OutOfMemory};

    ghost from_gives = { λ _ fault. fault ≡ OutOfMemory };

    fn from(_: AllocError) -> RowFault {
        RowFault::OutOfMemory
    }
}

/// Up to so many bytes of lines that wait, one more line takes no memory.
pub const MOST_WAITING: usize = 16 * 1024;

/// How many bytes of lines may wait before more memory is taken for them.
const ROOM: usize = MOST_WAITING + LINE_ROOM;

/// Whether a writer of rows goes on.
#[derive(Clone, Copy)]
pub(crate) enum WriterState {
    /// No call returned a fault.
    Open,
    /// Memory for a line ran out. Those before it can be sent.
    OutOfMemory,
    /// The output failed.
    OutputFailed,
}

/// Writes rows to an output that is lent to each call. Lines may wait until they are sent together.
#[derive(Drop)]
pub struct RowWriter {
    // The lines that were not sent yet.
    lines: LineBuffer,
    has_notes: bool,
    state: WriterState,
    ghost roomy: { ROOM ≤ line_capacity lines },
    ghost separated: { is_delimiter lines.delimiter ≡ true },
}

impl RowWriter {
    ghost use Rattle.register_records.specs.Tables.{heading_line};
    ghost use Rattle.register_records.specs.Views.{layout_of, line_of, writing_of};
    ghost use Rattle.register_records.specs.Views.{has_output_failed, waiting_in, writer_failed, writes_by};

    /// Writes the heading and flushes it.
    ///
    /// # Errors
    ///
    /// `OutOfMemory`, with the output as it was, and `WriteFault` where the output has failed.
    #[tactic(auto, using(crate::proofs::StepLemmas::passed_on))]
    pub fn open<W: Output>(
        alloc: Global,
        output: &mut W,
        setup: &Setup,
    ) -> Result<RowWriter, RowFault>
        ensures ok { OnOk result (Appends (W.contents output.old) (W.contents output.new)
            (heading_line (layout_of setup.now))) }
        ensures flushed { OnOk result (W.is_flushed output.new ≡ true) }
        ensures writer { IfOk result (λ w. (writes_by w ≡ writing_of setup.now) × (writer_failed w ≡ false)
            × (waiting_in w ≡ [])) }
        ensures goes { OnOk result (W.has_failed output.new ≡ W.has_failed output.old) }
        ensures memory { IfErr result (λ e. e ≡ RowFault.OutOfMemory → output.new ≡ output.old) }
        ensures fault { IfErr result (λ e. e ≡ RowFault.WriteFault → W.has_failed output.new ≡ true) }
        ensures never { IfErr result (λ e. e ≢ RowFault.Failed) }
        ensures mark { W.own_mark output.new ≡ W.own_mark output.old }
    {
        let mut lines = LineBuffer::new(alloc, setup.delimiter(), ROOM)?;
        let has_notes = setup.form() == Form::Sealed;
        make_heading(&mut lines, has_notes, setup.targets());
        if send(output, lines.as_slice()).is_err() {
            return Err(RowFault::WriteFault);
        }
        lines.clear();
        Ok(RowWriter {
            lines,
            has_notes,
            state: WriterState::Open,
        })
    }

    /// Makes the line of a row, which waits behind those that wait already.
    ///
    /// # Errors
    ///
    /// `OutOfMemory`, never where at most 16 KiB of lines wait, `MOST_WAITING`, and `Failed` after a fault; then the same
    /// lines wait as before.
    pub fn add(&mut self, row: &Row) -> Result<(), RowFault>
        ensures ok { OnOk result (waiting_in self.new ≡ waiting_in self.old ++ line_of self.old row.now) }
        ensures short { OnOk result (length (waiting_in self.new) ≤ length (waiting_in self.old) + 1024) }
        ensures kept { OnErr result (waiting_in self.new ≡ waiting_in self.old) }
        ensures by { writes_by self.new ≡ writes_by self.old }
        ensures output_failed { has_output_failed self.new ≡ has_output_failed self.old }
        ensures fails { writer_failed self.new ≡ is_err result }
        ensures memory { writer_failed self.old ≡ false → IfErr result (λ e. e ≡ RowFault.OutOfMemory) }
        ensures roomy { length (waiting_in self.old) ≤ 16384 → IfErr result (λ e. e ≢ RowFault.OutOfMemory) }
        ensures failed { writer_failed self.old ≡ true → (result ≡ Err RowFault.Failed) × (self.new ≡ self.old) }
    {
        let WriterState::Open = self.state else {
            return Err(RowFault::Failed);
        };
        self.add_line(row)
    }

    /// The same for a writer of which no call returned a fault.
    ///
    /// # Errors
    ///
    /// `OutOfMemory` as there.
    #[inline(always)]
    pub(crate) fn add_line(&mut self, row: &Row) -> Result<(), RowFault>
        requires { writer_failed self.old ≡ false }
        ensures ok { OnOk result (waiting_in self.new ≡ waiting_in self.old ++ line_of self.old row.now) }
        ensures short { OnOk result (length (waiting_in self.new) ≤ length (waiting_in self.old) + 1024) }
        ensures kept { OnErr result (waiting_in self.new ≡ waiting_in self.old) }
        ensures by { writes_by self.new ≡ writes_by self.old }
        ensures output_failed { has_output_failed self.new ≡ has_output_failed self.old }
        ensures fails { writer_failed self.new ≡ is_err result }
        ensures memory { IfErr result (λ e. e ≡ RowFault.OutOfMemory) }
        ensures roomy { length (waiting_in self.old) ≤ 16384 → IsOk result }
    {
        if self.lines.reserve(LINE_ROOM).is_err() {
            self.state = WriterState::OutOfMemory;
            return Err(RowFault::OutOfMemory);
        }
        make_row(&mut self.lines, self.has_notes, row);
        Ok(())
    }

    /// How many bytes of lines wait.
    pub fn pending_len(&self) -> usize
        ensures { result ≡ length (waiting_in self.now) }
    {
        self.lines.len()
    }

    /// Writes the lines that wait and flushes them; then none waits. It does so where memory ran out, too.
    ///
    /// # Errors
    ///
    /// `WriteFault` where the output has failed, and `Failed` after it: then nothing is written.
    pub fn send<W: Output>(&mut self, output: &mut W) -> Result<(), RowFault>
        ensures ok { OnOk result (Appends (W.contents output.old) (W.contents output.new) (waiting_in self.old)) }
        ensures sent { OnOk result (waiting_in self.new ≡ []) }
        ensures flushed { OnOk result (W.is_flushed output.new ≡ true) }
        ensures by { writes_by self.new ≡ writes_by self.old }
        ensures goes { OnOk result (W.has_failed output.new ≡ W.has_failed output.old) }
        ensures fails { writer_failed self.new ≡ (writer_failed self.old || is_err result) }
        ensures output_failed { has_output_failed self.new ≡ is_err result }
        ensures fault { IfErr result (λ e. e ≡ RowFault.WriteFault → W.has_failed output.new ≡ true) }
        ensures first_fault { has_output_failed self.old ≡ false → IfErr result (λ e. e ≡ RowFault.WriteFault) }
        ensures failed { has_output_failed self.old ≡ true
            → (result ≡ Err RowFault.Failed) × (output.new ≡ output.old) × (self.new ≡ self.old) }
        ensures mark { W.own_mark output.new ≡ W.own_mark output.old }
    {
        if let WriterState::OutputFailed = self.state {
            return Err(RowFault::Failed);
        }
        self.send_lines(output)
    }

    /// The same for a writer whose output has not failed.
    ///
    /// # Errors
    ///
    /// `WriteFault` where the output has failed.
    #[inline(always)]
    pub(crate) fn send_lines<W: Output>(&mut self, output: &mut W) -> Result<(), RowFault>
        requires { has_output_failed self.old ≡ false }
        ensures ok { OnOk result (Appends (W.contents output.old) (W.contents output.new) (waiting_in self.old)) }
        ensures sent { OnOk result (waiting_in self.new ≡ []) }
        ensures flushed { OnOk result (W.is_flushed output.new ≡ true) }
        ensures by { writes_by self.new ≡ writes_by self.old }
        ensures goes { OnOk result (W.has_failed output.new ≡ W.has_failed output.old) }
        ensures fails { writer_failed self.new ≡ (writer_failed self.old || is_err result) }
        ensures output_failed { has_output_failed self.new ≡ is_err result }
        ensures fault { IfErr result (λ e. (e ≡ RowFault.WriteFault) × (W.has_failed output.new ≡ true)) }
        ensures mark { W.own_mark output.new ≡ W.own_mark output.old }
    {
        if send(output, self.lines.as_slice()).is_err() {
            self.state = WriterState::OutputFailed;
            return Err(RowFault::WriteFault);
        }
        self.lines.clear();
        Ok(())
    }

    /// Writes the lines that wait and then the line of a row, and flushes them; then none waits.
    ///
    /// # Errors
    ///
    /// `OutOfMemory`, with the output as it was, but never where at most `MOST_WAITING` bytes of lines wait;
    /// `WriteFault` where the output has failed; and `Failed` after a fault: then nothing is written.
    pub fn put<W: Output>(&mut self, output: &mut W, row: &Row) -> Result<(), RowFault>
        ensures ok { OnOk result (Appends (W.contents output.old) (W.contents output.new)
            (waiting_in self.old ++ line_of self.old row.now)) }
        ensures sent { OnOk result (waiting_in self.new ≡ []) }
        ensures flushed { OnOk result (W.is_flushed output.new ≡ true) }
        ensures by { writes_by self.new ≡ writes_by self.old }
        ensures goes { OnOk result
            ((W.has_failed output.new ≡ W.has_failed output.old) × (has_output_failed self.new ≡ false)) }
        ensures fails { writer_failed self.new ≡ is_err result }
        ensures memory { IfErr result (λ e. e ≡ RowFault.OutOfMemory → (output.new ≡ output.old)
            × (waiting_in self.new ≡ waiting_in self.old) × (has_output_failed self.new ≡ has_output_failed self.old)) }
        ensures roomy { length (waiting_in self.old) ≤ 16384 → IfErr result (λ e. e ≢ RowFault.OutOfMemory) }
        ensures fault { IfErr result (λ e. e ≡ RowFault.WriteFault
            → (W.has_failed output.new ≡ true) × (has_output_failed self.new ≡ true)) }
        ensures only_failed { writer_failed self.old ≡ false → IfErr result (λ e. e ≢ RowFault.Failed) }
        ensures failed { writer_failed self.old ≡ true
            → (result ≡ Err RowFault.Failed) × (output.new ≡ output.old) × (self.new ≡ self.old) }
        ensures mark { W.own_mark output.new ≡ W.own_mark output.old }
    {
        match self.add(row) {
            Ok(()) => self.send(output),
            Err(fault) => Err(fault),
        }
    }

    /// Ends the writing.
    ///
    /// # Errors
    ///
    /// `Failed` exactly where an earlier call returned a fault.
    pub fn end(self) -> Result<(), RowFault>
        ensures { result ≡ (if writer_failed self then Err RowFault.Failed else Ok tt) }
    {
        match self.state {
            WriterState::Open => Ok(()),
            WriterState::OutOfMemory | WriterState::OutputFailed => Err(RowFault::Failed),
        }
    }
}
