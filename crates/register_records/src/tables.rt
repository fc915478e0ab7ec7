//! A table in the making: its heading, the lines of its rows, of which some may wait, and its journal.

ghost use Rattle.std.specs.Prelude.{◌≡◌, ◌≢◌, ◌↔◌, ◌⊎◌, ◌+◌, ◌≤◌, [], ◌∷◌, ◌++◌, List, None, Some, IfSome, true, false};
ghost use Rattle.std.specs.Prelude.{IfErr, IsOk, OnErr, OnOk, length, vec_len};
ghost use Rattle.std.proofs.Props.{props};
ghost use Rattle.register_records.specs.Causes.{row_fault_cause};
ghost use Rattle.register_records.specs.Entries.{record_limit};
ghost use Rattle.register_records.specs.Sources.{IfBroken, IfWhole};
ghost use Rattle.register_records.specs.TableStates.{fault_of, is_of_table, lost_output};
ghost use Rattle.register_records.specs.Tables.{refusal_notes};
ghost use Rattle.register_records.specs.Views.{has_output_failed, line_of, row_seen, waiting_in, writer_failed};
ghost use Rattle.register_records.specs.Views.{writes_by};
ghost use Rattle.register_records.specs.declared.ends.Cause.TheVariants as cause;

use crate::ends::{Cause, Note, SourceEnd};
use crate::outputs::Output;
use crate::rows::Row;
use crate::setups::Setup;
use crate::writing::{RowFault, RowWriter};
use std::alloc::Global;
use std::snapshot::Snapshot;

/// How far a table goes on.
#[derive(Clone, Copy)]
pub(crate) enum TableState {
    /// Rows are added.
    Open,
    /// No more is added, for this cause. The output has not failed.
    Halted(Cause),
    /// The output has failed. This cause, the first that was met, stays.
    OutputFailed(Cause),
}

impl TableState {
    /// Why no more rows are added.
    fn fault(self) -> Option<Cause>
        ensures { result ≡ fault_of self }
    {
        match self {
            TableState::Open => None,
            TableState::Halted(cause) | TableState::OutputFailed(cause) => Some(cause),
        }
    }

    /// How a table goes on after a fault of its writer. A cause that was met before stays.
    fn after(self, fault: RowFault) -> TableState
        ensures output { (lost_output result ≡ true) ↔ (fault ≡ RowFault.WriteFault) }
        ensures first { IfSome (fault_of self) (λ c. fault_of result ≡ Some c) }
        ensures cause { fault_of self ≡ None → fault_of result ≡ Some (row_fault_cause fault) }
    {
        let cause = self.fault().unwrap_or(Cause::from(fault));
        match fault {
            RowFault::WriteFault => TableState::OutputFailed(cause),
            RowFault::OutOfMemory | RowFault::Failed => TableState::Halted(cause),
        }
    }
}

/// A table in the making, for one output, which is lent to each call. Lines may wait until they are sent together. From
/// its first fault on it takes no more rows.
#[derive(Drop)]
pub struct Table<W> {
    alloc: Global,
    setup: Setup,
    given: Snapshot<W>,
    // There is one once the heading was written.
    writer: Option<RowWriter>,
    journal: Vec<Note>,
    rows: u32,
    state: TableState,
    ghost working: { fault_of state ≡ None → IfSome writer (λ w. writer_failed w ≡ false) } by { Prim.hlevel props },
    ghost unfailed: { lost_output state ≡ false
        → IfSome writer (λ w. has_output_failed w ≡ false) } by { Prim.hlevel props },
    pub ghost sink_fault: { fault_of state ≡ Some cause.SinkFault → lost_output state ≡ true },
    pub ghost of_table: { IfSome (fault_of state) (λ c. is_of_table c ≡ true) } by { Prim.hlevel props },
    ghost limited: { rows ≤ record_limit },
    ghost few_refused: { vec_len journal ≤ rows },
}

impl<W: Output> Table<W> {
    ghost use Rattle.register_records.specs.TablesWritten.{HasEnded, Holds, IsNextRow, IsSameTable, has_lost_output, is_headed};
    ghost use Rattle.register_records.specs.TablesWritten.{made_by, made_for, table_fault, waiting_of};
    ghost use Rattle.register_records.specs.declared.rows.Row.{Row};

    /// The table of a setup for an output, before its heading.
    #[tactic(auto, using(crate::proofs::TableLemmas::no_notes))]
    pub fn new(alloc: Global, output: &W, setup: &Setup) -> Table<W>
        ensures output { made_for result ≡ output.now }
        ensures setup { made_by result ≡ setup.now }
        ensures fault { table_fault result ≡ None }
        ensures none { waiting_of result ≡ [] }
        ensures empty { Holds W.Output result output.now [] }
    {
        Table {
            alloc,
            setup: *setup,
            given: Snapshot::of(output),
            writer: None,
            journal: Vec::new(alloc),
            rows: 0,
            state: TableState::Open,
        }
    }

    /// Writes the heading and flushes it, unless it was written or a fault was met before.
    ///
    /// The fault may be `NoMemory`, with the output as it was, and `SinkFault` where the output has failed.
    // Inlined, since a table asks for it before each row.
    #[inline(always)]
    #[tactic(auto, using(crate::proofs::TableLemmas::stands_headed, crate::proofs::TableLemmas::stands_none))]
    pub fn write_heading(&mut self, output: &mut W)
        ensures same { IsSameTable self.old self.new }
        ensures rows { (rows : List Row) → Holds W.Output self.old output.old rows
            → Holds W.Output self.new output.new rows }
        ensures headed { table_fault self.new ≡ None → is_headed self.new ≡ true }
        ensures fault { table_fault self.old ≡ None → table_fault self.new ≢ Some cause.Unconfirmed }
        ensures lost { table_fault self.old ≡ None → has_lost_output self.new ≡ true
            → table_fault self.new ≡ Some cause.SinkFault }
        ensures once { is_headed self.old ≡ true → (self.new ≡ self.old) × (output.new ≡ output.old) }
        ensures untouched { is_headed self.new ≡ false → has_lost_output self.new ≡ false → output.new ≡ output.old }
        ensures halted { IfSome (table_fault self.old) (λ c. (self.new ≡ self.old) × (output.new ≡ output.old)) }
        ensures waiting { waiting_of self.new ≡ waiting_of self.old }
    {
        if self.fault().is_some() || self.writer.is_some() {
            return;
        }
        match RowWriter::open(self.alloc, output, &self.setup) {
            Ok(writer) => self.writer = Some(writer),
            Err(fault) => self.state = self.state.after(fault),
        }
    }

    /// Adds a row, unless a fault was met before: its line waits to be sent, and its refusal is noted.
    ///
    /// The fault is `Unconfirmed` where the row has another number than the next one or other targets, or where the
    /// heading was not written, and `NoMemory` where memory ran out for the line or the note. Then nothing is added.
    pub fn add(&mut self, row: &Row)
        ensures same { IsSameTable self.old self.new }
        ensures added { table_fault self.new ≡ None → (output : W) (rows : List Row)
            → Holds W.Output self.old output rows → Holds W.Output self.new output (rows ++ row.now ∷ []) }
        ensures refused { (table_fault self.new ≢ None) → (output : W) (rows : List Row)
            → Holds W.Output self.old output rows → Holds W.Output self.new output rows }
        ensures unconfirmed { table_fault self.old ≡ None
            → (table_fault self.new ≡ Some cause.Unconfirmed) ↔ (IsNextRow self.old row.now → ⊥) }
        ensures roomy { table_fault self.old ≡ None → length (waiting_of self.old) ≤ 16384
            → refusal_notes (row_seen row.now).number (row_seen row.now).outcome ≡ []
            → table_fault self.new ≢ Some cause.NoMemory }
        ensures lost { has_lost_output self.new ≡ has_lost_output self.old }
        ensures heading { is_headed self.new ≡ is_headed self.old }
        ensures halted { IfSome (table_fault self.old) (λ c. self.new ≡ self.old) }
        ensures waiting { (table_fault self.new ≢ None) → waiting_of self.new ≡ waiting_of self.old }
        ensures short { length (waiting_of self.new) ≤ length (waiting_of self.old) + 1024 }
    {
        if self.fault().is_some() {
            return;
        }
        if !self.is_next(row) {
            self.state = TableState::Halted(Cause::Unconfirmed);
            return;
        }
        let _ = self.add_next(row);
    }

    /// Adds the next row of a table that goes on: its line waits to be sent, and its refusal is noted.
    ///
    /// # Errors
    ///
    /// `NoMemory` where memory ran out for the line or the note. Then nothing is added.
    #[inline(always)]
    fn add_next(&mut self, row: &Row) -> Result<(), Cause>
        requires open { table_fault self.old ≡ None }
        requires next { IsNextRow self.old row.now }
        ensures same { IsSameTable self.old self.new }
        ensures added { OnOk result ((output : W) (rows : List Row)
            → Holds W.Output self.old output rows → Holds W.Output self.new output (rows ++ row.now ∷ [])) }
        ensures refused { OnErr result ((output : W) (rows : List Row)
            → Holds W.Output self.old output rows → Holds W.Output self.new output rows) }
        ensures open { OnOk result (table_fault self.new ≡ None) }
        ensures memory { IfErr result (λ c. (c ≡ cause.NoMemory) × (table_fault self.new ≡ Some c)) }
        ensures roomy { length (waiting_of self.old) ≤ 16384
            → refusal_notes (row_seen row.now).number (row_seen row.now).outcome ≡ [] → IsOk result }
        ensures lost { has_lost_output self.new ≡ has_lost_output self.old }
        ensures heading { is_headed self.new ≡ is_headed self.old }
        ensures waiting { OnErr result (waiting_of self.new ≡ waiting_of self.old) }
        ensures short { length (waiting_of self.new) ≤ length (waiting_of self.old) + 1024 }
    {
        let Some(writer) = &mut self.writer else {
            unreachable!();
        };
        if let Err(fault) = append(writer, &mut self.journal, row) {
            let cause = Cause::from(fault);
            self.state = TableState::Halted(cause);
            return Err(cause);
        }
        self.rows += 1;
        Ok(())
    }

    /// Adds the next row of a table that goes on, and writes the lines that wait with that of the row and flushes them.
    ///
    /// # Errors
    ///
    /// `NoMemory` where memory ran out for the line or the note: then nothing is added and nothing written. `SinkFault`
    /// where the output has failed.
    #[inline(always)]
    pub(crate) fn put_next(&mut self, output: &mut W, row: &Row) -> Result<(), Cause>
        requires open { table_fault self.old ≡ None }
        requires next { IsNextRow self.old row.now }
        ensures same { IsSameTable self.old self.new }
        ensures put { OnOk result ((rows : List Row) → Holds W.Output self.old output.old rows
            → Holds W.Output self.new output.new (rows ++ row.now ∷ [])) }
        ensures sent { OnOk result ((table_fault self.new ≡ None) × (waiting_of self.new ≡ [])) }
        ensures heading { is_headed self.new ≡ is_headed self.old }
        ensures fault { IfErr result (λ c. ((c ≡ cause.NoMemory) ⊎ (c ≡ cause.SinkFault))
            × (table_fault self.new ≡ Some c)) }
        ensures memory { IfErr result (λ c. c ≡ cause.NoMemory → (output.new ≡ output.old)
            × (has_lost_output self.new ≡ false) × (waiting_of self.new ≡ waiting_of self.old)
            × ((rows : List Row) → Holds W.Output self.old output.old rows → Holds W.Output self.new output.new rows)) }
        ensures sink { IfErr result (λ c. c ≡ cause.SinkFault → W.has_failed output.new ≡ true) }
        ensures mark { W.own_mark output.new ≡ W.own_mark output.old }
    {
        match self.add_next(row) {
            Ok(()) => self.send_lines(output),
            Err(cause) => Err(cause),
        }
    }

    /// Whether the heading was written, and the row has the next number and the setup's targets.
    fn is_next(&self, row: &Row) -> bool
        ensures { (result ≡ true) ↔ IsNextRow self.now row.now }
    {
        self.writer.is_some() && row.entry().number() == self.rows + 1 && row.is_for(&self.setup)
    }

    /// Writes the lines that wait in one call and flushes them, also where a fault was met that is not of the output.
    ///
    /// The fault may be `SinkFault`, where the output has failed; one that was met before stays.
    pub fn send(&mut self, output: &mut W)
        ensures same { IsSameTable self.old self.new }
        ensures rows { (rows : List Row) → Holds W.Output self.old output.old rows
            → Holds W.Output self.new output.new rows }
        ensures sent { waiting_of self.new ≡ [] }
        ensures first { IfSome (table_fault self.old) (λ c. table_fault self.new ≡ Some c) }
        ensures fault { table_fault self.old ≡ None → IfSome (table_fault self.new) (λ c. c ≡ cause.SinkFault) }
        ensures heading { is_headed self.new ≡ is_headed self.old }
        ensures untouched { is_headed self.old ≡ false → output.new ≡ output.old }
        ensures idle { waiting_of self.old ≡ [] → (self.new ≡ self.old) × (output.new ≡ output.old) }
    {
        if self.pending_len() == 0 {
            return;
        }
        let _ = self.send_lines(output);
    }

    /// Writes the lines that wait of a table whose output has not failed, and flushes them.
    ///
    /// # Errors
    ///
    /// `SinkFault` where the output has failed. A fault that was met before stays that of the table.
    #[inline(always)]
    fn send_lines(&mut self, output: &mut W) -> Result<(), Cause>
        requires { has_lost_output self.old ≡ false }
        ensures same { IsSameTable self.old self.new }
        ensures rows { (rows : List Row) → Holds W.Output self.old output.old rows
            → Holds W.Output self.new output.new rows }
        ensures sent { waiting_of self.new ≡ [] }
        ensures goes { OnOk result (table_fault self.new ≡ table_fault self.old) }
        ensures first { IfSome (table_fault self.old) (λ c. table_fault self.new ≡ Some c) }
        ensures fault { table_fault self.old ≡ None → IfErr result (λ c. table_fault self.new ≡ Some c) }
        ensures sink { IfErr result (λ c. (c ≡ cause.SinkFault) × (W.has_failed output.new ≡ true)) }
        ensures heading { is_headed self.new ≡ is_headed self.old }
        ensures untouched { is_headed self.old ≡ false → output.new ≡ output.old }
        ensures mark { W.own_mark output.new ≡ W.own_mark output.old }
    {
        let Some(writer) = &mut self.writer else {
            return Ok(());
        };
        if let Err(fault) = writer.send_lines(output) {
            self.state = self.state.after(fault);
            return Err(Cause::from(fault));
        }
        Ok(())
    }

    /// How many bytes of lines wait; where the output has failed, none.
    pub fn pending_len(&self) -> usize
        ensures { result ≡ length (waiting_of self.now) }
    {
        match (self.state, &self.writer) {
            (TableState::OutputFailed(_), _) | (_, None) => 0,
            (_, Some(writer)) => writer.pending_len(),
        }
    }

    /// Why no more rows are added, if a fault was met.
    pub fn fault(&self) -> Option<Cause>
        ensures { result ≡ table_fault self.now }
    {
        self.state.fault()
    }

    /// What the table was asked for.
    pub fn setup(&self) -> &Setup
        ensures { result.now ≡ made_by self.now }
    {
        &self.setup
    }

    /// Whether the heading was written.
    pub fn has_heading(&self) -> bool
        ensures { result ≡ is_headed self.now }
    {
        self.writer.is_some()
    }

    /// How many rows were added.
    pub fn rows(&self) -> u32
        ensures { result ≡ self.now.rows }
    {
        self.rows
    }

    /// How the table ended: whole, or broken by the fault that was met.
    pub fn end(self) -> SourceEnd
        ensures whole { IfWhole result (HasEnded self) }
        ensures numbers { IfWhole result (λ rows refused journal. (refused ≤ rows) × (rows ≤ record_limit)) }
        ensures broken { IfBroken result (λ c. table_fault self ≡ Some c) }
    {
        match self.state.fault() {
            Some(cause) => SourceEnd::Broken { cause },
            None => SourceEnd::Whole {
                rows: self.rows,
                refused: self.journal.len() as u32,
                journal: self.journal,
            },
        }
    }
}

/// Appends the line of a row to those that wait, and its refusal to the journal.
///
/// # Errors
///
/// `OutOfMemory` where the lines or the journal are refused their memory; then the same lines wait as before.
#[inline(always)]
fn append(writer: &mut RowWriter, journal: &mut Vec<Note>, row: &Row) -> Result<(), RowFault>
    requires { writer_failed writer.old ≡ false }
    ensures line { OnOk result (waiting_in writer.new ≡ waiting_in writer.old ++ line_of writer.old row.now) }
    ensures noted { OnOk result (journal.new.items
        ≡ journal.old.items ++ refusal_notes (row_seen row.now).number (row_seen row.now).outcome) }
    ensures few { vec_len journal.new ≤ vec_len journal.old + 1 }
    ensures kept { OnErr result ((waiting_in writer.new ≡ waiting_in writer.old)
        × (journal.new.items ≡ journal.old.items)) }
    ensures short { OnOk result (length (waiting_in writer.new) ≤ length (waiting_in writer.old) + 1024) }
    ensures by { writes_by writer.new ≡ writes_by writer.old }
    ensures failed { OnOk result (writer_failed writer.new ≡ false) }
    ensures output { has_output_failed writer.new ≡ has_output_failed writer.old }
    ensures memory { IfErr result (λ e. e ≡ RowFault.OutOfMemory) }
    ensures roomy { length (waiting_in writer.old) ≤ 16384
        → refusal_notes (row_seen row.now).number (row_seen row.now).outcome ≡ [] → IsOk result }
{
    let note = row.refusal_note();
    if note.is_some() {
        journal.reserve(1)?;
    }
    writer.add_line(row)?;
    if let Some(note) = note {
        journal.push_reserved(note);
    }
    Ok(())
}
