//! The row of an entry, and how it is made.

ghost use Rattle.std.specs.Prelude.{◌≡◌, ◌≤◌, length, map, true};
ghost use Rattle.date_texts.specs.declared.target.TheConstants.{MAX_TARGETS};
ghost use Rattle.register_records.specs.Entries.{HaveOneDate, body_seen};
ghost use Rattle.register_records.specs.Outcomes.{AreCells, IsOutcome, IsRowOf};
ghost use Rattle.register_records.specs.RowTails.{cells_of, fields_of};
ghost use Rattle.register_records.specs.ShortLists.{items_in};
ghost use Rattle.register_records.specs.Seen.{entry_seen, outcome_seen, row_made};
ghost use Rattle.register_records.specs.private.TableColumns.{tail_texts};

use crate::ends::Note;
use crate::entries::{Body, Entry};
use crate::lines::LineBuffer;
use crate::reading::{EntryFault, EntryReader};
use crate::row_tails::{RowTail, behind_field, is_same_outcome};
use crate::setups::Setup;
use crate::short_lists::ShortList;
use crate::target_lists::TargetList;
use date_texts::laws::{one_calendar, one_cell, one_date_text};
use date_texts::{MAX_TARGETS, Refusal, Target, calendar_named, day_of_date, read_date};
use day_numbers::Day;
use std::io::Read;
use std::snapshot::Snapshot;

/// An entry converted: its day, and the cells of that day for the targets that the row was made for;
/// or the first refusal that applies. A row always is the row of its entry.
#[derive(Clone, Copy)]
pub struct Row {
    entry: Entry,
    outcome: Result<Day, Refusal>,
    targets: TargetList,
    pub(crate) tail: RowTail,
    pub ghost is_row: { ∥ IsRowOf (items_in targets.items) (entry_seen entry)
        (row_made entry outcome (cells_of (items_in targets.items) outcome tail)) ∥₁ },
    ghost written: { fields_of tail ≡ tail_texts (items_in targets.items) (outcome_seen outcome)
        (cells_of (items_in targets.items) outcome tail) },
}

/// The day of a body, or the first refusal that applies.
// One function for all callers, into which all that it calls is inlined.
#[inline(never)]
fn day_of_body(body: &Body) -> Result<Day, Refusal>
    ensures { IsOutcome (body_seen body.now) (outcome_seen result) }
{
    match body {
        Body::Refused(refusal) => Err(*refusal),
        Body::Fields { calendar, date, .. } => {
            let Some(calendar) = calendar_named(calendar.as_str()) else {
                return Err(Refusal::UnknownCalendar);
            };
            let date = match read_date(calendar, date.as_str()) {
                Ok(date) => date,
                Err(refusal) => return Err(refusal),
            };
            day_of_date(&date)
        }
    }
}

/// Whether two bodies have the same calendar and date, as they stand in them.
#[inline(always)]
fn have_one_date(body: &Body, other: &Body) -> bool
    ensures { result ≡ true → HaveOneDate (body_seen body.now) (body_seen other.now) }
{
    match other {
        Body::Fields { calendar, date, .. } => {
            body.has_date(calendar.as_str().as_bytes(), date.as_str().as_bytes())
        }
        Body::Refused(_) => false,
    }
}

/// The outcome of a body: that of the body before where both are known to have the same calendar and date, as in a
/// register in order of time.
#[inline(always)]
fn next_outcome(
    before: Snapshot<Body>,
    outcome: Result<Day, Refusal>,
    body: &Body,
    same_date: bool,
) -> Result<Day, Refusal>
    requires known { ∥ IsOutcome (body_seen before.value) (outcome_seen outcome) ∥₁ }
    requires same_date { same_date ≡ true → HaveOneDate (body_seen before.value) (body_seen body.now) }
    ensures { IsOutcome (body_seen body.now) (outcome_seen result) }
{
    one_calendar();
    one_date_text();
    one_cell();
    if same_date {
        return outcome;
    }
    day_of_body(body)
}

/// Turns the outcome, the targets and the tail of a row into those of an entry with the next outcome, for the setup's
/// targets.
#[inline(always)]
#[tactic(auto, using(crate::proofs::RowTailLemmas::known_cells))]
fn reconvert(
    entry: &Entry,
    next: Result<Day, Refusal>,
    outcome: &mut Result<Day, Refusal>,
    targets: &mut TargetList,
    tail: &mut RowTail,
    setup: &Setup,
)
    requires outcome { IsOutcome (body_seen entry.now.body) (outcome_seen next) }
    requires cells { ∥ AreCells (items_in targets.old.items) (outcome_seen outcome.old)
        (cells_of (items_in targets.old.items) outcome.old tail.old) ∥₁ }
    requires written { fields_of tail.old ≡ tail_texts (items_in targets.old.items) (outcome_seen outcome.old)
        (cells_of (items_in targets.old.items) outcome.old tail.old) }
    ensures targets { items_in targets.new.items ≡ items_in setup.now.targets.items }
    ensures row { IsRowOf (items_in targets.new.items) (entry_seen entry.now)
        (row_made entry.now outcome.new (cells_of (items_in targets.new.items) outcome.new tail.new)) }
    ensures written { fields_of tail.new ≡ tail_texts (items_in targets.new.items) (outcome_seen outcome.new)
        (cells_of (items_in targets.new.items) outcome.new tail.new) }
{
    one_cell();
    // It stands where all of it is as before, as for a second entry on a day in a register in order of time.
    if is_same_outcome(*outcome, next)
        && tail.delimiter == setup.delimiter()
        && targets.is_same(&setup.targets)
    {
        return;
    }
    tail.set(&setup.targets, next, setup.delimiter());
    *outcome = next;
    *targets = setup.targets;
}

impl Row {
    ghost use Rattle.std.specs.Prelude.{◌+◌, ◌↔◌, ◌∷◌, [], drop, true, Ok, MatchOption};
    ghost use Rattle.register_records.specs.LineRoom.{GainsFields};
    ghost use Rattle.register_records.specs.LineViews.{GrowsBy, line_bytes, line_capacity};
    ghost use Rattle.register_records.specs.NextEntries.{ReadsNext};
    ghost use Rattle.register_records.specs.SetupRules.{is_delimiter};
    ghost use Rattle.register_records.specs.Tables.{refusal_notes};
    ghost use Rattle.register_records.specs.Views.{row_delimiter, row_seen, row_targets, tail_shown};
    ghost use Rattle.register_records.specs.private.Tails.{tail_fields};
    ghost use Rattle.register_records.specs.Views.{targets_of};
    ghost use Rattle.register_records.specs.declared.row_tails.TheConstants.{TAIL_ROOM};
    ghost use Rattle.register_records.specs.declared.table_columns.TheConstants.{CELLS_PLACE};

    /// A row before any entry was converted: that of an entry without texts, for no target.
    pub fn blank() -> Row
        ensures number { result.entry.number ≡ 1 }
        ensures texts { body_seen result.entry.body ≡ Ok (record { id = []; calendar = []; date = []; note = [] }) }
        ensures targets { row_targets result ≡ [] }
    {
        let entry = Entry::blank();
        let outcome = day_of_body(entry.body());
        let targets = TargetList::new(&[]);
        let mut row = Row {
            entry,
            outcome,
            targets,
            tail: RowTail::new(b','),
        };
        row.tail.set(&targets, outcome, b',');
        row
    }

    /// Makes this the row of an entry for the setup's targets, where it lies, as [`convert`](crate::convert) does: a
    /// row is large.
    pub fn renew(&mut self, entry: &Entry, setup: &Setup)
        ensures entry { self.new.entry ≡ entry.now }
        ensures targets { row_targets self.new ≡ targets_of setup.now }
        ensures row { IsRowOf (targets_of setup.now) (entry_seen entry.now) (row_seen self.new) }
    {
        let same_date = have_one_date(self.entry.body(), entry.body());
        let before = Snapshot::of(self.entry.body());
        let next = next_outcome(before, self.outcome, entry.body(), same_date);
        self.entry = *entry;
        reconvert(
            entry,
            next,
            &mut self.outcome,
            &mut self.targets,
            &mut self.tail,
            setup,
        );
    }

    /// Reads the next entry into this row and converts it, where the row before lay, and says whether there was one.
    /// Where there was none, this stays the row that it was.
    ///
    /// # Errors
    ///
    /// The fault of reading.
    pub(crate) fn read_next<R: Read + Drop>(
        &mut self,
        entries: &mut EntryReader<R>,
        setup: &Setup,
    ) -> Result<bool, EntryFault>
        ensures reads { ReadsNext entries.old entries.new self.new.entry result }
        ensures targets { result ≡ Ok true → row_targets self.new ≡ targets_of setup.now }
        ensures row { result ≡ Ok true
            → IsRowOf (targets_of setup.now) (entry_seen self.new.entry) (row_seen self.new) }
    {
        let before = Snapshot::of(self.entry.body());
        match entries.read_next(&mut self.entry) {
            Ok(true) => (),
            Ok(false) => return Ok(false),
            Err(fault) => return Err(fault),
        }
        let next = next_outcome(before, self.outcome, self.entry.body(), entries.same_date);
        reconvert(
            &self.entry,
            next,
            &mut self.outcome,
            &mut self.targets,
            &mut self.tail,
            setup,
        );
        Ok(true)
    }

    /// The entry.
    pub fn entry(&self) -> &Entry
        ensures { result.now ≡ self.now.entry }
    {
        &self.entry
    }

    /// The targets that the row was made for, in the order of its cells.
    pub fn targets(&self) -> &[Target]
        ensures value { result.now ≡ row_targets self.now }
        ensures few { length result.now ≤ MAX_TARGETS }
    {
        self.targets.as_slice()
    }

    /// The day, or the first refusal that applies.
    pub fn outcome(&self) -> Result<Day, Refusal>
        ensures { result ≡ self.now.outcome }
    {
        self.outcome
    }

    /// The cells, one for each target; a refused row has none.
    pub fn cells(&self) -> ShortList<&[u8]>
        ensures value { map (λ cell. cell.now) (items_in result) ≡ (row_seen self.now).cells }
        ensures row { ∥ IsRowOf (row_targets self.now) (entry_seen self.now.entry) (row_seen self.now) ∥₁ }
    {
        let count = if self.outcome.is_ok() {
            self.targets.as_slice().len()
        } else {
            0
        };
        self.tail.cells(count)
    }

    /// The fields of the row behind those of its entry, as a table with another delimiter has them: written anew.
    #[inline(never)]
    pub(crate) fn tail_with(&self, delimiter: u8) -> RowTail
        requires { is_delimiter delimiter ≡ true }
        ensures value { fields_of result ≡ tail_fields self.now }
        ensures delimiter { result.delimiter ≡ delimiter }
    {
        one_cell();
        let mut tail = RowTail::new(delimiter);
        tail.set(&self.targets, self.outcome, delimiter);
        tail
    }

    /// The byte before each field of a table that the row was made for.
    pub fn delimiter(&self) -> u8
        ensures { result ≡ row_delimiter self.now }
    {
        self.tail.delimiter
    }

    /// Appends to a line what a table with the same delimiter shows of the row behind its entry, without the first
    /// columns, so many: the first is the day's number, the second its weekday, and then come the cells and the refusal.
    pub fn put_tail_from(&self, lines: &mut LineBuffer, passed: usize)
        requires same { lines.old.delimiter ≡ row_delimiter self.now }
        requires few { passed ≤ CELLS_PLACE }
        requires room { lines.old.len + TAIL_ROOM ≤ line_capacity lines.old }
        ensures value { GainsFields lines.old.delimiter (drop passed (tail_shown self.now)) (line_bytes lines.old)
            (line_bytes lines.new) }
        ensures grows { GrowsBy TAIL_ROOM lines.old lines.new }
    {
        let mut bytes = self.tail.as_slice();
        'passed: for _ in 0..passed {
            bytes = behind_field(bytes, self.tail.delimiter);
        }
        lines.written(bytes);
    }

    /// Whether the row was made for the setup's targets.
    pub fn is_for(&self, setup: &Setup) -> bool
        ensures { (result ≡ true) ↔ (row_targets self.now ≡ targets_of setup.now) }
    {
        self.targets.is_same(&setup.targets)
    }

    /// What the journal gains by the row: its number and its refusal, where it was refused.
    pub fn refusal_note(&self) -> Option<Note>
        ensures { MatchOption result (refusal_notes (row_seen self.now).number (row_seen self.now).outcome ≡ [])
            (λ n. refusal_notes (row_seen self.now).number (row_seen self.now).outcome ≡ n ∷ []) }
    {
        match self.outcome {
            Ok(_) => None,
            Err(refusal) => Some(Note {
                number: self.entry.number(),
                refusal,
            }),
        }
    }
}
