//! The tail of a row as its line has it: the day, its weekday and its cells, or the refusal.
//!
//! It is written once, where the row is converted, so that the thread that writes tables copies it as it is.

ghost use Rattle.std.specs.Fmt.{decimal, signed_decimal};
ghost use Rattle.std.specs.Prelude.{◌≡◌, ◌==◌, ◌≤◌, ◌+◌, ◌*◌, ◌++◌, ◌∷◌, [], List, ℕ, true, false, length, take};
ghost use Rattle.std.specs.List.{position_or_len};
ghost use Rattle.csv.specs.Writing.{fields_text, needs_quotes};
ghost use Rattle.day_numbers.specs.Days.{IsDayNumber};
ghost use Rattle.date_texts.specs.Calendars.{default_targets};
ghost use Rattle.date_texts.specs.Refusals.{refusal_number};
ghost use Rattle.date_texts.specs.declared.target.TheConstants.{MAX_TARGETS};
ghost use Rattle.date_texts.specs.declared.cells.TheConstants.{MAX_CELL};
ghost use Rattle.register_records.specs.LineRoom.{writing};
ghost use Rattle.register_records.specs.private.LineRoom.{plain_room};
ghost use Rattle.register_records.specs.Lines.{fields_behind};
ghost use Rattle.register_records.specs.Outcomes.{AreCells};
ghost use Rattle.register_records.specs.Seen.{outcome_seen};
ghost use Rattle.register_records.specs.SetupRules.{is_delimiter};
ghost use Rattle.register_records.specs.private.TableColumns.{IsCellField, column_texts, tail_texts};
ghost use Rattle.register_records.specs.declared.row_tails.TheConstants.{CELL_ROOM, TAIL_ROOM};

use crate::short_lists::ShortList;
use crate::table_columns::{
    CELLS_PLACE, ColumnKind, DAY_NUMBER_LIMIT, REFUSAL_LIMIT, WEEKDAY_LIMIT,
};
use crate::target_lists::TargetList;
use date_texts::laws::{cells_are_plain, one_cell};
use date_texts::{
    MAX_CELL, MAX_TARGETS, Refusal, Target, put_byte, put_bytes, put_integer, write_cell_within,
};
use day_numbers::Day;
use itoa::Buffer;

/// Room for a cell behind its delimiter.
const CELL_ROOM: usize = 1 + MAX_CELL;

/// Room in bytes for the longest tail: what stands in each column of a tail, behind a delimiter.
pub const TAIL_ROOM: usize = (1 + DAY_NUMBER_LIMIT)
    + (1 + WEEKDAY_LIMIT)
    + MAX_TARGETS * CELL_ROOM
    + (1 + REFUSAL_LIMIT);

/// The fields of a tail, each behind a delimiter. None of them needs quotes.
#[derive(Clone, Copy)]
pub(crate) struct RowTail {
    buffer: [u8; TAIL_ROOM],
    len: u16,
    // The byte before each field.
    pub(crate) delimiter: u8,
    ghost held: { len ≤ TAIL_ROOM },
    ghost separated: { is_delimiter delimiter ≡ true },
    ghost plain: { take len buffer ≡ fields_text (writing delimiter) (fields_behind delimiter (take len buffer)) },
}

/// Writes what stands in the column of a target, which is nothing for a refused row, to the front of a cell's room.
/// Returns how many bytes it has.
#[inline(always)]
fn write_field(room: &mut [u8], target: Target, outcome: Result<Day, Refusal>) -> u8
    requires { MAX_CELL ≤ length room.old }
    ensures few { result ≤ MAX_CELL }
    ensures value { IsCellField (outcome_seen outcome) target (take result room.new) }
{
    match outcome {
        Ok(day) => match write_cell_within(room, target, day) {
            Some(count) => count,
            None => unreachable!(),
        },
        Err(_) => 0,
    }
}

/// Writes a delimiter to a place in the bytes of a tail, and behind it what stands in the column of a target. Returns
/// where that ends: what lies behind is written over by the next field.
#[inline(always)]
#[tactic(auto, using(crate::proofs::LineLemmas::put_after))]
fn put_cell(
    bytes: &mut [u8; TAIL_ROOM],
    at: usize,
    delimiter: u8,
    target: Target,
    outcome: Result<Day, Refusal>,
) -> usize
    requires { at + CELL_ROOM ≤ TAIL_ROOM }
    ensures value { (cell : List ℕ) × IsCellField (outcome_seen outcome) target cell
        × (take result bytes.new ≡ take at bytes.old ++ delimiter ∷ cell) }
    ensures grows { result ≤ at + CELL_ROOM }
{
    bytes[at] = delimiter;
    let room = &mut bytes[at + 1..at + CELL_ROOM];
    let len = write_field(room, target, outcome);
    at + 1 + len as usize
}

/// Writes the cells of the targets at these places, one behind the other, as [`put_cell`] does.
macro_rules! put_default_cells {
    ($bytes:ident, $end:ident, $delimiter:ident, $targets:ident, $outcome:ident, $($place:literal),+) => {
        $($end = put_cell($bytes, $end, $delimiter, $targets[$place], $outcome);)+
    };
}

/// Where a delimiter stands first, or how many bytes there are.
fn place_of(bytes: &[u8], delimiter: u8) -> usize
    ensures value { result ≡ position_or_len (λ (b : ℕ). b == delimiter) bytes.now }
    ensures within { result ≤ length bytes.now }
{
    'bytes: for i in 0..bytes.len() {
        if bytes[i] == delimiter {
            return i;
        }
    }
    bytes.len()
}

/// What stands behind the first of some fields, each of which stands behind a delimiter. It needs no quotes, so the next
/// delimiter ends it.
#[inline(always)]
pub(crate) fn behind_field(bytes: &[u8], delimiter: u8) -> &[u8]
    ensures value { (field : List ℕ) (more : List (List ℕ)) → needs_quotes (writing delimiter) field ≡ false
        → bytes.now ≡ fields_text (writing delimiter) (field ∷ more)
        → result.now ≡ fields_text (writing delimiter) more }
    ensures short { length result.now ≤ length bytes.now }
{
    let start = bytes.len().min(1);
    let rest = &bytes[start..];
    &rest[place_of(rest, delimiter)..]
}

/// Whether two outcomes are one.
pub(crate) fn is_same_outcome(outcome: Result<Day, Refusal>, other: Result<Day, Refusal>) -> bool
    ensures { result ≡ true → outcome_seen outcome ≡ outcome_seen other }
{
    match (outcome, other) {
        (Ok(day), Ok(other)) => day.number() == other.number(),
        (Err(refusal), Err(other)) => refusal == other,
        _ => false,
    }
}

impl RowTail {
    ghost use Rattle.std.specs.Prelude.{drop, map};
    ghost use Rattle.register_records.specs.Columns.{tail_order};
    ghost use Rattle.register_records.specs.RowTails.{cells_of, fields_of, is_cells};
    ghost use Rattle.register_records.specs.private.RowTails.{is_of_entry};
    ghost use Rattle.register_records.specs.ShortLists.{items_in};

    /// The tail of no field.
    #[tactic(auto, unfolding(csv::specs::Writing::fields_text))]
    pub fn new(delimiter: u8) -> RowTail
        requires { is_delimiter delimiter ≡ true }
    {
        RowTail {
            buffer: [0; TAIL_ROOM],
            len: 0,
            delimiter,
        }
    }

    /// The bytes.
    pub fn as_slice(&self) -> &[u8]
        ensures value { result.now ≡ fields_text (writing self.now.delimiter) (fields_of self.now) }
        ensures short { length result.now ≤ TAIL_ROOM }
    {
        &self.buffer[..self.len as usize]
    }

    /// So many fields, from the first cell on.
    pub fn cells(&self, count: usize) -> ShortList<&[u8]>
        requires { count ≤ MAX_TARGETS }
        ensures { map (λ cell. cell.now) (items_in result)
            ≡ take count (drop (position_or_len is_cells tail_order) (fields_of self.now)) }
    {
        let delimiter = self.delimiter;
        let parts = self.buffer[..self.len as usize].split(|byte| *byte == delimiter);
        // Nothing stands before the first delimiter.
        let fields = parts.skip(1);
        let mut cells = ShortList::new(&self.buffer[..0]);
        'cells: for cell in fields.skip(CELLS_PLACE).take(count) {
            cells.push(cell);
        }
        cells
    }

    /// Lets the fields go.
    #[tactic(auto, unfolding(csv::specs::Writing::fields_text))]
    fn clear(&mut self, delimiter: u8)
        requires { is_delimiter delimiter ≡ true }
        ensures none { fields_of self.new ≡ [] }
        ensures len { self.new.len ≡ 0 }
        ensures delimiter { self.new.delimiter ≡ delimiter }
    {
        self.len = 0;
        self.delimiter = delimiter;
    }

    /// Appends a field that needs no quotes.
    fn push(&mut self, field: &[u8])
        requires plain { needs_quotes (writing self.old.delimiter) field.now ≡ false }
        requires room { self.old.len + (1 + length field.now) ≤ TAIL_ROOM }
        ensures value { fields_of self.new ≡ fields_of self.old ++ field.now ∷ [] }
        ensures len { self.new.len ≡ self.old.len + (1 + length field.now) }
        ensures delimiter { self.new.delimiter ≡ self.old.delimiter }
    {
        let at = put_byte(&mut self.buffer, self.len as usize, self.delimiter);
        self.len = put_bytes(&mut self.buffer, at, field) as u16;
    }

    /// Appends the number of a day in decimal.
    #[inline(always)]
    #[tactic(auto, using(crate::proofs::RowTailLemmas::day_length))]
    fn push_day_number(&mut self, number: i64)
        requires in_range { IsDayNumber number }
        requires room { self.old.len + plain_room ColumnKind.DayNumber ≤ TAIL_ROOM }
        ensures value { fields_of self.new ≡ fields_of self.old ++ signed_decimal number ∷ [] }
        ensures grows { self.new.len ≤ self.old.len + plain_room ColumnKind.DayNumber }
        ensures delimiter { self.new.delimiter ≡ self.old.delimiter }
    {
        let at = put_byte(&mut self.buffer, self.len as usize, self.delimiter);
        self.len = put_integer(&mut self.buffer, at, number) as u16;
    }

    /// Appends the cells of the default targets. Each is known when the code is built: none is chosen by a loop.
    // A call, as those of listed targets and of a refusal: so LLVM sees in `set` that nothing keeps a tail, and need not
    // copy a row twice.
    #[inline(never)]
    fn push_default_cells(&mut self, outcome: Result<Day, Refusal>)
        requires room { self.old.len + plain_room ColumnKind.Cells ≤ TAIL_ROOM }
        ensures value { (cells : List (List ℕ)) → AreCells default_targets (outcome_seen outcome) cells
            → fields_of self.new
            ≡ fields_of self.old ++ column_texts default_targets (outcome_seen outcome) cells ColumnKind.Cells }
        ensures grows { self.new.len ≤ self.old.len + plain_room ColumnKind.Cells }
        ensures delimiter { self.new.delimiter ≡ self.old.delimiter }
    {
        one_cell();
        cells_are_plain();
        let delimiter = self.delimiter;
        let mut end = self.len as usize;
        let bytes = &mut self.buffer;
        let targets = Target::DEFAULT;
        put_default_cells!(
            bytes, end, delimiter, targets, outcome, 0, 1, 2, 3, 4, 5, 6, 7, 8, 9, 10, 11, 12, 13
        );
        self.len = end as u16;
    }

    /// Appends the cells of a list of targets.
    #[inline(never)]
    fn push_listed_cells(&mut self, targets: &[Target], outcome: Result<Day, Refusal>)
        requires few { length targets.now ≤ MAX_TARGETS }
        requires room { self.old.len + plain_room ColumnKind.Cells ≤ TAIL_ROOM }
        ensures value { (cells : List (List ℕ)) → AreCells targets.now (outcome_seen outcome) cells
            → fields_of self.new
            ≡ fields_of self.old ++ column_texts targets.now (outcome_seen outcome) cells ColumnKind.Cells }
        ensures grows { self.new.len ≤ self.old.len + plain_room ColumnKind.Cells }
        ensures delimiter { self.new.delimiter ≡ self.old.delimiter }
    {
        one_cell();
        cells_are_plain();
        let delimiter = self.delimiter;
        let mut end = self.len as usize;
        let bytes = &mut self.buffer;
        'cells: for target in targets {
            end = put_cell(bytes, end, delimiter, *target, outcome);
        }
        self.len = end as u16;
    }

    /// Appends the cells, which a refused row has not.
    fn push_cells(&mut self, targets: &TargetList, outcome: Result<Day, Refusal>)
        requires room { self.old.len + plain_room ColumnKind.Cells ≤ TAIL_ROOM }
        ensures value { (cells : List (List ℕ)) → AreCells (items_in targets.now.items) (outcome_seen outcome) cells
            → fields_of self.new ≡ fields_of self.old
            ++ column_texts (items_in targets.now.items) (outcome_seen outcome) cells ColumnKind.Cells }
        ensures grows { self.new.len ≤ self.old.len + plain_room ColumnKind.Cells }
        ensures delimiter { self.new.delimiter ≡ self.old.delimiter }
    {
        if targets.are_default {
            self.push_default_cells(outcome);
        } else {
            self.push_listed_cells(targets.as_slice(), outcome);
        }
    }

    /// Appends the number of a refusal.
    #[inline(never)]
    fn push_refusal(&mut self, refusal: Refusal)
        requires room { self.old.len + plain_room ColumnKind.Refusal ≤ TAIL_ROOM }
        ensures value { fields_of self.new ≡ fields_of self.old ++ decimal (refusal_number refusal) ∷ [] }
        ensures grows { self.new.len ≤ self.old.len + plain_room ColumnKind.Refusal }
        ensures delimiter { self.new.delimiter ≡ self.old.delimiter }
    {
        self.push(Buffer::new().format(refusal.number()).as_bytes());
    }

    /// Appends what stands in a column of a tail. A refused row has no day, and an accepted one no refusal.
    // Inlined, so that each call has the arm of its own column alone.
    #[inline(always)]
    fn push_column(
        &mut self,
        column: ColumnKind,
        targets: &TargetList,
        outcome: Result<Day, Refusal>,
    )
        requires tail { is_of_entry column ≡ false }
        requires room { self.old.len + plain_room column ≤ TAIL_ROOM }
        ensures value { (cells : List (List ℕ)) → AreCells (items_in targets.now.items) (outcome_seen outcome) cells
            → fields_of self.new ≡ fields_of self.old
            ++ column_texts (items_in targets.now.items) (outcome_seen outcome) cells column }
        ensures grows { self.new.len ≤ self.old.len + plain_room column }
        ensures delimiter { self.new.delimiter ≡ self.old.delimiter }
    {
        match (column, outcome) {
            (ColumnKind::DayNumber, Ok(day)) => self.push_day_number(day.number()),
            (ColumnKind::Weekday, Ok(day)) => self.push(day.weekday().name().as_bytes()),
            (ColumnKind::Cells, _) => self.push_cells(targets, outcome),
            (ColumnKind::Refusal, Err(refusal)) => self.push_refusal(refusal),
            (ColumnKind::DayNumber | ColumnKind::Weekday, Err(_)) | (ColumnKind::Refusal, Ok(_)) =>
                self.push(b""),
            _ => unreachable!(),
        }
    }

    /// Makes this the tail of an outcome, for a table of these targets with this delimiter, where it lies: a tail
    /// is large.
    #[inline(never)]
    #[tactic(auto, using(crate::proofs::RowTailLemmas::whole_tail, crate::proofs::RowTailLemmas::four_texts))]
    pub fn set(&mut self, targets: &TargetList, outcome: Result<Day, Refusal>, delimiter: u8)
        requires separated { is_delimiter delimiter ≡ true }
        ensures cells { AreCells (items_in targets.now.items) (outcome_seen outcome)
            (cells_of (items_in targets.now.items) outcome self.new) }
        ensures written { fields_of self.new ≡ tail_texts (items_in targets.now.items) (outcome_seen outcome)
            (cells_of (items_in targets.now.items) outcome self.new) }
        ensures delimiter { self.new.delimiter ≡ delimiter }
    {
        self.clear(delimiter);
        // One by one, in the order of `tail_columns`: a loop over them would choose the arm again for each row.
        self.push_column(ColumnKind::DayNumber, targets, outcome);
        self.push_column(ColumnKind::Weekday, targets, outcome);
        self.push_column(ColumnKind::Cells, targets, outcome);
        self.push_column(ColumnKind::Refusal, targets, outcome);
    }
}
