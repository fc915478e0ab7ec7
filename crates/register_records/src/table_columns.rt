//! The columns of a table: their order, their names, and what stands in those of an entry. The heading goes through this
//! list. What a row has of its entry, and its tail, are appended column by column in the same order, which is proved.

ghost use Rattle.std.specs.Prelude.{◌≡◌, ◌≤◌, length};
ghost use Rattle.register_records.specs.Columns.{entry_order, tail_order};
ghost use Rattle.register_records.specs.Entries.{body_seen};
ghost use Rattle.register_records.specs.private.LineRoom.{limit, name_limit};
ghost use Rattle.register_records.specs.private.TableColumns.{text_shown, kind_name};

use crate::entries::Body;

/// A column of a table, or for the cells one for each target.
#[derive(Clone, Copy)]
pub(crate) enum ColumnKind {
    Number,
    Id,
    Calendar,
    Date,
    Note,
    DayNumber,
    Weekday,
    Cells,
    Refusal,
}

/// The columns, in order.
const COLUMNS: [ColumnKind; 9] = [
    ColumnKind::Number,
    ColumnKind::Id,
    ColumnKind::Calendar,
    ColumnKind::Date,
    ColumnKind::Note,
    ColumnKind::DayNumber,
    ColumnKind::Weekday,
    ColumnKind::Cells,
    ColumnKind::Refusal,
];

/// How many of them a row has of its entry. The last of these has the notes.
const ENTRY_COLUMNS: usize = 5;

/// The most bytes of a day's number.
pub(crate) const DAY_NUMBER_LIMIT: usize = 8;

/// The most bytes of a weekday's name.
pub(crate) const WEEKDAY_LIMIT: usize = 9;

/// The digits of a refusal's number.
pub(crate) const REFUSAL_LIMIT: usize = 1;

/// How many columns of a tail stand before the cells.
pub(crate) const CELLS_PLACE: usize = 2;

/// The columns that a table has of an entry, in order, with notes or without.
#[inline(always)]
pub(crate) fn entry_columns(has_notes: bool) -> &'static [ColumnKind]
    ensures value { result.now ≡ entry_order has_notes }
    ensures some { 1 ≤ length result.now }
{
    if has_notes {
        &COLUMNS[..ENTRY_COLUMNS]
    } else {
        &COLUMNS[..ENTRY_COLUMNS - 1]
    }
}

/// The columns that a table has of a tail, in order.
pub(crate) fn tail_columns() -> &'static [ColumnKind]
    ensures { result.now ≡ tail_order }
{
    &COLUMNS[ENTRY_COLUMNS..]
}

impl ColumnKind {
    /// The name, which heads the column. The cells have those of their targets.
    pub fn name(self) -> &'static str
        ensures value { result.now ≡ kind_name self }
        ensures short { length result.now ≤ name_limit }
    {
        match self {
            ColumnKind::Number => "row",
            ColumnKind::Id => "id",
            ColumnKind::Calendar => "calendar",
            ColumnKind::Date => "date",
            ColumnKind::Note => "note",
            ColumnKind::DayNumber => "rd",
            ColumnKind::Weekday => "weekday",
            ColumnKind::Cells => "",
            ColumnKind::Refusal => "refusal",
        }
    }

    /// What the column shows of an entry with this body: none of a refused body, and none in that of the number and in
    /// those of a tail.
    #[inline(always)]
    pub fn field(self, body: &Body) -> &str
        ensures value { result.now ≡ text_shown (body_seen body.now) self }
        ensures short { length result.now ≤ limit self }
    {
        match (self, body) {
            (ColumnKind::Id, Body::Fields { id, .. }) => id.as_str(),
            (ColumnKind::Calendar, Body::Fields { calendar, .. }) => calendar.as_str(),
            (ColumnKind::Date, Body::Fields { date, .. }) => date.as_str(),
            (ColumnKind::Note, Body::Fields { note, .. }) => note.as_str(),
            _ => "",
        }
    }
}
