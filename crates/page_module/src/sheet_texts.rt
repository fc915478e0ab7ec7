//! Sheets, for a page: what is picked of them, and texts that are made, in rooms that it lends.

ghost use Rattle.std.specs.Prelude.{◌≡◌, ◌≢◌, ◌↔◌, ◌⊎◌, ◌≤◌, ◌<◌, ℕ, List, All, Any, length, take};
ghost use Rattle.std.specs.Int.{div_ceil};
ghost use Rattle.date_parts.specs.JoinedDates.{joined_text};
ghost use Rattle.family_trees.specs.TreeSheets.{tree_text};
ghost use Rattle.register_records.specs.Entries.{text_records};
ghost use Rattle.page_rules.specs.Fields.{fields_by, groups};
ghost use Rattle.page_rules.specs.Orders.{records_at};
ghost use Rattle.page_rules.specs.Picks.{HasLongField, all_chosen};
ghost use Rattle.page_rules.specs.Rooms.{with_front};
ghost use Rattle.sheets.specs.Sheets.{records_text};
ghost use Rattle.page_module.specs.SheetReports.{PutsFields, PutsNothing, PutsText, places_of};

use date_parts::{DatePlaces, joined_sheet};
use family_trees::tree_sheet;
use page_rules::{OrderFault, Picked, copy_if_fits, pick, records_in_order, write};
use std::alloc::Global;

/// What is picked of a sheet: the fields at these places, from 0, of its first records.
#[repr(C)]
#[derive(Clone, Copy)]
pub struct PickRequest<'a> {
    pub sheet: &'a [u8],
    pub places: &'a [u32],
    /// How many records.
    pub most: usize,
    /// The byte between two fields.
    pub delimiter: u8,
}

/// What was picked. Where there are more bytes or fields than fit into the room for them, it is as it was.
#[repr(C)]
#[derive(Clone, Copy)]
pub struct PickReport {
    /// 0: it was picked. 1: memory ran out. 2: a field has 4 GiB or more. With these all else is 0.
    pub ending: usize,
    /// How many bytes the fields have, and how many fields there are.
    pub length: usize,
    pub fields: usize,
    /// How many records were read, and the most fields that one of them has.
    pub records: usize,
    pub widest: usize,
}

/// Puts what was picked into the rooms.
fn put_fields(picked: &Picked, bytes: &mut [u8], lengths: &mut [u32]) -> PickReport
    ensures ending { result.ending ≡ 0 }
    ensures bytes { bytes.new ≡ with_front picked.now.bytes.items bytes.old }
    ensures lengths { lengths.new ≡ with_front picked.now.lengths.items lengths.old }
    ensures length { result.length ≡ length picked.now.bytes.items }
    ensures fields { result.fields ≡ length picked.now.lengths.items }
    ensures counted { (result.records ≡ picked.now.records) × (result.widest ≡ picked.now.widest) }
{
    PickReport {
        ending: 0,
        length: copy_if_fits(picked.bytes.as_slice(), bytes),
        fields: copy_if_fits(picked.lengths.as_slice(), lengths),
        records: picked.records,
        widest: picked.widest,
    }
}

/// [`pick`], into rooms for the bytes and the lengths.
#[unsafe(no_mangle)]
pub extern "C" fn sheet_pick(
    alloc: Global,
    request: &PickRequest,
    bytes: &mut [u8],
    lengths: &mut [u32],
    report: &mut PickReport,
)
    ensures picked { report.new.ending ≡ 0 → PutsFields request.now.places.now
        (take request.now.most (text_records request.now.delimiter request.now.sheet.now))
        bytes.old bytes.new lengths.old lengths.new report.new }
    ensures none { report.new.ending ≢ 0 → PutsNothing bytes.old bytes.new lengths.old lengths.new report.new }
    ensures long { report.new.ending ≡ 2 → HasLongField (all_chosen request.now.places.now
        (take request.now.most (text_records request.now.delimiter request.now.sheet.now))) }
{
    let (delimiter, most) = (request.delimiter, request.most);
    *report = match pick(alloc, request.sheet, delimiter, request.places, most) {
        Ok(picked) => put_fields(&picked, bytes, lengths),
        Err(fault) => PickReport {
            ending: fault.number() as usize,
            length: 0,
            fields: 0,
            records: 0,
            widest: 0,
        },
    };
}

/// What was put to a room. Where it is more than the room, that is as it was.
#[repr(C)]
#[derive(Clone, Copy)]
pub struct PutReport {
    /// 0: it was put there. 1: memory ran out. What other numbers say is told where they come.
    pub ending: usize,
    /// How many bytes or items it has; 0 where none were made.
    pub length: usize,
}

impl PutReport {
    ghost use Rattle.std.specs.Prelude.{◌≡◌};

    /// Nothing was made, for the reason of this number.
    pub(crate) fn none(ending: usize) -> PutReport
        ensures { (result.ending ≡ ending) × (result.length ≡ 0) }
    {
        PutReport { ending, length: 0 }
    }
}

/// Puts items into the room.
pub(crate) fn put<T: Copy>(items: &[T], room: &mut [T]) -> PutReport
    ensures ending { result.ending ≡ 0 }
    ensures items { PutsText items.now room.old room.new result.length }
{
    PutReport {
        ending: 0,
        length: copy_if_fits(items, room),
    }
}

/// Fields, and how many of them are a record.
#[repr(C)]
#[derive(Clone, Copy)]
pub struct WriteRequest<'a> {
    /// Their bytes, one behind the other, and the length of each.
    pub bytes: &'a [u8],
    pub lengths: &'a [u32],
    pub width: usize,
    /// The byte between two fields.
    pub delimiter: u8,
}

/// [`write`], into a room for the text. The ending is 3 where records of no field were asked for.
#[unsafe(no_mangle)]
pub extern "C" fn sheet_write(
    alloc: Global,
    request: &WriteRequest,
    room: &mut [u8],
    report: &mut PutReport,
)
    ensures text { report.new.ending ≡ 0 → PutsText (records_text request.now.delimiter
        (groups (div_ceil (length request.now.lengths.now) request.now.width) request.now.width
        (fields_by request.now.lengths.now request.now.bytes.now))) room.old room.new report.new.length }
    ensures none { report.new.ending ≢ 0 → (report.new.length ≡ 0) × (room.new ≡ room.old)
        × ((report.new.ending ≡ 1) ⊎ ((report.new.ending ≡ 3) × (request.now.width ≡ 0))) }
    ensures width { (report.new.ending ≡ 3) ↔ (request.now.width ≡ 0) }
{
    let (width, delimiter) = (request.width, request.delimiter);
    *report = match write(alloc, request.bytes, request.lengths, width, delimiter) {
        Ok(text) => put(text.as_slice(), room),
        Err(fault) => PutReport::none(fault.number() as usize),
    };
}

/// Puts the CSV text of the records of `text` at these `indices` to the front of `room`: [`records_in_order`], with a
/// report. The ending is 2 where an index is that of no record.
#[unsafe(no_mangle)]
pub extern "C" fn sheet_records(
    alloc: Global,
    text: &[u8],
    delimiter: u8,
    indices: &[u32],
    room: &mut [u8],
    report: &mut PutReport,
)
    ensures text { report.new.ending ≡ 0 → PutsText (records_text delimiter
        (records_at (text_records delimiter text.now) indices.now)) room.old room.new report.new.length }
    ensures there { report.new.ending ≡ 0
        → All (λ index. index < length (text_records delimiter text.now)) indices.now }
    ensures none { report.new.ending ≢ 0 → (report.new.length ≡ 0) × (room.new ≡ room.old) × ((report.new.ending ≡ 1)
        ⊎ ((report.new.ending ≡ 2) × Any (λ index. length (text_records delimiter text.now) ≤ index) indices.now)) }
{
    *report = match records_in_order(alloc, text, delimiter, indices) {
        Ok(made) => put(made.as_slice(), room),
        Err(OrderFault::OutOfMemory) => PutReport::none(1),
        Err(OrderFault::NoSuchRecord) => PutReport::none(2),
    };
}

/// A sheet whose dates stand in three columns, at these places, from 0, and the byte between two of its fields.
#[repr(C)]
#[derive(Clone, Copy)]
pub struct JoinRequest<'a> {
    pub sheet: &'a [u8],
    /// How many records stand above the names of the columns.
    pub above: u32,
    pub year: u32,
    pub month: u32,
    pub day: u32,
    pub delimiter: u8,
}

/// Puts a sheet to the front of `room` that has one column more behind all others, of these dates: [`joined_sheet`],
/// with a report.
#[unsafe(no_mangle)]
pub extern "C" fn joined_dates(
    alloc: Global,
    request: &JoinRequest,
    room: &mut [u8],
    report: &mut PutReport,
)
    ensures whole { report.new.ending ≡ 0 → PutsText (joined_text request.now.delimiter
        (places_of request.now.year request.now.month request.now.day) request.now.above request.now.sheet.now)
        room.old room.new report.new.length }
    ensures none { report.new.ending ≢ 0 → (report.new.ending ≡ 1) × (report.new.length ≡ 0) × (room.new ≡ room.old) }
{
    let (year, month, day) = (request.year, request.month, request.day);
    let places = DatePlaces { year, month, day };
    let (sheet, delimiter, front) = (request.sheet, request.delimiter, Vec::new(alloc));
    *report = match joined_sheet(alloc, front, sheet, delimiter, request.above, places) {
        Ok(text) => put(text.as_slice(), room),
        Err(_) => PutReport::none(1),
    };
}

/// Puts the dates of a family tree in GEDCOM, as a sheet, to the front of `room`: [`tree_sheet`], with a report.
#[unsafe(no_mangle)]
pub extern "C" fn tree_dates(alloc: Global, tree: &[u8], room: &mut [u8], report: &mut PutReport)
    ensures whole { report.new.ending ≡ 0 → PutsText (tree_text tree.now) room.old room.new report.new.length }
    ensures none { report.new.ending ≢ 0 → (report.new.ending ≡ 1) × (report.new.length ≡ 0) × (room.new ≡ room.old) }
{
    *report = match tree_sheet(alloc, tree) {
        Ok(text) => put(text.as_slice(), room),
        Err(_) => PutReport::none(1),
    };
}
