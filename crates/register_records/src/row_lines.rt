//! The lines of a table: its heading and its rows.

ghost use Rattle.std.specs.Prelude.{◌≡◌, ◌≤◌, ◌+◌, ◌++◌, ◌∷◌, [], length, map, true, false};
ghost use Rattle.date_texts.specs.declared.target.TheConstants.{MAX_TARGETS};
ghost use Rattle.register_records.specs.private.BareTexts.{has_plain_texts};
ghost use Rattle.register_records.specs.Columns.{entry_order};
ghost use Rattle.register_records.specs.Entries.{body_seen};
ghost use Rattle.register_records.specs.LineRoom.{Begins, GainsFields};
ghost use Rattle.register_records.specs.private.LineRoom.{entry_name_room, entry_room, name_room};
ghost use Rattle.register_records.specs.private.LineRoom.{quoted_room};
ghost use Rattle.register_records.specs.LineViews.{GrowsBy, line_bytes, line_capacity};
ghost use Rattle.register_records.specs.Lines.{line_text};
ghost use Rattle.register_records.specs.SetupRules.{is_delimiter};
ghost use Rattle.register_records.specs.private.TableColumns.{entry_field, text_shown, heading, kind_name, kind_names};
ghost use Rattle.register_records.specs.private.TableColumns.{row_fields};
ghost use Rattle.register_records.specs.Views.{row_seen, row_targets};
ghost use Rattle.register_records.specs.private.Tails.{tail_fields};
ghost use Rattle.register_records.specs.declared.row_tails.TheConstants.{TAIL_ROOM};
ghost use Rattle.register_records.specs.declared.row_lines.TheConstants.{LINE_ROOM};

use crate::entries::Body;
use crate::lines::LineBuffer;
use crate::rows::Row;
use crate::table_columns::{ColumnKind, entry_columns, tail_columns};
use date_texts::Target;

/// Room in bytes for the longest line, of the heading or of a row, even where each byte of a row's texts is a quote.
pub const LINE_ROOM: usize = 1024;

/// Begins the line of the heading: the names of the columns that show an entry.
fn put_entry_names(lines: &mut LineBuffer, has_notes: bool)
    requires separated { is_delimiter lines.old.delimiter ≡ true }
    requires room { lines.old.len + entry_name_room ≤ line_capacity lines.old }
    ensures value { Begins lines.old.delimiter (line_bytes lines.old) (map kind_name (entry_order has_notes))
        (line_bytes lines.new) }
    ensures grows { GrowsBy entry_name_room lines.old lines.new }
{
    let columns = entry_columns(has_notes);
    lines.begin_quotable(columns[0].name().as_bytes());
    'columns: for i in 1..columns.len() {
        lines.field(columns[i].name().as_bytes());
    }
}

/// Puts what heads a column: its name, or for the cells those of their targets.
#[tactic(auto, using(crate::proofs::LineLemmas::one_name))]
fn put_names(lines: &mut LineBuffer, column: ColumnKind, targets: &[Target])
    requires few { length targets.now ≤ MAX_TARGETS }
    requires room { lines.old.len + name_room column ≤ line_capacity lines.old }
    ensures value { GainsFields lines.old.delimiter (kind_names targets.now column) (line_bytes lines.old)
        (line_bytes lines.new) }
    ensures grows { GrowsBy (name_room column) lines.old lines.new }
{
    match column {
        ColumnKind::Cells => {
            'targets: for target in targets {
                lines.field(target.name().as_bytes());
            }
        }
        _ => lines.field(column.name().as_bytes()),
    }
}

/// Appends the line of the heading. There must be memory for `LINE_ROOM` bytes more.
#[tactic(auto, using(crate::proofs::LineLemmas::line_steps))]
pub(crate) fn make_heading(lines: &mut LineBuffer, has_notes: bool, targets: &[Target])
    requires separated { is_delimiter lines.old.delimiter ≡ true }
    requires few { length targets.now ≤ MAX_TARGETS }
    requires room { lines.old.len + LINE_ROOM ≤ line_capacity lines.old }
    ensures value { line_bytes lines.new
        ≡ line_bytes lines.old ++ line_text (lines.old.delimiter) (heading has_notes targets.now) }
    ensures grows { GrowsBy LINE_ROOM lines.old lines.new }
{
    put_entry_names(lines, has_notes);
    'columns: for column in tail_columns() {
        put_names(lines, *column, targets);
    }
    lines.end();
}

/// Puts what a column shows of an entry with this body. A bare one is not looked through for bytes that call for quotes.
#[inline(always)]
#[tactic(auto, using(crate::proofs::LineLemmas::plain_column))]
fn put_column(lines: &mut LineBuffer, column: ColumnKind, body: &Body, bare: bool)
    requires separated { is_delimiter lines.old.delimiter ≡ true }
    requires room { lines.old.len + quoted_room column ≤ line_capacity lines.old }
    requires bare { bare ≡ true → has_plain_texts (body_seen body.now) ≡ true }
    ensures value { GainsFields lines.old.delimiter (text_shown (body_seen body.now) column ∷ [])
        (line_bytes lines.old) (line_bytes lines.new) }
    ensures grows { GrowsBy (quoted_room column) lines.old lines.new }
{
    let field = column.field(body).as_bytes();
    if bare {
        lines.unquoted(field);
    } else {
        lines.field(field);
    }
}

/// Begins the line of a row: its number and its texts.
#[inline(always)]
fn put_entry(lines: &mut LineBuffer, has_notes: bool, row: &Row)
    requires separated { is_delimiter lines.old.delimiter ≡ true }
    requires room { lines.old.len + entry_room ≤ line_capacity lines.old }
    ensures value { Begins lines.old.delimiter (line_bytes lines.old)
        (map (entry_field (row_seen row.now)) (entry_order has_notes)) (line_bytes lines.new) }
    ensures grows { GrowsBy entry_room lines.old lines.new }
{
    let entry = row.entry();
    let body = entry.body();
    let bare = entry.is_bare();
    // One by one, in the order of `entry_columns`: a loop over them would choose the arm again for each row.
    lines.begin_by_number(entry.number());
    put_column(lines, ColumnKind::Id, body, bare);
    put_column(lines, ColumnKind::Calendar, body, bare);
    put_column(lines, ColumnKind::Date, body, bare);
    if has_notes {
        put_column(lines, ColumnKind::Note, body, bare);
    }
}

/// Puts the fields of a row behind those of its entry: they are copied as they were written for a table with this
/// delimiter, and written anew for another.
#[inline(always)]
fn put_tail(lines: &mut LineBuffer, row: &Row)
    requires separated { is_delimiter lines.old.delimiter ≡ true }
    requires room { lines.old.len + TAIL_ROOM ≤ line_capacity lines.old }
    ensures value { GainsFields lines.old.delimiter (tail_fields row.now) (line_bytes lines.old) (line_bytes lines.new) }
    ensures grows { GrowsBy TAIL_ROOM lines.old lines.new }
{
    if row.tail.delimiter == lines.delimiter() {
        lines.written(row.tail.as_slice());
    } else {
        lines.written(row.tail_with(lines.delimiter()).as_slice());
    }
}

/// Appends the line of a row. There must be memory for `LINE_ROOM` bytes more.
#[tactic(auto, using(crate::proofs::LineLemmas::line_steps))]
pub(crate) fn make_row(lines: &mut LineBuffer, has_notes: bool, row: &Row)
    requires separated { is_delimiter lines.old.delimiter ≡ true }
    requires room { lines.old.len + LINE_ROOM ≤ line_capacity lines.old }
    ensures value { line_bytes lines.new ≡ line_bytes lines.old ++ line_text (lines.old.delimiter)
        (row_fields has_notes (row_targets row.now) (row_seen row.now)) }
    ensures grows { GrowsBy LINE_ROOM lines.old lines.new }
{
    put_entry(lines, has_notes, row);
    put_tail(lines, row);
    lines.end();
}
