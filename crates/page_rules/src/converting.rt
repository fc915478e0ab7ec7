//! A text, and the room for its table.

ghost use Rattle.std.specs.Prelude.{◌≡◌, []};
ghost use Rattle.register_records.specs.Views.{layout_of, reading_of};
ghost use Rattle.page_rules.specs.Conversions.{IsConverted, IsReturned};
ghost use Rattle.page_rules.specs.private.Conversions.{sound_part};

use crate::requests::{RequestFault, setup_for};
use crate::rooms::{bytes_for, copy_if_fits};
use register_records::{Cause, PlainOutput, Setup, SourceEnd, convert_source};
use std::alloc::Global;

/// How the conversion of a text ended, and how many bytes it made: its table, or a front of that.
#[derive(Drop)]
pub struct Converted {
    pub end: SourceEnd,
    pub length: usize,
}

/// What is a table, or a front of one, of the bytes that were made: nothing where there was no memory for more of them.
fn sound_part<'a>(end: &SourceEnd, made: &'a [u8]) -> &'a [u8]
    ensures { result.now ≡ sound_part end.now made.now }
{
    match end {
        SourceEnd::Broken {
            cause: Cause::SinkFault,
        } => &[],
        _ => made,
    }
}

/// Converts a text by a setup, as [`convert_text`] does.
fn convert_by(alloc: Global, text: &[u8], setup: &Setup, room: &mut [u8]) -> Converted
    ensures { IsConverted (reading_of setup.now) (layout_of setup.now) text.now room.old room.new result }
{
    let mut output = PlainOutput::new(bytes_for(alloc, room.len()), 0);
    let end = convert_source(alloc, text, &mut output, setup);
    let made = output.into_inner();
    let length = copy_if_fits(sound_part(&end, made.as_slice()), room);
    Converted { end, length }
}

/// Converts the register `text`, and puts its table to the front of `room`; where the conversion breaks off, what was
/// made of the table. Where that is longer than the room, the room stays as it was, and `length` says how long one has to
/// be. `columns` has the places, from 0, of the table's targets among [`Target::ALL`](date_texts::Target::ALL), in the
/// order of the columns; none is allowed. `delimiter`, a comma, a semicolon or a tab, stands between two fields of the
/// register and of the table, and `sealed` says whether the register has seals.
///
/// # Errors
///
/// The first that applies of `NoSuchColumn`, `ColumnTwice` and `Delimiter`; the room is as it was.
///
/// # Examples
///
/// ```
/// let text = b"id,calendar,date\na,gregorian,1752-09-14\n";
/// let mut room = [0; 100];
/// let converted = convert_text(rt.alloc(), text, &[2], b',', false, &mut room)?;
/// let table = &room[..usize::min(converted.length, 100)];
/// assert!(rt; table.ends_with(b",639797,Thursday,1752-09-03,\n"));
/// ```
pub fn convert_text(
    alloc: Global,
    text: &[u8],
    columns: &[u8],
    delimiter: u8,
    sealed: bool,
    room: &mut [u8],
) -> Result<Converted, RequestFault>
    ensures { IsReturned columns.now delimiter sealed text.now room.old room.new result }
{
    let setup = setup_for(columns, delimiter, sealed)?;
    Ok(convert_by(alloc, text, &setup, room))
}
