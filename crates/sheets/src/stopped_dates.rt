//! The names in a sheet that are not known.

ghost use Rattle.std.specs.Prelude.{◌≡◌, ◌≢◌, ◌≤◌, ◌<◌, IfErr, IfOk, OnOk, length, map};
ghost use Rattle.register_records.specs.Entries.{record_limit};
ghost use Rattle.sheets.specs.Converted.{below, records_by};
ghost use Rattle.sheets.specs.private.SheetNotes.{unknown_of as unknown_spec};
ghost use Rattle.sheets.specs.private.LineViews.{GainsFields};
ghost use Rattle.sheets.specs.UnknownNames.{IsUnknown, list_head, list_text, name_record, name_seen};

use crate::choices::SheetSetup;
use crate::lines::SheetLines;
use crate::no_outputs::NoOutput;
use crate::sheet_ends::SheetCause;
use crate::sheet_notes::Found;
use crate::sheet_readings::{open_below, read_below};
use crate::sheet_writers::SheetWriters;
use crate::stopped_names::{StoppedNames, UnknownName};
use crate::unread_dates::UnreadDates;
use itoa::Buffer;
use std::alloc::{AllocError, Global};

/// What is not known in a sheet.
#[derive(Drop)]
pub struct Unknown {
    /// The names, in the order of the first dates that they stopped.
    pub names: Vec<UnknownName>,
    /// How many dates were stopped by other names.
    pub more: u64,
    /// How many dates were not read.
    pub unread: UnreadDates,
}

/// Appends the names of the columns of a list of names.
fn push_list_head(lines: &mut SheetLines) -> Result<(), AllocError>
    ensures { OnOk result (GainsFields list_head lines.old lines.new) }
{
    lines.push_all(&[b"name", b"means", b"in", b"count"])
}

/// Appends a name, `?`, its calendar, and how many dates it stopped.
fn push_name(lines: &mut SheetLines, name: &UnknownName) -> Result<(), AllocError>
    ensures { OnOk result (GainsFields (name_record (name_seen name.now)) lines.old lines.new) }
{
    let calendar = match name.calendar {
        Some(calendar) => calendar.name().as_bytes(),
        None => b"",
    };
    lines.push(name.name.as_slice())?;
    lines.push(b"?")?;
    lines.push(calendar)?;
    lines.push(Buffer::new().format(name.count).as_bytes())
}

impl Unknown {
    /// The text of a list of the names to fill in: a header `name,means,in,count`, and for each name the name, `?`, its
    /// calendar, and how many dates it stopped.
    ///
    /// # Errors
    ///
    /// Where memory ran out.
    pub fn text(&self, alloc: Global) -> Result<Vec<u8>, AllocError>
        ensures { IfOk result (λ text. text.items ≡ list_text (map name_seen self.now.names.items)) }
    {
        let mut lines = SheetLines::new(alloc, b',');
        push_list_head(&mut lines)?;
        lines.end()?;
        'names: for name in &self.names {
            push_name(&mut lines, name)?;
            lines.end()?;
        }
        Ok(lines.into_text())
    }
}

/// What is not known in a sheet, unless memory ran out for a name.
fn unknown_of(found: Found) -> Result<Unknown, SheetCause>
    ensures { result ≡ unknown_spec found }
{
    let Found {
        names,
        is_lost,
        unread,
        ..
    } = found;
    if is_lost {
        return Err(SheetCause::NoMemory);
    }
    let StoppedNames { listed, more } = names;
    Ok(Unknown {
        names: listed,
        more,
        unread,
    })
}

/// The first names in a sheet that are not known, at most so many, and how many dates each stopped. Two names are one
/// where they stopped dates of one calendar, or stand for a calendar, and are the same but for the case of A to Z.
///
/// # Errors
///
/// `NoNames` exactly where the sheet has no record with names, `TooManyRecords` where more than 1,000,000 stand below
/// them, and `NoMemory`.
pub fn unknown_names(
    alloc: Global,
    sheet: &[u8],
    setup: &SheetSetup,
    most: usize,
) -> Result<Unknown, SheetCause>
    ensures found { IfOk result (λ unknown. IsUnknown setup.now.choice (records_by setup.now.choice sheet.now) most
        (map name_seen unknown.names.items) unknown.more unknown.unread) }
    ensures no_names { IfErr result (λ c. c ≡ SheetCause.NoNames
        → length (records_by setup.now.choice sheet.now) ≤ setup.now.choice.above) }
    ensures too_many { IfErr result (λ c. c ≡ SheetCause.TooManyRecords
        → record_limit < length (below setup.now.choice (records_by setup.now.choice sheet.now))) }
    ensures no_sink { IfErr result (λ c. c ≢ SheetCause.SinkFault) }
{
    let records = match open_below(alloc, sheet, &setup.choice) {
        Ok(records) => records,
        Err(cause) => return Err(cause),
    };
    let mut writers = SheetWriters::of_notes(alloc, most);
    read_below(alloc, records, setup, &mut writers, &mut NoOutput, &mut [])?;
    unknown_of(writers.notes.found)
}
