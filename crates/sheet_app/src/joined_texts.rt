//! The sheet of a text with the dates of three of its columns.

ghost use Rattle.std.specs.Prelude.{IfErr, IfOk};
ghost use Rattle.csv.specs.Records.{fields_of};
ghost use Rattle.sheet_arguments.specs.Requests.{task_of};
ghost use Rattle.sheet_arguments.specs.ThreeColumns.{words_seen};
ghost use Rattle.sheet_app.specs.JoinedTexts.{ArePlaces, IsJoined, LacksOne, LacksThree};

use crate::columns::column_named;
use crate::conversions::mark_of;
use crate::sheet_faults::SheetFault;
use csv::ByteRecord;
use date_parts::{DatePlaces, joined_sheet};
use sheet_arguments::{Job, ThreeColumns};
use sheets::head_record;
use std::alloc::Global;

/// The places of three columns, or the first word that names none.
fn places_named<'b>(names: &ByteRecord, three: ThreeColumns<'b>) -> Result<DatePlaces, &'b str>
    ensures places { IfOk result (ArePlaces (fields_of names.now) (words_seen three.entry)) }
    ensures fault { IfErr result (λ word. LacksOne (fields_of names.now) (words_seen three.entry) word.now) }
{
    let Some(year) = column_named(names, three.year) else {
        return Err(three.year);
    };
    let Some(month) = column_named(names, three.month) else {
        return Err(three.month);
    };
    let Some(day) = column_named(names, three.day) else {
        return Err(three.day);
    };
    Ok(DatePlaces { year, month, day })
}

/// The sheet of a text with a column behind the others: the dates of three columns that a job names.
pub fn joined_of<'b>(
    alloc: Global,
    text: Vec<u8>,
    job: &Job<'b>,
    three: ThreeColumns<'b>,
) -> Result<Vec<u8>, SheetFault<'b>>
    ensures sheet { IfOk result (λ sheet. IsJoined (task_of job.now) (words_seen three.entry) text.items sheet.items) }
    ensures fault { IfErr result (LacksThree (task_of job.now) (words_seen three.entry) text.items) }
{
    let text = text.as_slice();
    let Some(names) = head_record(alloc, text, job.delimiter, job.skip)? else {
        return Err(SheetFault::NoNames);
    };
    let places = match places_named(&names, three) {
        Ok(places) => places,
        Err(word) => return Err(SheetFault::NoColumn { word, names }),
    };
    let mark = mark_of(text).to_vec(alloc)?;
    let sheet = joined_sheet(alloc, mark, text, job.delimiter, job.skip, places)?;
    Ok(sheet)
}
