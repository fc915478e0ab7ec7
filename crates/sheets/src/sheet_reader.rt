//! The records of a sheet below its names, in order.

ghost use Rattle.std.specs.Prelude.{◌≡◌, ◌≤◌, IfOk, drop, length, take, true};
ghost use Rattle.std.proofs.Props.{props};
ghost use Rattle.register_records.specs.Entries.{record_limit};
ghost use Rattle.sheets.specs.Reading.{left_of};
ghost use Rattle.sheets.specs.private.Reading.{IsBegun};
ghost use Rattle.sheets.specs.private.SheetRecords.{FindsRecord, fields_read};

use crate::choices::SheetSetup;
use crate::met_calendars::MetCalendars;
use crate::reading::read_next;
use crate::record_logs::RecordLog;
use crate::sheet_ends::SheetCause;
use crate::sheet_records::SheetRecord;
use csv::Reader;
use register_records::MAX_RECORDS;
use std::alloc::{AllocError, Global};
use std::snapshot::Snapshot;

/// The records of a sheet below its names, in order, each read when it is asked for, with what is to be read of its
/// dates.
#[derive(Drop)]
pub(crate) struct SheetReader<'s> {
    records: Reader<&'s [u8]>,
    setup: SheetSetup<'s>,
    // The last record given.
    of_sheet: SheetRecord,
    count: u32,
    // No call found an end or a fault.
    is_going: bool,
    met: MetCalendars<'s>,
    // For clauses alone: the records as they were, and those given.
    opened: Snapshot<Reader<&'s [u8]>>,
    given: RecordLog,
    ghost live: { is_going ≡ true → IsBegun records } by { Prim.hlevel props },
    ghost sized: { length of_sheet.columns.items ≡ length setup.choice.dates.now },
    ghost called: { met.names.now ≡ setup.choice.calendars.now },
    ghost counted: { length given ≡ count },
    ghost few: { count ≤ record_limit },
    // The records given are the first, and those that are left follow them.
    pub ghost first: { fields_read given ≡ take count (left_of opened.value) },
    ghost left: { is_going ≡ true → left_of records ≡ drop count (left_of opened.value) },
}

/// Reads the next record of a sheet, of which so many were read, with what is to be read of its dates, and says whether
/// there was one.
#[tactic(auto, using(crate::proofs::ReadingLemmas::begun_reads, crate::proofs::ReadingLemmas::reads_begun))]
fn read_record(
    records: &mut Reader<&[u8]>,
    setup: &SheetSetup,
    of_sheet: &mut SheetRecord,
    count: u32,
    met: &mut MetCalendars,
) -> Result<bool, SheetCause>
    requires names { met.old.names.now ≡ setup.now.choice.calendars.now }
    requires reading { IsBegun records.old }
    requires sized { length of_sheet.old.columns.items ≡ length setup.now.choice.dates.now }
    requires few { count ≤ record_limit }
    ensures found { FindsRecord setup.now.choice count (left_of records.old) records.new of_sheet.new result }
    ensures sized { length of_sheet.new.columns.items ≡ length of_sheet.old.columns.items }
    ensures names { met.new.names ≡ met.old.names }
{
    if !read_next(records, &mut of_sheet.fields)? {
        return Ok(false);
    }
    if count >= MAX_RECORDS {
        return Err(SheetCause::TooManyRecords);
    }
    of_sheet.renew(setup, count + 1, met)?;
    Ok(true)
}

impl<'s> SheetReader<'s> {
    ghost use Rattle.sheets.specs.private.SheetReaders.{IsOpened, ReadsRecord, goes_on};

    /// A reader of the records that are left of a sheet.
    pub fn open(
        alloc: Global,
        records: Reader<&'s [u8]>,
        setup: &SheetSetup<'s>,
    ) -> Result<SheetReader<'s>, AllocError>
        requires { IsBegun records }
        ensures { IfOk result (IsOpened setup.now (left_of records.entry)) }
    {
        let opened = Snapshot::of(&records);
        let of_sheet = SheetRecord::blank(alloc, setup.choice.dates.len())?;
        Ok(SheetReader {
            records,
            setup: *setup,
            of_sheet,
            count: 0,
            is_going: true,
            met: MetCalendars::none(alloc, setup.choice.calendars),
            opened,
            given: RecordLog::new(),
        })
    }

    /// Reads the next record, and says whether there was one. After an end or a fault none is asked for.
    ///
    /// # Errors
    ///
    /// `TooManyRecords` where 1,000,000 records were given and one more stands in the sheet, and `NoMemory`.
    pub fn read_next(&mut self) -> Result<bool, SheetCause>
        requires { goes_on self.old ≡ true }
        ensures { ReadsRecord self.old self.new result }
    {
        let found = read_record(
            &mut self.records,
            &self.setup,
            &mut self.of_sheet,
            self.count,
            &mut self.met,
        );
        match found {
            Ok(true) => {
                self.count += 1;
                self.given.push(&self.of_sheet);
            }
            Ok(false) => self.is_going = false,
            Err(_) => self.is_going = false,
        }
        found
    }

    /// The last record that was given.
    pub fn of_sheet(&self) -> &SheetRecord
        ensures { result.now ≡ self.now.of_sheet }
    {
        &self.of_sheet
    }
}
