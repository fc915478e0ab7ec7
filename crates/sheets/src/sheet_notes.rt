//! What is noted of a sheet while its records are read.

ghost use Rattle.std.specs.Prelude.{◌≡◌, ◌≤◌, ◌++◌, ◌∷◌, [], ℕ, List, false, length, option_to_list};
ghost use Rattle.csv.specs.Records.{fields_of};
ghost use Rattle.sheets.specs.Choices.{date_limit};
ghost use Rattle.sheets.specs.DateStops.{NameStop as SeenName, SheetDate, name_in};
ghost use Rattle.sheets.specs.private.SheetNotes.{HasFound, HasNotes, HasSpace, HasSpaceFor};
ghost use Rattle.sheets.specs.private.SheetRecords.{IsDateRead, IsRecordRead, RecordRead, date_seen};
ghost use Rattle.sheets.specs.private.SheetRecords.{record_read};
ghost use Rattle.sheets.specs.UnknownNames.{dates_of};
ghost use Rattle.sheets.specs.UnknownViews.{if_stop};
ghost use Rattle.sheets.specs.private.UnknownViews.{HasNames, HasRoom};
ghost use Rattle.sheets.specs.declared.choices.SheetChoice.{SheetChoice as SheetChoiceValue};

use crate::choices::{DateColumn, SheetChoice};
use crate::date_counts::SheetCounts;
use crate::reading::field_at;
use crate::sheet_records::{ColumnDates, SheetRecord};
use crate::stopped_names::StoppedNames;
use crate::stops::DateStop;
use crate::unread_dates::{UnreadDates, is_short};
use csv::ByteRecord;
use std::alloc::Global;

/// What is not known in the dates so far.
#[derive(Drop)]
pub(crate) struct Found {
    alloc: Global,
    // At most so many names are listed.
    most: usize,
    pub names: StoppedNames,
    /// Memory ran out for a name, and nothing is said of them any more.
    pub is_lost: bool,
    pub unread: UnreadDates,
}

/// What is noted of the records so far.
#[derive(Drop)]
pub(crate) struct SheetNotes {
    /// How many they are.
    pub records: u32,
    pub counts: SheetCounts,
    pub found: Found,
}

impl Found {
    /// Nothing is found yet.
    fn none(alloc: Global, most: usize) -> Found
        ensures { (choice : SheetChoiceValue) → HasFound choice [] most result }
    {
        Found {
            alloc,
            most,
            names: StoppedNames {
                listed: Vec::new(alloc),
                more: 0,
            },
            is_lost: false,
            unread: UnreadDates::none(),
        }
    }

    /// Counts what stopped one more date, if a name did.
    fn add_name(&mut self, stop: Option<DateStop<'_>>)
        requires { self.old.is_lost ≡ false → HasRoom self.old.names }
        ensures most { self.new.most ≡ self.old.most }
        ensures unread { self.new.unread ≡ self.old.unread }
        ensures named { self.new.is_lost ≡ false → (self.old.is_lost ≡ false)
            × ((stops : List SeenName) → HasNames self.old.most stops self.old.names
            → HasNames self.old.most (stops ++ option_to_list (name_in (if_stop stop.entry))) self.new.names) }
    {
        if self.is_lost {
            return;
        }
        if self.names.add(self.alloc, stop, self.most).is_err() {
            self.is_lost = true;
        }
    }

    /// Adds what is to be said of the date of a record in a column.
    fn add_date(
        &mut self,
        choice: &SheetChoice,
        column: &DateColumn,
        fields: &ByteRecord,
        dates: &ColumnDates,
    )
        requires space { HasSpace choice.now 1 self.old }
        requires read { (number : ℕ)
            × IsDateRead choice.now number (fields_of fields.now) column.now (date_seen dates.now) }
        ensures { (dates : List SheetDate) (most : ℕ) → HasFound choice.now dates most self.old
            → HasFound choice.now (dates ++ (column.now, fields_of fields.now) ∷ []) most self.new }
    {
        let stop = dates.stop.stop();
        let field = field_at(fields, column.date as usize);
        let first = dates.first.text.as_slice();
        let last = dates.last().text.as_slice();
        let is_short = is_short(field, first, last, dates.marks);
        self.unread.add(stop, is_short);
        self.add_name(stop);
    }

    /// Adds what is to be said of the dates of a record.
    fn add_record(&mut self, choice: &SheetChoice, of_sheet: &SheetRecord)
        requires space { HasSpace choice.now (length choice.now.dates.now) self.old }
        requires read { IsRecordRead choice.now (record_read of_sheet.now) }
        ensures { (dates : List SheetDate) (most : ℕ) → HasFound choice.now dates most self.old
            → HasFound choice.now (dates ++ dates_of choice.now (fields_of of_sheet.now.fields)) most self.new }
    {
        let dates = choice.dates;
        'dates: for place in 0..dates.len() {
            self.add_date(
                choice,
                &dates[place],
                &of_sheet.fields,
                &of_sheet.columns[place],
            );
        }
    }
}

impl SheetNotes {
    /// Nothing is noted yet. Of the names that are not known at most so many are listed.
    pub fn none(alloc: Global, most: usize) -> SheetNotes
        ensures { (choice : SheetChoiceValue) → HasNotes choice [] most result }
    {
        SheetNotes {
            records: 0,
            counts: SheetCounts::none(),
            found: Found::none(alloc, most),
        }
    }

    /// Notes what is to be said of one more record.
    pub fn add(&mut self, choice: &SheetChoice, of_sheet: &SheetRecord)
        requires space { HasSpaceFor choice.now self.old }
        requires few { length choice.now.dates.now ≤ date_limit }
        requires read { IsRecordRead choice.now (record_read of_sheet.now) }
        ensures { (reads : List RecordRead) (most : ℕ) → HasNotes choice.now reads most self.old
            → HasNotes choice.now (reads ++ record_read of_sheet.now ∷ []) most self.new }
    {
        self.records += 1;
        self.counts.add(choice.dates, &of_sheet.fields, of_sheet.columns.as_slice());
        self.found.add_record(choice, of_sheet);
    }
}
