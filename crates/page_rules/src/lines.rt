//! The lines of records, and where each begins.

ghost use Rattle.std.specs.Prelude.{◌≡◌, ◌≤◌, ◌<◌, ◌++◌, ◌∷◌, [], ℕ, List, IfOk, OnOk, MatchOption, get_or, length};
ghost use Rattle.std.specs.Prelude.{slice_get};
ghost use Rattle.csv.specs.Records.{fields_of};
ghost use Rattle.register_records.specs.Entries.{Fields, text_records};
ghost use Rattle.register_records.specs.Lines.{line_text};
ghost use Rattle.sheets.specs.Sheets.{records_text};
ghost use Rattle.page_rules.specs.private.RecordViews.{HasLines};

use csv::{ByteRecord, Writer, WriterBuilder};
use sheets::{read_next, records_of};
use std::alloc::{AllocError, Global};

/// The lines of records, one behind the other.
#[derive(Drop)]
pub(crate) struct RecordLines {
    writer: Writer<Vec<u8>>,
    // Where each line begins, and where the last ends.
    bounds: Vec<usize>,
}

impl RecordLines {
    /// No line. This byte will stand between two fields.
    pub fn new(alloc: Global, delimiter: u8) -> Result<RecordLines, AllocError>
        ensures { IfOk result (HasLines delimiter []) }
    {
        let writer = WriterBuilder::new()
            .delimiter(delimiter)
            .flexible(true)
            .from_writer(Vec::new(alloc));
        let mut bounds = Vec::new(alloc);
        bounds.push(0)?;
        Ok(RecordLines { writer, bounds })
    }

    /// Appends the line of a record.
    pub fn push(&mut self, csv_record: &ByteRecord) -> Result<(), AllocError>
        ensures { OnOk result ((delimiter : ℕ) (records : List Fields) → HasLines delimiter records self.old
            → HasLines delimiter (records ++ fields_of csv_record.now ∷ []) self.new) }
    {
        if self.writer.write_byte_record(csv_record).is_err() || self.writer.flush().is_err() {
            return Err(AllocError);
        }
        self.bounds.push(self.writer.get_ref().as_slice().len())?;
        Ok(())
    }

    /// The lines of the records of a text with this byte between two fields.
    pub fn of(alloc: Global, text: &[u8], delimiter: u8) -> Result<RecordLines, AllocError>
        ensures { IfOk result (HasLines delimiter (text_records delimiter text.now)) }
    {
        let mut records = records_of(alloc, text, delimiter);
        let mut record = ByteRecord::new(alloc);
        let mut lines = RecordLines::new(alloc, delimiter)?;
        'records: while read_next(&mut records, &mut record)? {
            lines.push(&record)?;
        }
        Ok(lines)
    }

    /// Where the line at a place begins, or the one before it ends.
    fn bound(&self, place: usize) -> Option<usize>
        ensures { result ≡ slice_get self.now.bounds.items place }
    {
        self.bounds.get(place).copied()
    }

    /// The line of the record at an index, if there is one.
    pub fn line(&self, index: u32) -> Option<&[u8]>
        ensures { (delimiter : ℕ) (records : List Fields) → HasLines delimiter records self.now
            → MatchOption result (length records ≤ index) (λ line. (index < length records)
            × (line.now ≡ line_text delimiter (get_or records index []))) }
    {
        let begin = self.bound(index as usize)?;
        let end = self.bound(index as usize + 1)?;
        self.writer.get_ref().as_slice().get(begin..end)
    }

    /// The text of all lines.
    pub fn into_text(self) -> Result<Vec<u8>, AllocError>
        ensures { IfOk result (λ text. (delimiter : ℕ) (records : List Fields) → HasLines delimiter records self
            → text.items ≡ records_text delimiter records) }
    {
        match self.writer.into_inner() {
            Ok(text) => Ok(text),
            Err(_) => Err(AllocError),
        }
    }
}
