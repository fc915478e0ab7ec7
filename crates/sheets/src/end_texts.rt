//! The first and the last day that a field can mean, as date texts of registers.

ghost use Rattle.std.specs.Prelude.{◌≡◌, IfOk, OnOk, if◌then◌else◌};
ghost use Rattle.sheets.specs.DateEnds.{AreEndsBy};
ghost use Rattle.sheets.specs.private.SheetRecords.{last_text};

use crate::choices::{SheetChoice, Spans};
use date_spans::{Kind, Marks, write_span};
use date_texts::Calendar;
use std::alloc::{AllocError, Global};
use written_dates::write_date;

/// The marks of a date.
pub(crate) const DAY_MARKS: Marks = Marks {
    kind: Kind::One,
    about: false,
    uncertain: false,
    inferred: false,
};

/// The texts of a first and a last day, in memory that serves again.
#[derive(Drop)]
pub(crate) struct EndTexts {
    first: Vec<u8>,
    // The last day, where its text is another than that of the first.
    last: Vec<u8>,
    pub has_last: bool,
    pub marks: Marks,
}

/// Writes the first and the last day that a field can mean in a calendar, as date texts of registers. Returns whether the
/// last one is another, and is there, and what else the field says.
pub(crate) fn write_ends(
    first: &mut Vec<u8>,
    last: &mut Vec<u8>,
    choice: &SheetChoice,
    called: Option<Calendar>,
    field: &[u8],
) -> Result<(bool, Marks), AllocError>
    ensures { IfOk result (λ found. AreEndsBy choice.now.spans choice.now.reading called choice.now.names.now.listed.now
        field.now first.new.items (if found.0 then last.new.items else first.new.items) found.1) }
{
    match choice.spans {
        Spans::Unread => {
            first.clear();
            write_date(first, field, called, choice.names, &choice.reading)?;
            Ok((false, DAY_MARKS))
        }
        _ => {
            let marks = write_span(first, last, field, called, choice.names, &choice.reading)?;
            Ok((first.as_slice() != last.as_slice(), marks))
        }
    }
}

impl EndTexts {
    /// Texts before any were written.
    pub fn blank(alloc: Global) -> EndTexts {
        EndTexts {
            first: Vec::new(alloc),
            last: Vec::new(alloc),
            has_last: false,
            marks: DAY_MARKS,
        }
    }

    /// Makes these the texts of the first and the last day that a field can mean in a calendar.
    pub fn put(
        &mut self,
        choice: &SheetChoice,
        called: Option<Calendar>,
        field: &[u8],
    ) -> Result<(), AllocError>
        ensures { OnOk result (AreEndsBy choice.now.spans choice.now.reading called choice.now.names.now.listed.now
            field.now self.new.first.items (last_text self.new) self.new.marks) }
    {
        let (has_last, marks) = write_ends(&mut self.first, &mut self.last, choice, called, field)?;
        self.has_last = has_last;
        self.marks = marks;
        Ok(())
    }

    /// The text of the first day.
    pub fn first(&self) -> &[u8]
        ensures { result.now ≡ self.now.first.items }
    {
        self.first.as_slice()
    }

    /// The text of the last day.
    pub fn last(&self) -> &[u8]
        ensures { result.now ≡ last_text self.now }
    {
        if self.has_last {
            self.last.as_slice()
        } else {
            self.first.as_slice()
        }
    }
}
