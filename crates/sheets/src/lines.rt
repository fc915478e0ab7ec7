//! Lines of fields, as csv's writer would write them.

ghost use Rattle.std.specs.Prelude.{◌≡◌, ◌≤◌, ◌+◌, ◌∷◌, [], ℕ, List, IfSome, OnOk, drop, map, replicate, true};
ghost use Rattle.register_records.specs.LineRoom.{field_room};
ghost use Rattle.register_records.specs.Views.{tail_shown};
ghost use Rattle.sheets.specs.private.LineViews.{Begins, EndsLine, GainsFields, TakesTail};

use register_records::{LineBuffer, Row, TAIL_ROOM};
use std::alloc::{AllocError, Global};

/// Room in bytes for the end of a line: two quotes, where it shows no byte, and a line feed.
const END_ROOM: usize = 3;

/// Lines, and the fields so far of one more behind them, in memory that serves again.
#[derive(Drop)]
pub(crate) struct SheetLines {
    buffer: LineBuffer,
    // Where the line that is begun begins.
    begun: usize,
    // Whether it has a field.
    has_field: bool,
}

/// Room in bytes for a field of so many behind a delimiter, even where each is a quote.
fn room_for(len: usize) -> Option<usize>
    ensures { IfSome result (λ room. room ≡ 1 + field_room len) }
{
    len.checked_mul(2)?.checked_add(3)
}

impl SheetLines {
    /// No line yet. This byte will stand between two fields.
    pub fn new(alloc: Global, delimiter: u8) -> SheetLines
        ensures { Begins delimiter [] [] result }
    {
        SheetLines {
            buffer: LineBuffer::empty(alloc, delimiter),
            begun: 0,
            has_field: false,
        }
    }

    /// How many bytes the lines have, with those of the line that is begun.
    pub fn written(&self) -> usize {
        self.buffer.len()
    }

    /// Appends one more field, quoted where it must be.
    pub fn push(&mut self, field: &[u8]) -> Result<(), AllocError>
        ensures { OnOk result (GainsFields (field.now ∷ []) self.old self.new) }
    {
        let Some(room) = room_for(field.len()) else {
            return Err(AllocError);
        };
        self.buffer.reserve(room)?;
        if self.has_field {
            self.buffer.field(field);
            return Ok(());
        }
        self.buffer.begin_quotable(field);
        self.has_field = true;
        Ok(())
    }

    /// Appends fields, in order.
    pub fn push_all(&mut self, fields: &[&[u8]]) -> Result<(), AllocError>
        ensures { OnOk result (GainsFields (map (λ field. field.now) fields.now) self.old self.new) }
    {
        'fields: for field in fields {
            self.push(field)?;
        }
        Ok(())
    }

    /// Appends empty fields, so many.
    pub fn push_empty(&mut self, count: usize) -> Result<(), AllocError>
        ensures { OnOk result (GainsFields (replicate count []) self.old self.new) }
    {
        'fields: for _ in 0..count {
            self.push(b"")?;
        }
        Ok(())
    }

    /// Whether a line is begun, and the row was made for a table with its delimiter.
    pub fn takes_tail(&self, row: &Row) -> bool
        ensures { result ≡ true → TakesTail self.now row.now }
    {
        self.has_field && self.buffer.delimiter() == row.delimiter()
    }

    /// Appends what a table shows of a row behind its entry, without the first columns, so many, as it was written there.
    pub fn push_tail(&mut self, row: &Row, passed: usize) -> Result<(), AllocError>
        requires takes { TakesTail self.old row.now }
        requires few { passed ≤ 2 }
        ensures { OnOk result (GainsFields (drop passed (tail_shown row.now)) self.old self.new) }
    {
        self.buffer.reserve(TAIL_ROOM)?;
        row.put_tail_from(&mut self.buffer, passed);
        Ok(())
    }

    /// Ends the line.
    pub fn end(&mut self) -> Result<(), AllocError>
        ensures { OnOk result (EndsLine self.old self.new) }
    {
        self.buffer.reserve(END_ROOM)?;
        self.buffer.end_from(self.begun);
        self.begun = self.buffer.len();
        self.has_field = false;
        Ok(())
    }

    /// The text of the lines, where none is begun.
    pub fn as_slice(&self) -> &[u8]
        ensures { (delimiter : ℕ) (before : List ℕ) → Begins delimiter before [] self.now → result.now ≡ before }
    {
        self.buffer.as_slice()
    }

    /// Lets the lines go, and keeps their memory.
    pub fn clear(&mut self)
        ensures { (delimiter : ℕ) (before : List ℕ) (fields : List (List ℕ)) → Begins delimiter before fields self.old
            → Begins delimiter [] [] self.new }
    {
        self.buffer.clear();
        self.begun = 0;
        self.has_field = false;
    }

    /// The text of the lines, where none is begun.
    pub fn into_text(self) -> Vec<u8>
        ensures { (delimiter : ℕ) (before : List ℕ) → Begins delimiter before [] self → result.items ≡ before }
    {
        self.buffer.into_bytes()
    }
}
