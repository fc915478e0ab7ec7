//! Lines on their way to an output.

ghost use Rattle.std.specs.Prelude.{◌≡◌, ◌++◌, ◌∷◌, [], ℕ, List, Option, true, OnOk};
ghost use Rattle.register_records.specs.Entries.{Fields};
ghost use Rattle.sheets.specs.private.Sending.{Ends, HasMade, IsSent};

use crate::lines::SheetLines;
use crate::sheet_ends::SheetCause;
use register_records::{Output, send};
use std::alloc::Global;

/// How many bytes of lines are gathered before they are sent, or a few more.
const BLOCK: usize = 64 * 1024;

/// Lines that are sent in blocks.
#[derive(Drop)]
pub(crate) struct SheetSender {
    // The byte between two fields, which clauses name.
    delimiter: u8,
    pub(crate) lines: SheetLines,
}

impl SheetSender {
    /// No line yet.
    pub fn new(alloc: Global, delimiter: u8) -> SheetSender
        ensures delimiter { result.delimiter ≡ delimiter }
        ensures none { (begun : Option (List ℕ)) → HasMade delimiter begun begun result.lines [] [] }
    {
        SheetSender {
            delimiter,
            lines: SheetLines::new(alloc, delimiter),
        }
    }

    /// Sends the lines that are whole, where none is begun.
    pub fn send<W: Output>(&mut self, output: &mut W) -> Result<(), SheetCause>
        ensures kept { self.new.delimiter ≡ self.old.delimiter }
        ensures sent { OnOk result ((begun : Option (List ℕ)) (made : List Fields)
            → HasMade self.old.delimiter begun (W.contents output.old) self.old.lines made []
            → IsSent self.old.delimiter begun (W.contents output.new) self.new.lines made) }
        ensures flushed { OnOk result (W.is_flushed output.new ≡ true) }
        ensures output { Ends W.Output result output.old output.new }
    {
        send(output, self.lines.as_slice())?;
        self.lines.clear();
        Ok(())
    }

    /// Ends a line, and sends the lines where they are a block.
    pub fn end<W: Output>(&mut self, output: &mut W) -> Result<(), SheetCause>
        ensures kept { self.new.delimiter ≡ self.old.delimiter }
        ensures made { OnOk result ((begun : Option (List ℕ)) (made : List Fields) (fields : Fields)
            → HasMade self.old.delimiter begun (W.contents output.old) self.old.lines made fields
            → HasMade self.old.delimiter begun (W.contents output.new) self.new.lines (made ++ fields ∷ []) []) }
        ensures output { Ends W.Output result output.old output.new }
    {
        self.lines.end()?;
        if self.lines.written() >= BLOCK {
            self.send(output)?;
        }
        Ok(())
    }
}
