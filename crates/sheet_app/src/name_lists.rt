//! The lists of names: those of the user, and the built-in one.

ghost use Rattle.std.specs.Prelude.{IfErr, OnOk};
ghost use Rattle.sheet_app.specs.Sheets.{GainsList};
ghost use Rattle.sheet_app.specs.private.Sheets.{IsFaultOfText};

use sheets::{NameList, NameListFault};
use std::alloc::Global;

/// Appends the names of a text that is a list of names.
///
/// # Errors
///
/// The fault of the text, and `OutOfMemory`.
pub fn push_list(alloc: Global, list: &mut NameList, text: &[u8]) -> Result<(), NameListFault>
    ensures lines { OnOk result (GainsList text.now list.old.lines.items list.new.lines.items) }
    ensures fault { IfErr result (IsFaultOfText text.now) }
{
    let mut behind = NameList::read(alloc, text)?;
    match list.lines.append(&mut behind.lines) {
        Ok(()) => Ok(()),
        Err(_) => Err(NameListFault::OutOfMemory),
    }
}
