//! The sheet that the text of a file is, or that is made of it.

ghost use Rattle.std.specs.Prelude.{◌≡◌, IfErr, IfOk, None};
ghost use Rattle.std.specs.Str.{is_utf8};
ghost use Rattle.sheet_arguments.specs.Requests.{task_of};
ghost use Rattle.family_trees.specs.OwnDates.{own_text};
ghost use Rattle.sheet_app.specs.TreeTexts.{IsFaultBy, fault_of_text, fault_of_tree as fault_spec, sheet_of as sheet_spec};

use crate::sheet_faults::SheetFault;
use family_trees::{is_tree, own_tree_sheet};
use sheet_arguments::Job;
use std::alloc::Global;
use std::str;

/// Whether a text is UTF-8.
fn is_text(text: &[u8]) -> bool
    ensures { result ≡ is_utf8 text.now }
{
    match str::from_utf8(text) {
        Ok(_) => true,
        Err(_) => false,
    }
}

/// What is wrong with a text that is to be a family tree.
fn fault_of_tree<'b>(text: &[u8]) -> Option<SheetFault<'b>>
    ensures { result ≡ fault_spec text.now }
{
    if !is_text(text) {
        return Some(SheetFault::NotUtf8);
    }
    if !is_tree(text) {
        return Some(SheetFault::NoTree);
    }
    None
}

/// The sheet of the dates of a family tree.
fn tree_of<'b>(alloc: Global, text: &[u8]) -> Result<Vec<u8>, SheetFault<'b>>
    ensures sheet { IfOk result (λ sheet. (fault_spec text.now ≡ None) × (sheet.items ≡ own_text text.now)) }
    ensures fault { IfErr result (IsFaultBy (fault_spec text.now)) }
{
    match fault_of_tree(text) {
        Some(fault) => Err(fault),
        None => match own_tree_sheet(alloc, text) {
            Ok(sheet) => Ok(sheet),
            Err(_) => Err(SheetFault::OutOfMemory),
        },
    }
}

/// The sheet that a job converts of the text of a file: with a tree that of its dates, and else the text itself.
pub fn sheet_of<'b>(alloc: Global, text: Vec<u8>, job: &Job<'b>) -> Result<Vec<u8>, SheetFault<'b>>
    ensures sheet { IfOk result (λ sheet. (fault_of_text (task_of job.now) text.items ≡ None)
        × (sheet.items ≡ sheet_spec (task_of job.now) text.items)) }
    ensures fault { IfErr result (IsFaultBy (fault_of_text (task_of job.now) text.items)) }
{
    if !job.tree {
        return Ok(text);
    }
    tree_of(alloc, text.as_slice())
}
