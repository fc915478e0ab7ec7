//! The dates of a family tree that are not those of its file.

ghost use Rattle.std.specs.Prelude.{◌≡◌, IfOk, map};
ghost use Rattle.family_trees.specs.DateViews.{date_seen};
ghost use Rattle.family_trees.specs.OwnDates.{is_change as change_spec, is_of_file as of_file_spec, is_tree as tree_spec};
ghost use Rattle.family_trees.specs.OwnDates.{own_dates, unmarked as unmarked_spec};

use crate::dates::{TreeDate, dates_of};
use crate::lines::{line_of, unindented};
use crate::trees::is_wanted;
use std::alloc::{AllocError, Global};

/// A text without the mark of UTF-8 in front.
fn unmarked(text: &[u8]) -> &[u8]
    ensures { result.now ≡ unmarked_spec text.now }
{
    if text.starts_with(b"\xef\xbb\xbf") {
        &text[3..]
    } else {
        text
    }
}

/// Whether a text is a family tree in GEDCOM 5.5.1 or 7: whether its first line is `0 HEAD`. What is no line is passed
/// over.
pub fn is_tree(text: &[u8]) -> bool
    ensures { result ≡ tree_spec text.now }
{
    'parts: for part in unmarked(text).split(|byte| *byte == b'\n' || *byte == b'\r') {
        if let Some(line) = line_of(unindented(part)) {
            return is_wanted(&line, 0, b"HEAD");
        }
    }
    false
}

/// Whether this is the tag of when a record was changed or made.
fn is_change(event: &[u8]) -> bool
    ensures { result ≡ change_spec event.now }
{
    event == b"CHAN".as_slice()
        || event == b"_CHAN".as_slice()
        || event == b"CREA".as_slice()
        || event == b"_CREA".as_slice()
}

/// Whether a date is one of the file itself.
fn is_of_file(date: &TreeDate) -> bool
    ensures { result ≡ of_file_spec (date_seen date.now) }
{
    date.number.is_empty() || is_change(date.event)
}

/// The dates of a family tree, as [`dates_of`] has them, without those of its file: of its header, and of when a record
/// was changed or made.
///
/// # Errors
///
/// Memory ran out.
pub(crate) fn own_dates_of(alloc: Global, tree: &[u8]) -> Result<Vec<TreeDate<'_>>, AllocError>
    ensures { IfOk result (λ dates. map date_seen dates.items ≡ own_dates tree.now) }
{
    let mut dates = dates_of(alloc, unmarked(tree))?;
    dates.retain(|date| !is_of_file(date));
    Ok(dates)
}
