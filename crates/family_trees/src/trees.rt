//! A family tree: its lines, and the names of its records.

ghost use Rattle.std.specs.Prelude.{◌≡◌, IfOk, map, option_map, reverse};
ghost use Rattle.family_trees.specs.private.TreeViews.{AreNames};
ghost use Rattle.family_trees.specs.private.LineViews.{line_seen};
ghost use Rattle.family_trees.specs.Trees.{is_wanted, line_over, value_in};

use crate::lines::Line;
use std::alloc::{AllocError, Global};
use std::collections::HashMap;

/// A tree: its lines, and the names of its records.
#[derive(Drop)]
pub(crate) struct Tree<'a> {
    pub lines: Vec<Line<'a>>,
    pub names: HashMap<&'a [u8], &'a [u8]>,
    ghost named: { AreNames names (map line_seen lines.items) },
}

/// Whether a line has this level and tag.
pub(crate) fn is_wanted(line: &Line, level: u8, tag: &[u8]) -> bool
    ensures { result ≡ is_wanted level tag.now (line_seen line.now) }
{
    line.level == level && line.tag == tag
}

/// The value of the first of these lines with this level and tag, of those before one of a lower level.
#[tactic(auto, using(crate::proofs::TreeLemmas::first_behind))]
pub(crate) fn value_in<'a>(lines: &[Line<'a>], level: u8, tag: &[u8]) -> &'a [u8]
    ensures { result.now ≡ value_in level tag.now (map line_seen lines.now) }
{
    'lines: for line in lines {
        if line.level < level {
            return &[];
        }
        if is_wanted(line, level, tag) {
            return line.value;
        }
    }
    &[]
}

/// The same, from the last of these lines on.
#[tactic(auto, using(crate::proofs::TreeLemmas::last_before, crate::proofs::TreeLemmas::all_before))]
pub(crate) fn value_before<'a>(lines: &[Line<'a>], level: u8, tag: &[u8]) -> &'a [u8]
    ensures { result.now ≡ value_in level tag.now (reverse (map line_seen lines.now)) }
{
    let mut count = lines.len();
    'lines: while count > 0 {
        count -= 1;
        let line = &lines[count];
        if line.level < level {
            return &[];
        }
        if is_wanted(line, level, tag) {
            return line.value;
        }
    }
    &[]
}

/// The last of these lines that is of this level or of a lower one.
#[tactic(auto, using(crate::proofs::TreeLemmas::last_before, crate::proofs::TreeLemmas::all_before))]
pub(crate) fn line_over<'a>(lines: &[Line<'a>], level: u8) -> Option<Line<'a>>
    ensures { option_map line_seen result ≡ line_over level (reverse (map line_seen lines.now)) }
{
    let mut count = lines.len();
    'lines: while count > 0 {
        count -= 1;
        if lines[count].level <= level {
            return Some(lines[count]);
        }
    }
    None
}

/// The name of each record that has a number: of two with the same, that of the first.
///
/// # Errors
///
/// Memory ran out.
pub(crate) fn names_of<'a>(
    alloc: Global,
    lines: &[Line<'a>],
) -> Result<HashMap<&'a [u8], &'a [u8]>, AllocError>
    ensures { IfOk result (λ names. AreNames names (map line_seen lines.now)) }
{
    let mut names = HashMap::new(alloc);
    let mut count = lines.len();
    'lines: while count > 0 {
        count -= 1;
        if lines[count].level == 0 {
            let name = value_in(&lines[count + 1..], 1, b"NAME");
            names.insert(lines[count].number, name)?;
        }
    }
    Ok(names)
}
