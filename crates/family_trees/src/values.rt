//! Values that go on in the lines behind them.

ghost use Rattle.std.specs.Prelude.{◌≡◌, ◌≤◌, ◌<◌, ◌+◌, ◌++◌, IfOk, OnOk, drop, length, map, reverse, take};
ghost use Rattle.family_trees.specs.private.LineViews.{line_seen};
ghost use Rattle.family_trees.specs.TextViews.{text_seen};
ghost use Rattle.family_trees.specs.Trees.{is_joined as is_joined_spec, joined_to, whole_before, whole_beside, whole_in};

use crate::lines::Line;
use crate::trees::is_wanted;
use std::alloc::{AllocError, Global};

/// A text of a tree.
#[derive(Drop)]
pub enum Text<'a> {
    /// It stands in the tree so.
    Part(&'a [u8]),
    /// It is joined of several lines.
    Joined(Vec<u8>),
}

impl<'a> Text<'a> {
    /// The bytes of the text.
    pub fn as_slice(&self) -> &[u8]
        ensures { result.now ≡ text_seen self.now }
    {
        match self {
            Text::Part(text) => text,
            Text::Joined(text) => text.as_slice(),
        }
    }
}

/// Whether a line goes on with the value of one of this level.
fn is_joined(line: &Line, level: u8) -> bool
    ensures { result ≡ is_joined_spec level (line_seen line.now) }
{
    line.level > 0 && line.level - 1 == level && line.tag == b"CONC".as_slice()
}

/// Appends what the first lines join to the value of a line of this level.
fn push_joined(whole: &mut Vec<u8>, behind: &[Line], level: u8) -> Result<(), AllocError>
    ensures { OnOk result (whole.new.items ≡ whole.old.items ++ joined_to level (map line_seen behind.now)) }
{
    'lines: for line in behind {
        if !is_joined(line, level) {
            return Ok(());
        }
        whole.extend_from_slice(line.value)?;
    }
    Ok(())
}

/// The whole value of a line of this level, with these lines behind it.
fn whole_value<'a>(
    alloc: Global,
    value: &'a [u8],
    behind: &[Line<'a>],
    level: u8,
) -> Result<Text<'a>, AllocError>
    ensures { IfOk result (λ text. text_seen text ≡ value.now ++ joined_to level (map line_seen behind.now)) }
{
    match behind {
        [first, ..] if is_joined(first, level) => {
            let mut whole = Vec::new(alloc);
            whole.extend_from_slice(value)?;
            push_joined(&mut whole, behind, level)?;
            Ok(Text::Joined(whole))
        }
        _ => Ok(Text::Part(value)),
    }
}

/// The whole value of the first of these lines with this level and tag, of those before one of a lower level.
#[tactic(auto, using(crate::proofs::TreeLemmas::first_behind))]
fn whole_in<'a>(
    alloc: Global,
    lines: &[Line<'a>],
    level: u8,
    tag: &[u8],
) -> Result<Text<'a>, AllocError>
    ensures { IfOk result (λ text. text_seen text ≡ whole_in level tag.now (map line_seen lines.now)) }
{
    let mut count = 0;
    'lines: while count < lines.len() {
        let line = &lines[count];
        if line.level < level {
            return Ok(Text::Part(&[]));
        }
        count += 1;
        if is_wanted(line, level, tag) {
            return whole_value(alloc, line.value, &lines[count..], level);
        }
    }
    Ok(Text::Part(&[]))
}

/// The same, from the line before this place back.
#[tactic(auto, using(crate::proofs::TreeLemmas::last_before, crate::proofs::TreeLemmas::first_behind))]
fn whole_before<'a>(
    alloc: Global,
    lines: &[Line<'a>],
    place: usize,
    level: u8,
    tag: &[u8],
) -> Result<Text<'a>, AllocError>
    requires { place ≤ length lines.now }
    ensures { IfOk result (λ text. text_seen text ≡ whole_before level tag.now
        (reverse (map line_seen (take place lines.now))) (map line_seen (drop place lines.now))) }
{
    let mut count = place;
    'lines: while count > 0 {
        let line = &lines[count - 1];
        if line.level < level {
            return Ok(Text::Part(&[]));
        }
        if is_wanted(line, level, tag) {
            return whole_value(alloc, line.value, &lines[count..], level);
        }
        count -= 1;
    }
    Ok(Text::Part(&[]))
}

/// The whole value of a line with this level and tag under the same line as the one at this place.
pub(crate) fn whole_beside<'a>(
    alloc: Global,
    lines: &[Line<'a>],
    place: usize,
    level: u8,
    tag: &[u8],
) -> Result<Text<'a>, AllocError>
    requires { place < length lines.now }
    ensures { IfOk result (λ text. text_seen text ≡ whole_beside level tag.now
        (reverse (map line_seen (take place lines.now))) (map line_seen (drop place lines.now))
        (map line_seen (drop (place + 1) lines.now))) }
{
    let before = whole_before(alloc, lines, place, level, tag)?;
    if before.as_slice().is_empty() {
        return whole_in(alloc, &lines[place + 1..], level, tag);
    }
    Ok(before)
}
