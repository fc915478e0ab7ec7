//! The dates of a family tree, and what each is the date of.

ghost use Rattle.std.specs.Prelude.{◌≡◌, ◌<◌, ◌+◌, IfOk, drop, get_or, length, map, reverse, take};
ghost use Rattle.family_trees.specs.DateValues.{dated as dated_spec};
ghost use Rattle.family_trees.specs.DateViews.{date_seen};
ghost use Rattle.family_trees.specs.private.DateViews.{lines_in, over_seen};
ghost use Rattle.family_trees.specs.private.LineViews.{line_seen};
ghost use Rattle.family_trees.specs.Lines.{unindented as unindented_spec};
ghost use Rattle.family_trees.specs.declared.lines.Line.{Line as LineValue};
ghost use Rattle.family_trees.specs.TextViews.{text_seen};
ghost use Rattle.family_trees.specs.Trees.{date_at, date_with, first_person, is_date, is_family, name_in};
ghost use Rattle.family_trees.specs.Trees.{part_over, second_person, tag_over, tree_dates, value_beside};

use crate::date_values::{DateValue, dated};
use crate::lines::{Line, lines_of, unindented};
use crate::trees::{Tree, line_over, names_of, value_before, value_in};
use crate::values::{Text, whole_beside};
use std::alloc::{AllocError, Global};

/// A date of a family tree.
#[derive(Drop)]
pub struct TreeDate<'a> {
    /// The number of the record that has it, as `@I1@`, or nothing.
    pub number: &'a [u8],
    /// The name of the person, or of the husband of a family.
    pub name: &'a [u8],
    /// The name of the wife of a family.
    pub partner: &'a [u8],
    /// What it is the date of, by its tag, as `BIRT`.
    pub event: &'a [u8],
    /// The part of the event that has the date, by its tag, or nothing where it is the event itself.
    pub part: &'a [u8],
    /// The type of that.
    pub kind: &'a [u8],
    /// Its place, whole, also where it goes on in lines `CONC`.
    pub place: Text<'a>,
    /// The name of the date's calendar.
    pub calendar: &'a [u8],
    /// The date, as it stands but for the marks of its calendar.
    pub date: Text<'a>,
}

/// Whether a line is a date.
fn is_date(line: &Line) -> bool
    ensures { result ≡ is_date (line_seen line.now) }
{
    line.level > 0 && line.tag == b"DATE".as_slice()
}

/// The value of a line with this level and tag under the same line.
fn value_beside<'a>(before: &[Line<'a>], behind: &[Line<'a>], level: u8, tag: &[u8]) -> &'a [u8]
    ensures { result.now
        ≡ value_beside level tag.now (reverse (map line_seen before.now)) (map line_seen behind.now) }
{
    let value = value_before(before, level, tag);
    if value.is_empty() {
        return value_in(behind, level, tag);
    }
    value
}

/// Whether a record is a family.
fn is_family(over: &Option<Line>) -> bool
    ensures { result ≡ is_family (over_seen over.now) }
{
    match over {
        Some(line) => line.tag == b"FAM".as_slice(),
        None => false,
    }
}

/// The number of the person who has the first name.
fn first_person<'a>(over: &Option<Line<'a>>, before: &[Line<'a>], behind: &[Line<'a>]) -> &'a [u8]
    ensures { result.now ≡ first_person (over_seen over.now) (reverse (map line_seen before.now))
        (map line_seen behind.now) }
{
    if is_family(over) {
        return value_beside(before, behind, 1, b"HUSB");
    }
    match over {
        Some(line) => line.number,
        None => &[],
    }
}

/// The number of the person who has the second name.
fn second_person<'a>(over: &Option<Line<'a>>, before: &[Line<'a>], behind: &[Line<'a>]) -> &'a [u8]
    ensures { result.now ≡ second_person (over_seen over.now) (reverse (map line_seen before.now))
        (map line_seen behind.now) }
{
    if is_family(over) {
        return value_beside(before, behind, 1, b"WIFE");
    }
    &[]
}

/// The tag of what stands at this level over a line that is deeper.
fn tag_over<'a>(before: &[Line<'a>], over: u8, level: u8) -> &'a [u8]
    ensures { result.now ≡ tag_over over level (reverse (map line_seen before.now)) }
{
    if level <= over {
        return &[];
    }
    match line_over(before, over) {
        Some(line) => line.tag,
        None => &[],
    }
}

/// The tag of the part of an event.
fn part_over<'a>(before: &[Line<'a>], level: u8) -> &'a [u8]
    ensures { result.now ≡ part_over level (reverse (map line_seen before.now)) }
{
    if level <= 2 {
        return &[];
    }
    tag_over(before, level - 1, level)
}

impl<'a> Tree<'a> {
    /// The name of the record with this number, or nothing.
    fn name(&self, number: &[u8]) -> &'a [u8]
        ensures { result.now ≡ name_in (lines_in self.now) number.now }
    {
        if number.is_empty() {
            return &[];
        }
        match self.names.get(number) {
            Some(name) => *name,
            None => &[],
        }
    }

    /// The date on a line, by the lines before it and behind it, its place, and what its value says.
    fn date(
        &self,
        before: &[Line<'a>],
        line: &Line<'a>,
        behind: &[Line<'a>],
        place: Text<'a>,
        value: DateValue<'a>,
    ) -> TreeDate<'a>
        requires calendar { value.calendar.now ≡ (dated_spec (unindented_spec (line_seen line.now).value)).0 }
        requires text { text_seen value.text ≡ (dated_spec (unindented_spec (line_seen line.now).value)).1 }
        ensures { date_seen result ≡ date_with (lines_in self.now) (reverse (map line_seen before.now))
            (line_seen line.now) (map line_seen behind.now) (text_seen place.entry) }
    {
        let over = line_over(before, 0);
        TreeDate {
            number: match over {
                Some(line) => line.number,
                None => &[],
            },
            name: self.name(first_person(&over, before, behind)),
            partner: self.name(second_person(&over, before, behind)),
            event: tag_over(before, 1, line.level),
            part: part_over(before, line.level),
            kind: value_beside(before, behind, line.level, b"TYPE"),
            place,
            calendar: value.calendar,
            date: value.text,
        }
    }
}

/// The date on the line at this place of a tree.
#[tactic(auto, using(crate::proofs::TreeLemmas::first_behind))]
fn date_on<'a>(
    alloc: Global,
    tree: &Tree<'a>,
    lines: &[Line<'a>],
    place: usize,
) -> Result<TreeDate<'a>, AllocError>
    requires { place < length lines.now }
    ensures { IfOk result (λ date. (d : LineValue) → date_seen date ≡ date_at (lines_in tree.now)
        (reverse (map line_seen (take place lines.now))) (line_seen (get_or lines.now place d))
        (map line_seen (drop (place + 1) lines.now))) }
{
    let line = &lines[place];
    let of_place = whole_beside(alloc, lines, place, line.level, b"PLAC")?;
    let value = dated(alloc, unindented(line.value))?;
    Ok(tree.date(&lines[..place], line, &lines[place + 1..], of_place, value))
}

/// The dates of a family tree in GEDCOM 5.5.1 or 7: one for each line `DATE` of a record, in order. What is no line is
/// passed over.
///
/// # Errors
///
/// Memory ran out.
pub fn dates_of(alloc: Global, text: &[u8]) -> Result<Vec<TreeDate<'_>>, AllocError>
    ensures { IfOk result (λ dates. map date_seen dates.items ≡ tree_dates text.now) }
{
    let lines = lines_of(alloc, text)?;
    let names = names_of(alloc, lines.as_slice())?;
    let tree = Tree { lines, names };
    let lines = tree.lines.as_slice();
    let mut dates = Vec::new(alloc);
    'lines: for place in 0..lines.len() {
        if is_date(&lines[place]) {
            let date = date_on(alloc, &tree, lines, place)?;
            dates.push(date)?;
        }
    }
    Ok(dates)
}
