//! The lines of a family tree.

ghost use Rattle.std.specs.Prelude.{◌≡◌, ◌≤◌, IfOk, length, option_map, map};
ghost use Rattle.std.specs.List.{position_or_len};
ghost use Rattle.family_trees.specs.Lines.{digit_of, is_blank, level_of, line_of, rest_of, tree_lines, unindented, word_of};
ghost use Rattle.family_trees.specs.private.LineViews.{line_seen};

use std::alloc::{AllocError, Global};

/// A line: how deep it stands, the number of its record, its tag, and what stands behind that.
#[derive(Clone, Copy)]
pub(crate) struct Line<'a> {
    /// A record has level 0, and what it has stands one level deeper.
    pub level: u8,
    /// The number of the record that this line begins, as `@I1@`, or nothing.
    pub number: &'a [u8],
    /// What the line has, as `BIRT` or `DATE`.
    pub tag: &'a [u8],
    pub value: &'a [u8],
}

/// A text without white space at its front.
pub(crate) fn unindented(text: &[u8]) -> &[u8]
    ensures { result.now ≡ unindented text.now }
{
    text.trim_ascii_start()
}

/// Where the first blank stands, or the length where there is none.
fn first_blank(text: &[u8]) -> usize
    ensures value { result ≡ position_or_len is_blank text.now }
    ensures bound { result ≤ length text.now }
{
    let mut blank = 0;
    'bytes: for byte in text {
        if *byte == b' ' {
            return blank;
        }
        blank += 1;
    }
    blank
}

/// The bytes up to the first blank.
fn word_of(text: &[u8]) -> &[u8]
    ensures { result.now ≡ word_of text.now }
{
    &text[..first_blank(text)]
}

/// The bytes behind the first blank.
fn rest_of(text: &[u8]) -> &[u8]
    ensures { result.now ≡ rest_of text.now }
{
    let blank = first_blank(text);
    if blank == text.len() {
        return &[];
    }
    &text[blank + 1..]
}

/// The value of a digit.
fn digit_of(byte: u8) -> Option<u8>
    ensures { result ≡ digit_of byte }
{
    if byte.is_ascii_digit() {
        Some(byte - b'0')
    } else {
        None
    }
}

/// The level that a word of one or two digits names.
fn level_of(word: &[u8]) -> Option<u8>
    ensures { result ≡ level_of word.now }
{
    match word {
        [one] => digit_of(*one),
        [tens, ones] => {
            let tens = digit_of(*tens)?;
            let ones = digit_of(*ones)?;
            Some(10 * tens + ones)
        }
        _ => None,
    }
}

/// The line that a text is, or `None` where it is none.
pub(crate) fn line_of(text: &[u8]) -> Option<Line<'_>>
    ensures { option_map line_seen result ≡ line_of text.now }
{
    let level = level_of(word_of(text))?;
    let behind = rest_of(text);
    if behind.starts_with(b"@") {
        let tagged = rest_of(behind);
        return Some(Line {
            level,
            number: word_of(behind),
            tag: word_of(tagged),
            value: rest_of(tagged),
        });
    }
    Some(Line {
        level,
        number: &[],
        tag: word_of(behind),
        value: rest_of(behind),
    })
}

/// The lines of a text. What is no line is passed over.
pub(crate) fn lines_of(alloc: Global, text: &[u8]) -> Result<Vec<Line<'_>>, AllocError>
    ensures { IfOk result (λ lines. map line_seen lines.items ≡ tree_lines text.now) }
{
    let mut lines = Vec::new(alloc);
    'parts: for part in text.split(|byte| *byte == b'\n' || *byte == b'\r') {
        if let Some(line) = line_of(unindented(part)) {
            lines.push(line)?;
        }
    }
    Ok(lines)
}
