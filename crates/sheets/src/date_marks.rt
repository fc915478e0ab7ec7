//! The words of marks.

ghost use Rattle.std.specs.Prelude.{◌≡◌, ◌≤◌, length};
ghost use Rattle.sheets.specs.DateEnds.{kind_word as kind_spec, mark_text as mark_spec};
ghost use Rattle.sheets.specs.DateEnds.{about_word, inferred_word, spaced, uncertain_word};

use arrayvec::ArrayString;
use date_spans::{Kind, Marks};

/// The most bytes of the words of marks: `between about uncertain inferred`, and with `undated` as many.
const MAX_MARK: usize = 32;

/// The word of a kind of saying, or none.
fn kind_word(kind: Kind) -> &'static str
    ensures value { result.now ≡ kind_spec kind }
    ensures short { length result.now ≤ 7 }
{
    match kind {
        Kind::Between => "between",
        Kind::Before => "before",
        Kind::After => "after",
        Kind::From => "from",
        Kind::Until => "to",
        Kind::Undated => "undated",
        _ => "",
    }
}

/// The words of what is doubted.
fn doubt_words(about: bool, uncertain: bool, inferred: bool) -> &'static str
    ensures value { result.now ≡ spaced (about_word about) (spaced (uncertain_word uncertain) (inferred_word inferred)) }
    ensures short { length result.now ≤ 24 }
{
    match (about, uncertain, inferred) {
        (false, false, false) => "",
        (true, false, false) => "about",
        (false, true, false) => "uncertain",
        (true, true, false) => "about uncertain",
        (false, false, true) => "inferred",
        (true, false, true) => "about inferred",
        (false, true, true) => "uncertain inferred",
        (true, true, true) => "about uncertain inferred",
    }
}

/// The words of marks, with a space between two.
pub(crate) fn mark_text(marks: Marks) -> ArrayString<MAX_MARK>
    ensures { result.bytes ≡ mark_spec marks }
{
    let kind = kind_word(marks.kind);
    let doubt = doubt_words(marks.about, marks.uncertain, marks.inferred);
    let mut text = ArrayString::new();
    text.push_str(kind);
    if !kind.is_empty() && !doubt.is_empty() {
        text.push(' ');
    }
    text.push_str(doubt);
    text
}
