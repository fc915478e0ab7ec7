//! Texts of which a part stands in square brackets.

ghost use Rattle.std.specs.Prelude.{◌≡◌, ◌==◌, ◌++◌, IfOk, position};
ghost use Rattle.std.specs.List.{list_any};
ghost use Rattle.date_spans.specs.Brackets.{bracketed as bracketed_spec, cut_at as cut_spec, is_bracket};
ghost use Rattle.date_spans.specs.private.CutViews.{seen_parts, seen_sides};

use std::alloc::AllocError;
use written_dates::without_blanks;

/// Where the first byte of this value stands.
fn place_of(byte: u8, text: &[u8]) -> Option<usize>
    ensures { result ≡ position (λ c. c == byte) text.now }
{
    text.iter().position(|c| *c == byte)
}

/// A text before its first byte of this value, and behind it.
fn cut_at(byte: u8, text: &[u8]) -> Option<(&[u8], &[u8])>
    ensures { seen_sides result ≡ cut_spec byte text.now }
{
    match place_of(byte, text) {
        Some(place) => Some((&text[..place], &text[place + 1..])),
        None => None,
    }
}

/// Whether a bracket stands in a text.
fn has_bracket(text: &[u8]) -> bool
    ensures { result ≡ list_any is_bracket text.now }
{
    text.iter().any(|c| *c == b'[' || *c == b']')
}

/// What stands before, between and behind the brackets of a text, where these are two, and more than blanks between them.
#[tactic(auto, unfolding(crate::specs::Brackets::bracketed))]
pub fn bracketed(text: &[u8]) -> Option<(&[u8], &[u8], &[u8])>
    ensures { seen_parts result ≡ bracketed_spec text.now }
{
    let (front, rest) = cut_at(b'[', text)?;
    let (within, behind) = cut_at(b']', rest)?;
    if has_bracket(front)
        || has_bracket(within)
        || has_bracket(behind)
        || without_blanks(within).is_empty()
    {
        return None;
    }
    Some((front, within, behind))
}

/// Three texts as one, in a buffer of its own, which is made like this one.
pub fn joined(
    like: &mut Vec<u8>,
    front: &[u8],
    within: &[u8],
    behind: &[u8],
) -> Result<Vec<u8>, AllocError>
    ensures { IfOk result (λ whole. whole.items ≡ front.now ++ (within.now ++ behind.now)) }
{
    like.clear();
    let mut whole = like.clone()?;
    whole.extend_from_slice(front)?;
    whole.extend_from_slice(within)?;
    whole.extend_from_slice(behind)?;
    Ok(whole)
}
