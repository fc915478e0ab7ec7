//! Words as they are compared: by Unicode's canonical caseless match.

ghost use Rattle.std.specs.Prelude.{◌≡◌, ℕ, List, ◌+◌, ◌<◌, ◌≤◌, ◌∷◌, ◌++◌, []};
ghost use Rattle.std.specs.Prelude.{true, false, chars, drop, flat_map, length, take};
ghost use Rattle.std.specs.Prelude.{IfSome, IfNone, IsAscii};
ghost use Rattle.caseless.specs.Caseless.{canonical_key, default_case_fold};
ghost use Rattle.ucd_case.specs.CaseFolding.{full_fold};
ghost use Rattle.unicode_normalization.specs.Decompose.{decompose_canonical};
ghost use Rattle.unicode_normalization.specs.Forms.{nfd};
ghost use Rattle.unicode_normalization.specs.Order.{canonical_order};
ghost use Rattle.written_dates.specs.private.WordViews.{OrdersMore};
ghost use Rattle.written_dates.specs.Words.{is_folded, same_word};

use arrayvec::ArrayVec;
use std::str::from_utf8;
use ucd_case::full_folding;
use unicode_normalization::Form;
use unicode_normalization::char::{canonical_combining_class, decomposition};

/// At how many characters a word is still folded.
const ROOM: usize = 64;

/// Where a character stands behind these: before those that have a higher class, if it has one.
fn place_of(chars: &[char], c: char) -> usize
    ensures within { result ≤ length chars.now }
    ensures ordered { (xs : List ℕ) → chars.now ≡ canonical_order xs
        → take result chars.now ++ c ∷ drop result chars.now ≡ canonical_order (xs ++ c ∷ []) }
{
    let class = canonical_combining_class(c);
    let mut place = chars.len();
    'places: while place > 0 && 0 < class && class < canonical_combining_class(chars[place - 1]) {
        place -= 1;
    }
    place
}

/// Puts a character behind others, and says whether there was room.
fn push_ordered(out: &mut ArrayVec<char, ROOM>, c: char) -> bool
    ensures room { result ≡ true → OrdersMore out.old.items out.new.items (c ∷ []) }
    ensures full { result ≡ false → 64 < length out.old.items + 1 }
{
    let place = place_of(out.as_slice(), c);
    out.try_insert(place, c).is_ok()
}

/// Puts the characters of which one is made behind others.
fn push_decomposed(out: &mut ArrayVec<char, ROOM>, c: char) -> bool
    ensures room { result ≡ true → OrdersMore out.old.items out.new.items (decompose_canonical c) }
    ensures full { result ≡ false → 64 < length out.old.items + length (decompose_canonical c) }
{
    let mut room = [c; 3];
    'parts: for part in decomposition(c, Form::Nfd, &mut room) {
        if !push_ordered(out, *part) {
            return false;
        }
    }
    true
}

/// Puts a character as it is folded behind others.
fn push_folded(out: &mut ArrayVec<char, ROOM>, c: char) -> bool
    ensures room { result ≡ true → OrdersMore out.old.items out.new.items (flat_map decompose_canonical (full_fold c)) }
    ensures full { result ≡ false → 64 < length out.old.items + length (flat_map decompose_canonical (full_fold c)) }
{
    let folding = full_folding(c);
    if folding.is_empty() {
        return push_decomposed(out, c);
    }
    'parts: for part in folding {
        if !push_decomposed(out, *part) {
            return false;
        }
    }
    true
}

/// A text, decomposed; nothing where that is too long.
fn decomposed(text: &str) -> Option<ArrayVec<char, ROOM>>
    ensures some { IfSome result (λ out. out.items ≡ nfd (chars text.now)) }
    ensures short { IfSome result (λ out. length out.items ≤ 64) }
    ensures none { IfNone result (64 < length (nfd (chars text.now))) }
{
    let mut out = ArrayVec::new();
    'chars: for c in text.chars() {
        if !push_decomposed(&mut out, c) {
            return None;
        }
    }
    Some(out)
}

/// These characters as they are folded, decomposed again; nothing where that is too long.
fn refolded(text: &[char]) -> Option<ArrayVec<char, ROOM>>
    ensures some { IfSome result (λ out. out.items ≡ nfd (default_case_fold text.now)) }
    ensures short { IfSome result (λ out. length out.items ≤ 64) }
    ensures none { IfNone result (64 < length (nfd (default_case_fold text.now))) }
{
    let mut out = ArrayVec::new();
    'chars: for c in text {
        if !push_folded(&mut out, *c) {
            return None;
        }
    }
    Some(out)
}

/// Puts a character at the end of others, and says whether there was room.
fn push_last(out: &mut ArrayVec<char, ROOM>, c: char) -> bool
    ensures room { result ≡ true → out.new.items ≡ out.old.items ++ c ∷ [] }
    ensures short { result ≡ true → length out.old.items < 64 }
    ensures full { result ≡ false → 64 ≤ length out.old.items }
{
    out.try_push(c).is_ok()
}

/// A word of ASCII as it is compared: with A to Z as small letters; nothing where that is too long.
fn folded_ascii(word: &[u8]) -> Option<ArrayVec<char, ROOM>>
    requires { IsAscii word.now }
    ensures some { IfSome result (λ out. (is_folded word.now ≡ true) × (out.items ≡ canonical_key (chars word.now))) }
    ensures none { IfNone result (is_folded word.now ≡ false) }
{
    let mut out = ArrayVec::new();
    'bytes: for byte in word {
        if !push_last(&mut out, byte.to_ascii_lowercase() as char) {
            return None;
        }
    }
    Some(out)
}

/// A word as it is compared, where it is folded. Most are of ASCII, for which no table is asked.
pub(crate) fn folded_word(word: &[u8]) -> Option<ArrayVec<char, ROOM>>
    ensures some { IfSome result (λ out. (is_folded word.now ≡ true) × (out.items ≡ canonical_key (chars word.now))) }
    ensures none { IfNone result (is_folded word.now ≡ false) }
{
    if word.is_ascii() {
        return folded_ascii(word);
    }
    let Ok(text) = from_utf8(word) else {
        return None;
    };
    let first = decomposed(text)?;
    let key = refolded(first.as_slice())?;
    Some(key)
}

/// Whether two words are the same to a reader.
#[tactic(auto, unfolding(crate::specs::Words::same_word))]
pub fn is_same_word(a: &[u8], b: &[u8]) -> bool
    ensures { result ≡ same_word a.now b.now }
{
    if a.eq_ignore_ascii_case(b) {
        return true;
    }
    if a.is_ascii() && b.is_ascii() {
        return false;
    }
    match (folded_word(a), folded_word(b)) {
        (Some(a), Some(b)) => a.as_slice() == b.as_slice(),
        (None, None) => a.eq_ignore_ascii_case(b),
        _ => false,
    }
}
