//! Names in dates, and an index by which those are found that can stand in front of a text.

ghost use Rattle.std.specs.Prelude.{◌≡◌, ◌<◌, ◌+◌, Some, slice_get, IfOk, IsAscii, length, true};
ghost use Rattle.std.specs.Str.{str_to_ascii_lowercase};
ghost use Rattle.written_dates.specs.declared.meanings.Name.{Name as NameValue};
ghost use Rattle.written_dates.specs.private.Keys.{IsIndexed, place_from, key as key_spec, key_of, key_of_chars};
ghost use Rattle.written_dates.specs.Names.{is_name as is_name_spec};

use crate::meanings::Name;
use crate::parts::next_part;
use crate::signs::signs_of;
use crate::words::folded_word;
use std::alloc::{AllocError, Global};

/// Names, to be found by their first number or word.
#[derive(Drop)]
pub struct Names<'a> {
    /// The names.
    pub listed: &'a [Name<'a>],
    firsts: Vec<usize>,
    nexts: Vec<usize>,
    ghost indexed: { IsIndexed key_spec listed.now firsts.items nexts.items 0 },
}

/// The key of bytes, with A to Z as small letters, and whether all of them are of ASCII.
fn key_of_bytes(bytes: &[u8]) -> (usize, bool)
    ensures value { result.0 ≡ key_of_chars (str_to_ascii_lowercase bytes.now) }
    ensures within { result.0 < 16384 }
    ensures ascii { result.1 ≡ true → IsAscii bytes.now }
{
    let mut value: usize = 0;
    let mut is_ascii = true;
    'bytes: for byte in bytes {
        value = (31 * value + byte.to_ascii_lowercase() as usize) % 16384;
        is_ascii = is_ascii && *byte < 128;
    }
    (value, is_ascii)
}

/// The key of characters.
fn key_of_chars(chars: &[char]) -> usize
    ensures value { result ≡ key_of_chars chars.now }
    ensures within { result < 16384 }
{
    let mut value: usize = 0;
    'chars: for c in chars {
        value = (31 * value + *c as usize) % 16384;
    }
    value
}

/// The key of a number or word.
pub(crate) fn key_of_word(word: &[u8]) -> usize
    ensures value { result ≡ key_of word.now }
    ensures within { result < 16384 }
{
    let (key, is_ascii) = key_of_bytes(word);
    if is_ascii {
        return key;
    }
    match folded_word(word) {
        Some(chars) => key_of_chars(chars.as_slice()),
        None => key,
    }
}

/// The key of a name.
fn key_of_name(name: &Name) -> usize
    ensures value { result ≡ key_spec name.now }
    ensures within { result < 16384 }
{
    match next_part(name.text) {
        Some((part, _)) => key_of_word(part.text),
        None => 0,
    }
}

/// Whether a text can be a name in dates: it has a number or a word, and no character that no date has.
pub fn is_name(text: &[u8]) -> bool
    ensures { result ≡ is_name_spec text.now }
{
    !signs_of(text).0 && next_part(text).is_some()
}

impl<'a> Names<'a> {
    /// The names of one or several lists, one behind the other. Where two of them are the same and hold in a calendar,
    /// the first does.
    pub fn layered(alloc: Global, listed: &'a [Name<'a>]) -> Result<Names<'a>, AllocError>
        ensures { IfOk result (λ names. names.listed.now ≡ listed.now) }
    {
        let mut firsts = vec![in alloc; listed.len(); 16384]?;
        let mut nexts = vec![in alloc; 0; listed.len()]?;
        let mut place = listed.len();
        'names: while place > 0 {
            place -= 1;
            let key = key_of_name(&listed[place]);
            nexts[place] = firsts[key];
            firsts[key] = place;
        }
        Ok(Names {
            listed,
            firsts,
            nexts,
        })
    }

    /// The place of the first name that has a key, or the number of names.
    pub(crate) fn first_with(&self, key: usize) -> usize
        requires { key < 16384 }
        ensures { result ≡ place_from key_spec key self.now.listed.now 0 }
    {
        self.firsts[key]
    }

    /// The place of the next name that has the same key, or the number of names.
    pub(crate) fn next_behind(&self, place: usize) -> usize
        requires { place < length self.now.listed.now }
        ensures value { (name : NameValue) → slice_get self.now.listed.now place ≡ Some name
            → result ≡ place_from key_spec (key_spec name) self.now.listed.now (place + 1) }
        ensures behind { place < result }
    {
        self.nexts[place]
    }
}
