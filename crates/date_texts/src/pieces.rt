//! Bytes and texts. Each function that puts a piece into a buffer takes the index at which it begins, and returns the
//! one behind it.

ghost use Rattle.std.specs.Prelude.{◌≡◌, ◌≤◌, ◌<◌, ◌+◌, ◌∷◌, [], length};
ghost use Rattle.date_texts.specs.Buffers.{IsPut};

use crate::copying::copy_whole;

/// Puts a byte.
#[inline(always)]
#[tactic(auto, using(std::proofs::lemmas::List::take_more_set))]
pub fn put_byte(buffer: &mut [u8], at: usize, byte: u8) -> usize
    requires { at < length buffer.old }
    ensures { IsPut buffer.old buffer.new at result (byte ∷ []) }
{
    buffer[at] = byte;
    at + 1
}

/// Puts bytes.
#[inline(always)]
#[tactic(auto, using(crate::proofs::BufferLemmas::put_there))]
pub fn put_bytes(buffer: &mut [u8], at: usize, bytes: &[u8]) -> usize
    requires { at + length bytes.now ≤ length buffer.old }
    ensures { IsPut buffer.old buffer.new at result bytes.now }
{
    let end = at + bytes.len();
    copy_whole(&mut buffer[at..end], bytes);
    end
}

/// Puts a text.
#[inline(always)]
pub fn put_text(buffer: &mut [u8], at: usize, text: &str) -> usize
    requires { at + length text.now ≤ length buffer.old }
    ensures { IsPut buffer.old buffer.new at result text.now }
{
    put_bytes(buffer, at, text.as_bytes())
}
