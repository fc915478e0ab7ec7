//! Copies of short texts.
//!
//! Most texts of a table have from 4 to 16 bytes. A call that copies any number of bytes costs more than such a copy.

ghost use Rattle.std.specs.Prelude.{◌≡◌, ◌≤◌, ◌+◌, ◌++◌, length, take, drop};

/// Copies a text of `N` to twice `N` bytes to a room of its length, by its first `N` and its last `N` bytes, which may
/// overlap.
#[inline(always)]
fn copy_ends<const N: usize>(room: &mut [u8], text: &[u8])
    requires same { length room.old ≡ length text.now }
    requires some { N ≤ length text.now }
    requires few { length text.now ≤ N + N }
    ensures { room.new ≡ text.now }
{
    let mut first = [0; N];
    let mut last = [0; N];
    let rest = text.len() - N;
    first.copy_from_slice(&text[..N]);
    last.copy_from_slice(&text[rest..]);
    room[..N].copy_from_slice(&first);
    room[rest..].copy_from_slice(&last);
}

/// Copies a text to a room of its length.
#[inline(always)]
pub(crate) fn copy_whole(room: &mut [u8], text: &[u8])
    requires { length room.old ≡ length text.now }
    ensures { room.new ≡ text.now }
{
    match text.len() {
        0 => (),
        1 => room[0] = text[0],
        2..=3 => copy_ends::<2>(room, text),
        4..=7 => copy_ends::<4>(room, text),
        8..=16 => copy_ends::<8>(room, text),
        _ => room.copy_from_slice(text),
    }
}

/// Copies a text to the front of a room, or as many of its first bytes as there is room for. Returns how many bytes
/// were copied; those behind them stay as they were.
#[inline(always)]
pub fn copy_to_front(room: &mut [u8], text: &[u8]) -> usize
    ensures fits { length text.now ≤ length room.old → result ≡ length text.now }
    ensures cut { length room.old ≤ length text.now → result ≡ length room.old }
    ensures value { room.new ≡ take result text.now ++ drop result room.old }
    ensures whole { length text.now ≡ length room.old → room.new ≡ text.now }
{
    let count = text.len().min(room.len());
    copy_whole(&mut room[..count], &text[..count]);
    count
}
