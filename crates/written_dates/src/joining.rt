//! The signs between the numbers of a text.

ghost use Rattle.std.specs.Prelude.{◌≡◌, ◌&&◌, ◌≤◌, length};
ghost use Rattle.std.specs.List.{count_by, list_any};
ghost use Rattle.written_dates.specs.Tokens.{Piece, piece, tokens};
ghost use Rattle.written_dates.specs.Signs.{differ, has_bar_between as bar_between_spec, has_digits as has_digits_spec};
ghost use Rattle.written_dates.specs.Signs.{has_mixed_signs as mixed_spec, has_two_dashes as two_dashes_spec, odd_bars};
ghost use Rattle.written_dates.specs.Signs.{is_bar as bar_spec, is_other_sign as other_sign_spec};
ghost use Rattle.written_dates.specs.Signs.{signs_before_digits, signs_between};

use crate::signs::{is_dash, is_digit, is_sign};
use crate::tokens::{Token, next_token};

/// Whether a token is a dash or a slash.
pub fn is_bar(token: Token) -> bool
    ensures { result ≡ bar_spec (piece token.entry) }
{
    is_dash(token.kind) || token.text == b"/".as_slice()
}

/// Whether two signs are not the same, nor both dashes.
fn is_other_sign(a: Token, b: Token) -> bool
    ensures { result ≡ other_sign_spec (piece a.entry) (piece b.entry) }
{
    a.text != b.text && !(is_dash(a.kind) && is_dash(b.kind))
}

/// Whether digits stand in a text.
fn has_digits(text: &[u8]) -> bool
    ensures { result ≡ has_digits_spec (tokens 0 text.now) }
{
    let mut rest = text;
    'tokens: while let Some((token, after)) = next_token(rest) {
        if is_digit(token.kind) {
            return true;
        }
        rest = after;
    }
    false
}

/// What follows the first digits of a text.
fn behind_digits(text: &[u8]) -> &[u8]
    ensures { signs_before_digits (tokens 0 result.now) ≡ signs_between (tokens 0 text.now) }
{
    let mut rest = text;
    'tokens: while let Some((token, after)) = next_token(rest) {
        if is_digit(token.kind) {
            return after;
        }
        rest = after;
    }
    rest
}

/// Whether a sign before the last digits of a text is another one.
fn has_other_sign(sign: Token, text: &[u8]) -> bool
    ensures { result ≡ list_any (other_sign_spec (piece sign.entry)) (signs_before_digits (tokens 0 text.now)) }
{
    let mut rest = text;
    'tokens: while let Some((token, after)) = next_token(rest) {
        if is_sign(token.kind) && has_digits(after) && is_other_sign(sign, token) {
            return true;
        }
        rest = after;
    }
    false
}

/// Whether the signs before the last digits of a text are not all the same.
fn signs_differ(text: &[u8]) -> bool
    ensures { result ≡ differ (signs_before_digits (tokens 0 text.now)) }
{
    let mut rest = text;
    'tokens: while let Some((token, after)) = next_token(rest) {
        if is_sign(token.kind) && has_digits(after) {
            return has_other_sign(token, after);
        }
        rest = after;
    }
    false
}

/// How many dashes and slashes a text has.
pub fn count_bars(text: &[u8]) -> usize
    ensures value { result ≡ count_by bar_spec (tokens 0 text.now) }
    ensures within { result ≤ length text.now }
{
    let mut bars: usize = 0;
    let mut rest = text;
    'tokens: while let Some((token, after)) = next_token(rest) {
        bars += is_bar(token) as usize;
        rest = after;
    }
    bars
}

/// Whether dashes and slashes are neither none nor two.
fn has_odd_bars(text: &[u8]) -> bool
    ensures { result ≡ odd_bars (tokens 0 text.now) }
{
    let bars = count_bars(text);
    bars != 0 && bars != 2
}

/// Whether the signs between the first digits and the last are not all the same.
pub fn has_other_signs_between(text: &[u8]) -> bool
    ensures { result ≡ differ (signs_between (tokens 0 text.now)) }
{
    signs_differ(behind_digits(text))
}

/// Whether the signs between the first digits and the last differ, or dashes and slashes are neither none nor two.
pub fn has_mixed_signs(text: &[u8]) -> bool
    ensures { result ≡ mixed_spec (tokens 0 text.now) }
{
    has_other_signs_between(text) || has_odd_bars(text)
}

/// Whether a dash or a slash stands between the first digits and the last.
pub(crate) fn has_bar_between(text: &[u8]) -> bool
    ensures { result ≡ bar_between_spec (tokens 0 text.now) }
{
    let mut rest = behind_digits(text);
    'tokens: while let Some((token, after)) = next_token(rest) {
        if is_sign(token.kind) && is_bar(token) && has_digits(after) {
            return true;
        }
        rest = after;
    }
    false
}

/// Whether two dashes are the only signs of a text.
pub(crate) fn has_two_dashes(text: &[u8]) -> bool
    ensures { result ≡ two_dashes_spec (tokens 0 text.now) }
{
    let mut dashes: usize = 0;
    let mut signs: usize = 0;
    let mut rest = text;
    'tokens: while let Some((token, after)) = next_token(rest) {
        dashes += is_dash(token.kind) as usize;
        signs += is_sign(token.kind) as usize;
        rest = after;
    }
    signs == 2 && dashes == 2
}
