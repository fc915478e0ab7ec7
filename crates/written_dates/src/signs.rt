//! What the signs of a text say, and dates as registers have them.

ghost use Rattle.std.specs.Prelude.{◌≡◌, ◌&&◌, ◌≤◌, ◌<◌, ◌∷◌, [], length, Some, None, ℕ, List, Option};
ghost use Rattle.std.specs.List.{count_by};
ghost use Rattle.written_dates.specs.Tokens.{tokens};
ghost use Rattle.written_dates.specs.Signs.{is_sign as sign_spec, is_dash as dash_spec, is_other as other_spec};
ghost use Rattle.written_dates.specs.Signs.{bare as bare_spec, begins_with_dash as begins_spec};
ghost use Rattle.written_dates.specs.Signs.{is_digit as digit_spec, begins_with_digit as begins_digit_spec};
ghost use Rattle.written_dates.specs.Signs.{is_between as between_spec, has_other, has_minus};
ghost use Rattle.written_dates.specs.Signs.{digits_first as digits_spec, behind_hyphen as hyphen_spec};
ghost use Rattle.written_dates.specs.Signs.{three_runs as runs_spec};
ghost use Rattle.written_dates.specs.Signs.{runs_behind_minus as minus_spec};
ghost use Rattle.written_dates.specs.Fields.{is_blank as blank_spec};
ghost use Rattle.written_dates.specs.SignViews.{seen_runs};
ghost use Rattle.written_dates.specs.private.SignViews.{may_be_blank as may_be_blank_spec, seen_digits, seen_rest};
ghost use Rattle.written_dates.specs.private.SignViews.{next_digits as next_spec, runs_by_steps};
ghost use Rattle.written_dates.specs.Names.{is_empty};

use crate::tokens::{Kind, byte_at, next_token, run_end};

pub(crate) fn is_sign(kind: Kind) -> bool
    ensures { result ≡ sign_spec kind }
{
    match kind {
        Kind::Sign | Kind::Hyphen | Kind::Dash => true,
        _ => false,
    }
}

/// Whether a character is a dash.
pub fn is_dash(kind: Kind) -> bool
    ensures { result ≡ dash_spec kind }
{
    match kind {
        Kind::Hyphen | Kind::Dash => true,
        _ => false,
    }
}

fn is_other(kind: Kind) -> bool
    ensures { result ≡ other_spec kind }
{
    match kind {
        Kind::Other => true,
        _ => false,
    }
}

/// Whether a character is a blank.
pub fn is_blank(kind: Kind) -> bool
    ensures { result ≡ blank_spec kind }
{
    match kind {
        Kind::Blank => true,
        _ => false,
    }
}

/// Whether a byte is a blank, or may be of one beyond ASCII.
pub(crate) fn may_be_blank(byte: u8) -> bool
    ensures { result ≡ may_be_blank_spec byte }
{
    byte == b' ' || byte == b'\t' || byte == b'\n' || byte == b'\r' || byte >= 128
}

pub(crate) fn is_digit(kind: Kind) -> bool
    ensures { result ≡ digit_spec kind }
{
    match kind {
        Kind::Digit => true,
        _ => false,
    }
}

/// Whether such a character parts what stands between: a blank or a sign.
fn is_between(kind: Kind) -> bool
    ensures { result ≡ between_spec kind }
{
    match kind {
        Kind::Blank => true,
        _ => is_sign(kind),
    }
}

/// Whether digits are in front.
fn begins_with_digit(text: &[u8]) -> bool
    ensures { result ≡ begins_digit_spec (tokens 0 text.now) }
{
    match next_token(text) {
        Some((token, _)) => is_digit(token.kind),
        None => false,
    }
}

/// Whether a token may be a minus, behind a token of a kind and before the text that follows.
fn is_minus(before: Kind, kind: Kind, after: &[u8]) -> bool
    ensures { result ≡ (between_spec before && dash_spec kind && begins_digit_spec (tokens 0 after.now)) }
{
    is_between(before) && is_dash(kind) && begins_with_digit(after)
}

/// Whether a character stands in a text that no date has, and whether a minus may.
pub fn signs_of(text: &[u8]) -> (bool, bool)
    ensures other { result.0 ≡ has_other (tokens 0 text.now) }
    ensures minus { result.1 ≡ has_minus (tokens 0 text.now) }
{
    let mut other = false;
    let mut minus = false;
    let mut before = Kind::Blank;
    let mut rest = text;
    'tokens: while let Some((token, after)) = next_token(rest) {
        other |= is_other(token.kind);
        minus |= is_minus(before, token.kind, after);
        before = token.kind;
        rest = after;
    }
    (other, minus)
}

/// The text from the first token on that is no blank.
#[tactic(auto, using(crate::proofs::FrontLemmas::bare_already))]
pub fn bare(text: &[u8]) -> &[u8]
    ensures { tokens 0 result.now ≡ bare_spec (tokens 0 text.now) }
{
    if !may_be_blank(byte_at(text, 0)) {
        return text;
    }
    let mut rest = text;
    'blanks: while let Some((token, after)) = next_token(rest) {
        let Kind::Blank = token.kind else {
            return rest;
        };
        rest = after;
    }
    rest
}

/// Whether a dash is in front, behind blanks.
pub(crate) fn begins_with_dash(text: &[u8]) -> bool
    ensures { result ≡ begins_spec (bare_spec (tokens 0 text.now)) }
{
    match next_token(bare(text)) {
        Some((token, _)) => is_dash(token.kind),
        None => false,
    }
}

/// The digits in front, and what follows.
#[tactic(auto, unfolding(crate::specs::Signs::digits_first), using(crate::proofs::FrontLemmas::no_digits))]
fn digits_first(text: &[u8]) -> Option<(&[u8], &[u8])>
    ensures { seen_digits result ≡ digits_spec (tokens 0 text.now) }
{
    if !byte_at(text, 0).is_ascii_digit() {
        return None;
    }
    let (digits, rest) = text.split_at(run_end(Kind::Digit, text));
    Some((digits, rest))
}

/// What follows the dash of registers.
#[tactic(auto, using(crate::proofs::FrontLemmas::no_hyphen, crate::proofs::FrontLemmas::hyphen))]
fn behind_hyphen(text: &[u8]) -> Option<&[u8]>
    ensures { seen_rest result ≡ hyphen_spec (tokens 0 text.now) }
{
    if byte_at(text, 0) != b'-' {
        return None;
    }
    let (_, rest) = text.split_at(1);
    Some(rest)
}

/// The digits behind the dash of registers, and what follows.
#[tactic(auto, unfolding(crate::specs::private::SignViews::next_digits))]
fn next_digits(text: &[u8]) -> Option<(&[u8], &[u8])>
    ensures { seen_digits result ≡ next_spec (tokens 0 text.now) }
{
    digits_first(behind_hyphen(text)?)
}

/// Whether blanks at most stand in a text.
fn is_end(text: &[u8]) -> bool
    ensures { result ≡ is_empty (bare_spec (tokens 0 text.now)) }
{
    next_token(bare(text)).is_none()
}

/// Three runs of digits with the dash of registers between them, and blanks at most behind them.
fn runs_in_front(text: &[u8]) -> Option<(&[u8], &[u8], &[u8])>
    ensures { seen_runs result ≡ runs_by_steps (tokens 0 text.now) }
{
    let (year, rest) = digits_first(text)?;
    let (month, rest) = next_digits(rest)?;
    let (day, rest) = next_digits(rest)?;
    if !is_end(rest) {
        return None;
    }
    Some((year, month, day))
}

/// Three runs of digits with the dash of registers between them, and blanks at most around them.
#[tactic(auto, using(crate::proofs::FrontLemmas::by_steps))]
pub(crate) fn three_runs(text: &[u8]) -> Option<(&[u8], &[u8], &[u8])>
    ensures { seen_runs result ≡ runs_spec (tokens 0 text.now) }
{
    runs_in_front(bare(text))
}

/// Three such runs behind a minus.
#[tactic(auto, using(crate::proofs::FrontLemmas::by_steps))]
pub fn runs_behind_minus(text: &[u8]) -> Option<(&[u8], &[u8], &[u8])>
    ensures { seen_runs result ≡ minus_spec (tokens 0 text.now) }
{
    runs_in_front(behind_hyphen(bare(text))?)
}
