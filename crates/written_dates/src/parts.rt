//! The digits and words of a text.

ghost use Rattle.std.specs.Prelude.{◌≡◌, ◌<◌, ◌∷◌, [], false, length, IfSome, IfNone};
ghost use Rattle.written_dates.specs.Tokens.{piece};
ghost use Rattle.written_dates.specs.Parts.{is_part_kind, parts, stands as stands_spec};
ghost use Rattle.written_dates.specs.private.SignViews.{Stands};

use crate::tokens::{Kind, Token, next_token};
use crate::words::is_same_word;

/// Whether tokens of this kind are parts.
fn is_part(kind: Kind) -> bool
    ensures { result ≡ is_part_kind kind }
{
    match kind {
        Kind::Digit | Kind::Letter => true,
        _ => false,
    }
}

/// The first digits or word of a text, and what follows.
pub(crate) fn next_part(text: &[u8]) -> Option<(Token, &[u8])>
    ensures some { IfSome result (λ next. parts text.now ≡ piece next.0 ∷ parts next.1.now) }
    ensures shorter { IfSome result (λ next. length next.1.now < length text.now) }
    ensures none { IfNone result (parts text.now ≡ []) }
{
    let mut rest = text;
    'tokens: while let Some((token, after)) = next_token(rest) {
        if is_part(token.kind) {
            return Some((token, after));
        }
        rest = after;
    }
    None
}

/// Whether the parts of a name stand in front of those of a text: how many these are, and what follows.
pub(crate) fn stands<'a>(name: &[u8], text: &'a [u8]) -> Option<(usize, &'a [u8])>
    ensures some { IfSome result (Stands name.now text.now) }
    ensures none { IfNone result (stands_spec (parts name.now) (parts text.now) ≡ false) }
{
    let mut name_rest = name;
    let mut rest = text;
    let mut count = 0;
    'parts: while let Some((wanted, name_after)) = next_part(name_rest) {
        let Some((part, after)) = next_part(rest) else {
            return None;
        };
        if !is_same_word(wanted.text, part.text) {
            return None;
        }
        name_rest = name_after;
        rest = after;
        count += 1;
    }
    Some((count, rest))
}
