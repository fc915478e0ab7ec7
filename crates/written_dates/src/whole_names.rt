//! The whole name in which a word stands.

ghost use Rattle.std.specs.Prelude.{◌≡◌, ◌≤◌, ◌<◌, ◌++◌, ◌∷◌, [], true, false, drop, length, take, IfSome, IfNone};
ghost use Rattle.written_dates.specs.Tokens.{piece, tokens};
ghost use Rattle.written_dates.specs.WholeNames.{has_word, is_hyphen as is_hyphen_spec, is_letter as is_letter_spec};
ghost use Rattle.written_dates.specs.WholeNames.{is_word, joined_words, name_in_front as name_spec, name_with, spelled};

use crate::tokens::{Kind, Token, next_token};

/// Whether words are made of such characters.
pub(crate) fn is_letter(kind: Kind) -> bool
    ensures { result ≡ is_letter_spec kind }
{
    match kind {
        Kind::Letter => true,
        _ => false,
    }
}

fn is_hyphen(kind: Kind) -> bool
    ensures { result ≡ is_hyphen_spec kind }
{
    match kind {
        Kind::Hyphen => true,
        _ => false,
    }
}

/// A hyphen in front of a text and the word behind it, and what follows.
#[tactic(auto, unfolding(crate::specs::WholeNames::joined_words))]
fn joined_word(text: &[u8]) -> Option<(Token, Token, &[u8])>
    ensures some { IfSome result (λ found. tokens 0 text.now
        ≡ piece found.0 ∷ piece found.1 ∷ tokens 0 found.2.now) }
    ensures kinds { IfSome result (λ found. (is_hyphen_spec found.0.kind ≡ true)) }
    ensures word { IfSome result (λ found. is_letter_spec found.1.kind ≡ true) }
    ensures whole { IfSome result (λ found. text.now ≡ found.0.text.now ++ (found.1.text.now ++ found.2.now)) }
    ensures shorter { IfSome result (λ found. length found.2.now < length text.now) }
    ensures none { IfNone result (joined_words (tokens 0 text.now) ≡ []) }
{
    let (hyphen, after) = next_token(text)?;
    let (word, behind) = next_token(after)?;
    if is_hyphen(hyphen.kind) && is_letter(word.kind) {
        Some((hyphen, word, behind))
    } else {
        None
    }
}

/// The name in front of a text, if a word is: how many bytes it has, whether this word is among its words, and what
/// follows.
fn name_in_front<'a>(text: &'a [u8], word: &[u8]) -> Option<(usize, bool, &'a [u8])>
    ensures within { IfSome result (λ name. name.0 ≤ length text.now) }
    ensures name { IfSome result (λ name. spelled (name_spec (tokens 0 text.now)) ≡ take name.0 text.now) }
    ensures has { IfSome result (λ name. has_word word.now (name_spec (tokens 0 text.now)) ≡ name.1) }
    ensures rest { IfSome result (λ name.
        tokens 0 name.2.now ≡ drop (length (name_spec (tokens 0 text.now))) (tokens 0 text.now)) }
    ensures some { IfSome result (λ name. 0 < length (name_spec (tokens 0 text.now))) }
    ensures shorter { IfSome result (λ name. length name.2.now < length text.now) }
    ensures none { IfNone result (name_spec (tokens 0 text.now) ≡ []) }
{
    let (first, after) = next_token(text)?;
    if !is_letter(first.kind) {
        return None;
    }
    let mut end = first.text.len();
    let mut has = first.text == word;
    let mut rest = after;
    'words: while let Some((hyphen, next, behind)) = joined_word(rest) {
        end += hyphen.text.len() + next.text.len();
        has = has || next.text == word;
        rest = behind;
    }
    Some((end, has, rest))
}

/// The first name of a text that has this word; where none has it, the word.
pub(crate) fn whole_name<'a>(text: &'a [u8], word: &'a [u8]) -> &'a [u8]
    ensures { result.now ≡ name_with word.now 0 (tokens 0 text.now) }
{
    let mut rest = text;
    'names: while let Some((_, after)) = next_token(rest) {
        match name_in_front(rest, word) {
            Some((end, true, _)) => return &rest[..end],
            Some((_, false, behind)) => rest = behind,
            None => rest = after,
        }
    }
    word
}
