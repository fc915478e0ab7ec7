//! Signs at the ends of a text, and texts cut at a sign.

ghost use Rattle.std.specs.Prelude.{◌≡◌, ◌≢◌, ◌≤◌, ◌<◌, false, if◌then◌else◌, IfNone, IfSome, length};
ghost use Rattle.written_dates.specs.declared.tokens.Kind.TheVariants.{Blank};
ghost use Rattle.written_dates.specs.Fields.{is_blank as blank_spec};
ghost use Rattle.written_dates.specs.Signs.{bare as bare_spec, is_bar as bar_spec};
ghost use Rattle.written_dates.specs.Tokens.{piece, tokens};
ghost use Rattle.std.specs.List.{list_any};
ghost use Rattle.date_spans.specs.private.CutViews.{is_slash_byte, seen_sides, seen_mark};
ghost use Rattle.date_spans.specs.Cuts.{begins_open as begins_open_spec, ends_open as ends_open_spec, is_open as open_spec};
ghost use Rattle.date_spans.specs.Cuts.{bytes_before, bytes_behind, count_cuts as count_spec, cuts as cuts_spec};
ghost use Rattle.date_spans.specs.Cuts.{has_slash as slash_spec, is_about_sign as about_spec, last_byte as last_spec};
ghost use Rattle.date_spans.specs.Cuts.{end_sign as end_spec, is_uncertain_sign as uncertain_spec, sides as sides_spec};
ghost use Rattle.date_spans.specs.Cuts.{ends_with_three_digits as three_digits_spec, has_digit_before as digit_before_spec};
ghost use Rattle.date_spans.specs.Cuts.{leaves_sign as leaves_spec, unmarked as unmarked_spec};

use written_dates::{Kind, Token, bare, is_bar, is_blank, is_dash, next_token, without_blanks};

/// What a text is cut at.
#[derive(Clone, Copy)]
pub enum Cut {
    /// A dash.
    Dash,
    /// A dash behind a blank.
    WideDash,
    /// A slash.
    Slash,
}

/// Whether a text is cut at a token, behind a character of this kind.
fn cuts(cut: Cut, before: Kind, token: Token) -> bool
    ensures { result ≡ cuts_spec cut before (piece token.entry) }
{
    match cut {
        Cut::Dash => is_dash(token.kind),
        Cut::WideDash => is_blank(before) && is_dash(token.kind),
        Cut::Slash => is_bar(token) && !is_dash(token.kind),
    }
}

/// How many such tokens a text has.
fn count_cuts(cut: Cut, text: &[u8]) -> usize
    ensures { result ≡ count_spec cut Blank (tokens 0 text.now) }
{
    let mut count: usize = 0;
    let mut before = Kind::Blank;
    let mut rest = text;
    'tokens: while let Some((token, after)) = next_token(rest) {
        if cuts(cut, before, token) {
            count += 1;
        }
        before = token.kind;
        rest = after;
    }
    count
}

/// A text before its first such token, and behind it.
fn first_sides(cut: Cut, text: &[u8]) -> Option<(&[u8], &[u8])>
    ensures some { IfSome result (λ two. (two.0.now ≡ bytes_before cut Blank (tokens 0 text.now))
        × (two.1.now ≡ bytes_behind cut Blank (tokens 0 text.now))) }
    ensures none { IfNone result (count_spec cut Blank (tokens 0 text.now) ≡ 0) }
{
    let mut place = 0;
    let mut before = Kind::Blank;
    let mut rest = text;
    'tokens: while let Some((token, after)) = next_token(rest) {
        if cuts(cut, before, token) {
            let (left, _) = text.split_at(place);
            return Some((left, after));
        }
        place += token.text.len();
        before = token.kind;
        rest = after;
    }
    None
}

/// The two sides of a text at its only such token.
#[tactic(auto, unfolding(crate::specs::Cuts::sides))]
pub fn sides(cut: Cut, text: &[u8]) -> Option<(&[u8], &[u8])>
    ensures { seen_sides result ≡ sides_spec cut text.now }
{
    if count_cuts(cut, text) != 1 {
        return None;
    }
    first_sides(cut, text)
}

/// Whether a dash or a slash is in front, behind blanks.
fn begins_open(text: &[u8]) -> bool
    ensures { result ≡ begins_open_spec (bare_spec (tokens 0 text.now)) }
{
    match next_token(bare(text)) {
        Some((token, _)) => is_bar(token),
        None => false,
    }
}

/// Whether a dash or a slash is at the end, before blanks.
fn ends_open(text: &[u8]) -> bool
    ensures { result ≡ ends_open_spec false (tokens 0 text.now) }
{
    let mut ends = false;
    let mut rest = text;
    'tokens: while let Some((token, after)) = next_token(rest) {
        ends = ends_with(ends, token);
        rest = after;
    }
    ends
}

/// Whether a token is a dash or a slash, or a blank behind one.
fn ends_with(before: bool, token: Token) -> bool
    ensures { result ≡ (if blank_spec (piece token.entry).kind then before else bar_spec (piece token.entry)) }
{
    if is_blank(token.kind) {
        before
    } else {
        is_bar(token)
    }
}

/// Whether a dash or a slash is in front or at the end.
pub fn is_open(text: &[u8]) -> bool
    ensures { result ≡ open_spec text.now }
{
    begins_open(text) || ends_open(text)
}

/// Whether a slash stands in a text.
pub fn has_slash(text: &[u8]) -> bool
    ensures { result ≡ slash_spec text.now }
{
    count_cuts(Cut::Slash, text) > 0
}

/// Whether the byte of a slash stands in a text.
pub fn has_slash_byte(text: &[u8]) -> bool
    ensures { result ≡ list_any is_slash_byte text.now }
{
    text.iter().any(|byte| *byte == b'/')
}

/// Whether a byte at the end of a text says that it is uncertain.
fn is_uncertain_sign(byte: u8) -> bool
    ensures { result ≡ uncertain_spec byte }
{
    byte == b'?' || byte == b'%'
}

/// Whether a byte at the end of a text says that it is about then.
fn is_about_sign(byte: u8) -> bool
    ensures { result ≡ about_spec byte }
{
    byte == b'~' || byte == b'%'
}

/// The last byte, or 0.
fn last_byte(text: &[u8]) -> u8
    ensures value { result ≡ last_spec text.now }
    ensures some { result ≢ 0 → 0 < length text.now }
{
    if text.is_empty() {
        0
    } else {
        text[text.len() - 1]
    }
}

/// The sign at the end of a text, and how many bytes it takes: three in parentheses.
fn end_sign(text: &[u8]) -> (u8, usize)
    ensures value { result ≡ end_spec text.now }
    ensures within { result.0 ≢ 0 → result.1 ≤ length text.now }
{
    let last = last_byte(text);
    if text.len() >= 3 && last == b')' && text[text.len() - 3] == b'(' {
        return (text[text.len() - 2], 3);
    }
    (last, 1)
}

/// Whether a digit stands before so many last bytes of a text.
fn has_digit_before(behind: usize, text: &[u8]) -> bool
    ensures { result ≡ digit_before_spec behind text.now }
{
    behind < text.len() && text[text.len() - 1 - behind].is_ascii_digit()
}

/// Whether three digits end a text, and no fourth stands before them.
fn ends_with_three_digits(text: &[u8]) -> bool
    ensures { result ≡ three_digits_spec text.now }
{
    has_digit_before(0, text)
        && has_digit_before(1, text)
        && has_digit_before(2, text)
        && !has_digit_before(3, text)
}

/// Whether what stands before a sign leaves it: a question mark right behind three digits may stand for a fourth.
fn leaves_sign(sign: u8, size: usize, text: &[u8]) -> bool
    ensures { result ≡ leaves_spec sign size text.now }
{
    ends_open(text) || (sign == b'?' && size == 1 && ends_with_three_digits(text))
}

/// A text without blanks at its ends and a sign behind it that says `uncertain` or `about`, also one in parentheses; and
/// whether it says so.
#[tactic(auto, unfolding(crate::specs::Cuts::unmarked))]
pub fn unmarked(text: &[u8]) -> (&[u8], bool, bool)
    ensures { seen_mark result ≡ unmarked_spec text.now }
{
    let text = without_blanks(text);
    let (sign, size) = end_sign(text);
    let uncertain = is_uncertain_sign(sign);
    let about = is_about_sign(sign);
    if !(uncertain || about) {
        return (text, false, false);
    }
    let kept = &text[..text.len() - size];
    if leaves_sign(sign, size, kept) {
        return (text, false, false);
    }
    (kept, uncertain, about)
}
