//! Texts without blanks at their ends.

ghost use Rattle.std.specs.Prelude.{◌≡◌};
ghost use Rattle.date_texts.specs.Trimmed.{trimmed as trimmed_text};

/// The text without the spaces and tabs at both ends.
pub fn trimmed(text: &[u8]) -> &[u8]
    ensures { result.now ≡ trimmed_text text.now }
{
    let mut inner = text;
    while let [b' ' | b'\t', rest @ ..] | [rest @ .., b' ' | b'\t'] = inner {
        inner = rest;
    }
    inner
}
