//! Texts compared by words.

ghost use Rattle.std.specs.Prelude.{◌≡◌, ◌↔◌, length, true};
ghost use Rattle.std.specs.Int.{to_le_bytes, w64};
ghost use Rattle.date_texts.specs.declared.comparing.TheConstants.{WORD_LEN};

/// The bytes of a word.
pub const WORD_LEN: usize = 8;

/// The bytes of a word as one number.
#[inline(always)]
#[tactic(auto, using(std::proofs::lemmas::Nat::le_bytes_8))]
pub fn word(bytes: &[u8]) -> u64
    requires { length bytes.now ≡ WORD_LEN }
    ensures { to_le_bytes w64 result ≡ bytes.now }
{
    let mut word = [0; WORD_LEN];
    word.copy_from_slice(bytes);
    u64::from_le_bytes(word)
}

/// Whether two texts are one. Those of one word or two are compared by their first and their last word, without a call.
#[inline(always)]
pub fn are_equal(text: &[u8], other: &[u8]) -> bool
    ensures { (result ≡ true) ↔ (text.now ≡ other.now) }
{
    let len = text.len();
    if len < WORD_LEN || len > 2 * WORD_LEN || len != other.len() {
        return text == other;
    }
    let rest = len - WORD_LEN;
    word(&text[..WORD_LEN]) == word(&other[..WORD_LEN])
        && word(&text[rest..]) == word(&other[rest..])
}
