//! The seal of a sealed register.

ghost use Rattle.std.specs.Prelude.{◌≡◌, ◌↔◌, ℕ, IsTrue, Some, true};
ghost use Rattle.csv.specs.Records.{fields_of};
ghost use Rattle.date_texts.specs.Numerals.{IsNumeral};
ghost use Rattle.register_records.specs.Seals.{Agrees, is_seal as is_seal_record};

use csv::ByteRecord;
use date_texts::trimmed;

/// What stands in the first field of a seal.
const SEAL: &[u8] = b"END";

/// The most digits in the second field of a seal.
const MAX_DIGITS: usize = 7;

/// Whether a record is a seal: it has two fields, and the first is `END`, spaces and tabs round it aside.
#[tactic(auto, using(crate::proofs::FieldLemmas::seal_by_first, crate::proofs::FieldLemmas::missing_field))]
pub(crate) fn is_seal(csv_record: &ByteRecord) -> bool
    ensures { result ≡ is_seal_record (fields_of csv_record.now) }
{
    if csv_record.len() != 2 {
        return false;
    }
    match csv_record.get(0) {
        Some(first) => trimmed(first) == SEAL,
        None => false,
    }
}

/// The number that 1 to 7 digits spell.
#[tactic(auto, using(crate::proofs::FieldLemmas::digit_steps))]
fn number_of(text: &[u8]) -> Option<u32>
    ensures { (n : ℕ) → (result ≡ Some n) ↔ IsNumeral 7 text.now n }
{
    if text.is_empty() || text.len() > MAX_DIGITS {
        return None;
    }
    let mut number = 0;
    'digits: for digit in text {
        if !digit.is_ascii_digit() {
            return None;
        }
        number = 10 * number + (*digit - b'0') as u32;
    }
    Some(number)
}

/// The number in the second field of a seal, spaces and tabs round it aside.
fn number_in(seal: &ByteRecord) -> Option<u32>
    requires { is_seal_record (fields_of seal.now) ≡ true }
    ensures { (n : ℕ) → (result ≡ Some n) ↔ Agrees (fields_of seal.now) n }
{
    let second = seal.get(1)?;
    number_of(trimmed(second))
}

/// Whether a seal agrees with this number of entries.
#[tactic(auto, using(std::proofs::lemmas::Bool::Decides::nat_tests))]
pub(crate) fn agrees(seal: &ByteRecord, count: u32) -> bool
    requires { is_seal_record (fields_of seal.now) ≡ true }
    ensures { IsTrue result ↔ Agrees (fields_of seal.now) count }
{
    match number_in(seal) {
        Some(number) => number == count,
        None => false,
    }
}
