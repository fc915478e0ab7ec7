//! Numbers and years in date texts, read from the front of the bytes.

ghost use Rattle.std.specs.Prelude.{◌≡◌, ◌≤◌, ◌<◌, ◌+◌, ◌-◌, ◌*◌, ◌^◌, IfSome};
ghost use Rattle.day_numbers.specs.Dates.{IsYear};
ghost use Rattle.date_texts.specs.private.Reading.{digits_at as digits_spec, number_at as number_spec};
ghost use Rattle.date_texts.specs.private.Reading.{year_at as year_spec};
ghost use Rattle.date_texts.specs.private.Reading.{after_byte as after_spec, all_read, seen_number, seen_rest, seen_year};

/// The number that `number` and at most `more` digits at the front spell, and the bytes after them.
#[inline(always)]
fn digits_at(more: u8, number: u32, bytes: &[u8]) -> (u32, &[u8])
    requires few { more ≤ 4 }
    requires small { number < 10 ^ (5 - more) }
    ensures { (result.0, result.1.now) ≡ digits_spec more number bytes.now }
{
    let mut left = more;
    let mut value = number;
    let mut rest = bytes;
    while left > 0 {
        let [digit, after @ ..] = rest else {
            return (value, rest);
        };
        if !digit.is_ascii_digit() {
            return (value, rest);
        }
        value = 10 * value + (*digit - b'0') as u32;
        rest = after;
        left -= 1;
    }
    (value, rest)
}

/// A number of one to `more + 1` digits at the front, and the bytes after it.
#[inline(always)]
#[tactic(auto, unfolding(crate::specs::private::Reading::number_at), using(crate::proofs::ReadingLemmas::digits_below))]
pub fn number_at(more: u8, bytes: &[u8]) -> Option<(u32, &[u8])>
    requires { more ≤ 4 }
    ensures value { seen_number result ≡ number_spec more bytes.now }
    ensures small { IfSome result (λ r. r.0 < 10 ^ (more + 1)) }
{
    match bytes {
        [digit, rest @ ..] if digit.is_ascii_digit() => {
            Some(digits_at(more, (*digit - b'0') as u32, rest))
        }
        _ => None,
    }
}

/// The bytes after the byte `byte` at the front.
#[inline(always)]
#[tactic(auto, unfolding(crate::specs::private::Reading::after_byte))]
pub fn after_byte(byte: u8, bytes: &[u8]) -> Option<&[u8]>
    ensures { seen_rest result ≡ after_spec byte bytes.now }
{
    match bytes {
        [first, rest @ ..] if *first == byte => Some(rest),
        _ => None,
    }
}

/// A year at the front, and the bytes after it.
#[inline(always)]
#[tactic(auto, unfolding(crate::specs::private::Reading::year_at))]
pub fn year_at(bytes: &[u8]) -> Option<(i32, &[u8])>
    ensures value { seen_year result ≡ year_spec bytes.now }
    ensures near { IfSome result (λ r. IsYear r.0) }
{
    match after_byte(b'-', bytes) {
        Some(rest) => {
            let (year, rest) = number_at(4, rest)?;
            Some((-(year as i32), rest))
        }
        None => {
            let (year, rest) = number_at(4, bytes)?;
            Some((year as i32, rest))
        }
    }
}

/// The value, where no bytes are left over.
#[tactic(auto, unfolding(crate::specs::private::Reading::all_read))]
pub fn at_end<T: Copy>(rest: &[u8], value: T) -> Option<T>
    ensures value { result ≡ all_read rest.now value }
    ensures same { IfSome result (λ x. x ≡ value) }
{
    match rest {
        [] => Some(value),
        _ => None,
    }
}
