//! Small numbers in decimal.

ghost use Rattle.std.specs.Prelude.{◌≡◌, ◌≤◌, ◌+◌, ◌/◌, ◌%◌, ◌≤ℤ◌, neg_ℤ, pos, length};
ghost use Rattle.std.specs.Fmt.{decimal, signed_decimal};
ghost use Rattle.date_texts.specs.Buffers.{IsPut, padded};

use crate::pieces::put_byte;

/// The two digits of each number under a hundred.
static PAIRS: [u8; 200] = *b"\
00010203040506070809101112131415161718192021222324\
25262728293031323334353637383940414243444546474849\
50515253545556575859606162636465666768697071727374\
75767778798081828384858687888990919293949596979899";

/// The two digits of a number.
#[inline(always)]
#[tactic(auto, using(crate::proofs::DigitLemmas::pairs_at))]
fn two_digits(number: u8) -> (u8, u8)
    requires { number ≤ 99 }
    ensures { result ≡ (48 + number / 10, 48 + number % 10) }
{
    let at = 2 * number as usize;
    (PAIRS[at], PAIRS[at + 1])
}

/// Puts a number as two digits.
#[inline(always)]
pub fn put_two_digits(buffer: &mut [u8], at: usize, number: u8) -> usize
    requires room { at + 2 ≤ length buffer.old }
    requires small { number ≤ 99 }
    ensures value { IsPut buffer.old buffer.new at result (padded 2 number) }
    ensures next { result ≡ at + 2 }
{
    let (tens, ones) = two_digits(number);
    let after = put_byte(buffer, at, tens);
    put_byte(buffer, after, ones)
}

/// Puts a number of at most two digits without leading zeros.
#[inline(always)]
pub fn put_short(buffer: &mut [u8], at: usize, number: u8) -> usize
    requires room { at + length (decimal number) ≤ length buffer.old }
    requires small { number ≤ 99 }
    ensures value { IsPut buffer.old buffer.new at result (decimal number) }
    ensures few { result ≤ at + 2 }
{
    // Where there are no tens, the ones are written over their zero: no branch waits for the number.
    let (tens, ones) = two_digits(number);
    let last = if number < 10 { at } else { at + 1 };
    buffer[at] = tens;
    buffer[last] = ones;
    last + 1
}

/// Puts a number in decimal.
#[inline(always)]
#[tactic(auto, using(itoa::proofs::Decimal::length_pair))]
pub fn put_number(buffer: &mut [u8], at: usize, number: u16) -> usize
    requires room { at + length (decimal number) ≤ length buffer.old }
    requires small { number ≤ 9_999 }
    ensures { IsPut buffer.old buffer.new at result (decimal number) }
{
    if number < 100 {
        return put_short(buffer, at, number as u8);
    }
    let after = put_short(buffer, at, (number / 100) as u8);
    put_two_digits(buffer, after, (number % 100) as u8)
}

/// Puts a number of at most eight digits in decimal.
#[inline(always)]
#[tactic(auto, using(itoa::proofs::Decimal::length_four))]
pub fn put_decimal(buffer: &mut [u8], at: usize, number: u32) -> usize
    requires room { at + length (decimal number) ≤ length buffer.old }
    requires small { number ≤ 99_999_999 }
    ensures { IsPut buffer.old buffer.new at result (decimal number) }
{
    if number < 10_000 {
        return put_number(buffer, at, number as u16);
    }
    let after = put_number(buffer, at, (number / 10_000) as u16);
    let last = number % 10_000;
    let after = put_two_digits(buffer, after, (last / 100) as u8);
    put_two_digits(buffer, after, (last % 100) as u8)
}

/// Puts an integer of at most eight digits in decimal, with a minus sign where it is less than 0.
#[inline(always)]
pub fn put_integer(buffer: &mut [u8], at: usize, number: i64) -> usize
    requires room { at + length (signed_decimal number) ≤ length buffer.old }
    requires near { (neg_ℤ (pos 99_999_999) ≤ℤ number) × (number ≤ℤ pos 99_999_999) }
    ensures { IsPut buffer.old buffer.new at result (signed_decimal number) }
{
    if number < 0 {
        let after = put_byte(buffer, at, b'-');
        return put_decimal(buffer, after, number.unsigned_abs() as u32);
    }
    put_decimal(buffer, at, number as u32)
}
