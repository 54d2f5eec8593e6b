// Eight digits at a time, in a word of 64 bits.
ghost use Rattle.std.specs.Prelude.{◌≡◌, ◌≤◌, ◌<◌, ◌^◌, ◌+◌, ◌*◌, IfSome, IsTrue, drop, length, take};
ghost use lib.Lanes.{number_l};
ghost use Rattle.spec_text.specs.Decimals.{AreDigits, value, value_after};
ghost use Rattle.spec_text.specs.Splitting.{digits_at};

use std::simd::prelude::*;

// How many digits are taken at a time.
const EIGHT: usize = 8;

// How many digits are taken at once of a number that has as many.
const SIXTEEN: usize = 16;

// Ten to the number of digits that are taken at a time.
const EIGHT_DIGITS: u64 = 100_000_000;

// A number below this one, with eight digits after it, has at most 18 digits.
const ROOM: u64 = 10_000_000_000;

// The word of eight bytes that are each a zero.
const ZEROS: u64 = 0x3030_3030_3030_3030;

// Tells whether the first eight bytes of a text are digits, by two comparisons of all eight at once.
#[inline(always)]
fn are_eight_digits(text: &[u8]) -> bool
    requires { EIGHT ≤ length text.now }
    ensures { IsTrue result → AreDigits (take 8 text.now) }
{
    let bytes = u8x8::from_slice(text);
    let below = bytes.simd_lt(u8x8::splat(b'0')).to_bitmask();
    let above = bytes.simd_gt(u8x8::splat(b'9')).to_bitmask();
    below == 0 && above == 0
}

// Returns the first eight bytes of a text as one number of 64 bits, of which the first byte is the lowest.
#[inline(always)]
fn eight_bytes_as_number(text: &[u8]) -> u64
    requires { EIGHT ≤ length text.now }
    ensures { result ≡ number_l 256 (take 8 text.now) }
{
    let words = u64x1::from_le_bytes(u8x8::from_slice(text)).to_array();
    words[0]
}

// Returns the number that the first eight bytes of a text write, which are digits. Each byte is joined with the next
// to a number below 100, and these two by two to numbers below 10,000. Each step makes sums of overlapping pairs too,
// so that of its numbers every second one counts.
#[inline(always)]
fn value_of_eight_digits(text: &[u8]) -> u64
    requires long { EIGHT ≤ length text.now }
    requires digits { AreDigits (take 8 text.now) }
    ensures value { result ≡ value (take 8 text.now) }
    ensures bound { result < 10 ^ 8 }
{
    let digits = eight_bytes_as_number(text) - ZEROS;
    let pairs = 10 * digits + digits / (1 << 8);
    let first = pairs % (1 << 8);
    let second = pairs / (1 << 16) % (1 << 8);
    let third = pairs / (1 << 32) % (1 << 8);
    let last = pairs / (1 << 48) % (1 << 8);
    let twos = first + (1 << 16) * second + (1 << 32) * third + (1 << 48) * last;
    let fours = 100 * twos + twos / (1 << 16);
    10_000 * (fours % (1 << 16)) + fours / (1 << 32) % (1 << 16)
}

// Returns the number that eight digits at the front of a text write as if they followed those of `before`, and the
// text after them.
#[inline(always)]
fn append_eight_digits(before: u64, text: &[u8]) -> (u64, &[u8])
    requires room { before < ROOM }
    requires long { EIGHT ≤ length text.now }
    requires digits { AreDigits (take 8 text.now) }
    ensures number { value_after result.0 (digits_at result.1.now).0
        ≡ value_after before (digits_at text.now).0 }
    ensures count { length (digits_at text.now).0 ≡ 8 + length (digits_at result.1.now).0 }
    ensures rest { (digits_at result.1.now).1 ≡ (digits_at text.now).1 }
    ensures next { result.1.now ≡ drop 8 text.now }
    ensures bound { result.0 < 10 ^ 8 * (before + 1) }
{
    let number = EIGHT_DIGITS * before + value_of_eight_digits(text);
    (number, &text[EIGHT..])
}

// Returns the number that eight digits at the front of a text write as if they followed those of `before`, and the
// text after them. None if other bytes stand there, or if `before` is 10^10 or more, where eight digits more would be
// past 18.
#[inline(always)]
pub(crate) fn take_eight_digits(before: u64, text: &[u8]) -> Option<(u64, &[u8])>
    ensures number { IfSome result (λ p. value_after p.0 (digits_at p.1.now).0
        ≡ value_after before (digits_at text.now).0) }
    ensures count { IfSome result (λ p. length (digits_at text.now).0
        ≡ 8 + length (digits_at p.1.now).0) }
    ensures rest { IfSome result (λ p. (digits_at p.1.now).1 ≡ (digits_at text.now).1) }
    ensures few { IfSome result (λ p. p.0 ≤ 10 ^ 18) }
    ensures shorter { IfSome result (λ p. length text.now ≡ 8 + length p.1.now) }
{
    if before >= ROOM || text.len() < EIGHT || !are_eight_digits(text) {
        return None;
    }
    Some(append_eight_digits(before, text))
}

// Tells whether the first sixteen bytes of a text are digits, by two comparisons of all sixteen at once.
#[inline(always)]
fn are_sixteen_digits(text: &[u8]) -> bool
    requires { SIXTEEN ≤ length text.now }
    ensures { IsTrue result → AreDigits (take 16 text.now) }
{
    let bytes = u8x16::from_slice(text);
    let below = bytes.simd_lt(u8x16::splat(b'0')).to_bitmask();
    let above = bytes.simd_gt(u8x16::splat(b'9')).to_bitmask();
    below == 0 && above == 0
}

// Returns the number that the first sixteen bytes of a text write, which are digits. Four bytes at a time are joined
// to a number below 10,000, and two of these to one below 10^8.
#[inline(always)]
fn value_of_sixteen_digits(text: &[u8]) -> u64
    requires long { SIXTEEN ≤ length text.now }
    requires digits { AreDigits (take 16 text.now) }
    ensures value { result ≡ value (take 16 text.now) }
    ensures bound { result < 10 ^ 16 }
{
    let digits = u8x16::from_slice(text) - u8x16::splat(b'0');
    let left = digits.dot4(u8x16::from_array([10, 1, 0, 0, 10, 1, 0, 0, 10, 1, 0, 0, 10, 1, 0, 0]));
    let right = digits.dot4(u8x16::from_array([
        0, 0, 10, 1, 0, 0, 10, 1, 0, 0, 10, 1, 0, 0, 10, 1,
    ]));
    let fours = left * u32x4::splat(100) + right;
    let next = fours.shuffle(fours, [1, 1, 3, 3]);
    let eights = (fours * u32x4::splat(10_000) + next).to_array();
    EIGHT_DIGITS * u64::from(eights[0]) + u64::from(eights[2])
}

// Returns the number that sixteen digits at the front of a text write, and the text after them. None if any other
// byte stands among them, or if the text is shorter.
#[inline(always)]
pub(crate) fn take_sixteen_digits(text: &[u8]) -> Option<(u64, &[u8])>
    ensures number { IfSome result (λ p. value_after p.0 (digits_at p.1.now).0
        ≡ value_after 0 (digits_at text.now).0) }
    ensures count { IfSome result (λ p. length (digits_at text.now).0
        ≡ 16 + length (digits_at p.1.now).0) }
    ensures rest { IfSome result (λ p. (digits_at p.1.now).1 ≡ (digits_at text.now).1) }
    ensures few { IfSome result (λ p. p.0 < 10 ^ 16) }
{
    if text.len() < SIXTEEN || !are_sixteen_digits(text) {
        return None;
    }
    Some((value_of_sixteen_digits(text), &text[SIXTEEN..]))
}
