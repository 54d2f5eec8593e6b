// Words, read as decimals and as whole numbers.
ghost use Rattle.std.specs.Prelude.{◌≡◌, ◌≤◌, ◌≤ℤ◌, ◌^◌, Ok, Some, if◌then◌else◌, neg_ℤ, length, pos};
ghost use Rattle.std.specs.Char.{is_ascii_digit};
ghost use Rattle.std.specs.List.{list_all};
ghost use Rattle.spec_text.specs.Decimals.{AreDigits, Numeral, digits};
ghost use Rattle.spec_text.specs.declared.limits.TheConstants.{MAX_WORD_BYTES};
ghost use Rattle.spec_text.specs.Reading.{Reads, reading, reading_of, whole_of};
ghost use Rattle.de_text.specs.Parts.{IsNear, IsOfShortWord, Shows};

use crate::digits::{CAP, capped_number};
use crate::parts::{Parts, split_jpl_number, split_numeral};
use spec_text::{Decimal, MAX_EXPONENT, MAX_WHOLE_DIGITS, MAX_WORD_BYTES, NumberFault};

// Returns a magnitude of at most 10^18 as a number with a sign: negated if `negative` is true.
#[inline(always)]
fn signed_number(negative: bool, size: u64) -> i64
    requires { size ≤ 10 ^ 18 }
    ensures value { result ≡ if negative then neg_ℤ (pos size) else pos size }
    ensures low { neg_ℤ (pos size) ≤ℤ result }
    ensures high { result ≤ℤ pos size }
{
    let size = size as i64;
    if negative { -size } else { size }
}

// Returns the decimal that the parts of a numeral make, which are within the limits of a decimal: 18 digits, and a
// written exponent of at most 99. Zero has the exponent 0, whatever was written.
#[inline(always)]
pub(crate) fn decimal_of_parts(parts: &Parts) -> Decimal
    requires short { IsOfShortWord parts.now }
    requires near { IsNear parts.now }
    ensures { (n : Numeral) → AreDigits (digits n) → Shows n parts.now
        → Ok result ≡ reading_of (Some n) }
{
    if parts.mantissa == 0 {
        return Decimal { mant: 0, exp: 0 };
    }
    let mant = signed_number(parts.negative, parts.mantissa);
    let exp = signed_number(parts.exponent_negative, parts.exponent) - parts.places as i64;
    Decimal {
        mant,
        exp: exp as i16,
    }
}

// Returns the decimal that the parts of a numeral make. Errors: `TooManyDigits` first, for more than 18 digits; then
// `ExponentRange`, for a written exponent past 99.
fn decimal_or_fault(parts: &Parts) -> Result<Decimal, NumberFault>
    requires { IsOfShortWord parts.now }
    ensures { (n : Numeral) → AreDigits (digits n) → Shows n parts.now
        → result ≡ reading_of (Some n) }
{
    if parts.mantissa >= CAP {
        return Err(NumberFault::TooManyDigits);
    }
    if parts.exponent > MAX_EXPONENT {
        return Err(NumberFault::ExponentRange);
    }
    Ok(decimal_of_parts(parts))
}

// Reads any word of at most 40 bytes as a decimal, or returns its first fault. The call is not inlined, since the
// fast path reads the words that JPL writes without it.
#[inline(never)]
fn read_any_word(word: &[u8]) -> Result<Decimal, NumberFault>
    requires { length word.now ≤ MAX_WORD_BYTES }
    ensures reads { Reads word.now result }
    ensures reading { result ≡ reading word.now }
{
    match split_numeral(word) {
        Some(parts) => decimal_or_fault(&parts),
        None => Err(NumberFault::NotNumber),
    }
}

/// Reads a word as a decimal, without rounding. A word that is none gives the first of its faults in the order of
/// `NumberFault`. A word past 40 bytes is no number.
pub fn read_decimal(word: &[u8]) -> Result<Decimal, NumberFault>
    ensures reads { Reads word.now result }
    ensures reading { result ≡ reading word.now }
{
    if word.len() > MAX_WORD_BYTES {
        return Err(NumberFault::NotNumber);
    }
    match split_jpl_number(word) {
        Some(parts) => Ok(decimal_of_parts(&parts)),
        None => read_any_word(word),
    }
}

// Tells whether every byte of a word is a digit from 0 to 9. An empty word has no other byte.
fn are_digits(word: &[u8]) -> bool
    ensures { result ≡ list_all is_ascii_digit word.now }
{
    word.iter().all(|b| b.is_ascii_digit())
}

/// Reads a word of 1 to 9 digits as a whole number. None for every other word, also for one with a sign.
pub fn read_whole(word: &[u8]) -> Option<u32>
    ensures { result ≡ whole_of word.now }
{
    if word.is_empty() || word.len() > MAX_WHOLE_DIGITS || !are_digits(word) {
        return None;
    }
    Some(capped_number(0, word) as u32)
}
