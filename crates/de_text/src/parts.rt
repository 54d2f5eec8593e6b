// The parts of a numeral, cut from the front of a word.
ghost use Rattle.std.specs.Prelude.{◌≡◌, ◌<◌, ◌≤◌, ◌^◌, ◌∷◌, IfSome, List, Some, length, min, ℕ};
ghost use Rattle.spec_text.specs.Bytes.{digit_zero, point};
ghost use Rattle.spec_text.specs.Decimals.{value_after};
ghost use Rattle.spec_text.specs.Splitting.{exponent_at, fraction_at, numeral_of, sign_at};
ghost use Rattle.spec_text.specs.declared.limits.TheConstants.{MAX_EXPONENT};
ghost use Rattle.de_text.specs.Parts.{IsNear, ShowsExponent, Splits, fraction_digits, is_minus};

use crate::digits::{Digits, take_digits, take_eighteen_digits, take_many_digits, take_two_digits};

// The sign, the number that the digits without the point write, how many of them stand after the point, and the sign
// and the size of the written exponent. Both numbers are at most `CAP`.
#[derive(Clone, Copy)]
pub(crate) struct Parts {
    pub negative: bool,
    pub mantissa: u64,
    pub places: usize,
    pub exponent_negative: bool,
    pub exponent: u64,
}

// Returns whether a word starts with a minus, and the word after its sign. A word without a sign is returned whole.
#[inline(always)]
fn take_sign(word: &[u8]) -> (bool, &[u8])
    ensures negative { result.0 ≡ is_minus (sign_at word.now).0 }
    ensures rest { result.1.now ≡ (sign_at word.now).1 }
{
    match word {
        [b'+', rest @ ..] => (false, rest),
        [b'-', rest @ ..] => (true, rest),
        _ => (false, word),
    }
}

// Reads a point at the front of a text and the digits after it, as if they followed those of the number `start`.
// Without a point nothing is read.
fn take_fraction(start: u64, text: &[u8]) -> Digits<'_>
    requires { start ≤ 10 ^ 18 }
    ensures number { result.number ≡ min (value_after start (fraction_digits text.now)) (10 ^ 18) }
    ensures count { result.count ≡ length (fraction_digits text.now) }
    ensures rest { result.rest.now ≡ (fraction_at text.now).1 }
{
    match text {
        [b'.', rest @ ..] => take_many_digits(start, rest),
        _ => Digits {
            number: start,
            count: 0,
            rest: text,
        },
    }
}

// Reads a text that is an exponent: a mark D or E of either case, a sign or none, and digits. Returns whether it is
// negative, and its magnitude. An empty text is the exponent 0; None for any other text.
fn take_exponent(text: &[u8]) -> Option<(bool, u64)>
    ensures { ShowsExponent (exponent_at text.now) result }
{
    match text {
        [] => Some((false, 0)),
        [b'D' | b'd' | b'E' | b'e', rest @ ..] => {
            let (negative, rest) = take_sign(rest);
            let digits = take_digits(0, rest);
            if digits.count == 0 || !digits.rest.is_empty() {
                return None;
            }
            Some((negative, digits.number))
        }
        _ => None,
    }
}

// Makes the parts of a numeral of its sign, its digits, of which `count` stand after the point, and its exponent.
#[inline(always)]
fn numeral_parts(negative: bool, digits: &Digits, exponent_negative: bool, exponent: u64) -> Parts
    ensures { result ≡ record {
      negative = negative;
      mantissa = digits.now.number;
      places = digits.now.count;
      exponent_negative = exponent_negative;
      exponent = exponent;
    } }
{
    Parts {
        negative,
        mantissa: digits.number,
        places: digits.count,
        exponent_negative,
        exponent,
    }
}

// Splits a word into the parts of a numeral: its sign, its digits and its exponent. None if the word is no numeral.
pub(crate) fn split_numeral(word: &[u8]) -> Option<Parts>
    ensures { Splits (numeral_of word.now) result }
{
    let (negative, rest) = take_sign(word);
    let whole = take_digits(0, rest);
    let digits = take_fraction(whole.number, whole.rest);
    let (exponent_negative, exponent) = take_exponent(digits.rest)?;
    if whole.count == 0 && digits.count == 0 {
        return None;
    }
    Some(numeral_parts(negative, &digits, exponent_negative, exponent))
}

// Tells whether a byte that is a sign is a minus. None for any byte but `+` and `-`. One bit tells the minus from the
// plus, which needs no branch.
#[inline(always)]
fn read_sign(sign: u8) -> Option<bool>
    ensures negative { IfSome result (λ negative. (rest : List ℕ)
        → negative ≡ is_minus (sign_at (sign ∷ rest)).0) }
    ensures rest { IfSome result (λ negative. (rest : List ℕ) → rest ≡ (sign_at (sign ∷ rest)).1) }
{
    let minus = sign / 4 % 2;
    if sign != b'+' + 2 * minus {
        return None;
    }
    Some(minus == 1)
}

// Reads a text that is an exponent as JPL writes it: a `D`, a sign and two digits; an `E` may stand for the `D`.
// Returns whether it is negative, and its magnitude. None for any other text.
#[inline(always)]
fn read_field_exponent(text: &[u8]) -> Option<(bool, u64)>
    ensures shows { IfSome result (λ e. ShowsExponent (exponent_at text.now) (Some e)) }
    ensures few { IfSome result (λ e. e.1 ≤ MAX_EXPONENT) }
{
    match text {
        [b'D' | b'E', sign, rest @ ..] => {
            let negative = read_sign(*sign)?;
            let digits = take_two_digits(0, rest)?;
            if digits.count == 0 || !digits.rest.is_empty() {
                return None;
            }
            Some((negative, digits.number))
        }
        _ => None,
    }
}

// Splits a number in JPL's form into the parts of a numeral, from the text after its sign and `0.`: eighteen digits
// and an exponent. None for any other text.
#[inline(always)]
pub(crate) fn split_fraction(negative: bool, text: &[u8]) -> Option<Parts>
    ensures splits { IfSome result (λ parts. (word : List ℕ)
        → negative ≡ is_minus (sign_at word).0
        → digit_zero ∷ point ∷ text.now ≡ (sign_at word).1
        → Splits (numeral_of word) (Some parts)) }
    ensures near { IfSome result IsNear }
{
    let digits = take_eighteen_digits(text)?;
    let (exponent_negative, exponent) = read_field_exponent(digits.rest)?;
    Some(numeral_parts(negative, &digits, exponent_negative, exponent))
}

// Splits a word that is written as JPL writes numbers into the parts of a numeral. None for any other word, which may
// still be a numeral.
#[inline(always)]
pub(crate) fn split_jpl_number(word: &[u8]) -> Option<Parts>
    ensures splits { IfSome result (λ parts. Splits (numeral_of word.now) (Some parts)) }
    ensures near { IfSome result IsNear }
{
    let (negative, signless) = take_sign(word);
    match signless {
        [b'0', b'.', digits @ ..] => split_fraction(negative, digits),
        _ => None,
    }
}
