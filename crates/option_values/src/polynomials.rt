// Readers of the words of a scalar: each returns the number or polynomial that a word stands for, or none.
ghost use Rattle.std.specs.Prelude.{◌≡◌, ◌≤◌, IfSome, neg_ℤ, option_map, pos, unsigned_abs};
ghost use Rattle.spec_requests.specs.Options.{at_comma, factor_of, scalar_time_of, signed_of};
ghost use Rattle.spec_scalars.specs.Quads.{is_small};
ghost use Rattle.option_values.specs.Polynomials.{bytes_of_two, polynomial_of, polynomial_of_numbers, polynomial_of_two, small_polynomial};

use crate::forms::read_number;
use spec_requests::{
    MAX_DIGITS_OF_A_FACTOR, MAX_DIGITS_OF_A_TIME, MAX_SCALAR_TIME, MAX_WRITTEN_FACTOR,
};
use spec_scalars::{MAX_FACTOR, MAX_SUMMAND};

/// The numbers of a polynomial p t^2 + q t + r that can be searched for: p and q of at most 2^20 in magnitude, r of
/// at most 2^62.
#[derive(Clone, Copy)]
pub struct Polynomial {
    pub p: i64,
    pub q: i64,
    pub r: i64,
}

// Converts a number that was read to a signed one. None stays none.
fn as_signed(number: Option<u64>) -> Option<i128>
    ensures { result ≡ option_map pos number }
{
    match number {
        Some(number) => Some(i128::from(number)),
        None => None,
    }
}

// Converts a number that was read to its negative. None stays none.
fn as_negated(number: Option<u64>) -> Option<i128>
    ensures { result ≡ option_map (λ n. neg_ℤ (pos n)) number }
{
    match number {
        Some(number) => Some(-i128::from(number)),
        None => None,
    }
}

// Reads a whole number of 1 to `digits` digits, perhaps after a minus sign. Returns none for another word, and for a
// number above `most` in magnitude.
fn read_signed_number(word: &str, digits: usize, most: u64) -> Option<i128>
    ensures signed { result ≡ signed_of digits most word.now }
    ensures most { IfSome result (λ number. unsigned_abs number ≤ most) }
{
    match word.strip_prefix('-') {
        Some(rest) => as_negated(read_number(rest, digits, 0, most)),
        None => as_signed(read_number(word, digits, 0, most)),
    }
}

/// Reads a time of a scalar: a whole number of at most 12 digits, perhaps after a minus sign. Returns none for any
/// other word.
pub(crate) fn read_scalar_time(word: &str) -> Option<i64>
    ensures { result ≡ scalar_time_of word.now }
{
    match read_signed_number(word, MAX_DIGITS_OF_A_TIME, MAX_SCALAR_TIME) {
        Some(time) => Some(time as i64),
        None => None,
    }
}

// Reads one of the three numbers of a polynomial: a whole number of at most 19 digits, perhaps after a minus sign.
// Returns none for any other word.
fn read_factor(word: &str) -> Option<i128>
    ensures { result ≡ factor_of word.now }
{
    read_signed_number(word, MAX_DIGITS_OF_A_FACTOR, MAX_WRITTEN_FACTOR)
}

// Splits a word at its first comma into the texts before and after it. Returns none if there is no comma.
fn split_at_comma<'a>(word: &'a str) -> Option<(&'a str, &'a str)>
    ensures { bytes_of_two result ≡ at_comma word.entry.now }
{
    word.split_once(',')
}

// Tells whether the polynomial p t^2 + q t + r can be searched for: in magnitude p and q have to be at most 2^20, and r
// at most 2^62.
fn is_small(p: i128, q: i128, r: i128) -> bool
    ensures { result ≡ is_small (record { p = p; q = q; r = r }) }
{
    p.unsigned_abs() <= u128::from(MAX_FACTOR)
        && q.unsigned_abs() <= u128::from(MAX_FACTOR)
        && r.unsigned_abs() <= u128::from(MAX_SUMMAND)
}

// Returns the polynomial p t^2 + q t + r, or none if one of its numbers is too large for a search.
fn small_polynomial(p: i128, q: i128, r: i128) -> Option<Polynomial>
    ensures { result ≡ small_polynomial p q r }
{
    if is_small(p, q, r) {
        Some(Polynomial {
            p: p as i64,
            q: q as i64,
            r: r as i64,
        })
    } else {
        None
    }
}

// Returns the polynomial p t^2 + q t + r of three numbers that were read. Returns none if one of them could not be read
// (`None`) or is too large for a search.
fn polynomial_of_numbers(p: Option<i128>, q: Option<i128>, r: Option<i128>) -> Option<Polynomial>
    ensures { result ≡ polynomial_of_numbers p q r }
{
    small_polynomial(p?, q?, r?)
}

// Reads the polynomial p t^2 + q t + r from the word of p, and `others`, the words of q and r. Returns none if there
// are no others, or a word is not that of a number that can be searched for.
fn polynomial_of_words(p: &str, others: Option<(&str, &str)>) -> Option<Polynomial>
    ensures { result ≡ polynomial_of_two p.now (bytes_of_two others.entry) }
{
    match others {
        Some((q, r)) => polynomial_of_numbers(read_factor(p), read_factor(q), read_factor(r)),
        None => None,
    }
}

/// Reads a polynomial p t^2 + q t + r that can be searched for, from its three numbers joined by commas. Returns none
/// for any other word.
pub(crate) fn read_polynomial(word: &str) -> Option<Polynomial>
    ensures { result ≡ polynomial_of word.now }
{
    match split_at_comma(word) {
        Some((p, others)) => polynomial_of_words(p, split_at_comma(others)),
        None => None,
    }
}
