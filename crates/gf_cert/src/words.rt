// Readers of the words of a certificate: times, numbers and marks. Each returns none for a word that is not of its
// form.
ghost use Rattle.std.specs.Prelude.{◌≡◌, ◌≤◌, ◌<◌, ◌+◌, ◌*◌, ◌^◌, ◌&&◌, length, nat_le, nat_lt, IfSome};
ghost use Rattle.std.specs.Char.{is_ascii_digit};
ghost use Rattle.std.specs.List.{list_all};
ghost use Rattle.std.specs.Str.{bytes_eq};
ghost use Rattle.spec_text.specs.Decimals.{value};
ghost use Rattle.spec_certificates.specs.Entries.{count_of, mark_of_word, time_of};
ghost use Rattle.spec_certificates.specs.declared.limits.TheConstants.{MAX_COUNT_DIGITS, MAX_DEPTH_DIGITS, MAX_TIME_DIGITS};

use spec_certificates::{MAX_COUNT_DIGITS, MAX_DEPTH_DIGITS, MAX_TIME_DIGITS};
use spec_trees::{Mark, Turn};

/// Tells whether a word is the given text, byte for byte.
pub(crate) fn is_same_text(word: &[u8], text: &[u8]) -> bool
    ensures { result ≡ bytes_eq word.now text.now }
{
    word == text
}

// Tells whether all bytes of a word are ASCII digits. A word without bytes passes, so callers test the length too.
fn are_digits(word: &[u8]) -> bool
    ensures { result ≡ list_all is_ascii_digit word.now }
{
    word.iter().all(|byte| byte.is_ascii_digit())
}

// Tells whether a word has 1 to `most` bytes.
fn is_length_up_to(word: &[u8], most: usize) -> bool
    ensures { result ≡ (nat_lt 0 (length word.now) && nat_le (length word.now) most) }
{
    !word.is_empty() && word.len() <= most
}

// Returns the number that at most 15 decimal digits write. A byte below `0` counts as 0 and one above `9` as more than
// 9, so callers test the bytes.
fn digits_value(digits: &[u8]) -> u64
    requires { length digits.now ≤ 15 }
    ensures value { result ≡ value digits.now }
    ensures bound { result + 23 ≤ 23 * 10 ^ length digits.now }
{
    let mut value: u64 = 0;
    for digit in digits {
        value = 10 * value + digit.saturating_sub(b'0') as u64;
    }
    value
}

// Reads a number of 1 to `most` decimal digits. Returns none for any other word.
fn read_number(most: usize, word: &[u8]) -> Option<u64>
    requires { most ≤ 15 }
    ensures value { result ≡ count_of most word.now }
    ensures bound { IfSome result (λ n. n < 23 * 10 ^ most) }
{
    if are_digits(word) && is_length_up_to(word, most) {
        Some(digits_value(word))
    } else {
        None
    }
}

/// Reads the depth of a leaf, a number of 1 or 2 digits. Returns none for any other word.
pub(crate) fn read_depth(word: &[u8]) -> Option<u32>
    ensures { result ≡ count_of MAX_DEPTH_DIGITS word.now }
{
    match read_number(MAX_DEPTH_DIGITS, word) {
        Some(depth) => Some(depth as u32),
        None => None,
    }
}

/// Reads a number of leaves, of 1 to 8 digits. Returns none for any other word.
pub(crate) fn read_leaf_count(word: &[u8]) -> Option<u32>
    ensures { result ≡ count_of MAX_COUNT_DIGITS word.now }
{
    match read_number(MAX_COUNT_DIGITS, word) {
        Some(count) => Some(count as u32),
        None => None,
    }
}

/// Reads a time of 1 to 15 digits, perhaps after a minus sign, in ticks since J2000 in TDB. Returns none for any other
/// word.
pub(crate) fn read_time(word: &[u8]) -> Option<i64>
    ensures { result ≡ time_of word.now }
{
    match word {
        [] => None,
        [b'-', digits @ ..] => match read_number(MAX_TIME_DIGITS, digits) {
            Some(size) => Some(-(size as i64)),
            None => None,
        },
        [_, ..] => match read_number(MAX_TIME_DIGITS, word) {
            Some(size) => Some(size as i64),
            None => None,
        },
    }
}

/// Reads the mark of a leaf: `N` (no event), `R` (one rise), `F` (one fall) or `U` (undecided). Returns none for any
/// other word.
pub(crate) fn read_mark(word: &[u8]) -> Option<Mark>
    ensures { result ≡ mark_of_word word.now }
{
    if is_same_text(word, b"N") {
        Some(Mark::Clear)
    } else if is_same_text(word, b"R") {
        Some(Mark::One(Turn::Rise))
    } else if is_same_text(word, b"F") {
        Some(Mark::One(Turn::Fall))
    } else if is_same_text(word, b"U") {
        Some(Mark::Undecided)
    } else {
        None
    }
}
