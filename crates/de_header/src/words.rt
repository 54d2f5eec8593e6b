// The rules of the lines before the columns, one call for each kind of line.
ghost use Rattle.std.specs.Prelude.{◌≡◌, ◌≤◌, ◌<◌, ◌+◌, IfOk, List, Some, length, slice_get, take, codes, ℕ};
ghost use Rattle.spec_files.specs.Sections.{is_word};
ghost use Rattle.spec_files.specs.HeaderRules.{decimal_at, emrat_from, first_line, group, mass_ratio, mass_ratio_of, name_count, span, value_count};

use crate::bounds::{block_length, check_julian_date, is_mass_ratio};
use de_text::{Decimal, Line, read_decimal};
use spec_ephemeris::{MAX_NUMBERS, MIN_NUMBERS};
use spec_faults::{
    COUNT_MISMATCH, EMRAT_MISSING, EMRAT_RANGE, FIRST_LINE, GROUP_MISSING, HEADER_NUMBER, LIMIT,
};
use spec_files::{BrokenRule, MAX_CONSTANTS};

// Tells whether the word at a place of a line, counted from 0, is this text. It is not if the line ends before that
// place.
fn is_word_at(line: &Line<'_>, i: usize, text: &[u8]) -> bool
    ensures { result ≡ is_word (slice_get line.now.tokens i) text.now }
{
    match line.token(i) {
        Some(word) => word == text,
        None => false,
    }
}

// Reads NCOEFF, the count of a block's numbers, from the first line of a header: `KSIZE= n NCOEFF= n`. Errors: the
// rule that any other line breaks, or that of a count out of range.
pub(crate) fn read_ncoeff(line: &Line<'_>) -> Result<u32, BrokenRule>
    ensures { result ≡ first_line line.now.tokens }
{
    if line.count() == 4 && is_word_at(line, 0, b"KSIZE=") && is_word_at(line, 2, b"NCOEFF=") {
        match line.whole_number_at(3) {
            None => Err(BrokenRule::new(FIRST_LINE, 0)),
            Some(n) if n < MIN_NUMBERS || MAX_NUMBERS < n => Err(BrokenRule::new(LIMIT, 0)),
            Some(n) => Ok(n),
        }
    } else {
        Err(BrokenRule::new(FIRST_LINE, 0))
    }
}

/// Checks that a line is the word `GROUP` and this name. Errors: the rule that any other line breaks, with the
/// group's number as its detail.
pub(crate) fn check_group(name: &[u8], number: u16, line: &Line<'_>) -> Result<(), BrokenRule>
    ensures { result ≡ group name.now number line.now.tokens }
{
    if line.count() == 2 && is_word_at(line, 0, b"GROUP") && is_word_at(line, 1, name) {
        Ok(())
    } else {
        Err(BrokenRule::new(GROUP_MISSING, number))
    }
}

// Tells whether the first word of a line is `GROUP`.
pub(crate) fn starts_with_group(line: &Line<'_>) -> bool
    ensures { result ≡ is_word (slice_get line.now.tokens 0) (codes "GROUP") }
{
    is_word_at(line, 0, b"GROUP")
}

// Reads the decimal at a place of a line, counted from 0. Errors: the rule that is broken if no word stands there, or
// one that is no decimal.
fn read_decimal_at(line: &Line<'_>, i: usize) -> Result<Decimal, BrokenRule>
    ensures { result ≡ decimal_at (slice_get line.now.tokens i) }
{
    match line.token(i) {
        None => Err(BrokenRule::new(HEADER_NUMBER, 1)),
        Some(word) => match read_decimal(word) {
            Ok(d) => Ok(d),
            Err(fault) => Err(BrokenRule::new(HEADER_NUMBER, fault.number())),
        },
    }
}

// Reads the length of a block, in seconds, from the line of two Julian dates and the days of a block. Errors: the
// first rule that one of the three breaks, from left to right.
pub(crate) fn read_block_length(line: &Line<'_>) -> Result<u32, BrokenRule>
    ensures { result ≡ span line.now.tokens }
{
    check_julian_date(read_decimal_at(line, 0)?)?;
    check_julian_date(read_decimal_at(line, 1)?)?;
    block_length(read_decimal_at(line, 2)?)
}

/// Reads the count of names from a line, at most 2,000. Errors: the rule that is broken by a word that is no whole
/// number, or by a greater count.
pub(crate) fn read_name_count(line: &Line<'_>) -> Result<u32, BrokenRule>
    ensures value { result ≡ name_count line.now.tokens }
    ensures few { IfOk result (λ n. n ≤ MAX_CONSTANTS) }
{
    match line.whole_number_at(0) {
        None => Err(BrokenRule::new(HEADER_NUMBER, 1)),
        Some(n) if MAX_CONSTANTS < n => Err(BrokenRule::new(LIMIT, 0)),
        Some(n) => Ok(n),
    }
}

// Returns the place of the first `EMRAT` among the first `n` words of a line, whose words are counted from `start`.
// None if it is not among them.
pub(crate) fn find_emrat(line: &Line<'_>, n: u32, start: u32) -> Option<u32>
    requires few { start + n ≤ MAX_CONSTANTS }
    requires there { n ≤ length line.now.tokens }
    ensures { result ≡ emrat_from start (take n line.now.tokens) }
{
    for i in 0..n {
        if is_word_at(line, i as usize, b"EMRAT") {
            return Some(start + i);
        }
    }
    None
}

// Checks that the count of values on this line is `names`, the count of names, and returns `emrat`, the place of
// `EMRAT` among the names. Errors: the rule that is broken by a count that differs, then that of an `EMRAT` that was
// not found.
pub(crate) fn read_emrat_place(
    names: u32,
    emrat: Option<u32>,
    line: &Line<'_>,
) -> Result<u32, BrokenRule>
    ensures { result ≡ value_count names emrat line.now.tokens }
{
    match line.whole_number_at(0) {
        None => Err(BrokenRule::new(HEADER_NUMBER, 1)),
        Some(n) if n != names => Err(BrokenRule::new(COUNT_MISMATCH, 0)),
        Some(_) => match emrat {
            None => Err(BrokenRule::new(EMRAT_MISSING, 0)),
            Some(place) => Ok(place),
        },
    }
}

// Returns this mass ratio of Earth and Moon if it is from 1 to 1,000. Errors: the rule that any other number breaks.
fn check_mass_ratio(d: Decimal) -> Result<Decimal, BrokenRule>
    ensures { result ≡ mass_ratio_of d }
{
    if is_mass_ratio(d) {
        Ok(d)
    } else {
        Err(BrokenRule::new(EMRAT_RANGE, 0))
    }
}

// Reads the value of `EMRAT`, the mass ratio of Earth and Moon, from the word at this place of a line. Errors: the
// rule that is broken by a word that is no decimal, or by one that is not from 1 to 1,000.
pub(crate) fn read_mass_ratio(line: &Line<'_>, place: u32) -> Result<Decimal, BrokenRule>
    requires { place < length line.now.tokens }
    ensures { (word : List ℕ) → slice_get line.now.tokens place ≡ Some word
        → result ≡ mass_ratio word }
{
    let d = read_decimal_at(line, place as usize)?;
    check_mass_ratio(d)
}
