// Numbers in the form in which JPL writes those of blocks, cut from the front of a line. The forms that a text tool
// makes of them are read as fast: an `E` in place of the `D`, and other line ends.
ghost use Rattle.std.specs.Prelude.{◌≡◌, ◌+◌, ◌-◌, ◌<◌, ◌≤◌, [], ◌∷◌, IfSome, IsTrue, List, Ok, ℕ, drop, false, length, slice_index, take, true};
ghost use lib.Lanes.{number_l};
ghost use Rattle.spec_text.specs.Bytes.{digit_zero, point};
ghost use Rattle.spec_text.specs.Lines.{is_line_feed, is_separator, lines, tokens};
ghost use Rattle.spec_text.specs.Reading.{reading};
ghost use Rattle.spec_text.specs.Splitting.{sign_at};
ghost use Rattle.spec_text.specs.declared.limits.TheConstants.{MAX_WORD_BYTES};
ghost use Rattle.de_text.specs.Parts.{is_minus};
ghost use Rattle.de_text.specs.Triples.{AreTriple};

use crate::decimal::decimal_of_parts;
use crate::lines::without_carriage_return;
use crate::parts::split_fraction;
use crate::tokens::is_separator;
use crate::triple::Triple;
use spec_text::Decimal;
use std::simd::prelude::*;

// The length of a field, a number in JPL's form: a blank, a blank or a minus, a 0, a point, eighteen digits, and an
// exponent of a mark, a sign and two digits.
const FIELD: usize = 26;

// The place in a field, counted from 0, of the first digit after the point.
const DIGITS: usize = 4;

// The place in a field of the mark of the exponent, which is a `D`, or an `E` where a text tool wrote it so.
const MARK: usize = 22;

// Half of the mark's byte, rounded down: of a `D` and of an `E` alike, which takes one comparison for both.
const HALF_MARK: u8 = b'D' / 2;

// The first four bytes of a field that is not negative, as one number: two blanks, a 0 and a point.
const BLANK_FRONT: u32 = 0x2e30_2020;

// By how much that number is greater if the second byte is a minus.
const MINUS_FRONT: u32 = 256 * 13;

// The length of three fields.
const FIELDS: usize = 78;

// The length of a line of three fields with two blanks, a carriage return and a line feed.
const WIDE_LINE: usize = 82;

// The length of a line of three fields with two blanks and a line feed, as where a text tool took the carriage return.
const BARE_LINE: usize = 81;

// The length of a line of three fields with a carriage return and a line feed.
const NEAR_LINE: usize = 80;

// Tells whether a line ends after its first 26 bytes, the length of a number in JPL's form, or goes on with a blank
// or a tab.
#[inline(always)]
fn has_field_end(line: &[u8]) -> bool
    ensures { IsTrue result → 26 < length line.now
        → is_separator (slice_index line.now 26) ≡ true }
{
    if FIELD < line.len() {
        is_separator(line[FIELD])
    } else {
        true
    }
}

// The place in a field at which its number begins, 1 with a minus and 2 without, and whether it has a minus there.
#[derive(Clone, Copy)]
pub(crate) struct Front {
    pub start: usize,
    pub negative: bool,
}

// Returns the first four bytes of a line as one number of 32 bits, of which the first byte is the lowest.
#[inline(always)]
fn four_bytes_as_number(line: &[u8]) -> u32
    requires { 4 ≤ length line.now }
    ensures { result ≡ number_l 256 (take 4 line.now) }
{
    let words = u32x1::from_le_bytes(u8x4::from_slice(line)).to_array();
    words[0]
}

// Returns where a number in JPL's form begins in its 26 bytes, and whether it is negative. The form starts with two
// blanks, or a blank and a minus, and then `0.`; None for any other front. One bit tells the minus from the blank,
// which needs no branch.
#[inline(always)]
fn field_front(line: &[u8]) -> Option<Front>
    requires { FIELD ≤ length line.now }
    ensures start { IfSome result (λ f. f.start ≤ 2) }
    ensures some { IfSome result (λ f. 0 < f.start) }
    ensures before { IfSome result (λ f. (k : ℕ) → k < f.start
        → is_separator (slice_index line.now k) ≡ true) }
    ensures negative { IfSome result (λ f. f.negative
        ≡ is_minus (sign_at (take (26 - f.start) (drop f.start line.now))).0) }
    ensures digits { IfSome result (λ f. digit_zero ∷ point ∷ take 22 (drop 4 line.now)
        ≡ (sign_at (take (26 - f.start) (drop f.start line.now))).1) }
{
    let word = four_bytes_as_number(line);
    let odd = word / 256 % 2;
    if word != BLANK_FRONT + MINUS_FRONT * odd {
        return None;
    }
    Some(Front {
        start: 2 - odd as usize,
        negative: odd == 1,
    })
}

// Reads the digits and the exponent of a number in JPL's form, whose sign and `0.` were read. None if they are not in
// that form. `word` is the whole number, with its sign: only the contract speaks of it, and `let _word` lets it go
// unread.
#[inline(always)]
fn read_fraction(negative: bool, digits: &[u8], word: &[u8]) -> Option<Decimal>
    requires short { length word.now ≤ MAX_WORD_BYTES }
    requires negative { negative ≡ is_minus (sign_at word.now).0 }
    requires digits { digit_zero ∷ point ∷ digits.now ≡ (sign_at word.now).1 }
    ensures { IfSome result (λ d. Ok d ≡ reading word.now) }
{
    let _word = word;
    let parts = split_fraction(negative, digits)?;
    Some(decimal_of_parts(&parts))
}

// Reads the number in the first 26 bytes of a line, and returns it with the rest of the line. None if these bytes are
// not in JPL's form. The caller checks that the word ends there, of which the contract's `number` makes a condition.
#[inline(always)]
fn cut_field(line: &[u8]) -> Option<(Decimal, &[u8])>
    ensures number { IfSome result (λ p.
        (26 < length line.now → is_separator (slice_index line.now 26) ≡ true)
        → (word : List ℕ) × (tokens line.now ≡ word ∷ tokens p.1.now) × (Ok p.0 ≡ reading word)) }
    ensures front { IfSome result (λ p. is_separator (slice_index line.now 0) ≡ true) }
    ensures inner { IfSome result (λ p. (k : ℕ) → k < 26
        → is_line_feed (slice_index line.now k) ≡ false) }
    ensures long { IfSome result (λ p. 26 ≤ length line.now) }
    ensures rest { IfSome result (λ p. p.1.now ≡ drop 26 line.now) }
{
    if line.len() < FIELD || line[MARK] / 2 != HALF_MARK {
        return None;
    }
    let front = field_front(line)?;
    let word = &line[front.start..FIELD];
    let d = read_fraction(front.negative, &line[DIGITS..FIELD], word)?;
    Some((d, &line[FIELD..]))
}

// Reads the first word of a line as a number in JPL's form of 26 bytes, and returns it with the rest of the line.
// None for any other word.
#[inline(always)]
pub(crate) fn cut_number(line: &[u8]) -> Option<(Decimal, &[u8])>
    ensures { IfSome result (λ p. (word : List ℕ)
        × (tokens line.now ≡ word ∷ tokens p.1.now) × (Ok p.0 ≡ reading word)) }
{
    if !has_field_end(line) {
        return None;
    }
    let (number, rest) = cut_field(line)?;
    Some((number, rest))
}

// Tells whether the rest of a line is empty or two blanks, as after the three numbers of a line of JPL's.
#[inline(always)]
fn is_empty_or_two_blanks(rest: &[u8]) -> bool
    ensures blank { IsTrue result → tokens rest.now ≡ [] }
    ensures front { IsTrue result → 0 < length rest.now
        → is_separator (slice_index rest.now 0) ≡ true }
{
    match rest {
        [] | [b' ', b' '] => true,
        _ => false,
    }
}

// Reads a line of three numbers in JPL's form, with nothing or two blanks after them. None for any other line, of
// which it says nothing.
#[inline(always)]
fn read_triple_line(line: &[u8]) -> Option<Triple>
    ensures triple { IfSome result (λ t. AreTriple (tokens line.now) t) }
    ensures inner { IfSome result (λ t. (k : ℕ) → k < 78
        → is_line_feed (slice_index line.now k) ≡ false) }
    ensures long { IfSome result (λ t. 78 ≤ length line.now) }
{
    let (first, more) = cut_field(line)?;
    let (second, last) = cut_field(more)?;
    let (third, rest) = cut_field(last)?;
    if !is_empty_or_two_blanks(rest) {
        return None;
    }
    Some(Triple {
        first,
        second,
        third,
    })
}

// Returns the place of the line feed of a line that is three numbers of 26 bytes, two blanks, a carriage return and a
// line feed. None if these four bytes do not stand there. What the numbers are is not looked at.
#[tactic(auto, using(crate::proofs::Triples::wide_between))]
#[inline(always)]
fn line_end_after_two_blanks(text: &[u8]) -> Option<usize>
    ensures within { IfSome result (λ end. end < length text.now) }
    ensures near { IfSome result (λ end. end ≤ 81) }
    ensures at { IfSome result (λ end. is_line_feed (slice_index text.now end) ≡ true) }
    ensures between { IfSome result (λ end. (k : ℕ) → 78 ≤ k → k < end
        → is_line_feed (slice_index text.now k) ≡ false) }
{
    if text.len() < WIDE_LINE || text[FIELDS] != b' ' || text[FIELDS + 1] != b' ' {
        return None;
    }
    if text[FIELDS + 2] != b'\r' || text[WIDE_LINE - 1] != b'\n' {
        return None;
    }
    Some(WIDE_LINE - 1)
}

// Returns the place of the line feed of a line that is three numbers of 26 bytes and a line feed, with or without a
// carriage return before it. None if neither stands there, or if the text has fewer than 80 bytes. What the numbers
// are is not looked at.
#[tactic(auto, using(crate::proofs::Triples::near_between))]
#[inline(always)]
fn line_end_after_numbers(text: &[u8]) -> Option<usize>
    ensures within { IfSome result (λ end. end < length text.now) }
    ensures near { IfSome result (λ end. end ≤ 81) }
    ensures at { IfSome result (λ end. is_line_feed (slice_index text.now end) ≡ true) }
    ensures between { IfSome result (λ end. (k : ℕ) → 78 ≤ k → k < end
        → is_line_feed (slice_index text.now k) ≡ false) }
{
    if text.len() < NEAR_LINE {
        return None;
    }
    if text[FIELDS] == b'\n' {
        return Some(FIELDS);
    }
    if text[FIELDS] != b'\r' || text[NEAR_LINE - 1] != b'\n' {
        return None;
    }
    Some(NEAR_LINE - 1)
}

// Returns the place of the line feed of a line that is three numbers of 26 bytes, two blanks and a line feed. None if
// these three bytes do not stand there. What the numbers are is not looked at.
#[tactic(auto, using(crate::proofs::Triples::bare_between))]
#[inline(always)]
fn line_end_after_bare_blanks(text: &[u8]) -> Option<usize>
    ensures within { IfSome result (λ end. end < length text.now) }
    ensures near { IfSome result (λ end. end ≤ 81) }
    ensures at { IfSome result (λ end. is_line_feed (slice_index text.now end) ≡ true) }
    ensures between { IfSome result (λ end. (k : ℕ) → 78 ≤ k → k < end
        → is_line_feed (slice_index text.now k) ≡ false) }
{
    if text.len() < BARE_LINE || text[FIELDS] != b' ' || text[FIELDS + 1] != b' ' {
        return None;
    }
    if text[BARE_LINE - 1] != b'\n' {
        return None;
    }
    Some(BARE_LINE - 1)
}

// Returns the place of the line feed after three numbers of 26 bytes without two blanks and a carriage return: two
// blanks alone come before it, a carriage return alone, or nothing. None if none of them stands there.
#[inline(always)]
fn touched_line_end(text: &[u8]) -> Option<usize>
    ensures within { IfSome result (λ end. end < length text.now) }
    ensures near { IfSome result (λ end. end ≤ 81) }
    ensures at { IfSome result (λ end. is_line_feed (slice_index text.now end) ≡ true) }
    ensures between { IfSome result (λ end. (k : ℕ) → 78 ≤ k → k < end
        → is_line_feed (slice_index text.now k) ≡ false) }
{
    match line_end_after_bare_blanks(text) {
        Some(end) => Some(end),
        None => line_end_after_numbers(text),
    }
}

// Returns the place of the line feed after three numbers of 26 bytes, which has one of four line ends: two blanks and
// a carriage return before it, as JPL writes it, or a line end that a text tool wrote. None if none of them stands
// there.
#[inline(always)]
fn triple_line_end(text: &[u8]) -> Option<usize>
    ensures within { IfSome result (λ end. end < length text.now) }
    ensures near { IfSome result (λ end. end ≤ 81) }
    ensures at { IfSome result (λ end. is_line_feed (slice_index text.now end) ≡ true) }
    ensures between { IfSome result (λ end. (k : ℕ) → 78 ≤ k → k < end
        → is_line_feed (slice_index text.now k) ≡ false) }
{
    match line_end_after_two_blanks(text) {
        Some(end) => Some(end),
        None => touched_line_end(text),
    }
}

// A line of three fields, its numbers, and the text after it.
#[derive(Clone, Copy)]
pub(crate) struct TripleLine<'a> {
    pub bytes: &'a [u8],
    pub triple: Triple,
    pub rest: &'a [u8],
}

// Returns the first line of a text, if it is three numbers in JPL's form, with the numbers and the text after it.
// None for any other line. The end is looked for only where three numbers would end, which saves a search.
#[inline(always)]
pub(crate) fn cut_triple(text: &[u8]) -> Option<TripleLine<'_>>
    ensures lines { IfSome result (λ l. lines text.now ≡ l.bytes.now ∷ lines l.rest.now) }
    ensures triple { IfSome result (λ l. AreTriple (tokens l.bytes.now) l.triple) }
    ensures some { IfSome result (λ l. 0 < length (tokens l.bytes.now)) }
    ensures short { IfSome result (λ l. length l.bytes.now ≤ 81) }
    ensures shorter { IfSome result (λ l. length l.rest.now < length text.now) }
{
    let end = triple_line_end(text)?;
    let bytes = without_carriage_return(&text[..end]);
    let triple = read_triple_line(bytes)?;
    Some(TripleLine {
        bytes,
        triple,
        rest: &text[end + 1..],
    })
}
