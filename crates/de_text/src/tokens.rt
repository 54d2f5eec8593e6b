// Tokens, cut from the front of a line.
ghost use Rattle.std.specs.Prelude.{◌≡◌, ◌<◌, ◌≤◌, ◌+◌, ◌==◌, [], ◌∷◌, length, IfNone, IfSome, IsFalse, IsTrue, ℕ, false, slice_get, slice_index, true};
ghost use Rattle.std.specs.Option.{option_copied};
ghost use Rattle.spec_text.specs.Lines.{is_separator, tokens};

use std::simd::prelude::*;

// How many bytes of a text's end, or of a short text, are looked at at a time.
const LANES: usize = 16;

// How many bytes are looked at at a time while as many are left.
const WIDE: usize = 32;

// Tells whether a byte is a blank or a tab, which part the tokens of a line.
pub(crate) fn is_separator(b: u8) -> bool
    ensures { result ≡ is_separator b }
{
    b == b' ' || b == b'\t'
}

// Returns how many blanks and tabs stand at the front of a line, before its first other byte. If there is none, it is
// the line's length.
fn blank_length(line: &[u8]) -> usize
    ensures within { result ≤ length line.now }
    ensures before { (k : ℕ) → k < result → is_separator (slice_index line.now k) ≡ true }
    ensures at { result < length line.now → is_separator (slice_index line.now result) ≡ false }
{
    for (i, b) in line.iter().enumerate() {
        if !is_separator(*b) {
            return i;
        }
    }
    line.len()
}

// Tells whether a line has no token: it is empty, or blanks and tabs alone.
#[tactic(auto, using(spec_text::proofs::TokenLemmas::blank_line))]
pub(crate) fn is_blank(line: &[u8]) -> bool
    ensures blank { IsTrue result → tokens line.now ≡ [] }
    ensures some { IsFalse result → 0 < length (tokens line.now) }
{
    blank_length(line) == line.len()
}

// Returns how many of the 32 bytes from a place on come before the first of them that is a blank or less, which is 32
// if none is. Separators, a blank and a tab, are among these bytes.
#[inline(always)]
fn run_in_32_bytes(text: &[u8], at: usize) -> usize
    requires { at + WIDE ≤ length text.now }
    ensures within { result ≤ WIDE }
    ensures before { (k : ℕ) → at ≤ k → k < at + result
        → is_separator (slice_index text.now k) ≡ false }
{
    let bytes = u8x32::from_slice(&text[at..]);
    let stops = bytes.simd_le(u8x32::splat(b' ')).to_bitmask();
    if stops == 0 {
        WIDE
    } else {
        stops.trailing_zeros() as usize
    }
}

// Returns how many of the 16 bytes from a place on come before the first of them that is a blank or less, which is 16
// if none is. Separators, a blank and a tab, are among these bytes.
#[inline(always)]
fn run_in_16_bytes(text: &[u8], at: usize) -> usize
    requires { at + LANES ≤ length text.now }
    ensures within { result ≤ LANES }
    ensures before { (k : ℕ) → at ≤ k → k < at + result
        → is_separator (slice_index text.now k) ≡ false }
{
    let bytes = u8x16::from_slice(&text[at..]);
    let stops = bytes.simd_le(u8x16::splat(b' ')).to_bitmask();
    if stops == 0 {
        LANES
    } else {
        stops.trailing_zeros() as usize
    }
}

// Returns how many bytes at the front of a text are found, 32 at a time, to belong to its first token. The search
// stops at a byte that is a blank or less, and where fewer than 32 bytes are left; so the token may go on.
#[inline(always)]
fn token_front_by_32(text: &[u8]) -> usize
    ensures within { result ≤ length text.now }
    ensures before { (k : ℕ) → k < result → is_separator (slice_index text.now k) ≡ false }
{
    let mut passed = 0;
    while WIDE <= text.len() - passed {
        let run = run_in_32_bytes(text, passed);
        passed += run;
        if run < WIDE {
            return passed;
        }
    }
    passed
}

// Returns how many bytes at the front of a text are found to belong to its first token, of which `passed` were found
// before. It looks at the next 16 bytes, and at the text's last 16 if these overlap or follow them; at nothing if
// fewer than 16 are left. So the token may go on.
#[inline(always)]
fn token_front_by_16(text: &[u8], passed: usize) -> usize
    requires within { passed ≤ length text.now }
    requires before { (k : ℕ) → k < passed → is_separator (slice_index text.now k) ≡ false }
    ensures within { result ≤ length text.now }
    ensures before { (k : ℕ) → k < result → is_separator (slice_index text.now k) ≡ false }
{
    if text.len() - passed < LANES {
        return passed;
    }
    let run = run_in_16_bytes(text, passed);
    let last = text.len() - LANES;
    if run < LANES || passed + LANES < last {
        return passed + run;
    }
    last + run_in_16_bytes(text, last)
}

// Returns how many bytes the token at the front of a text has: those before the first blank or tab, or all if there
// is none.
fn token_length(text: &[u8]) -> usize
    ensures within { result ≤ length text.now }
    ensures before { (k : ℕ) → k < result → is_separator (slice_index text.now k) ≡ false }
    ensures at { result < length text.now → is_separator (slice_index text.now result) ≡ true }
{
    for i in token_front_by_16(text, token_front_by_32(text))..text.len() {
        if is_separator(text[i]) {
            return i;
        }
    }
    text.len()
}

// Returns the first token of a line, and what follows it. None if the line has no token.
pub(crate) fn cut_token(line: &[u8]) -> Option<(&[u8], &[u8])>
    ensures blank { IfNone result (tokens line.now ≡ []) }
    ensures token { IfSome result (λ p. tokens line.now ≡ p.0.now ∷ tokens p.1.now) }
    ensures shorter { IfSome result (λ p. length p.1.now < length line.now) }
{
    let start = blank_length(line);
    if start == line.len() {
        return None;
    }
    let text = &line[start..];
    let end = token_length(text);
    Some(text.split_at(end))
}

// Returns how many tokens a line has.
pub(crate) fn token_count(line: &[u8]) -> usize
    ensures { result ≡ length (tokens line.now) }
{
    let mut rest = line;
    let mut count = 0;
    while let Some((_, after)) = cut_token(rest) {
        rest = after;
        count += 1;
    }
    count
}

// Returns the token at a place of a line, counted from 0. None if the place is the count of tokens or past it.
pub(crate) fn token_at(line: &[u8], i: usize) -> Option<&[u8]>
    ensures { option_copied result ≡ slice_get (tokens line.now) i }
{
    let mut rest = line;
    for passed in 0..i {
        let (_, after) = cut_token(rest)?;
        rest = after;
    }
    let (first, _) = cut_token(rest)?;
    Some(first)
}
