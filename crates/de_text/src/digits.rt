// Digits, and the number that they write.
ghost use Rattle.std.specs.Prelude.{◌≡◌, ◌≤◌, ◌+◌, ◌*◌, ◌^◌, ◌<◌, [], IfSome, IsTrue, drop, length, min};
ghost use Rattle.spec_text.specs.Decimals.{AreDigits, value, value_after};
ghost use Rattle.spec_text.specs.Splitting.{digits_at};

use crate::eights::{take_eight_digits, take_sixteen_digits};

// Ten to the number of digits that a decimal may have. A greater number counts as this one.
pub(crate) const CAP: u64 = 1_000_000_000_000_000_000;

// The digits at the front of a text: the number that they write after an earlier one, at most `CAP`, and how many
// there are.
#[derive(Clone, Copy)]
pub(crate) struct Digits<'a> {
    pub number: u64,
    pub count: usize,
    pub rest: &'a [u8],
}

// Returns how many digits stand at the front of a text, before its first byte that is none.
#[tactic(auto, using(crate::proofs::Fronts::digits_more, crate::proofs::Fronts::digits_end))]
fn digit_count(text: &[u8]) -> usize
    ensures count { result ≡ length (digits_at text.now).0 }
    ensures within { result ≤ length text.now }
    ensures rest { drop result text.now ≡ (digits_at text.now).1 }
{
    for (i, b) in text.iter().enumerate() {
        if !b.is_ascii_digit() {
            return i;
        }
    }
    text.len()
}

// Reads the digits at the front of a text, one by one, as if they followed those of the number `start`. A number past
// 10^18 counts as 10^18, from where on digits are only counted.
#[tactic(auto, using(crate::proofs::Fronts::digits_more, crate::proofs::Fronts::digits_end, crate::proofs::Fronts::value_step))]
pub(crate) fn take_digits(start: u64, text: &[u8]) -> Digits<'_>
    requires { start ≤ 10 ^ 18 }
    ensures number { result.number ≡ min (value_after start (digits_at text.now).0) (10 ^ 18) }
    ensures count { result.count ≡ length (digits_at text.now).0 }
    ensures rest { result.rest.now ≡ (digits_at text.now).1 }
{
    let mut number = start;
    for (i, b) in text.iter().enumerate() {
        if !b.is_ascii_digit() {
            return Digits {
                number: number.min(CAP),
                count: i,
                rest: &text[i..],
            };
        }
        if number >= CAP {
            let count = i + digit_count(&text[i..]);
            return Digits {
                number: CAP,
                count,
                rest: &text[count..],
            };
        }
        number = 10 * number + u64::from(*b - b'0');
    }
    Digits {
        number: number.min(CAP),
        count: text.len(),
        rest: &[],
    }
}

// Tells whether no digit stands at this place of a text. That holds too if the text ends there.
#[tactic(auto, using(crate::proofs::Fronts::digits_end, crate::proofs::Fronts::digits_none))]
#[inline(always)]
fn has_no_digit_at(text: &[u8], at: usize) -> bool
    requires { at ≤ length text.now }
    ensures { IsTrue result → digits_at (drop at text.now) ≡ ([], drop at text.now) }
{
    if at < text.len() {
        !text[at].is_ascii_digit()
    } else {
        true
    }
}

// Reads the digits at the front of a text, as if they followed those of the number `start`, if there are exactly two.
// None if there are more or fewer.
#[inline(always)]
pub(crate) fn take_two_digits(start: u64, text: &[u8]) -> Option<Digits<'_>>
    requires { start < 10 ^ 16 }
    ensures number { IfSome result (λ d. d.number
        ≡ min (value_after start (digits_at text.now).0) (10 ^ 18)) }
    ensures count { IfSome result (λ d. d.count ≡ length (digits_at text.now).0) }
    ensures rest { IfSome result (λ d. d.rest.now ≡ (digits_at text.now).1) }
    ensures two { IfSome result (λ d. d.count ≡ 2) }
    ensures few { IfSome result (λ d. d.number < 100 * (start + 1)) }
{
    if text.len() < 2 || !text[0].is_ascii_digit() || !text[1].is_ascii_digit() {
        return None;
    }
    if !has_no_digit_at(text, 2) {
        return None;
    }
    let number = 10 * start + u64::from(text[0] - b'0');
    Some(Digits {
        number: 10 * number + u64::from(text[1] - b'0'),
        count: 2,
        rest: &text[2..],
    })
}

// Reads the digits at the front of a text, if there are exactly eighteen: sixteen at once, and the last two. None if
// there are more or fewer.
#[inline(always)]
pub(crate) fn take_eighteen_digits(text: &[u8]) -> Option<Digits<'_>>
    ensures number { IfSome result (λ d. d.number ≡ min (value (digits_at text.now).0) (10 ^ 18)) }
    ensures few { IfSome result (λ d. d.number < 10 ^ 18) }
    ensures count { IfSome result (λ d. d.count ≡ length (digits_at text.now).0) }
    ensures rest { IfSome result (λ d. d.rest.now ≡ (digits_at text.now).1) }
{
    let (number, rest) = take_sixteen_digits(text)?;
    let last = take_two_digits(number, rest)?;
    Some(Digits {
        number: last.number,
        count: 16 + last.count,
        rest: last.rest,
    })
}

// Reads the digits at the front of a text, as if they followed those of the number `start`: eight at a time, and the
// last ones one by one. A number past 10^18 counts as 10^18.
pub(crate) fn take_many_digits(start: u64, text: &[u8]) -> Digits<'_>
    requires { start ≤ 10 ^ 18 }
    ensures number { result.number ≡ min (value_after start (digits_at text.now).0) (10 ^ 18) }
    ensures count { result.count ≡ length (digits_at text.now).0 }
    ensures rest { result.rest.now ≡ (digits_at text.now).1 }
{
    let mut number = start;
    let mut rest = text;
    let mut count = 0;
    while let Some((longer, after)) = take_eight_digits(number, rest) {
        number = longer;
        rest = after;
        count += 8;
    }
    let last = take_digits(number, rest);
    Digits {
        number: last.number,
        count: count + last.count,
        rest: last.rest,
    }
}

// Returns the number that the digits write, as if they followed those of the number `start`. A number past 10^18
// counts as 10^18.
#[tactic(auto, using(crate::proofs::Values::digit_at, crate::proofs::Values::capped_more))]
pub(crate) fn capped_number(start: u64, digits: &[u8]) -> u64
    requires cap { start ≤ 10 ^ 18 }
    requires digits { AreDigits digits.now }
    ensures { result ≡ min (value_after start digits.now) (10 ^ 18) }
{
    let mut n = start;
    for b in digits {
        n = (10 * n + u64::from(*b - b'0')).min(CAP);
    }
    n
}
