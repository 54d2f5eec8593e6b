// The sign of the function of a search at a time, in a word that workers share.
ghost use Rattle.std.specs.Prelude.{◌≡◌, ◌^◌, ◌+ℤ◌, IfSome, pos};
ghost use Rattle.spec_bounds.specs.Steady.{sign_at};
ghost use Rattle.event_judge.specs.Memory.{KeepsSign, code_of, sign_word};

use crate::naming::Naming;
use crate::search_time::SearchTime;
use ival_core::Sign;
use std::marker::PhantomData;
use std::sync::atomic::Rule;

/// The rule of a word for a sign: the function has this sign at the time in the word.
pub(crate) struct OfSign<N> {
    of: PhantomData<N>,
}

impl<N: Naming> Rule for OfSign<N> {
    ghost use Rattle.event_judge.specs.Memory.{KeepsSign};

    ghost invariant = { KeepsSign N.search };
}

// Returns the number from 1 to 3 that stands for a sign in a word.
#[inline(always)]
fn sign_code(sign: Sign) -> u64
    ensures { result ≡ code_of sign }
{
    match sign {
        Sign::Yes => 1,
        Sign::No => 2,
        Sign::Open => 3,
    }
}

// Returns by how many ticks a time is after -2^51, the first time for which there is a word.
#[inline(always)]
fn ticks_after_first(time: SearchTime) -> u64
    ensures { pos result ≡ time.entry.time +ℤ pos (2 ^ 51) }
{
    (time.time + (1 << 51)).unsigned_abs()
}

/// Returns the word for a sign at a time: four times the distance from the first time, and the number of the sign.
#[inline(always)]
pub(crate) fn sign_word(time: SearchTime, sign: Sign) -> u64
    ensures { pos result ≡ sign_word time.entry.time sign }
{
    ticks_after_first(time) * 4 + sign_code(sign)
}

/// Returns the sign that a word has for a time, or none if the word is for another time or for nothing.
#[inline(always)]
pub(crate) fn read_sign<N: Naming>(word: u64, time: SearchTime) -> Option<Sign>
    requires { KeepsSign N.search word }
    ensures { IfSome result (λ sign. sign_at N.search time.entry.time ≡ sign) }
{
    if word == sign_word(time, Sign::Yes) {
        Some(Sign::Yes)
    } else if word == sign_word(time, Sign::No) {
        Some(Sign::No)
    } else if word == sign_word(time, Sign::Open) {
        Some(Sign::Open)
    } else {
        None
    }
}
