// The memory of a search, in words that workers share: signs of its function.
ghost use Rattle.std.specs.Prelude.{◌≡◌, IfSome};
ghost use Rattle.spec_bounds.specs.Steady.{sign_at};

use crate::naming::Naming;
use crate::search_time::SearchTime;
use crate::sign_words::{OfSign, read_sign, sign_word};
use ival_core::Sign;
use std::alloc::{AllocError, Global};
use std::sync::atomic::Ordering::SeqCst;
use std::sync::atomic::{AtomicIn, AtomicU64, Rule};

/// The number of signs that are kept.
const SIGNS: usize = 256;

/// An odd number by which the places of words are spread.
const SPREAD: u64 = 0x9E37_79B9_7F4A_7C15;

/// The memory of a search: signs of its function at times. What is kept may replace what was.
#[derive(Drop)]
pub(crate) struct Memory<N: Naming> {
    signs: Vec<AtomicIn<OfSign<N>>>,
    /// The number 1 if the last node judged by enclosure had a turn between its ends, else 0. No result depends on it.
    turned: AtomicU64,
}

// Returns `count` words that keep nothing: 0 is the word for no sign. The only error is out of memory.
fn empty_words<R: Rule>(alloc: Global, count: usize) -> Result<Vec<AtomicIn<R>>, AllocError>
    requires { R.invariant 0 }
{
    let mut words = Vec::with_capacity(alloc, count)?;
    for _ in 0..count {
        words.push(AtomicIn::<R>::new(0))?;
    }
    Ok(words)
}

// Returns the place, from 0 to 255, of the word for a time. The product with an odd number spreads neighbouring times.
#[inline(always)]
fn word_place(number: u64) -> usize {
    (number.wrapping_mul(SPREAD) >> 56) as usize
}

impl<N: Naming> Memory<N> {
    /// Makes a memory that has kept nothing yet. The only error is out of memory.
    pub(crate) fn new(alloc: Global) -> Result<Memory<N>, AllocError> {
        Ok(Memory {
            signs: empty_words::<OfSign<N>>(alloc, SIGNS)?,
            turned: AtomicU64::new(0),
        })
    }

    /// Returns the sign of the function at a time if it is remembered, or none.
    #[inline(always)]
    pub(crate) fn remembered_sign(&self, time: SearchTime) -> Option<Sign>
        ensures { IfSome result (λ sign. sign_at N.search time.entry.time ≡ sign) }
    {
        match self.signs.get(word_place(time.time.cast_unsigned())) {
            Some(word) => read_sign::<N>(word.load(SeqCst), time),
            None => None,
        }
    }

    /// Keeps the sign of the function at a time, in the place of another time's if their words share it.
    #[inline(always)]
    pub(crate) fn keep_sign(&self, time: SearchTime, sign: Sign)
        requires { sign_at N.search time.time ≡ sign }
    {
        if let Some(word) = self.signs.get(word_place(time.time.cast_unsigned())) {
            word.store(sign_word(time, sign), SeqCst);
        }
    }

    /// Tells whether the next node of which nothing is remembered likely has a turn between its ends, as the last had.
    pub(crate) fn expects_turn(&self) -> bool {
        self.turned.load(SeqCst) == 1
    }

    /// Keeps whether a node of which nothing was remembered had a turn between its ends. No result depends on it.
    pub(crate) fn keep_turn(&self, turns: bool) {
        self.turned.store(u64::from(turns), SeqCst);
    }
}
