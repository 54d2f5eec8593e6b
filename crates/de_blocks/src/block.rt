// A block that was begun, after the blocks before it.
ghost use Rattle.std.specs.Prelude.{◌≡◌, ◌<◌, ◌≤◌, ◌++◌, [], ◌∷◌, IfOk, List, Ok, OnErr, OnOk, Some, length, ℕ};
ghost use Rattle.spec_text.specs.declared.decimals.Decimal.{Decimal};
ghost use Rattle.spec_intervals.specs.Interval.{IsDistance};
ghost use Rattle.spec_ephemeris.specs.Header.{IsHeader};
ghost use Rattle.spec_ephemeris.specs.Ephemeris.{IsEphemeris};
ghost use Rattle.spec_text.specs.Reading.{reading};
ghost use Rattle.spec_files.specs.BlockRules.{is_too_large};
ghost use Rattle.spec_files.specs.Blocks.{no_blocks, with_numbers};
ghost use Rattle.spec_files.specs.Read.{AreRead};
ghost use Rattle.eph_model.specs.Stores.{IsRounded, cut_to, with_number};
ghost use Rattle.de_blocks.specs.Dates.{AreDates, AreRuled, number_in, ruled_by};
ghost use Rattle.de_blocks.specs.Steps.{Pushes};

use crate::closing::append_block;
use crate::dates::{Dates, RuledNumber};
use crate::rules::{
    check_coefficient, dates_if_rule_met, is_block_skipped, is_too_large_number, read_first_date,
    read_number, read_second_date,
};
use crate::state::Rounding;
use eph_model::{
    BlockStore, Memory, Rounded, is_below_distance_limit, rounded, rounded_pair_by_guess,
};
use spec_ephemeris::Header;
use spec_files::{BrokenRule, ReadError, ruled_at};
use spec_text::Decimal;
use std::alloc::Global;
use std::marker::Model;

/// The blocks that were accepted, and the numbers and the dates of the one that was begun after them.
#[derive(Drop)]
pub(crate) struct OpenBlock {
    store: BlockStore,
    dates: Dates,
    rounding: Rounding,
}

impl Model for OpenBlock {
    ghost use Rattle.eph_model.specs.Stores.{Store};
    ghost use Rattle.de_blocks.specs.Dates.{AreDates};

    ghost Value = { Store };

    ghost view = { λ b. b.store };

    ghost invariant = { λ b. AreDates b.store.numbers b.dates };
}

// Adds a number to the block that was begun, with its rounded pair if pairs are made at once. The only error is out of
// memory, after which nothing has changed.
fn push_by(
    store: &mut BlockStore,
    rounding: Rounding,
    number: Decimal,
    rounded: Option<Rounded>,
) -> Result<(), Memory>
    requires { IsRounded number rounded }
    ensures added { OnOk result (store.new ≡ with_number store.old number) }
    ensures memory { OnErr result (store.new ≡ store.old) }
{
    match rounding {
        Rounding::AtOnce => store.push(number, rounded),
        Rounding::AtEnd => store.push_unrounded(number),
    }
}

impl OpenBlock {
    /// Makes an open block without a number, after no blocks, for the files of this header. It does not allocate.
    pub fn new(alloc: Global, header: Header, rounding: Rounding) -> Self
        requires { IsHeader header }
        ensures accepted { result.accepted ≡ no_blocks header }
        ensures numbers { result.numbers ≡ [] }
    {
        OpenBlock {
            store: BlockStore::new(alloc, header, 0),
            dates: Dates { start: 0, end: 0 },
            rounding,
        }
    }

    /// Returns the header of the files, which meets the rules. The clause `checked` gives callers what holds for the
    /// blocks before.
    pub fn header(&self) -> &Header
        ensures same { result.now ≡ self.now.accepted.header }
        ensures checked { IsEphemeris self.now.accepted }
    {
        self.store.header()
    }

    /// Returns how many numbers of the block that was begun are there.
    pub fn count(&self) -> usize
        ensures { result ≡ length self.now.numbers }
    {
        self.store.count()
    }

    /// Drops all numbers of the block that was begun but the first `count`. The blocks before it stay.
    pub fn truncate(&mut self, count: usize)
        requires { count ≤ length self.old.numbers }
        ensures { self.new ≡ cut_to count self.old }
    {
        self.store.truncate(count);
    }

    // Returns the block's dates once `d` is its next number. The first two numbers of a block are its dates; a later
    // one changes none, and `is_large` says that it is 2^36 or more in magnitude. Errors: the rule that the number
    // breaks at its place.
    fn dates_with(&self, d: Decimal, is_large: bool) -> Result<Dates, BrokenRule>
        requires few { length self.now.numbers < self.now.accepted.header.ncoeff }
        requires size { is_large ≡ is_too_large d }
        ensures { AreRuled self.now.accepted self.now.numbers d result }
    {
        let count = self.store.count();
        if count == 0 {
            read_first_date(d)
        } else if count == 1 {
            read_second_date(&self.store, self.dates.start, d)
        } else {
            let columns = self.store.header().columns.as_slice();
            let ruled = check_coefficient(columns, count as u32 + 1, d, is_large);
            dates_if_rule_met(self.dates, ruled)
        }
    }

    // Checks the next number of the block by the rule of its place. Returns it with its rounded pair, and with the
    // block's dates once it is added. Errors: the rule that it breaks.
    fn check_number(&self, number: Decimal) -> Result<RuledNumber, BrokenRule>
        requires { length self.now.numbers < self.now.accepted.header.ncoeff }
        ensures value { number_in result ≡ ruled_by self.now.accepted self.now.numbers number }
        ensures dates { IfOk result (λ ruled.
            AreDates (self.now.numbers ++ ruled.number ∷ []) ruled.dates) }
        ensures rounded { IfOk result (λ ruled. IsRounded ruled.number ruled.rounded) }
    {
        let rounded = rounded(number);
        let dates = self.dates_with(number, is_too_large_number(number, rounded))?;
        Ok(RuledNumber {
            number,
            rounded,
            dates,
        })
    }

    /// Adds a number that was read on this line to the block, by the rules of its place. Errors: the fault of the
    /// rule that it breaks, or out of memory; the block is then as before. The call is not inlined, since most
    /// numbers take `push_coefficient`'s fast path.
    #[inline(never)]
    pub fn push_number(&mut self, line: u32, number: Decimal) -> Result<(), ReadError>
        requires { length self.old.numbers < self.old.accepted.header.ncoeff }
        ensures pushed { (word : List ℕ) → Ok number ≡ reading word
            → Pushes self.old.accepted self.old.numbers line word result self.new.numbers }
        ensures same { self.new.accepted ≡ self.old.accepted }
    {
        let ruled = ruled_at(line, self.check_number(number))?;
        push_by(&mut self.store, self.rounding, ruled.number, ruled.rounded)?;
        self.dates = ruled.dates;
        Ok(())
    }

    // Adds a coefficient below 2^36 in magnitude, with its rounded pair, to a block that has its two dates. It breaks
    // no rule, so that out of memory is the only error.
    #[inline(always)]
    fn push_small_coefficient(&mut self, number: Decimal, pair: Rounded) -> Result<(), ReadError>
        requires dates { 2 ≤ length self.old.numbers }
        requires rounded { IsRounded number (Some pair) }
        ensures pushed { (line : ℕ) (word : List ℕ) → Ok number ≡ reading word
            → Pushes self.old.accepted self.old.numbers line word result self.new.numbers }
        ensures same { self.new.accepted ≡ self.old.accepted }
    {
        self.store.push(number, Some(pair))?;
        Ok(())
    }

    // Adds a coefficient below 2^36 in magnitude, without its rounded pair, to a block that has its two dates. It
    // breaks no rule, so that out of memory is the only error.
    #[inline(always)]
    fn push_unrounded_coefficient(&mut self, number: Decimal) -> Result<(), ReadError>
        requires dates { 2 ≤ length self.old.numbers }
        requires small { IsDistance number.mant number.exp }
        ensures pushed { (line : ℕ) (word : List ℕ) → Ok number ≡ reading word
            → Pushes self.old.accepted self.old.numbers line word result self.new.numbers }
        ensures same { self.new.accepted ≡ self.old.accepted }
    {
        self.store.push_unrounded(number)?;
        Ok(())
    }

    // Adds a coefficient that was read on this line to a block that has its two dates, with its rounded pair. If one
    // multiplication rounds it, it is below 2^36 and breaks no rule; else all rules are checked. Errors: the fault of
    // the rule that it breaks, or out of memory.
    #[inline(always)]
    fn round_coefficient(&mut self, line: u32, number: Decimal) -> Result<(), ReadError>
        requires few { length self.old.numbers < self.old.accepted.header.ncoeff }
        requires dates { 2 ≤ length self.old.numbers }
        ensures pushed { (word : List ℕ) → Ok number ≡ reading word
            → Pushes self.old.accepted self.old.numbers line word result self.new.numbers }
        ensures same { self.new.accepted ≡ self.old.accepted }
    {
        match rounded_pair_by_guess(number) {
            Some(pair) => self.push_small_coefficient(number, pair),
            None => self.push_number(line, number),
        }
    }

    // Adds a coefficient that was read on this line to a block that has its two dates, without its rounded pair. If it
    // is below 2^36, it breaks no rule; else all rules are checked. Errors: the fault of the rule that it breaks, or out
    // of memory.
    #[inline(always)]
    fn check_coefficient_alone(&mut self, line: u32, number: Decimal) -> Result<(), ReadError>
        requires few { length self.old.numbers < self.old.accepted.header.ncoeff }
        requires dates { 2 ≤ length self.old.numbers }
        ensures pushed { (word : List ℕ) → Ok number ≡ reading word
            → Pushes self.old.accepted self.old.numbers line word result self.new.numbers }
        ensures same { self.new.accepted ≡ self.old.accepted }
    {
        if is_below_distance_limit(number) {
            self.push_unrounded_coefficient(number)
        } else {
            self.push_number(line, number)
        }
    }

    /// Adds a coefficient that was read on this line to a block that has its two dates, with its rounded pair unless the
    /// numbers before it lack theirs. Errors: the fault of the rule that it breaks, or out of memory.
    #[inline(always)]
    pub fn push_coefficient(&mut self, line: u32, number: Decimal) -> Result<(), ReadError>
        requires few { length self.old.numbers < self.old.accepted.header.ncoeff }
        requires dates { 2 ≤ length self.old.numbers }
        ensures pushed { (word : List ℕ) → Ok number ≡ reading word
            → Pushes self.old.accepted self.old.numbers line word result self.new.numbers }
        ensures same { self.new.accepted ≡ self.old.accepted }
    {
        if self.store.lacks_pairs() {
            self.check_coefficient_alone(line, number)
        } else {
            self.round_coefficient(line, number)
        }
    }

    /// Reads a word of this line as a number, and adds it to the block by the rules of its place. Errors: the fault
    /// of the rule that the word or the number breaks, or out of memory. The call is not inlined, since numbers in
    /// JPL's form are read without it.
    #[inline(never)]
    pub fn push_word(&mut self, line: u32, word: &[u8]) -> Result<(), ReadError>
        requires { length self.old.numbers < self.old.accepted.header.ncoeff }
        ensures pushed { Pushes self.old.accepted self.old.numbers line word.now result
            self.new.numbers }
        ensures same { self.new.accepted ≡ self.old.accepted }
    {
        let number = ruled_at(line, read_number(word))?;
        self.push_number(line, number)
    }

    /// Makes the whole block one of those before it, and begins a block without a number. If the block ends no later
    /// than the last of those before it, its numbers are dropped. The call is not inlined, since it comes once a
    /// block.
    #[inline(never)]
    pub fn accept(&mut self)
        requires checked { IsEphemeris self.old.accepted }
        requires read { AreRead self.old.accepted self.old.numbers }
        requires whole { length self.old.numbers ≡ self.old.accepted.header.ncoeff }
        ensures accepted { self.new.accepted ≡ with_numbers self.old.accepted self.old.numbers }
        ensures numbers { self.new.numbers ≡ [] }
    {
        if is_block_skipped(&self.store, self.dates.end) {
            self.store.truncate(0);
        } else {
            append_block(&mut self.store, self.dates.start);
        }
    }

    /// Returns the store of the blocks that were accepted, with the numbers of the block that was begun after them.
    pub fn finish(self) -> BlockStore
        ensures { result ≡ self }
    {
        self.store
    }
}
