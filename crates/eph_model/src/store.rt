// The store of an ephemeris whose blocks are being read.
ghost use Rattle.std.specs.Prelude.{◌≡◌, ◌<◌, ◌≤◌, [], OnOk, OnErr, length};
ghost use Rattle.spec_ephemeris.specs.declared.limits.TheConstants.{MAX_BLOCKS};
ghost use Rattle.spec_ephemeris.specs.Header.{IsHeader};
ghost use Rattle.spec_ephemeris.specs.Ephemeris.{IsBlock, IsEphemeris, IsStart, empty_ephemeris, end_of};
ghost use Rattle.eph_model.specs.Stores.{IsRounded, closed, cut_to, store_starting_at, with_number};

use crate::ephemeris::{Ephemeris, Memory};
use crate::rounding::{pair_or_zeros, push_lacking_pairs, push_pair};
use spec_ephemeris::{Header, Rounded};
use spec_text::Decimal;
use std::alloc::Global;
use std::marker::Model;

/// A checked ephemeris whose blocks are still read. After its blocks, in the same store, stand the numbers of a block
/// that was started. The first numbers have their rounded pairs, and there is room for those of the others. Times are
/// seconds of TDB since J2000.
#[derive(Drop)]
pub struct BlockStore {
    header: Header,
    start: i64,
    blocks: u32,
    numbers: Vec<Decimal>,
    pairs: Vec<Rounded>,
}

impl Model for BlockStore {
    ghost use Rattle.spec_ephemeris.specs.Ephemeris.{IsEphemeris};
    ghost use Rattle.eph_model.specs.Pairs.{BeginWithPairs};
    ghost use Rattle.eph_model.specs.Stores.{Store};
    ghost use Rattle.std.specs.Prelude.{◌*◌, ◌≤◌, take, drop, length, vec_capacity};

    ghost Value = { Store };

    ghost view = { λ s. record {
      accepted = record {
        header = s.header;
        start = s.start;
        blocks = s.blocks;
        numbers = take (s.blocks * s.header.ncoeff) s.numbers.items;
      };
      numbers = drop (s.blocks * s.header.ncoeff) s.numbers.items;
    } };

    ghost invariant = { λ s. IsEphemeris (record {
      header = s.header;
      start = s.start;
      blocks = s.blocks;
      numbers = take (s.blocks * s.header.ncoeff) s.numbers.items;
    }) × BeginWithPairs s.numbers.items s.pairs.items
        × (length s.numbers.items ≤ vec_capacity s.pairs) };
}

impl BlockStore {
    /// Makes a store without a number, whose first block will start at `start`. It does not allocate.
    pub fn new(alloc: Global, header: Header, start: i64) -> Self
        requires header { IsHeader header }
        requires start { IsStart start }
        ensures accepted { result.accepted ≡ empty_ephemeris header start }
        ensures numbers { result.numbers ≡ [] }
    {
        BlockStore {
            header,
            start,
            blocks: 0,
            numbers: Vec::new(alloc),
            pairs: Vec::new(alloc),
        }
    }

    // Returns how many numbers the whole blocks have together. The numbers of a block that was started stand after
    // these.
    fn whole_block_number_count(&self) -> usize
        ensures { result ≡ length self.now.accepted.numbers }
    {
        self.blocks as usize * self.header.ncoeff as usize
    }

    /// Returns how many numbers of the block that was started are in the store.
    pub fn count(&self) -> usize
        ensures { result ≡ length self.now.numbers }
    {
        self.numbers.len() - self.whole_block_number_count()
    }

    /// Tells whether a number lacks its pair, so that `push` keeps none. No contract speaks of pairs that are kept.
    #[inline(always)]
    pub fn lacks_pairs(&self) -> bool {
        self.pairs.len() < self.numbers.len()
    }

    /// Adds a number, a Julian date or a coefficient in km, to the block that was started, without its pair, for which
    /// there is room then. After `Memory` nothing has changed.
    #[inline(always)]
    pub fn push_unrounded(&mut self, number: Decimal) -> Result<(), Memory>
        ensures added { OnOk result (self.new ≡ with_number self.old number) }
        ensures memory { OnErr result (self.new ≡ self.old) }
    {
        let paired = self.pairs.len();
        let count = self.numbers.len();
        self.pairs.reserve(count - paired + 1)?;
        self.numbers.push(number)?;
        Ok(())
    }

    /// Adds a number, a Julian date or a coefficient in km, to the block that was started, with its pair, rounded
    /// outward. Without a pair, zeros are kept beside the number; and none is kept after a number that lacks its own.
    /// After `Memory` nothing has changed.
    #[inline(always)]
    pub fn push(&mut self, number: Decimal, rounded: Option<Rounded>) -> Result<(), Memory>
        requires { IsRounded number rounded }
        ensures added { OnOk result (self.new ≡ with_number self.old number) }
        ensures memory { OnErr result (self.new ≡ self.old) }
    {
        let paired = self.pairs.len();
        let count = self.numbers.len();
        if paired < count {
            return self.push_unrounded(number);
        }
        self.pairs.reserve(1)?;
        self.numbers.push(number)?;
        push_pair(&mut self.pairs, pair_or_zeros(rounded))?;
        Ok(())
    }

    /// Drops all numbers of the block that was started but the first `count`. The whole blocks stay.
    pub fn truncate(&mut self, count: usize)
        requires { count ≤ length self.old.numbers }
        ensures { self.new ≡ cut_to count self.old }
    {
        let dropped = self.count() - count;
        let kept = self.numbers.len() - dropped;
        self.numbers.truncate(kept);
        self.pairs.truncate(kept);
    }

    /// Counts the block that was started as one of the whole blocks, after the last. Its numbers have to be whole:
    /// two Julian dates, and the coefficients of its columns.
    pub fn close_block(&mut self)
        requires block { IsBlock self.old.accepted.header self.old.numbers }
        requires room { self.old.accepted.blocks < MAX_BLOCKS }
        ensures { self.new ≡ closed self.old }
    {
        self.blocks += 1;
    }

    /// Sets the time at which the first block starts, in seconds of TDB since J2000. The others follow it.
    pub fn start_at(&mut self, start: i64)
        requires { IsStart start }
        ensures { self.new ≡ store_starting_at self.old start }
    {
        self.start = start;
    }

    /// Returns the time at which the first block starts, in seconds of TDB since J2000.
    pub fn start(&self) -> i64
        ensures { result ≡ self.now.accepted.start }
    {
        self.start
    }

    /// Returns the time at which the last of the whole blocks ends, in seconds of TDB since J2000. Without a block it
    /// is the start.
    pub fn end(&self) -> i64
        ensures { result ≡ end_of self.now.accepted }
    {
        self.start + i64::from(self.blocks) * self.header.block_seconds
    }

    /// Returns the number of whole blocks.
    pub fn blocks(&self) -> u32
        ensures { result ≡ self.now.accepted.blocks }
    {
        self.blocks
    }

    /// Returns the header, which meets the rules. The clause `checked` gives callers what holds for the whole blocks.
    pub fn header(&self) -> &Header
        ensures same { result.now ≡ self.now.accepted.header }
        ensures checked { IsEphemeris self.now.accepted }
    {
        &self.header
    }

    /// Returns the ephemeris of the whole blocks. The numbers of a block that was started are dropped, and those that
    /// lack their pairs get them.
    pub fn finish(self) -> Ephemeris
        ensures { result ≡ self.accepted }
    {
        let whole = self.whole_block_number_count();
        let mut numbers = self.numbers;
        let mut pairs = self.pairs;
        numbers.truncate(whole);
        pairs.truncate(whole);
        push_lacking_pairs(&mut pairs, &numbers);
        Ephemeris {
            header: self.header,
            start: self.start,
            blocks: self.blocks,
            numbers,
            pairs,
        }
    }
}
