// What lies under the lock: the entries, and beside them an index of the leaves, the sum of their widths and the
// counts of seats.
ghost use Rattle.std.specs.Prelude.{◌≡◌, ◌-◌, ◌-ℤ◌, ◌+◌, ◌^◌, ◌<◌, ◌≤◌, [], ◌∷◌, ◌++◌, length, Some, None, IsSome, IfSome, IfNone, IfOk, OnErr};
ghost use Rattle.std.specs.Int.RustNames.{unsigned_abs};
ghost use Rattle.std.specs.BTreeMap.{get, Updates, IsUnchanged};
ghost use Rattle.std.specs.Option.{unwrap_or};
ghost use Rattle.spec_pool.specs.History.{Fresh, Stands};
ghost use Rattle.spec_pool.specs.Marks.{mark_number};
ghost use Rattle.span_ledger.specs.Indexes.{key_cmp, key_of};

use spec_trees::{Booked, Leaf, Mark, Turn};
use std::alloc::{AllocError, Global};
use std::collections::BTreeMap;
use std::marker::Model;

// The key of a leaf in the index: its two ends, its depth and the number of its mark.
type Key = ((i64, i64), (u32, u32));

/// A history, with an index of its leaves. Contracts see the list of its entries. The index has the ends, the depth and
/// the mark's number of each leaf, in this order, and its place.
#[derive(Drop)]
pub struct Register {
    entries: Vec<Booked>,
    index: BTreeMap<Key, u32>,
    width: u128,
    counts: [u32; 64],
}

impl Model for Register {
    ghost use Rattle.std.specs.Prelude.{List};
    ghost use Rattle.spec_trees.specs.declared.book.Booked.{Booked};
    ghost use Rattle.span_ledger.specs.Indexes.{Registered};

    ghost Value = { List Booked };

    ghost view = { λ r. r.entries.items };

    ghost invariant = { λ r. Registered r.entries.items r.index r.width r.counts };
}

// Returns the number of a mark in a key of the index: 0 for clear, 1 for a rise, 2 for a fall, 3 for undecided.
fn mark_number(mark: Mark) -> u32
    ensures { result ≡ mark_number mark }
{
    match mark {
        Mark::Clear => 0,
        Mark::One(Turn::Rise) => 1,
        Mark::One(Turn::Fall) => 2,
        Mark::Undecided => 3,
    }
}

// Returns the key under which the index keeps a leaf: its two times, its depth and the number of its mark. Two leaves
// have the same key only if they are equal.
fn leaf_key(leaf: Leaf) -> Key
    ensures { result ≡ key_of leaf }
{
    (
        (leaf.node.a, leaf.node.b),
        (leaf.node.depth, mark_number(leaf.mark)),
    )
}

// Returns the width of a leaf, in ticks: the distance between its two times. It is at most 2^64, so that 128 bits hold
// the sum of the widths of all entries.
fn leaf_width(leaf: Leaf) -> u128
    ensures value { result ≡ unsigned_abs (leaf.node.b -ℤ leaf.node.a) }
    ensures bound { result ≤ 2 ^ 64 }
{
    leaf.node.b.abs_diff(leaf.node.a) as u128
}

// Returns the place that the index has at a key. A key that it lacks is given `place`, which is returned then. It takes
// one look-up. The only error is out of memory, for a key that the index lacks, and the index is unchanged then.
fn place_of_key(index: &mut BTreeMap<Key, u32>, key: Key, place: u32) -> Result<u32, AllocError>
    ensures value { IfOk result (λ found. found ≡ unwrap_or (get key_cmp index.old key) place) }
    ensures updates { IfOk result (λ found. Updates key_cmp index.old index.new key (Some found)) }
    ensures absent { OnErr result (get key_cmp index.old key ≡ None) }
    ensures err { OnErr result (IsUnchanged index.old index.new) }
{
    let Ok(slot) = index.entry(key) else {
        return Err(AllocError);
    };
    Ok(*slot.or_insert(place))
}

impl Register {
    /// Makes a register without entries.
    pub fn new(alloc: Global) -> Register
        ensures { result ≡ [] }
    {
        let counts = [0; 64];
        Register {
            entries: Vec::new(alloc),
            index: BTreeMap::new(alloc),
            width: 0,
            counts,
        }
    }

    /// Returns the number of entries in the register.
    pub fn len(&self) -> usize
        ensures { result ≡ length self.now }
    {
        self.entries.len()
    }

    /// Returns the place of a leaf among the entries, counted from 0, or none if no entry has the leaf. It takes one
    /// look-up in the index.
    pub fn find(&self, leaf: Leaf) -> Option<u32>
        ensures some { IfSome result (λ place. Stands leaf self.now place) }
        ensures none { IfNone result (Fresh leaf self.now) }
    {
        self.index.get(&leaf_key(leaf)).copied()
    }

    /// Appends an entry, unless an entry has its leaf already: then the place of that one is returned, and the register
    /// is unchanged. A new entry is counted in the index, the sum of widths and its seat's count. It takes one look-up
    /// in the index. The only error is out of memory, for a new leaf, and the register is unchanged then.
    pub fn enter(&mut self, entry: Booked) -> Result<Option<u32>, AllocError>
        requires room { length self.old < 2 ^ 32 - 1 }
        requires seat { entry.seat < 64 }
        ensures fresh { IfOk result (λ stands. IfNone stands (Fresh entry.leaf self.old)) }
        ensures added { IfOk result (λ stands. IfNone stands
            (self.new ≡ self.old ++ entry ∷ [])) }
        ensures again { IfOk result (λ stands. IfSome stands
            (λ place. Stands entry.leaf self.old place)) }
        ensures same { IfOk result (λ stands. IsSome stands → self.new ≡ self.old) }
        ensures lacks { OnErr result (Fresh entry.leaf self.old) }
        ensures err { OnErr result (self.new ≡ self.old) }
    {
        let place = self.entries.len() as u32;
        let wide = leaf_width(entry.leaf);
        let Ok(_) = self.entries.push(entry) else {
            // A leaf that stands already needs no memory.
            let Some(stands) = self.find(entry.leaf) else {
                return Err(AllocError);
            };
            return Ok(Some(stands));
        };
        let Ok(stands) = place_of_key(&mut self.index, leaf_key(entry.leaf), place) else {
            self.entries.pop();
            return Err(AllocError);
        };
        if stands != place {
            // Another place than that behind all others: the leaf stands there already.
            self.entries.pop();
            return Ok(Some(stands));
        }
        self.counts[entry.seat as usize] += 1;
        self.width += wide;
        Ok(None)
    }

    /// Turns the register into the list of its entries, in order of arrival. What was kept beside them is dropped.
    pub fn into_entries(self) -> Vec<Booked>
        ensures { result.items ≡ self }
    {
        let Register {
            entries,
            index: _,
            width: _,
            counts: _,
        } = self;
        entries
    }
}
