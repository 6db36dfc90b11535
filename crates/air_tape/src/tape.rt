//! A tape, and receipts for what it holds.
ghost use Rattle.std.specs.Prelude.{◌≡◌, ℕ, ◌+◌, ◌^◌, ◌<◌, ◌≤◌, List, [], ◌∷◌, length, ⊤, IfSome, IfOk};
ghost use Rattle.boxcar.specs.Slot.{Named, named_coded};
ghost use Rattle.air_tape.specs.Tapes.{span, first, Numbered, IsAt, id_at, Where, where_coded, Shows};

use boxcar::slot::{OnceSlot, SlotRule, Written};
use boxcar::tag::{Names, Tag};
use std::alloc::{AllocError, Global};
use std::cell::Cell;
use std::marker::Model;

// The number of buckets. Bucket k has 32 * 2^k slots, so no slot is ever moved.
const BUCKETS: usize = 58;

// One past the highest index.
const LIMIT: usize = 0x7fff_ffff_ffff_ffe0;

/// A slot of a tape may hold any value.
pub struct Anything;

impl<T> SlotRule<T> for Anything {
    ghost holds = { λ _ _. ⊤ };
}

type Row<T> = Vec<OnceSlot<T, Anything>>;

/// A bucket has the number of slots that belongs to its place.
pub struct Bucket;

impl<T> SlotRule<Vec<OnceSlot<T, Anything>>> for Bucket {
    ghost holds = { λ t b. length b.items ≡ span (first t) };
}

// The place of a bucket.
struct Number;

impl Names<usize> for Number {
    ghost numbers = { λ n. n ∷ [] };
}

// The places of all buckets, none of which has slots yet.
fn new_buckets<T: Drop>(
    alloc: Global,
) -> Result<Vec<OnceSlot<Vec<OnceSlot<T, Anything>>, Bucket>>, AllocError>
    ensures { IfOk result (λ v. Numbered v.items) }
{
    let mut slots = Vec::with_capacity(alloc, BUCKETS)?;
    let mut k = 0;
    while k < BUCKETS {
        slots.push_reserved(OnceSlot::new(&Tag::of::<usize, Number>(&k)));
        k += 1;
    }
    Ok(slots)
}

// The slots of a bucket.
fn new_row<T: Drop>(alloc: Global, len: usize) -> Result<Vec<OnceSlot<T, Anything>>, AllocError>
    ensures { IfOk result (λ v. length v.items ≡ len) }
{
    let mut slots = Vec::with_capacity(alloc, len)?;
    let mut j = 0;
    while j < len {
        slots.push_reserved(OnceSlot::new(&Tag::empty()));
        j += 1;
    }
    Ok(slots)
}

// The number of slots of a bucket.
fn bucket_len(bucket: usize) -> usize
    requires { bucket < 58 }
    ensures { (result ≡ span bucket) × (result + result < 2 ^ 64) }
{
    32 << bucket
}

// The bucket and the slot of an index.
fn locate(index: usize) -> (usize, usize)
    requires { index + 32 < 2 ^ 63 }
    ensures { IsAt index result.0 result.1 }
{
    let skewed = index + 32;
    let bucket = skewed.ilog2() as usize - 5;
    (bucket, skewed - bucket_len(bucket))
}

/// Values that are written one after another, each once, behind a `&`. A clause sees the names of its buckets, by which
/// receipts are known to be this tape's.
#[derive(Drop)]
pub struct Tape<T: Drop> {
    buckets: Vec<OnceSlot<Vec<OnceSlot<T, Anything>>, Bucket>>,
    alloc: Global,
    len: Cell<usize>,
}

impl<T: Drop> Model for Tape<T> {
    ghost Value = { List Named };

    ghost view = { λ t. t.buckets.items };

    ghost invariant = { λ t. Numbered t.buckets.items };
}

/// Shows that a tape holds a value at an index. It can be copied ([`again`](Receipt::again)) and outlives the tape.
#[derive(Drop)]
pub struct Receipt<T: Drop> {
    index: usize,
    bucket: usize,
    slot: usize,
    row: Written<Vec<OnceSlot<T, Anything>>>,
    item: Written<T>,
}

impl<T: Drop> Model for Receipt<T> {
    ghost Value = { Where T };

    ghost coded = { where_coded T.code };

    ghost view = { λ p. record {
      index = p.index;
      value = p.item.value;
      bucket = p.bucket;
      row = p.row.of;
      item = p.item.of;
    } };

    ghost invariant = { λ p. IsAt p.index p.bucket p.slot × (p.item.of ≡ id_at p.row.value.items p.slot) };
}

impl<T: Drop> Tape<T> {
    /// An empty tape. If there is no memory for its buckets, each push fails.
    pub fn new(alloc: Global) -> Tape<T> {
        let buckets = match new_buckets(alloc) {
            Ok(buckets) => buckets,
            Err(_) => Vec::new(alloc),
        };
        Tape {
            buckets,
            alloc,
            len: Cell::new(0),
        }
    }

    // The slots of a bucket, which are made if they aren't there.
    fn row(&self, bucket: usize) -> Option<Written<Vec<OnceSlot<T, Anything>>>>
        requires { bucket < 58 }
        ensures { IfSome result (λ w. (w.of ≡ id_at self.now bucket) × (bucket < length self.now)) }
    {
        if bucket >= self.buckets.len() {
            return None;
        }
        if let Some(row) = self.buckets[bucket].witness() {
            return Some(row);
        }
        let slots = new_row(self.alloc, bucket_len(bucket)).ok()?;
        self.buckets[bucket].set_written(slots).ok()
    }

    /// Writes a value after those that the tape holds, or answers none, when out of memory.
    pub fn push(&self, value: T) -> Option<Receipt<T>>
        ensures { IfSome result (λ p. Shows self.now p × (p.value ≡ value)) }
    {
        let index = self.len.get();
        if index >= LIMIT {
            return None;
        }
        let (bucket, slot) = locate(index);
        let row = self.row(bucket)?;
        match self.buckets[bucket].value(&row)[slot].set_written(value) {
            Ok(item) => {
                self.len.set(index + 1);
                Some(Receipt {
                    index,
                    bucket,
                    slot,
                    row,
                    item,
                })
            }
            Err(_) => None,
        }
    }

    /// The number of values that the tape holds. No clause says so: the count is in a cell.
    pub fn len(&self) -> usize {
        self.len.get()
    }

    /// A receipt for the value at an index, if there is one.
    pub fn witness(&self, index: usize) -> Option<Receipt<T>>
        ensures { IfSome result (λ p. (p.index ≡ index) × Shows self.now p) }
    {
        if index >= LIMIT {
            return None;
        }
        let (bucket, slot) = locate(index);
        if bucket >= self.buckets.len() {
            return None;
        }
        let row = self.buckets[bucket].witness()?;
        let item = self.buckets[bucket].value(&row)[slot].witness()?;
        Some(Receipt {
            index,
            bucket,
            slot,
            row,
            item,
        })
    }

    /// The value of a receipt of this tape.
    pub fn value<'a>(&'a self, receipt: &Receipt<T>) -> &'a T
        requires { Shows self.now receipt.now }
        ensures { result.now ≡ receipt.now.value }
    {
        self.buckets[receipt.bucket].value(&receipt.row)[receipt.slot].value(&receipt.item)
    }
}

impl<T: Drop> Receipt<T> {
    /// The index of the value.
    pub fn index(&self) -> usize
        ensures { result ≡ self.now.index }
    {
        self.index
    }

    /// At one index a tape holds one value. Does nothing; its contract is what it is for.
    pub fn agrees(&self, other: &Receipt<T>)
        requires rows { self.now.bucket ≡ other.now.bucket → self.now.row ≡ other.now.row }
        requires same { self.now.index ≡ other.now.index }
        ensures { self.now.value ≡ other.now.value }
    {
        self.row.agrees(&other.row);
        self.item.agrees(&other.item);
    }

    /// The same receipt once more.
    pub fn again(&self) -> Receipt<T>
        ensures { result ≡ self.now }
    {
        Receipt {
            index: self.index,
            bucket: self.bucket,
            slot: self.slot,
            row: self.row.again(),
            item: self.item.again(),
        }
    }
}
