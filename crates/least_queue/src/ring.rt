ghost use Rattle.std.specs.Prelude.{◌≡◌, ℕ, ◌<◌, ◌≤◌, ◌↔◌, ◌⊎◌, List, [], ◌∷◌, ◌++◌, length, replicate, IfNone, IfOk, IfSome, IsTrue, OnErr};
ghost use Rattle.least_queue.specs.Rings.{EachFits, HasBucket, Puts, TakesOut, place_in, reach_from};

use out_of_memory::OutOfMemory;
use std::alloc::Global;
use std::marker::Model;
use std::mem;

/// A bucket: its number, and its items. A contract sees the pair of them.
#[derive(Drop)]
pub struct Bucket<T: Drop> {
    number: u64,
    items: Vec<T>,
}

impl<T: Drop> Model for Bucket<T> {
    ghost use Rattle.std.specs.Prelude.{ℕ, List};

    ghost Value = { ℕ × List T };

    ghost view = { λ b. (b.number, b.items.items) };
}

impl<T: Drop> Bucket<T> {
    fn new(alloc: Global) -> Bucket<T>
        ensures { result ≡ (0, []) }
    {
        Bucket {
            number: 0,
            items: Vec::new(alloc),
        }
    }

    /// Whether it has items of this number.
    fn has(&self, number: u64) -> bool
        ensures { IsTrue result ↔ ((self.now.0 ≡ number) × (0 < length self.now.1)) }
    {
        self.number == number && !self.items.is_empty()
    }

    /// Whether there are no items of another number.
    fn is_free(&self, number: u64) -> bool
        ensures { IsTrue result ↔ ((self.now.1 ≡ []) ⊎ (self.now.0 ≡ number)) }
    {
        self.items.is_empty() || self.number == number
    }

    /// Adds an item of this number.
    fn put(&mut self, number: u64, item: T) -> Result<(), OutOfMemory>
        ensures put { IfOk result (λ _. self.new ≡ (number, self.old.1 ++ item ∷ [])) }
        ensures same { OnErr result (self.new ≡ self.old) }
    {
        self.items.push(item)?;
        self.number = number;
        Ok(())
    }

    /// Gives its items for others.
    fn swap(&mut self, list: &mut Vec<T>)
        ensures items { list.new.items ≡ self.old.1 }
        ensures bucket { self.new ≡ (self.old.0, list.old.items) }
    {
        mem::swap(&mut self.items, list);
    }
}

/// Buckets in a ring: each number has its place, at which another number's items may lie. A
/// contract sees the list of the buckets.
#[derive(Drop)]
pub struct Ring<T: Drop> {
    buckets: Vec<Bucket<T>>,
}

impl<T: Drop> Model for Ring<T> {
    ghost use Rattle.std.specs.Prelude.{ℕ, List};
    ghost use Rattle.least_queue.specs.Rings.{IsRing};

    ghost Value = { List (ℕ × List T) };

    ghost view = { λ r. r.buckets.items };

    ghost invariant = { λ r. IsRing r.buckets.items };
}

impl<T: Drop> Ring<T> {
    /// A ring of so many empty buckets.
    pub fn new(alloc: Global, size: usize) -> Result<Ring<T>, OutOfMemory>
        requires { 0 < size }
        ensures { IfOk result (λ r. r ≡ replicate size (0, [])) }
    {
        let mut buckets = Vec::with_capacity(alloc, size)?;
        for _ in 0..size {
            buckets.push(Bucket::new(alloc))?;
        }
        Ok(Ring { buckets })
    }

    /// The place of the bucket of this number.
    fn place(&self, number: u64) -> usize
        ensures within { result < length self.now }
        ensures place { result ≡ place_in (length self.now) number }
    {
        (number & (self.buckets.len() as u64 - 1)) as usize
    }

    /// The number below which the ring reaches.
    fn reach(&self, from: u64) -> u64
        ensures { result ≡ reach_from from (length self.now) }
    {
        from.saturating_add(self.buckets.len() as u64)
    }

    /// Whether the bucket of this number has items.
    fn has(&self, number: u64) -> bool
        ensures there { IsTrue result → HasBucket self.now number }
        ensures not_there { HasBucket self.now number → IsTrue result }
    {
        self.buckets[self.place(number)].has(number)
    }

    /// The least number from this one on whose bucket has items.
    pub fn next(&self, from: u64) -> Option<u64>
        ensures some { IfSome result (HasBucket self.now) }
        ensures least { IfSome result (λ k. (n : ℕ) → from ≤ n → n < k → ¬ HasBucket self.now n) }
        ensures none { IfNone result ((n : ℕ) → from ≤ n → n < reach_from from (length self.now)
            → ¬ HasBucket self.now n) }
    {
        for number in from..self.reach(from) {
            if self.has(number) {
                return Some(number);
            }
        }
        None
    }

    /// Adds an item to the bucket of this number. It comes back where the ring does not reach so
    /// far, or another number's items lie at its place.
    pub fn put(&mut self, from: u64, number: u64, item: T) -> Result<Option<T>, OutOfMemory>
        ensures puts { IfOk result (λ back. IfNone back (Puts self.old number item self.new)) }
        ensures near { IfOk result (λ back.
            IfNone back (number < reach_from from (length self.old))) }
        ensures back { IfOk result (λ back. IfSome back (λ i. (i ≡ item) × (self.new ≡ self.old))) }
        ensures same { OnErr result (self.new ≡ self.old) }
    {
        let place = self.place(number);
        let reach = self.reach(from);
        let bucket = &mut self.buckets[place];
        if number >= reach || !bucket.is_free(number) {
            return Ok(Some(item));
        }
        bucket.put(number, item)?;
        Ok(None)
    }

    /// Takes out the items of the bucket of this number, for an empty list.
    pub fn swap_out(&mut self, number: u64, list: &mut Vec<T>)
        requires { list.old.items ≡ [] }
        ensures { TakesOut self.old number list.new.items self.new }
    {
        let place = self.place(number);
        let bucket = &mut self.buckets[place];
        if bucket.has(number) {
            bucket.swap(list);
        }
    }
}
