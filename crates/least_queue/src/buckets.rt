ghost use Rattle.std.specs.Prelude.{◌≡◌, ℕ, ◌+◌, ◌<◌, ◌≤◌, List, [], ◌∷◌, ◌++◌, map, slice_index, All, Contains, IfNone, IfOk, IfSome, IsPermutation, OnOk};
ghost use Rattle.waiting_item.specs.Waiting.{as_waiting, spot_in};
ghost use Rattle.sweep_parts.specs.Leaving.{Leaves, LosesSpent};
ghost use Rattle.least_queue.specs.Heaps.{waits};
ghost use Rattle.least_queue.specs.Buckets.{IsNext, all_of, bucket_number, opened, unopened};

use crate::opened::take_greatest;
use crate::ring::Ring;
use out_of_memory::OutOfMemory;
use std::alloc::Global;
use std::cmp::Reverse;
use std::collections::BinaryHeap;
use std::marker::Model;
use std::mem;
use stored_cost::{Part, StoredCost};
use sweep_parts::{LeastQueue, Look};
use waiting_item::Item;

/// A queue whose items lie in buckets by the first components of their costs. A bucket is sorted
/// when it is opened; what comes after that and belongs to it lies in a heap beside it.
///
/// Source: R. B. Dial, Algorithm 360: shortest-path forest with topological ordering,
/// Communications of the ACM 12 (1969).
#[derive(Drop)]
pub struct BucketQueue<const D: usize, C: StoredCost<D>> {
    alloc: Global,
    /// The number of a bucket is the first component of a cost, shifted right by so many bits.
    shift: u32,
    /// The bucket that was opened last.
    current: u64,
    /// What was in it, the least last.
    run: Vec<Reverse<Item<C>>>,
    /// What came later and belongs to it, or to an earlier one.
    heap: BinaryHeap<Reverse<Item<C>>>,
    ring: Ring<Reverse<Item<C>>>,
    /// What had no place in the ring when it came.
    far: Vec<Reverse<Item<C>>>,
    /// At most the number of any bucket of the far ones.
    far_least: u64,
}

impl<const D: usize, C: StoredCost<D>> Model for BucketQueue<D, C> {
    ghost use Rattle.std.specs.BinaryHeap.{heap_items};
    ghost use Rattle.std.specs.declared.cmp.Reverse.{Reverse};
    ghost use Rattle.waiting_item.specs.declared.item.Item.{Item};
    ghost use Rattle.least_queue.specs.Heaps.{least_first};
    ghost use Rattle.least_queue.specs.Buckets.{AreBuckets, Buckets, bucket_number};

    ghost Value = { Buckets (Reverse (Item C)) };

    ghost view = { λ q. record {
      shift = q.shift;
      current = q.current;
      run = q.run.items;
      heap = heap_items q.heap;
      ring = q.ring;
      far = q.far.items;
      far_least = q.far_least;
    } };

    ghost invariant = { λ q. AreBuckets (least_first C.Ord.cmp)
        (bucket_number C.components q.shift) (record {
          shift = q.shift;
          current = q.current;
          run = q.run.items;
          heap = heap_items q.heap;
          ring = q.ring;
          far = q.far.items;
          far_least = q.far_least;
        }) };
}

impl<const D: usize, C: StoredCost<D>> BucketQueue<D, C> {
    /// Lets an entry wait where it belongs.
    fn put_entry(&mut self, entry: Reverse<Item<C>>) -> Result<(), OutOfMemory>
        ensures put { IfOk result (λ _. IsPermutation (entry ∷ all_of self.old) (all_of self.new)) }
        ensures current { OnOk result (self.new.current ≡ self.old.current) }
    {
        let number = number_of(&entry, self.shift);
        if number <= self.current {
            self.heap.push(entry)?;
            return Ok(());
        }
        let Some(entry) = self.ring.put(self.current, number, entry)? else {
            return Ok(());
        };
        self.far.push(entry)?;
        self.far_least = self.far_least.min(number);
        Ok(())
    }

    /// Lets all of them wait.
    fn put_all(&mut self, mut entries: Vec<Reverse<Item<C>>>) -> Result<(), OutOfMemory>
        ensures put { IfOk result (λ _.
            IsPermutation (entries.items ++ all_of self.old) (all_of self.new)) }
        ensures current { OnOk result (self.new.current ≡ self.old.current) }
    {
        while let Some(entry) = entries.pop() {
            self.put_entry(entry)?;
        }
        Ok(())
    }

    /// Takes the least item of what is opened.
    fn take_opened(&mut self) -> Option<Item<C>>
        ensures least { IfSome result (λ i. Leaves (map (waits C.components) (all_of self.old))
            (as_waiting C.components i) (map (waits C.components) (all_of self.new))) }
        ensures none { IfNone result (opened self.new ≡ []) }
        ensures same { IfNone result (all_of self.new ≡ all_of self.old) }
        ensures current { self.new.current ≡ self.old.current }
    {
        let Some(Reverse(item)) = take_greatest(&mut self.run, &mut self.heap) else {
            return None;
        };
        Some(item)
    }

    /// The next bucket that is to be opened.
    fn next_number(&self) -> Option<u64>
        ensures next { IfSome result
            (IsNext (bucket_number C.components self.now.shift) self.now) }
        ensures none { IfNone result (unopened self.now ≡ []) }
    {
        let next = self.ring.next(self.current);
        if self.far.is_empty() {
            return next;
        }
        let Some(number) = next else {
            return Some(self.far_least);
        };
        Some(number.min(self.far_least))
    }

    /// Opens a bucket, without what is spent. Where it isn't before the least far one, the far
    /// ones come out: they have to be put again.
    fn open<K: Look<D, C>>(&mut self, number: u64, look: &K) -> Vec<Reverse<Item<C>>>
        requires allowed { All (λ e. K.allows look.now (spot_in C.components e.0))
            (all_of self.old) }
        requires opened { opened self.old ≡ [] }
        requires next { IsNext (bucket_number C.components self.old.shift) self.old number }
        ensures loses { LosesSpent (K.IsSpent look.now) (map (waits C.components) (all_of self.old))
            (map (waits C.components) (result.items ++ all_of self.new)) }
        ensures current { self.new.current ≡ number }
    {
        self.ring.swap_out(number, &mut self.run);
        leave_out_spent(look, &mut self.run);
        self.run.sort_unstable();
        self.current = number;
        if number < self.far_least {
            return Vec::new(self.alloc);
        }
        self.far_least = u64::MAX;
        mem::replace(&mut self.far, Vec::new(self.alloc))
    }
}

impl<const D: usize, C: StoredCost<D>> LeastQueue<D, C> for BucketQueue<D, C> {
    ghost waiting = { λ q. map (waits C.components) (all_of q) };

    fn new(alloc: Global, first: u64, step: u64) -> Result<BucketQueue<D, C>, OutOfMemory> {
        let shift = shift_for(step);
        Ok(BucketQueue {
            alloc,
            shift,
            current: first >> shift,
            run: Vec::new(alloc),
            heap: BinaryHeap::new(alloc),
            ring: Ring::new(alloc, size_for(step >> shift))?,
            far: Vec::new(alloc),
            far_least: u64::MAX,
        })
    }

    fn put(&mut self, item: Item<C>) -> Result<(), OutOfMemory>
        ensures { IfOk result (λ _.
            IsPermutation
            (as_waiting C.components item ∷ map (waits C.components) (all_of self.old))
            (map (waits C.components) (all_of self.new))) }
    {
        self.put_entry(Reverse(item))
    }

    fn take<K: Look<D, C>>(&mut self, look: &K) -> Result<Option<Item<C>>, OutOfMemory> {
        'buckets: loop {
            if let Some(least) = self.take_opened() {
                return Ok(Some(least));
            }
            let Some(next) = self.next_number() else {
                return Ok(None);
            };
            let reached = self.open(next, look);
            self.put_all(reached)?;
        }
    }
}

/// The number of an entry's bucket.
fn number_of<const D: usize, C: StoredCost<D>>(entry: &Reverse<Item<C>>, shift: u32) -> u64
    requires { shift < 64 }
    ensures { result ≡ bucket_number C.components shift entry.now }
{
    first_component(&entry.0.cost) >> shift
}

/// The first component, or 0 where there is none.
fn first_component<const D: usize, C: StoredCost<D>>(cost: &C) -> u64
    ensures { result ≡ slice_index (C.components cost.now) 0 }
{
    if D == 0 {
        let _none = cost.to_compact();
        return 0;
    }
    cost.part(0).to_number()
}

/// Leaves out what is spent, in any order.
fn leave_out_spent<const D: usize, C: StoredCost<D>, K: Look<D, C>>(
    look: &K,
    entries: &mut Vec<Reverse<Item<C>>>,
)
    requires { All (λ e. K.allows look.now (spot_in C.components e.0)) entries.old.items }
    ensures loses { LosesSpent (K.IsSpent look.now) (map (waits C.components) entries.old.items)
        (map (waits C.components) entries.new.items) }
    ensures old { All (Contains entries.old.items) entries.new.items }
{
    let mut kept = 0;
    while kept < entries.len() {
        if look.is_spent(&entries[kept].0) {
            entries.swap_remove(kept);
        } else {
            kept += 1;
        }
    }
}

/// By how many bits first components are shifted, so that what is within the step lies in the ring.
fn shift_for(step: u64) -> u32
    ensures { result < 64 }
{
    (0..55)
        .find(|shift| step >> *shift <= MOST_BUCKETS - 2)
        .unwrap_or(55)
}

/// How many buckets there are in the ring, where what is within the step is so many away.
fn size_for(span: u64) -> usize
    ensures { 0 < result }
{
    (span.min(MOST_BUCKETS - 2) + 2).max(64).next_power_of_two() as usize
}

/// The most buckets in a ring.
const MOST_BUCKETS: u64 = 1024;
