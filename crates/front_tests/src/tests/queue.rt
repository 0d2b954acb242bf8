//! What passes take of a queue, of which some isn't open.
ghost use Rattle.std.specs.Prelude.{◌≡◌, ◌<◌, ◌≤◌, ◌%◌};
ghost use Rattle.waiting_item.specs.Waiting.{AreCriteria};

use crate::tests::drawing::{cost_of, draw_cost};
use cost_vector::NodeNo;
use out_of_memory::OutOfMemory;
use std::alloc::Global;
use std::marker::Brand;
use std::process::Abort;
use std::sync::ledger::{Blank, Ledger};
use std::thread::Threads;
use stored_cost::{NarrowCost, StoredCost, WideCost};
use waiting_item::Item;
use waiting_queue::{Look, Queue, Steps};
use work_claim::{Gate, Phase, Workers};

/// A gate that does nothing, and has all work shared.
struct Sharing;

impl Gate for Sharing {
    const SHARED_FROM: usize = 0;

    ghost SHARED_FROM = { 0 };

    fn pass(&self, _phase: Phase, _piece: u64) {}
}

/// Lets spots be open at nodes of even numbers alone.
#[derive(Drop)]
struct EvenNodes;

impl<const D: usize, C: StoredCost<D>> Look<D, C> for EvenNodes {
    ghost IsOpen = { λ _ s. s.node % 2 ≡ 0 };

    fn is_open(&self, item: &Item<C>) -> bool {
        item.node.0 % 2 == 0
    }
}

/// Lets all spots be open.
#[derive(Drop)]
struct AllNodes;

impl<const D: usize, C: StoredCost<D>> Look<D, C> for AllNodes {
    ghost IsOpen = { λ _ _. Unit {0} };

    fn is_open(&self, _item: &Item<C>) -> bool {
        true
    }
}

fn item<C>(cost: C, node: u32) -> Item<C> {
    Item {
        cost,
        node: NodeNo(node),
        from: NodeNo(0),
    }
}

/// An item at each of the nodes 1, 2 and so on, at a drawn cost.
fn draw_items<const D: usize, C: StoredCost<D>>(
    rt: &impl Abort,
    alloc: Global,
    nodes: u32,
    below: u64,
) -> Result<Vec<Item<C>>, OutOfMemory>
    requires { AreCriteria D }
{
    let mut state = 20131;
    let mut items = Vec::new(alloc);
    for before in 0..nodes {
        items.push(item(draw_cost(rt, &mut state, below), before + 1))?;
    }
    Ok(items)
}

/// The open ones that no open one dominates, ascending, and those that an open one dominates, by comparing all pairs.
#[derive(Drop)]
struct Parts<C> {
    free: Vec<Item<C>>,
    others: Vec<Item<C>>,
}

fn is_open<C>(item: &Item<C>) -> bool {
    item.node.0 % 2 == 0
}

fn is_beaten<const D: usize, C: StoredCost<D>>(waiting: &[Item<C>], item: &Item<C>) -> bool {
    for other in waiting {
        if is_open(other) && other.cost.dominates(&item.cost) {
            return true;
        }
    }
    false
}

fn parted<const D: usize, C: StoredCost<D>>(
    alloc: Global,
    waiting: &[Item<C>],
) -> Result<Parts<C>, OutOfMemory> {
    let mut free = Vec::new(alloc);
    let mut others = Vec::new(alloc);
    for item in waiting {
        if is_beaten(waiting, item) {
            others.push(*item)?;
        } else if is_open(item) {
            free.push(*item)?;
        }
    }
    free.sort_unstable();
    Ok(Parts { free, others })
}

/// What one pass takes that lets these items in.
fn take<const D: usize, C: StoredCost<D> + Send + Sync, R: Threads + Sync, G: Gate, L: Ledger>(
    workers: &Workers<'_, R, G>,
    alloc: Global,
    queue: &mut Queue<D, C>,
    fresh: &[Item<C>],
    steps: &mut Steps<L>,
) -> Result<Vec<Item<C>>, OutOfMemory>
where
    C::Part: Send + Sync,
{
    let mut taken = Vec::new(alloc);
    queue.pass(workers, alloc, fresh, &EvenNodes, &mut taken, steps)?;
    Ok(taken)
}

/// Whether nothing waits: where all spots are open, a pass takes some of what does.
fn is_spent<const D: usize, C: StoredCost<D> + Send + Sync, R: Threads + Sync, G: Gate, L: Ledger>(
    workers: &Workers<'_, R, G>,
    alloc: Global,
    queue: &mut Queue<D, C>,
    steps: &mut Steps<L>,
) -> Result<bool, OutOfMemory>
where
    C::Part: Send + Sync,
{
    let none = Vec::new(alloc);
    let mut taken = Vec::new(alloc);
    queue.pass(workers, alloc, &none, &AllNodes, &mut taken, steps)?;
    Ok(taken.is_empty())
}

/// After how many rounds a queue is empty, if each takes what comparing all pairs gives.
fn rounds<const D: usize, C: StoredCost<D> + Send + Sync, R: Threads + Sync, G: Gate, L: Ledger>(
    workers: &Workers<'_, R, G>,
    alloc: Global,
    items: Vec<Item<C>>,
    steps: &mut Steps<L>,
) -> Result<Option<u32>, OutOfMemory>
where
    C::Part: Send + Sync,
    requires { AreCriteria D }
{
    let mut queue = Queue::<D, C>::new(alloc);
    let mut waiting = items;
    let none = Vec::new(alloc);
    let mut taken = take(workers, alloc, &mut queue, &waiting, steps)?;
    for round in 0..1000 {
        let parts = parted(alloc, &waiting)?;
        if taken.as_slice() != parts.free.as_slice() {
            return Ok(None);
        }
        if parts.free.is_empty() {
            return Ok(Some(round));
        }
        waiting = parts.others;
        taken = take(workers, alloc, &mut queue, &none, steps)?;
    }
    Ok(None)
}

/// After how many rounds queues of 2, 3 and 4 criteria are empty, passed by so many workers.
fn all_rounds<L: Ledger>(
    rt: &(impl Abort + Threads + Sync),
    alloc: Global,
    count: u32,
    blank: Blank,
) -> Result<[Option<u32>; 3], OutOfMemory>
    requires one { 1 ≤ count }
    requires most { count ≤ 64 }
    requires name { blank.name ≡ L.name }
    requires parts { blank.parts ≡ L.parts }
    requires some { 0 < L.parts }
{
    let workers = &Workers::new(rt, count, &Sharing);
    let mut steps = Steps::<L>::new(blank);
    let two = draw_items::<2, NarrowCost<2>>(rt, alloc, 300, 30)?;
    let three = draw_items::<3, NarrowCost<3>>(rt, alloc, 300, 30)?;
    let four = draw_items::<4, WideCost<4>>(rt, alloc, 300, 30)?;
    Ok([
        rounds(workers, alloc, two, &mut steps)?,
        rounds(workers, alloc, three, &mut steps)?,
        rounds(workers, alloc, four, &mut steps)?,
    ])
}

/// It is more than three rounds under 2, 3 and 4 criteria.
fn assert_all_rounds(rt: &(impl Abort + Threads + Sync), alloc: Global, count: u32)
    requires one { 1 ≤ count }
    requires most { count ≤ 64 }
{
    let outcome = all_rounds::<Brand>(rt, alloc, count, Blank::new(1));
    let are_many = outcome.is_ok_and(|all| all.iter().all(|rounds| rounds.is_some_and(|n| n > 3)));
    assert!(rt; are_many, "{count} workers");
}

#[test]
fn takes_what_comparing_all_pairs_gives(rt: HostRuntime) {
    assert_all_rounds(&rt, rt.alloc(), 1);
    assert_all_rounds(&rt, rt.alloc(), 2);
    assert_all_rounds(&rt, rt.alloc(), 5);
    assert_all_rounds(&rt, rt.alloc(), 64);
}

/// How many spots each of two passes takes of these, and whether none is left.
fn two_passes<L: Ledger>(
    rt: &(impl Threads + Sync),
    alloc: Global,
    count: u32,
    blank: Blank,
    items: &[Item<NarrowCost<2>>],
) -> Result<(usize, usize, bool), OutOfMemory>
    requires one { 1 ≤ count }
    requires most { count ≤ 64 }
    requires name { blank.name ≡ L.name }
    requires parts { blank.parts ≡ L.parts }
    requires some { 0 < L.parts }
{
    let workers = &Workers::new(rt, count, &Sharing);
    let mut steps = Steps::<L>::new(blank);
    let mut queue = Queue::<2, NarrowCost<2>>::new(alloc);
    let mut taken = Vec::new(alloc);
    queue.pass(workers, alloc, items, &EvenNodes, &mut taken, &mut steps)?;
    let first = taken.len();
    queue.pass(workers, alloc, &[], &EvenNodes, &mut taken, &mut steps)?;
    let second = taken.len();
    Ok((
        first,
        second,
        is_spent(workers, alloc, &mut queue, &mut steps)?,
    ))
}

#[test]
fn takes_equal_costs_together_and_each_spot_once(rt: HostRuntime) {
    let rows = [
        ([4, 4], 2),
        ([4, 4], 6),
        ([4, 4], 2),
        ([5, 1], 4),
        ([4, 5], 8),
        ([1, 9], 3),
    ];
    let items = rows.map(|(cost, node)| item(cost_of(&rt, &cost), node));
    let alone = two_passes::<Brand>(&rt, rt.alloc(), 1, Blank::new(1), &items);
    assert!(rt; alone == Ok((3, 1, true)), "the closed spot leaves");
    let shared = two_passes::<Brand>(&rt, rt.alloc(), 4, Blank::new(1), &items);
    assert!(rt; shared == Ok((3, 1, true)), "four workers");
}

/// So many items of which none dominates another, at one node.
fn antichain(
    rt: &impl Abort,
    alloc: Global,
    count: u32,
) -> Result<Vec<Item<NarrowCost<2>>>, OutOfMemory> {
    let mut items = Vec::new(alloc);
    for i in 0..count {
        let cost = cost_of(rt, &[u64::from(i), u64::from(count - i)]);
        items.push(item(cost, 2))?;
    }
    Ok(items)
}

/// The same of an antichain of so many spots.
fn passes_of_antichain(
    rt: &(impl Abort + Threads + Sync),
    alloc: Global,
    count: u32,
    workers: u32,
) -> Result<(usize, usize, bool), OutOfMemory>
    requires one { 1 ≤ workers }
    requires most { workers ≤ 64 }
{
    let items = antichain(rt, alloc, count)?;
    two_passes::<Brand>(rt, alloc, workers, Blank::new(1), &items)
}

#[test]
fn takes_an_antichain_at_once(rt: HostRuntime) {
    let alone = passes_of_antichain(&rt, rt.alloc(), 200_000, 1);
    assert!(rt; alone == Ok((200_000, 0, true)), "all leave in time");
    let shared = passes_of_antichain(&rt, rt.alloc(), 20_000, 3);
    assert!(rt; shared == Ok((20_000, 0, true)), "three workers");
}
