//! What the parts of a queue took, joined: a part doesn't know what an earlier one took.
ghost use Rattle.std.specs.Prelude.{◌≡◌, [], IfOk};
ghost use Rattle.waiting_queue.specs.Joining.{AreJoined, AreMarked, AreParts, JoinsAll, rest_of, taken_of};
ghost use Rattle.waiting_queue.specs.Taking.{AreSorted};
ghost use Rattle.waiting_item.specs.Waiting.{AreCriteria, spot_in};

use crate::marking::mark_all;
use crate::order::is_last;
use out_of_memory::OutOfMemory;
use std::alloc::Global;
use std::mem;
use std::thread::Threads;
use stored_cost::StoredCost;
use waiting_item::Item;
use work_claim::Workers;

/// What a pass over a part of a queue has taken, what stays there, and the shadow of what was taken: all of it, where memory
/// sufficed.
#[derive(Drop)]
pub(crate) struct Part<C> {
    pub taken: Vec<Item<C>>,
    pub rest: Vec<Item<C>>,
    pub shadow: Vec<C>,
    /// Room for what came in, in order.
    pub order: Vec<Item<C>>,
    /// The allocation that failed, where memory didn't suffice.
    pub want: Option<OutOfMemory>,
}

impl<C> Part<C> {
    pub(crate) fn new(alloc: Global) -> Part<C>
        ensures { result.taken.items ≡ [] }
    {
        Part {
            taken: Vec::new(alloc),
            rest: Vec::new(alloc),
            shadow: Vec::new(alloc),
            order: Vec::new(alloc),
            want: None,
        }
    }
}

/// Lists what the parts took but for what another part's dominates, each spot once, and apart what is dominated. What the lists held
/// before is gone; the first is room for all that the parts took.
pub(crate) fn join_parts<const D: usize, C: StoredCost<D> + Send + Sync, R: Threads + Sync, G>(
    workers: &Workers<'_, R, G>,
    alloc: Global,
    parts: &[Part<C>],
    all: &mut Vec<Item<C>>,
    taken: &mut Vec<Item<C>>,
    back: &mut Vec<Item<C>>,
) -> Result<(), OutOfMemory>
where
    C::Part: Send + Sync,
    requires criteria { AreCriteria D }
    requires parts { AreParts C.components parts.now }
    ensures { IfOk result (λ _. AreJoined C.components parts.now taken.new.items back.new.items) }
{
    list_taken(parts, all)?;
    let marks = mark_all(workers, alloc, parts, all)?;
    taken.clear();
    back.clear();
    join_marked(all, &marks, taken, back)
}

/// Lists what the parts took. What the list held before is gone.
#[tactic(auto, using(crate::proofs::JoiningLemmas::flat_steps))]
fn list_taken<C: Copy + Drop>(parts: &[Part<C>], all: &mut Vec<Item<C>>) -> Result<(), OutOfMemory>
    ensures { IfOk result (λ _. all.new.items ≡ taken_of parts.now) }
{
    all.clear();
    for part in parts {
        all.extend_from_slice(&part.taken)?;
    }
    Ok(())
}

/// Lists what stays in the parts. The first one's list is taken over, so that only the others are copied.
#[tactic(auto, using(crate::proofs::JoiningLemmas::flat_steps))]
pub(crate) fn list_rests<C: Copy + Drop>(
    parts: &mut [Part<C>],
    rest: &mut Vec<Item<C>>,
) -> Result<(), OutOfMemory>
    ensures { IfOk result (λ _. rest.new.items ≡ rest_of parts.old) }
{
    rest.clear();
    let Some((first, others)) = parts.split_first_mut() else {
        return Ok(());
    };
    mem::swap(rest, &mut first.rest);
    for part in others.iter() {
        rest.extend_from_slice(&part.rest)?;
    }
    Ok(())
}

/// Joins what the parts took: what is marked goes back.
fn join_marked<const D: usize, C: StoredCost<D>>(
    all: &[Item<C>],
    marks: &[bool],
    taken: &mut Vec<Item<C>>,
    back: &mut Vec<Item<C>>,
) -> Result<(), OutOfMemory>
    requires sorted { AreSorted (spot_in C.components) all.now }
    requires marked { AreMarked C.components all.now all.now marks.now }
    requires none_taken { taken.old.items ≡ [] }
    requires none_back { back.old.items ≡ [] }
    ensures { IfOk result (λ _. JoinsAll C.components all.now taken.new.items back.new.items) }
{
    for (i, item) in all.iter().enumerate() {
        if marks[i] {
            back.push(*item)?;
        } else if !is_last(taken, item) {
            taken.push(*item)?;
        }
    }
    Ok(())
}
