//! Which of what the parts of a queue took is dominated by what another part did: workers find this side by side.
ghost use Rattle.std.specs.Prelude.{◌≡◌, ◌≤◌, ◌↔◌, All, Contains, IfOk, IsTrue, length, map};
ghost use Rattle.waiting_queue.specs.Joining.{AreMarked, AreParts, EndsBefore, joined, taken_of};
ghost use Rattle.waiting_queue.specs.Taking.{IsDominatedIn};
ghost use Rattle.waiting_item.specs.Waiting.{AreCriteria, spot_in};

use crate::joining::Part;
use crate::order::is_before;
use crate::shadow::is_shadowed;
use out_of_memory::OutOfMemory;
use std::alloc::Global;
use std::thread::Threads;
use stored_cost::StoredCost;
use waiting_item::Item;
use work_claim::{Job, OpenGate, Phase, Workers, run_pieces};

/// At most so many pieces come to each worker on the average: later ones take longer, since more parts come before them.
const PIECES_PER_WORKER: usize = 8;

/// Marks each item of all that the parts took that another part's dominates.
pub(crate) fn mark_all<const D: usize, C: StoredCost<D> + Send + Sync, R: Threads + Sync, G>(
    workers: &Workers<'_, R, G>,
    alloc: Global,
    parts: &[Part<C>],
    all: &[Item<C>],
) -> Result<Vec<bool>, OutOfMemory>
where
    C::Part: Send + Sync,
    requires criteria { AreCriteria D }
    requires parts { AreParts C.components parts.now }
    requires all { all.now ≡ taken_of parts.now }
    ensures { IfOk result (λ marks. AreMarked C.components all.now all.now marks.items) }
{
    let pieces = cut_evenly(alloc, all, workers.count() as usize * PIECES_PER_WORKER)?;
    let marking = Marking {
        alloc,
        parts,
        pieces: &pieces,
    };
    let workers = workers.with_gate(&OpenGate);
    let lists = run_pieces(&workers, alloc, pieces.len(), Phase::Merge, &marking)?;
    let mut marks = Vec::with_capacity(alloc, all.len())?;
    for list in &lists {
        marks.extend_from_slice(list)?;
    }
    Ok(marks)
}

/// Cuts a list into at most so many pieces, in order.
#[tactic(auto, using(crate::proofs::JoiningLemmas::flat_steps))]
fn cut_evenly<C>(
    alloc: Global,
    list: &[Item<C>],
    count: usize,
) -> Result<Vec<&[Item<C>]>, OutOfMemory>
    requires some { 1 ≤ count }
    ensures few { IfOk result (λ pieces. length pieces.items ≤ count) }
    ensures whole { IfOk result (λ pieces. joined (map (λ p. p.now) pieces.items) ≡ list.now) }
{
    let size = list.len() / count + 1;
    let mut pieces = Vec::new(alloc);
    let mut rest = list;
    while pieces.len() + 1 < count {
        let (piece, others) = rest.split_at(rest.len().min(size));
        pieces.push(piece)?;
        rest = others;
    }
    pieces.push(rest)?;
    Ok(pieces)
}

/// Pieces of what the parts took, which are to be marked.
#[derive(Drop)]
struct Marking<'q, const D: usize, C: StoredCost<D>> {
    alloc: Global,
    parts: &'q [Part<C>],
    pieces: &'q [&'q [Item<C>]],
}

impl<'q, const D: usize, C: StoredCost<D> + Send + Sync> Job for Marking<'q, D, C>
where
    C::Part: Send + Sync,
{
    ghost use Rattle.std.specs.Prelude.{map};
    ghost use Rattle.waiting_queue.specs.Joining.{AreMarksOf, CanMark};

    type Out = Vec<bool>;

    ghost accepts = { λ job piece. CanMark C.components D job.parts.now (map (λ p. p.now) job.pieces.now) piece };

    ghost gives = { λ job piece marks.
        AreMarksOf C.components job.parts.now (map (λ p. p.now) job.pieces.now) piece marks.items };

    fn run(&self, piece: usize) -> Result<Vec<bool>, OutOfMemory> {
        mark(self.alloc, self.parts, self.pieces[piece])
    }
}

/// Marks those of the items that another part's dominates.
fn mark<const D: usize, C: StoredCost<D>>(
    alloc: Global,
    parts: &[Part<C>],
    items: &[Item<C>],
) -> Result<Vec<bool>, OutOfMemory>
    requires criteria { AreCriteria D }
    requires parts { AreParts C.components parts.now }
    requires among { All (Contains (taken_of parts.now)) items.now }
    ensures { IfOk result (λ marks.
        AreMarked C.components (taken_of parts.now) items.now marks.items) }
{
    let mut marks = Vec::with_capacity(alloc, items.len())?;
    for item in items {
        marks.push(is_dominated(parts, item))?;
    }
    Ok(marks)
}

/// Whether what one of the parts took dominates this item, which another took: only parts are asked that end before it.
fn is_dominated<const D: usize, C: StoredCost<D>>(parts: &[Part<C>], item: &Item<C>) -> bool
    requires criteria { AreCriteria D }
    requires parts { AreParts C.components parts.now }
    requires there { Contains (taken_of parts.now) item.now }
    ensures { IsTrue result ↔ IsDominatedIn (spot_in C.components) (taken_of parts.now)
        (C.components item.now.cost) }
{
    for part in parts {
        if ends_before(&part.taken, item) && is_shadowed(&part.shadow, &item.cost) {
            return true;
        }
    }
    false
}

/// Whether the last of the items comes before this one.
fn ends_before<const D: usize, C: StoredCost<D>>(items: &[Item<C>], item: &Item<C>) -> bool
    ensures { IsTrue result ↔ EndsBefore C.components items.now (spot_in C.components item.now) }
{
    match items.last() {
        Some(last) => is_before(last, item),
        None => false,
    }
}
