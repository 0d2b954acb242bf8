ghost use Rattle.std.specs.Prelude.{◌≡◌, ℕ, ◌*◌, ◌<◌, ◌≤◌, length, take, drop, Err, IfOk};
ghost use Rattle.road_network.specs.Network.{IsNode};
ghost use Rattle.waiting_item.specs.Waiting.{as_waiting};
ghost use Rattle.round_work.specs.Onward.{IsTooWide, onward};
ghost use Rattle.round_work.specs.Pieces.{Appends, AreWithRoom, CanDo, items_of, onward_in, piece_size};
ghost use Rattle.round_work.specs.declared.fault.RelaxFault.TheVariants as fault;

use crate::RelaxFault;
use arc_graph::Network;
use out_of_memory::OutOfMemory;
use std::alloc::Global;
use stored_cost::StoredCost;
use waiting_item::Item;
use work_claim::Job;

/// How many taken items are a piece of work; the last piece may have fewer.
pub const PIECE_SIZE: usize = 64;

/// Room for so many candidates is asked for at once: on most networks a piece has fewer.
const ROOM_OF_A_PIECE: usize = 4 * PIECE_SIZE;

/// The taken items of a round, which are to be relaxed.
#[derive(Drop)]
pub(crate) struct TakenItems<'g, const D: usize, C: StoredCost<D>> {
    pub alloc: Global,
    pub network: &'g Network<'g>,
    pub taken: &'g [Item<C>],
}

impl<'g, const D: usize, C: StoredCost<D> + Send + Sync> Job for TakenItems<'g, D, C>
where
    C::Part: Send + Sync,
{
    ghost use Rattle.round_work.specs.Onward.{IsTooWide};
    ghost use Rattle.round_work.specs.Pieces.{AreWithRoom, CanDo, GivesIfRoom, items_of, onward_in};

    type Out = Option<Vec<Item<C>>>;

    ghost accepts = { λ job piece. CanDo D job.network.now job.taken.now piece };

    ghost gives = { λ job piece out. GivesIfRoom
        (IsTooWide C.Part.bound (onward_in C.components job.network.now job.taken.now))
        (AreWithRoom C.components C.Part.bound
        (onward_in C.components job.network.now (items_of job.taken.now piece))) out };

    fn run(&self, piece: usize) -> Result<Option<Vec<Item<C>>>, OutOfMemory> {
        let mut candidates = Vec::with_capacity(self.alloc, ROOM_OF_A_PIECE)?;
        match self.append_piece(piece, &mut candidates) {
            Ok(()) => Ok(Some(candidates)),
            Err(RelaxFault::TooWide) => Ok(None),
            Err(RelaxFault::OutOfMemory(want)) => Err(want),
        }
    }
}

impl<'g, const D: usize, C: StoredCost<D>> TakenItems<'g, D, C> {
    /// How many pieces there are.
    pub(crate) fn pieces(&self) -> usize
        ensures each { (i : ℕ) → i < result → i * piece_size < length self.now.taken.now }
        ensures all { length self.now.taken.now ≤ result * piece_size }
    {
        self.taken.len().div_ceil(PIECE_SIZE)
    }

    /// Appends the candidates that the items of a piece give.
    #[tactic(auto, using(crate::proofs::OnwardLemmas::appends_none, crate::proofs::OnwardLemmas::gives_none, crate::proofs::OnwardLemmas::item_more))]
    pub(crate) fn append_piece(
        &self,
        piece: usize,
        candidates: &mut Vec<Item<C>>,
    ) -> Result<(), RelaxFault>
        requires { CanDo D self.now.network.now self.now.taken.now piece }
        ensures appends { IfOk result (λ _. Appends (AreWithRoom C.components C.Part.bound
            (onward_in C.components self.now.network.now (items_of self.now.taken.now piece)))
            candidates.old.items candidates.new.items) }
        ensures too_wide { result ≡ Err fault.TooWide → IsTooWide C.Part.bound
            (onward_in C.components self.now.network.now self.now.taken.now) }
    {
        for item in cut(self.taken, piece * PIECE_SIZE, PIECE_SIZE) {
            relax_into(self.network, item, candidates)?;
        }
        Ok(())
    }
}

/// So many elements from this place on, or all that are left.
pub(crate) fn cut<T>(list: &[T], first: usize, count: usize) -> &[T]
    requires { first ≤ length list.now }
    ensures { result.now ≡ take count (drop first list.now) }
{
    let left = &list[first..];
    &left[..count.min(left.len())]
}

/// Appends the candidates that an item gives.
#[tactic(auto, using(crate::proofs::OnwardLemmas::appends_none, crate::proofs::OnwardLemmas::gives_none, crate::proofs::OnwardLemmas::counted, crate::proofs::OnwardLemmas::there, crate::proofs::OnwardLemmas::arc_leads_back))]
fn relax_into<const D: usize, C: StoredCost<D>>(
    network: &Network<'_>,
    item: &Item<C>,
    candidates: &mut Vec<Item<C>>,
) -> Result<(), RelaxFault>
    requires criteria { network.now.criteria ≡ D }
    requires node { IsNode network.now.nodes item.now.node.0 }
    ensures appends { IfOk result (λ _. Appends (AreWithRoom C.components C.Part.bound
        (onward network.now (as_waiting C.components item.now)))
        candidates.old.items candidates.new.items) }
    ensures too_wide { result ≡ Err fault.TooWide → IsTooWide C.Part.bound
        (onward network.now (as_waiting C.components item.now)) }
{
    let arcs = network.out_arcs(item.node);
    candidates.reserve(arcs.len())?;
    for &arc in arcs {
        let head = network.head(arc);
        if head == item.from {
            continue;
        }
        if let Some(weight) = network.weight(arc) {
            let Some(cost) = item.cost.plus(&weight) else {
                return Err(RelaxFault::TooWide);
            };
            candidates.push(Item {
                cost,
                node: head,
                from: item.node,
            })?;
        }
    }
    Ok(())
}
