ghost use Rattle.std.specs.Prelude.{◌≡◌, ◌^◌, ◌<◌, None, length, map, All, Contains, Err, IfOk};
ghost use Rattle.road_network.specs.Network.{IsNode};
ghost use Rattle.waiting_item.specs.Waiting.{as_waiting};
ghost use Rattle.round_work.specs.Onward.{HaveRoom, IsTooWide, onward_of};
ghost use Rattle.round_work.specs.Pieces.{AppendsFound};
ghost use Rattle.round_work.specs.declared.fault.RelaxFault.TheVariants as fault;

use crate::RelaxFault;
use crate::pieces::TakenItems;
use arc_graph::Network;
use std::alloc::Global;
use std::thread::Threads;
use stored_cost::StoredCost;
use waiting_item::Item;
use work_claim::{Gate, Phase, Workers, run_pieces};

/// The candidates that the taken items give, in the order of the items, for every number of workers: for each arc that leads
/// from an item's node, isn't shut and doesn't lead straight back, in ascending order, the arc's head at the item's cost with
/// the arc's vector added. What the list held before is gone; it keeps its memory. Each run of 64 items is a piece of work.
pub fn relax<const D: usize, C: StoredCost<D> + Send + Sync, R: Threads + Sync, G: Gate>(
    workers: &Workers<'_, R, G>,
    alloc: Global,
    network: &Network<'_>,
    taken: &[Item<C>],
    candidates: &mut Vec<Item<C>>,
) -> Result<(), RelaxFault>
where
    C::Part: Send + Sync,
    requires criteria { network.now.criteria ≡ D }
    requires few { length taken.now < 2 ^ 32 }
    requires nodes { All (λ i. IsNode network.now.nodes i.node.0) taken.now }
    ensures candidates { IfOk result (λ _. map (as_waiting C.components) candidates.new.items
        ≡ onward_of network.now (map (as_waiting C.components) taken.now)) }
    ensures room { IfOk result (λ _. HaveRoom C.Part.bound
        (onward_of network.now (map (as_waiting C.components) taken.now))) }
    ensures too_wide { result ≡ Err fault.TooWide → IsTooWide C.Part.bound
        (onward_of network.now (map (as_waiting C.components) taken.now)) }
{
    candidates.clear();
    let items = TakenItems {
        alloc,
        network,
        taken,
    };
    let lists = run_pieces(workers, alloc, items.pieces(), Phase::Relax, &items)?;
    append_found(&lists, candidates)
}

/// Appends what came of pieces that workers relaxed.
fn append_found<X: Copy>(lists: &[Option<Vec<X>>], all: &mut Vec<X>) -> Result<(), RelaxFault>
    ensures appends { IfOk result (λ _. AppendsFound lists.now all.old.items all.new.items) }
    ensures too_wide { result ≡ Err fault.TooWide → Contains lists.now None }
{
    for list in lists {
        let Some(list) = list else {
            return Err(RelaxFault::TooWide);
        };
        all.extend_from_slice(list)?;
    }
    Ok(())
}
