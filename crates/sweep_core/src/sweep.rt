ghost use Rattle.std.specs.Prelude.{◌≡◌, ◌+◌, ◌<◌, ◌≤◌, ◌↔◌, ℕ, [], ◌∷◌, length, Err, IfNone, IfOk, IfSome, IsPermutation, IsTrue, OnOk};
ghost use Rattle.road_network.specs.Limits.{max_budget};
ghost use Rattle.road_network.specs.Queries.{IsQuery, limit_of};
ghost use Rattle.sweep_core.specs.Potentials.{HasNoRoom, PassesBy};
ghost use Rattle.sweep_core.specs.Relaxing.{HasNoRoomFrom};
ghost use Rattle.sweep_core.specs.Sweeps.{CanTell, Follows, IsEnded, IsNext, IsRelaxing, IsSameSearch, IsSearchFor, IsSweep, LetsWait, Settles, SettlesAll, costs_at, with_both, with_queue, without_queue};
ghost use Rattle.sweep_core.specs.declared.fault.StoreFault.TheVariants as store;
ghost use Rattle.sweep_core.specs.declared.fault.SweepFault.TheVariants as fault;
ghost use Rattle.settled_front.specs.Fronts.{IsCovered};
ghost use Rattle.sweep_parts.specs.Settled.{IsBehind, IsSettledList, Pushes, count_settled};
ghost use Rattle.waiting_item.specs.Waiting.{AreCriteria, as_waiting, spot_in};

use crate::limit::CostLimit;
use crate::look::{Spent, take_unspent};
use crate::relaxing::relax_arc;
use crate::start::{start_item, step_of};
use crate::{Potential, StoreFault, SweepFault};
use arc_graph::Network;
use cost_vector::NodeNo;
use out_of_memory::OutOfMemory;
use road_network::Query;
use std::alloc::Global;
use std::marker::Model;
use stored_cost::{Part, StoredCost};
use sweep_parts::{LeastQueue, Look, SettledLists};
use waiting_item::Item;

/// A search by one worker in the order of cost, with costs stored at one width: each settled label is the lexicographically least
/// of those that wait, with the height of its node added to its cost. After an error it is only to be let go.
#[derive(Drop)]
pub struct Sweep<const D: usize, S: SettledLists<D>, Q: LeastQueue<D, S::Cost>> {
    start: NodeNo,
    target: NodeNo,
    limit: CostLimit<D>,
    budget: u32,
    lists: S,
    queue: Q,
}

impl<const D: usize, S: SettledLists<D>, Q: LeastQueue<D, S::Cost>> Model for Sweep<D, S, Q> {
    ghost use Rattle.sweep_core.specs.Sweeps.{Sweep};

    ghost Value = { Sweep };

    ghost view = { λ s. record {
      start = s.start.0;
      target = s.target.0;
      limit = s.limit;
      budget = s.budget;
      settled = S.lists s.lists;
      queue = Q.waiting s.queue;
    } };
}

impl<const D: usize, S: SettledLists<D>, Q: LeastQueue<D, S::Cost>> Sweep<D, S, Q> {
    /// A search for a query in which the start waits, if it has a height and is within the limit.
    pub fn new<P: Potential>(
        alloc: Global,
        network: &Network<'_>,
        query: &Query,
        potential: &mut P,
    ) -> Result<Sweep<D, S, Q>, StoreFault>
        requires query { IsQuery network.now query.now }
        requires criteria { network.now.criteria ≡ D }
        requires tells { P.tells potential.old network.now query.now.to }
        ensures tells { OnOk result (P.tells potential.new network.now query.now.to) }
        ensures sweep { IfOk result (IsSweep network.now (P.height network.now query.now.to)) }
        ensures search { IfOk result (IsSearchFor query.now (limit_of network.now.criteria query.now)) }
        ensures tells_still { result ≡ Err store.TooWide
            → P.tells potential.new network.now query.now.to }
        ensures too_wide { result ≡ Err store.TooWide → HasNoRoom network.now query.now.from
            query.now.to (limit_of network.now.criteria query.now)
            (P.height network.now query.now.to) S.Cost.Part.bound }
    {
        prove!(network.nodes() >= 1);
        prove!(network.criteria() == D);
        let (start, target) = (NodeNo(query.from), NodeNo(query.to));
        let limit = CostLimit::new(query.limit_in(network.criteria()));
        let first = start_item::<D, S::Cost, P>(network, potential, start, target, &limit)?;
        Ok(Sweep {
            start,
            target,
            limit,
            budget: query.budget,
            lists: S::new(alloc, network.nodes())?,
            queue: queue_of(alloc, step_of(network), first)?,
        })
    }

    /// Settles all that is relevant by the potential, within the budget.
    pub fn run<P: Potential>(
        &mut self,
        network: &Network<'_>,
        potential: &mut P,
    ) -> Result<(), SweepFault>
        requires criteria { network.now.criteria ≡ D }
        requires most { self.old.budget ≤ max_budget }
        requires tells { P.tells potential.old network.now self.old.target }
        requires sweep { IsSweep network.now (P.height network.now self.old.target) self.old }
        ensures tells { OnOk result (P.tells potential.new network.now self.old.target) }
        ensures same { OnOk result (IsSameSearch self.old self.new) }
        ensures all { OnOk result (SettlesAll network.now self.old.start self.old.target
            self.old.limit (P.height network.now self.old.target) self.new.settled) }
        ensures in_budget { OnOk result (¬ PassesBy network.now self.old.start self.old.target
            self.old.limit (P.height network.now self.old.target) self.old.budget) }
        ensures budget { result ≡ Err fault.Budget → PassesBy network.now self.old.start self.old.target
            self.old.limit (P.height network.now self.old.target) self.old.budget }
        ensures tells_still { result ≡ Err fault.TooWide
            → P.tells potential.new network.now self.old.target }
        ensures too_wide { result ≡ Err fault.TooWide → HasNoRoom network.now self.old.start
            self.old.target self.old.limit (P.height network.now self.old.target) S.Cost.Part.bound }
    {
        prove!(network.nodes() >= 1);
        'labels: while let Some(item) = self.take_next::<P>(network)? {
            if self.is_full() {
                return Err(SweepFault::Budget);
            }
            self.settle(network, potential, &item)?;
        }
        Ok(())
    }

    /// The settled costs, each with the height of its node added.
    pub fn into_lists(self) -> S
        ensures { S.lists result ≡ self.settled }
    {
        self.lists
    }

    /// Takes the least item out of the queue that isn't spent.
    fn take_next<P: Potential>(
        &mut self,
        network: &Network<'_>,
    ) -> Result<Option<Item<S::Cost>>, OutOfMemory>
        requires sweep { IsSweep network.now (P.height network.now self.old.target) self.old }
        ensures rest { OnOk result (self.new ≡ with_queue self.old self.new.queue) }
        ensures next { IfOk result (λ taken. IfSome taken (λ i. IsNext network.now
            (P.height network.now self.old.target) self.new (as_waiting S.Cost.components i))) }
        ensures ended { IfOk result (λ taken. IfNone taken
            (IsEnded network.now (P.height network.now self.old.target) self.new)) }
    {
        prove!(network.nodes() >= 1);
        take_unspent(&self.lists, self.target, &mut self.queue)
    }

    /// Settles the least item that waited and isn't spent, and lets wait what follows it.
    fn settle<P: Potential>(
        &mut self,
        network: &Network<'_>,
        potential: &mut P,
        item: &Item<S::Cost>,
    ) -> Result<(), StoreFault>
        requires criteria { network.now.criteria ≡ D }
        requires most { self.old.budget ≤ max_budget }
        requires room { count_settled self.old.settled < self.old.budget }
        requires tells { P.tells potential.old network.now self.old.target }
        requires next { IsNext network.now (P.height network.now self.old.target) self.old
            (as_waiting S.Cost.components item.now) }
        ensures tells { OnOk result (P.tells potential.new network.now self.old.target) }
        ensures settles { OnOk result (Settles network.now
            (P.height network.now self.old.target) self.old self.new) }
        ensures tells_still { result ≡ Err store.TooWide
            → P.tells potential.new network.now self.old.target }
        ensures too_wide { result ≡ Err store.TooWide → HasNoRoom network.now self.old.start
            self.old.target self.old.limit (P.height network.now self.old.target) S.Cost.Part.bound }
    {
        prove!(network.nodes() >= 1);
        self.push(item)?;
        self.relax(network, potential, item)?;
        Ok(())
    }

    /// Lets wait what follows the item that was settled last, arc by arc, but for what is spent or beyond the limit.
    fn relax<P: Potential>(
        &mut self,
        network: &Network<'_>,
        potential: &mut P,
        item: &Item<S::Cost>,
    ) -> Result<(), StoreFault>
        requires criteria { network.now.criteria ≡ D }
        requires tells { P.tells potential.old network.now self.old.target }
        requires settled { IsRelaxing network.now (P.height network.now self.old.target)
            (without_queue self.old) (as_waiting S.Cost.components item.now) }
        ensures tells { OnOk result (P.tells potential.new network.now self.old.target) }
        ensures rest { OnOk result (self.new ≡ with_queue self.old self.new.queue) }
        ensures follows { OnOk result (Follows network.now (P.height network.now self.old.target)
            (without_queue self.old) (as_waiting S.Cost.components item.now) (λ _. Unit {0})
            self.old.queue self.new.queue) }
        ensures tells_still { result ≡ Err store.TooWide
            → P.tells potential.new network.now self.old.target }
        ensures too_wide { result ≡ Err store.TooWide → HasNoRoomFrom network.now
            (P.height network.now self.old.target) self.old.limit
            (spot_in S.Cost.components item.now) S.Cost.Part.bound }
    {
        prove!(network.nodes() >= 1);
        let target = self.target();
        let Some(own) = potential.at(network, target, item.node)? else {
            return Ok(());
        };
        for &arc in network.out_arcs(item.node) {
            let limit = self.limit();
            if let Some(next) = relax_arc(network, potential, target, limit, item, &own, arc)? {
                self.let_wait(&next)?;
            }
        }
        Ok(())
    }

    /// Lets an item wait unless it is spent.
    fn let_wait(&mut self, item: &Item<S::Cost>) -> Result<(), OutOfMemory>
        requires { CanTell self.old.settled self.old.target (spot_in S.Cost.components item.now) }
        ensures rest { OnOk result (self.new ≡ with_queue self.old self.new.queue) }
        ensures waits { OnOk result (LetsWait self.old.settled self.old.target
            (as_waiting S.Cost.components item.now) self.old.queue self.new.queue) }
    {
        let look = Spent {
            lists: &self.lists,
            target: self.target,
        };
        if look.is_spent(item) {
            return Ok(());
        }
        self.queue.put(*item)
    }

    /// The node to which walks lead.
    fn target(&self) -> NodeNo
        ensures { result.0 ≡ self.now.target }
    {
        self.target
    }

    /// The limit of the query.
    fn limit(&self) -> &CostLimit<D>
        ensures { result.now ≡ self.now.limit }
    {
        &self.limit
    }

    /// Whether as much is settled as the budget allows.
    fn is_full(&self) -> bool
        ensures full { IsTrue result ↔ (count_settled self.now.settled ≡ self.now.budget) }
        ensures ordered { (v : ℕ) → IsSettledList (costs_at self.now v) }
    {
        self.lists.are_settled();
        self.lists.count() == self.budget
    }

    /// Settles the cost of an item at its node.
    fn push(&mut self, item: &Item<S::Cost>) -> Result<(), OutOfMemory>
        requires node { item.now.node.0 < length self.old.settled }
        requires few { count_settled self.old.settled < max_budget }
        requires behind { IsBehind (costs_at self.old item.now.node.0)
            (S.Cost.components item.now.cost) }
        requires uncovered { ¬ IsCovered (costs_at self.old item.now.node.0)
            (S.Cost.components item.now.cost) }
        ensures pushed { OnOk result (Pushes self.old.settled item.now.node.0
            (S.Cost.components item.now.cost) self.new.settled) }
        ensures rest { OnOk result
            (self.new ≡ with_both self.old self.new.settled self.old.queue) }
    {
        self.lists.push(item.node, &item.cost)
    }
}

/// A queue in which the item waits, if there is one.
fn queue_of<const D: usize, C: StoredCost<D>, Q: LeastQueue<D, C>>(
    alloc: Global,
    step: u64,
    first: Option<Item<C>>,
) -> Result<Q, OutOfMemory>
    requires criteria { AreCriteria D }
    ensures none { IfNone first (IfOk result (λ q. Q.waiting q ≡ [])) }
    ensures one { IfSome first (λ i. IfOk result (λ q.
        IsPermutation (as_waiting C.components i ∷ []) (Q.waiting q))) }
{
    let Some(item) = first else {
        return Q::new(alloc, 0, step);
    };
    let mut queue = Q::new(alloc, item.cost.part(0).to_number(), step)?;
    queue.put(item)?;
    Ok(queue)
}
