ghost use Rattle.std.specs.Prelude.{◌≡◌, ◌≢◌, ℕ, ◌+◌, ◌^◌, ◌<◌, ◌≤◌, ◌↔◌, [], length, IfOk, IfSome, IfNone, OnOk, IsTrue};
ghost use Rattle.road_network.specs.Network.{IsNode};
ghost use Rattle.arc_graph.specs.Graph.{head_of};
ghost use Rattle.goal_bounds.specs.Reverse.{GoesBack, IsFinal, IsLeastOf, IsReverse, NoneLeads, value_at, weight_of};

use arc_graph::Network;
use cost_vector::{ArcNo, NodeNo};
use out_of_memory::OutOfMemory;
use std::alloc::Global;
use std::cmp::Reverse;
use std::collections::BinaryHeap;
use std::marker::Model;

/// Stands for a node from which no walk is known.
const UNREACHED: u64 = u64::MAX;

/// A node, with one component of the cost of a walk from there to the target.
#[derive(Clone, Copy, Debug, PartialEq, Eq, PartialOrd, Ord)]
pub(crate) struct Reached {
    value: u64,
    node: NodeNo,
}

/// The search, backwards from a target, for the least component of one criterion that walks to it have. It goes as far as it is
/// asked to. After an error it is only to be let go.
#[derive(Drop)]
pub(crate) struct ReverseSearch {
    target: NodeNo,
    criterion: usize,
    /// By the node's number the least component known so far.
    values: Vec<u64>,
    heap: BinaryHeap<Reverse<Reached>>,
}

impl Model for ReverseSearch {
    ghost use Rattle.std.specs.BinaryHeap.{IsHeap, heap_items};
    ghost use Rattle.goal_bounds.specs.Reverse.{ReverseSearch, by_value};

    ghost Value = { ReverseSearch };

    ghost view = { λ s. record {
      target = s.target.0;
      criterion = s.criterion;
      values = s.values.items;
      items = heap_items s.heap;
    } };

    ghost invariant = { λ s. IsHeap by_value (heap_items s.heap) };
}

impl ReverseSearch {
    /// A search in which the target alone waits.
    pub fn new(
        alloc: Global,
        network: &Network<'_>,
        target: NodeNo,
        criterion: usize,
    ) -> Result<ReverseSearch, OutOfMemory>
        requires target { IsNode network.now.nodes target.0 }
        requires criterion { criterion < network.now.criteria }
        ensures { IfOk result (IsReverse network.now target.0 criterion) }
    {
        let mut values = vec![in alloc; UNREACHED; network.nodes() as usize + 1]?;
        values[target.0 as usize] = 0;
        let mut heap = BinaryHeap::new(alloc);
        heap.push(Reverse(Reached {
            value: 0,
            node: target,
        }))?;
        Ok(ReverseSearch {
            target,
            criterion,
            values,
            heap,
        })
    }

    /// The least component that walks from the node to the target have, or `None` where none leads there. The search goes on
    /// until it is known.
    #[inline(always)]
    pub fn least(&mut self, network: &Network<'_>, node: NodeNo) -> Result<Option<u64>, OutOfMemory>
        requires node { IsNode network.now.nodes node.0 }
        requires reverse { IsReverse network.now self.old.target self.old.criterion self.old }
        ensures reverse { OnOk result
            (IsReverse network.now self.old.target self.old.criterion self.new) }
        ensures least { IfOk result (λ found. IfSome found
            (IsLeastOf network.now node.0 self.old.target self.old.criterion)) }
        ensures none { IfOk result (λ found. IfNone found
            (NoneLeads network.now node.0 self.old.target)) }
    {
        prove!(network.nodes() >= 1);
        while !self.is_final(node) {
            self.step(network)?;
        }
        let value = self.values[node.0 as usize];
        if value == UNREACHED {
            return Ok(None);
        }
        Ok(Some(value))
    }

    /// Whether no item that waits is less than what is known for the node.
    #[inline(always)]
    fn is_final(&self, node: NodeNo) -> bool
        requires { node.0 < length self.now.values }
        ensures { IsTrue result ↔ IsFinal self.now node.0 }
    {
        match self.heap.peek() {
            None => true,
            Some(Reverse(least)) => self.values[node.0 as usize] <= least.value,
        }
    }

    /// Takes out the least item, and goes back from its node, unless less is known there by now.
    fn step(&mut self, network: &Network<'_>) -> Result<(), OutOfMemory>
        requires { IsReverse network.now self.old.target self.old.criterion self.old }
        ensures reverse { OnOk result
            (IsReverse network.now self.old.target self.old.criterion self.new) }
        ensures falls { OnOk result (self.old.items ≢ [] → weight_of self.new < weight_of self.old) }
    {
        prove!(network.nodes() >= 1);
        let Some(Reverse(least)) = self.heap.pop() else {
            return Ok(());
        };
        if self.values[least.node.0 as usize] != least.value {
            return Ok(());
        }
        self.expand(network, least.node, least.value)
    }

    /// Goes back along all arcs into a node, for which this value is known: it isn't stale.
    fn expand(&mut self, network: &Network<'_>, node: NodeNo, value: u64) -> Result<(), OutOfMemory>
        requires node { IsNode network.now.nodes node.0 }
        requires known { value ≡ value_at self.old node.0 }
        requires room { value < 2 ^ 55 }
        requires count { length self.old.values ≡ network.now.nodes + 1 }
        requires criterion { self.old.criterion < network.now.criteria }
        ensures { OnOk result
            (GoesBack network.now node.0 value (λ _. Unit {0}) self.old self.new) }
    {
        for &arc in network.in_arcs(node) {
            self.go_back(network, arc, value)?;
        }
        Ok(())
    }

    /// Lowers what is known where an arc leads from to what is found along it, if that is less; then it waits.
    fn go_back(&mut self, network: &Network<'_>, arc: ArcNo, value: u64) -> Result<(), OutOfMemory>
        requires counted { 1 ≤ arc.0 }
        requires there { arc.0 ≤ length network.now.ends }
        requires room { value < 2 ^ 55 }
        requires count { length self.old.values ≡ network.now.nodes + 1 }
        requires criterion { self.old.criterion < network.now.criteria }
        ensures { OnOk result (GoesBack network.now (head_of network.now.ends arc) value
            (λ k. k ≡ arc.0) self.old self.new) }
    {
        prove!(network.nodes() >= 1);
        let Some(weight) = network.weight(arc) else {
            return Ok(());
        };
        let tail = network.tail(arc);
        let found = value + u64::from(weight.component(self.criterion));
        if found < self.values[tail.0 as usize] {
            self.heap.push(Reverse(Reached {
                value: found,
                node: tail,
            }))?;
            self.values[tail.0 as usize] = found;
        }
        Ok(())
    }
}
