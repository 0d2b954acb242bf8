use crate::question::Question;
use cost_vector::{Cost, NodeNo};
use out_of_memory::OutOfMemory;
use std::alloc::Global;
use walk_readback::{FoundCosts, SettledCosts};

/// From which node do walks lead?
pub(crate) struct Start;

impl Question for Start {
    ghost use Rattle.std.specs.Prelude.{◌≡◌};

    type Answer = NodeNo;

    ghost allows = { λ q f. Unit {0} };

    ghost accepts = { λ q f node. node.0 ≡ f.start };

    fn ask<F: SettledCosts>(&self, found: &F) -> NodeNo {
        found.start()
    }
}

/// To which node do they lead?
pub(crate) struct Target;

impl Question for Target {
    ghost use Rattle.std.specs.Prelude.{◌≡◌};

    type Answer = NodeNo;

    ghost allows = { λ q f. Unit {0} };

    ghost accepts = { λ q f node. node.0 ≡ f.target };

    fn ask<F: SettledCosts>(&self, found: &F) -> NodeNo {
        found.target()
    }
}

/// How many costs has the target?
pub(crate) struct Count;

impl Question for Count {
    ghost use Rattle.std.specs.Prelude.{◌≡◌, length};
    ghost use Rattle.walk_readback.specs.Found.{IsFound};

    type Answer = usize;

    ghost allows = { λ q f. Unit {0} };

    ghost accepts = { λ q f count. IsFound f × (count ≡ length f.costs) };

    fn ask<F: SettledCosts>(&self, found: &F) -> usize {
        found.count()
    }
}

/// Which of them stands at this place?
#[derive(Drop)]
pub(crate) struct CostAt(pub(crate) usize);

impl Question for CostAt {
    ghost use Rattle.std.specs.Prelude.{◌≡◌, ◌<◌, Some, length, slice_get};
    ghost use Rattle.walk_readback.specs.Found.{IsFound};

    type Answer = Cost;

    ghost allows = { λ q f. q.0 < length f.costs };

    ghost accepts = { λ q f cost. IsFound f × (slice_get f.costs q.0 ≡ Some cost) };

    fn ask<F: SettledCosts>(&self, found: &F) -> Cost {
        found.cost(self.0)
    }
}

/// Is this cost settled at the node?
#[derive(Drop)]
pub(crate) struct Has<'a> {
    pub(crate) node: NodeNo,
    pub(crate) cost: &'a Cost,
}

impl<'a> Question for Has<'a> {
    ghost use Rattle.std.specs.Prelude.{◌≡◌, length, IsTrue};
    ghost use Rattle.road_network.specs.Network.{IsNode};
    ghost use Rattle.walk_readback.specs.Found.{HasSettled, IsBelowSettled, IsCovered};

    type Answer = bool;

    ghost allows = { λ q f. IsNode f.nodes q.node.0 × (length q.cost.now ≡ f.criteria) × IsBelowSettled f q.cost.now };

    ghost accepts = { λ q f has. (HasSettled f q.node.0 q.cost.now → IsTrue has) × (IsTrue has → IsCovered f q.node.0 q.cost.now) };

    fn ask<F: SettledCosts>(&self, found: &F) -> bool {
        found.has(self.node, self.cost)
    }
}

/// How many arcs can a walk have at most?
pub(crate) struct Longest;

impl Question for Longest {
    ghost use Rattle.std.specs.Prelude.{◌≡◌};
    ghost use Rattle.walk_readback.specs.Found.{longest_in};

    type Answer = u32;

    ghost allows = { λ q f. Unit {0} };

    ghost accepts = { λ q f longest. longest ≡ longest_in f };

    fn ask<F: SettledCosts>(&self, found: &F) -> u32 {
        found.longest()
    }
}

/// How many pairs are settled?
pub(crate) struct Settled;

impl Question for Settled {
    ghost use Rattle.std.specs.Prelude.{◌≡◌, ◌-◌, ◌^◌, length, min};

    type Answer = usize;

    ghost allows = { λ q f. Unit {0} };

    ghost accepts = { λ q f count. count ≡ min (length f.settled) (2 ^ 64 - 1) };

    fn ask<F: SettledCosts>(&self, found: &F) -> usize {
        found.settled()
    }
}

/// Which costs of the node are settled?
#[derive(Drop)]
pub(crate) struct CostsOf {
    pub(crate) alloc: Global,
    pub(crate) node: NodeNo,
}

impl Question for CostsOf {
    ghost use Rattle.std.specs.Prelude.{IfOk};
    ghost use Rattle.road_network.specs.Network.{IsNode};
    ghost use Rattle.walk_readback.specs.SettledCosts.{ListsSettled};

    type Answer = Result<Vec<Cost>, OutOfMemory>;

    ghost allows = { λ q f. IsNode f.nodes q.node.0 };

    ghost accepts = { λ q f result. IfOk result (λ list. ListsSettled f q.node.0 list.items) };

    fn ask<F: SettledCosts>(&self, found: &F) -> Result<Vec<Cost>, OutOfMemory> {
        found.costs_of(self.alloc, self.node)
    }
}
