ghost use Rattle.search_tests.specs.KnownCosts.{IsPlace, standing};

use cost_vector::{Cost, NodeNo};
use walk_readback::FoundCosts;

/// What is found where the target is the start.
#[derive(Drop)]
pub(super) struct KnownCosts {
    pub nodes: u32,
    pub criteria: usize,
    pub node: NodeNo,
    ghost place: { IsPlace nodes criteria node.0 },
}

impl FoundCosts for KnownCosts {
    ghost state = { λ f. standing f.nodes f.criteria f.node.0 };

    fn start(&self) -> NodeNo {
        self.node
    }

    fn target(&self) -> NodeNo {
        self.node
    }

    fn count(&self) -> usize {
        1
    }

    fn cost(&self, _i: usize) -> Cost {
        Cost::zero(self.criteria)
    }

    fn has(&self, node: NodeNo, _cost: &Cost) -> bool {
        node == self.node
    }

    fn longest(&self) -> u32 {
        0
    }
}
