ghost use Rattle.found_fronts.specs.Findings.{found_of};

use crate::FoundAtWidth;
use crate::question::Question;
use crate::questions::{CostAt, CostsOf, Count, Has, Longest, Settled, Start, Target};
use cost_vector::{Cost, NodeNo};
use out_of_memory::OutOfMemory;
use settled_front::{BlockFront, NarrowBlock, StairFront};
use std::alloc::Global;
use stored_cost::NarrowCost;
use walk_readback::{FoundCosts, SettledCosts};

/// What a query found, by the number of its criteria.
#[derive(Drop)]
pub enum Findings {
    Two(FoundAtWidth<2, StairFront<NarrowCost<2>>>),
    Three(FoundAtWidth<3, BlockFront<3, NarrowBlock<3>>>),
    Four(FoundAtWidth<4, BlockFront<4, NarrowBlock<4>>>),
}

impl Findings {
    /// Asks what was found, whatever the number of criteria.
    fn ask<Q: Question>(&self, question: &Q) -> Q::Answer
        requires { Q.allows question.now (found_of self.now) }
        ensures { Q.accepts question.now (found_of self.now) result }
    {
        match self {
            Findings::Two(found) => found.ask(question),
            Findings::Three(found) => found.ask(question),
            Findings::Four(found) => found.ask(question),
        }
    }
}

impl FoundCosts for Findings {
    ghost use Rattle.found_fronts.specs.Findings.{found_of};

    ghost state = { found_of };

    fn start(&self) -> NodeNo {
        self.ask(&Start)
    }

    fn target(&self) -> NodeNo {
        self.ask(&Target)
    }

    fn count(&self) -> usize {
        self.ask(&Count)
    }

    fn cost(&self, i: usize) -> Cost {
        self.ask(&CostAt(i))
    }

    fn has(&self, node: NodeNo, cost: &Cost) -> bool {
        self.ask(&Has { node, cost })
    }

    fn longest(&self) -> u32 {
        self.ask(&Longest)
    }
}

impl SettledCosts for Findings {
    fn settled(&self) -> usize {
        self.ask(&Settled)
    }

    fn costs_of(&self, alloc: Global, node: NodeNo) -> Result<Vec<Cost>, OutOfMemory> {
        self.ask(&CostsOf { alloc, node })
    }
}
