ghost use Rattle.found_fronts.specs.FoundAtWidth.{found_of};

use crate::FoundFronts;
use crate::question::Question;
use crate::questions::{CostAt, CostsOf, Count, Has, Longest, Settled, Start, Target};
use cost_vector::{Cost, NodeNo};
use out_of_memory::OutOfMemory;
use settled_front::NarrowFront;
use std::alloc::Global;
use walk_readback::{FoundCosts, SettledCosts};

/// What a search has found, at the width at which it ended.
#[derive(Drop)]
pub enum FoundAtWidth<const D: usize, F: NarrowFront<D>> {
    Narrow(FoundFronts<D, F>),
    Wide(FoundFronts<D, F::Wide>),
}

impl<const D: usize, F: NarrowFront<D>> FoundAtWidth<D, F> {
    /// Asks what was found, whatever the width.
    pub(crate) fn ask<Q: Question>(&self, question: &Q) -> Q::Answer
        requires { Q.allows question.now (found_of self.now) }
        ensures { Q.accepts question.now (found_of self.now) result }
    {
        match self {
            FoundAtWidth::Narrow(found) => question.ask(found),
            FoundAtWidth::Wide(found) => question.ask(found),
        }
    }
}

impl<const D: usize, F: NarrowFront<D>> FoundCosts for FoundAtWidth<D, F> {
    ghost use Rattle.found_fronts.specs.FoundAtWidth.{found_of};

    ghost state = { found_of };

    fn start(&self) -> NodeNo {
        self.ask(&Start)
    }

    fn target(&self) -> NodeNo {
        self.ask(&Target)
    }

    fn count(&self) -> usize {
        self.ask(&Count)
    }

    fn cost(&self, i: usize) -> Cost {
        self.ask(&CostAt(i))
    }

    fn has(&self, node: NodeNo, cost: &Cost) -> bool {
        self.ask(&Has { node, cost })
    }

    fn longest(&self) -> u32 {
        self.ask(&Longest)
    }
}

impl<const D: usize, F: NarrowFront<D>> SettledCosts for FoundAtWidth<D, F> {
    fn settled(&self) -> usize {
        self.ask(&Settled)
    }

    fn costs_of(&self, alloc: Global, node: NodeNo) -> Result<Vec<Cost>, OutOfMemory> {
        self.ask(&CostsOf { alloc, node })
    }
}
