//! Makes the files of large inputs from four numbers: a weight file of a square grid for each criterion, and a file of
//! pairs of nodes. The same numbers give the same bytes.
#![tactic(auto)]

ghost use Rattle.std.specs.Prelude.{◌≡◌, ◌≤◌, IfOk};
ghost use Rattle.cost_vector.specs.Costs.{max_criteria};
ghost use Rattle.graph_gen.specs.Plans.{IsPlan, max_pairs, max_side, min_pairs, min_side};
ghost use Rattle.graph_gen.specs.Texts.{file_text};

mod arc_lines;
mod grid;
mod line;
mod pairs;
mod sequence;

use arc_lines::weight_file;
use cost_vector::{MAX_CRITERIA, MIN_CRITERIA};
pub use grid::GridCell;
use out_of_memory::OutOfMemory;
use pairs::pairs_file;
use ranged_number::Ranged;
use std::alloc::Global;

/// The fewest rows and columns of a grid.
pub const MIN_SIDE: u32 = 2;
/// The most rows and columns of a grid.
pub const MAX_SIDE: u32 = 1_000;
/// The fewest pairs.
pub const MIN_PAIRS: u32 = 1;
/// The most pairs.
pub const MAX_PAIRS: u32 = 500;
/// The fewest weight files, of which each is one criterion.
pub const MIN_WEIGHT_FILES: u32 = MIN_CRITERIA as u32;
/// The most weight files.
pub const MAX_WEIGHT_FILES: u32 = MAX_CRITERIA as u32;

/// What is to be made.
#[derive(Clone, Copy, Debug, PartialEq, Eq)]
pub struct GenPlan {
    /// The number that the weights are drawn from.
    pub start: u32,
    /// How many rows and columns the grid has.
    pub side: Ranged<MIN_SIDE, MAX_SIDE>,
    /// How many weight files there are.
    pub criteria: Ranged<MIN_WEIGHT_FILES, MAX_WEIGHT_FILES>,
    pub pairs: Ranged<MIN_PAIRS, MAX_PAIRS>,
}

impl GenPlan {
    /// Its numbers are within their ranges, as their types say.
    pub fn numbers_are_in_range(&self)
        ensures { IsPlan self.now }
    {
        let _side = self.side.get();
        let _criteria = self.criteria.get();
        let _pairs = self.pairs.get();
    }
}

/// Makes file 0, which is that of pairs, or the weight file of the criterion of this number.
pub fn gen_file(alloc: Global, plan: &GenPlan, number: u32) -> Result<Vec<u8>, OutOfMemory>
    requires { number ≤ max_criteria }
    ensures { IfOk result (λ file. file.items ≡ file_text plan.now number) }
{
    if number == 0 {
        pairs_file(alloc, plan)
    } else {
        weight_file(alloc, plan, number)
    }
}
