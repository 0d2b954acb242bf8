//! At which label the last rule fails first: its cost is compared with those of its node's labels so far.
ghost use Rattle.std.specs.Prelude.{◌≡◌, ◌≢◌, ℕ, ◌<◌, ◌≤◌, ◌↔◌, [], ◌∷◌, Some, length, slice_get, All, AllPairs, IfOk, IsPermutation, IsTrue};
ghost use Rattle.cost_vector.specs.Costs.{Dominates, max_criteria, min_criteria};
ghost use Rattle.settled_front.specs.Fronts.{IsCovered as IsCoveredBy};
ghost use Rattle.cert_rules.specs.Certificates.{IsBefore, max_component};
ghost use Rattle.front_cert.specs.Checks.{TellsBeaten};
ghost use Rattle.front_cert.specs.Listing.{line_of};
ghost use Rattle.front_cert.specs.Passed.{ArePassed};

use crate::Listing;
use cost_vector::{CompactCost, Cost, Label, NodeNo};
use out_of_memory::OutOfMemory;
use settled_front::{BlockFront, SettledFront, StairFront, WideBlock};
use std::alloc::Global;
use stored_cost::{StoredCost, WideCost};

impl Listing {
    /// The place of the first label whose cost a listed one of its node dominates, from 0. Where there is none that is known from
    /// then on.
    pub(crate) fn seek_beaten(&mut self, alloc: Global) -> Result<Option<usize>, OutOfMemory>
        requires whole { All (λ l. length l.cost ≡ self.old.criteria) self.old.cert.labels }
        requires small { All (λ l. All (λ x. x ≤ max_component) l.cost) self.old.cert.labels }
        requires ascending { AllPairs IsBefore self.old.cert.labels }
        ensures same { self.new ≡ self.old }
        ensures tells { IfOk result (TellsBeaten self.old.cert.labels) }
    {
        let beaten = self.first_beaten(alloc)?;
        self.set_unbeaten(beaten.is_none());
        Ok(beaten)
    }

    /// The place of the first label whose cost a listed one of its node dominates, from 0.
    fn first_beaten(&self, alloc: Global) -> Result<Option<usize>, OutOfMemory>
        requires whole { All (λ l. length l.cost ≡ self.now.criteria) self.now.cert.labels }
        requires small { All (λ l. All (λ x. x ≤ max_component) l.cost) self.now.cert.labels }
        requires ascending { AllPairs IsBefore self.now.cert.labels }
        ensures { IfOk result (TellsBeaten self.now.cert.labels) }
    {
        match self.criteria {
            2 => self.first_beaten_by::<2, StairFront<WideCost<2>>>(alloc),
            3 => self.first_beaten_by::<3, BlockFront<3, WideBlock<3>>>(alloc),
            _ => self.first_beaten_by::<4, BlockFront<4, WideBlock<4>>>(alloc),
        }
    }

    /// The same with a front of the costs of a node's labels so far, which tells whether one of these dominates the next.
    fn first_beaten_by<const D: usize, F: SettledFront<D>>(
        &self,
        alloc: Global,
    ) -> Result<Option<usize>, OutOfMemory>
        requires two { min_criteria ≤ D }
        requires four { D ≤ max_criteria }
        requires room { max_component < F.Cost.Part.bound }
        requires whole { All (λ l. length l.cost ≡ D) self.now.cert.labels }
        requires small { All (λ l. All (λ x. x ≤ max_component) l.cost) self.now.cert.labels }
        requires ascending { AllPairs IsBefore self.now.cert.labels }
        ensures { IfOk result (TellsBeaten self.now.cert.labels) }
    {
        let mut node = NodeNo(0);
        let mut costs = F::new(alloc);
        for i in 0..self.len() {
            let label = self.next_label::<D, F>(alloc, &mut costs, node, i);
            node = label.node;
            if covers::<D, F>(&costs, &label.cost) {
                return Ok(Some(i));
            }
            push::<D, F>(&mut costs, &label.cost)?;
        }
        Ok(None)
    }

    /// The label at the place `i`, whose node's costs so far these are then; they were those of the last label's node.
    fn next_label<const D: usize, F: SettledFront<D>>(
        &self,
        alloc: Global,
        costs: &mut F,
        last: NodeNo,
        i: usize,
    ) -> Label
        requires two { min_criteria ≤ D }
        requires four { D ≤ max_criteria }
        requires within { i < length self.now.cert.labels }
        requires ascending { AllPairs IsBefore self.now.cert.labels }
        requires passed { ArePassed self.now.cert.labels i last.0 (F.costs costs.old) }
        ensures label { slice_get self.now.cert.labels i ≡ Some (line_of result) }
        ensures passed { ArePassed self.now.cert.labels i result.node.0 (F.costs costs.new) }
    {
        let label = self.label(i);
        turn::<D, F>(alloc, costs, last, label.node);
        label
    }
}

/// Begins anew where the next label is of another node than the last one.
pub(crate) fn turn<const D: usize, F: SettledFront<D>>(
    alloc: Global,
    costs: &mut F,
    last: NodeNo,
    next: NodeNo,
)
    requires two { min_criteria ≤ D }
    requires four { D ≤ max_criteria }
    ensures stays { last.0 ≡ next.0 → F.costs costs.new ≡ F.costs costs.old }
    ensures begins { last.0 ≢ next.0 → F.costs costs.new ≡ [] }
{
    if last != next {
        *costs = F::new(alloc);
    }
}

/// Whether one of the costs is at most this one.
pub(crate) fn covers<const D: usize, F: SettledFront<D>>(costs: &F, cost: &Cost) -> bool
    requires four { D ≤ max_criteria }
    requires long { length cost.now ≡ D }
    requires room { All (λ x. x < F.Cost.Part.bound) cost.now }
    ensures { IsTrue result ↔ IsCoveredBy (F.costs costs.now) cost.now }
{
    let cost = CompactCost::<D>::of(cost);
    costs.covers(&F::Cost::of(&cost.0))
}

/// Takes the cost of a label, which none of these is at most, and which dominates none of them.
pub(crate) fn push<const D: usize, F: SettledFront<D>>(
    costs: &mut F,
    cost: &Cost,
) -> Result<(), OutOfMemory>
    requires four { D ≤ max_criteria }
    requires long { length cost.now ≡ D }
    requires room { All (λ x. x < F.Cost.Part.bound) cost.now }
    requires uncovered { ¬ IsCoveredBy (F.costs costs.old) cost.now }
    requires spares { All (λ c. ¬ Dominates cost.now c) (F.costs costs.old) }
    ensures { IfOk result (λ _. IsPermutation (cost.now ∷ F.costs costs.old) (F.costs costs.new)) }
{
    let cost = CompactCost::<D>::of(cost);
    costs.push(&F::Cost::of(&cost.0))
}
