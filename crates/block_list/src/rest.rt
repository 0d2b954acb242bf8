ghost use Rattle.std.specs.Prelude.{◌≡◌, ◌<◌, ◌↔◌, ◌∷◌, ℕ, List, [], length, All, IfOk, IsPermutation, IsTrue, OnErr};
ghost use Rattle.settled_front.specs.Fronts.{IsCovered};
ghost use Rattle.settled_list.specs.Ascending.{rest};

use out_of_memory::OutOfMemory;
use settled_front::{BlockFront, NarrowBlock, SettledFront, WideBlock};
use std::alloc::Global;
use stored_cost::{NarrowCost, Part, StoredCost, WideCost};

/// The rests of costs of 4 components, what is behind their first ones.
pub trait RestFront: Drop {
    /// How a whole cost is stored.
    type Whole: StoredCost<4>;

    /// The rests, in some order.
    ghost rests: { Self → List (List ℕ) };

    /// A front without rests.
    fn without_rests(alloc: Global) -> Self
        ensures { rests result ≡ [] };

    /// Whether one of them is at most the rest of this cost.
    fn covers_rest(&self, cost: &Self::Whole) -> bool
        ensures exact { IsTrue result
            ↔ IsCovered (rests self.now) (rest (Self.Whole.components cost.now)) }
        ensures long { length (Self.Whole.components cost.now) ≡ 4 };

    /// Adds the rest of this cost, which none of them is at most. It may be at most some, which stay.
    fn add_rest(&mut self, cost: &Self::Whole) -> Result<(), OutOfMemory>
        requires { ¬ IsCovered (rests self.old) (rest (Self.Whole.components cost.now)) }
        ensures added { IfOk result (λ _.
            IsPermutation (rest (Self.Whole.components cost.now) ∷ rests self.old) (rests self.new)) }
        ensures same { OnErr result (rests self.new ≡ rests self.old) };
}

impl RestFront for BlockFront<3, NarrowBlock<3>> {
    type Whole = NarrowCost<4>;

    ghost rests = { λ f. f };

    fn without_rests(alloc: Global) -> BlockFront<3, NarrowBlock<3>> {
        BlockFront::new(alloc)
    }

    fn covers_rest(&self, cost: &NarrowCost<4>) -> bool {
        self.covers(&NarrowCost::of(&behind_first(cost)))
    }

    fn add_rest(&mut self, cost: &NarrowCost<4>) -> Result<(), OutOfMemory> {
        self.add(&NarrowCost::of(&behind_first(cost)))
    }
}

impl RestFront for BlockFront<3, WideBlock<3>> {
    type Whole = WideCost<4>;

    ghost rests = { λ f. f };

    fn without_rests(alloc: Global) -> BlockFront<3, WideBlock<3>> {
        BlockFront::new(alloc)
    }

    fn covers_rest(&self, cost: &WideCost<4>) -> bool {
        self.covers(&WideCost::of(&behind_first(cost)))
    }

    fn add_rest(&mut self, cost: &WideCost<4>) -> Result<(), OutOfMemory> {
        self.add(&WideCost::of(&behind_first(cost)))
    }
}

/// The components behind the first.
#[tactic(auto, using(crate::proofs::RestPush::rest_of_four))]
fn behind_first<C: StoredCost<4>>(cost: &C) -> [u64; 3]
    ensures same { result ≡ rest (C.components cost.now) }
    ensures long { length (C.components cost.now) ≡ 4 }
    ensures fits { All (λ x. x < C.Part.bound) result }
{
    [
        cost.part(1).to_number(),
        cost.part(2).to_number(),
        cost.part(3).to_number(),
    ]
}
