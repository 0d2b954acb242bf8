ghost use Rattle.std.specs.Prelude.{◌≡◌, List, [], ◌∷◌, All, IfNone, IfOk, IfSome, IsPermutation};
ghost use Rattle.waiting_item.specs.Waiting.{Waiting, as_waiting};
ghost use Rattle.sweep_parts.specs.Leaving.{LosesSpent, TakesLeast};

use crate::Look;
use out_of_memory::OutOfMemory;
use std::alloc::Global;
use stored_cost::StoredCost;
use waiting_item::Item;

/// What waits, of which the lexicographically least leaves first.
pub trait LeastQueue<const D: usize, C: StoredCost<D>>: Drop {
    /// What waits, in any order.
    ghost waiting: { Self → List Waiting };

    /// A queue in which nothing waits. It is to be fast where the first components of items start from `first`, and are at most
    /// `step` above that of the item taken last; any others wait in it as well.
    fn new(alloc: Global, first: u64, step: u64) -> Result<Self, OutOfMemory>
        ensures { IfOk result (λ q. waiting q ≡ []) };

    /// Lets one wait.
    fn put(&mut self, item: Item<C>) -> Result<(), OutOfMemory>
        ensures { IfOk result (λ _.
            IsPermutation (as_waiting C.components item ∷ waiting self.old) (waiting self.new)) };

    /// Takes one that no other comes before, or none where none waits. What is spent may leave meanwhile.
    fn take<K: Look<D, C>>(&mut self, look: &K) -> Result<Option<Item<C>>, OutOfMemory>
        requires { All (λ w. K.allows look.now w.spot) (waiting self.old) }
        ensures least { IfOk result (λ taken. IfSome taken (λ i. TakesLeast (K.IsSpent look.now)
            (waiting self.old) (as_waiting C.components i) (waiting self.new))) }
        ensures none { IfOk result (λ taken. IfNone taken
            (LosesSpent (K.IsSpent look.now) (waiting self.old) [])) }
        ensures empty { IfOk result (λ taken. IfNone taken (waiting self.new ≡ [])) };
}
