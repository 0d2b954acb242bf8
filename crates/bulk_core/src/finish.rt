ghost use Rattle.std.specs.Prelude.{map, All, IfOk};
ghost use Rattle.bulk_rounds.specs.Cores.{SameSearch};
ghost use Rattle.bulk_rounds.specs.Finishes.{FinishesRound, PutsAll};
ghost use Rattle.bulk_rounds.specs.Kept.{IsKeptItem};
ghost use Rattle.waiting_item.specs.Waiting.{as_waiting};

use crate::Core;
use out_of_memory::OutOfMemory;
use settled_front::SettledFront;
use waiting_item::Item;

impl<const D: usize, F: SettledFront<D>> Core<D, F> {
    /// Ends the round with what its spots give along their arcs, but for what may be left out. Nothing is compared with what
    /// waits.
    pub fn finish(&mut self, candidates: &[Item<F::Cost>]) -> Result<(), OutOfMemory>
        requires { All (IsKeptItem self.old) (map (as_waiting F.Cost.components) candidates.now) }
        ensures same_search { SameSearch self.old self.new }
        ensures put { IfOk result (λ _.
            PutsAll (map (as_waiting F.Cost.components) candidates.now) self.old self.new) }
        ensures finished { IfOk result (λ _.
            FinishesRound (map (as_waiting F.Cost.components) candidates.now) self.old self.new) }
    {
        self.fresh.extend_from_slice(candidates)?;
        self.taken.clear();
        Ok(())
    }
}
