ghost use Rattle.std.specs.Prelude.{◌≡◌, ◌≤◌, IfOk};

use crate::Core;
use out_of_memory::OutOfMemory;
use settled_front::NarrowFront;
use std::alloc::Global;
use waiting_queue::widen_items;

impl<const D: usize, F: NarrowFront<D>> Core<D, F> {
    /// The same search, with room for greater costs. A round may be open.
    pub fn widen(&self, alloc: Global) -> Result<Core<D, F::Wide>, OutOfMemory>
        requires { F.Cost.Part.bound ≤ F.Wide.Cost.Part.bound }
        ensures { IfOk result (λ wide. wide ≡ self.now) }
    {
        Ok(Core {
            start: self.start,
            budget: self.budget,
            settled: self.settled.widen(alloc)?,
            count: self.count,
            queue: self.queue.widen(alloc)?,
            fresh: widen_items(alloc, &self.fresh)?,
            taken: widen_items(alloc, &self.taken)?,
        })
    }
}
