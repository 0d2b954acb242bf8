ghost use Rattle.std.specs.Prelude.{◌≡◌, []};

use crate::pairs::{Pair, PairFiles};
use gr_reader::RecordSink;
use out_of_memory::OutOfMemory;
use std::alloc::Global;

/// Takes the pairs of one file.
#[derive(Drop)]
pub(crate) struct PairList {
    pub(crate) pairs: Vec<Pair>,
}

impl PairList {
    pub(crate) fn new(alloc: Global) -> PairList
        ensures { result.pairs.items ≡ [] }
    {
        PairList {
            pairs: Vec::new(alloc),
        }
    }
}

impl RecordSink<PairFiles> for PairList {
    ghost is_ready = { λ list. list.pairs.items ≡ [] };

    ghost has_taken = { λ before now count taken. now.pairs.items ≡ taken };

    fn begin(&mut self, _count: u32) -> Result<(), OutOfMemory> {
        Ok(())
    }

    fn take(&mut self, pair: Pair) -> Result<(), OutOfMemory> {
        self.pairs.push(pair)?;
        Ok(())
    }
}
