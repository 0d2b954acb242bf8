//! Where the labels of each node end among labels that ascend.
ghost use Rattle.std.specs.Prelude.{◌<◌, ◌≤◌, ◌^◌, length, AllPairs, IfOk};
ghost use Rattle.front_cert.specs.Lookup.{Precedes};
ghost use Rattle.front_cert.specs.Offsets.{AreOffsets, AreUpTo, IsEnd};

use cost_vector::Label;
use out_of_memory::OutOfMemory;
use std::alloc::Global;

/// For each number up to `nodes`, how many labels are of nodes up to it.
pub(crate) fn offsets_of(
    alloc: Global,
    labels: &[Label],
    nodes: u32,
) -> Result<Vec<u32>, OutOfMemory>
    requires ascending { AllPairs Precedes labels.now }
    requires few { length labels.now < 2 ^ 32 }
    ensures { IfOk result (λ offsets. AreOffsets labels.now offsets.items) }
{
    let mut offsets = Vec::with_capacity(alloc, nodes as usize + 1)?;
    let mut end = 0;
    for node in 0..nodes as usize + 1 {
        end = end_of(labels, end, node);
        offsets.push(end as u32)?;
    }
    Ok(offsets)
}

/// Where the labels of nodes up to this one end, of which so many are known.
fn end_of(labels: &[Label], known: usize, node: usize) -> usize
    requires ascending { AllPairs Precedes labels.now }
    requires within { known ≤ length labels.now }
    requires up_to { AreUpTo labels.now node known }
    ensures { IsEnd labels.now node result }
{
    let mut end = known;
    'labels: while end < labels.len() && labels[end].node.0 as usize <= node {
        end += 1;
    }
    end
}
