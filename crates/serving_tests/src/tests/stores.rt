ghost use Rattle.std.specs.Prelude.{◌≡◌, IfOk};
ghost use Rattle.arc_graph.specs.Graph.{Match};

use arc_graph::{ArcLine, Graph, Joiner, Weights};
use std::alloc::Global;
use std::test::Fail;

/// The ends and the weights of six arcs: two ways from node 1 to 4, an arc between them, and an arc past both.
const SIX: [(u32, u32, [u32; 2]); 6] = [
    (1, 2, [1, 4]),
    (1, 3, [2, 1]),
    (2, 4, [1, 4]),
    (3, 4, [2, 1]),
    (2, 3, [1, 1]),
    (1, 4, [9, 9]),
];

/// A graph of four nodes and six arcs, by two criteria.
pub(super) fn six_arcs(alloc: Global) -> Result<(Graph, Weights), Fail>
    ensures matched { IfOk result (λ r. Match r.0 r.1) }
    ensures two { IfOk result (λ r. r.0.criteria ≡ 2) }
{
    let mut joiner = Joiner::new(alloc);
    for file in 0..2usize {
        joiner.begin_file(4, 6)?;
        for arc in 0..6usize {
            let (tail, head, weights) = SIX[arc];
            joiner.push(ArcLine {
                tail,
                head,
                weight: weights[file],
            })?;
        }
    }
    Ok(joiner.finish()?)
}
