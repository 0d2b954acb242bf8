//! Networks of two criteria.
ghost use Rattle.std.specs.Prelude.{◌≡◌, ◌<◌, length, IfOk};
ghost use Rattle.arc_graph.specs.Graph.{Match};

use arc_graph::{ArcFile, ArcLine, Graph, JoinFault, Weights, join_files};
use out_of_memory::OutOfMemory;
use std::alloc::Global;
use std::process::Abort;

/// So many nodes, and each arc's tail, head and two weights.
#[derive(Drop)]
pub(super) struct ArcTable {
    nodes: u32,
    arcs: &'static [[u32; 4]],
}

/// The first node leads to the last over each of the two others, by walks of one cost.
pub(super) const TWO_WALKS: ArcTable = ArcTable {
    nodes: 4,
    arcs: &[[1, 2, 1, 1], [1, 3, 1, 1], [2, 4, 1, 1], [3, 4, 1, 1]],
};

/// Two ways from the first node to the last, an arc between them, and an arc past both.
pub(super) const SIX_ARCS: ArcTable = ArcTable {
    nodes: 4,
    arcs: &[
        [1, 2, 1, 4],
        [1, 3, 2, 1],
        [2, 4, 1, 4],
        [3, 4, 2, 1],
        [2, 3, 1, 1],
        [1, 4, 9, 9],
    ],
};

/// The file of a criterion.
fn file(
    rt: &impl Abort,
    alloc: Global,
    table: &ArcTable,
    criterion: usize,
) -> Result<ArcFile, OutOfMemory>
    requires { criterion < 2 }
{
    let nodes = table.nodes;
    assert!(rt; 1 <= nodes && nodes <= 100);
    let mut file = ArcFile::new(alloc, nodes);
    for arc in table.arcs {
        let [tail, head, ..] = *arc;
        assert!(rt; 1 <= tail && tail <= nodes && 1 <= head && head <= nodes);
        assert!(rt; file.arcs().len() < 100 && file.nodes() == nodes);
        file.push(ArcLine {
            tail,
            head,
            weight: arc[2 + criterion],
        })?;
    }
    Ok(file)
}

/// The files of both criteria.
fn files(rt: &impl Abort, alloc: Global, table: &ArcTable) -> Result<Vec<ArcFile>, OutOfMemory>
    ensures { IfOk result (λ files. length files.items ≡ 2) }
{
    let mut files = Vec::new(alloc);
    files.push(file(rt, alloc, table, 0)?)?;
    files.push(file(rt, alloc, table, 1)?)?;
    Ok(files)
}

/// The network of this table.
pub(super) fn join(
    rt: &impl Abort,
    alloc: Global,
    table: &ArcTable,
) -> Result<(Graph, Weights), JoinFault>
    ensures matched { IfOk result (λ r. Match r.0 r.1) }
    ensures criteria { IfOk result (λ r. r.0.criteria ≡ 2) }
{
    join_files(alloc, files(rt, alloc, table)?)
}
