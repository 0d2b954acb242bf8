ghost use Rattle.std.specs.Prelude.{◌≡◌, ◌≤◌, IfOk, All};
ghost use Rattle.arc_graph.specs.Graph.{Match};
ghost use Rattle.road_network.specs.Network.{IsNode};

use super::counting::Counting;
use crate::tests::drawing::cost_of;
use arc_graph::{ArcFile, ArcLine, Graph, Network, Weights, join_files};
use cost_vector::{ArcNo, NodeNo};
use round_work::{RelaxFault, relax};
use std::alloc::Global;
use std::process::Abort;
use std::test::Fail;
use std::thread::Threads;
use stored_cost::NarrowCost;
use waiting_item::Item;
use work_claim::Workers;

/// Each arc's tail, head and two weights. The last but one leads from node 2 back to node 1; the last is shut.
const ARCS: [[u32; 4]; 8] = [
    [1, 2, 1, 4],
    [1, 3, 2, 1],
    [2, 4, 1, 4],
    [3, 4, 2, 1],
    [2, 3, 1, 1],
    [1, 4, 9, 9],
    [2, 1, 1, 4],
    [3, 1, 1, 1],
];

/// The node, the cost, and the node from which it was reached.
type Plain = (u32, [u64; 2], u32);

/// What is taken, first at a node that was reached from node 1.
const TAKEN: [Plain; 2] = [(2, [1, 4], 1), (3, [2, 1], 1)];

/// What it gives.
const GIVEN: [Plain; 3] = [(4, [2, 8], 2), (3, [2, 5], 2), (4, [4, 2], 3)];

fn file(
    rt: &impl Abort,
    alloc: Global,
    arcs: &[[u32; 4]],
    criterion: usize,
) -> Result<ArcFile, Fail> {
    assert!(rt; criterion < 2);
    let mut file = ArcFile::new(alloc, 4);
    for arc in arcs {
        assert!(rt; 1 <= arc[0] && arc[0] <= 4 && 1 <= arc[1] && arc[1] <= 4);
        assert!(rt; file.arcs().len() < 100 && file.nodes() == 4);
        file.push(ArcLine {
            tail: arc[0],
            head: arc[1],
            weight: arc[2 + criterion],
        })?;
    }
    Ok(file)
}

/// The network of four nodes with these arcs.
fn network(rt: &impl Abort, alloc: Global, arcs: &[[u32; 4]]) -> Result<(Graph, Weights), Fail>
    ensures { IfOk result (λ r. Match r.0 r.1) }
{
    let files = vec![in alloc; file(rt, alloc, arcs, 0)?, file(rt, alloc, arcs, 1)?]?;
    Ok(join_files(alloc, files)?)
}

fn item(rt: &impl Abort, plain: Plain) -> Item<NarrowCost<2>>
    ensures { result.node.0 ≡ plain.0 }
{
    let (node, cost, from) = plain;
    Item {
        cost: cost_of(rt, &cost),
        node: NodeNo(node),
        from: NodeNo(from),
    }
}

/// The taken items, so often one after another.
fn taken(
    rt: &impl Abort,
    alloc: Global,
    network: &Network<'_>,
    times: usize,
) -> Result<Vec<Item<NarrowCost<2>>>, Fail>
    ensures { IfOk result (λ v. All (λ i. IsNode network.now.nodes i.node.0) v.items) }
{
    let mut items = Vec::new(alloc);
    for _ in 0..times {
        for plain in TAKEN {
            assert!(rt; network.has_node(plain.0));
            items.push(item(rt, plain))?;
        }
    }
    Ok(items)
}

/// Whether these are what is given, so often one after another.
fn are_given(rt: &impl Abort, candidates: &[Item<NarrowCost<2>>], times: usize) -> bool {
    let given = GIVEN.map(|plain| item(rt, plain));
    let mut same = candidates.len() == times.saturating_mul(given.len());
    for part in candidates.chunks(3) {
        same = same && part == given.as_slice();
    }
    same
}

/// How often the items are taken, and how many pieces of work that makes.
const TIMES: [(usize, u64); 5] = [(0, 0), (1, 1), (32, 1), (33, 2), (100, 4)];

/// Relaxes by so many workers, and compares the candidates and the pieces.
fn compare<R: Threads + Sync + Abort>(
    rt: &R,
    alloc: Global,
    network: &Network<'_>,
    count: u32,
) -> Result<(), Fail>
    requires two { network.now.criteria ≡ 2 }
    requires one { 1 ≤ count }
    requires most { count ≤ 64 }
{
    let mut candidates = vec![in alloc; item(rt, (1, [7, 7], 6))]?;
    for (times, pieces) in TIMES {
        let gate = Counting::new();
        let workers = Workers::new(rt, count, &gate);
        let items = taken(rt, alloc, network, times)?;
        assert!(rt; items.len() < 1000);
        let done = relax(&workers, alloc, network, &items, &mut candidates);
        let same = done.is_ok() && are_given(rt, &candidates, times);
        assert!(rt;
            same && gate.passed() == pieces,
            "{times} times, {count} workers"
        );
    }
    Ok(())
}

/// Whether a cost that is too great for 32 bits once an arc is added is told.
fn tells_too_wide<R: Threads + Sync + Abort>(
    rt: &R,
    alloc: Global,
    network: &Network<'_>,
) -> Result<bool, Fail>
    requires { network.now.criteria ≡ 2 }
{
    let gate = Counting::new();
    let workers = Workers::new(rt, 1, &gate);
    assert!(rt; network.has_node(2));
    let items = vec![in alloc; item(rt, (2, [5, (1 << 31) - 4], 0))]?;
    let mut candidates = Vec::new(alloc);
    let done = relax(&workers, alloc, network, &items, &mut candidates);
    Ok(done == Err(RelaxFault::TooWide))
}

#[test]
fn relaxes_in_the_order_of_the_items(rt: HostRuntime) -> Result<(), Fail> {
    let alloc = rt.alloc();
    let (graph, mut weights) = network(&rt, alloc, &ARCS)?;
    assert!(rt; weights.arcs() == 8 && graph.criteria() == 2, "eight arcs");
    weights.set(ArcNo(8), None);
    let network = Network::new(&graph, &weights);
    assert!(rt; network.criteria() == 2, "two criteria");
    compare(&rt, alloc, &network, 1)?;
    compare(&rt, alloc, &network, 3)?;
    compare(&rt, alloc, &network, 64)?;
    assert!(rt; tells_too_wide(&rt, alloc, &network)?, "no room in 32 bits");
    Ok(())
}
