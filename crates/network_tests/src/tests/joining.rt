ghost use Rattle.std.specs.Prelude.{◌≡◌, IfOk, vec_len};
ghost use Rattle.arc_graph.specs.Graph.{Match};

use arc_graph::{
    ArcFile, ArcLine, Disagreement, Graph, JoinFault, Network, Weights, join_files, relax,
};
use cost_vector::{ArcNo, Cost, Label, NodeNo, Spot};
use out_of_memory::OutOfMemory;
use std::alloc::Global;
use std::process::Abort;

/// The arcs of a file, each as its tail, its head and its weight.
type Arcs = [[u32; 3]; 2];

/// Those of three files.
type ThreeFiles = (Arcs, Arcs, Arcs);

/// A file of three nodes and these arcs. An arc without ends is left out.
fn file(alloc: Global, arcs: &Arcs) -> Result<ArcFile, OutOfMemory> {
    let mut file = ArcFile::new(alloc, 3);
    for &[tail, head, weight] in arcs {
        if 1 <= tail && tail <= 3 && 1 <= head && head <= 3 {
            file.push(ArcLine { tail, head, weight })?;
        }
    }
    Ok(file)
}

fn files(alloc: Global, arcs: &ThreeFiles) -> Result<Vec<ArcFile>, OutOfMemory>
    ensures { IfOk result (λ f. vec_len f ≡ 3) }
{
    let mut files = Vec::new(alloc);
    files.push(file(alloc, &arcs.0)?)?;
    files.push(file(alloc, &arcs.1)?)?;
    files.push(file(alloc, &arcs.2)?)?;
    Ok(files)
}

fn graph(alloc: Global, arcs: &ThreeFiles) -> Result<(Graph, Weights), JoinFault>
    ensures { IfOk result (λ r. Match r.0 r.1) }
{
    join_files(alloc, files(alloc, arcs)?)
}

/// The labels that go on from node 1, once the sizes are compared.
fn labels(
    rt: &impl Abort,
    alloc: Global,
    network: &Network<'_>,
) -> Result<Vec<Label>, OutOfMemory> {
    let (nodes, arcs, criteria) = (network.nodes(), network.arcs(), network.criteria());
    assert!(rt; nodes == 3 && arcs == 2 && criteria == 3, "sizes");
    let start = Spot {
        node: NodeNo(1),
        cost: Cost::zero(3),
    };
    relax(alloc, network, &start)
}

fn label(node: u32, cost: [u64; 3], arc: u32) -> Label {
    Label {
        node: NodeNo(node),
        cost: Cost::of_numbers(&cost),
        arc: ArcNo(arc),
    }
}

/// Whether files can be joined, and these labels go on from node 1.
fn lead_to(
    rt: &impl Abort,
    alloc: Global,
    arcs: &ThreeFiles,
    wanted: &[Label],
) -> Result<bool, JoinFault> {
    let (graph, weights) = graph(alloc, arcs)?;
    let weights = weights.try_copy()?;
    assert!(rt; weights.arcs() == 2, "arcs with a state");
    let network = Network::new(&graph, &weights);
    let labels = labels(rt, alloc, &network)?;
    Ok(labels.as_slice() == wanted)
}

#[test]
fn joins_files_that_agree(rt: HostRuntime) {
    let arcs = (
        [[1, 2, 4], [1, 3, 0]],
        [[1, 2, 0], [1, 3, 7]],
        [[1, 2, 5], [1, 3, 0]],
    );
    let wanted = [label(2, [4, 0, 5], 1), label(3, [0, 7, 0], 2)];
    let lead_to = lead_to(&rt, rt.alloc(), &arcs, &wanted);
    assert!(rt; lead_to == Ok(true), "labels from node 1");
}

fn sizes(file: u32) -> JoinFault {
    JoinFault::Files(Disagreement::Sizes { file })
}

fn ends(arc: u32, file: u32) -> JoinFault {
    JoinFault::Files(Disagreement::Ends { arc, file })
}

fn zero_arc(arc: u32) -> JoinFault {
    JoinFault::Files(Disagreement::ZeroArc { arc })
}

/// Files that disagree, or leave an arc without weights, each with the first fault.
fn faults() -> [(ThreeFiles, JoinFault); 9] {
    let (here, zero, none) = ([1, 2, 4], [1, 2, 0], [0, 0, 0]);
    let (back, zero_back) = ([2, 1, 4], [2, 1, 0]);
    [
        (([here, here], [here, here], [here, none]), sizes(3)),
        (([here, here], [here, none], [none, none]), sizes(2)),
        (([here, here], [back, here], [here, none]), sizes(3)),
        (([here, here], [here, back], [back, here]), ends(1, 3)),
        (([here, here], [back, here], [back, here]), ends(1, 2)),
        (([here, zero], [back, zero], [here, zero]), ends(1, 2)),
        (([zero, here], [zero_back, here], [zero, here]), ends(1, 2)),
        (([zero, here], [zero, back], [zero, here]), zero_arc(1)),
        (([here, zero], [zero, zero], [zero, zero]), zero_arc(2)),
    ]
}

/// Whether the files can't be joined, for this fault.
fn tells(alloc: Global, arcs: &ThreeFiles, fault: JoinFault) -> bool {
    match graph(alloc, arcs) {
        Ok(_) => false,
        Err(outcome) => outcome == fault,
    }
}

#[test]
fn tells_the_first_fault(rt: HostRuntime) {
    for (k, (arcs, fault)) in faults().iter().enumerate() {
        assert!(rt; tells(rt.alloc(), arcs, *fault), "files {k}");
    }
}
