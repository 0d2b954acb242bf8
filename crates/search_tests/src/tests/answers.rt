ghost use Rattle.std.specs.Prelude.{◌≡◌, length, IfOk, IsTrue};
ghost use Rattle.road_network.specs.Network.{IsNode};
ghost use Rattle.arc_graph.specs.Graph.{Match};
ghost use Rattle.road_network.specs.Queries.{limit_or_none};

use crate::tests::networks::join;
use answer_writer::{Piece, put_answer, put_line, put_refusal};
use arc_graph::{Graph, JoinFault, Network, Weights};
use cost_vector::{Limit, NodeNo};
use out_of_memory::OutOfMemory;
use road_network::{AnswerKind, Query};
use route_io::memory::MemorySink;
use route_io::{Sink, WriteFault};
use standing::KnownCosts;
use std::alloc::{AllocError, Global};
use std::process::Abort;
use walk_readback::Room;

mod standing;

/// What an answer shows, and its limit.
type Form = (AnswerKind, Option<Limit>);

/// The arcs of four nodes, each by its tail, its head and its weights.
const ARCS: [[u32; 4]; 6] = [
    [1, 2, 1, 4],
    [1, 3, 2, 1],
    [2, 4, 1, 4],
    [3, 4, 2, 1],
    [2, 3, 1, 1],
    [1, 4, 9, 9],
];

fn graph(rt: &impl Abort, alloc: Global) -> Result<(Graph, Weights), JoinFault>
    ensures { IfOk result (λ r. Match r.0 r.1) }
{
    join(rt, alloc, 4, &ARCS, 2)
}

/// Sends the answer to the query from node 4 to itself.
fn stand<K: Sink>(
    sink: &mut K,
    network: &Network<'_>,
    form: &Form,
    room: &mut Room,
) -> Result<(), WriteFault>
    requires two { network.now.criteria ≡ 2 }
    requires node { IsNode network.now.nodes 4 }
    requires limit { length (limit_or_none 2 form.now.1) ≡ 2 }
{
    let found = KnownCosts {
        nodes: network.nodes(),
        criteria: network.criteria(),
        node: NodeNo(4),
    };
    let query = Query {
        from: 4,
        to: 4,
        limit: form.1,
        budget: 1,
    };
    put_answer(sink, 0, form.0, &query, network, &found, room)
}

/// Whether the limit of the form, if it has one, has two places.
fn has_two(form: &Form) -> bool
    ensures { IsTrue result → length (limit_or_none 2 form.now.1) ≡ 2 }
{
    match &form.1 {
        None => true,
        Some(limit) => limit.count() == 2,
    }
}

/// Sends that answer, with all that it needs.
fn answer<K: Sink>(
    rt: &impl Abort,
    alloc: Global,
    form: &Form,
    sink: &mut K,
) -> Result<Result<(), WriteFault>, JoinFault> {
    let (graph, weights) = graph(rt, alloc)?;
    let network = Network::new(&graph, &weights);
    assert!(rt; network.criteria() == 2 && network.has_node(4) && has_two(form));
    let mut room = Room::with(alloc, 0)?;
    Ok(stand(sink, &network, form, &mut room))
}

/// Each form of the answer, with its text.
fn texts() -> [(Form, &'static str); 4] {
    let limit = Limit::of_places(&[None, Some(3)]);
    [
        ((AnswerKind::Costs, None), "r 0 4 4 1\nv 0 0\n"),
        ((AnswerKind::Walks, None), "r 0 4 4 1\np 0 0 0\n"),
        ((AnswerKind::Costs, Some(limit)), "l 0 4 4 - 3 1\nv 0 0\n"),
        ((AnswerKind::Walks, Some(limit)), "l 0 4 4 - 3 1\np 0 0 0\n"),
    ]
}

/// A sink that takes so many bytes in all, at most three at once.
fn small_sink(alloc: Global, bound: usize) -> MemorySink {
    MemorySink::new(alloc, bound as u64, Vec::new(alloc)).with_piece(3)
}

/// A sink whose second write fails.
fn single_sink(alloc: Global) -> Result<MemorySink, OutOfMemory> {
    let mut fails = Vec::new(alloc);
    fails.push(1)?;
    Ok(MemorySink::new(alloc, 100, fails))
}

/// Whether a sink took so many bytes of a text, and its fault was told if those aren't all.
fn is_cut(sent: Result<(), WriteFault>, sink: &MemorySink, text: &str, bound: usize) -> bool {
    let wanted = &text.as_bytes()[..bound.min(text.len())];
    sink.sent() == wanted && sent.is_ok() == (bound == text.len())
}

/// Whether the answer goes as far as a small sink takes it.
fn answer_is_cut(
    rt: &impl Abort,
    alloc: Global,
    form: &Form,
    text: &str,
    bound: usize,
) -> Result<bool, JoinFault> {
    let mut sink = small_sink(alloc, bound);
    let sent = answer(rt, alloc, form, &mut sink)?;
    Ok(is_cut(sent, &sink, text, bound))
}

/// Whether one write sends the answer.
fn is_sent_at_once(
    rt: &impl Abort,
    alloc: Global,
    form: &Form,
    text: &str,
) -> Result<bool, JoinFault> {
    let mut sink = single_sink(alloc)?;
    let sent = answer(rt, alloc, form, &mut sink)?;
    Ok(sent == Ok(()) && sink.sent() == text.as_bytes())
}

fn assert_holds(rt: &impl Abort, holds: Result<bool, JoinFault>, text: &str, bound: usize) {
    assert!(rt; holds == Ok(true), "{text}: {bound}");
}

/// The answer goes as far as any small sink takes it.
fn assert_cuts(rt: &impl Abort, alloc: Global, form: &Form, text: &str) {
    for bound in 0..=text.len() {
        let is_cut = answer_is_cut(rt, alloc, form, text, bound);
        assert_holds(rt, is_cut, text, bound);
    }
}

#[test]
fn sends_the_front_that_a_sink_takes(rt: HostRuntime) {
    for (form, text) in &texts() {
        assert_cuts(&rt, rt.alloc(), form, text);
    }
}

#[test]
fn sends_a_short_answer_by_one_write(rt: HostRuntime) {
    for (form, text) in &texts() {
        let is_sent = is_sent_at_once(&rt, rt.alloc(), form, text);
        assert_holds(&rt, is_sent, text, 100);
    }
}

#[test]
fn refuses_as_far_as_a_sink_takes_it(rt: HostRuntime) {
    let text = "x 0 9 1 node\n";
    for bound in 0..=text.len() {
        let mut sink = small_sink(rt.alloc(), bound);
        let sent = put_refusal(&mut sink, 0, 9, 1, " node");
        assert!(rt; is_cut(sent, &sink, text, bound), "{bound}");
    }
}

/// Whether a line of two texts of these sizes is one write.
fn is_one_write(alloc: Global, first: usize, second: usize) -> Result<bool, AllocError> {
    let second_fails = vec![in alloc; 1u64; 1]?;
    let mut sink = MemorySink::new(alloc, u64::MAX, second_fails);
    let (first, second) = (text_of(alloc, first)?, text_of(alloc, second)?);
    let pieces = [Piece::Text(first.as_str()), Piece::Text(second.as_str())];
    Ok(put_line(&mut sink, &pieces).is_ok())
}

/// A text of so many bytes.
fn text_of(alloc: Global, size: usize) -> Result<String, AllocError> {
    let mut text = String::new(alloc);
    for _ in 0..size {
        text.push_str("a")?;
    }
    Ok(text)
}

#[test]
fn a_line_of_4096_bytes_is_one_write(rt: HostRuntime) {
    let alloc = rt.alloc();
    assert!(rt; is_one_write(alloc, 2048, 2048) == Ok(true), "a whole page");
    assert!(rt; is_one_write(alloc, 2048, 2049) == Ok(false), "a byte more");
}
