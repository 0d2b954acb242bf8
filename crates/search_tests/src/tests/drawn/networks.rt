ghost use Rattle.std.specs.Prelude.{◌≡◌, length, IfOk};
ghost use Rattle.arc_graph.specs.Graph.{Match};
ghost use Rattle.road_network.specs.Queries.{IsQuery, limit_or_none};

use crate::tests::networks::join;
use arc_graph::{Graph, Network, Weights};
use cost_vector::Limit;
use road_network::{MAX_BUDGET, Query};
use std::alloc::{AllocError, Global};
use std::process::Abort;
use std::test::Fail;

/// Numbers that look drawn, and are the same in each run.
#[derive(Drop)]
pub(super) struct Draws {
    state: u64,
}

impl Draws {
    pub(super) fn new(seed: u64) -> Draws {
        Draws {
            state: seed.wrapping_mul(0x9E37_79B9_7F4A_7C15),
        }
    }

    /// A number below `bound`, or 0 where that is 0.
    pub(super) fn below(&mut self, bound: u32) -> u32 {
        self.state = self
            .state
            .wrapping_mul(6_364_136_223_846_793_005)
            .wrapping_add(1_442_695_040_888_963_407);
        let drawn = (self.state >> 33) as u32;
        if bound == 0 { 0 } else { drawn % bound }
    }
}

/// An arc with its tail, its head and the weights of four criteria, of which those in use aren't all 0.
pub(super) type DrawnArc = [u32; 6];

/// A network of few nodes, and a query over it.
#[derive(Drop)]
pub(super) struct Drawn {
    pub nodes: u32,
    pub criteria: usize,
    pub arcs: Vec<DrawnArc>,
    pub from: u32,
    pub to: u32,
    /// The places of its limit, or none where it has no limit.
    pub limit: Vec<Option<u64>>,
}

/// The arc, with a weight that isn't 0 under one of the criteria in use.
fn draw_arc(draws: &mut Draws, nodes: u32, criteria: u32, most: u32) -> DrawnArc {
    let mut arc = [0; 6];
    arc[0] = draws.below(nodes).saturating_add(1);
    arc[1] = draws.below(nodes).saturating_add(1);
    arc[2] = draws.below(most);
    arc[3] = draws.below(most);
    if criteria >= 3 {
        arc[4] = draws.below(most);
    }
    if criteria >= 4 {
        arc[5] = draws.below(most);
    }
    if arc[2] == 0 && arc[3] == 0 {
        arc[2] = 1;
    }
    arc
}

/// A network with loops, parallel arcs, equal weights and zeros, and a query from its first node to its last.
pub(super) fn draw(alloc: Global, name: u64) -> Result<Drawn, AllocError> {
    let mut draws = Draws::new(name);
    let criteria = draws.below(3).saturating_add(2);
    let nodes = draws.below(5).saturating_add(2);
    let most = draws.below(5).saturating_add(2);
    let mut arcs = Vec::new(alloc);
    for _ in 0..draws.below(14).saturating_add(1) {
        arcs.push(draw_arc(&mut draws, nodes, criteria, most))?;
    }
    let is_limited = draws.below(3) == 0;
    let mut limit = Vec::new(alloc);
    for _ in 0..criteria {
        let place = u64::from(draws.below(12));
        let is_free = !is_limited || draws.below(3) == 0;
        limit.push(if is_free { None } else { Some(place) })?;
    }
    Ok(Drawn {
        nodes,
        criteria: criteria as usize,
        arcs,
        from: 1,
        to: nodes,
        limit,
    })
}

/// With which weights a drawn network is searched.
#[derive(Clone, Copy, Debug)]
pub(super) enum Ties {
    /// Its own.
    AsDrawn,
    /// 1 in place of each that isn't 0.
    ZeroOrOne,
    /// Under all criteria the same, 1 or 2.
    AllAlike,
}

/// The network with such weights.
pub(super) fn with_ties(mut drawn: Drawn, ties: Ties) -> Drawn {
    for arc in drawn.arcs.iter_mut() {
        tie(arc, ties);
    }
    drawn
}

/// Changes the weights of an arc, of which none that isn't 0 becomes 0.
fn tie(arc: &mut DrawnArc, ties: Ties) {
    let alike = arc[2] % 2 + 1;
    for weight in arc[2..].iter_mut() {
        *weight = match ties {
            Ties::AsDrawn => *weight,
            Ties::ZeroOrOne => (*weight).min(1),
            Ties::AllAlike => alike,
        };
    }
}

pub(super) fn graph(rt: &impl Abort, alloc: Global, drawn: &Drawn) -> Result<(Graph, Weights), Fail>
    ensures { IfOk result (λ r. Match r.0 r.1) }
{
    Ok(join(rt, alloc, drawn.nodes, &drawn.arcs, drawn.criteria)?)
}

/// The query within a budget.
pub(super) fn query_of(rt: &impl Abort, drawn: &Drawn, network: &Network<'_>, budget: u32) -> Query
    ensures query { IsQuery network.now result }
    ensures budget { result.budget ≡ budget }
{
    assert!(rt; network.has_node(drawn.from) && network.has_node(drawn.to));
    assert!(rt; budget <= MAX_BUDGET);
    Query {
        from: drawn.from,
        to: drawn.to,
        limit: limit_of(rt, &drawn.limit, network),
        budget,
    }
}

/// The limit with these places over a network, if there are some.
fn limit_of(rt: &impl Abort, places: &[Option<u64>], network: &Network<'_>) -> Option<Limit>
    ensures { length (limit_or_none network.now.criteria result) ≡ network.now.criteria }
{
    if places.is_empty() {
        return None;
    }
    assert!(rt; 2 <= places.len() && places.len() <= 4 && places.len() == network.criteria());
    Some(Limit::of_places(places))
}
