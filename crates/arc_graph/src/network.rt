ghost use Rattle.std.specs.Prelude.{◌≡◌, ◌<◌, ◌≤◌, ◌^◌, length, IfSome, All, IsTrue, ◌↔◌};
ghost use Rattle.cost_vector.specs.Costs.{max_criteria, min_criteria};
ghost use Rattle.road_network.specs.Network.{IsNode, IsVector};
ghost use Rattle.arc_graph.specs.Graph.{IsRoadNetwork, Match, arc_state, head_of, in_arcs_of, network, out_arcs_of, tail_of};

use crate::{Graph, Weights};
use cost_vector::{ArcNo, NodeNo, Weight};
use std::marker::Model;

/// A network in memory: a graph with weights of its arcs.
#[derive(Debug, Drop)]
pub struct Network<'n> {
    graph: &'n Graph,
    weights: &'n Weights,
}

impl<'n> Model for Network<'n> {
    ghost use Rattle.road_network.specs.Network.{Network};
    ghost use Rattle.arc_graph.specs.Graph.{IsInParts, network};

    ghost Value = { Network };

    ghost view = { λ n. network n.graph.now n.weights.now };

    ghost invariant = { λ n. IsInParts n.graph.now n.weights.now };
}

impl<'n> Network<'n> {
    /// The network of a graph and of weights of its arcs.
    pub fn new(graph: &'n Graph, weights: &'n Weights) -> Network<'n>
        requires { Match graph.now weights.now }
        ensures { result ≡ network graph.now weights.now }
    {
        prove!(graph.nodes() >= 1);
        prove!(graph.arcs() == weights.arcs());
        Network { graph, weights }
    }

    /// The number of nodes.
    pub fn nodes(&self) -> u32
        ensures count { result ≡ self.now.nodes }
        ensures network { IsRoadNetwork self.now }
    {
        self.graph.nodes()
    }

    /// The number of arcs.
    pub fn arcs(&self) -> u32
        ensures { result ≡ length self.now.ends }
    {
        self.graph.arcs()
    }

    /// The number of criteria.
    pub fn criteria(&self) -> usize
        ensures count { result ≡ self.now.criteria }
        ensures two { min_criteria ≤ result }
        ensures four { result ≤ max_criteria }
    {
        self.graph.criteria()
    }

    /// Whether there is a node of this number.
    pub fn has_node(&self, v: u32) -> bool
        ensures { IsTrue result ↔ IsNode self.now.nodes v }
    {
        self.graph.has_node(v)
    }

    /// The node that an arc leads from.
    pub fn tail(&self, a: ArcNo) -> NodeNo
        requires counted { 1 ≤ a.0 }
        requires there { a.0 ≤ length self.now.ends }
        ensures { result.0 ≡ tail_of self.now.ends a }
    {
        self.graph.tail(a)
    }

    /// The node that an arc leads to.
    pub fn head(&self, a: ArcNo) -> NodeNo
        requires counted { 1 ≤ a.0 }
        requires there { a.0 ≤ length self.now.ends }
        ensures { result.0 ≡ head_of self.now.ends a }
    {
        self.graph.head(a)
    }

    /// The arcs that lead from a node, in ascending order.
    pub fn out_arcs(&self, v: NodeNo) -> &'n [ArcNo]
        requires { IsNode self.now.nodes v.0 }
        ensures { result.now ≡ out_arcs_of self.now.ends v.0 }
    {
        self.graph.out_arcs(v)
    }

    /// The arcs that lead to a node, shut ones too, in ascending order.
    pub fn in_arcs(&self, v: NodeNo) -> &'n [ArcNo]
        requires { IsNode self.now.nodes v.0 }
        ensures { result.now ≡ in_arcs_of self.now.ends v.0 }
    {
        self.graph.in_arcs(v)
    }

    /// The vector of an arc, or `None` where the arc is shut.
    pub fn weight(&self, a: ArcNo) -> Option<Weight>
        requires counted { 1 ≤ a.0 }
        requires there { a.0 ≤ length self.now.ends }
        ensures state { result ≡ arc_state self.now.states a }
        ensures vector { IfSome result (IsVector self.now.criteria) }
        ensures small { IfSome result (All (λ x. x < 2 ^ 32)) }
    {
        self.weights.get(a)
    }
}
