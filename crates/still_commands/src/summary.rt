//! The summary of a plan.
ghost use Rattle.std.specs.Prelude.{◌≡◌, ◌≤◌, ◌<◌, ◌*◌, ◌∷◌, [], None, length, map, sum};
ghost use Rattle.route_io.specs.Sinks.{Sends};
ghost use Rattle.road_network.specs.Limits.{max_budget};
ghost use Rattle.graph_gen.specs.Plans.{max_pairs};
ghost use Rattle.still_commands.specs.Summary.{AreFew, Fits, summary_of, with_pair, with_routes};
ghost use Rattle.still_commands.specs.Texts.{gen_reply};

use answer_writer::{Piece, put_line};
use arc_graph::Network;
use cost_vector::{ArcNo, Cost};
use route_io::{Sink, WriteFault};

/// What all files of a plan come to.
#[derive(Clone, Copy, Debug)]
pub(crate) struct Summary {
    pub(crate) nodes: u64,
    pub(crate) arcs: u64,
    pub(crate) criteria: u64,
    pub(crate) pairs: u64,
    /// How many pairs were answered.
    pub(crate) answered: u64,
    /// How many passed the budget.
    pub(crate) passed: u64,
    /// The costs of all answers.
    pub(crate) costs: u64,
    /// The arcs of all their walks.
    pub(crate) walk_arcs: u64,
    /// The components of all these costs, added up.
    pub(crate) total: u64,
}

impl Summary {
    /// The counts of a network before any pair.
    pub(crate) fn of(network: &Network<'_>) -> Summary
        ensures none { result ≡ summary_of network.now [] }
        ensures fits { Fits result }
    {
        Summary {
            nodes: u64::from(network.nodes()),
            arcs: u64::from(network.arcs()),
            criteria: network.criteria() as u64,
            pairs: 0,
            answered: 0,
            passed: 0,
            costs: 0,
            walk_arcs: 0,
            total: 0,
        }
    }

    /// Counts a pair that passed the budget.
    pub(crate) fn count_passed(&mut self)
        requires pairs { self.old.pairs < max_pairs }
        requires fits { Fits self.old }
        ensures counted { self.new ≡ with_pair self.old None }
        ensures fits { Fits self.new }
    {
        self.passed += 1;
        self.pairs += 1;
    }

    /// Counts a cost of an answer, and the arcs of its walk.
    pub(crate) fn count_route(&mut self, cost: &Cost, arcs: &[ArcNo])
        requires costs { self.old.costs < max_pairs * max_budget }
        requires sums { AreFew self.old }
        requires cost { sum cost.now ≤ 400000000 }
        requires arcs { length arcs.now ≤ 1000000 }
        ensures counted { self.new ≡ with_routes self.old
            (record { cost = cost.now; arcs = map (λ a. a.0) arcs.now } ∷ []) }
        ensures sums { AreFew self.new }
    {
        self.costs += 1;
        self.walk_arcs += arcs.len() as u64;
        self.total += sum_of(cost);
    }
}

/// The components of a cost, added up.
fn sum_of(cost: &Cost) -> u64
    requires { sum cost.now ≤ 400000000 }
    ensures { result ≡ sum cost.now }
{
    let mut total = 0;
    for i in 0..cost.count() {
        total += cost.component(i);
    }
    total
}

/// Sends the line of a summary.
pub(crate) fn put_summary<K: Sink>(sink: &mut K, summary: &Summary) -> Result<(), WriteFault>
    ensures { Sends (K.state sink.old) (K.state sink.new) (gen_reply summary.now) result }
{
    use Piece::{Number, Text};
    put_line(
        sink,
        &[
            Text("gen"),
            Number(summary.nodes),
            Number(summary.arcs),
            Number(summary.criteria),
            Number(summary.pairs),
            Number(summary.answered),
            Number(summary.passed),
            Number(summary.costs),
            Number(summary.walk_arcs),
            Number(summary.total),
            Text("\n"),
        ],
    )
}
