//! What the answers to many queries over one network come to.
ghost use Rattle.std.specs.Prelude.{◌≡◌, ◌+◌, ◌≤◌, ◌<◌, None, IfOk, OnOk, All, length};
ghost use Rattle.road_network.specs.Limits.{max_budget};
ghost use Rattle.road_network.specs.Queries.{IsAsked};
ghost use Rattle.walk_readback.specs.Answers.{Answers};
ghost use Rattle.walk_readback.specs.Found.{IsFound};
ghost use Rattle.graph_gen.specs.Plans.{max_pairs};
ghost use Rattle.gen_laws.specs.Laws.{HasNodes, IsSmall};
ghost use Rattle.still_commands.specs.Summary.{AreFew, CountsAnswer, CountsPair, Fits};
ghost use Rattle.still_commands.specs.Summary.{HasAnswer, HasWhole, SumsUp, pair_of};

use crate::batch::query_between;
use crate::summary::Summary;
use arc_graph::Network;
use bulk_search::rounds_pay;
use command_words::SearchLimits;
use out_of_memory::OutOfMemory;
use query_reader::Pair;
use road_network::{Query, SearchFault};
use std::alloc::Global;
use std::thread::Threads;
use walk_readback::{FoundCosts, Room, walk};
use work_claim::{Gate, Workers};

/// Who counts what the answers to queries over one network come to.
#[derive(Drop)]
pub(crate) struct Counter<'n, R, G> {
    pub workers: &'n Workers<'n, R, G>,
    pub alloc: Global,
    pub network: &'n Network<'n>,
}

impl<R: Threads + Sync, G: Gate> Counter<'_, R, G> {
    /// Answers a query for each pair in order, and counts what comes of it.
    pub(crate) fn count_pairs(
        &self,
        limits: &SearchLimits,
        pairs: &[Pair],
    ) -> Result<Summary, OutOfMemory>
        requires small { IsSmall self.now.network.now }
        requires nodes { All (HasNodes self.now.network.now.nodes) pairs.now }
        requires few { length pairs.now ≤ max_pairs }
        ensures { IfOk result (λ counts. SumsUp self.now.network.now limits.now.budget pairs.now
            counts) }
    {
        let mut counts = Summary::of(self.network);
        let mut room = Room::with(self.alloc, 0)?;
        for pair in pairs {
            let query = query_between(limits, *pair);
            self.count_pair(&query, &mut room, &mut counts)?;
        }
        Ok(counts)
    }

    /// Answers a query, and counts what comes of it.
    fn count_pair(
        &self,
        query: &Query,
        room: &mut Room,
        counts: &mut Summary,
    ) -> Result<(), OutOfMemory>
        requires small { IsSmall self.now.network.now }
        requires asked { IsAsked self.now.network.now.criteria query.now }
        requires unlimited { query.now.limit ≡ None }
        requires nodes { HasNodes self.now.network.now.nodes (pair_of query.now) }
        requires few { counts.old.pairs < max_pairs }
        requires fits { Fits counts.old }
        ensures counts { OnOk result (CountsPair self.now.network.now
            query.now.budget (pair_of query.now) counts.old counts.new) }
        ensures fits { OnOk result (Fits counts.new) }
    {
        if rounds_pay(self.workers, self.network.criteria()) {
            let found = bulk_search::find(self.workers, self.alloc, self.network, query);
            self.count_found(query, found, room, counts)
        } else {
            let found = sweep_search::find(self.alloc, self.network, query);
            self.count_found(query, found, room, counts)
        }
    }

    /// Counts what a search answered.
    fn count_found<F: FoundCosts + Drop>(
        &self,
        query: &Query,
        found: Result<F, SearchFault>,
        room: &mut Room,
        counts: &mut Summary,
    ) -> Result<(), OutOfMemory>
        requires small { IsSmall self.now.network.now }
        requires asked { IsAsked self.now.network.now.criteria query.now }
        requires unlimited { query.now.limit ≡ None }
        requires nodes { HasNodes self.now.network.now.nodes (pair_of query.now) }
        requires answers { Answers F.state self.now.network.now query.now found }
        requires few { counts.old.pairs < max_pairs }
        requires fits { Fits counts.old }
        ensures counts { OnOk result (CountsPair self.now.network.now
            query.now.budget (pair_of query.now) counts.old counts.new) }
        ensures fits { OnOk result (Fits counts.new) }
    {
        match found {
            Ok(found) => self.count_answer(query, &found, room, counts),
            Err(SearchFault::Budget) => {
                counts.count_passed();
                Ok(())
            }
            Err(SearchFault::OutOfMemory(want)) => Err(want),
        }
    }

    /// Counts an answered query.
    fn count_answer<F: FoundCosts>(
        &self,
        query: &Query,
        found: &F,
        room: &mut Room,
        counts: &mut Summary,
    ) -> Result<(), OutOfMemory>
        requires small { IsSmall self.now.network.now }
        requires answer { HasWhole self.now.network.now query.now (F.state found.now) }
        requires pairs { counts.old.pairs < max_pairs }
        requires fits { Fits counts.old }
        ensures counts { OnOk result (CountsPair self.now.network.now
            query.now.budget (pair_of query.now) counts.old counts.new) }
        ensures fits { OnOk result (Fits counts.new) }
    {
        self.count_routes(query, found, room, counts)?;
        counts.answered += 1;
        counts.pairs += 1;
        Ok(())
    }

    /// Counts the costs of an answer, with the arcs of their walks.
    fn count_routes<F: FoundCosts>(
        &self,
        query: &Query,
        found: &F,
        room: &mut Room,
        counts: &mut Summary,
    ) -> Result<(), OutOfMemory>
        requires small { IsSmall self.now.network.now }
        requires answer { HasAnswer self.now.network.now query.now (F.state found.now) }
        requires few { IsFound (F.state found.now)
            → length (F.state found.now).costs ≤ max_budget }
        requires pairs { counts.old.pairs < max_pairs }
        requires fits { Fits counts.old }
        ensures counts { OnOk result (CountsAnswer self.now.network.now query.now.from query.now.to counts.old counts.new) }
        ensures costs { OnOk result (counts.new.costs ≤ counts.old.costs + max_budget) }
        ensures sums { OnOk result (AreFew counts.new) }
    {
        prove!(self.network.nodes() >= 1);
        room.make_room(found.longest())?;
        for i in 0..found.count() {
            walk(self.network, found, i, room);
            counts.count_route(&found.cost(i), room.arcs());
        }
        Ok(())
    }
}
