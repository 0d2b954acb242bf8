ghost use Rattle.std.specs.Prelude.{◌≡◌, ◌≤◌, IfOk, IsErrOf, List, OnOk};
ghost use Rattle.road_network.specs.Answers.{IsAnswer, Route};
ghost use Rattle.walk_readback.specs.Found.{IsOf, IsWellFound, longest_in};
ghost use Rattle.road_network.specs.Queries.{HaveNodes, IsAsked, limit_of};
ghost use Rattle.route_io.specs.Sinks.{Sends};
ghost use Rattle.answer_writer.specs.Replies.{refusal, reply_of};
ghost use Rattle.session_core.specs.Queries.{IsTooLargeIn, RepliesToQuery};
ghost use Rattle.session_core.specs.Sending.{IsReplyOf, Replied};
ghost use Rattle.session_core.specs.declared.mode.SearchMode.TheVariants.{Plain};
ghost use Rattle.session_core.specs.declared.reply.Reply.TheVariants.{Answer, Refusal};

use crate::fault::ReplyFault;
use crate::mode::SearchMode;
use crate::reply::Reply;
use answer_writer::{put_answer, put_first_line, put_refusal};
use arc_graph::Network;
use bulk_search::rounds_pay;
use road_network::{AnswerKind, Query, SearchFault};
use route_io::{Sink, WriteFault};
use std::alloc::Global;
use std::thread::Threads;
use sweep_search::search_toward;
use walk_readback::{FoundCosts, Room};
use work_claim::{Gate, Workers};

/// Who replies to queries over one network, each searched in one way: one worker searches, or so many that it pays share the
/// rounds of a plain search.
#[derive(Drop)]
pub struct Answerer<'n, R, G> {
    pub workers: &'n Workers<'n, R, G>,
    pub alloc: Global,
    pub network: &'n Network<'n>,
    pub mode: SearchMode,
}

impl<R: Threads + Sync, G: Gate> Answerer<'_, R, G> {
    /// Sends the reply to a query at an epoch, and answers what it is. Nothing but a fault of the sink cuts it: all memory
    /// that it can't do without, also the room for the longest walk, is taken before its first byte. The room may serve one
    /// reply after another.
    pub fn reply<K: Sink>(
        &self,
        epoch: u32,
        kind: AnswerKind,
        query: &Query,
        room: &mut Room,
        out: &mut K,
    ) -> Result<Reply, ReplyFault>
        requires { IsAsked self.now.network.now.criteria query.now }
        ensures { Replied (RepliesToQuery self.now.network.now self.now.mode epoch kind query.now)
            (K.state out.old) (K.state out.new) result }
    {
        if !self.network.has_node(query.from) || !self.network.has_node(query.to) {
            return refuse(out, epoch, query, " node");
        }
        prove!(self.network.nodes() >= 1);
        match self.mode {
            SearchMode::Plain => self.search_plainly(epoch, kind, query, room, out),
            SearchMode::Goal => {
                let found = search_toward(self.alloc, self.network, query);
                self.send_found(epoch, kind, query, found, room, out)
            }
        }
    }

    /// Searches plainly, and sends what was found.
    fn search_plainly<K: Sink>(
        &self,
        epoch: u32,
        kind: AnswerKind,
        query: &Query,
        room: &mut Room,
        out: &mut K,
    ) -> Result<Reply, ReplyFault>
        requires mode { self.now.mode ≡ Plain }
        requires nodes { HaveNodes self.now.network.now query.now }
        requires asked { IsAsked self.now.network.now.criteria query.now }
        ensures { Replied (RepliesToQuery self.now.network.now self.now.mode epoch kind query.now)
            (K.state out.old) (K.state out.new) result }
    {
        prove!(self.network.nodes() >= 1);
        if rounds_pay(self.workers, self.network.criteria()) {
            let found = bulk_search::find(self.workers, self.alloc, self.network, query);
            self.send_found(epoch, kind, query, found, room, out)
        } else {
            let found = sweep_search::find(self.alloc, self.network, query);
            self.send_found(epoch, kind, query, found, room, out)
        }
    }

    /// Sends what a search answered.
    fn send_found<F: FoundCosts + Drop + Sync, K: Sink>(
        &self,
        epoch: u32,
        kind: AnswerKind,
        query: &Query,
        found: Result<F, SearchFault>,
        room: &mut Room,
        out: &mut K,
    ) -> Result<Reply, ReplyFault>
        requires nodes { HaveNodes self.now.network.now query.now }
        requires of_query { IfOk found (λ f. IsOf self.now.network.now query.now (F.state f)) }
        requires well_found { IfOk found (λ f. IsWellFound self.now.network.now
            (limit_of self.now.network.now.criteria query.now) (F.state f)) }
        requires in_budget { OnOk found
            (¬ IsTooLargeIn self.now.mode self.now.network.now query.now) }
        requires refused { IsErrOf found SearchFault.Budget
            → IsTooLargeIn self.now.mode self.now.network.now query.now }
        ensures { Replied (RepliesToQuery self.now.network.now self.now.mode epoch kind query.now)
            (K.state out.old) (K.state out.new) result }
    {
        prove!(self.network.nodes() >= 1);
        match found {
            Ok(found) => self.answer(epoch, kind, query, &found, room, out),
            Err(SearchFault::Budget) => refuse(out, epoch, query, " budget"),
            Err(SearchFault::OutOfMemory(want)) => Err(want.into()),
        }
    }

    /// Sends the answer that was found. Room for its walks is taken before the first byte.
    fn answer<F: FoundCosts + Sync, K: Sink>(
        &self,
        epoch: u32,
        kind: AnswerKind,
        query: &Query,
        found: &F,
        room: &mut Room,
        out: &mut K,
    ) -> Result<Reply, ReplyFault>
        requires of_query { IsOf self.now.network.now query.now (F.state found.now) }
        requires well_found { IsWellFound self.now.network.now
            (limit_of self.now.network.now.criteria query.now) (F.state found.now) }
        ensures { (routes : List Route) → IsAnswer self.now.network.now query.now.from query.now.to
            (limit_of self.now.network.now.criteria query.now) routes
            → Replied (IsReplyOf Answer (reply_of kind epoch query.now routes))
            (K.state out.old) (K.state out.new) result }
    {
        room.make_room(found.longest())?;
        self.put_found(epoch, kind, query, found, room, out)?;
        Ok(Reply::Answer)
    }

    /// Sends the answer's lines, one after another, or where it has so many that it pays, those of its routes as all workers
    /// make them.
    fn put_found<F: FoundCosts + Sync, K: Sink>(
        &self,
        epoch: u32,
        kind: AnswerKind,
        query: &Query,
        found: &F,
        room: &mut Room,
        out: &mut K,
    ) -> Result<(), WriteFault>
        requires of_query { IsOf self.now.network.now query.now (F.state found.now) }
        requires well_found { IsWellFound self.now.network.now
            (limit_of self.now.network.now.criteria query.now) (F.state found.now) }
        requires room { longest_in (F.state found.now) ≤ room.old.holds }
        ensures { (routes : List Route) → IsAnswer self.now.network.now query.now.from query.now.to
            (limit_of self.now.network.now.criteria query.now) routes
            → Sends (K.state out.old) (K.state out.new) (reply_of kind epoch query.now routes)
            result }
    {
        let count = found.count();
        let workers = &self.workers.for_labels(count);
        if workers.count() == 1 {
            return put_answer(out, epoch, kind, query, self.network, found, room);
        }
        put_first_line(out, epoch, query, count)?;
        Answerer { workers, ..*self }.put_windows(kind, found, room, out)
    }
}

/// Sends a refusal.
fn refuse<K: Sink>(out: &mut K, epoch: u32, query: &Query, why: &str) -> Result<Reply, ReplyFault>
    ensures { Replied (IsReplyOf Refusal (refusal epoch query.now.from query.now.to why.now))
        (K.state out.old) (K.state out.new) result }
{
    put_refusal(out, epoch, query.from, query.to, why)?;
    Ok(Reply::Refusal)
}
