//! Replies to requests at the last epoch that was seen.
ghost use Rattle.std.specs.Prelude.{◌≡◌, ◌≢◌};
ghost use Rattle.road_network.specs.Queries.{IsAsked};
ghost use Rattle.arc_graph.specs.Graph.{Match, network};
ghost use Rattle.epoch_store.specs.Origin.{last_number};
ghost use Rattle.session_core.specs.Queries.{RepliesToQuery};
ghost use Rattle.session_core.specs.declared.reply.Reply.{Reply};
ghost use Rattle.session_requests.specs.Requests.{LimitsEach};
ghost use Rattle.session_requests.specs.declared.session.SessionRequest.TheVariants as asks;
ghost use Rattle.session_core.specs.Answering.{CanSearch, MayReply, RepliesOneOf, scene_of};
ghost use Rattle.session_core.specs.Sessions.{RepliesTo};

use crate::answerer::Answerer;
use crate::context::ServeContext;
use crate::fault::ReplyFault;
use crate::look::Looked;
use crate::mode::SearchMode;
use crate::short::{put_closed, put_epoch};
use arc_graph::Network;
use cost_vector::Limit;
use epoch_store::{EpochReader, Snapshot, Store};
use road_network::{AnswerKind, Query};
use route_io::Sink;
use session_requests::SessionRequest;
use std::thread::Threads;
use walk_readback::Room;
use work_claim::Gate;

impl<R: Threads + Sync, G: Gate> ServeContext<'_, R, G> {
    /// Sends the reply to a request at the last epoch that was seen, once it was looked for.
    pub(crate) fn reply<T: Store, K: Sink>(
        &self,
        reader: &EpochReader<T>,
        looked: &Looked,
        request: &SessionRequest,
        room: &mut Room,
        out: &mut K,
    ) -> Result<(), ReplyFault>
        requires search { CanSearch (scene_of self.now.graph.now T.origin self.now.budget) }
        requires limit { LimitsEach self.now.graph.now.criteria request.now }
        requires no_bye { request.now ≢ asks.Bye }
        requires looked { looked.now ≡ last_number T.origin reader.now.seen }
        requires come { MayReply T.origin reader.now.seen request.now }
        ensures { RepliesOneOf (RepliesTo (scene_of self.now.graph.now T.origin self.now.budget)
            reader.now.seen (last_number T.origin reader.now.seen) request.now)
            (K.state out.old) (K.state out.new) result }
    {
        use AnswerKind::{Costs, Walks};
        use SearchMode::{Goal, Plain};
        let last = reader.snapshot();
        match *request {
            SessionRequest::Costs { from, to } => {
                let query = self.query(from, to, None);
                self.search(last, Plain, Costs, &query, room, out)
            }
            SessionRequest::Walks { from, to } => {
                let query = self.query(from, to, None);
                self.search(last, Plain, Walks, &query, room, out)
            }
            SessionRequest::Within { from, to, limit } => {
                let query = self.query(from, to, Some(limit));
                self.search(last, Plain, Walks, &query, room, out)
            }
            SessionRequest::Goal { from, to } => {
                let query = self.query(from, to, None);
                self.search(last, Goal, Walks, &query, room, out)
            }
            SessionRequest::GoalWithin { from, to, limit } => {
                let query = self.query(from, to, Some(limit));
                self.search(last, Goal, Walks, &query, room, out)
            }
            SessionRequest::Wait { epoch } => {
                if looked.number() < epoch {
                    put_closed(out, looked.number())?;
                } else {
                    put_epoch(out, looked.number())?;
                }
                Ok(())
            }
            SessionRequest::Epoch => {
                put_epoch(out, looked.number())?;
                Ok(())
            }
            SessionRequest::Bye => unreachable!(),
        }
    }

    /// A query by the budget of each.
    fn query(&self, from: u32, to: u32, limit: Option<Limit>) -> Query
        ensures { result ≡ record { from = from; to = to; limit = limit; budget = self.now.budget } }
    {
        let budget = self.budget;
        Query {
            from,
            to,
            limit,
            budget,
        }
    }

    /// Sends the reply to a query at an epoch.
    fn search<K: Sink>(
        &self,
        last: &Snapshot,
        mode: SearchMode,
        kind: AnswerKind,
        query: &Query,
        room: &mut Room,
        out: &mut K,
    ) -> Result<(), ReplyFault>
        requires weights { Match self.now.graph.now last.now.weights }
        requires query { IsAsked self.now.graph.now.criteria query.now }
        ensures { RepliesOneOf (λ text. (reply : Reply)
            × RepliesToQuery (network self.now.graph.now last.now.weights) mode last.now.number kind
            query.now reply text) (K.state out.old) (K.state out.new) result }
    {
        let network = Network::new(self.graph, &last.weights);
        let answerer = Answerer {
            workers: self.workers,
            alloc: self.alloc,
            network: &network,
            mode,
        };
        answerer.reply(last.number, kind, query, room, out)?;
        Ok(())
    }
}
