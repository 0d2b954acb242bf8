ghost use Rattle.std.specs.Prelude.{◌<◌, ◌^◌, length, slice_get, take, All, IfOk, IfSome, IsSomeAnd};
ghost use Rattle.std.specs.Thread.{IsSync};
ghost use Rattle.road_network.specs.Queries.{IsAsked};
ghost use Rattle.session_core.specs.Making.{AreMade, IsMade};
ghost use Rattle.session_core.specs.Queries.{RepliesToQuery};
ghost use Rattle.session_core.specs.Sending.{IsReplyOf, Replied};

use crate::answerer::Answerer;
use crate::fault::ReplyFault;
use crate::held::Held;
use crate::reply::Reply;
use out_of_memory::OutOfMemory;
use road_network::{AnswerKind, Query};
use route_io::sure::SureSink;
use route_io::{Sink, put_all};
use std::thread::Threads;
use walk_readback::Room;
use work_claim::{Calls, Gate, Phase, run_pieces};

/// A reply that was made in memory: what it is, and its text.
#[derive(Drop)]
pub struct MadeReply {
    pub reply: Reply,
    pub text: SureSink,
}

impl MadeReply {
    /// Sends it, and answers what it is.
    pub fn send<K: Sink>(&self, out: &mut K) -> Result<Reply, ReplyFault>
        ensures { Replied (IsReplyOf self.now.reply self.now.text.sent)
            (K.state out.old) (K.state out.new) result }
    {
        put_all(out, self.text.sent())?;
        Ok(self.reply)
    }
}

impl<R: Threads + Sync, G: Gate> Answerer<'_, R, G> {
    /// The replies to the first of these queries, made in memory side by side: each query is searched by one of the workers.
    /// They are the replies to all, or to so many that they come to 64 MiB or somewhat more. There is `None` where memory ran
    /// out for the reply to a query.
    pub fn make_replies(
        &self,
        epoch: u32,
        kind: AnswerKind,
        queries: &[Query],
    ) -> Result<Vec<Option<MadeReply>>, OutOfMemory>
        requires few { length queries.now < 2 ^ 32 }
        requires asked { All (IsAsked self.now.network.now.criteria) queries.now }
        ensures { IfOk result (λ made. AreMade self.now.network.now self.now.mode epoch kind
            (take (length made.items) queries.now) made.items) }
    {
        let held = Held::new();
        let each = |place: usize| -> Result<Option<MadeReply>, OutOfMemory>
            requires { IsSync R.row × IsSync G.row
                × IsSomeAnd (slice_get queries.now place) (IsAsked self.now.network.now.criteria) }
            ensures { IfOk result (λ made. IfSome (slice_get queries.entry.now place)
                (λ query. IfSome made (IsMade self.entry.now.network.now self.entry.now.mode epoch kind query))) }
        { Ok(self.make_held(epoch, kind, place, &queries[place], &held)) };
        let calls = Calls { call: &each };
        let mut made = run_pieces(
            self.workers,
            self.alloc,
            queries.len(),
            Phase::Query,
            &calls,
        )?;
        made.truncate(held.begun());
        Ok(made)
    }

    /// The reply to the query at this place, made and held, where there is memory for it and what is held isn't enough already.
    fn make_held(
        &self,
        epoch: u32,
        kind: AnswerKind,
        place: usize,
        query: &Query,
        held: &Held,
    ) -> Option<MadeReply>
        requires { IsAsked self.now.network.now.criteria query.now }
        ensures { IfSome result (IsMade self.now.network.now self.now.mode epoch kind query.now) }
    {
        if !held.begin(place) {
            return None;
        }
        let made = self.make_reply(epoch, kind, query);
        held.end(made.as_ref());
        made
    }

    /// The reply to a query at an epoch, made in memory by one worker, where there is memory for it.
    fn make_reply(&self, epoch: u32, kind: AnswerKind, query: &Query) -> Option<MadeReply>
        requires { IsAsked self.now.network.now.criteria query.now }
        ensures { IfSome result (IsMade self.now.network.now self.now.mode epoch kind query.now) }
    {
        let mut room = Room::with(self.alloc, 0).ok()?;
        let mut text = SureSink::new(self.alloc);
        let answerer = Answerer {
            workers: &self.workers.alone(),
            ..*self
        };
        let reply = answerer
            .reply(epoch, kind, query, &mut room, &mut text)
            .ok()?;
        Some(MadeReply { reply, text })
    }

    /// Sends the reply to a query, as `reply` does, but as it was made in memory where it was.
    pub fn reply_as_made<K: Sink>(
        &self,
        epoch: u32,
        kind: AnswerKind,
        query: &Query,
        made: Option<MadeReply>,
        room: &mut Room,
        out: &mut K,
    ) -> Result<Reply, ReplyFault>
        requires asked { IsAsked self.now.network.now.criteria query.now }
        requires made { IfSome made (IsMade self.now.network.now self.now.mode epoch kind query.now) }
        ensures { Replied (RepliesToQuery self.now.network.now self.now.mode epoch kind query.now)
            (K.state out.old) (K.state out.new) result }
    {
        match made {
            Some(made) => made.send(out),
            None => self.reply(epoch, kind, query, room, out),
        }
    }
}
