ghost use Rattle.std.specs.Prelude.{◌≡◌, ◌≢◌, ◌≤◌, ℕ, List, [], IfOk};
ghost use mathlib.Core.List.{IsPrefix};
ghost use Rattle.cost_vector.specs.Costs.{max_criteria, min_criteria};
ghost use Rattle.road_network.specs.Limits.{max_budget};
ghost use Rattle.arc_graph.specs.Graph.{Match};
ghost use Rattle.session_requests.specs.Requests.{AsksOfSession, LimitsEach};
ghost use Rattle.session_requests.specs.declared.line.Line.TheVariants as line;
ghost use Rattle.session_requests.specs.declared.session.SessionRequest.{SessionRequest as Asked};
ghost use Rattle.session_requests.specs.declared.session.SessionRequest.TheVariants as asks;
ghost use Rattle.session_core.specs.Answering.{answer_by, AnswersRequest, CanSearch, scene_of};
ghost use Rattle.session_core.specs.Lines.{IsLine, IsText};
ghost use Rattle.session_core.specs.Links.{Serves};
ghost use Rattle.session_core.specs.Handlers.{AnswersLine};
ghost use Rattle.session_core.specs.Exchanges.{Exchange};
ghost use Rattle.session_core.specs.Sessions.{IsSessionBye, Session as Kept, SessionGoes};

use crate::context::ServeContext;
use crate::end::SessionEnd;
use crate::fault::ReplyFault;
use crate::handler::{Answered, LineHandler};
use crate::look::look_for;
use crate::named::Named;
use crate::serve::serve;
use crate::short::refuse_line;
use epoch_store::{Ended, EpochReader, Store};
use line_text::Request;
use out_of_memory::OutOfMemory;
use route_io::{Link, Sink, Source};
use session_requests::{Line, SessionRequest, read_session_request};
use std::alloc::Global;
use std::marker::Model;
use std::sync::Wait;
use std::thread::Threads;
use std::time::Clock;
use walk_readback::Room;
use work_claim::Gate;

/// A session lane: a reader of the store, and the numbers of the epochs that its replies have named. Links are served one
/// after another.
#[derive(Drop)]
pub struct Session<T: Store> {
    reader: EpochReader<T>,
    named: Named,
    room: Room,
}

impl<T: Store> Model for Session<T> {
    ghost use Rattle.session_core.specs.Sessions.{Session};

    ghost Value = { Session };

    ghost view = { λ s. record { seen = s.reader.seen; named = s.named.numbers } };
}

impl<T: Store, R, G> LineHandler<ServeContext<'_, R, G>> for Session<T> {
    ghost use Rattle.session_core.specs.Answering.{CanSearch, scene_of};
    ghost use Rattle.session_core.specs.Sessions.{IsSessionBye, SessionGoes};

    ghost ready = { λ context. CanSearch (scene_of context.graph.now T.origin context.budget) };

    ghost runs = { λ context. SessionGoes (scene_of context.graph.now T.origin context.budget) };

    ghost bye = { λ context. IsSessionBye (scene_of context.graph.now T.origin context.budget) };
}

/// Reads a line of a session by its text.
fn read_line(kind: Request, text: &[u8], criteria: usize) -> Line<SessionRequest>
    requires at_least_two { min_criteria ≤ criteria }
    requires at_most_four { criteria ≤ max_criteria }
    ensures line { (raw : List ℕ) → IsText kind text.now raw
        → IsLine (AsksOfSession criteria) raw result }
    ensures limit { (r : Asked) → result ≡ line.Request r → LimitsEach criteria r }
{
    match kind {
        Request::Whole => read_session_request(text, criteria),
        Request::Long => Line::Other,
    }
}

/// The answer of a line that isn't the last, by that of its reply.
fn answered(sent: Result<(), ReplyFault>) -> Result<Answered, ReplyFault>
    ensures { result ≡ answer_by sent }
{
    match sent {
        Ok(()) => Ok(Answered::Replied),
        Err(fault) => Err(fault),
    }
}

impl<T: Store> Session<T> {
    /// A session that has named no epoch.
    pub fn new(alloc: Global, reader: EpochReader<T>) -> Result<Session<T>, OutOfMemory>
        ensures { IfOk result (λ s. s ≡ record { seen = reader.seen; named = [] }) }
    {
        Ok(Session {
            reader,
            named: Named::none(),
            room: Room::with(alloc, 0)?,
        })
    }

    /// The numbers of the epochs that the replies have named, where no more lines are served.
    pub fn into_named(self) -> Named
        ensures { result.numbers ≡ self.named }
    {
        self.named
    }

    /// Lets go of the numbers that were named so far.
    pub fn forget_numbers(&mut self)
        ensures { self.new ≡ record self.old { named = [] } }
    {
        self.named = Named::none();
    }

    /// Serves a link. The numbers that its replies name are added to those of before.
    pub fn serve<R: Threads + Wait + Clock + Sync, G: Gate, S: Source, K: Sink>(
        &mut self,
        context: &ServeContext<'_, R, G>,
        link: &mut Link<S, K>,
    ) -> SessionEnd
        requires weights { Match context.now.graph.now T.origin.base }
        requires budget { context.now.budget ≤ max_budget }
        ensures { Serves
            (SessionGoes (record {
              graph = context.now.graph.now;
              origin = T.origin;
              budget = context.now.budget;
            }))
            (IsSessionBye (record {
              graph = context.now.graph.now;
              origin = T.origin;
              budget = context.now.budget;
            }))
            context.now.policy self.old self.new
            (S.state link.old.from) (S.state link.new.from)
            (K.state link.old.to) (K.state link.new.to) result }
    {
        let answer = |context: &ServeContext<
            '_,
            R,
            G,
        >, session: &mut Self, kind, text: &[u8], to: &mut K|
            requires { CanSearch (scene_of context.now.graph.now T.origin context.now.budget) }
        { session.answer(context, kind, text, to) };
        serve(context.alloc, context, self, link, context.policy, &answer)
    }

    /// Answers a line by its text, without its LF and one CR; that of a line too long for a request doesn't count. All
    /// memory is taken before the first byte of the reply.
    fn answer<R: Threads + Wait + Clock + Sync, G: Gate, K: Sink>(
        &mut self,
        context: &ServeContext<'_, R, G>,
        kind: Request,
        text: &[u8],
        to: &mut K,
    ) -> Result<Answered, ReplyFault>
        requires { CanSearch (scene_of context.now.graph.now T.origin context.now.budget) }
        ensures { (first : Kept) (exchanges : List Exchange) (raw : List ℕ) → IsText kind text.now raw
            → SessionGoes (scene_of context.now.graph.now T.origin context.now.budget) first exchanges self.old
            → AnswersLine
            (λ more. SessionGoes
            (scene_of context.now.graph.now T.origin context.now.budget) first more self.new)
            (IsSessionBye (scene_of context.now.graph.now T.origin context.now.budget))
            exchanges raw (K.state to.old) (K.state to.new) result }
    {
        match read_line(kind, text, context.graph.criteria()) {
            Line::Blank => Ok(Answered::Replied),
            Line::Other => answered(refuse_line(to)),
            Line::Request(SessionRequest::Bye) => Ok(Answered::Bye),
            Line::Request(request) => answered(self.reply(context, &request, to)),
        }
    }

    /// Looks for a request, replies to it at the last epoch that is seen then, and adds its number.
    fn reply<R: Threads + Wait + Clock + Sync, G: Gate, K: Sink>(
        &mut self,
        context: &ServeContext<'_, R, G>,
        request: &SessionRequest,
        to: &mut K,
    ) -> Result<(), ReplyFault>
        requires search { CanSearch (scene_of context.now.graph.now T.origin context.now.budget) }
        requires limit { LimitsEach context.now.graph.now.criteria request.now }
        requires no_bye { request.now ≢ asks.Bye }
        ensures { AnswersRequest (scene_of context.now.graph.now T.origin context.now.budget)
            request.now self.old self.new (K.state to.old) (K.state to.new) result }
    {
        let looked = look_for(&mut self.reader, context.workers.rt(), request);
        let replied = context.reply(&self.reader, &looked, request, &mut self.room, to);
        if !matches!(replied, Err(ReplyFault::OutOfMemory(_))) {
            self.named = self.named.with(looked.number());
        }
        replied
    }

    /// Goes on to the last epoch of a store that is closed.
    pub fn learn<R: Wait>(&mut self, rt: &R, ended: &Ended<T>)
        ensures learnt { self.new ≡ record self.old { seen = ended.now } }
        ensures begins { IsPrefix self.old.seen ended.now }
    {
        self.reader.learn(rt, ended);
    }
}
