ghost use Rattle.std.specs.Prelude.{◌≡◌, ◌≤◌, ℕ, List, []};
ghost use Rattle.cost_vector.specs.Costs.{max_criteria, min_criteria};
ghost use Rattle.arc_graph.specs.Graph.{Match};
ghost use Rattle.arc_graph.specs.History.{with_none_pending, Operator as Kept};
ghost use Rattle.session_requests.specs.Requests.{AsksOfOperator};
ghost use Rattle.session_core.specs.Lines.{IsLine, IsText};
ghost use Rattle.session_core.specs.Links.{Serves};
ghost use Rattle.session_core.specs.OperatorReplies.{WeighsAs};
ghost use Rattle.session_core.specs.Handlers.{AnswersLine};
ghost use Rattle.session_core.specs.Exchanges.{Exchange};
ghost use Rattle.session_core.specs.Operators.{IsOperatorBye, OperatorRun};

use crate::context::ServeContext;
use crate::end::SessionEnd;
use crate::fault::ReplyFault;
use crate::handler::{Answered, LineHandler};
use crate::obey::apply;
use crate::operator_reply::{Applied, put_reply};
use crate::serve::serve;
use epoch_store::{Operator, Store};
use line_text::Request;
use route_io::{Link, Sink, Source};
use session_requests::{Line, OperatorRequest, read_operator_request};
use std::sync::Wait;

/// Serves a link of the operator, with nothing pending before. What is published stays, also where the link failed, and
/// what is pending in the end is dropped.
pub fn serve_operator<T: Store, R: Wait, G, S: Source, K: Sink>(
    context: &ServeContext<'_, R, G>,
    operator: &mut Operator<T>,
    link: &mut Link<S, K>,
) -> SessionEnd
    requires weights { Match context.now.graph.now T.origin.base }
    requires nothing_pending { operator.old.pending ≡ [] }
    ensures { (last : Kept) × (operator.new ≡ with_none_pending last)
        × Serves (OperatorRun T.origin) (IsOperatorBye T.origin) context.now.policy operator.old last
        (S.state link.old.from) (S.state link.new.from)
        (K.state link.old.to) (K.state link.new.to) result }
{
    let answer = |context: &ServeContext<'_, R, G>, operator: &mut Operator<
        T,
    >, kind, text: &[u8], to: &mut K|
        requires { Match context.now.graph.now T.origin.base }
    { answer_line(context, operator, kind, text, to) };
    let end = serve(
        context.alloc,
        context,
        operator,
        link,
        context.policy,
        &answer,
    );
    operator.drop_pending();
    end
}

impl<T: Store, R, G> LineHandler<ServeContext<'_, R, G>> for Operator<T> {
    ghost ready = { λ context. Match context.graph.now T.origin.base };

    ghost runs = { λ context. OperatorRun T.origin };

    ghost bye = { λ context. IsOperatorBye T.origin };
}

/// Answers a line by its text, without its LF and one CR; that of a line too long for a request doesn't count. All memory
/// is taken before the first byte of the reply.
fn answer_line<T: Store, R: Wait, G, K: Sink>(
    context: &ServeContext<'_, R, G>,
    operator: &mut Operator<T>,
    kind: Request,
    text: &[u8],
    to: &mut K,
) -> Result<Answered, ReplyFault>
    requires { Match context.now.graph.now T.origin.base }
    ensures { (first : Kept) (exchanges : List Exchange) (raw : List ℕ) → IsText kind text.now raw
        → OperatorRun T.origin first exchanges operator.old
        → AnswersLine (λ more. OperatorRun T.origin first more operator.new)
        (IsOperatorBye T.origin) exchanges raw (K.state to.old) (K.state to.new) result }
{
    let line = read(kind, text, context.graph.criteria());
    match apply(context.workers.rt(), operator, line)? {
        Applied::Silent => Ok(Answered::Replied),
        Applied::Says(reply) => {
            put_reply(to, reply)?;
            Ok(Answered::Replied)
        }
        Applied::Ends => Ok(Answered::Bye),
    }
}

/// What a line is, by its text.
fn read(kind: Request, text: &[u8], criteria: usize) -> Line<OperatorRequest>
    requires at_least_two { min_criteria ≤ criteria }
    requires at_most_four { criteria ≤ max_criteria }
    ensures line { (raw : List ℕ) → IsText kind text.now raw
        → IsLine (AsksOfOperator criteria) raw result }
    ensures each { WeighsAs criteria result }
{
    match kind {
        Request::Whole => read_operator_request(text, criteria),
        Request::Long => Line::Other,
    }
}
