ghost use Rattle.std.specs.Prelude.{◌≡◌, ◌<◌, ◌&&◌, [], None};
ghost use Rattle.session_core.specs.Handlers.{AnswersEach, IsCallableIn};
ghost use Rattle.line_text.specs.Reading.{begun};
ghost use Rattle.route_io.specs.Sinks.{SinkState};
ghost use Rattle.route_io.specs.Sources.{SourceState};
ghost use Rattle.session_core.specs.Lines.{max_request};
ghost use Rattle.session_core.specs.Links.{Serves};
ghost use Rattle.session_core.specs.Serving.{Served, ServesOne, end_by_answer, end_by_input};

use crate::SessionEnd;
use crate::context::LinkPolicy;
use crate::fault::ReplyFault;
use crate::handler::{Answered, LineHandler};
use line_text::{LineFault, LineLimits, Lines, Request};
use route_io::{Link, Sink, Source, WriteFault};
use std::alloc::Global;

/// The most bytes of a request before its LF.
const MAX_REQUEST: u32 = 1024;

/// Has a handler answer the lines that come from a link, on it, until one ends the session, the input ends or so many bytes
/// were taken, or, where the link is guarded, a line of another protocol comes. `answer` answers one line by its text, without
/// its LF and one CR; that of a line too long for a request doesn't count.
pub(crate) fn serve<C, H, F, S: Source, K: Sink>(
    alloc: Global,
    context: &C,
    handler: &mut H,
    link: &mut Link<S, K>,
    policy: LinkPolicy,
    answer: &F,
) -> SessionEnd
where
    H: LineHandler<C>,
    F: Fn(&C, &mut H, Request, &[u8], &mut K) -> Result<Answered, ReplyFault>,
    requires callable { IsCallableIn H.ready (F.pre answer.now) }
    requires answers { AnswersEach H.runs H.bye K.state (F.post answer.now) }
    requires ready { H.ready context.now }
    requires begun { H.runs context.now handler.old [] handler.old }
    ensures { Serves (H.runs context.now) (H.bye context.now) policy handler.old handler.new
        (S.state link.old.from) (S.state link.new.from)
        (K.state link.old.to) (K.state link.new.to) result }
{
    let limits = LineLimits {
        line: MAX_REQUEST,
        total: policy.bytes,
    };
    match Lines::new(alloc, limits) {
        Ok(mut lines) => serve_lines(context, handler, link, &mut lines, policy, answer),
        Err(want) => SessionEnd::OutOfMemory(want),
    }
}

/// Has a handler answer line after line. The next one is read only when the reply to the last one was sent.
fn serve_lines<C, H, F, S: Source, K: Sink>(
    context: &C,
    handler: &mut H,
    link: &mut Link<S, K>,
    lines: &mut Lines,
    policy: LinkPolicy,
    answer: &F,
) -> SessionEnd
where
    H: LineHandler<C>,
    F: Fn(&C, &mut H, Request, &[u8], &mut K) -> Result<Answered, ReplyFault>,
    requires callable { IsCallableIn H.ready (F.pre answer.now) }
    requires answers { AnswersEach H.runs H.bye K.state (F.post answer.now) }
    requires ready { H.ready context.now }
    requires begun { H.runs context.now handler.old [] handler.old }
    requires lines { lines.old
        ≡ begun (record { line = max_request; total = policy.bytes }) }
    ensures { Serves (H.runs context.now) (H.bye context.now) policy
        handler.old handler.new
        (S.state link.old.from) (S.state link.new.from)
        (K.state link.old.to) (K.state link.new.to) result }
{
    'lines: loop {
        if let Some(end) = serve_line(context, handler, link, lines, policy, answer) {
            return end;
        }
    }
}

/// Has a handler answer the next line, and answers how that ends the session, if it does.
fn serve_line<C, H, F, S: Source, K: Sink>(
    context: &C,
    handler: &mut H,
    link: &mut Link<S, K>,
    lines: &mut Lines,
    policy: LinkPolicy,
    answer: &F,
) -> Option<SessionEnd>
where
    H: LineHandler<C>,
    F: Fn(&C, &mut H, Request, &[u8], &mut K) -> Result<Answered, ReplyFault>,
    requires callable { IsCallableIn H.ready (F.pre answer.now) }
    requires answers { AnswersEach H.runs H.bye K.state (F.post answer.now) }
    requires ready { H.ready context.now }
    requires goes_on { lines.old.fault ≡ None }
    ensures serves { (first : H) (from : SourceState) (to : SinkState)
        → Served (H.runs context.now) policy first handler.old
        from (S.state link.old.from) to (K.state link.old.to) lines.old
        → ServesOne (H.runs context.now) (H.bye context.now) policy first handler.new
        from (S.state link.new.from) to (K.state link.new.to) lines.new result }
    ensures takes_some { result ≡ None → lines.old.passed < lines.new.passed }
{
    let kind = match lines.next_request(&mut link.from) {
        Ok(Some(kind)) => kind,
        Ok(None) => return Some(SessionEnd::Ended),
        Err(fault) => return Some(end_by_input(fault)),
    };
    if is_warded_off(policy, lines) {
        return Some(SessionEnd::Ended);
    }
    end_by_answer(answer(context, handler, kind, lines.text(), &mut link.to))
}

/// Whether the line ends the link since that is guarded.
fn is_warded_off(policy: LinkPolicy, lines: &Lines) -> bool
    ensures { result ≡ (policy.guarded && lines.now.foreign) }
{
    policy.guarded && lines.is_foreign()
}

/// How a session ends where there is no next line.
fn end_by_input(fault: LineFault) -> SessionEnd
    ensures { result ≡ end_by_input fault }
{
    match fault {
        LineFault::Read => SessionEnd::ReadFault,
        LineFault::Total | LineFault::TooLong => SessionEnd::TooLong,
    }
}

/// How a session ends behind a line, if it does.
fn end_by_answer(answer: Result<Answered, ReplyFault>) -> Option<SessionEnd>
    ensures { result ≡ end_by_answer answer }
{
    match answer {
        Ok(Answered::Replied) => None,
        Ok(Answered::Bye) => Some(SessionEnd::Ended),
        Err(ReplyFault::Out(WriteFault::Failed)) => Some(SessionEnd::WriteFault),
        Err(ReplyFault::Out(WriteFault::OutOfMemory(want)) | ReplyFault::OutOfMemory(want)) => {
            Some(SessionEnd::OutOfMemory(want))
        }
    }
}
