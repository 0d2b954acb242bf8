//! The feed of what an operator publishes.
ghost use Rattle.std.specs.Prelude.{◌≡◌, []};
ghost use Rattle.arc_graph.specs.Graph.{Match};
ghost use Rattle.link_doors.specs.Links.{state_of};
ghost use Rattle.route_lanes.specs.Leading.{WritesFeed, WritesPublished};

use arc_graph::Weights;
use epoch_follow::put_feed;
use epoch_store::{Chronicle, Operator, Store, make};
use route_io::{Link, Sink, Source};
use session_core::{ReplyFault, ServeContext, SessionEnd, serve_operator};
use std::marker::Brand;
use std::sync::Wait;

/// Serves a link of an operator over a new store, and then sends the feed of all that it has published to `out`. Nothing is sent
/// there where memory runs out before, in the link too. It may wait for readers.
pub fn write_feed<R: Wait, G, S: Source, K: Sink, O: Sink>(
    context: &ServeContext<'_, R, G>,
    weights: Weights,
    first: u32,
    link: &mut Link<S, K>,
    out: &mut O,
) -> Result<(), ReplyFault>
    requires { Match context.now.graph.now weights }
    ensures { WritesFeed context.now.graph.now weights first context.now.policy
        (state_of S.state K.state link.old) (state_of S.state K.state link.new)
        (O.state out.old) (O.state out.new) result }
{
    write_in_store::<R, G, S, K, O, Brand>(context, Chronicle::default(), weights, first, link, out)
}

/// Serves the link over the store of a chronicle, and sends the feed.
fn write_in_store<R: Wait, G, S: Source, K: Sink, O: Sink, T: Store>(
    context: &ServeContext<'_, R, G>,
    chronicle: Chronicle,
    weights: Weights,
    first: u32,
    link: &mut Link<S, K>,
    out: &mut O,
) -> Result<(), ReplyFault>
    requires chronicle { chronicle ≡ T.origin.chronicle }
    requires first { first ≡ T.origin.first }
    requires base { weights ≡ T.origin.base }
    requires weights { Match context.now.graph.now T.origin.base }
    ensures { WritesFeed context.now.graph.now weights first context.now.policy
        (state_of S.state K.state link.old) (state_of S.state K.state link.new)
        (O.state out.old) (O.state out.new) result }
{
    let (mut operator, _readers) = make::<T, R>(
        context.workers.rt(),
        context.alloc,
        chronicle,
        first,
        weights,
        1,
    )?;
    let written = write_published(context, &mut operator, link, out);
    operator
        .close(context.workers.rt())
        .end(context.workers.rt());
    written
}

/// Has the operator of a new store serve a link, and sends the feed of what it has published.
fn write_published<R: Wait, G, S: Source, K: Sink, O: Sink, T: Store>(
    context: &ServeContext<'_, R, G>,
    operator: &mut Operator<T>,
    link: &mut Link<S, K>,
    out: &mut O,
) -> Result<(), ReplyFault>
    requires new { operator.old ≡ record { published = []; pending = [] } }
    requires weights { Match context.now.graph.now T.origin.base }
    ensures { WritesPublished context.now.graph.now T.origin context.now.policy
        (state_of S.state K.state link.old) (state_of S.state K.state link.new)
        (O.state out.old) (O.state out.new) result }
{
    match serve_operator(context, operator, link) {
        SessionEnd::OutOfMemory(want) => Err(ReplyFault::OutOfMemory(want)),
        _ => {
            let _nodes = context.graph.nodes(); // a proof knows what every graph keeps
            let _number = operator.number(); // and every operator
            match put_feed(out, operator, context.graph) {
                Ok(()) => Ok(()),
                Err(fault) => Err(ReplyFault::Out(fault)),
            }
        }
    }
}
