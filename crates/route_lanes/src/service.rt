//! Parties that serve links at once, each on a thread of its own.
ghost use Rattle.std.specs.Prelude.{◌≡◌, ◌+◌, ◌≤◌, length, All};
ghost use Rattle.std.specs.Thread.{IsSend, IsSync};
ghost use Rattle.route_lanes.specs.Services.{Accepts, AcceptsBoth, AllServe, CallLeaves, FirstAndAllServe, ServesOne};

use std::thread::{Threads, join_mut};

/// Has one party serve the first link, on the caller's thread, and each of the others one of the rest, on threads beside it.
/// Where no thread can be started the first link is served before the rest.
pub(crate) fn serve_all<
    O,
    P: Send,
    L: Send,
    V: Fn(&mut O, &mut L),
    W: Fn(&mut P, &mut L) + Sync,
    R: Threads + Sync,
>(rt: &R, lead: &V, leader: &mut O, serve: &W, parties: &mut [P], links: &mut [L])
    requires some { 1 ≤ length parties.old }
    requires links { length links.old ≡ length parties.old + 1 }
    requires leader { Accepts V.Fn lead.now leader.old }
    requires parties { All (Accepts W.Fn serve.now) parties.old }
    ensures { FirstAndAllServe (CallLeaves V.Fn lead.now) (CallLeaves W.Fn serve.now)
        leader.old parties.old links.old leader.new parties.new links.new }
{
    let (first, rest) = links.split_at_mut(1);
    lead_beside(
        rt,
        &|leader: &mut O, first: &mut [L]|
            requires { (length first.now ≡ 1) × Accepts V.Fn lead.now leader.now }
            ensures { ServesOne (CallLeaves V.Fn lead.entry.now)
                leader.entry.now first.entry.now leader.exit.now first.exit.now }
        { serve_one(lead, leader, first) },
        leader,
        first,
        serve,
        parties,
        rest,
    );
}

/// Has one party do its work on these items, on the caller's thread, and each of the others serve one of the links, on threads
/// beside it. Where no thread can be started the work is done before the links are served.
pub(crate) fn lead_beside<
    O,
    M,
    P: Send,
    L: Send,
    V: Fn(&mut O, &mut [M]),
    W: Fn(&mut P, &mut L) + Sync,
    R: Threads + Sync,
>(rt: &R, lead: &V, leader: &mut O, items: &mut [M], serve: &W, parties: &mut [P], links: &mut [L])
    requires some { 1 ≤ length parties.old }
    requires links { length links.old ≡ length parties.old }
    requires leader { AcceptsBoth V.Fn lead.now leader.old items.old }
    requires parties { All (Accepts W.Fn serve.now) parties.old }
    ensures leads { CallLeaves V.Fn lead.now leader.old items.old leader.new items.new }
    ensures serves { AllServe (CallLeaves W.Fn serve.now)
        parties.old links.old parties.new links.new }
{
    join_mut(
        rt,
        &mut ||
            requires { IsSync R.row × IsSync W.row × IsSend P.row × IsSend L.row
                × (1 ≤ length parties.now) × (length links.now ≡ length parties.now)
                × All (Accepts W.Fn serve.now) parties.now }
            ensures { AllServe (CallLeaves W.Fn serve.entry.now)
                parties.entry.now links.entry.now parties.exit.now links.exit.now }
        { serve_each(rt, serve, parties, links) },
        &mut ||
            requires { AcceptsBoth V.Fn lead.now leader.now items.now }
            ensures { CallLeaves V.Fn lead.entry.now
                leader.entry.now items.entry.now leader.exit.now items.exit.now }
        { lead(leader, items) },
    );
}

/// Has each party serve the link of its place, on a thread of its own.
#[cycle(each)]
fn serve_each<P: Send, L: Send, W: Fn(&mut P, &mut L) + Sync, R: Threads + Sync>(
    rt: &R,
    serve: &W,
    parties: &mut [P],
    links: &mut [L],
)
    requires some { 1 ≤ length parties.old }
    requires links { length links.old ≡ length parties.old }
    requires parties { All (Accepts W.Fn serve.now) parties.old }
    ensures { AllServe (CallLeaves W.Fn serve.now) parties.old links.old parties.new links.new }
{
    if parties.len() == 1 {
        serve_one(serve, &mut parties[0], links);
        return;
    }
    let half = parties.len() / 2;
    let (left, right) = parties.split_at_mut(half);
    let (left_links, right_links) = links.split_at_mut(half);
    serve_halves(rt, serve, left, left_links, right, right_links);
}

/// Has the parties of two halves do so, side by side.
#[cycle(each)]
fn serve_halves<P: Send, L: Send, W: Fn(&mut P, &mut L) + Sync, R: Threads + Sync>(
    rt: &R,
    serve: &W,
    left: &mut [P],
    left_links: &mut [L],
    right: &mut [P],
    right_links: &mut [L],
)
    requires some { 1 ≤ length left.old }
    requires some_right { 1 ≤ length right.old }
    requires links { length left_links.old ≡ length left.old }
    requires right_links { length right_links.old ≡ length right.old }
    requires parties { All (Accepts W.Fn serve.now) left.old }
    requires right_parties { All (Accepts W.Fn serve.now) right.old }
    ensures left { AllServe (CallLeaves W.Fn serve.now)
        left.old left_links.old left.new left_links.new }
    ensures right { AllServe (CallLeaves W.Fn serve.now)
        right.old right_links.old right.new right_links.new }
{
    join_mut(
        rt,
        &mut ||
            requires { IsSync R.row × IsSync W.row × IsSend P.row × IsSend L.row
                × (1 ≤ length left.now) × (length left_links.now ≡ length left.now)
                × All (Accepts W.Fn serve.now) left.now }
            ensures { AllServe (CallLeaves W.Fn serve.entry.now)
                left.entry.now left_links.entry.now left.exit.now left_links.exit.now }
        { serve_each(rt, serve, left, left_links) },
        &mut ||
            requires { IsSync R.row × IsSync W.row × IsSend P.row × IsSend L.row
                × (1 ≤ length right.now) × (length right_links.now ≡ length right.now)
                × All (Accepts W.Fn serve.now) right.now }
            ensures { AllServe (CallLeaves W.Fn serve.entry.now)
                right.entry.now right_links.entry.now right.exit.now right_links.exit.now }
        { serve_each(rt, serve, right, right_links) },
    );
}

/// Has a party serve the only link.
fn serve_one<P, L, W: Fn(&mut P, &mut L)>(serve: &W, party: &mut P, links: &mut [L])
    requires link { length links.old ≡ 1 }
    requires party { Accepts W.Fn serve.now party.old }
    ensures { ServesOne (CallLeaves W.Fn serve.now) party.old links.old party.new links.new }
{
    serve_link(serve, party, &mut links[0]);
}

/// Has a party serve a link.
fn serve_link<P, L, W: Fn(&mut P, &mut L)>(serve: &W, party: &mut P, link: &mut L)
    requires { Accepts W.Fn serve.now party.old }
    ensures { CallLeaves W.Fn serve.now party.old link.old party.new link.new }
{
    serve(party, link);
}
