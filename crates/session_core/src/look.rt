//! Looks for an epoch.
ghost use Rattle.std.specs.Prelude.{◌≡◌, ◌≤◌, ◌↔◌, false, None, IfSome, IsTrue, OnSome};
ghost use Rattle.std.specs.Duration.{as_nanos};
ghost use Rattle.arc_graph.specs.History.{ends_closed};
ghost use Rattle.epoch_store.specs.Origin.{last_number};
ghost use Rattle.epoch_store.specs.Readers.{HasLooked};
ghost use Rattle.session_core.specs.Answering.{LooksAnew, MayReply, SeesOn, Waits, longest_nap};

use epoch_store::{EpochReader, Store};
use session_requests::SessionRequest;
use std::marker::Model;
use std::sync::Wait;
use std::thread;
use std::time::{Clock, Duration};

/// How long a wait sleeps first, in microseconds.
const FIRST_NAP: u64 = 200;

/// The longest that it sleeps.
const LONGEST_NAP: u64 = 20_000;

/// That a reader has looked. Contracts see the number of the epoch that it has seen last since. It is made by a look alone, and
/// each reply that names an epoch takes one.
#[derive(Drop)]
pub(crate) struct Looked {
    number: u32,
}

impl Model for Looked {
    ghost use Rattle.std.specs.Prelude.{ℕ};

    ghost Value = { ℕ };

    ghost view = { λ l. l.number };
}

impl Looked {
    /// The number of the epoch that was seen last.
    pub(crate) fn number(&self) -> u32
        ensures { result ≡ self.now }
    {
        self.number
    }
}

/// Looks for the epoch at which a request is replied to: until the store lets it in, which is at once, and for a wait until its
/// epoch has come or no more are to come. Between two looks it sleeps, each time twice as long, from 200 microseconds up
/// to 20 milliseconds.
pub(crate) fn look_for<T: Store, R: Wait + Clock>(
    reader: &mut EpochReader<T>,
    rt: &R,
    request: &SessionRequest,
) -> Looked
    ensures looked { LooksAnew reader.old reader.new }
    ensures seen { SeesOn T.origin reader.old.seen reader.new.seen }
    ensures number { result ≡ last_number T.origin reader.new.seen }
    ensures come { MayReply T.origin reader.new.seen request.now }
{
    let mut nap = FIRST_NAP;
    for _ in rt.forever() {
        if let Some(looked) = look_once(reader, request) {
            return looked;
        }
        sleep(rt, Duration::from_micros(nap));
        nap = LONGEST_NAP.min(nap.saturating_mul(2));
    }
    unreachable!()
}

/// Sleeps between two looks, 20 milliseconds at most.
fn sleep<R: Clock>(rt: &R, nap: Duration)
    requires { as_nanos nap ≤ longest_nap }
{
    thread::sleep(rt, nap);
}

/// Looks once, for a request that may be replied to then; else it waits, as it does where the store lets nobody in.
fn look_once<T: Store>(reader: &mut EpochReader<T>, request: &SessionRequest) -> Option<Looked>
    ensures looked { OnSome result (HasLooked reader.old reader.new) }
    ensures seen { SeesOn T.origin reader.old.seen reader.new.seen }
    ensures number { IfSome result (λ k. k ≡ last_number T.origin reader.new.seen) }
    ensures come { OnSome result (MayReply T.origin reader.new.seen request.now) }
    ensures waits { result ≡ None → Waits reader.old reader.new }
{
    if reader.read().is_err() {
        return None;
    }
    let number = reader.snapshot().number;
    if may_reply(reader, request) {
        Some(Looked { number })
    } else {
        None
    }
}

/// Whether a request may be replied to at the last epoch that was seen.
fn may_reply<T: Store>(reader: &EpochReader<T>, request: &SessionRequest) -> bool
    ensures may { IsTrue result ↔ MayReply T.origin reader.now.seen request.now }
    ensures waits { result ≡ false → ends_closed reader.now.seen ≡ false }
{
    let last = reader.snapshot();
    match request {
        SessionRequest::Wait { epoch } => last.number >= *epoch || last.closed,
        _ => true,
    }
}
