//! The chronicle of a store, a list of histories that stands in proofs alone. The code has the number of these
//! histories, and witnesses, which say that a history was drawn up in the store. Two witnesses of one place in the list
//! are of one history.
ghost use Rattle.std.specs.Prelude.{◌≡◌, ◌↔◌, [], None, IsTrue, IfSome};

use crate::draft::Draft;
use crate::history::History;
use crate::store::Store;
use logbook::{Gain, Offer, Plain, Play, Rule, Seen, Start, Word};
use std::marker::{Model, PhantomData};
use std::sync::Wait;

/// A word that all steps share counts the histories.
pub struct Counted;

impl Rule<History, u64> for Counted {
    ghost use Rattle.std.specs.Prelude.{[]};
    ghost use base.Fml.{ftrue};
    ghost use Rattle.epoch_store.specs.Chronicle.{IsChronicle};

    ghost holds = { λ cells log. IsChronicle cells log };

    ghost first = { [] };

    ghost hinted = { λ n log. Unit {0} };

    ghost shows = { λ log. [] };

    ghost keeps = { λ names log. ftrue };

    ghost moves = { λ ask before after answer. Unit {0} };
}

/// A step trades nothing.
pub(crate) struct Nothing;

impl Gain<History, u64> for Nothing {
    ghost use base.Fml.{ftrue};

    ghost after = { λ names about answer. ftrue };
}

/// A step that adds a history, where none was added since the last look.
struct Add;

impl Play<History, u64> for Add {
    ghost use Rattle.epoch_store.specs.Chronicle.{AddsHistory};

    ghost then = { AddsHistory };
}

/// A chronicle with no history, for a store that is to be made. Contracts see which one it is.
#[derive(Drop)]
pub struct Chronicle {
    count: Word<History, u64, Counted>,
    seen: Seen<History, u64, Counted>,
}

impl Model for Chronicle {
    ghost use Rattle.std.specs.Prelude.{◌≡◌, []};
    ghost use Rattle.logbook.specs.Pages.{Book};
    ghost use Rattle.epoch_store.specs.Chronicle.{count_of};

    ghost Value = { Book };

    ghost view = { λ c. c.seen.book };

    ghost invariant = { λ c. (c.seen.log ≡ []) × (c.count ≡ count_of c.seen.book) };
}

impl Default for Chronicle {
    /// A new one. It takes no memory.
    fn default() -> Chronicle {
        let (seen, mut first, _second) = Seen::open(Start::alone(), 0, 0);
        Chronicle {
            count: Word::tracked(0, &mut first),
            seen,
        }
    }
}

impl Chronicle {
    /// The chronicle of the store that has it, with the right to add to it.
    pub(crate) fn into_keeper<S: Store>(self) -> Keeper<S>
        requires { self ≡ S.origin.chronicle }
        ensures { result ≡ [] }
    {
        let Chronicle { count, seen } = self;
        Keeper {
            count,
            place: 0,
            seen,
            of: PhantomData,
        }
    }
}

/// That a history was drawn up in the store. Contracts see the history, and its place in the chronicle.
#[derive(Drop)]
pub struct Witness<S: Store> {
    place: u64,
    seen: Seen<History, u64, Counted>,
    of: PhantomData<S>,
}

impl<S: Store> Model for Witness<S> {
    ghost use Rattle.std.specs.Prelude.{◌≡◌, length};
    ghost use Rattle.epoch_store.specs.Chronicle.{latest};
    ghost use Rattle.epoch_store.specs.Published.{Drawn};

    ghost Value = { Drawn };

    ghost view = { λ w. record { place = w.place; history = latest w.seen.log } };

    ghost invariant = { λ w. (w.place ≡ length w.seen.log) × (w.seen.book ≡ S.origin.chronicle) };
}

impl<S: Store> Witness<S> {
    /// A copy. It takes no memory.
    pub(crate) fn again(&self) -> Witness<S>
        ensures { result ≡ self.now }
    {
        Witness {
            place: self.place,
            seen: self.seen.again(),
            of: PhantomData,
        }
    }

    /// Whether both stand at one place, and so are of one history.
    pub(crate) fn agrees(&self, other: &Witness<S>) -> bool
        ensures { IsTrue result ↔ self.now ≡ other.now }
    {
        let mut both = self.seen.again();
        both.learn(&other.seen);
        self.place == other.place
    }
}

/// The right to add histories to the chronicle of a store. Contracts see the one that was added last.
#[derive(Drop)]
pub(crate) struct Keeper<S: Store> {
    count: Word<History, u64, Counted>,
    place: u64,
    seen: Seen<History, u64, Counted>,
    of: PhantomData<S>,
}

impl<S: Store> Model for Keeper<S> {
    ghost use Rattle.std.specs.Prelude.{◌≡◌, length};
    ghost use Rattle.arc_graph.specs.History.{History};
    ghost use Rattle.epoch_store.specs.Chronicle.{count_of, latest};

    ghost Value = { History };

    ghost view = { λ k. latest k.seen.log };

    ghost invariant = { λ k. (k.place ≡ length k.seen.log)
        × (k.seen.book ≡ S.origin.chronicle)
        × (k.count ≡ count_of S.origin.chronicle) };
}

impl<S: Store> Keeper<S> {
    /// A witness of the history that was added last.
    pub(crate) fn last(&self) -> Witness<S>
        ensures { result.history ≡ self.now }
    {
        Witness {
            place: self.place,
            seen: self.seen.again(),
            of: PhantomData,
        }
    }

    /// Adds the history that the draft leads to. It is added at the first try: nobody else has the count, and its 64 bits
    /// don't come to their end.
    pub(crate) fn add<M: Plain<Draft, History, u64>, R: Wait>(
        &mut self,
        rt: &R,
        draft: &Draft,
    ) -> Witness<S>
        requires { M.state draft.now ≡ None }
        ensures { result.history ≡ M.ask draft.now }
    {
        for _ in rt.forever() {
            if let Some(added) = self.try_add::<M>(draft) {
                return added;
            }
        }
        unreachable!()
    }

    /// Adds the history that the draft leads to, unless somebody else has added one, or the count has reached its end.
    fn try_add<M: Plain<Draft, History, u64>>(&mut self, draft: &Draft) -> Option<Witness<S>>
        requires { M.state draft.now ≡ None }
        ensures { IfSome result (λ w. w.history ≡ M.ask draft.now) }
    {
        let place = self.place;
        let next = place.checked_add(1)?;
        let mut seen = self.seen.again();
        let mut offer: Offer<History, u64, Counted, Nothing> = seen.plain::<Nothing, Draft, M>(
            draft,
        );
        let mut pen = seen.no_pen();
        let found = self
            .count
            .compare_exchange::<Add, Nothing>(place, next, &mut seen, &mut offer, &mut pen);
        if found != place {
            return None;
        }
        self.place = next;
        self.seen = seen;
        Some(self.last())
    }
}
