//! The readers of a store.
ghost use Rattle.std.specs.Prelude.{◌≡◌, ◌+◌, ◌<◌, true, false, [], length, OnOk, OnErr};
ghost use mathlib.Core.List.{IsPrefix};
ghost use Rattle.arc_graph.specs.History.{ends_closed};
ghost use Rattle.left_right.specs.Sides.{view};
ghost use Rattle.epoch_store.specs.Origin.{IsPublishedIn, arcs_of, criteria_of, last_number, last_weights};
ghost use Rattle.epoch_store.specs.EndMark.{unlooked};
ghost use Rattle.epoch_store.specs.Published.{ended_if};
ghost use Rattle.epoch_store.specs.Readers.{HasLooked, unread};
ghost use Rattle.epoch_store.specs.StoreRule.{IsEpoch, IsShown, unsighted};

use crate::chronicle::Witness;
use crate::end_mark::{MarkReader, look_for_mark};
use crate::operator::Ended;
use crate::published::Published;
use crate::register::{StoreGone, enter};
use crate::rule::{Foresight, Look, MoreMayCome, NoneWillCome, StoreReader, StoreRule};
use crate::sight::Sight;
use crate::store::Store;
use arc_graph::Weights;
use std::marker::Model;
use std::sync::Wait;

/// An epoch, whole.
#[derive(Debug, Drop)]
pub struct Snapshot {
    pub number: u32,
    /// Whether no further epoch will come.
    pub closed: bool,
    pub weights: Weights,
}

/// A snapshot, and the history whose last epoch it is, but for its end. Contracts see the whole history.
#[derive(Drop)]
pub(crate) struct Shown<S: Store> {
    pub snapshot: Snapshot,
    pub history: Witness<S>,
}

impl<S: Store> Model for Shown<S> {
    ghost use Rattle.arc_graph.specs.History.{History};
    ghost use Rattle.epoch_store.specs.Published.{ended_if};
    ghost use Rattle.epoch_store.specs.StoreRule.{IsShown};

    ghost Value = { History };

    ghost view = { λ s. ended_if s.snapshot.closed s.history.history };

    ghost invariant = { λ s. IsShown S.origin (ended_if s.snapshot.closed s.history.history)
        s.snapshot.number s.snapshot.closed s.snapshot.weights };
}

impl<S: Store> Shown<S> {
    /// What is shown before the first look.
    pub(crate) fn first(first: u32, weights: Weights, history: Witness<S>) -> Shown<S>
        requires first { first ≡ S.origin.first }
        requires weights { weights ≡ S.origin.base }
        requires nothing { history.history ≡ [] }
        ensures { result ≡ [] }
    {
        Shown {
            snapshot: Snapshot {
                number: first,
                closed: false,
                weights,
            },
            history,
        }
    }

    /// The snapshot.
    fn last_epoch(&self) -> &Snapshot
        ensures shown { IsShown S.origin self.now
            result.now.number result.now.closed result.now.weights }
        ensures criteria { result.now.weights.criteria ≡ criteria_of S.origin }
        ensures arcs { length result.now.weights.states ≡ arcs_of S.origin }
    {
        &self.snapshot
    }

    /// Goes on to an epoch that was found, the last where `closed`, in place: it copies the pages that have changed.
    fn take_over(&mut self, published: &Published<S>, closed: bool)
        requires epoch { IsEpoch S.origin published.now }
        requires begins { IsPrefix self.old published.now.history }
        ensures { self.new ≡ ended_if closed published.now.history }
    {
        let seen = self.snapshot.number;
        for page in 0..published.pages.len() {
            if published.pages[page] > seen {
                self.snapshot.weights.copy_page(&published.weights, page);
            }
        }
        self.snapshot.number = published.number;
        self.snapshot.closed = closed;
        self.history = published.history.again();
    }
}

/// What a reader looks by: at epochs, and for the mark that no more will come.
#[derive(Drop)]
pub(crate) struct Readers<S: Store> {
    pub epochs: StoreReader<S>,
    pub mark: MarkReader,
}

/// A reader, with a snapshot of its own. Contracts see the history that it has seen or has learnt, whose last epoch the
/// snapshot is, and its looks.
#[derive(Drop)]
pub struct EpochReader<S: Store> {
    /// None during a look alone.
    readers: Option<Readers<S>>,
    shown: Shown<S>,
}

impl<S: Store> Model for EpochReader<S> {
    ghost use Rattle.epoch_store.specs.EndMark.{unlooked};
    ghost use Rattle.epoch_store.specs.Published.{ended_if};
    ghost use Rattle.epoch_store.specs.Readers.{EpochReader};
    ghost use Rattle.epoch_store.specs.StoreRule.{unsighted};
    ghost use Rattle.left_right.specs.Sides.{view as seen_by};
    ghost use Rattle.std.specs.Prelude.{◌≡◌, MatchOption, option_map, unwrap_or};

    ghost Value = { EpochReader };

    ghost view = { λ r.
        let sight = unwrap_or (option_map (λ x. seen_by x.epochs.place) r.readers) unsighted in
        let mark = unwrap_or (option_map (λ x. seen_by x.mark.place) r.readers) unlooked in
        record { seen = r.shown; looks = sight.looks; mark_looks = mark.looks; marked = mark.closed } };

    ghost invariant = { λ r. MatchOption r.readers ⊥ (λ x. r.shown
        ≡ ended_if (seen_by x.epochs.place).last (seen_by x.epochs.place).seen) };
}

impl<S: Store> EpochReader<S> {
    pub(crate) fn new(readers: Readers<S>, shown: Shown<S>) -> EpochReader<S>
        requires unsighted { view readers.epochs.place ≡ unsighted }
        requires unlooked { view readers.mark.place ≡ unlooked }
        requires unread { shown ≡ [] }
        ensures { result ≡ unread }
    {
        EpochReader {
            readers: Some(readers),
            shown,
        }
    }

    /// Looks at what is published: first for the end mark, and then at the epoch, so that it is the last where the mark is
    /// set. Who knows that no more will come needn't look. It waits for nobody and takes no memory.
    pub fn read(&mut self) -> Result<(), StoreGone>
        ensures looked { OnOk result (HasLooked self.old self.new) }
        ensures begins { IsPrefix self.old.seen self.new.seen }
        ensures unchanged { OnErr result ((self.new.seen ≡ self.old.seen)
            × (self.new.looks ≡ self.old.looks)) }
    {
        if self.shown.snapshot.closed {
            return Ok(());
        }
        let readers = self.readers.take().unwrap();
        let (readers, looked) = look_by(readers, &mut self.shown);
        self.readers = Some(readers);
        looked
    }

    /// The epoch that was seen last, whole, as it was published.
    pub fn snapshot(&self) -> &Snapshot
        ensures number { result.now.number ≡ last_number S.origin self.now.seen }
        ensures closed { result.now.closed ≡ ends_closed self.now.seen }
        ensures weights { result.now.weights ≡ last_weights S.origin self.now.seen }
        ensures published { IsPublishedIn S.origin self.now.seen }
        ensures criteria { result.now.weights.criteria ≡ criteria_of S.origin }
        ensures arcs { length result.now.weights.states ≡ arcs_of S.origin }
    {
        self.shown.last_epoch()
    }

    /// Goes on to the last epoch of a store that is closed. Its first look finds that.
    pub fn learn<R: Wait>(&mut self, rt: &R, ended: &Ended<S>)
        ensures learnt { self.new.seen ≡ ended.now }
        ensures begins { IsPrefix self.old.seen self.new.seen }
    {
        self.look_until(rt, &ended.writer.published().history, true);
    }

    /// Looks until it finds this history, open or closed.
    pub(crate) fn look_until<R: Wait>(&mut self, rt: &R, history: &Witness<S>, closed: bool)
        ensures found { self.new.seen ≡ ended_if closed history.now.history }
        ensures begins { IsPrefix self.old.seen self.new.seen }
    {
        for _ in rt.forever() {
            let looked = self.read().is_ok();
            if looked && self.has_come_to(history, closed) {
                return;
            }
        }
        unreachable!()
    }

    /// Whether it has seen this history last, open or closed.
    fn has_come_to(&self, history: &Witness<S>, closed: bool) -> bool
        ensures { result ≡ true → self.now.seen ≡ ended_if closed history.now.history }
    {
        self.shown.snapshot.closed == closed && self.shown.history.agrees(history)
    }
}

/// Looks by the readers of the store, which come back: first for the mark, so that the epoch is the last where it is set.
fn look_by<S: Store>(
    readers: Readers<S>,
    shown: &mut Shown<S>,
) -> (Readers<S>, Result<(), StoreGone>)
    requires { shown.old ≡ (view readers.epochs.place).seen }
    ensures found { OnOk result.1 (shown.new
        ≡ ended_if (view result.0.epochs.place).last (view result.0.epochs.place).seen) }
    ensures looks { OnOk result.1 ((view result.0.epochs.place).looks
        ≡ (view readers.epochs.place).looks + 1) }
    ensures mark_looks { OnOk result.1 ((view result.0.mark.place).looks
        ≡ (view readers.mark.place).looks + 1) }
    ensures order { OnOk result.1 ((view result.0.epochs.place).last
        ≡ (view result.0.mark.place).closed) }
    ensures unclosed { OnOk result.1 (ends_closed (view result.0.epochs.place).seen ≡ false) }
    ensures begins { IsPrefix shown.old shown.new }
    ensures unchanged { OnErr result.1 ((shown.new ≡ shown.old)
        × (view result.0.epochs.place ≡ view readers.epochs.place)) }
{
    let Readers { epochs, mark } = readers;
    let (mark, closed) = look_for_mark(mark);
    let (epochs, looked) = match closed {
        Ok(true) => look_at_epoch::<S, NoneWillCome>(epochs, shown, true),
        Ok(false) => look_at_epoch::<S, MoreMayCome>(epochs, shown, false),
        Err(gone) => (epochs, Err(gone)),
    };
    (Readers { epochs, mark }, looked)
}

/// Looks at the epoch that is published, by a reader, which comes back. It is the last where `closed`.
fn look_at_epoch<S: Store, F: Foresight>(
    reader: StoreReader<S>,
    shown: &mut Shown<S>,
    closed: bool,
) -> (StoreReader<S>, Result<(), StoreGone>)
    requires seen { shown.old ≡ (view reader.place).seen }
    requires known { closed ≡ F.last }
    ensures found { OnOk result.1 (shown.new
        ≡ ended_if (view result.0.place).last (view result.0.place).seen) }
    ensures looks { OnOk result.1 ((view result.0.place).looks ≡ (view reader.place).looks + 1) }
    ensures known { OnOk result.1 ((view result.0.place).last ≡ closed) }
    ensures unclosed { OnOk result.1 (ends_closed (view result.0.place).seen ≡ false) }
    ensures begins { IsPrefix shown.old shown.new }
    ensures unchanged { OnErr result.1 ((shown.new ≡ shown.old)
        × (view result.0.place ≡ view reader.place)) }
{
    match enter::<Published<S>, Sight, StoreRule<S>, Look<S, F>>(reader) {
        Ok(reading) => {
            shown.take_over(reading.get(), closed);
            (reading.leave(), Ok(()))
        }
        Err((reader, gone)) => (reader, Err(gone)),
    }
}
