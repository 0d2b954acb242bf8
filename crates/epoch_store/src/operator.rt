//! The operator of a store.
ghost use Rattle.std.specs.Prelude.{◌≡◌, ◌<◌, [], ◌∷◌, ◌++◌, ◌↔◌, Some, None, length, drop, fold, vec_len, vec_capacity, All, IsTrue, IsOk, IfOk, IfErr, OnOk, OnErr};
ghost use Rattle.arc_graph.specs.History.{IsChange, closed_history, max_pending, sets_of, with_none_pending, with_pending, with_published};
ghost use mathlib.Core.List.{IsPrefix};
ghost use Rattle.epoch_store.specs.EndMark.{IsReady};
ghost use Rattle.epoch_store.specs.Faults.{HasPublishFault, MayPend, HasSetFault, HasShutFault, HasArc, MayPublish, MaySet, MayShut};
ghost use Rattle.epoch_store.specs.Origin.{IsOperatorIn, arcs_of, criteria_of, last_number};
ghost use Rattle.epoch_store.specs.Published.{epoch_of, of_sets, with_publication};
ghost use Rattle.epoch_store.specs.StoreRule.{AwaitsOne, MayFollow};

use crate::chronicle::Keeper;
use crate::draft::{ChangeSet, Draft, Publishing};
use crate::end_mark::{MarkWriter, set_mark};
use crate::fault::{PublishFault, SetFault, ShutFault};
use crate::published::{Publication, Published};
use crate::reader::EpochReader;
use crate::register::append;
use crate::rule::{Look, MoreMayCome, StoreWriter};
use crate::store::Store;
use arc_graph::Change;
use core::mem::replace_with;
use cost_vector::{ArcNo, Weight};
use left_right::Absorb;
use out_of_memory::OutOfMemory;
use std::alloc::Global;
use std::marker::Model;
use std::sync::Wait;

/// The most changes that may be pending.
const MAX_PENDING: usize = 65536;

/// The one who publishes epochs. Contracts see the history that it has published, and the changes that are pending.
///
/// It isn't `Drop`: close it, and end what that gives.
pub struct Operator<S: Store>
where
    Published<S>: Absorb<Publication<S>, State = Published<S>>,
{
    alloc: Global,
    first: u32,
    number: u32,
    draft: Draft,
    keeper: Keeper<S>,
    writer: StoreWriter<S>,
    mark: MarkWriter,
}

impl<S: Store> Model for Operator<S>
where
    Published<S>: Absorb<Publication<S>, State = Published<S>>,
{
    ghost use Rattle.std.specs.Prelude.{◌≡◌, [], drop};
    ghost use Rattle.arc_graph.specs.History.{Operator};
    ghost use Rattle.epoch_store.specs.EndMark.{IsReady};
    ghost use Rattle.epoch_store.specs.Published.{of_sets};
    ghost use Rattle.epoch_store.specs.Origin.{IsOperatorIn, last_number};

    ghost Value = { Operator };

    ghost view = { λ o. record { published = of_sets o.draft.sets.items; pending = o.draft.pending.items } };

    ghost invariant = { λ o. IsOperatorIn S.origin
        (record { published = of_sets o.draft.sets.items; pending = o.draft.pending.items })
        × (o.first ≡ S.origin.first)
        × (o.number ≡ last_number S.origin (of_sets o.draft.sets.items))
        × (o.writer.desk.shown.value.history ≡ of_sets o.draft.sets.items)
        × (drop o.writer.behind o.writer.log.items ≡ [])
        × IsReady (drop o.mark.behind o.mark.log.items) };
}

/// A store that its operator has closed. Contracts see its whole history.
///
/// It isn't `Drop`: end it.
pub struct Ended<S: Store>
where
    Published<S>: Absorb<Publication<S>, State = Published<S>>,
{
    /// The number of the last epoch.
    last: u32,
    pub(crate) writer: StoreWriter<S>,
    mark: MarkWriter,
}

impl<S: Store> Model for Ended<S>
where
    Published<S>: Absorb<Publication<S>, State = Published<S>>,
{
    ghost use Rattle.std.specs.Prelude.{◌≡◌, true};
    ghost use Rattle.arc_graph.specs.History.{History};
    ghost use Rattle.epoch_store.specs.Origin.{last_number};
    ghost use Rattle.epoch_store.specs.Published.{ended_if};

    ghost Value = { History };

    ghost view = { λ e. ended_if true e.writer.desk.shown.value.history };

    ghost invariant = { λ e. (e.last ≡ last_number S.origin (ended_if true e.writer.desk.shown.value.history))
        × (e.mark.desk.shown.value.closed ≡ true) };
}

impl<S: Store> Operator<S> {
    /// An operator that has published nothing.
    pub(crate) fn new(
        alloc: Global,
        first: u32,
        keeper: Keeper<S>,
        writer: StoreWriter<S>,
        mark: MarkWriter,
    ) -> Operator<S>
        requires first { first ≡ S.origin.first }
        requires shown { writer.desk.shown.value.history ≡ [] }
        requires idle { drop writer.behind writer.log.items ≡ [] }
        requires ready { IsReady (drop mark.behind mark.log.items) }
        ensures { result ≡ record { published = []; pending = [] } }
    {
        let draft = Draft {
            sets: Vec::new(alloc),
            pending: Vec::new(alloc),
        };
        Operator {
            alloc,
            first,
            number: first,
            draft,
            keeper,
            writer,
            mark,
        }
    }

    /// The number of the first epoch.
    pub fn first(&self) -> u32
        ensures { result ≡ S.origin.first }
    {
        self.first
    }

    /// The number of the current epoch.
    pub fn number(&self) -> u32
        ensures number { result ≡ last_number S.origin self.now.published }
        ensures operator { IsOperatorIn S.origin self.now }
    {
        self.number
    }

    /// The published change sets, in order.
    pub fn sets(&self) -> &[ChangeSet]
        ensures { result.now ≡ sets_of self.now.published }
    {
        &self.draft.sets
    }

    /// Asks that an arc be given these weights with the next epoch, whether it is shut or not.
    pub fn set(&mut self, arc: u32, w: Weight) -> Result<(), SetFault>
        requires criteria { length w ≡ criteria_of S.origin }
        ensures pending { OnOk result (self.new
            ≡ with_pending self.old (record { arc = record { 0 = arc }; weight = Some w })) }
        ensures allowed { OnOk result (MaySet S.origin self.old arc w) }
        ensures fault { IfErr result (HasSetFault S.origin self.old arc w) }
        ensures unchanged { OnErr result (self.new ≡ self.old) }
    {
        if !self.has_arc(arc) {
            return Err(SetFault::Arc);
        }
        if w.is_zero() {
            return Err(SetFault::Zero);
        }
        if !self.has_room() {
            return Err(SetFault::Full);
        }
        let _count = w.count(); // a proof knows the range of what is counted
        let change = Change {
            arc: ArcNo(arc),
            weight: Some(w),
        };
        self.add(change).map_err(SetFault::OutOfMemory)
    }

    /// Asks that an arc be shut with the next epoch, whether it is shut already or not.
    pub fn shut(&mut self, arc: u32) -> Result<(), ShutFault>
        ensures pending { OnOk result (self.new
            ≡ with_pending self.old (record { arc = record { 0 = arc }; weight = None })) }
        ensures allowed { OnOk result (MayShut S.origin self.old arc) }
        ensures fault { IfErr result (HasShutFault S.origin self.old arc) }
        ensures unchanged { OnErr result (self.new ≡ self.old) }
    {
        if !self.has_arc(arc) {
            return Err(ShutFault::Arc);
        }
        if !self.has_room() {
            return Err(ShutFault::Full);
        }
        let change = Change {
            arc: ArcNo(arc),
            weight: None,
        };
        self.add(change).map_err(ShutFault::OutOfMemory)
    }

    /// Gives up all pending changes. It takes no memory.
    pub fn drop_pending(&mut self)
        ensures { self.new ≡ with_none_pending self.old }
    {
        self.draft.pending = Vec::new(self.alloc);
    }

    /// Publishes the pending changes as one set, also where there are none, and answers the number of the epoch that
    /// they make. All memory is taken before the one step at which readers can see it. It may wait for readers.
    pub fn publish<R: Wait>(&mut self, rt: &R) -> Result<u32, PublishFault>
        ensures published { OnOk result (self.new ≡ with_published self.old) }
        ensures number { IfOk result (λ k. k ≡ last_number S.origin self.new.published) }
        ensures allowed { OnOk result (MayPublish S.origin self.old) }
        ensures fault { IfErr result (HasPublishFault S.origin self.old) }
        ensures unchanged { OnErr result (self.new ≡ self.old) }
    {
        if self.number == u32::MAX {
            return Err(PublishFault::LastEpoch);
        }
        let number = self.number + 1;
        self.draft.sets.reserve(1).map_err(OutOfMemory::from)?;
        let publication = next_epoch(rt, self.alloc, number, &self.draft, &mut self.keeper)?;
        hand_over(rt, self.alloc, &mut self.writer, publication)?;
        self.draft.publish(self.alloc);
        self.number = number;
        Ok(number)
    }

    /// Brings a reader to what is published now. Its first look finds that, since nothing is published meanwhile.
    pub fn tell<R: Wait>(&self, rt: &R, reader: &mut EpochReader<S>)
        ensures published { reader.new.seen ≡ self.now.published }
        ensures begins { IsPrefix reader.old.seen reader.new.seen }
    {
        reader.look_until(rt, &self.writer.published().history, false);
    }

    /// Ends the history. Pending changes aren't published. It takes no memory, and may wait for readers.
    pub fn close<R: Wait>(self, rt: &R) -> Ended<S>
        ensures { result ≡ closed_history self }
    {
        let Operator {
            alloc: _,
            first: _,
            number: last,
            draft: _,
            keeper: _,
            writer,
            mark,
        } = self;
        let mark = set_mark(mark, rt);
        Ended { last, writer, mark }
    }

    fn has_arc(&self, arc: u32) -> bool
        ensures { IsTrue result ↔ HasArc (arcs_of S.origin) arc }
    {
        1 <= arc && arc <= self.writer.published().weights.arcs()
    }

    fn has_room(&self) -> bool
        ensures { IsTrue result ↔ MayPend self.now }
    {
        self.draft.pending.len() < MAX_PENDING
    }

    fn add(&mut self, change: Change) -> Result<(), OutOfMemory>
        requires change { IsChange (arcs_of S.origin) (criteria_of S.origin) change }
        requires room { MayPend self.old }
        ensures pending { OnOk result (self.new ≡ with_pending self.old change) }
        ensures unchanged { OnErr result (self.new ≡ self.old) }
    {
        self.draft.pending.push(change)?;
        Ok(())
    }
}

impl<S: Store> Ended<S> {
    /// Gives the store's memory back, but for what its readers hold, and answers the number of the last epoch. It takes no
    /// memory, and may wait for readers.
    pub fn end<R: Wait>(self, rt: &R) -> u32
        ensures { result ≡ last_number S.origin self }
    {
        let Ended { last, writer, mark } = self;
        writer.take(rt);
        mark.take(rt);
        last
    }
}

/// The publication of what is pending.
fn next_epoch<S: Store, R: Wait>(
    rt: &R,
    alloc: Global,
    number: u32,
    draft: &Draft,
    keeper: &mut Keeper<S>,
) -> Result<Publication<S>, OutOfMemory>
    requires { All (IsChange (arcs_of S.origin) (criteria_of S.origin)) draft.now.pending.items }
    ensures { IfOk result (λ q. q
        ≡ epoch_of number draft.now.sets.items draft.now.pending.items) }
{
    let changes = Vec::from_slice(alloc, &draft.pending)?;
    let history = keeper.add::<Publishing, R>(rt, draft);
    Ok(Publication {
        number,
        changes,
        history,
    })
}

/// Hands a publication over to the readers. Nothing changes where there is no memory for it.
fn hand_over<S: Store, R: Wait>(
    rt: &R,
    alloc: Global,
    writer: &mut StoreWriter<S>,
    publication: Publication<S>,
) -> Result<(), OutOfMemory>
    requires idle { drop writer.old.behind writer.old.log.items ≡ [] }
    requires follows { MayFollow S.origin writer.old.desk.shown.value publication }
    ensures shown { OnOk result (writer.new.desk.shown.value
        ≡ with_publication writer.old.desk.shown.value publication) }
    ensures unchanged { OnErr result (writer.new.desk.shown.value
        ≡ writer.old.desk.shown.value) }
    ensures idle { drop writer.new.behind writer.new.log.items ≡ [] }
{
    append(rt, alloc, writer, publication)?;
    replace_with(writer, rt, show::<S, R>);
    Ok(())
}

/// Shows the one publication that waits to the readers.
fn show<S: Store, R: Wait>(writer: StoreWriter<S>, rt: &R) -> (StoreWriter<S>, ())
    requires { AwaitsOne S.origin writer.desk.shown.value (drop writer.behind writer.log.items) }
    ensures shown { result.0.desk.shown.value ≡ fold with_publication
        writer.desk.shown.value (drop writer.behind writer.log.items) }
    ensures idle { drop result.0.behind result.0.log.items ≡ [] }
{
    let (writer, shown) = writer.publish_as::<Look<S, MoreMayCome>, R>(rt);
    prove!(shown.is_ok());
    (writer, ())
}
