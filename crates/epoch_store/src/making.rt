//! How a store is made.
ghost use Rattle.std.specs.Prelude.{◌≡◌, ◌≤◌, ◌<◌, [], All, IfOk, vec_len};
ghost use Rattle.epoch_store.specs.Origin.{max_readers};
ghost use Rattle.epoch_store.specs.Readers.{unread};
ghost use Rattle.epoch_store.specs.StoreRule.{opening_of};

use crate::chronicle::{Chronicle, Witness};
use crate::end_mark::{MarkWriter, unset_mark};
use crate::operator::Operator;
use crate::published::Published;
use crate::reader::{EpochReader, Readers, Shown};
use crate::rule::StoreWriter;
use crate::store::Store;
use arc_graph::Weights;
use out_of_memory::OutOfMemory;
use std::alloc::Global;
use std::mem::ManuallyDrop;
use std::sync::Wait;

/// Makes a store with an operator and so many readers, 1 to 16. The current epoch has the first number and these
/// weights. All memory that closing it takes is taken here. A reader that is refused its place counts as want of memory; the
/// memory of the store is lost then.
pub fn make<S: Store, R: Wait>(
    rt: &R,
    alloc: Global,
    chronicle: Chronicle,
    first: u32,
    weights: Weights,
    readers: u32,
) -> Result<(Operator<S>, Vec<EpochReader<S>>), OutOfMemory>
    requires chronicle { chronicle ≡ S.origin.chronicle }
    requires first { first ≡ S.origin.first }
    requires weights { weights ≡ S.origin.base }
    requires one { 1 ≤ readers }
    requires most { readers ≤ max_readers }
    ensures operator { IfOk result (λ r. r.0 ≡ record { published = []; pending = [] }) }
    ensures readers { IfOk result (λ r. vec_len r.1 ≡ readers) }
    ensures unread { IfOk result (λ r. All (λ x. x ≡ unread) r.1.items) }
{
    let keeper = chronicle.into_keeper::<S>();
    let history = keeper.last();
    let shown = snapshots(alloc, first, &weights, &history, readers)?;
    let places = Vec::with_capacity(alloc, shown.len())?;
    let second = opening(alloc, first, weights.try_copy()?, &history)?;
    let opening = opening(alloc, first, weights, &history)?;
    let mark = unset_mark(rt, alloc, readers)?;
    let writer = match StoreWriter::new(alloc, opening, second, readers as usize) {
        Ok(writer) => writer,
        Err(want) => {
            let _lost = unsafe { ManuallyDrop::new_unchecked(mark) };
            return Err(want.into());
        }
    };
    match seat_readers(&writer, &mark, shown, places) {
        Ok(seated) => Ok((Operator::new(alloc, first, keeper, writer, mark), seated)),
        Err(want) => {
            let _lost = unsafe { ManuallyDrop::new_unchecked((writer, mark)) };
            Err(want)
        }
    }
}

/// What readers find before the first publication.
fn opening<S: Store>(
    alloc: Global,
    first: u32,
    weights: Weights,
    history: &Witness<S>,
) -> Result<Published<S>, OutOfMemory>
    requires weights { weights ≡ S.origin.base }
    requires nothing { history.now.history ≡ [] }
    ensures { IfOk result (λ p. p ≡ opening_of S.origin first) }
{
    let pages = vec![in alloc; first; weights.pages()]?;
    Ok(Published {
        number: first,
        weights,
        pages,
        history: history.again(),
    })
}

/// A snapshot of the first epoch for each reader.
fn snapshots<S: Store>(
    alloc: Global,
    first: u32,
    weights: &Weights,
    history: &Witness<S>,
    readers: u32,
) -> Result<Vec<Shown<S>>, OutOfMemory>
    requires first { first ≡ S.origin.first }
    requires weights { weights.now ≡ S.origin.base }
    requires nothing { history.now.history ≡ [] }
    ensures readers { IfOk result (λ v. vec_len v ≡ readers) }
    ensures unread { IfOk result (λ v. All (λ h. h ≡ []) v.items) }
{
    let mut all = Vec::with_capacity(alloc, readers as usize)?;
    for _ in 0..readers {
        all.push(Shown::first(first, weights.try_copy()?, history.again()))?;
    }
    Ok(all)
}

/// Gives each snapshot a reader of its own, in these places.
fn seat_readers<S: Store>(
    writer: &StoreWriter<S>,
    mark: &MarkWriter,
    snapshots: Vec<Shown<S>>,
    places: Vec<EpochReader<S>>,
) -> Result<Vec<EpochReader<S>>, OutOfMemory>
    requires unread { All (λ h. h ≡ []) snapshots.items }
    requires vacant { vec_len places ≡ 0 }
    ensures readers { IfOk result (λ v. vec_len v ≡ vec_len snapshots) }
    ensures unread { IfOk result (λ v. All (λ x. x ≡ unread) v.items) }
{
    let mut rest = snapshots;
    let mut seated = places;
    while let Some(shown) = rest.pop() {
        let epochs = writer.factory().reader()?;
        let mark = mark.factory().reader()?;
        seated.push(EpochReader::new(Readers { epochs, mark }, shown))?;
    }
    Ok(seated)
}
