//! The mark that no further epoch will come.
//!
//! It is a register of its own, in which its one change waits from the start. So a store is closed without memory.
ghost use Rattle.std.specs.Prelude.{◌≡◌, ◌+◌, ◌≤◌, [], ◌∷◌, drop, true, IfOk, OnOk};
ghost use Rattle.epoch_store.specs.EndMark.{IsReady};
ghost use Rattle.epoch_store.specs.Origin.{max_readers};
ghost use Rattle.left_right.specs.Sides.{view};

use crate::register::{StoreGone, append, enter};
use crate::sight::MarkSight;
use crossbeam_utils::rule::{Outcome, Protocol};
use left_right::Absorb;
use left_right::reader::Reader;
use left_right::writer::Writer;
use out_of_memory::OutOfMemory;
use std::alloc::{AllocError, Global};
use std::mem::ManuallyDrop;
use std::sync::Wait;

/// Whether the store is closed.
#[derive(Drop)]
pub struct EndMark {
    pub(crate) closed: bool,
}

/// That the store is closed.
#[derive(Drop)]
pub struct Closing;

impl Absorb<Closing> for EndMark {
    ghost use Rattle.std.specs.Prelude.{true};

    type State = bool;

    ghost state = { λ m. m.closed };

    ghost applied = { λ _ _. true };

    ghost never_fails = { Unit {0} };

    fn absorb_first(&mut self, _closing: &Closing, _other: &EndMark) -> Result<(), AllocError> {
        self.closed = true;
        Ok(())
    }
}

/// A reader knows what it found last, and how often it has looked.
pub struct MarkRule;

impl Protocol<EndMark, MarkSight> for MarkRule {
    ghost use Rattle.epoch_store.specs.EndMark.{unlooked};

    ghost holds = { λ m views. Unit {0} };

    ghost first = { unlooked };
}

/// A look for the mark.
pub(crate) struct LookForMark;

impl Outcome<EndMark, MarkSight> for LookForMark {
    ghost use Rattle.epoch_store.specs.EndMark.{LooksForMark};

    ghost then = { λ before _ m after. LooksForMark before m after };
}

pub(crate) type MarkReader = Reader<EndMark, MarkSight, MarkRule>;

pub(crate) type MarkWriter = Writer<EndMark, Closing, MarkSight, MarkRule>;

/// A mark that isn't set, for so many readers, with all that setting it takes.
pub(crate) fn unset_mark<R: Wait>(
    rt: &R,
    alloc: Global,
    readers: u32,
) -> Result<MarkWriter, OutOfMemory>
    requires one { 1 ≤ readers }
    requires most { readers ≤ max_readers }
    ensures { IfOk result (λ w. IsReady (drop w.behind w.log.items)) }
{
    let (first, second) = (EndMark { closed: false }, EndMark { closed: false });
    let mut writer = MarkWriter::new(alloc, first, second, readers as usize)?;
    if let Err(want) = append(rt, alloc, &mut writer, Closing) {
        let _lost = unsafe { ManuallyDrop::new_unchecked(writer) };
        return Err(want);
    }
    Ok(writer)
}

/// Sets the mark. It takes no memory, and may wait for readers.
pub(crate) fn set_mark<R: Wait>(writer: MarkWriter, rt: &R) -> MarkWriter
    requires { IsReady (drop writer.behind writer.log.items) }
    ensures { result.desk.shown.value.closed ≡ true }
{
    let (writer, shown) = writer.publish_as::<LookForMark, R>(rt);
    prove!(shown.is_ok());
    writer
}

/// Looks whether the mark is set, by a reader, which comes back.
pub(crate) fn look_for_mark(reader: MarkReader) -> (MarkReader, Result<bool, StoreGone>)
    ensures found { IfOk result.1 (λ closed. closed ≡ (view result.0.place).closed) }
    ensures counted { OnOk result.1 ((view result.0.place).looks ≡ (view reader.place).looks + 1) }
{
    match enter::<EndMark, MarkSight, MarkRule, LookForMark>(reader) {
        Ok(reading) => {
            let closed = reading.get().closed;
            (reading.leave(), Ok(closed))
        }
        Err((reader, gone)) => (reader, Err(gone)),
    }
}
