//! What the registers of the kit refuse, and why.
ghost use Rattle.std.specs.Prelude.{◌≡◌, ◌∷◌, ◌++◌, [], drop, MatchResult, OnOk, OnErr};
ghost use Rattle.crossbeam_utils.specs.Register.{Turns};
ghost use Rattle.left_right.specs.Sides.{view};

use crossbeam_utils::rule::{Outcome, Protocol};
use left_right::Absorb;
use left_right::reader::{Reader, Reading};
use left_right::writer::Writer;
use out_of_memory::OutOfMemory;
use std::alloc::Global;
use std::sync::Wait;

/// More bytes than the log of a register takes for one entry more.
const ENTRY_ROOM: usize = 65_536;

/// The store was ended, and its memory given back, so that there is nothing left to look at. It is made where a register
/// lets a reader in no more, and nowhere else.
#[derive(Clone, Copy, Debug, PartialEq, Eq)]
pub struct StoreGone {
    refused: (),
}

/// Enters a register by a reader, which comes back where the register's writer is gone.
pub(crate) fn enter<T: Drop, V, P: Protocol<T, V>, M: Outcome<T, V>>(
    reader: Reader<T, V, P>,
) -> Result<Reading<T, V, P>, (Reader<T, V, P>, StoreGone)>
    requires { Turns P.holds reader.place.id (view reader.place) (λ x. x) M.then }
    ensures { MatchResult result
        (λ r. M.then (view reader.place) r.part.value r.part.value (view r.place))
        (λ r. view r.0.place ≡ view reader.place) }
{
    match reader.enter_as::<M>() {
        Ok(reading) => Ok(reading),
        Err(reader) => Err((reader, StoreGone { refused: () })),
    }
}

/// Adds an operation to the log of a register. A register hands it back where there is no memory for its entry, and keeps the
/// allocator's error to itself. So the allocator is asked for room then, and for more than the entry takes: it answers its
/// own error, or there is memory again.
pub(crate) fn append<T: Absorb<O> + Drop, O: Drop, V, P: Protocol<T, V>, R: Wait>(
    rt: &R,
    alloc: Global,
    writer: &mut Writer<T, O, V, P>,
    operation: O,
) -> Result<(), OutOfMemory>
    ensures shown { writer.new.desk ≡ writer.old.desk }
    ensures waits { OnOk result (drop writer.new.behind writer.new.log.items
        ≡ drop writer.old.behind writer.old.log.items ++ operation ∷ []) }
    ensures unchanged { OnErr result (drop writer.new.behind writer.new.log.items
        ≡ drop writer.old.behind writer.old.log.items) }
{
    let mut waiting = operation;
    for _ in rt.forever() {
        match writer.append(waiting) {
            Ok(()) => return Ok(()),
            Err(back) => waiting = back,
        }
        let _room: Vec<u8> = Vec::with_capacity(alloc, ENTRY_ROOM)?;
    }
    unreachable!()
}
