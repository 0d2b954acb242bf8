//! What comes of pieces, with their numbers, before it is put in order.
ghost use Rattle.std.specs.Prelude.{◌≡◌, ◌++◌, IfOk, IsOkAnd};
ghost use Rattle.work_claim.specs.Results.{AreInOrder};

use out_of_memory::OutOfMemory;
use std::alloc::Global;

/// What came of a piece.
#[derive(Drop)]
pub(crate) struct Done<T> {
    pub piece: usize,
    pub out: T,
}

/// What came of pieces, or that memory ran out.
pub(crate) type DoneList<T> = Result<Vec<Done<T>>, OutOfMemory>;

/// Both lists, one behind the other.
pub(crate) fn append<T: Drop>(first: DoneList<T>, second: DoneList<T>) -> DoneList<T>
    ensures { IfOk result (λ all. IsOkAnd first (λ front. IsOkAnd second (λ back.
        all.items ≡ front.items ++ back.items))) }
{
    let mut all = first?;
    let mut rest = second?;
    all.append(&mut rest)?;
    Ok(all)
}

/// What came of the pieces, in their order.
pub(crate) fn in_order<T: Drop>(
    alloc: Global,
    mut done: Vec<Done<T>>,
) -> Result<Vec<T>, OutOfMemory>
    ensures { IfOk result (λ outs. AreInOrder done.items outs.items) }
{
    done.sort_by_key(|d| d.piece)?;
    let mut outs = Vec::with_capacity(alloc, done.len())?;
    for one in done {
        outs.push(one.out)?;
    }
    Ok(outs)
}
