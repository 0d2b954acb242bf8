//! Places of a list that are changed side by side.
ghost use Rattle.std.specs.Prelude.{ℕ, ◌≡◌, ◌+◌, ◌^◌, ◌<◌, ◌≤◌, length, IfOk};
ghost use Rattle.std.specs.Thread.{IsSend, IsSync};
ghost use Rattle.settled_fronts.specs.Sharing.{AreAccepted, AreChanged};

use out_of_memory::OutOfMemory;
use std::thread::{Threads, join_mut};

/// What changes the places of a list, each with regard to its number alone.
pub(crate) trait Changes<P>: Sync {
    /// Whether it can change any.
    ghost ready: { Self → Type 0 };

    /// What the place of a number may hold.
    ghost accepts: { Self → ℕ → P → Type 0 };

    /// What it may hold before and after.
    ghost leaves: { Self → ℕ → P → P → Type 0 };

    /// Changes these places, of which the first has this number.
    fn change(&self, first: usize, places: &mut [P]) -> Result<(), OutOfMemory>
        requires { AreAccepted (ready self.now) (accepts self.now) first places.old }
        ensures { IfOk result (λ _. AreChanged (leaves self.now) first places.old places.new) };
}

/// Has these places changed in shares, the last one here and each other one in a thread of its own. To each share about so many
/// come of the numbers that are listed in ascending order. All threads are started by the one that asks for them: what a new
/// thread starts is often put on its own processor.
#[cycle(shares)]
pub(crate) fn share<P: Send, C: Changes<P>, R: Threads + Sync>(
    rt: &R,
    changes: &C,
    numbers: &[u32],
    size: usize,
    first: usize,
    places: &mut [P],
) -> Result<(), OutOfMemory>
    requires some { 1 ≤ size }
    requires accepted { AreAccepted (C.ready changes.now) (C.accepts changes.now) first places.old }
    ensures { IfOk result (λ _. AreChanged (C.leaves changes.now) first places.old places.new) }
{
    if numbers.len() <= size {
        return changes.change(first, places);
    }
    let later = &numbers[size..];
    let cut = (later[0] as usize).saturating_sub(first).min(places.len());
    let (one, others) = places.split_at_mut(cut);
    share_both(rt, changes, later, size, first, one, others)
}

/// Has one share changed, and beside it the others.
#[cycle(shares)]
fn share_both<P: Send, C: Changes<P>, R: Threads + Sync>(
    rt: &R,
    changes: &C,
    later: &[u32],
    size: usize,
    first: usize,
    one: &mut [P],
    others: &mut [P],
) -> Result<(), OutOfMemory>
    requires some { 1 ≤ size }
    requires one { AreAccepted (C.ready changes.now) (C.accepts changes.now) first one.old }
    requires others { AreAccepted (C.ready changes.now) (C.accepts changes.now)
        (first + length one.old) others.old }
    ensures one { IfOk result (λ _. AreChanged (C.leaves changes.now) first one.old one.new) }
    ensures others { IfOk result (λ _. AreChanged (C.leaves changes.now)
        (first + length one.old) others.old others.new) }
{
    let next = first + one.len();
    let mut here = || -> Result<(), OutOfMemory>
        requires { IsSync C.row × IsSend P.row
            × AreAccepted (C.ready changes.now) (C.accepts changes.now) first one.now }
        ensures { IfOk result (λ _.
            AreChanged (C.leaves changes.entry.now) first one.entry.now one.exit.now) }
    { changes.change(first, one) };
    let mut beside = || -> Result<(), OutOfMemory>
        requires { IsSync R.row × IsSync C.row × IsSend P.row × (1 ≤ size)
            × AreAccepted (C.ready changes.now) (C.accepts changes.now) next others.now }
        ensures { IfOk result (λ _.
            AreChanged (C.leaves changes.entry.now) next others.entry.now others.exit.now) }
    { share(rt, changes, later, size, next, others) };
    let (first_done, others_done) = join_mut(rt, &mut here, &mut beside);
    first_done?;
    others_done
}
