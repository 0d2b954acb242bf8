//! Places of a list that are filled side by side.
ghost use Rattle.std.specs.Prelude.{ℕ, ◌+◌, ◌^◌, ◌<◌, length};
ghost use Rattle.std.specs.Thread.{IsSend, IsSync};
ghost use Rattle.waiting_queue.specs.Filling.{AreFilled};

use std::thread::{Threads, join_mut};

/// What fills a place of a list, with regard to its number alone.
pub(crate) trait Fills<P>: Sync {
    /// Which places it can fill.
    ghost accepts: { Self → ℕ → Type 0 };

    /// What a place may hold then.
    ghost gives: { Self → ℕ → P → Type 0 };

    /// Fills the place. What it held before is gone.
    fn fill(&self, place: usize, part: &mut P)
        requires { accepts self.now place }
        ensures { gives self.now place part.new };
}

/// Fills all places, the last one here and each other one in a thread of its own.
pub(crate) fn fill_each<P: Send, F: Fills<P>, R: Threads + Sync>(
    rt: &R,
    filler: &F,
    parts: &mut [P],
)
    requires { (i : ℕ) → i < length parts.old → F.accepts filler.now i }
    ensures { AreFilled (F.gives filler.now) 0 parts.old parts.new }
{
    fill_from(rt, filler, 0, parts);
}

/// Fills the places of these parts, of which the first has this number. All threads are started by the one that asks for them: what a
/// new thread starts is often put on its own processor.
#[cycle(fills)]
fn fill_from<P: Send, F: Fills<P>, R: Threads + Sync>(
    rt: &R,
    filler: &F,
    first: usize,
    parts: &mut [P],
)
    requires room { first + length parts.old < 2 ^ 64 }
    requires accepts { (i : ℕ) → i < length parts.old → F.accepts filler.now (first + i) }
    ensures { AreFilled (F.gives filler.now) first parts.old parts.new }
{
    let Some((part, others)) = parts.split_first_mut() else {
        return;
    };
    if others.is_empty() {
        filler.fill(first, part);
    } else {
        fill_both(rt, filler, first, part, others);
    }
}

/// Fills a place, and beside it those behind it.
#[cycle(fills)]
fn fill_both<P: Send, F: Fills<P>, R: Threads + Sync>(
    rt: &R,
    filler: &F,
    first: usize,
    part: &mut P,
    others: &mut [P],
)
    requires room { first + 1 + length others.old < 2 ^ 64 }
    requires first { F.accepts filler.now first }
    requires others { (i : ℕ) → i < length others.old → F.accepts filler.now (first + 1 + i) }
    ensures first { F.gives filler.now first part.new }
    ensures others { AreFilled (F.gives filler.now) (first + 1) others.old others.new }
{
    let mut one = ||
        requires { IsSync F.row × IsSend P.row × F.accepts filler.now first }
        ensures { F.gives filler.entry.now first part.exit.now }
    { filler.fill(first, part) };
    let mut rest = ||
        requires { IsSync R.row × IsSync F.row × IsSend P.row × (first + 1 + length others.now < 2 ^ 64)
            × ((i : ℕ) → i < length others.now → F.accepts filler.now (first + 1 + i)) }
        ensures { AreFilled (F.gives filler.entry.now) (first + 1) others.entry.now others.exit.now }
    { fill_from(rt, filler, first + 1, others) };
    join_mut(rt, &mut one, &mut rest);
}
