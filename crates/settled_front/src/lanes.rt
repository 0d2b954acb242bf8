ghost use Rattle.std.specs.Prelude.{◌≡◌, ◌<◌, ◌≤◌, ◌↔◌, ℕ, IfNone, IfSome, IsTrue};
ghost use Rattle.settled_front.specs.Blocks.{AddsLane, HasLane, HasOneBefore, TakesLane, block_size};

use std::marker::Model;

/// Some of the sixteen lanes of a block. Each has a bit, which is set where it is one of them.
#[derive(Drop)]
pub struct Lanes {
    bits: u16,
}

impl Model for Lanes {
    ghost use Rattle.std.specs.Prelude.{ℕ};

    ghost Value = { ℕ };

    ghost view = { λ l. l.bits };
}

impl Lanes {
    /// The lanes whose bits are set.
    pub(crate) fn of(bits: u16) -> Lanes
        ensures { result ≡ bits }
    {
        Lanes { bits }
    }

    /// Adds one.
    pub(crate) fn add(&mut self, lane: usize)
        requires { lane < block_size }
        ensures { AddsLane self.old lane self.new }
    {
        self.bits |= 1 << lane;
    }

    /// Whether there is one before the lane `count`.
    #[tactic(auto, using(crate::proofs::LaneBits::one_before))]
    pub(crate) fn has_one_before(&self, count: usize) -> bool
        requires { count ≤ block_size }
        ensures { IsTrue result ↔ HasOneBefore self.now count }
    {
        // Where there is none, this is 16.
        (self.bits.trailing_zeros() as usize) < count
    }

    /// Takes one of them out, as long as there is one.
    #[tactic(auto, using(crate::proofs::LaneBits::lowest_taken))]
    pub(crate) fn take_one(&mut self) -> Option<usize>
        ensures taken { IfSome result (λ lane. TakesLane self.old lane self.new) }
        ensures none { IfNone result ((lane : ℕ) → ¬ HasLane self.old lane) }
    {
        if self.bits == 0 {
            return None;
        }
        let lane = self.bits.trailing_zeros();
        self.bits &= !(1 << lane);
        Some(lane as usize)
    }
}
