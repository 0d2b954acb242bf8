ghost use Rattle.std.specs.Prelude.{◌≡◌, ℕ, ◌+◌, ◌^◌, ◌<◌, ◌≤◌, ◌↔◌, ◌⊎◌, IfSome, IsSome, IsTrue};
ghost use Rattle.std.specs.Int.{bit_at};

use std::fmt::Debug;

/// A component of a stored cost: a number of some width whose highest bit is free.
///
/// The highest bit of another number of that width serves as a mark. So many comparisons are made side by side, without
/// a branch: the difference of two components that wraps is marked where the first is less.
pub trait Part: Copy + Drop + Debug {
    /// The number.
    ghost value: { Self → ℕ };

    /// What each component is below.
    ghost bound: { ℕ };

    /// The highest bit is set.
    ghost is_marked: { Self → Type 0 };

    /// The component of this number, if the width has room for it.
    fn of(number: u64) -> Option<Self>
        ensures same { IfSome result (λ x. value x ≡ number) }
        ensures fits { IsSome result ↔ (number < bound) };

    /// The number.
    fn to_number(self) -> u64
        ensures { result ≡ value self };

    /// The greatest component.
    fn greatest() -> Self
        ensures { value result + 1 ≡ bound };

    /// What no component comes to.
    fn beyond() -> Self
        ensures { value result ≡ bound };

    /// Whether it is at most this, which either may be: a component, or what none comes to.
    fn is_at_most(self, other: Self) -> bool
        ensures { IsTrue result ↔ (value self ≤ value other) };

    /// What bears no mark.
    fn unmarked() -> Self
        ensures { ¬ is_marked result };

    /// Marks also what is less than another component.
    fn mark_less(self, x: Self, than: Self) -> Self
        requires less_fits { value x < bound }
        requires than_fits { value than < bound }
        ensures { is_marked result ↔ (is_marked self ⊎ (value x < value than)) };

    /// 1 where it is less than another component, else 0: a number to reckon with where a branch couldn't be foreseen.
    fn less_bit(self, than: Self) -> usize
        requires fits { value self < bound }
        requires than_fits { value than < bound }
        ensures { ((value self < value than) × (result ≡ 1))
            ⊎ ((value than ≤ value self) × (result ≡ 0)) };

    /// What is marked where both are.
    fn marked_in_both(self, other: Self) -> Self
        ensures { is_marked result ↔ (is_marked self × is_marked other) };

    /// Whether it is marked.
    fn has_mark(self) -> bool
        ensures { IsTrue result ↔ is_marked self };
}

impl Part for u32 {
    ghost value = { λ x. x };

    ghost bound = { 2 ^ 31 };

    ghost is_marked = { λ x. bit_at x 31 ≡ 1 };

    fn of(number: u64) -> Option<u32> {
        if number < 1 << 31 {
            Some(number as u32)
        } else {
            None
        }
    }

    fn to_number(self) -> u64 {
        u64::from(self)
    }

    fn greatest() -> u32 {
        (1 << 31) - 1
    }

    fn beyond() -> u32 {
        1 << 31
    }

    fn is_at_most(self, other: u32) -> bool {
        self <= other
    }

    fn unmarked() -> u32 {
        0
    }

    fn mark_less(self, x: u32, than: u32) -> u32 {
        self | x.wrapping_sub(than)
    }

    #[tactic(auto, using(crate::proofs::Marks::tells_narrow))]
    fn less_bit(self, than: u32) -> usize {
        (self.wrapping_sub(than) >> 31) as usize
    }

    fn marked_in_both(self, other: u32) -> u32 {
        self & other
    }

    fn has_mark(self) -> bool {
        self >> 31 != 0
    }
}

impl Part for u64 {
    ghost value = { λ x. x };

    ghost bound = { 2 ^ 63 };

    ghost is_marked = { λ x. bit_at x 63 ≡ 1 };

    fn of(number: u64) -> Option<u64> {
        if number < 1 << 63 { Some(number) } else { None }
    }

    fn to_number(self) -> u64 {
        self
    }

    fn greatest() -> u64 {
        (1 << 63) - 1
    }

    fn beyond() -> u64 {
        1 << 63
    }

    fn is_at_most(self, other: u64) -> bool {
        self <= other
    }

    fn unmarked() -> u64 {
        0
    }

    fn mark_less(self, x: u64, than: u64) -> u64 {
        self | x.wrapping_sub(than)
    }

    #[tactic(auto, using(crate::proofs::Marks::tells_wide))]
    fn less_bit(self, than: u64) -> usize {
        (self.wrapping_sub(than) >> 63) as usize
    }

    fn marked_in_both(self, other: u64) -> u64 {
        self & other
    }

    fn has_mark(self) -> bool {
        self >> 63 != 0
    }
}
