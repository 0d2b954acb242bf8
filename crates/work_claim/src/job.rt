ghost use Rattle.std.specs.Prelude.{ℕ, IfOk};

use out_of_memory::OutOfMemory;

/// Work that is cut into numbered pieces, which can be done side by side and in any order.
pub trait Job: Sync {
    /// What comes of a piece.
    type Out: Send + Drop;

    /// Which pieces it can be asked for.
    ghost accepts: { Self → ℕ → Type 0 };

    /// What may come of a piece.
    ghost gives: { Self → ℕ → Self.Out → Type 0 };

    /// Does one piece.
    fn run(&self, piece: usize) -> Result<Self::Out, OutOfMemory>
        requires { accepts self.now piece }
        ensures { IfOk result (λ out. gives self.now piece out) };
}
