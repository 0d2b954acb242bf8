//! The numbers of the epochs that a session's replies have named.
ghost use Rattle.std.specs.Prelude.{◌≡◌, ℕ, List, [], ◌∷◌, ◌++◌};
ghost use Rattle.std.specs.Borrow.{ftrue};

use std::marker::Model;

/// The numbers that were named, in order. Clauses alone read them: they take no bytes at run time.
#[derive(Drop)]
pub struct Named {
    pub ghost numbers: { List ℕ },
}

impl Model for Named {
    ghost also_owns = { λ _. ftrue };
}

// It owns nothing.
unsafe impl Send for Named {}

impl Named {
    /// No number.
    pub fn none() -> Named
        ensures { result.numbers ≡ [] }
    {
        Named {}
    }

    /// These numbers, and one more.
    pub(crate) fn with(&self, _number: u32) -> Named
        ensures { result.numbers ≡ self.now.numbers ++ _number ∷ [] }
    {
        Named {}
    }
}
