//! The name that a folder was asked for last.
ghost use Rattle.std.specs.Prelude.{◌≡◌, ℕ, List};
ghost use Rattle.std.specs.Borrow.{ftrue};

use std::marker::Model;

/// A name that clauses alone read. It takes no bytes, and makes none at run time.
#[derive(Drop)]
pub struct Selected {
    ghost name: { List ℕ },
}

impl Model for Selected {
    ghost also_owns = { λ _. ftrue };
}

impl Selected {
    /// This name.
    pub(crate) fn of(_name: &[u8]) -> Selected
        ensures { result.name ≡ _name.now }
    {
        Selected {}
    }
}
