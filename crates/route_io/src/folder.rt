ghost use Rattle.std.specs.Prelude.{ℕ, List};
ghost use Rattle.route_io.specs.Sources.{Selects};

use crate::{Failed, Source};

/// A source that reads the file that was selected last. Before the first selection nothing is left.
pub trait Folder: Source {
    /// Which names may be asked for: a fixed test of the type.
    ghost admits: { List ℕ → Type 0 };

    /// Goes to the start of the named file. A missing name is a failure, after which nothing is left.
    fn select(&mut self, name: &str) -> Result<(), Failed>
        requires { admits name.now }
        ensures { Selects (Self.state self.old) (Self.state self.new) name.now result };
}
