//! What a file's records are handed to as they come.
ghost use Rattle.std.specs.Prelude.{◌≡◌, ℕ, true, List, [], ◌∷◌, ◌++◌, OnOk};
ghost use Rattle.gr_reader.specs.Sinks.{IsDue};

use crate::grammar::Grammar;
use out_of_memory::OutOfMemory;

/// What takes files of one kind record by record, one file after the other.
pub trait RecordSink<G: Grammar> {
    /// A file may be begun.
    ghost is_ready: { Self → Type 0 };

    /// Since the first state a file with this problem line was begun, and in the second these of its records have come.
    ghost has_taken: { Self → Self → G.Problem → List G.Record → Type 0 };

    /// Begins a file with this problem line. After an error the sink is only dropped.
    fn begin(&mut self, problem: G::Problem) -> Result<(), OutOfMemory>
        requires ready { is_ready self.old }
        requires in_range { G.rules.is_size problem ≡ true }
        ensures { OnOk result (has_taken self.old self.new problem []) };

    /// Takes the next record of the file that was begun last. After an error the sink is only dropped.
    fn take(&mut self, next: G::Record) -> Result<(), OutOfMemory>
        requires { IsDue G.rules has_taken self.old next }
        ensures { (before : Self) (problem : G.Problem) (records : List G.Record)
            → has_taken before self.old problem records
            → OnOk result (has_taken before self.new problem (records ++ next ∷ [])) };
}
