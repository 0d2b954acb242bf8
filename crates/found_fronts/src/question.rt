ghost use Rattle.walk_readback.specs.Found.{FoundCosts as FoundState};

use walk_readback::SettledCosts;

/// What can be asked of what a search has found, whatever the number of criteria and the width of its costs.
pub(crate) trait Question {
    /// What is answered.
    type Answer;

    /// Of what it can be asked.
    ghost allows: { Self → FoundState → Type 0 };

    /// What is right to answer.
    ghost accepts: { Self → FoundState → Self.Answer → Type 0 };

    /// Asks it.
    fn ask<F: SettledCosts>(&self, found: &F) -> Self::Answer
        requires { allows self.now (F.state found.now) }
        ensures { accepts self.now (F.state found.now) result };
}
