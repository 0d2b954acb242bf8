ghost use Rattle.std.specs.Prelude.{ℕ, List};
ghost use Rattle.session_core.specs.Exchanges.{Exchange};

/// What became of a line.
#[derive(Clone, Copy, Debug, PartialEq, Eq)]
pub(crate) enum Answered {
    /// It has its reply, which is empty where the line is blank.
    Replied,
    /// It ends the session.
    Bye,
}

/// What answers the lines of a link, one by one, in a context that stays. Whoever serves it passes a closure that answers
/// one line: a search starts threads, which a method of this trait could not.
pub(crate) trait LineHandler<C> {
    /// In which context it can answer.
    ghost ready: { C → Type 0 };

    /// How lines with their replies lead it on.
    ghost runs: { C → Self → List Exchange → Self → Type 0 };

    /// Which line ends the session.
    ghost bye: { C → List ℕ → Type 0 };
}
