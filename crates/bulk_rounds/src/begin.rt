/// How the beginning of a round ended.
#[derive(Clone, Copy, Debug, PartialEq, Eq)]
pub enum Begun {
    /// Spots were taken: the arcs from them are to be relaxed.
    Taken,
    /// None is open any more: the search has found all.
    Done,
    /// More spots would be settled than the budget allows: the search is only to be dropped.
    Budget,
}
