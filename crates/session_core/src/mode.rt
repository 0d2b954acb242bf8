/// How a query is searched. The answer is the same, but not which pairs of a node and a cost count against its budget.
#[derive(Clone, Copy, Debug, PartialEq, Eq)]
pub enum SearchMode {
    /// By costs alone: the relevant pairs count.
    Plain,
    /// Directed to its target by lower bounds: the goal-relevant pairs count, which are at most as many.
    Goal,
}
