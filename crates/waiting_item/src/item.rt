use cost_vector::NodeNo;

/// A node that was reached at a cost, and the node from which it was reached, or 0 where the search starts. Items are
/// ordered by cost, then by node.
#[derive(Clone, Copy, Debug, PartialEq, Eq, PartialOrd, Ord)]
pub struct Item<C> {
    pub cost: C,
    pub node: NodeNo,
    pub from: NodeNo,
}
