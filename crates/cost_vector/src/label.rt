ghost use Rattle.std.specs.Prelude.{Some, decimal};

use crate::Cost;
use std::fmt;

/// A node, numbered from 1.
#[derive(Clone, Copy, Debug, PartialEq, Eq, PartialOrd, Ord)]
pub struct NodeNo(pub u32);

impl fmt::Display for NodeNo {
    ghost output = { λ n. Some (decimal n.0) };

    fn fmt<W: fmt::Write>(&self, f: &mut fmt::Formatter<W>) -> fmt::Result {
        fmt::Display::fmt(&self.0, f)
    }
}

/// An arc, numbered from 1. In a label, 0 says that it is the start and has no arc.
#[derive(Clone, Copy, Debug, PartialEq, Eq, PartialOrd, Ord)]
pub struct ArcNo(pub u32);

impl fmt::Display for ArcNo {
    ghost output = { λ n. Some (decimal n.0) };

    fn fmt<W: fmt::Write>(&self, f: &mut fmt::Formatter<W>) -> fmt::Result {
        fmt::Display::fmt(&self.0, f)
    }
}

/// A node, reached at a cost. Spots are ordered by node, then by cost.
#[derive(Clone, Copy, Debug, PartialEq, Eq, PartialOrd, Ord)]
pub struct Spot {
    pub node: NodeNo,
    pub cost: Cost,
}

/// A spot, with the last arc of a walk that reaches it. Labels are ordered by node, then by cost, then by arc.
#[derive(Clone, Copy, Debug, PartialEq, Eq, PartialOrd, Ord)]
pub struct Label {
    pub node: NodeNo,
    pub cost: Cost,
    pub arc: ArcNo,
}
