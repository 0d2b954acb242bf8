//! Places of a square grid, and their neighbours.
ghost use Rattle.std.specs.Prelude.{◌≡◌, ◌≤◌, IfSome};
ghost use Rattle.graph_gen.specs.Plans.{max_side};
ghost use Rattle.graph_gen.specs.Grids.{IsOnGrid, above, below, left_of, node_at, right_of};

/// A place, by its row and its column, both from 0.
#[derive(Clone, Copy, Debug, PartialEq, Eq)]
pub struct GridCell {
    pub row: u32,
    pub column: u32,
}

impl GridCell {
    /// The number of the node here.
    pub(crate) fn node(self, side: u32) -> u32
        requires on_grid { IsOnGrid side self }
        requires side { side ≤ max_side }
        ensures { result ≡ node_at side self }
    {
        self.row * side + self.column + 1
    }

    /// The place to the right.
    pub(crate) fn right(self, side: u32) -> Option<GridCell>
        requires { IsOnGrid side self }
        ensures place { result ≡ right_of side self }
        ensures on_grid { IfSome result (IsOnGrid side) }
    {
        let column = self.column + 1;
        if column < side {
            Some(GridCell { column, ..self })
        } else {
            None
        }
    }

    /// The place below.
    pub(crate) fn below(self, side: u32) -> Option<GridCell>
        requires { IsOnGrid side self }
        ensures place { result ≡ below side self }
        ensures on_grid { IfSome result (IsOnGrid side) }
    {
        let row = self.row + 1;
        if row < side {
            Some(GridCell { row, ..self })
        } else {
            None
        }
    }

    /// The place to the left.
    pub(crate) fn left(self) -> Option<GridCell>
        ensures { result ≡ left_of self }
    {
        if self.column > 0 {
            let column = self.column - 1;
            Some(GridCell { column, ..self })
        } else {
            None
        }
    }

    /// The place above.
    pub(crate) fn above(self) -> Option<GridCell>
        ensures { result ≡ above self }
    {
        if self.row > 0 {
            let row = self.row - 1;
            Some(GridCell { row, ..self })
        } else {
            None
        }
    }
}
