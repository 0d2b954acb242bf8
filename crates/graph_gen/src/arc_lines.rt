//! The weight file of a criterion, line by line.
ghost use Rattle.std.specs.Prelude.{◌≡◌, ◌≤◌, ◌<◌, IfOk, IfSome, OnOk};
ghost use Rattle.graph_gen.specs.Grids.{IsOnGrid, arc_to, arcs_from, place_at, row_arcs};
ghost use Rattle.cost_vector.specs.Costs.{max_criteria};
ghost use Rattle.graph_gen.specs.Sequence.{first_number};
ghost use Rattle.graph_gen.specs.Texts.{sizes_line, weight_text};
ghost use Rattle.graph_gen.specs.Writing.{PutsArcs};

use crate::GenPlan;
use crate::grid::GridCell;
use crate::line::put_line;
use crate::sequence::{first_number, next_number, weight_by};
use out_of_memory::OutOfMemory;
use std::alloc::Global;
use std::marker::Model;

/// Room for the longest line: the word, two nodes of up to seven digits, a weight of up to three, the blanks and the LF.
const LINE_ROOM: usize = 22;

/// What is written so far.
#[derive(Drop)]
struct ArcLines {
    text: Vec<u8>,
    side: u32,
    last: u32,
}

impl Model for ArcLines {
    ghost use Rattle.std.specs.Prelude.{◌≤◌, ◌<◌};
    ghost use Rattle.graph_gen.specs.Plans.{max_side};
    ghost use Rattle.graph_gen.specs.Sequence.{modulus};
    ghost use Rattle.graph_gen.specs.Writing.{ArcLines};

    ghost Value = { ArcLines };

    ghost view = { λ l. record { side = l.side; text = l.text.items; last = l.last } };

    ghost invariant = { λ l. (l.side ≤ max_side) × (l.last < modulus) };
}

impl ArcLines {
    /// The first line alone. Room is taken for all lines.
    fn begin(alloc: Global, plan: &GenPlan, criterion: u32) -> Result<ArcLines, OutOfMemory>
        requires { criterion ≤ max_criteria }
        ensures side { IfOk result (λ lines. lines.side ≡ plan.now.side) }
        ensures text { IfOk result (λ lines. lines.text ≡ sizes_line plan.now.side) }
        ensures last { IfOk result (λ lines. lines.last ≡ first_number plan.now.start criterion) }
    {
        let side = plan.side.get();
        let (nodes, arcs) = (side * side, 4 * side * (side - 1));
        let mut text = Vec::with_capacity(alloc, LINE_ROOM * (1 + arcs as usize))?;
        put_line(&mut text, b"p sp", &[nodes, arcs])?;
        let last = first_number(plan.start, criterion);
        Ok(ArcLines { text, side, last })
    }

    /// Puts the arcs that lead from a row.
    fn put_row(&mut self, row: u32) -> Result<(), OutOfMemory>
        requires { row < self.old.side }
        ensures { OnOk result (PutsArcs self.old self.new (row_arcs self.old.side row)) }
    {
        for column in 0..self.side {
            self.put_arcs(GridCell { row, column })?;
        }
        Ok(())
    }

    /// Puts the arcs that lead from a place.
    fn put_arcs(&mut self, place: GridCell) -> Result<(), OutOfMemory>
        requires { IsOnGrid self.old.side place }
        ensures { OnOk result (PutsArcs self.old self.new (arcs_from self.old.side place)) }
    {
        let side = self.side;
        self.put_arc(place, place.right(side))?;
        self.put_arc(place, place.below(side))?;
        self.put_arc(place, place.left())?;
        self.put_arc(place, place.above())
    }

    /// Puts the arc to a neighbour, where there is one.
    fn put_arc(&mut self, tail: GridCell, head: Option<GridCell>) -> Result<(), OutOfMemory>
        requires tail { IsOnGrid self.old.side tail }
        requires head { IfSome head (IsOnGrid self.old.side) }
        ensures { OnOk result (PutsArcs self.old self.new (arc_to self.old.side tail head)) }
    {
        let Some(head) = head else {
            return Ok(());
        };
        let (tail, head) = (tail.node(self.side), head.node(self.side));
        self.last = next_number(self.last);
        put_line(&mut self.text, b"a", &[tail, head, weight_by(self.last)])
    }
}

/// Makes the weight file of a criterion.
pub(crate) fn weight_file(
    alloc: Global,
    plan: &GenPlan,
    criterion: u32,
) -> Result<Vec<u8>, OutOfMemory>
    requires { criterion ≤ max_criteria }
    ensures { IfOk result (λ file. file.items ≡ weight_text plan.now criterion) }
{
    let mut lines = ArcLines::begin(alloc, plan, criterion)?;
    for row in 0..plan.side.get() {
        lines.put_row(row)?;
    }
    Ok(lines.text)
}
