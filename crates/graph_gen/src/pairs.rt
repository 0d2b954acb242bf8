//! The file of pairs.
ghost use Rattle.std.specs.Prelude.{◌≡◌, ◌≤◌, ◌++◌, IfOk, OnOk};
ghost use Rattle.graph_gen.specs.Grids.{IsOnGrid};
ghost use Rattle.graph_gen.specs.Texts.{diagonal_node, pair_line, pairs_text, reach, start_row};

use crate::GenPlan;
use crate::grid::GridCell;
use crate::line::put_line;
use out_of_memory::OutOfMemory;
use std::alloc::Global;

/// Room for the longest line: the word, two nodes of up to seven digits, two blanks and the LF; also for the first line.
const LINE_ROOM: usize = 18;

/// The most rows, and columns, that a pair leads on.
const MAX_REACH: u32 = 4;

/// Makes the file of pairs.
pub(crate) fn pairs_file(alloc: Global, plan: &GenPlan) -> Result<Vec<u8>, OutOfMemory>
    ensures { IfOk result (λ file. file.items ≡ pairs_text plan.now) }
{
    let pairs = plan.pairs.get();
    let mut text = Vec::with_capacity(alloc, LINE_ROOM * (1 + pairs as usize))?;
    put_line(&mut text, b"p aux sp p2p", &[pairs])?;
    for number in 1..pairs + 1 {
        put_pair(&mut text, plan, number)?;
    }
    Ok(text)
}

/// Puts the pair of this number, from 1.
fn put_pair(text: &mut Vec<u8>, plan: &GenPlan, number: u32) -> Result<(), OutOfMemory>
    requires some { 1 ≤ number }
    requires number { number ≤ plan.now.pairs }
    ensures { OnOk result (text.new.items ≡ text.old.items ++ pair_line plan.now number) }
{
    let (side, pairs) = (plan.side.get(), plan.pairs.get());
    let reach = MAX_REACH.min(side - 1);
    let start = (number - 1) * (side - 1 - reach) / pairs;
    let (from, to) = (on_diagonal(start), on_diagonal(start + reach));
    put_line(text, b"q", &[from.node(side), to.node(side)])
}

/// The place in this row and column.
fn on_diagonal(row: u32) -> GridCell
    ensures row { result.row ≡ row }
    ensures column { result.column ≡ row }
{
    GridCell { row, column: row }
}
