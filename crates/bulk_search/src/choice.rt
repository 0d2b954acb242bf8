ghost use Rattle.std.specs.Prelude.{◌≡◌, ◌≤◌, ◌⊎◌, ◌↔◌, IsTrue};

use work_claim::{Gate, Workers};

/// From how many workers on rounds take less time than one worker's search in the order of cost.
const MANY_WORKERS: u32 = 8;

/// From how many criteria on.
const MANY_CRITERIA: usize = 3;

/// Whether these workers are to search by rounds. One worker's search in the order of cost is several times faster than one worker's
/// rounds, and under two criteria also than those of all processors. A gate that has all work shared asks for rounds. The answers
/// are the same.
pub fn rounds_pay<R, G: Gate>(workers: &Workers<'_, R, G>, criteria: usize) -> bool
    ensures { IsTrue result ↔ ((G.SHARED_FROM ≡ 0) ⊎ ((8 ≤ workers.now.count) × (3 ≤ criteria))) }
{
    let many = workers.count() >= MANY_WORKERS && criteria >= MANY_CRITERIA;
    G::SHARED_FROM == 0 || many
}
