//! The rule under which the numbers of pieces are drawn.
use atomic_table::{Join, Play, Split, TableRule};
use std::marker::Model;

/// What a seat knows, as it stands in proofs. No value of it is made.
pub struct Draws {
    none: (),
}

impl Model for Draws {
    ghost use Rattle.std.specs.Prelude.{[]};
    ghost use Rattle.work_claim.specs.Claims.{Draws};

    ghost Value = { Draws };

    ghost view = { λ _. record { numbers = []; workers = 0 } };
}

/// How many pieces there are, and how many workers do them.
#[derive(Clone, Copy)]
pub struct Plan {
    pub pieces: usize,
    pub workers: u32,
}

/// Each number below the counter was drawn once.
pub struct Claiming;

impl TableRule<(), Draws, Plan> for Claiming {
    ghost use Rattle.std.specs.Prelude.{[]};
    ghost use Rattle.work_claim.specs.Claims.{AreClaims};

    ghost holds = { λ plan table. AreClaims plan.pieces plan.workers table.words table.views };

    ghost first = { λ plan. record { numbers = []; workers = plan.workers } };
}

/// A claim: the number found is drawn.
pub(crate) struct Claim;

impl Play<(), Draws> for Claim {
    ghost use Rattle.work_claim.specs.Claims.{Claims};

    ghost then = { λ _ before found after. Claims before found after };
}

/// One of a seat's workers gets a seat of its own.
pub(crate) struct OneLeaves;

impl Split<Draws> for OneLeaves {
    ghost use Rattle.work_claim.specs.Claims.{for_one, without_one};

    ghost left = { without_one };

    ghost right = { λ _. for_one };
}

/// What two seats have drawn and for whom they draw is put together.
pub(crate) struct Together;

impl Join<Draws> for Together {
    ghost use Rattle.work_claim.specs.Claims.{joined, spent};

    ghost both = { joined };

    ghost spent = { spent };
}
