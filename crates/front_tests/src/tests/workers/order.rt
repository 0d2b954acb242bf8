ghost use Rattle.std.specs.Prelude.{◌≡◌, ◌*◌, ◌^◌, ◌<◌, ◌≤◌};

use super::counting::Counting;
use out_of_memory::OutOfMemory;
use std::alloc::Global;
use std::process::Abort;
use std::thread::Threads;
use work_claim::{Job, Phase, Workers, run_pieces};

/// The square of each piece's number.
#[derive(Drop)]
struct Squares;

impl Job for Squares {
    type Out = usize;

    ghost accepts = { λ _ piece. piece < 2 ^ 16 };

    ghost gives = { λ _ piece out. out ≡ piece * piece };

    fn run(&self, piece: usize) -> Result<usize, OutOfMemory> {
        Ok(piece * piece)
    }
}

/// How many pieces, the last ones' results, and the sum of their numbers.
const CASES: &[(usize, &[usize], u64)] = &[
    (0, &[], 0),
    (1, &[0], 0),
    (5, &[0, 1, 4, 9, 16], 10),
    (200, &[38416, 38809, 39204, 39601], 19900),
];

/// Whether so many workers give the results in order, and each piece passes once.
fn is_in_order<R: Threads + Sync>(
    rt: &R,
    alloc: Global,
    workers: u32,
    case: (usize, &[usize], u64),
) -> Result<bool, OutOfMemory>
    requires one { 1 ≤ workers }
    requires most { workers ≤ 64 }
    requires few { case.0 < 2 ^ 16 }
{
    let (pieces, last, sum) = case;
    let gate = Counting::new();
    let workers = Workers::new(rt, workers, &gate);
    let outs = run_pieces(&workers, alloc, pieces, Phase::Relax, &Squares)?;
    let are_passed = gate.passed() == pieces as u64 && gate.sum() == sum;
    Ok(outs.len() == pieces && outs.ends_with(last) && are_passed)
}

fn assert_in_order<R: Threads + Sync + Abort>(rt: &R, alloc: Global, workers: u32)
    requires one { 1 ≤ workers }
    requires most { workers ≤ 64 }
{
    for &(pieces, last, sum) in CASES {
        assert!(rt; pieces < 1 << 16);
        let is_in_order = is_in_order(rt, alloc, workers, (pieces, last, sum));
        assert!(rt;
            is_in_order == Ok(true),
            "{pieces} pieces, {workers} workers"
        );
    }
}

#[test]
fn results_stand_in_the_order_of_their_pieces(rt: HostRuntime) {
    assert_in_order(&rt, rt.alloc(), 1);
    assert_in_order(&rt, rt.alloc(), 3);
    assert_in_order(&rt, rt.alloc(), 64);
}
