ghost use Rattle.std.specs.Prelude.{◌≡◌, ◌<◌, ◌≤◌};

use super::stores::{Replay, weights};
use arc_graph::{Change, Weights};
use cost_vector::{ArcNo, Weight};
use epoch_store::{Chronicle, EpochReader, Operator, Store, make};
use std::alloc::Global;
use std::marker::Brand;
use std::process::Abort;
use std::sync::Wait;
use std::test::Fail;
use std::thread::{Threads, join};

/// How many epochs are published, and how often each reader looks meanwhile.
const STEPS: u32 = 3000;

/// The changes that make epoch k.
fn changes_of(k: u32) -> [Change; 3]
    requires { k ≤ 3000 }
{
    let closing = if k % 3 == 0 {
        None
    } else {
        Some(Weight::of_numbers(&[1, k]))
    };
    [
        Change {
            arc: ArcNo(k * 37 % 4200 + 1),
            weight: Some(Weight::of_numbers(&[k, 1])),
        },
        Change {
            arc: ArcNo(4096),
            weight: Some(Weight::of_numbers(&[k, k])),
        },
        Change {
            arc: ArcNo(k * 101 % 4200 + 1),
            weight: closing,
        },
    ]
}

#[test]
fn readers_at_once_find_whole_epochs(rt: HostRuntime) -> Result<(), Fail> {
    let alloc = rt.alloc();
    let weights = weights(alloc, 2, 4200, &|file, arc| arc % 89 + file % 4 + 1)?;
    publish_beside_readers::<Brand, _>(&rt, alloc, Chronicle::default(), weights)
}

fn publish_beside_readers<S: Store + Send + Sync, R: Threads + Wait + Abort + Sync>(
    rt: &R,
    alloc: Global,
    chronicle: Chronicle,
    weights: Weights,
) -> Result<(), Fail>
    requires chronicle { chronicle ≡ S.origin.chronicle }
    requires first { S.origin.first ≡ 0 }
    requires weights { weights ≡ S.origin.base }
    requires two { S.origin.base.criteria ≡ 2 }
{
    let mut one = Replay::of(alloc, &weights)?;
    let mut other = Replay::of(alloc, &weights)?;
    let (mut operator, mut readers) = make::<S, R>(rt, alloc, chronicle, 0, weights, 2)?;
    let (first, second) = readers.split_at_mut(1);
    let (first, second) = (&mut first[0], &mut second[0]);
    let (published, (seen, also)) = join(
        rt,
        || publish_all(rt, &mut operator),
        || {
            join(
                rt,
                || follow(first, &mut one),
                || follow(second, &mut other),
            )
        },
    );
    operator.close(rt).end(rt);
    assert_well(rt, published, "the operator");
    assert_well(rt, seen, "the first reader");
    assert_well(rt, also, "the second reader");
    Ok(())
}

fn assert_well<R: Abort>(rt: &R, outcome: Result<(), &'static str>, who: &str) {
    let what = match outcome {
        Ok(()) => "",
        Err(what) => what,
    };
    assert!(rt; what == "", "{who}: {what}");
}

/// Publishes all epochs, or says what fails.
fn publish_all<S: Store, R: Wait>(rt: &R, operator: &mut Operator<S>) -> Result<(), &'static str>
    requires two { S.origin.base.criteria ≡ 2 }
{
    for k in 0..STEPS {
        if !ask(operator, &changes_of(k + 1)) {
            return Err("a change is refused");
        }
        if operator.publish(rt) != Ok(k + 1) {
            return Err("another number is published");
        }
    }
    Ok(())
}

/// Asks for these changes; and whether none is refused.
fn ask<S: Store>(operator: &mut Operator<S>, changes: &[Change]) -> bool
    requires two { S.origin.base.criteria ≡ 2 }
{
    let mut taken = true;
    for change in changes {
        taken = taken
            && match change.weight {
                Some(weight) => weight.count() == 2 && operator.set(change.arc.0, weight).is_ok(),
                None => operator.shut(change.arc.0).is_ok(),
            };
    }
    taken
}

/// Looks as often, and compares each snapshot with a plain replay of the epochs up to its number, or says what differs.
fn follow<S: Store>(reader: &mut EpochReader<S>, replay: &mut Replay) -> Result<(), &'static str> {
    let mut seen = 0;
    for _ in 0..STEPS {
        seen = look(reader, seen, replay)?;
    }
    Ok(())
}

/// Looks once, where the number seen last is this one.
fn look<S: Store>(
    reader: &mut EpochReader<S>,
    seen: u32,
    replay: &mut Replay,
) -> Result<u32, &'static str> {
    if reader.read().is_err() {
        return Err("a look is refused");
    }
    let snapshot = reader.snapshot();
    if snapshot.number < seen || snapshot.number > STEPS {
        return Err("a number falls, or is none of those published");
    }
    for k in seen..snapshot.number {
        replay.take_in(&changes_of(k + 1));
    }
    if snapshot.closed || !replay.agrees(&snapshot.weights) {
        return Err("a snapshot isn't the epoch of its number");
    }
    Ok(snapshot.number)
}
