ghost use Rattle.std.specs.Prelude.{◌≡◌};

use super::stores::{Replay, changes, finds, weights};
use crate::tests::stores::six_arcs;
use arc_graph::Weights;
use cost_vector::Weight;
use epoch_store::{Chronicle, EpochReader, Operator, Store, make};
use std::alloc::Global;
use std::marker::Brand;
use std::process::Abort;
use std::sync::Wait;
use std::test::Fail;

/// A change of an arc, by its number; `None` shuts it.
type Asked = (u32, Option<[u32; 2]>);

/// Over the end of the first page, which has arcs 1 to 4,096: both sides of it, no change at all, an arc twice in a set, an
/// arc that is shut, also twice, and one that is opened again.
const SETS: &[&[Asked]] = &[
    &[
        (4095, Some([5, 5])),
        (4096, Some([6, 0])),
        (4097, Some([0, 7])),
    ],
    &[],
    &[
        (4096, Some([1, 2])),
        (1, Some([9, 9])),
        (4096, Some([3, 4])),
    ],
    &[(4097, None), (4095, None), (4097, None)],
    &[(4097, Some([8, 9])), (4100, None)],
    &[
        (4096, None),
        (4096, Some([2, 2])),
        (4098, Some([1, 1])),
        (4098, None),
    ],
];

fn sets() -> &'static [&'static [Asked]] {
    SETS
}

#[test]
fn readers_find_each_epoch_whole(rt: HostRuntime) -> Result<(), Fail> {
    let alloc = rt.alloc();
    let weights = weights(alloc, 2, 4100, &|_file, arc| arc % 89 + 1)?;
    publish_over_a_page::<Brand, _>(&rt, alloc, Chronicle::default(), weights)
}

fn publish_over_a_page<S: Store, R: Wait + Abort>(
    rt: &R,
    alloc: Global,
    chronicle: Chronicle,
    weights: Weights,
) -> Result<(), Fail>
    requires chronicle { chronicle ≡ S.origin.chronicle }
    requires first { S.origin.first ≡ 7 }
    requires weights { weights ≡ S.origin.base }
    requires two { S.origin.base.criteria ≡ 2 }
{
    let mut replay = Replay::of(alloc, &weights)?;
    let (mut operator, mut readers) = make::<S, R>(rt, alloc, chronicle, 7, weights, 2)?;
    let (early, late) = readers.split_at_mut(1);
    publish_all(rt, &mut operator, &mut early[0], &mut late[0], &mut replay);
    operator.close(rt).end(rt);
    Ok(())
}

/// Publishes each set. One reader looks after each, the other after every third.
fn publish_all<S: Store, R: Wait + Abort>(
    rt: &R,
    operator: &mut Operator<S>,
    early: &mut EpochReader<S>,
    late: &mut EpochReader<S>,
    replay: &mut Replay,
)
    requires two { S.origin.base.criteria ≡ 2 }
{
    for (k, asked) in sets().iter().enumerate() {
        let published = publish(rt, operator, asked, replay);
        assert!(rt;
            published && finds(early, operator.number(), false, replay),
            "the epoch of set {k}"
        );
        assert!(rt;
            k % 3 != 2 || finds(late, operator.number(), false, replay),
            "three sets at once, up to set {k}"
        );
    }
    assert!(rt; operator.number() == 13, "a number for each set");
}

/// Asks for these changes and publishes them; and whether all is done.
fn publish<S: Store, R: Wait>(
    rt: &R,
    operator: &mut Operator<S>,
    asked: &[Asked],
    replay: &mut Replay,
) -> bool
    requires two { S.origin.base.criteria ≡ 2 }
{
    let mut done = true;
    for (arc, weight) in asked {
        done = changes(operator, *arc, *weight) && done;
    }
    let done = operator.publish(rt).is_ok() && done;
    match operator.sets().last() {
        Some(set) => replay.take_in(set.changes()),
        None => return false,
    }
    done
}

#[test]
fn a_reader_that_was_told_sees_the_epoch(rt: HostRuntime) -> Result<(), Fail> {
    let alloc = rt.alloc();
    let (_graph, weights) = six_arcs(alloc)?;
    publish_and_close::<Brand, _>(&rt, alloc, Chronicle::default(), weights)
}

fn publish_and_close<S: Store, R: Wait + Abort>(
    rt: &R,
    alloc: Global,
    chronicle: Chronicle,
    weights: Weights,
) -> Result<(), Fail>
    requires chronicle { chronicle ≡ S.origin.chronicle }
    requires first { S.origin.first ≡ 0 }
    requires weights { weights ≡ S.origin.base }
    requires two { S.origin.base.criteria ≡ 2 }
{
    let mut replay = Replay::of(alloc, &weights)?;
    let (mut operator, mut readers) = make::<S, R>(rt, alloc, chronicle, 0, weights, 1)?;
    let reader = &mut readers[0];
    set_and_tell(rt, &mut operator, reader, &mut replay);
    let ended = operator.close(rt);
    reader.learn(rt, &ended);
    assert!(rt;
        finds(reader, 1, true, &replay),
        "no further epoch, and no pending change"
    );
    ended.end(rt);
    Ok(())
}

fn set_and_tell<S: Store, R: Wait + Abort>(
    rt: &R,
    operator: &mut Operator<S>,
    reader: &mut EpochReader<S>,
    replay: &mut Replay,
)
    requires two { S.origin.base.criteria ≡ 2 }
{
    operator.tell(rt, reader);
    assert!(rt; finds(reader, 0, false, replay), "the first epoch");
    assert!(rt; changes(operator, 2, Some([5, 5])), "an arc is set");
    assert!(rt;
        finds(reader, 0, false, replay),
        "a pending change isn't seen"
    );
    assert!(rt; operator.publish(rt) == Ok(1), "the next number");
    operator.tell(rt, reader);
    replay.set(2, Some(Weight::of_numbers(&[5, 5])));
    assert!(rt; finds(reader, 1, false, replay), "the next epoch");
    assert!(rt; changes(operator, 3, None), "an arc is shut");
}
