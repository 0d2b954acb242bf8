ghost use Rattle.std.specs.Prelude.{◌≡◌};

use crate::tests::stores::six_arcs;
use arc_graph::Weights;
use cost_vector::Weight;
use epoch_store::{Chronicle, Operator, PublishFault, SetFault, ShutFault, Store, make};
use std::alloc::Global;
use std::marker::Brand;
use std::process::Abort;
use std::sync::Wait;
use std::test::Fail;

#[test]
fn the_first_fault_is_told(rt: HostRuntime) -> Result<(), Fail> {
    let alloc = rt.alloc();
    let (_graph, weights) = six_arcs(alloc)?;
    refuse_all::<Brand, _>(&rt, alloc, Chronicle::default(), weights)
}

fn refuse_all<S: Store, R: Wait + Abort>(
    rt: &R,
    alloc: Global,
    chronicle: Chronicle,
    weights: Weights,
) -> Result<(), Fail>
    requires chronicle { chronicle ≡ S.origin.chronicle }
    requires first { S.origin.first ≡ 4294967294 }
    requires weights { weights ≡ S.origin.base }
    requires two { S.origin.base.criteria ≡ 2 }
{
    let (mut operator, _readers) = make::<S, R>(rt, alloc, chronicle, 4294967294, weights, 1)?;
    assert!(rt; fill(&mut operator), "one change more");
    assert_sets_refused(rt, &mut operator);
    assert_shuts_refused(rt, &mut operator);
    assert_last_epoch(rt, &mut operator);
    operator.close(rt).end(rt);
    Ok(())
}

const ZERO: [u32; 2] = [0, 0];

const ONE: [u32; 2] = [1, 0];

/// Asks for as many changes as may be pending, and answers whether each is taken.
fn fill<S: Store>(operator: &mut Operator<S>) -> bool
    requires two { S.origin.base.criteria ≡ 2 }
{
    let mut taken = true;
    for _ in 0..65536 {
        taken = operator.set(1, Weight::of_numbers(&ONE)).is_ok() && taken;
    }
    taken
}

fn assert_sets_refused<S: Store, R: Abort>(rt: &R, operator: &mut Operator<S>)
    requires two { S.origin.base.criteria ≡ 2 }
{
    for (arc, weight, fault) in &[
        (0, ZERO, SetFault::Arc),
        (7, ZERO, SetFault::Arc),
        (1, ZERO, SetFault::Zero),
        (6, ZERO, SetFault::Zero),
        (6, ONE, SetFault::Full),
    ] {
        let outcome = operator.set(*arc, Weight::of_numbers(weight));
        assert!(rt; outcome == Err(*fault), "setting arc {arc}");
    }
}

fn assert_shuts_refused<S: Store, R: Abort>(rt: &R, operator: &mut Operator<S>) {
    for (arc, fault) in &[
        (0, ShutFault::Arc),
        (7, ShutFault::Arc),
        (6, ShutFault::Full),
    ] {
        assert!(rt; operator.shut(*arc) == Err(*fault), "shutting arc {arc}");
    }
}

/// Once the changes are given up, one more is taken, and the last epoch is published.
fn assert_last_epoch<S: Store, R: Wait + Abort>(rt: &R, operator: &mut Operator<S>) {
    operator.drop_pending();
    assert!(rt; operator.shut(6) == Ok(()), "room again");
    assert!(rt; operator.publish(rt) == Ok(4294967295), "the last epoch");
    assert!(rt;
        operator.publish(rt) == Err(PublishFault::LastEpoch),
        "and no more"
    );
    assert!(rt;
        changes_of_one_set(operator) == Some(1),
        "one set, and what was given up isn't published"
    );
    assert!(rt; operator.first() == 4294967294, "the first number stays");
}

/// How many changes the published set has, if there is one set.
fn changes_of_one_set<S: Store>(operator: &Operator<S>) -> Option<usize> {
    match operator.sets() {
        [set] => Some(set.changes().len()),
        _ => None,
    }
}
