ghost use Rattle.std.specs.Prelude.{◌≡◌, length};

use super::stores::weights;
use arc_graph::Weights;
use cost_vector::{ArcNo, Weight};
use epoch_store::{Chronicle, EpochReader, Operator, Store, make};
use std::alloc::Global;
use std::marker::Brand;
use std::process::Abort;
use std::sync::Wait;
use std::test::Fail;

/// With whole copies this would move more than 1.3 TB.
#[test]
fn a_read_copies_changed_pages_alone(rt: HostRuntime) -> Result<(), Fail> {
    let alloc = rt.alloc();
    let weights = weights(alloc, 4, 4194304, &|_file, arc| arc % 89 + 1)?;
    publish_often::<Brand, _>(&rt, alloc, Chronicle::default(), weights)
}

fn publish_often<S: Store, R: Wait + Abort>(
    rt: &R,
    alloc: Global,
    chronicle: Chronicle,
    weights: Weights,
) -> Result<(), Fail>
    requires chronicle { chronicle ≡ S.origin.chronicle }
    requires first { S.origin.first ≡ 0 }
    requires weights { weights ≡ S.origin.base }
    requires four { S.origin.base.criteria ≡ 4 }
{
    let (mut operator, mut readers) = make::<S, R>(rt, alloc, chronicle, 0, weights, 1)?;
    read_after_each(rt, &mut operator, &mut readers[0]);
    operator.close(rt).end(rt);
    Ok(())
}

fn read_after_each<S: Store, R: Wait + Abort>(
    rt: &R,
    operator: &mut Operator<S>,
    reader: &mut EpochReader<S>,
)
    requires four { S.origin.base.criteria ≡ 4 }
{
    for k in 0..20000u32 {
        let arc = k * 209 + 1;
        let weight = Weight::of_numbers(&[k + 1, 1, 1, 1]);
        assert!(rt; publish_arc(rt, operator, arc, weight), "arc {arc} is set");
        assert!(rt;
            shows_arc(reader, k + 1, arc, &weight),
            "the state of arc {arc}"
        );
    }
}

/// Gives an arc these weights with the next epoch; and whether it is published.
fn publish_arc<S: Store, R: Wait>(
    rt: &R,
    operator: &mut Operator<S>,
    arc: u32,
    weight: Weight,
) -> bool
    requires criteria { S.origin.base.criteria ≡ length weight }
{
    operator.set(arc, weight).is_ok() && operator.publish(rt).is_ok()
}

/// Whether a reader looks, and then shows an epoch of this number, in which the arc has these weights.
fn shows_arc<S: Store>(
    reader: &mut EpochReader<S>,
    number: u32,
    arc: u32,
    weight: &Weight,
) -> bool {
    let seen = reader.read().is_ok();
    let snapshot = reader.snapshot();
    seen && snapshot.number == number
        && 1 <= arc
        && arc <= snapshot.weights.arcs()
        && snapshot.weights.get(ArcNo(arc)) == Some(*weight)
}
