ghost use Rattle.std.specs.Prelude.{◌≤◌, length};

use super::assert_text;
use cost_vector::{ArcNo, Cost, Label, Limit, NodeNo, Spot, Weight};
use std::alloc::{AllocError, Global};

/// Two costs, and whether the first dominates the second.
const DOMINANCE: &[([u64; 2], [u64; 2], bool)] = &[
    ([4, 2], [4, 6], true),
    ([4, 6], [4, 2], false),
    ([4, 2], [4, 2], false),
    ([2, 8], [4, 2], false),
    ([4, 2], [2, 8], false),
];

#[test]
fn dominance_needs_one_smaller_component_and_no_greater(rt: HostRuntime) {
    for (a, b, dominates) in DOMINANCE {
        let got = Cost::of_numbers(a).dominates(&Cost::of_numbers(b));
        assert!(rt; got == *dominates, "{a:?} and {b:?}");
    }
}

#[test]
fn adds_and_takes_back_a_weight(rt: HostRuntime) {
    let weight = Weight::of_numbers(&[4, 0, 7]);
    let cost = Cost::zero(3).plus(&weight);
    assert!(rt; cost == Cost::of_numbers(&[4, 0, 7]), "added");
    assert!(rt; cost.minus(&weight) == Some(Cost::zero(3)), "taken back");
    assert!(rt;
        cost.minus(&Weight::of_numbers(&[0, 1, 0])).is_none(),
        "too much taken"
    );
}

#[test]
fn only_zeros_are_a_zero_weight(rt: HostRuntime) {
    assert!(rt;
        !Weight::of_numbers(&[4, 0, 7]).is_zero(),
        "one zero of three"
    );
    assert!(rt; Weight::of_numbers(&[0, 0]).is_zero(), "zeros alone");
}

#[test]
fn a_limit_holds_up_to_its_places(rt: HostRuntime) {
    let limit = Limit::of_places(&[None, Some(6)]);
    assert!(rt;
        limit.holds(&Cost::of_numbers(&[u64::MAX, 6])),
        "at the limit"
    );
    assert!(rt; !limit.holds(&Cost::of_numbers(&[0, 7])), "past the limit");
    assert!(rt;
        Limit::none(2).holds(&Cost::of_numbers(&[0, u64::MAX])),
        "no limit"
    );
    assert!(rt; Limit::none(2) < limit, "no limit is the least");
}

fn label(node: u32, cost: &[u64; 2], arc: u32) -> Label {
    Label {
        node: NodeNo(node),
        cost: Cost::of_numbers(cost),
        arc: ArcNo(arc),
    }
}

#[test]
fn labels_are_sorted_by_node_then_cost_then_arc(rt: HostRuntime) {
    assert!(rt;
        label(1, &[4, 2], 3).cmp(&label(2, &[2, 8], 1)).is_lt(),
        "by node"
    );
    assert!(rt;
        label(1, &[2, 8], 7).cmp(&label(1, &[4, 2], 2)).is_lt(),
        "by cost"
    );
    assert!(rt;
        label(1, &[4, 2], 2).cmp(&label(1, &[4, 2], 3)).is_lt(),
        "by arc"
    );
}

fn spot(numbers: &[u64]) -> Spot
    requires at_least_two { 2 ≤ length numbers.now }
    requires at_most_four { length numbers.now ≤ 4 }
{
    Spot {
        node: NodeNo(1),
        cost: Cost::of_numbers(numbers),
    }
}

#[test]
fn a_proper_prefix_is_the_lesser(rt: HostRuntime) {
    let (short, long) = (spot(&[1, 1]), spot(&[1, 1, 0]));
    assert!(rt; short < long, "the shorter is the lesser");
    assert!(rt; short != long, "they differ");
}

/// A cost, a weight and a limit as they are shown.
fn shown(alloc: Global) -> Result<String, AllocError> {
    let (cost, weight) = (Cost::of_numbers(&[2, 8, 0]), Weight::of_numbers(&[0, 7]));
    let limit = Limit::of_places(&[None, Some(6)]);
    format!(in alloc; "{cost:?} {weight:?} {limit:?}")
}

#[test]
fn vectors_are_shown_as_their_lists(rt: HostRuntime) {
    assert_text(&rt, shown(rt.alloc()), "[2, 8, 0] [0, 7] [None, Some(6)]");
}

#[test]
fn numbers_are_shown_as_digits(rt: HostRuntime) {
    let numbers = format!(in rt.alloc(); "{} {}", NodeNo(3), ArcNo(12));
    assert_text(&rt, numbers, "3 12");
}
