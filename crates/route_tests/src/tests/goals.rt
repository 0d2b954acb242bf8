//! The rows of searches that are directed to the target.
use super::rows::{A, B, ONES, SIX_ARCS};
use super::walks::{TIE, ZEROS};
use super::{Outside, Row, Wanted, assert_run, bounded, outside_of};
use std::alloc::{AllocError, Global};

/// Queries that `one` answers alike, and such that are refused before they are searched.
const ALIKE: &[Row] = &[
    Row {
        words: WORDS,
        files: SIX_ARCS,
        status: 0,
        out: ANSWER,
        err: "",
    },
    Row {
        words: "goal A.gr --to=4 B.gr C.gr --from 01",
        files: &[("A.gr", A), ("B.gr", B), ("C.gr", ONES)],
        status: 0,
        out: "r 0 1 4 3\np 2 8 2 2 1 3\np 4 2 2 2 2 4\np 9 9 1 1 6\n",
        err: "",
    },
    Row {
        words: "goal --from 4 --to 4 A.gr B.gr",
        files: SIX_ARCS,
        status: 0,
        out: "r 0 4 4 1\np 0 0 0\n",
        err: "",
    },
    // Of two walks of one cost, the backward-least; of two equal arcs, the first; and components that are zero.
    Row {
        words: "goal --from 1 --to 4 T.gr T.gr",
        files: &[("T.gr", TIE)],
        status: 0,
        out: "r 0 1 4 1\np 2 2 2 2 3\n",
        err: "",
    },
    Row {
        words: "goal --from 1 --to 2 P.gr P.gr",
        files: &[("P.gr", "p sp 2 2\na 1 2 5\na 1 2 5\n")],
        status: 0,
        out: "r 0 1 2 1\np 5 5 1 1\n",
        err: "",
    },
    Row {
        words: "goal --from 1 --to 3 X.gr Y.gr",
        files: ZEROS,
        status: 0,
        out: "r 0 1 3 3\np 0 6 2 1 3\np 3 3 2 2 3\np 6 0 2 2 4\n",
        err: "",
    },
    Row {
        words: "goal --from 9 --to 1 --budget 1 A.gr B.gr",
        files: SIX_ARCS,
        status: 8,
        out: "x 0 9 1 node\n",
        err: "",
    },
    Row {
        words: "goal --from 1 --to 0 A.gr B.gr",
        files: SIX_ARCS,
        status: 8,
        out: "x 0 1 0 node\n",
        err: "",
    },
    Row {
        words: "goal --from 1 --to 4 --workers 2 A.gr B.gr",
        files: SIX_ARCS,
        status: 2,
        out: "",
        err: "route: words\n",
    },
    Row {
        words: "goal --from 1 --to 4 A.gr N.gr",
        files: SIX_ARCS,
        status: 3,
        out: "",
        err: "route: folder N.gr\n",
    },
];

fn alike_rows() -> &'static [Row] {
    ALIKE
}

/// Budgets that are enough for goal-relevant pairs, and not for relevant ones.
const BUDGETS: &[Row] = &[
    // Two of three relevant pairs are goal-relevant: by way of node 2 each cost of the target is dominated.
    Row {
        words: "goal --from 1 --to 3 --budget 2 A.gr B.gr",
        files: SIX_ARCS,
        status: 0,
        out: "r 0 1 3 1\np 2 1 1 2\n",
        err: "",
    },
    Row {
        words: "goal --from 1 --to 3 --budget 1 A.gr B.gr",
        files: SIX_ARCS,
        status: 8,
        out: "x 0 1 3 budget\n",
        err: "",
    },
    Row {
        words: "one --from 1 --to 3 --budget 2 A.gr B.gr",
        files: SIX_ARCS,
        status: 8,
        out: "x 0 1 3 budget\n",
        err: "",
    },
    // Where nothing leads to the target, no pair is goal-relevant.
    Row {
        words: "goal --from 4 --to 1 --budget 1 A.gr B.gr",
        files: SIX_ARCS,
        status: 0,
        out: "r 0 4 1 0\n",
        err: "",
    },
    Row {
        words: "goal --from 2 --to 1 --budget 1 A.gr B.gr",
        files: SIX_ARCS,
        status: 0,
        out: "r 0 2 1 0\n",
        err: "",
    },
    Row {
        words: "one --from 2 --to 1 --budget 1 A.gr B.gr",
        files: SIX_ARCS,
        status: 8,
        out: "x 0 2 1 budget\n",
        err: "",
    },
    // The bound of node 2 is the cost of no walk.
    Row {
        words: "goal --from 1 --to 3 X.gr Y.gr",
        files: &[("X.gr", ZERO_FIRST), ("Y.gr", ZERO_SECOND)],
        status: 0,
        out: "r 0 1 3 2\np 1 3 1 4\np 4 1 2 1 3\n",
        err: "",
    },
];

fn budget_rows() -> &'static [Row] {
    BUDGETS
}

/// Two files in which the bound of node 2 toward 3 is the cost of no walk.
const ZERO_FIRST: &str = "p sp 3 4\na 1 2 1\na 2 3 0\na 2 3 3\na 1 3 1\n";

const ZERO_SECOND: &str = "p sp 3 4\na 1 2 1\na 2 3 3\na 2 3 0\na 1 3 3\n";

/// Two walks of one cost from 1 to 3, of which that of two arcs ends by the lesser arc.
const LATE: &str = "p sp 3 3\na 2 3 1\na 1 3 2\na 1 2 1\n";

/// The same from 1 to 4, of three arcs.
const LONGER: &str = "p sp 4 4\na 3 4 1\na 1 4 3\na 1 2 1\na 2 3 1\n";

/// Walks of one cost, whose bounded costs are all equal: the backward-least is found though it comes late.
const EQUALS: &[Row] = &[
    Row {
        words: "goal --from 1 --to 3 L.gr L.gr",
        files: &[("L.gr", LATE)],
        status: 0,
        out: "r 0 1 3 1\np 2 2 2 3 1\n",
        err: "",
    },
    Row {
        words: "goal --from 1 --to 3 L.gr L.gr L.gr",
        files: &[("L.gr", LATE)],
        status: 0,
        out: "r 0 1 3 1\np 2 2 2 2 3 1\n",
        err: "",
    },
    Row {
        words: "goal --from 1 --to 3 L.gr L.gr L.gr L.gr",
        files: &[("L.gr", LATE)],
        status: 0,
        out: "r 0 1 3 1\np 2 2 2 2 2 3 1\n",
        err: "",
    },
    // Each node on the walk counts, though its bounded cost equals a cost of the target.
    Row {
        words: "goal --from 1 --to 4 L.gr L.gr",
        files: &[("L.gr", LONGER)],
        status: 0,
        out: "r 0 1 4 1\np 3 3 3 3 4 1\n",
        err: "",
    },
    Row {
        words: "goal --from 1 --to 4 --budget 4 L.gr L.gr",
        files: &[("L.gr", LONGER)],
        status: 0,
        out: "r 0 1 4 1\np 3 3 3 3 4 1\n",
        err: "",
    },
    Row {
        words: "goal --from 1 --to 4 --budget 3 L.gr L.gr",
        files: &[("L.gr", LONGER)],
        status: 8,
        out: "x 0 1 4 budget\n",
        err: "",
    },
    // A lesser arc twice, and one on the way.
    Row {
        words: "goal --from 1 --to 4 L.gr L.gr",
        files: &[(
            "L.gr",
            "p sp 4 5\na 3 4 1\na 2 4 2\na 1 4 3\na 1 2 1\na 2 3 1\n",
        )],
        status: 0,
        out: "r 0 1 4 1\np 3 3 3 4 5 1\n",
        err: "",
    },
    Row {
        words: "goal --from 1 --to 3 L.gr L.gr",
        files: &[("L.gr", "p sp 4 4\na 4 2 1\na 2 3 1\na 1 2 2\na 1 4 1\n")],
        status: 0,
        out: "r 0 1 3 1\np 3 3 3 4 1 2\n",
        err: "",
    },
];

fn equal_rows() -> &'static [Row] {
    EQUALS
}

/// Six arcs, and pairs of which some pass small budgets.
const PAIRS: &[(&str, &str)] = &[
    ("A.gr", A),
    ("B.gr", B),
    ("P", "p aux sp p2p 4\nq 1 3\nq 2 1\nq 1 4\nq 9 1\n"),
];

/// Batches by directed searches: the replies of `goal` to each pair.
const BATCHED: &[Row] = &[
    Row {
        words: "batch --goal --pairs P A.gr B.gr",
        files: PAIRS,
        status: 0,
        out: "r 0 1 3 1\np 2 1 1 2\nr 0 2 1 0\nr 0 1 4 2\np 2 8 2 1 3\np 4 2 2 2 4\nx 0 9 1 node\n",
        err: "",
    },
    // Goal-relevant pairs count: of 1 to 3 two, of 2 to 1 none, of 1 to 4 five.
    Row {
        words: "batch --pairs P --budget 2 --workers 3 --goal A.gr B.gr",
        files: PAIRS,
        status: 0,
        out: "r 0 1 3 1\np 2 1 1 2\nr 0 2 1 0\nx 0 1 4 budget\nx 0 9 1 node\n",
        err: "",
    },
    Row {
        words: "batch --pairs P --budget 4 --goal A.gr B.gr",
        files: PAIRS,
        status: 0,
        out: "r 0 1 3 1\np 2 1 1 2\nr 0 2 1 0\nx 0 1 4 budget\nx 0 9 1 node\n",
        err: "",
    },
    // Relevant pairs count where the flag isn't given.
    Row {
        words: "batch --pairs P --budget 2 A.gr B.gr",
        files: PAIRS,
        status: 0,
        out: "x 0 1 3 budget\nx 0 2 1 budget\nx 0 1 4 budget\nx 0 9 1 node\n",
        err: "",
    },
    // Walks of one cost: the backward-least.
    Row {
        words: "batch --goal --pairs P L.gr L.gr L.gr",
        files: &[("L.gr", LATE), ("P", "p aux sp p2p 2\nq 1 3\nq 2 3\n")],
        status: 0,
        out: "r 0 1 3 1\np 2 2 2 2 3 1\nr 0 2 3 1\np 1 1 1 1 1\n",
        err: "",
    },
    Row {
        words: "batch --goal --budget 4 --pairs P L.gr L.gr",
        files: &[("L.gr", LONGER), ("P", "p aux sp p2p 1\nq 1 4\n")],
        status: 0,
        out: "r 0 1 4 1\np 3 3 3 3 4 1\n",
        err: "",
    },
    // Components that are zero.
    Row {
        words: "batch --goal --pairs P X.gr Y.gr",
        files: &[
            ("X.gr", ZERO_FIRST),
            ("Y.gr", ZERO_SECOND),
            ("P", "p aux sp p2p 1\nq 1 3\n"),
        ],
        status: 0,
        out: "r 0 1 3 2\np 1 3 1 4\np 4 1 2 1 3\n",
        err: "",
    },
    // A flag has no value, is given once, and is no other command's.
    Row {
        words: "batch --goal=1 --pairs P A.gr B.gr",
        files: PAIRS,
        status: 2,
        out: "",
        err: "route: words\n",
    },
    Row {
        words: "batch --goal --goal --pairs P A.gr B.gr",
        files: PAIRS,
        status: 2,
        out: "",
        err: "route: words\n",
    },
    Row {
        words: "one --goal --from 1 --to 4 A.gr B.gr",
        files: PAIRS,
        status: 2,
        out: "",
        err: "route: words\n",
    },
];

fn batched_rows() -> &'static [Row] {
    BATCHED
}

/// Lines of sessions whose searches are directed.
const ASKED: &[Row] = &[
    Row {
        words: "lanes --operator op --sessions s A.gr B.gr",
        files: &[
            ("A.gr", A),
            ("B.gr", B),
            ("op", ""),
            (
                "s1",
                "g 1 4\ng 4 1\nh 1 4 3 -\nh 1 4 - 2\nh 1 4 - 1\ng 9 1\nh 1 0 - -\ng 1\nh 1 4 3\ng 1 4 1\n",
            ),
        ],
        status: 0,
        out: "operator\nlane 1\nr 0 1 4 2\np 2 8 2 1 3\np 4 2 2 2 4\nr 0 4 1 0\nl 0 1 4 3 - 1\np 2 8 2 1 3\nl 0 1 4 - 2 1\np 4 2 2 2 4\nl 0 1 4 - 1 0\nx 0 9 1 node\nx 0 1 0 node\nx line\nx line\nx line\n",
        err: "",
    },
    // Budgets that are enough for goal-relevant pairs; bounds leave some of them out, and relevant ones count for `q`.
    Row {
        words: "lanes --budget 2 --operator op --sessions s A.gr B.gr",
        files: &[
            ("A.gr", A),
            ("B.gr", B),
            ("op", ""),
            (
                "s1",
                "q 1 3\ng 1 3\ng 2 1\nq 2 1\ng 1 4\nh 1 4 - 1\nh 1 3 1 1\nh 1 3 2 -\n",
            ),
        ],
        status: 0,
        out: "operator\nlane 1\nx 0 1 3 budget\nr 0 1 3 1\np 2 1 1 2\nr 0 2 1 0\nx 0 2 1 budget\nx 0 1 4 budget\nl 0 1 4 - 1 0\nl 0 1 3 1 1 0\nl 0 1 3 2 - 1\np 2 1 1 2\n",
        err: "",
    },
    // A limit is asked of costs with the bounds of their nodes: none is within it, and by costs alone two would be.
    Row {
        words: "lanes --budget 1 --operator op --sessions s A.gr B.gr",
        files: &[
            ("A.gr", A),
            ("B.gr", B),
            ("op", ""),
            ("s1", "h 1 4 - 1\nl 1 4 - 1\nh 1 4 3 -\n"),
        ],
        status: 0,
        out: "operator\nlane 1\nl 0 1 4 - 1 0\nx 0 1 4 budget\nx 0 1 4 budget\n",
        err: "",
    },
    // The bounds are those of the epoch: by those of the files' weights a fourth pair would count.
    Row {
        words: "lanes --budget 3 --operator op --sessions s A.gr B.gr",
        files: &[
            ("A.gr", A),
            ("B.gr", B),
            ("op", "x 3\npublish\n"),
            ("s1", "w 1\ng 1 4\n"),
        ],
        status: 0,
        out: "operator\nok\nk 1\nlane 1\nk 1\nr 1 1 4 1\np 4 2 2 2 4\n",
        err: "",
    },
    // Arc 2 is shut, and opened again with other weights.
    Row {
        words: "lanes --operator op --sessions s A.gr B.gr",
        files: &[
            ("A.gr", A),
            ("B.gr", B),
            ("op", "x 2\npublish\ns 2 3 3\npublish\n"),
            ("s1", "w 2\ng 1 4\nh 1 4 - 7\n"),
        ],
        status: 0,
        out: "operator\nok\nk 1\nok\nk 2\nlane 1\nk 2\nr 2 1 4 3\np 2 8 2 1 3\np 4 6 3 1 5 4\np 5 4 2 2 4\nl 2 1 4 - 7 2\np 4 6 3 1 5 4\np 5 4 2 2 4\n",
        err: "",
    },
    Row {
        words: "lanes --operator op --sessions s A.gr B.gr",
        files: &[
            ("A.gr", A),
            ("B.gr", B),
            ("op", "x 2\npublish\n"),
            ("s1", "w 1\ng 1 4\ng 1 3\n"),
        ],
        status: 0,
        out: "operator\nok\nk 1\nlane 1\nk 1\nr 1 1 4 2\np 2 8 2 1 3\np 4 6 3 1 5 4\nr 1 1 3 1\np 2 5 2 1 5\n",
        err: "",
    },
    // Walks of one cost: the backward-least, in three criteria.
    Row {
        words: "lanes --operator op --sessions s L.gr L.gr L.gr",
        files: &[("L.gr", LATE), ("op", ""), ("s1", "g 1 3\nh 1 3 - 2 -\n")],
        status: 0,
        out: "operator\nlane 1\nr 0 1 3 1\np 2 2 2 2 3 1\nl 0 1 3 - 2 - 1\np 2 2 2 2 3 1\n",
        err: "",
    },
];

fn asked_rows() -> &'static [Row] {
    ASKED
}

/// The tables of these rows.
pub(super) fn tables() -> [&'static [Row]; 5] {
    [
        alike_rows(),
        budget_rows(),
        equal_rows(),
        batched_rows(),
        asked_rows(),
    ]
}

const WORDS: &str = "goal --from 1 --to 4 A.gr B.gr";

const ANSWER: &str = "r 0 1 4 2\np 2 8 2 1 3\np 4 2 2 2 4\n";

/// One criterion of 32 nodes: an arc of the greatest weight from 1 to 2, and a way from 1 to 32 on which each step costs twice as
/// much as the one before, by the one criterion or by the other; from its end an arc of the greatest weight leads to 2.
fn ladder(alloc: Global, is_first: bool) -> Result<String, AllocError> {
    let mut text = String::from_str(alloc, "p sp 32 62\na 1 2 4294967295\n")?;
    let mut tail = 1;
    let mut step = 1u32;
    for head in 3..33 {
        put_step(&mut text, tail, head, step, is_first)?;
        tail = head;
        step = step.wrapping_mul(2);
    }
    text.push_str("a 32 2 4294967295\n")?;
    Ok(text)
}

/// Two arcs side by side, of which one alone costs something.
fn put_step(
    text: &mut String,
    tail: u32,
    head: u32,
    step: u32,
    is_first: bool,
) -> Result<(), AllocError> {
    let (upper, lower) = if is_first { (step, 0) } else { (0, step) };
    write!(text, "a {tail} {head} {upper}\na {tail} {head} {lower}\n")?;
    Ok(())
}

/// The 32 nodes in a folder.
fn ladder_outside(alloc: Global) -> Result<Outside, AllocError> {
    let (first, second) = (ladder(alloc, true)?, ladder(alloc, false)?);
    let files = [("X.gr", first.as_str()), ("Y.gr", second.as_str())];
    outside_of(alloc, &files, usize::MAX)
}

/// The first arc alone. Of more than 2^30 relevant pairs two are goal-relevant.
const LADDER: Wanted = Wanted {
    words: "goal --from 1 --to 2 --budget 2 X.gr Y.gr",
    status: 0,
    out: b"r 0 1 2 1\np 4294967295 4294967295 1 1\n",
    err: b"",
};

#[test]
fn ways_that_only_lead_to_dominated_costs_are_not_searched(rt: HostRuntime) {
    assert_run(&rt, rt.alloc(), &LADDER, 0, ladder_outside(rt.alloc()));
}

/// The six arcs, with a sink that takes so many bytes.
fn to_full(alloc: Global, bound: usize) -> Result<Outside, AllocError> {
    let mut outside = outside_of(alloc, SIX_ARCS, usize::MAX)?;
    outside.out = bounded(alloc, bound);
    Ok(outside)
}

#[test]
fn a_full_out_has_the_front_of_an_answer(rt: HostRuntime) {
    for bound in 0..ANSWER.len() {
        let wanted = Wanted {
            words: WORDS,
            status: 4,
            out: &ANSWER.as_bytes()[..bound],
            err: b"route: out\n",
        };
        assert_run(&rt, rt.alloc(), &wanted, bound, to_full(rt.alloc(), bound));
    }
}
