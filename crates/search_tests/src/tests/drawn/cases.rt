/// A graph, a query and its answer, which a search of all simple paths found. Each arc has its tail, its head and four
/// weights, of which there are as many as the limit has places. A budget of the relevant pairs just suffices.
pub(super) struct Case {
    pub name: &'static str,
    pub nodes: u32,
    pub arcs: &'static [[u32; 6]],
    pub from: u32,
    pub to: u32,
    pub limit: &'static [Option<u64>],
    pub costs: &'static [&'static [u64]],
    pub relevant: u32,
}

/// Two ways from node 1 to 4, an arc between them, and an arc past both.
const DIAMOND: [[u32; 6]; 6] = [
    [1, 2, 1, 4, 0, 0],
    [1, 3, 2, 1, 0, 0],
    [2, 4, 1, 4, 0, 0],
    [3, 4, 2, 1, 0, 0],
    [2, 3, 1, 1, 0, 0],
    [1, 4, 9, 9, 0, 0],
];

/// Two ways from node 1 to 4 and an arc past both, by three criteria.
const THREE_WEIGHTS: [[u32; 6]; 5] = [
    [1, 2, 1, 2, 3, 0],
    [2, 4, 3, 2, 1, 0],
    [1, 3, 3, 1, 2, 0],
    [3, 4, 1, 1, 4, 0],
    [1, 4, 2, 5, 5, 0],
];

/// A chain in which each step saves one criterion or the other.
const FOUR_CHOICES: [[u32; 6]; 8] = [
    [1, 2, 1, 0, 0, 0],
    [1, 2, 0, 1, 0, 0],
    [2, 3, 2, 0, 0, 0],
    [2, 3, 0, 2, 0, 0],
    [3, 4, 4, 0, 0, 0],
    [3, 4, 0, 4, 0, 0],
    [4, 5, 8, 0, 0, 0],
    [4, 5, 0, 8, 0, 0],
];

/// A diamond, with several limits.
const DIAMONDS: &[Case] = &[
    Case {
        name: "a diamond with a chord and a direct arc",
        nodes: 4,
        arcs: &DIAMOND,
        from: 1,
        to: 4,
        limit: &[None, None],
        costs: &[&[2, 8], &[4, 2]],
        relevant: 5,
    },
    Case {
        name: "the second component limited",
        nodes: 4,
        arcs: &DIAMOND,
        from: 1,
        to: 4,
        limit: &[None, Some(7)],
        costs: &[&[4, 2]],
        relevant: 4,
    },
    Case {
        name: "a limit that just admits one cost",
        nodes: 4,
        arcs: &DIAMOND,
        from: 1,
        to: 4,
        limit: &[Some(4), Some(2)],
        costs: &[&[4, 2]],
        relevant: 3,
    },
    Case {
        name: "a limit below each cost",
        nodes: 4,
        arcs: &DIAMOND,
        from: 1,
        to: 4,
        limit: &[Some(1), None],
        costs: &[],
        relevant: 2,
    },
];

fn all_diamonds() -> &'static [Case] {
    DIAMONDS
}

/// Ends that are out of reach, equal, or on loops.
const ENDS: &[Case] = &[
    Case {
        name: "a target out of reach",
        nodes: 4,
        arcs: &DIAMOND,
        from: 4,
        to: 1,
        limit: &[None, None],
        costs: &[],
        relevant: 1,
    },
    Case {
        name: "a start that is the target",
        nodes: 4,
        arcs: &DIAMOND,
        from: 4,
        to: 4,
        limit: &[None, None],
        costs: &[&[0, 0]],
        relevant: 1,
    },
    Case {
        name: "a cycle and a loop at the start",
        nodes: 2,
        arcs: &[[1, 2, 1, 0, 0, 0], [2, 1, 0, 1, 0, 0], [1, 1, 3, 0, 0, 0]],
        from: 1,
        to: 1,
        limit: &[None, None],
        costs: &[&[0, 0]],
        relevant: 1,
    },
    Case {
        name: "loops at both ends",
        nodes: 2,
        arcs: &[[1, 1, 0, 1, 0, 0], [1, 2, 2, 2, 0, 0], [2, 2, 1, 0, 0, 0]],
        from: 1,
        to: 2,
        limit: &[None, None],
        costs: &[&[2, 2]],
        relevant: 2,
    },
];

fn all_ends() -> &'static [Case] {
    ENDS
}

/// Equal vectors and costs.
const EQUALS: &[Case] = &[
    Case {
        name: "parallel arcs of equal vectors",
        nodes: 2,
        arcs: &[[1, 2, 3, 5, 0, 0], [1, 2, 3, 5, 0, 0], [1, 2, 3, 5, 0, 0]],
        from: 1,
        to: 2,
        limit: &[None, None],
        costs: &[&[3, 5]],
        relevant: 2,
    },
    Case {
        name: "parallel arcs, one of them dominated",
        nodes: 2,
        arcs: &[
            [1, 2, 3, 5, 0, 0],
            [1, 2, 3, 6, 0, 0],
            [1, 2, 5, 3, 0, 0],
            [1, 2, 4, 4, 0, 0],
        ],
        from: 1,
        to: 2,
        limit: &[None, None],
        costs: &[&[3, 5], &[4, 4], &[5, 3]],
        relevant: 4,
    },
    Case {
        name: "two walks of one cost",
        nodes: 4,
        arcs: &[
            [1, 2, 1, 2, 0, 0],
            [2, 4, 2, 1, 0, 0],
            [1, 3, 2, 1, 0, 0],
            [3, 4, 1, 2, 0, 0],
        ],
        from: 1,
        to: 4,
        limit: &[None, None],
        costs: &[&[3, 3]],
        relevant: 4,
    },
    Case {
        name: "one cost at two nodes",
        nodes: 3,
        arcs: &[[1, 2, 1, 1, 0, 0], [1, 3, 1, 1, 0, 0], [2, 3, 0, 1, 0, 0]],
        from: 1,
        to: 2,
        limit: &[None, None],
        costs: &[&[1, 1]],
        relevant: 3,
    },
    Case {
        name: "a label that a cost of the target dominates",
        nodes: 3,
        arcs: &[[1, 2, 1, 1, 0, 0], [1, 3, 2, 1, 0, 0], [3, 2, 0, 1, 0, 0]],
        from: 1,
        to: 2,
        limit: &[None, None],
        costs: &[&[1, 1]],
        relevant: 2,
    },
];

fn all_equals() -> &'static [Case] {
    EQUALS
}

/// Several best costs on the way, a cycle, and three criteria.
const CYCLES: &[Case] = &[
    Case {
        name: "two best costs on the way",
        nodes: 4,
        arcs: &[
            [1, 2, 0, 3, 0, 0],
            [2, 3, 0, 2, 0, 0],
            [3, 4, 1, 0, 0, 0],
            [1, 3, 2, 0, 0, 0],
            [2, 4, 4, 0, 0, 0],
        ],
        from: 1,
        to: 4,
        limit: &[None, None],
        costs: &[&[1, 5], &[3, 0]],
        relevant: 6,
    },
    Case {
        name: "a cycle that costs something by one criterion alone",
        nodes: 3,
        arcs: &[
            [1, 2, 1, 0, 0, 0],
            [2, 1, 0, 1, 0, 0],
            [2, 3, 0, 2, 0, 0],
            [1, 3, 1, 3, 0, 0],
        ],
        from: 1,
        to: 3,
        limit: &[None, None],
        costs: &[&[1, 2]],
        relevant: 3,
    },
    Case {
        name: "three criteria",
        nodes: 4,
        arcs: &THREE_WEIGHTS,
        from: 1,
        to: 4,
        limit: &[None, None, None],
        costs: &[&[2, 5, 5], &[4, 2, 6], &[4, 4, 4]],
        relevant: 6,
    },
    Case {
        name: "three criteria, the third limited",
        nodes: 4,
        arcs: &THREE_WEIGHTS,
        from: 1,
        to: 4,
        limit: &[None, None, Some(5)],
        costs: &[&[2, 5, 5], &[4, 4, 4]],
        relevant: 5,
    },
];

fn all_cycles() -> &'static [Case] {
    CYCLES
}

/// Four criteria, no arcs, and many best costs.
const SIZES: &[Case] = &[
    Case {
        name: "four criteria",
        nodes: 3,
        arcs: &[
            [1, 2, 1, 0, 0, 0],
            [2, 3, 0, 1, 0, 0],
            [1, 3, 0, 0, 1, 0],
            [1, 3, 0, 0, 0, 1],
            [1, 3, 1, 1, 1, 0],
        ],
        from: 1,
        to: 3,
        limit: &[None, None, None, None],
        costs: &[&[0, 0, 0, 1], &[0, 0, 1, 0], &[1, 1, 0, 0]],
        relevant: 5,
    },
    Case {
        name: "three nodes without arcs",
        nodes: 3,
        arcs: &[],
        from: 1,
        to: 3,
        limit: &[None, None],
        costs: &[],
        relevant: 1,
    },
    Case {
        name: "one node without arcs",
        nodes: 1,
        arcs: &[],
        from: 1,
        to: 1,
        limit: &[None, None],
        costs: &[&[0, 0]],
        relevant: 1,
    },
    Case {
        name: "sixteen best costs",
        nodes: 5,
        arcs: &FOUR_CHOICES,
        from: 1,
        to: 5,
        limit: &[None, None],
        costs: &[
            &[0, 15],
            &[1, 14],
            &[2, 13],
            &[3, 12],
            &[4, 11],
            &[5, 10],
            &[6, 9],
            &[7, 8],
            &[8, 7],
            &[9, 6],
            &[10, 5],
            &[11, 4],
            &[12, 3],
            &[13, 2],
            &[14, 1],
            &[15, 0],
        ],
        relevant: 31,
    },
    Case {
        name: "six of sixteen best costs within the limit",
        nodes: 5,
        arcs: &FOUR_CHOICES,
        from: 1,
        to: 5,
        limit: &[Some(9), Some(11)],
        costs: &[&[4, 11], &[5, 10], &[6, 9], &[7, 8], &[8, 7], &[9, 6]],
        relevant: 21,
    },
];

fn all_sizes() -> &'static [Case] {
    SIZES
}

/// Graphs that were drawn at random.
const DRAWN_ONE: &[Case] = &[
    Case {
        name: "at random: 5 nodes, 14 arcs, two criteria",
        nodes: 5,
        arcs: &[
            [4, 1, 2, 1, 0, 0],
            [5, 2, 2, 0, 0, 0],
            [1, 2, 3, 3, 0, 0],
            [1, 5, 0, 3, 0, 0],
            [5, 1, 0, 1, 0, 0],
            [2, 1, 3, 0, 0, 0],
            [4, 2, 1, 2, 0, 0],
            [5, 2, 0, 2, 0, 0],
            [3, 1, 0, 1, 0, 0],
            [5, 4, 1, 3, 0, 0],
            [5, 4, 2, 3, 0, 0],
            [2, 2, 2, 2, 0, 0],
            [5, 3, 1, 0, 0, 0],
            [4, 3, 3, 2, 0, 0],
        ],
        from: 1,
        to: 5,
        limit: &[None, None],
        costs: &[&[0, 3]],
        relevant: 2,
    },
    Case {
        name: "at random: 6 nodes, 18 arcs, two criteria",
        nodes: 6,
        arcs: &[
            [1, 5, 9, 1, 0, 0],
            [3, 2, 6, 2, 0, 0],
            [1, 6, 7, 6, 0, 0],
            [5, 3, 1, 8, 0, 0],
            [5, 4, 5, 5, 0, 0],
            [1, 1, 9, 7, 0, 0],
            [6, 6, 4, 7, 0, 0],
            [6, 6, 1, 0, 0, 0],
            [6, 4, 4, 9, 0, 0],
            [6, 3, 4, 6, 0, 0],
            [3, 2, 0, 7, 0, 0],
            [4, 1, 9, 1, 0, 0],
            [2, 6, 3, 4, 0, 0],
            [4, 4, 3, 6, 0, 0],
            [4, 4, 1, 2, 0, 0],
            [2, 4, 8, 4, 0, 0],
            [6, 4, 8, 4, 0, 0],
            [2, 2, 5, 6, 0, 0],
        ],
        from: 1,
        to: 6,
        limit: &[None, None],
        costs: &[&[7, 6]],
        relevant: 3,
    },
];

fn all_drawn_one() -> &'static [Case] {
    DRAWN_ONE
}

/// Further ones.
const DRAWN_TWO: &[Case] = &[
    Case {
        name: "at random: 6 nodes, 16 arcs, three criteria, the first limited",
        nodes: 6,
        arcs: &[
            [2, 6, 0, 1, 1, 0],
            [5, 2, 1, 0, 3, 0],
            [2, 4, 2, 2, 0, 0],
            [5, 3, 4, 2, 4, 0],
            [6, 6, 1, 4, 4, 0],
            [4, 4, 0, 3, 4, 0],
            [4, 6, 3, 3, 0, 0],
            [1, 2, 3, 0, 1, 0],
            [3, 5, 3, 1, 0, 0],
            [1, 3, 4, 1, 4, 0],
            [2, 5, 4, 0, 0, 0],
            [3, 5, 3, 1, 2, 0],
            [1, 4, 2, 3, 0, 0],
            [3, 1, 3, 3, 3, 0],
            [6, 3, 1, 0, 2, 0],
            [1, 2, 3, 1, 4, 0],
        ],
        from: 1,
        to: 6,
        limit: &[Some(8), None, None],
        costs: &[&[3, 1, 2], &[5, 6, 0], &[8, 5, 1]],
        relevant: 8,
    },
    Case {
        name: "at random: 5 nodes, 14 arcs, four criteria, the target out of reach",
        nodes: 5,
        arcs: &[
            [2, 3, 2, 0, 2, 2],
            [2, 4, 1, 2, 1, 1],
            [1, 1, 1, 1, 3, 2],
            [5, 3, 2, 3, 2, 1],
            [2, 1, 3, 2, 2, 0],
            [2, 4, 1, 3, 1, 2],
            [1, 4, 0, 3, 2, 0],
            [3, 1, 1, 3, 1, 3],
            [2, 2, 3, 3, 3, 0],
            [2, 5, 1, 0, 1, 3],
            [1, 1, 3, 2, 1, 1],
            [2, 1, 0, 1, 3, 1],
            [5, 3, 2, 1, 2, 1],
            [3, 4, 2, 3, 1, 0],
        ],
        from: 1,
        to: 5,
        limit: &[None, None, None, None],
        costs: &[],
        relevant: 2,
    },
];

fn all_drawn_two() -> &'static [Case] {
    DRAWN_TWO
}

/// Further ones.
const DRAWN_THREE: &[Case] = &[
    Case {
        name: "at random: 7 nodes, 24 arcs, two criteria",
        nodes: 7,
        arcs: &[
            [7, 5, 5, 4, 0, 0],
            [5, 2, 3, 6, 0, 0],
            [5, 5, 4, 1, 0, 0],
            [4, 7, 0, 6, 0, 0],
            [1, 7, 1, 4, 0, 0],
            [2, 2, 6, 1, 0, 0],
            [6, 1, 3, 4, 0, 0],
            [3, 6, 4, 0, 0, 0],
            [5, 4, 4, 4, 0, 0],
            [1, 5, 6, 6, 0, 0],
            [2, 3, 0, 1, 0, 0],
            [1, 5, 0, 6, 0, 0],
            [1, 7, 3, 4, 0, 0],
            [3, 5, 0, 3, 0, 0],
            [5, 2, 4, 4, 0, 0],
            [4, 5, 5, 2, 0, 0],
            [4, 5, 4, 6, 0, 0],
            [5, 3, 1, 5, 0, 0],
            [7, 4, 4, 1, 0, 0],
            [1, 4, 1, 3, 0, 0],
            [1, 6, 3, 2, 0, 0],
            [1, 2, 1, 3, 0, 0],
            [7, 1, 5, 2, 0, 0],
            [6, 6, 6, 1, 0, 0],
        ],
        from: 1,
        to: 7,
        limit: &[None, None],
        costs: &[&[1, 4]],
        relevant: 7,
    },
    Case {
        name: "at random: 6 nodes, 20 arcs, three criteria, two limited",
        nodes: 6,
        arcs: &[
            [2, 4, 5, 2, 4, 0],
            [4, 2, 3, 1, 6, 0],
            [5, 4, 3, 2, 6, 0],
            [3, 3, 5, 6, 3, 0],
            [3, 5, 1, 5, 0, 0],
            [4, 3, 7, 7, 0, 0],
            [5, 1, 8, 9, 4, 0],
            [1, 3, 1, 3, 1, 0],
            [3, 2, 4, 0, 2, 0],
            [2, 5, 6, 4, 6, 0],
            [6, 3, 8, 9, 7, 0],
            [6, 2, 1, 4, 0, 0],
            [1, 6, 6, 1, 4, 0],
            [5, 2, 1, 4, 1, 0],
            [4, 1, 1, 4, 1, 0],
            [3, 5, 5, 8, 6, 0],
            [6, 2, 2, 0, 8, 0],
            [1, 2, 1, 2, 4, 0],
            [5, 2, 3, 4, 4, 0],
            [6, 2, 4, 7, 8, 0],
        ],
        from: 1,
        to: 6,
        limit: &[Some(18), Some(18), None],
        costs: &[&[6, 1, 4]],
        relevant: 8,
    },
];

fn all_drawn_three() -> &'static [Case] {
    DRAWN_THREE
}

/// Further ones.
const DRAWN_FOUR: &[Case] = &[
    Case {
        name: "at random: 4 nodes, 8 arcs, four criteria, the last limited",
        nodes: 4,
        arcs: &[
            [2, 2, 1, 1, 1, 1],
            [2, 3, 1, 1, 1, 1],
            [3, 4, 1, 0, 0, 1],
            [1, 2, 0, 0, 2, 0],
            [2, 3, 0, 1, 2, 1],
            [2, 3, 3, 0, 0, 0],
            [1, 3, 3, 0, 0, 3],
            [2, 4, 0, 1, 1, 0],
        ],
        from: 1,
        to: 4,
        limit: &[None, None, None, Some(3)],
        costs: &[&[0, 1, 3, 0], &[4, 0, 2, 1]],
        relevant: 6,
    },
    Case {
        name: "at random: 4 nodes, 8 arcs, four criteria",
        nodes: 4,
        arcs: &[
            [3, 2, 1, 2, 1, 2],
            [1, 4, 1, 0, 1, 1],
            [4, 4, 1, 1, 2, 0],
            [3, 2, 2, 0, 1, 0],
            [1, 4, 1, 1, 0, 3],
            [2, 2, 2, 0, 0, 0],
            [1, 1, 0, 1, 3, 3],
            [1, 3, 1, 0, 1, 1],
        ],
        from: 1,
        to: 4,
        limit: &[None, None, None, None],
        costs: &[&[1, 0, 1, 1], &[1, 1, 0, 3]],
        relevant: 4,
    },
    Case {
        name: "at random: 4 nodes, 8 arcs, three criteria",
        nodes: 4,
        arcs: &[
            [1, 4, 0, 1, 2, 0],
            [3, 3, 3, 3, 0, 0],
            [4, 2, 0, 1, 1, 0],
            [2, 4, 2, 0, 2, 0],
            [4, 3, 0, 3, 1, 0],
            [2, 3, 0, 3, 0, 0],
            [1, 4, 1, 0, 0, 0],
            [1, 2, 1, 0, 0, 0],
        ],
        from: 1,
        to: 4,
        limit: &[None, None, None],
        costs: &[&[0, 1, 2], &[1, 0, 0]],
        relevant: 4,
    },
];

fn all_drawn_four() -> &'static [Case] {
    DRAWN_FOUR
}

/// The tables of these cases. The proof of a function takes in each table that it names, at a cost that grows with the
/// square of its length: so a table is short, and one function alone names it.
pub(super) fn tables() -> [&'static [Case]; 9] {
    [
        all_diamonds(),
        all_ends(),
        all_equals(),
        all_cycles(),
        all_sizes(),
        all_drawn_one(),
        all_drawn_two(),
        all_drawn_three(),
        all_drawn_four(),
    ]
}
