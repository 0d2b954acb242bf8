//! Histories that look drawn, and are the same in each run.
use std::alloc::{AllocError, Global};

/// The weights of an arc by two criteria; `None` is shut.
pub(super) type State = Option<[u32; 2]>;

/// An arc, by its ends and its first weights, which aren't both 0.
#[derive(Clone, Copy)]
pub(super) struct DrawnArc {
    pub tail: u32,
    pub head: u32,
    pub state: State,
}

/// A line of the operator.
#[derive(Clone, Copy)]
pub(super) enum Order {
    Change { arc: u32, state: State },
    Drop,
    Publish,
}

/// A query, by the word of its line. One of costs or of walks has no bounds.
#[derive(Clone, Copy)]
pub(super) struct AskedQuery {
    pub word: &'static str,
    pub from: u32,
    pub to: u32,
    pub limit: [Option<u64>; 2],
}

/// A line of a session.
#[derive(Clone, Copy)]
pub(super) enum Asked {
    Query(AskedQuery),
    Wait { epoch: u32 },
    Epoch,
}

/// A network, and what an operator and two sessions send.
#[derive(Drop)]
pub(super) struct History {
    pub name: u64,
    /// The number of the first epoch.
    pub first: u32,
    pub nodes: u32,
    pub arcs: Vec<DrawnArc>,
    pub budget: u32,
    pub workers: u32,
    pub orders: Vec<Order>,
    pub asked: Vec<Vec<Asked>>,
}

/// Draws numbers.
#[derive(Drop)]
struct Draws {
    state: u64,
}

impl Draws {
    /// A number of at least `least`, and below `bound` more than it.
    fn draw(&mut self, least: u32, bound: u32) -> u32 {
        self.state = self
            .state
            .wrapping_mul(6_364_136_223_846_793_005)
            .wrapping_add(1_442_695_040_888_963_407);
        let drawn = (self.state >> 33) as u32;
        least.saturating_add(drawn.checked_rem(bound).unwrap_or(0))
    }

    fn arc(&mut self, nodes: u32) -> DrawnArc {
        DrawnArc {
            tail: self.draw(1, nodes),
            head: self.draw(1, nodes),
            state: Some([self.draw(1, 5), self.draw(0, 5)]),
        }
    }

    /// A line of the operator, also one of an arc that isn't there, or of weights that are all 0.
    fn order(&mut self, arcs: u32) -> Order {
        let arc = self.draw(0, arcs.saturating_add(2));
        match self.draw(0, 10) {
            0 => Order::Drop,
            1..=3 => Order::Publish,
            4..=5 => Order::Change { arc, state: None },
            _ => Order::Change {
                arc,
                state: Some([self.draw(0, 4), self.draw(0, 4)]),
            },
        }
    }

    fn place(&mut self) -> Option<u64> {
        match self.draw(0, 12) {
            0..=3 => None,
            most => Some(u64::from(most)),
        }
    }

    /// A line of a session, also one of a node or an epoch that isn't there.
    fn asked(&mut self, nodes: u32, first: u32) -> Asked {
        let (from, to) = (self.draw(1, nodes), self.draw(0, nodes.saturating_add(2)));
        let (word, limit) = match self.draw(0, 11) {
            0 => return Asked::Epoch,
            1..=2 => {
                return Asked::Wait {
                    epoch: self.draw(first, 8),
                };
            }
            3..=4 => ("q", [None; 2]),
            5 => ("c", [None; 2]),
            6..=7 => ("g", [None; 2]),
            8 => ("l", [self.place(), self.place()]),
            _ => ("h", [self.place(), self.place()]),
        };
        Asked::Query(AskedQuery {
            word,
            from,
            to,
            limit,
        })
    }
}

pub(super) fn draw(alloc: Global, name: u64) -> Result<History, AllocError> {
    let mut draws = Draws {
        state: name.wrapping_mul(0x9E37_79B9_7F4A_7C15),
    };
    let (first, nodes) = (draws.draw(0, 3), draws.draw(2, 4));
    let count = draws.draw(1, 9);
    let mut arcs = Vec::new(alloc);
    for _ in 0..count {
        arcs.push(draws.arc(nodes))?;
    }
    let mut orders = Vec::new(alloc);
    for _ in 0..draws.draw(0, 40) {
        orders.push(draws.order(count))?;
    }
    let mut asked = Vec::new(alloc);
    for _ in 0..2 {
        asked.push(draw_session(alloc, &mut draws, nodes, first)?)?;
    }
    Ok(History {
        name,
        first,
        nodes,
        arcs,
        budget: draws.draw(3, 20),
        workers: draws.draw(1, 3),
        orders,
        asked,
    })
}

/// The lines of a session.
fn draw_session(
    alloc: Global,
    draws: &mut Draws,
    nodes: u32,
    first: u32,
) -> Result<Vec<Asked>, AllocError> {
    let mut asked = Vec::new(alloc);
    for _ in 0..draws.draw(0, 12) {
        asked.push(draws.asked(nodes, first))?;
    }
    Ok(asked)
}
