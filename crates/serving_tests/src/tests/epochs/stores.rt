ghost use Rattle.std.specs.Prelude.{◌≡◌, ◌≤◌, IfOk};

use arc_graph::{ArcLine, Change, Joiner, Weights};
use cost_vector::{ArcNo, Weight};
use epoch_store::{EpochReader, Operator, Store};
use std::alloc::{AllocError, Global};
use std::test::Fail;

/// Weights of so many arcs by so many criteria, each weight by the number of its file and that of its arc, from 0.
pub(super) fn weights<F: Fn(u32, u32) -> u32>(
    alloc: Global,
    criteria: u32,
    arcs: u32,
    weight: &F,
) -> Result<Weights, Fail>
    requires two { 2 ≤ criteria }
    requires four { criteria ≤ 4 }
    requires arcs { arcs ≤ 4194304 }
    requires weight { F.IsAlwaysCallable weight.now }
    ensures { IfOk result (λ w. w.criteria ≡ criteria) }
{
    let mut joiner = Joiner::new(alloc);
    for file in 0..criteria {
        joiner.begin_file(2, arcs)?;
        for arc in 0..arcs {
            joiner.push(ArcLine {
                tail: 1,
                head: 2,
                weight: weight(file, arc),
            })?;
        }
    }
    let (_graph, weights) = joiner.finish()?;
    Ok(weights)
}

/// The states of all arcs, kept by a list alone.
#[derive(Drop)]
pub(super) struct Replay {
    pub states: Vec<Option<Weight>>,
}

impl Replay {
    pub fn of(alloc: Global, weights: &Weights) -> Result<Replay, AllocError> {
        let mut states = Vec::new(alloc);
        for arc in 0..weights.arcs() {
            states.push(weights.get(ArcNo(arc + 1)))?;
        }
        Ok(Replay { states })
    }

    pub fn set(&mut self, arc: u32, weight: Option<Weight>) {
        let place = arc as usize;
        if 1 <= place && place <= self.states.len() {
            self.states[place - 1] = weight;
        }
    }

    pub fn take_in(&mut self, changes: &[Change]) {
        for change in changes {
            self.set(change.arc.0, change.weight);
        }
    }

    /// Whether this is the state at a place, from 0.
    fn has(&self, place: u32, state: Option<Weight>) -> bool {
        match self.states.get(place as usize) {
            Some(own) => *own == state,
            None => false,
        }
    }

    /// Whether the weights are these states, each of them.
    pub fn agrees(&self, weights: &Weights) -> bool {
        let mut same = weights.arcs() as usize == self.states.len();
        for arc in 0..weights.arcs() {
            same = same && self.has(arc, weights.get(ArcNo(arc + 1)));
        }
        same
    }
}

/// Whether a reader's snapshot has this number and these states, and is the last one or not.
fn shows<S: Store>(reader: &EpochReader<S>, number: u32, closed: bool, replay: &Replay) -> bool {
    let snapshot = reader.snapshot();
    snapshot.number == number && snapshot.closed == closed && replay.agrees(&snapshot.weights)
}

/// Whether a reader looks, and then shows this.
pub(super) fn finds<S: Store>(
    reader: &mut EpochReader<S>,
    number: u32,
    closed: bool,
    replay: &Replay,
) -> bool {
    reader.read().is_ok() && shows(reader, number, closed, replay)
}

/// Whether an arc is given these weights, or shut if there are none.
pub(super) fn changes<S: Store>(
    operator: &mut Operator<S>,
    arc: u32,
    weight: Option<[u32; 2]>,
) -> bool
    requires two { S.origin.base.criteria ≡ 2 }
{
    match weight {
        Some(weight) => operator.set(arc, Weight::of_numbers(&weight)).is_ok(),
        None => operator.shut(arc).is_ok(),
    }
}
