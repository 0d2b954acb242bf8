ghost use Rattle.std.specs.Prelude.{◌≡◌, ℕ, ◌≤◌, ◌<◌, ◌-◌, ◌*◌, ◌^◌, length, take, IfOk, IfSome, All};
ghost use Rattle.road_network.specs.Network.{IsVector};
ghost use Rattle.arc_graph.specs.Graph.{AreWeights, arc_state};
ghost use Rattle.arc_graph.specs.History.{with_change};
ghost use Rattle.arc_graph.specs.Pages.{CopiesPage, page_of, page_size, pages_of, with_copied_page};
ghost use Rattle.arc_graph.specs.Stored.{AreStoredStates, IsStoredAs, IsStoredState, is_zero, states_of};

use cost_vector::{ArcNo, Weight};
use out_of_memory::OutOfMemory;
use std::alloc::Global;
use std::marker::Model;

/// The weights of one arc, in the order of the criteria; all are 0 where the arc is shut.
pub(crate) type Places = [u32; 4];

/// A shut arc's.
const SHUT: Places = [0; 4];

/// How many arcs stand on a page of `Weights`; the last page may have fewer.
const PAGE_SIZE: usize = 4096;

/// For each arc its vector, or that it is shut. A vector is never all zero, so four zeros stand for a shut arc.
#[derive(Debug, Drop)]
pub struct Weights {
    alloc: Global,
    criteria: usize,
    vectors: Vec<Places>,
}

impl Model for Weights {
    ghost use Rattle.arc_graph.specs.Graph.{Weights};
    ghost use Rattle.arc_graph.specs.Stored.{AreStoredStates, is_zero, states_of};

    ghost Value = { Weights };

    ghost view = { λ w. record { criteria = w.criteria; states = states_of w.criteria w.vectors.items } };

    ghost invariant = { λ w. AreStoredStates w.criteria w.vectors.items };
}

impl Weights {
    /// Weights that lie in memory as these places.
    pub(crate) fn of_places(alloc: Global, criteria: usize, vectors: Vec<Places>) -> Weights
        requires { AreStoredStates criteria vectors.items }
        ensures { result
            ≡ record { criteria = criteria; states = states_of criteria vectors.items } }
    {
        Weights {
            alloc,
            criteria,
            vectors,
        }
    }

    /// The number of arcs.
    pub fn arcs(&self) -> u32
        ensures count { result ≡ length self.now.states }
        ensures states { AreWeights self.now }
    {
        self.vectors.len() as u32
    }

    /// The vector of an arc, or `None` where the arc is shut.
    pub fn get(&self, a: ArcNo) -> Option<Weight>
        requires counted { 1 ≤ a.0 }
        requires there { a.0 ≤ length self.now.states }
        ensures state { result ≡ arc_state self.now.states a }
        ensures vector { IfSome result (IsVector self.now.criteria) }
        ensures small { IfSome result (All (λ x. x < 2 ^ 32)) }
    {
        let places = self.vectors[a.0 as usize - 1];
        if is_zero(&places) {
            return None;
        }
        Some(Weight::of_places(self.criteria, places))
    }

    /// Gives an arc another vector, or shuts it where there is none.
    pub fn set(&mut self, a: ArcNo, w: Option<Weight>)
        requires counted { 1 ≤ a.0 }
        requires there { a.0 ≤ length self.old.states }
        requires vector { IfSome w (IsVector self.old.criteria) }
        ensures { self.new ≡ with_change self.old (record { arc = a; weight = w }) }
    {
        self.vectors[a.0 as usize - 1] = places_of(w);
    }

    /// How many pages there are: 4,096 arcs stand on each but the last, which may have fewer.
    pub fn pages(&self) -> usize
        ensures { result ≡ pages_of (length self.now.states) }
    {
        self.vectors.len().div_ceil(PAGE_SIZE)
    }

    /// The page that an arc stands on, from 0.
    pub fn page_of(a: ArcNo) -> usize
        requires counted { 1 ≤ a.0 }
        ensures { result ≡ page_of a.0 }
    {
        (a.0 as usize - 1) / PAGE_SIZE
    }

    /// Takes over the states of the arcs of one page from other weights of the same arcs.
    pub fn copy_page(&mut self, other: &Weights, page: usize)
        requires criteria { other.now.criteria ≡ self.old.criteria }
        requires arcs { length other.now.states ≡ length self.old.states }
        requires there { page < pages_of (length self.old.states) }
        ensures { CopiesPage page other.now self.old self.new }
    {
        copy_page_of(&other.vectors, &mut self.vectors, page);
    }

    /// The same weights again, in memory of their own.
    pub fn try_copy(&self) -> Result<Weights, OutOfMemory>
        ensures { IfOk result (λ copy. copy ≡ self.now) }
    {
        Ok(Weights {
            alloc: self.alloc,
            criteria: self.criteria,
            vectors: Vec::from_slice(self.alloc, &self.vectors)?,
        })
    }
}

/// Takes over the elements of one page.
fn copy_page_of(from: &[Places], to: &mut [Places], page: usize)
    requires same { length from.now ≡ length to.old }
    requires there { page * page_size < length to.old }
    ensures { to.new ≡ with_copied_page page from.now to.old }
{
    let start = page * PAGE_SIZE;
    let end = to.len().min(start + PAGE_SIZE);
    to[start..end].copy_from_slice(&from[start..end]);
}

/// A state as it lies in memory.
fn places_of(state: Option<Weight>) -> Places
    ensures { (criteria : ℕ) → IfSome state (IsVector criteria)
        → IsStoredAs criteria state result }
{
    match state {
        None => SHUT,
        Some(weight) => places_of_vector(&weight),
    }
}

/// The weights of a vector, and 0 in the places past them.
fn places_of_vector(weight: &Weight) -> Places
    ensures stored { IsStoredState (length weight.now) result }
    ensures vector { take (length weight.now) result ≡ weight.now }
{
    let mut places = SHUT;
    for i in 0..weight.count() {
        places[i] = weight.component(i);
    }
    places
}

/// Whether all four weights are 0, as those of a shut arc are.
pub(crate) fn is_zero(places: &Places) -> bool
    ensures { result ≡ is_zero places.now }
{
    *places == SHUT
}
