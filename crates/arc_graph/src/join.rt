ghost use Rattle.std.specs.Prelude.{◌≡◌, ◌≤◌, ◌<◌, ◌+◌, ◌↔◌, ◌++◌, List, [], ◌∷◌, length, vec_len, map, position};
ghost use Rattle.std.specs.Prelude.{IsTrue, IfOk, IfErr, OnOk, MatchOption};
ghost use Rattle.road_network.specs.Limits.{max_arcs, max_nodes};
ghost use Rattle.road_network.specs.Network.{IsNetwork, IsNode};
ghost use Rattle.arc_graph.specs.Graph.{Match, network};
ghost use Rattle.arc_graph.specs.Files.{ArcFile, empty_file, size_of, with_arc};
ghost use Rattle.arc_graph.specs.Agreement.{Agree, AgreeInSize, HasFault, IsFaultOf, joined};
ghost use Rattle.arc_graph.specs.Agreement.{IsOtherSize, IsZeroArc, DiffersInEnds};
ghost use Rattle.arc_graph.specs.Sizes.{sizes_of};
ghost use Rattle.arc_graph.specs.JoinerHolds.{JoinerHolds};
ghost use Rattle.arc_graph.specs.Joiner.{BeginsFile, KeepsFile};
ghost use Rattle.arc_graph.specs.Faults.{AreLeastIfAny, IsEarlier, arc_fault_of};
ghost use Rattle.list_laws.specs.Least.{IsLeastIfAny};
ghost use Rattle.arc_graph.specs.Stored.{is_zero, states_of};
ghost use Rattle.cost_vector.specs.Costs.{max_criteria, min_criteria};

use crate::file::{ArcFile, ArcLine};
use crate::graph::{Ends, Graph};
use crate::weights::{Places, Weights, is_zero};
use out_of_memory::OutOfMemory;
use std::alloc::Global;
use std::marker::Model;
use thiserror::Error;

/// How files don't agree. Files and arcs are numbered from 1.
#[derive(Clone, Copy, Debug, PartialEq, Eq, Error)]
pub enum Disagreement {
    #[error("file {file} has another number of nodes or arcs than the first")]
    Sizes { file: u32 },
    #[error("arc {arc} has other ends in file {file} than in the first")]
    Ends { arc: u32, file: u32 },
    #[error("arc {arc} has only zero weights")]
    ZeroArc { arc: u32 },
}

/// Why files can't be joined.
#[derive(Clone, Copy, Debug, PartialEq, Eq, Error)]
pub enum JoinFault {
    #[error("the files don't agree")]
    Files(Disagreement),
    #[error("out of memory")]
    OutOfMemory(OutOfMemory),
}

impl From<OutOfMemory> for JoinFault {
    ghost use Rattle.std.specs.Prelude.{◌≡◌};
    ghost use Rattle.arc_graph.specs.declared.join.JoinFault.TheVariants as fault;

    ghost from_gives = { λ want e. e ≡ fault.OutOfMemory want };

    fn from(want: OutOfMemory) -> JoinFault {
        JoinFault::OutOfMemory(want)
    }
}

/// How many nodes, arcs and criteria a network has.
#[derive(Clone, Copy, Debug, PartialEq, Eq)]
pub struct NetworkSizes {
    pub nodes: u32,
    pub arcs: u32,
    pub criteria: usize,
}

/// An arc whose ends differ in a file from those in the first.
#[derive(Clone, Copy, Debug, PartialEq, Eq)]
struct OtherEnds {
    arc: u32,
    file: u32,
}

/// Joins weight files that come arc by arc. It keeps the ends of the first file's arcs alone, the weights of each file
/// up to the first file's length, and the faults that would be told.
#[derive(Debug, Drop)]
pub struct Joiner {
    alloc: Global,
    /// The nodes of the first file.
    nodes: u32,
    ends: Vec<Ends>,
    vectors: Vec<Places>,
    /// How many files were begun.
    begun: u32,
    /// What the file begun last is to have, and how many of its arcs have come.
    due_nodes: u32,
    due_arcs: u32,
    come: u32,
    /// The least file whose sizes differ from the first file's.
    other_size: Option<u32>,
    /// The least arc whose ends differ from the first file's, in the least such file.
    other_ends: Option<OtherEnds>,
}

impl Model for Joiner {
    ghost use Rattle.arc_graph.specs.Joiner.{Joiner, IsJoiner};

    ghost Value = { Joiner };

    ghost use Rattle.arc_graph.specs.Inside.{joiner_of};

    ghost view = { joiner_of };

    ghost invariant = { λ j. IsJoiner (joiner_of j) };
}

impl Joiner {
    /// No file yet.
    pub fn new(alloc: Global) -> Joiner
        ensures begun { result.begun ≡ 0 }
        ensures come { result.come ≡ 0 }
        ensures due { result.due_arcs ≡ 0 }
        ensures files { JoinerHolds result [] }
    {
        Joiner {
            alloc,
            nodes: 0,
            ends: Vec::new(alloc),
            vectors: Vec::new(alloc),
            begun: 0,
            due_nodes: 0,
            due_arcs: 0,
            come: 0,
            other_size: None,
            other_ends: None,
        }
    }

    /// Begins the next file, which is to have this many nodes and arcs. After an error the joiner is only dropped.
    pub fn begin_file(&mut self, nodes: u32, arcs: u32) -> Result<(), OutOfMemory>
        requires some_node { 1 ≤ nodes }
        requires most_nodes { nodes ≤ max_nodes }
        requires most_arcs { arcs ≤ max_arcs }
        requires fewer_than_four { self.old.begun < max_criteria }
        requires whole { self.old.come ≡ self.old.due_arcs }

        // All of the file is due; and the files are those of before, and one without arcs.
        ensures begins { OnOk result (BeginsFile self.old self.new nodes arcs) }
        ensures files { (files : List ArcFile) → JoinerHolds self.old files
            → OnOk result (JoinerHolds self.new (files ++ empty_file nodes ∷ [])) }
    {
        if self.begun == 0 {
            self.ends.reserve(arcs as usize)?;
            self.vectors.reserve(arcs as usize)?;
            self.nodes = nodes;
        } else {
            self.other_size = self.other_size_with(nodes, arcs);
        }
        self.begun += 1;
        self.due_nodes = nodes;
        self.due_arcs = arcs;
        self.come = 0;
        Ok(())
    }

    /// The least file whose sizes differ, once a file of these sizes has begun.
    fn other_size_with(&self, nodes: u32, arcs: u32) -> Option<u32>
        requires begun { 1 ≤ self.now.begun }
        requires fewer_than_four { self.now.begun < max_criteria }
        requires whole { self.now.come ≡ self.now.due_arcs }
        ensures { (files : List ArcFile) → JoinerHolds self.now files
            → IsLeastIfAny (IsOtherSize (map size_of files ++ (nodes, arcs) ∷ [])) result }
    {
        if self.is_size(nodes, arcs) {
            return self.other_size;
        }
        self.other_size.or(Some(self.begun + 1))
    }

    /// Adds the next arc of the file begun last. After an error the joiner is only dropped.
    #[inline(always)]
    pub fn push(&mut self, a: ArcLine) -> Result<(), OutOfMemory>
        requires begun { 1 ≤ self.old.begun }
        requires tail { IsNode self.old.due_nodes a.tail }
        requires head { IsNode self.old.due_nodes a.head }
        requires due { self.old.come < self.old.due_arcs }

        // One arc more has come of the file that was begun last.
        ensures file { KeepsFile self.old self.new }
        ensures come { OnOk result (self.new.come ≡ self.old.come + 1) }

        // The files of before, the last with this arc more.
        ensures files { (front : List ArcFile) (last : ArcFile)
            → JoinerHolds self.old (front ++ last ∷ [])
            → OnOk result (JoinerHolds self.new (front ++ with_arc last a ∷ [])) }
    {
        if self.begun == 1 {
            self.push_first(a)
        } else {
            self.push_later(a);
            Ok(())
        }
    }

    fn push_first(&mut self, a: ArcLine) -> Result<(), OutOfMemory>
        requires begun { self.old.begun ≡ 1 }
        requires tail { IsNode self.old.nodes a.tail }
        requires head { IsNode self.old.nodes a.head }
        requires due { self.old.come < self.old.due_arcs }

        // One arc more has come of the file that was begun last.
        ensures file { KeepsFile self.old self.new }
        ensures come { OnOk result (self.new.come ≡ self.old.come + 1) }

        // The files of before, the last with this arc more.
        ensures files { (front : List ArcFile) (last : ArcFile)
            → JoinerHolds self.old (front ++ last ∷ [])
            → OnOk result (JoinerHolds self.new (front ++ with_arc last a ∷ [])) }
    {
        self.vectors.reserve(1)?;
        self.ends.push(a.ends())?;
        self.vectors.push_reserved([a.weight, 0, 0, 0]);
        self.come += 1;
        Ok(())
    }

    fn push_later(&mut self, a: ArcLine)
        requires later_file { 2 ≤ self.old.begun }
        requires due { self.old.come < self.old.due_arcs }

        // One arc more has come of the file that was begun last.
        ensures file { KeepsFile self.old self.new }
        ensures come { self.new.come ≡ self.old.come + 1 }

        // The files of before, the last with this arc more.
        ensures files { (front : List ArcFile) (last : ArcFile)
            → JoinerHolds self.old (front ++ last ∷ [])
            → JoinerHolds self.new (front ++ with_arc last a ∷ []) }
    {
        let place = self.come as usize;
        if place < self.ends.len() {
            self.other_ends = self.other_ends_with(a);
            self.vectors[place][self.begun as usize - 1] = a.weight;
        }
        self.come += 1;
    }

    /// The least arc whose ends differ, in the least such file, once the file begun last has this arc more.
    fn other_ends_with(&self, a: ArcLine) -> Option<OtherEnds>
        requires later_file { 2 ≤ self.now.begun }
        requires there { self.now.come < length self.now.ends }
        ensures { (front : List ArcFile) (last : ArcFile)
            → JoinerHolds self.now (front ++ last ∷ [])
            → AreLeastIfAny (DiffersInEnds (front ++ with_arc last a ∷ [])) result }
    {
        if a.ends() == self.ends[self.come as usize] {
            return self.other_ends;
        }
        let here = OtherEnds {
            arc: self.come + 1,
            file: self.begun,
        };
        Some(earlier(self.other_ends, here))
    }

    /// The joined graph and its weights, or the fault: another size first, then the least arc that can't be joined.
    pub fn finish(self) -> Result<(Graph, Weights), JoinFault>
        requires two { min_criteria ≤ self.begun }
        requires whole { self.come ≡ self.due_arcs }
        ensures criteria { IfOk result (λ r. r.0.criteria ≡ self.begun) }
        ensures matched { IfOk result (λ r. Match r.0 r.1) }
        ensures is_network { IfOk result (λ r. IsNetwork (network r.0 r.1)) }

        // The files agree, and the network is theirs, or the fault is.
        ensures agree { (files : List ArcFile) → JoinerHolds self files
            → IfOk result (λ _. Agree files) }
        ensures joined { (files : List ArcFile) → JoinerHolds self files
            → IfOk result (λ r. network r.0 r.1 ≡ joined files) }
        ensures fault { (files : List ArcFile) → JoinerHolds self files
            → IfErr result (IsFaultOf files) }
    {
        match self.fault() {
            Some(way) => Err(JoinFault::Files(way)),
            None => Ok(self.joined()?),
        }
    }

    /// The sizes of the joined network, or the fault. Nothing is laid out for them.
    pub fn sizes(self) -> Result<NetworkSizes, JoinFault>
        requires two { min_criteria ≤ self.begun }
        requires whole { self.come ≡ self.due_arcs }

        // The files agree, and the sizes are those of their network, or the fault is theirs.
        ensures agree { (files : List ArcFile) → JoinerHolds self files
            → IfOk result (λ _. Agree files) }
        ensures sizes { (files : List ArcFile) → JoinerHolds self files
            → IfOk result (λ s. s ≡ sizes_of (joined files)) }
        ensures fault { (files : List ArcFile) → JoinerHolds self files
            → IfErr result (IsFaultOf files) }
    {
        if let Some(way) = self.fault() {
            return Err(JoinFault::Files(way));
        }
        Ok(NetworkSizes {
            nodes: self.nodes,
            arcs: self.ends.len() as u32,
            criteria: self.begun as usize,
        })
    }

    /// The fault that is told, if there is one: another size first, then the least arc that can't be joined.
    fn fault(&self) -> Option<Disagreement>
        requires some { 1 ≤ self.now.begun }
        requires whole { self.now.come ≡ self.now.due_arcs }
        ensures { (files : List ArcFile) → JoinerHolds self.now files
            → MatchOption result (Agree files) (HasFault files) }
    {
        if let Some(file) = self.other_size {
            return Some(Disagreement::Sizes { file });
        }
        arc_fault(self.other_ends, self.zero_arc())
    }

    /// The least arc whose weight is 0 in every file.
    fn zero_arc(&self) -> Option<u32>
        requires some { 1 ≤ self.now.begun }
        ensures { (files : List ArcFile) → JoinerHolds self.now files → AgreeInSize files
            → IsLeastIfAny (IsZeroArc files) result }
    {
        let place = first_zero(&self.vectors)?;
        Some(place as u32 + 1)
    }

    fn is_size(&self, nodes: u32, arcs: u32) -> bool
        ensures { IsTrue result ↔ ((nodes ≡ self.now.nodes) × (arcs ≡ length self.now.ends)) }
    {
        nodes == self.nodes && arcs as usize == self.ends.len()
    }

    fn joined(self) -> Result<(Graph, Weights), OutOfMemory>
        requires { min_criteria ≤ self.begun }
        ensures criteria { IfOk result (λ r. r.0.criteria ≡ self.begun) }
        ensures matched { IfOk result (λ r. Match r.0 r.1) }
        ensures is_network { IfOk result (λ r. IsNetwork (network r.0 r.1)) }
        ensures network { IfOk result (λ r. network r.0 r.1 ≡ record {
          nodes = self.nodes;
          ends = self.ends;
          criteria = self.begun;
          states = states_of self.begun self.vectors;
        }) }
    {
        let criteria = self.begun as usize;
        let graph = Graph::of_ends(self.alloc, self.nodes, criteria, self.ends)?;
        Ok((
            graph,
            Weights::of_places(self.alloc, criteria, self.vectors),
        ))
    }
}

/// The lesser of two arcs, and of one arc in two files that which was told before.
fn earlier(known: Option<OtherEnds>, here: OtherEnds) -> OtherEnds
    ensures { IsEarlier known here result }
{
    match known {
        Some(other) if other.arc <= here.arc => other,
        _ => here,
    }
}

/// The fault of the least arc that can't be joined; at the same arc other ends come before zero weights.
fn arc_fault(other: Option<OtherEnds>, zero: Option<u32>) -> Option<Disagreement>
    ensures { result ≡ arc_fault_of other zero }
{
    match (other, zero) {
        (Some(other), Some(arc)) if arc < other.arc => Some(Disagreement::ZeroArc { arc }),
        (Some(other), _) => Some(Disagreement::Ends {
            arc: other.arc,
            file: other.file,
        }),
        (None, Some(arc)) => Some(Disagreement::ZeroArc { arc }),
        (None, None) => None,
    }
}

/// The first place at which all four numbers are 0.
fn first_zero(vectors: &[Places]) -> Option<usize>
    ensures { result ≡ position is_zero vectors.now }
{
    vectors.iter().position(is_zero)
}

/// Joins two to four files that list the same arcs, each with its own weights.
pub fn join_files(alloc: Global, files: Vec<ArcFile>) -> Result<(Graph, Weights), JoinFault>
    requires two { min_criteria ≤ vec_len files }
    requires four { vec_len files ≤ max_criteria }
    ensures criteria { IfOk result (λ r. r.0.criteria ≡ vec_len files) }
    ensures matched { IfOk result (λ r. Match r.0 r.1) }
    ensures is_network { IfOk result (λ r. IsNetwork (network r.0 r.1)) }

    // The files agree, and the network is theirs, or the fault is.
    ensures agree { IfOk result (λ _. Agree files.items) }
    ensures joined { IfOk result (λ r. network r.0 r.1 ≡ joined files.items) }
    ensures fault { IfErr result (IsFaultOf files.items) }
{
    let mut joiner = Joiner::new(alloc);
    for file in &files {
        add_file(&mut joiner, file)?;
    }
    joiner.finish()
}

/// Adds a whole file.
fn add_file(joiner: &mut Joiner, file: &ArcFile) -> Result<(), OutOfMemory>
    requires fewer_than_four { joiner.old.begun < max_criteria }
    requires whole { joiner.old.come ≡ joiner.old.due_arcs }
    ensures begun { OnOk result (joiner.new.begun ≡ joiner.old.begun + 1) }
    ensures whole { OnOk result (joiner.new.come ≡ joiner.new.due_arcs) }
    ensures files { (files : List ArcFile) → JoinerHolds joiner.old files
        → OnOk result (JoinerHolds joiner.new (files ++ file.now ∷ [])) }
{
    let arcs = file.arcs();
    joiner.begin_file(file.nodes(), arcs.len() as u32)?;
    for arc in arcs {
        joiner.push(*arc)?;
    }
    Ok(())
}
