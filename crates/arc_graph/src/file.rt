ghost use Rattle.std.specs.Prelude.{◌≡◌, ◌<◌, ◌≤◌, ◌^◌, [], ◌∷◌, ◌++◌, length, OnOk, OnErr};
ghost use Rattle.road_network.specs.Limits.{max_arcs, max_nodes};
ghost use Rattle.road_network.specs.Network.{IsNode};

use crate::graph::Ends;
use cost_vector::NodeNo;
use out_of_memory::OutOfMemory;
use std::alloc::Global;
use std::marker::Model;

/// One arc of a weight file: its ends, numbered from 1, and its weight by the file's criterion.
#[derive(Clone, Copy, Debug, PartialEq, Eq)]
pub struct ArcLine {
    pub tail: u32,
    pub head: u32,
    pub weight: u32,
}

impl ArcLine {
    ghost use Rattle.std.specs.Prelude.{◌≡◌};
    ghost use Rattle.arc_graph.specs.Files.{ends_of};
    ghost use Rattle.arc_graph.specs.Layout.{pair_of};

    /// Its ends, without the weight.
    pub(crate) fn ends(self) -> Ends
        ensures { pair_of result ≡ ends_of self }
    {
        Ends {
            tail: NodeNo(self.tail),
            head: NodeNo(self.head),
        }
    }
}

/// What one weight file says: how many nodes there are, and the arcs in the order of their lines.
#[derive(Debug, Drop)]
pub struct ArcFile {
    nodes: u32,
    arcs: Vec<ArcLine>,
}

impl Model for ArcFile {
    ghost use Rattle.arc_graph.specs.Files.{ArcFile, IsArcFile};

    ghost Value = { ArcFile };

    ghost view = { λ f. record { nodes = f.nodes; arcs = f.arcs.items } };

    ghost invariant = { λ f. IsArcFile (record { nodes = f.nodes; arcs = f.arcs.items }) };
}

impl ArcFile {
    ghost use Rattle.arc_graph.specs.Files.{IsArcFile};

    /// A file of this many nodes and no arc yet.
    pub fn new(alloc: Global, nodes: u32) -> ArcFile
        requires some_node { 1 ≤ nodes }
        requires limit { nodes ≤ max_nodes }
        ensures nodes { result.nodes ≡ nodes }
        ensures empty { result.arcs ≡ [] }
    {
        ArcFile {
            nodes,
            arcs: Vec::new(alloc),
        }
    }

    /// The number of nodes.
    pub fn nodes(&self) -> u32
        ensures count { result ≡ self.now.nodes }
        ensures contents { IsArcFile self.now }
    {
        self.nodes
    }

    /// The arcs in the order of their lines.
    pub fn arcs(&self) -> &[ArcLine]
        ensures { result.now ≡ self.now.arcs }
    {
        &self.arcs
    }

    /// Adds the next arc. At an error the file is as it was.
    pub fn push(&mut self, a: ArcLine) -> Result<(), OutOfMemory>
        requires tail { IsNode self.old.nodes a.tail }
        requires head { IsNode self.old.nodes a.head }
        requires room { length self.old.arcs < max_arcs }
        ensures nodes { self.new.nodes ≡ self.old.nodes }
        ensures ok { OnOk result (self.new.arcs ≡ self.old.arcs ++ a ∷ []) }
        ensures err { OnErr result (self.new.arcs ≡ self.old.arcs) }
    {
        self.arcs.push(a)?;
        Ok(())
    }
}
