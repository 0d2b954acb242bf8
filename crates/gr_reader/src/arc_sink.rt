//! What takes the arcs of weight files.
ghost use Rattle.std.specs.Prelude.{◌≡◌, None, Some, IsSome};
ghost use Rattle.gr_reader.specs.Sinks.{JoinerHasTaken, JoinerIsReady, OneHasTaken};

use crate::record_sink::RecordSink;
use crate::weights::{Sizes, WeightFiles};
use arc_graph::{ArcFile, ArcLine, Joiner};
use out_of_memory::OutOfMemory;
use std::alloc::Global;

impl RecordSink<WeightFiles> for Joiner {
    ghost is_ready = { JoinerIsReady };

    ghost has_taken = { λ before now sizes arcs.
        JoinerHasTaken before now sizes.arcs (record { nodes = sizes.nodes; arcs = arcs }) };

    fn begin(&mut self, sizes: Sizes) -> Result<(), OutOfMemory> {
        self.begin_file(sizes.nodes, sizes.arcs)
    }

    fn take(&mut self, arc: ArcLine) -> Result<(), OutOfMemory> {
        self.push(arc)
    }
}

/// Takes one file.
#[derive(Drop)]
pub(crate) struct OneFile {
    alloc: Global,
    file: Option<ArcFile>,
}

impl OneFile {
    pub(crate) fn new(alloc: Global) -> OneFile
        ensures { result.file ≡ None }
    {
        OneFile { alloc, file: None }
    }

    /// The file, once it was begun.
    pub(crate) fn whole(self) -> ArcFile
        requires { IsSome self.file }
        ensures { self.file ≡ Some result }
    {
        match self.file {
            Some(file) => file,
            None => unreachable!(),
        }
    }
}

impl RecordSink<WeightFiles> for OneFile {
    ghost is_ready = { λ one. one.file ≡ None };

    ghost has_taken = { λ before now sizes arcs.
        OneHasTaken now.file sizes.arcs (record { nodes = sizes.nodes; arcs = arcs }) };

    fn begin(&mut self, sizes: Sizes) -> Result<(), OutOfMemory> {
        self.file = Some(ArcFile::new(self.alloc, sizes.nodes));
        Ok(())
    }

    fn take(&mut self, arc: ArcLine) -> Result<(), OutOfMemory> {
        match &mut self.file {
            Some(file) => file.push(arc),
            None => unreachable!(),
        }
    }
}
