//! The network and the pairs that the files of a plan say.
ghost use Rattle.std.specs.Prelude.{◌≡◌, ◌+◌, ◌≤◌, IfOk, OnOk};
ghost use Rattle.arc_graph.specs.Agreement.{joined};
ghost use Rattle.arc_graph.specs.Graph.{Match, network};
ghost use Rattle.road_network.specs.Network.{IsNetwork};
ghost use Rattle.gr_reader.specs.Sinks.{JoinerIsReady};
ghost use Rattle.gen_laws.specs.Laws.{file_of, files_of, pairs_of};
ghost use Rattle.still_commands.specs.Summary.{IsFileWant, IsJoinWant, TakesWhole};

use crate::network::LIMITS;
use arc_graph::{Graph, JoinFault, Joiner, Weights};
use gen_laws::{pair_files_are_read, weight_files_agree, weight_files_are_read};
use gr_reader::{FileFault, read_into};
use graph_gen::{GenPlan, gen_file};
use out_of_memory::OutOfMemory;
use query_reader::{Pair, read_p2p};
use route_io::sure::SureSource;
use std::alloc::Global;

/// Makes the weight files of a plan one by one, reads each, and joins them.
pub(crate) fn plan_network(alloc: Global, plan: &GenPlan) -> Result<(Graph, Weights), OutOfMemory>
    ensures is_network { IfOk result (λ r. IsNetwork (network r.0 r.1)) }
    ensures matched { IfOk result (λ r. Match r.0 r.1) }
    ensures network { IfOk result (λ r. network r.0 r.1 ≡ joined (files_of plan.now)) }
{
    plan.numbers_are_in_range();
    weight_files_agree();
    let mut joiner = Joiner::new(alloc);
    for before in 0..plan.criteria.get() {
        read_weights(alloc, plan, before + 1, &mut joiner)?;
    }
    match joiner.finish() {
        Ok(joined) => Ok(joined),
        Err(fault) => Err(want_in(fault)),
    }
}

/// The want of memory that a fault of joining is.
fn want_in(fault: JoinFault) -> OutOfMemory
    requires { IsJoinWant fault }
{
    match fault {
        JoinFault::OutOfMemory(want) => want,
        JoinFault::Files(_) => unreachable!(),
    }
}

/// Makes the weight file of a criterion, and hands its arcs to the joiner. The bytes go when they were read.
fn read_weights(
    alloc: Global,
    plan: &GenPlan,
    criterion: u32,
    joiner: &mut Joiner,
) -> Result<(), OutOfMemory>
    requires some { 1 ≤ criterion }
    requires criterion { criterion ≤ plan.now.criteria }
    requires ready { JoinerIsReady joiner.old }
    ensures { OnOk result (TakesWhole joiner.old joiner.new (file_of plan.now criterion)) }
{
    plan.numbers_are_in_range();
    weight_files_are_read();
    let mut source = SureSource::new(gen_file(alloc, plan, criterion)?);
    match read_into(alloc, &mut source, LIMITS, joiner) {
        Ok(()) => Ok(()),
        Err(fault) => Err(want_of(fault)),
    }
}

/// Makes the file of pairs of a plan, and reads it.
pub(crate) fn plan_pairs(alloc: Global, plan: &GenPlan) -> Result<Vec<Pair>, OutOfMemory>
    ensures { IfOk result (λ pairs. pairs.items ≡ pairs_of plan.now) }
{
    plan.numbers_are_in_range();
    pair_files_are_read();
    let mut source = SureSource::new(gen_file(alloc, plan, 0)?);
    match read_p2p(alloc, &mut source, LIMITS) {
        Ok(pairs) => Ok(pairs),
        Err(fault) => Err(want_of(fault)),
    }
}

/// The want of memory that a fault is.
fn want_of(fault: FileFault) -> OutOfMemory
    requires { IsFileWant fault }
{
    match fault {
        FileFault::OutOfMemory(want) => want,
        FileFault::Line { .. } | FileFault::Read => unreachable!(),
    }
}
