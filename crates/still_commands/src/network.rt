//! Reads the named files and joins them.
ghost use Rattle.std.specs.Prelude.{◌≡◌, ◌≤◌, length, IfOk, All, map};
ghost use Rattle.arc_graph.specs.Graph.{Match, network};
ghost use Rattle.road_network.specs.Network.{IsNetwork};
ghost use Rattle.command_words.specs.Ranges.{max_files};
ghost use Rattle.gr_reader.specs.Sinks.{JoinerIsReady};
ghost use Rattle.route_io.specs.Sources.{ReadsFiles};
ghost use Rattle.still_commands.specs.Outcome.{failed_file};
ghost use Rattle.still_commands.specs.ReadResults.{FileRead, FilesAreRead, NetworkRead, SizesRead};
ghost use Rattle.still_commands.specs.Stops.{run_outcome};

use crate::MAX_FILE_SIZE;
use crate::stop::Stop;
use arc_graph::{Graph, Joiner, NetworkSizes, Weights};
use command_words::FileNames;
use gr_reader::{FileFault, read_into};
use line_text::{LineLimits, MAX_LINE};
use route_io::Folder;
use std::alloc::Global;

/// The limits of each file.
pub(crate) const LIMITS: LineLimits = LineLimits {
    line: MAX_LINE,
    total: MAX_FILE_SIZE,
};

/// Reads the named files in order, and joins them. The first fault of a file ends the run.
pub fn read_network<'a, F: Folder>(
    alloc: Global,
    folder: &mut F,
    names: &FileNames<'a>,
) -> Result<(Graph, Weights), Stop<'a>>
    requires { All F.admits names.now }
    ensures is_network { IfOk result (λ r. IsNetwork (network r.0 r.1)) }
    ensures matched { IfOk result (λ r. Match r.0 r.1) }
    ensures read { NetworkRead (F.state folder.old).files names.now result }
    ensures folder { ReadsFiles (F.state folder.old) (F.state folder.new)
        (failed_file (run_outcome result)) }
{
    let joiner = read_files(alloc, folder, names.as_slice())?;
    Ok(joiner.finish()?)
}

/// Reads the named files as `read_network` does, for the sizes of their network alone, so that nothing is laid out.
pub(crate) fn read_sizes<'a, F: Folder>(
    alloc: Global,
    folder: &mut F,
    names: &FileNames<'a>,
) -> Result<NetworkSizes, Stop<'a>>
    requires { All F.admits names.now }
    ensures read { SizesRead (F.state folder.old).files names.now result }
    ensures folder { ReadsFiles (F.state folder.old) (F.state folder.new)
        (failed_file (run_outcome result)) }
{
    let joiner = read_files(alloc, folder, names.as_slice())?;
    Ok(joiner.sizes()?)
}

/// Reads the named files in order, and hands their arcs to a joiner.
fn read_files<'a, F: Folder>(
    alloc: Global,
    folder: &mut F,
    names: &[&'a str],
) -> Result<Joiner, Stop<'a>>
    requires admitted { All F.admits (map (λ name. name.now) names.now) }
    requires four { length names.now ≤ max_files }
    ensures begun { IfOk result (λ joiner. joiner.begun ≡ length names.now) }
    ensures whole { IfOk result (λ joiner. joiner.come ≡ joiner.due_arcs) }
    ensures read { FilesAreRead (F.state folder.old).files
        (map (λ name. name.now) names.now) result }
    ensures folder { ReadsFiles (F.state folder.old) (F.state folder.new)
        (failed_file (run_outcome result)) }
{
    let mut joiner = Joiner::new(alloc);
    for name in names {
        read_file(alloc, folder, name, &mut joiner)?;
    }
    Ok(joiner)
}

/// Reads one file, and hands its arcs to the joiner as they come.
fn read_file<'a, F: Folder>(
    alloc: Global,
    folder: &mut F,
    name: &'a str,
    joiner: &mut Joiner,
) -> Result<(), Stop<'a>>
    requires admitted { F.admits name.now }
    requires ready { JoinerIsReady joiner.old }
    ensures read { FileRead (F.state folder.old).files name.now joiner.old joiner.new result }
    ensures folder { ReadsFiles (F.state folder.old) (F.state folder.new)
        (failed_file (run_outcome result)) }
{
    let Ok(()) = folder.select(name) else {
        return Err(Stop::Folder { name });
    };
    match read_into(alloc, folder, LIMITS, joiner) {
        Ok(()) => Ok(()),
        Err(FileFault::Line { kind, line }) => Err(Stop::File { name, line, kind }),
        Err(FileFault::Read) => Err(Stop::Folder { name }),
        Err(FileFault::OutOfMemory(want)) => Err(Stop::OutOfMemory(want)),
    }
}
