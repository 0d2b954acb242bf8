//! The command `check`.
ghost use Rattle.std.specs.Prelude.{◌≡◌, [], OnOk, All};
ghost use Rattle.command_words.specs.declared.commands.StillCommand.TheVariants.{Check};
ghost use Rattle.still_commands.specs.Check.{TellsSizes};
ghost use Rattle.still_commands.specs.Output.{RunsCommand, StillEnds};
ghost use Rattle.still_commands.specs.Stops.{Replies, run_outcome};
ghost use Rattle.still_commands.specs.Texts.{check_reply};

use crate::network::read_sizes;
use crate::reply::{kept, put_sizes, send};
use crate::stop::Stop;
use arc_graph::NetworkSizes;
use command_words::FileNames;
use out_of_memory::OutOfMemory;
use route_io::sure::SureSink;
use route_io::{Folder, Sink};
use std::alloc::Global;

/// Reads the named files, and tells the sizes of the network that they make up.
pub(crate) fn run<'a, F: Folder, K: Sink>(
    alloc: Global,
    files: &FileNames<'a>,
    folder: &mut F,
    out: &mut K,
) -> Result<(), Stop<'a>>
    requires { All F.admits files.now }
    ensures { RunsCommand (StillEnds (F.state folder.old).files (Check files.now))
        (F.state folder.old) (F.state folder.new) (K.state out.old) (K.state out.new)
        (run_outcome result) }
{
    let sizes = read_sizes(alloc, folder, files)?;
    reply(alloc, sizes, out)
}

/// Tells the sizes of a network.
fn reply<'a, K: Sink>(alloc: Global, sizes: NetworkSizes, out: &mut K) -> Result<(), Stop<'a>>
    ensures { Replies (TellsSizes sizes.nodes sizes.arcs sizes.criteria)
        (K.state out.old) (K.state out.new) (run_outcome result) }
{
    let mut text = SureSink::new(alloc);
    put_reply(sizes, &mut text)?;
    send(out, text.sent())
}

/// Writes the sizes of a network.
fn put_reply(sizes: NetworkSizes, text: &mut SureSink) -> Result<(), OutOfMemory>
    requires { text.old.sent ≡ [] }
    ensures { OnOk result (text.new.sent ≡ check_reply sizes.nodes sizes.arcs sizes.criteria) }
{
    kept(put_sizes(text, sizes))
}
