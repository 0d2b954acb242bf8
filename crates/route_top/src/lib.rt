//! The top call: it does all that the program does, from the words of the command line to the exit status.
#![tactic(auto)]

ghost use Rattle.std.specs.Prelude.{◌≡◌, ◌==◌, ◌⊎◌, ℕ, List, All};
ghost use Rattle.route_io.specs.Causes.{IsCounted};
ghost use Rattle.command_words.specs.Words.{AreWords, Asks, names_of, texts_of};
ghost use Rattle.command_words.specs.declared.commands.Command.TheVariants.{Waiting};
ghost use Rattle.still_commands.specs.Output.{EndsByWords, IsAskedName, Output, RunsCommand};
ghost use Rattle.still_commands.specs.Stops.{run_outcome};
ghost use Rattle.route_top.specs.Ends.{Ends};
ghost use Rattle.route_top.specs.Serve.{EndsTown, IsReadyTown, TownByWords};

mod follow;
mod lanes;
mod laws;
mod script;
mod serve;

use command_words::{Command, WaitingCommand, read_words};
pub use laws::{
    follow_keeps_to_its_leader, written_feeds_come_from_their_script,
    written_feeds_lead_their_followers,
};
use link_doors::Town;
use route_io::{Folder, Sink};
use std::alloc::Global;
use std::sync::Wait;
use std::thread::Threads;
use std::time::Clock;
pub use still_commands::{WANT_OF_MEMORY, run_still};
use still_commands::{Stop, carry_out, end};
use work_claim::Gate;

/// Runs the command that the words ask for over the folder's files, and answers the exit status. Replies go to `out`.
/// On each status but 0 and 8 one line goes to `err`, whose faults only cut that line. `serve` asks the town for doors, and
/// gives them back on every way out.
///
/// | Status | Comes |
/// |---|---|
/// | 0 | what is asked for was sent |
/// | 2 | the words are no command's words |
/// | 3 | the folder failed |
/// | 4 | `out` failed |
/// | 5 | a weight file has a faulty line |
/// | 6 | the weight files don't agree |
/// | 7 | the file of pairs has a faulty line, or a script or a feed is too long |
/// | 8 | an end of the query is no node, or the query passes its budget; a line on `out` says which |
/// | 9 | memory ran out, in `serve` also where it did so in a link |
/// | 10 | the town failed, or one of its doors |
/// | 11 | the certificate has a faulty line |
/// | 12 | no line is faulty, but a rule fails at a label of the certificate |
pub fn route<R: Threads + Wait + Clock + Sync, G: Gate, F: Folder, K: Sink, E: Sink, T: Town>(
    rt: &R,
    alloc: Global,
    words: &[String],
    folder: &mut F,
    out: &mut K,
    err: &mut E,
    town: &mut T,
    gate: &G,
) -> u8
    requires admitted { (name : List ℕ) → IsAskedName names_of (Asks (texts_of words.now)) name → F.admits name }
    requires town { IsReadyTown (Asks (texts_of words.now)) T.admits (T.state town.old) }

    // One outcome says all: what was read and sent, what the folder and the sinks counted, the note and the status.
    ensures output { Output Ends (Asks (texts_of words.now)) (F.state folder.old) (F.state folder.new)
        (K.state out.old) (K.state out.new) (E.state err.old) (E.state err.new) result }

    // The words alone make status 2, unless memory runs out.
    ensures bad_words { result ≡ 2 → ¬ AreWords (texts_of words.now) }
    ensures only_bad_words { ¬ AreWords (texts_of words.now) → (result ≡ 2) ⊎ (result ≡ 9) }

    // The folder's failures alone make status 3, and those of `out` status 4.
    ensures folder { IsCounted (result == 3) (F.state folder.old).faults (F.state folder.new).faults }
    ensures out { IsCounted (result == 4) (K.state out.old).faults (K.state out.new).faults }

    // The town is asked by `serve` alone, which serves the links of its doors and gives these back. Its failures alone make
    // status 10.
    ensures town { EndsTown (Asks (texts_of words.now)) (F.state folder.old).files
        (T.state town.old) (T.state town.new) (K.state out.old) (K.state out.new) result }
{
    end(alloc, run(rt, alloc, words, folder, out, town, gate), err)
}

/// Runs the command that the words ask for, and says why where it isn't done.
fn run<'a, R: Threads + Wait + Clock + Sync, G: Gate, F: Folder, K: Sink, T: Town>(
    rt: &R,
    alloc: Global,
    words: &'a [String],
    folder: &mut F,
    out: &mut K,
    town: &mut T,
    gate: &G,
) -> Result<(), Stop<'a>>
    requires admitted { (name : List ℕ) → IsAskedName names_of (Asks (texts_of words.now)) name → F.admits name }
    requires town { IsReadyTown (Asks (texts_of words.now)) T.admits (T.state town.old) }
    ensures town { TownByWords (Asks (texts_of words.entry.now)) (F.state folder.old).files
        (T.state town.old) (T.state town.new) (K.state out.old) (K.state out.new)
        (run_outcome result) }
    ensures runs { RunsCommand
        (EndsByWords Ends (Asks (texts_of words.entry.now)) (F.state folder.old).files)
        (F.state folder.old) (F.state folder.new) (K.state out.old) (K.state out.new)
        (run_outcome result) }
{
    match read_words(alloc, words) {
        Ok(Command::Still(command)) => carry_out(rt, alloc, &command, folder, out, gate),
        Ok(Command::Waiting(command)) => {
            run_waiting(rt, alloc, &command, folder, out, town, gate)
        }
        Err(fault) => Err(Stop::Words(fault)),
    }
}

/// Carries out a command that may wait for others.
fn run_waiting<'a, R: Threads + Wait + Clock + Sync, G: Gate, F: Folder, K: Sink, T: Town>(
    rt: &R,
    alloc: Global,
    command: &WaitingCommand<'a>,
    folder: &mut F,
    out: &mut K,
    town: &mut T,
    gate: &G,
) -> Result<(), Stop<'a>>
    requires admitted { All F.admits (names_of (Waiting command.now)) }
    requires town { IsReadyTown (λ c. c ≡ Waiting command.now) T.admits (T.state town.old) }
    ensures town { TownByWords (λ c. c ≡ Waiting command.now) (F.state folder.old).files
        (T.state town.old) (T.state town.new) (K.state out.old) (K.state out.new)
        (run_outcome result) }
    ensures runs { RunsCommand (Ends (F.state folder.old).files (Waiting command.now))
        (F.state folder.old) (F.state folder.new) (K.state out.old) (K.state out.new)
        (run_outcome result) }
{
    match command {
        WaitingCommand::Lanes(asked) => lanes::run(rt, alloc, asked, folder, out, gate),
        WaitingCommand::Serve(asked) => serve::run(rt, alloc, asked, folder, out, town, gate),
        WaitingCommand::Follow(asked) => follow::run(rt, alloc, asked, folder, out, gate),
    }
}
