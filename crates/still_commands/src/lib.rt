//! The commands that wait for nobody: from the words of the command line to the exit status.
#![tactic(auto)]

ghost use Rattle.std.specs.Prelude.{◌≡◌, ◌==◌, ◌⊎◌, ℕ, List, All};
ghost use Rattle.route_io.specs.Causes.{IsCounted};
ghost use Rattle.command_words.specs.Words.{names_of_still, texts_of};
ghost use Rattle.still_commands.specs.Outcome.{note_of, status_of};
ghost use Rattle.still_commands.specs.Output.{AreStillWords, AsksStill, EndsByWords, IsAskedName, Output};
ghost use Rattle.still_commands.specs.Output.{RunsCommand, StillEnds, TookNote};
ghost use Rattle.still_commands.specs.Stops.{run_outcome};

mod batch;
mod check;
mod counting;
mod generate;
mod network;
mod plan;
mod prove;
mod reply;
mod single;
mod status;
mod stop;
mod summary;
mod verify;

use command_words::{Command, StillCommand, WordsFault, read_words};
pub use network::read_network;
use route_io::{Folder, Sink};
use status::DONE;
pub use status::WANT_OF_MEMORY;
use std::alloc::Global;
use std::thread::Threads;
pub use stop::{Script, ScriptFault, Stop};
use work_claim::Gate;

/// The most bytes of a file.
pub const MAX_FILE_SIZE: u64 = 1 << 29;

/// Runs the command that the words ask for over the folder's files, where it is one that waits for nobody, and answers the
/// exit status; `lanes`, `serve` and `follow` are no commands here. Replies go to `out`. On each status but 0 and 8 one line
/// goes to `err`, whose faults only cut that line.
pub fn run_still<R: Threads + Sync, G: Gate, F: Folder, K: Sink, E: Sink>(
    rt: &R,
    alloc: Global,
    words: &[String],
    folder: &mut F,
    out: &mut K,
    err: &mut E,
    gate: &G,
) -> u8
    requires { (name : List ℕ) → IsAskedName names_of_still (AsksStill (texts_of words.now)) name → F.admits name }

    // One outcome says all.
    ensures output { Output StillEnds (AsksStill (texts_of words.now))
        (F.state folder.old) (F.state folder.new) (K.state out.old) (K.state out.new)
        (E.state err.old) (E.state err.new) result }

    // The words alone make status 2, unless memory runs out.
    ensures bad_words { result ≡ 2 → ¬ AreStillWords (texts_of words.now) }
    ensures only_bad_words { ¬ AreStillWords (texts_of words.now) → (result ≡ 2) ⊎ (result ≡ 9) }

    // The folder's failures alone make status 3, and those of `out` status 4.
    ensures folder { IsCounted (result == 3) (F.state folder.old).faults (F.state folder.new).faults }
    ensures out { IsCounted (result == 4) (K.state out.old).faults (K.state out.new).faults }
{
    end(alloc, run(rt, alloc, words, folder, out, gate), err)
}

/// Sends the note of a run that has ended, and answers its status.
pub fn end<E: Sink>(alloc: Global, done: Result<(), Stop<'_>>, err: &mut E) -> u8
    ensures note { TookNote (E.state err.old) (E.state err.new)
        (note_of (run_outcome done.entry)) }
    ensures status { result ≡ status_of (run_outcome done.entry) }
{
    match done {
        Ok(()) => DONE,
        Err(stop) => {
            let _ = stop.note(alloc, err);
            stop.status()
        }
    }
}

/// Runs a command that waits for nobody, and says why where it isn't done.
fn run<'a, R: Threads + Sync, G: Gate, F: Folder, K: Sink>(
    rt: &R,
    alloc: Global,
    words: &'a [String],
    folder: &mut F,
    out: &mut K,
    gate: &G,
) -> Result<(), Stop<'a>>
    requires { (name : List ℕ) → IsAskedName names_of_still (AsksStill (texts_of words.now)) name → F.admits name }
    ensures { RunsCommand
        (EndsByWords StillEnds (AsksStill (texts_of words.entry.now)) (F.state folder.old).files)
        (F.state folder.old) (F.state folder.new) (K.state out.old) (K.state out.new)
        (run_outcome result) }
{
    match read_words(alloc, words) {
        Ok(Command::Still(command)) => carry_out(rt, alloc, &command, folder, out, gate),
        Ok(Command::Waiting(_)) => Err(Stop::Words(WordsFault::Refused)),
        Err(fault) => Err(Stop::Words(fault)),
    }
}

/// Carries out a command that waits for nobody.
pub fn carry_out<'a, R: Threads + Sync, G: Gate, F: Folder, K: Sink>(
    rt: &R,
    alloc: Global,
    command: &StillCommand<'a>,
    folder: &mut F,
    out: &mut K,
    gate: &G,
) -> Result<(), Stop<'a>>
    requires { All F.admits (names_of_still command.now) }
    ensures { RunsCommand (StillEnds (F.state folder.old).files command.now)
        (F.state folder.old) (F.state folder.new) (K.state out.old) (K.state out.new)
        (run_outcome result) }
{
    match command {
        StillCommand::Single(asked) => single::run(rt, alloc, asked, folder, out, gate),
        StillCommand::Goal(asked) => single::run_goal(rt, alloc, asked, folder, out, gate),
        StillCommand::Check(files) => check::run(alloc, files, folder, out),
        StillCommand::Batch(asked) => batch::run(rt, alloc, asked, folder, out, gate),
        StillCommand::Gen(asked) => generate::run(rt, alloc, asked, out, gate),
        StillCommand::Prove(asked) => prove::run(rt, alloc, asked, folder, out, gate),
        StillCommand::Verify(asked) => verify::run(alloc, asked, folder, out),
    }
}
