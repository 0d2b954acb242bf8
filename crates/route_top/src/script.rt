//! The scripts of lanes, each of which is read whole.
ghost use Rattle.std.specs.Prelude.{◌≡◌, IfOk};
ghost use Rattle.std.specs.String.{string_bytes};
ghost use Rattle.route_io.specs.Sources.{ReadsFiles, ReadsFrom};
ghost use Rattle.still_commands.specs.Outcome.{failed_file};
ghost use Rattle.still_commands.specs.Stops.{run_outcome, script_name};
ghost use Rattle.route_top.specs.Scripts.{ScriptRead, WholeRead, script_failed};

use out_of_memory::OutOfMemory;
use route_io::{Folder, Source};
use std::alloc::Global;
use still_commands::{Script, ScriptFault, Stop};

/// The most bytes of a script.
const MAX_SCRIPT: usize = 1 << 24;
/// The most bytes of one read.
const PIECE: usize = 1 << 13;

/// Reads a script whole.
pub(crate) fn read_script<'a, F: Folder>(
    alloc: Global,
    folder: &mut F,
    script: Script<'a>,
) -> Result<Vec<u8>, Stop<'a>>
    requires { F.admits (script_name script) }
    ensures read { ScriptRead (F.state folder.old).files (script_name script.entry) result }
    ensures folder { ReadsFiles (F.state folder.old) (F.state folder.new)
        (failed_file (run_outcome result)) }
{
    let name = name_of(alloc, script)?;
    let Ok(()) = folder.select(name.as_str()) else {
        let fault = ScriptFault::Folder;
        return Err(Stop::Script { script, fault });
    };
    match read_whole(alloc, folder) {
        Ok(bytes) => Ok(bytes),
        Err(fault) => Err(Stop::Script { script, fault }),
    }
}

/// The name of a script.
fn name_of(alloc: Global, script: Script<'_>) -> Result<String, OutOfMemory>
    ensures { IfOk result (λ name. string_bytes name ≡ script_name script.entry) }
{
    match script {
        Script::Operator { name } => Ok(String::from_str(alloc, name)?),
        Script::Session { stem, number } => Ok(format!(in alloc; "{stem}{number}")?),
    }
}

/// Reads all that is left, unless that is more than a script may have.
fn read_whole<S: Source>(alloc: Global, source: &mut S) -> Result<Vec<u8>, ScriptFault>
    ensures read { WholeRead (S.state source.old).left result }
    ensures source { ReadsFrom (S.state source.old) (S.state source.new) (script_failed result) }
{
    let mut bytes = Vec::new(alloc);
    let mut buffer = [0; PIECE];
    while bytes.len() <= MAX_SCRIPT {
        let room = PIECE.min(MAX_SCRIPT + 1 - bytes.len());
        let Ok(taken) = source.read(&mut buffer[..room]) else {
            return Err(ScriptFault::Folder);
        };
        if taken == 0 {
            return Ok(bytes);
        }
        if let Err(want) = bytes.extend_from_slice(&buffer[..taken]) {
            return Err(ScriptFault::OutOfMemory(want.into()));
        }
    }
    Err(ScriptFault::TooLong)
}
