//! The program: it hands the host's words, files and streams to the top call, and ends with its status.
#![tactic(auto)]

ghost use Rattle.std.specs.Prelude.{◌≡◌};

use link_doors::HostTown;
use route_io::host::{HostFolder, HostSink};
use route_io::{Sink, put_all};
use route_top::{WANT_OF_MEMORY, route};
use std::env::{self, Env};
use std::io;
use std::process::ExitCode;
use work_claim::OpenGate;

fn main(rt: HostRuntime) -> ExitCode {
    let alloc = rt.alloc();
    let words = words(&rt);
    let mut out = HostSink::new(rt.stdout());
    let mut err = HostSink::new(rt.stderr());
    let mut folder = HostFolder::new(&rt);
    let mut town = HostTown::new(alloc, &rt);
    let gate = OpenGate;
    let status = match words {
        Ok(words) => route(
            &rt,
            alloc,
            &words,
            &mut folder,
            &mut out,
            &mut err,
            &mut town,
            &gate,
        ),
        Err(fault) if fault.kind() == io::ErrorKind::OutOfMemory => want_memory(&mut err),
        // An argument isn't text: the words are those of no command, as no words are.
        Err(_) => route(
            &rt,
            alloc,
            &[],
            &mut folder,
            &mut out,
            &mut err,
            &mut town,
            &gate,
        ),
    };
    ExitCode::from(status)
}

/// The words after the program's name.
fn words(rt: &(impl Env + AllocGlobal)) -> io::Result<Vec<String>> {
    let mut words = Vec::new(rt.alloc());
    for word in env::args(rt)?.skip(1) {
        words.push(word)?;
    }
    Ok(words)
}

/// Memory ran out before the words were read.
fn want_memory<E: Sink>(err: &mut E) -> u8
    ensures { result ≡ WANT_OF_MEMORY }
{
    let _ = put_all(err, b"route: memory\n");
    WANT_OF_MEMORY
}
