//! Forms of the host: its files, and what it prints to. They tell of content what the runtime's files and writers tell:
//! those of the real host nothing.
ghost use Rattle.std.specs.Prelude.{◌≡◌, ◌<◌, ◌≤◌, [], None, Some, Ok, false, is_err, is_ok, length, IfOk, IfErr};
ghost use Rattle.std.specs.Prelude.{OnErr};
ghost use Rattle.route_io.specs.Causes.{IsCounted, count_up};
ghost use Rattle.route_io.specs.Forms.{host_folder_state, reader_state, writer_state};
ghost use Rattle.route_io.specs.Sinks.{Writes};
ghost use Rattle.route_io.specs.Sources.{Reads, Selects};

use crate::calls::count;
use crate::selected::Selected;
use crate::{Failed, Folder, Sink, Source, WriteFault};
use std::fs::{self, Files};
use std::io::{self, Print, Read, Write};
use std::marker::Model;

/// The files of the host by their paths. It counts each error of the system, of whatever kind.
#[derive(Drop)]
pub struct HostFolder<R: Files> {
    rt: R,
    selected: Option<Selected>,
    file: Option<R::File>,
    faults: u64,
}

impl<R: Files> Model for HostFolder<R> {
    ghost use Rattle.std.specs.Prelude.{is_some, option_map};
    ghost use Rattle.route_io.specs.Forms.{HostFolder, open_left};

    ghost Value = { HostFolder };

    ghost view = { λ f. record {
      selected = option_map (λ selected. selected.name) f.selected;
      left = open_left R.File.remaining f.file;
      is_open = is_some f.file;
      faults = f.faults;
    } };
}

impl<R: Files> HostFolder<R> {
    /// The files that this part of the runtime opens, with none open yet.
    pub fn new(rt: R) -> Self
        ensures unasked { result.selected ≡ None }
        ensures closed { result.is_open ≡ false }
        ensures nothing_left { result.left ≡ Some [] }
        ensures no_faults { result.faults ≡ 0 }
    {
        HostFolder {
            rt,
            selected: None,
            file: None,
            faults: 0,
        }
    }
}

impl<R: Files> Source for HostFolder<R> {
    ghost state = { host_folder_state };

    fn read(&mut self, buf: &mut [u8]) -> Result<usize, Failed>
        ensures closed_is_empty { self.old.is_open ≡ false → result ≡ Ok 0 }
        ensures stays { self.new.is_open ≡ self.old.is_open }
        ensures counted { OnErr result (self.new.faults ≡ count_up self.old.faults) }
        ensures reads { Reads
            (host_folder_state self.old) (host_folder_state self.new) result buf.new }
    {
        let Some(file) = &mut self.file else {
            return Ok(0);
        };
        read_some(file, &mut self.faults, buf)
    }
}

impl<R: Files> Folder for HostFolder<R> {
    ghost admits = { λ _. Unit {0} };

    fn select(&mut self, name: &str) -> Result<(), Failed>
        ensures opens { self.new.is_open ≡ is_ok result }
        ensures counted { OnErr result (self.new.faults ≡ count_up self.old.faults) }
        ensures selects { Selects
            (host_folder_state self.old) (host_folder_state self.new) name.now result }
    {
        self.selected = Some(Selected::of(name.as_bytes()));
        self.file = None;
        match fs::open(&self.rt, name) {
            Ok(file) => {
                self.file = Some(file);
                Ok(())
            }
            Err(_) => {
                count(&mut self.faults);
                Err(Failed)
            }
        }
    }
}

/// What the host prints to, which keeps nothing back. It counts each error of the system, of whatever kind.
#[derive(Drop)]
pub struct HostSink<P: Print> {
    to: P,
    faults: u64,
}

impl<P: Print> Model for HostSink<P> {
    ghost use Rattle.std.specs.Prelude.{ℕ};

    ghost Value = { ℕ };

    ghost view = { λ s. s.faults };
}

impl<P: Print> HostSink<P> {
    /// A sink to standard output, `rt.stdout()`, or to standard error, `rt.stderr()`.
    pub fn new(to: P) -> Self
        ensures no_faults { result ≡ 0 }
    {
        HostSink { to, faults: 0 }
    }
}

impl<P: Print> Sink for HostSink<P> {
    ghost state = { writer_state None };

    fn write(&mut self, piece: &[u8]) -> Result<usize, WriteFault>
        requires { 0 < length piece.now }
        ensures never_wants { IfErr result (λ fault. fault ≡ WriteFault.Failed) }
        ensures counted { OnErr result (self.new ≡ count_up self.old) }
        ensures writes { Writes
            (writer_state None self.old) (writer_state None self.new) piece.now result }
    {
        write_some(&mut io::writer(&self.to), &mut self.faults, piece)
    }
}

/// Writes some of a piece from its front. A write that takes nothing is an error too.
pub fn write_some<W: Write>(to: &mut W, faults: &mut u64, piece: &[u8]) -> Result<usize, WriteFault>
    requires { 0 < length piece.now }
    ensures never_wants { IfErr result (λ fault. fault ≡ WriteFault.Failed) }
    ensures counted { OnErr result (faults.new ≡ count_up faults.old) }
    ensures writes { Writes (writer_state (W.contents to.old) faults.old)
        (writer_state (W.contents to.new) faults.new) piece.now result }
{
    match to.write(piece) {
        Ok(taken) if taken > 0 => Ok(taken),
        _ => {
            count(faults);
            Err(WriteFault::Failed)
        }
    }
}

/// Reads some bytes from the front of what is left. 0 is the end of input.
pub fn read_some<R: Read>(from: &mut R, faults: &mut u64, buf: &mut [u8]) -> Result<usize, Failed>
    ensures counted { OnErr result (faults.new ≡ count_up faults.old) }
    ensures reads { Reads (reader_state (R.remaining from.old) faults.old)
        (reader_state (R.remaining from.new) faults.new) result buf.new }
{
    match from.read(buf) {
        Ok(taken) => Ok(taken),
        Err(_) => {
            count(faults);
            Err(Failed)
        }
    }
}
