//! Forms in memory that fail at a missing name alone. They tell their bytes to contracts.
ghost use Rattle.std.specs.Prelude.{◌≡◌, ◌≢◌, ◌<◌, ◌↔◌, [], Some, None, Ok, Err, length, min, IsErr, IfOk, OnOk, OnErr};
ghost use Rattle.route_io.specs.Causes.{count_up};
ghost use Rattle.route_io.specs.Files.{first_of_name};
ghost use Rattle.route_io.specs.Forms.{sure_folder_state, sure_sink_state, sure_source_state};
ghost use Rattle.route_io.specs.Sinks.{Writes};
ghost use Rattle.route_io.specs.Sources.{Reads, Selects};

use crate::calls::count;
use crate::front::copy_front;
use crate::selected::Selected;
use crate::shelf::{NamedFile, Shelf};
use crate::{Failed, Folder, Sink, Source, WriteFault};
use std::alloc::Global;
use std::marker::Model;

/// Bytes in memory as a source that never fails.
#[derive(Drop)]
pub struct SureSource {
    bytes: Vec<u8>,
    given: usize,
}

impl Model for SureSource {
    ghost use Rattle.std.specs.Prelude.{ℕ, ◌≤◌, List, drop, vec_len};

    ghost Value = { List ℕ };

    ghost view = { λ s. drop s.given s.bytes.items };

    ghost invariant = { λ s. s.given ≤ vec_len s.bytes };
}

impl SureSource {
    /// A source of these bytes.
    pub fn new(bytes: Vec<u8>) -> Self
        ensures { result ≡ bytes.items }
    {
        SureSource { bytes, given: 0 }
    }
}

impl Source for SureSource {
    ghost state = { sure_source_state };

    fn read(&mut self, buf: &mut [u8]) -> Result<usize, Failed>
        ensures never_fails { result ≡ Ok (min (length self.old) (length buf.old)) }
        ensures reads { Reads
            (sure_source_state self.old) (sure_source_state self.new) result buf.new }
    {
        let given = copy_front(&self.bytes[self.given..], buf);
        self.given += given;
        Ok(given)
    }
}

/// A sink in memory that never fails. It may want memory.
#[derive(Drop)]
pub struct SureSink {
    sent: Vec<u8>,
    wants: u64,
}

impl Model for SureSink {
    ghost use Rattle.route_io.specs.Forms.{SureSink};

    ghost Value = { SureSink };

    ghost view = { λ s. record { sent = s.sent.items; wants = s.wants } };
}

impl SureSink {
    /// A sink that took nothing yet.
    pub fn new(alloc: Global) -> Self
        ensures sent { result.sent ≡ [] }
        ensures wants { result.wants ≡ 0 }
    {
        SureSink {
            sent: Vec::new(alloc),
            wants: 0,
        }
    }

    /// The bytes that it took.
    pub fn sent(&self) -> &[u8]
        ensures { result.now ≡ self.now.sent }
    {
        &self.sent
    }
}

impl Sink for SureSink {
    ghost state = { sure_sink_state };

    fn write(&mut self, piece: &[u8]) -> Result<usize, WriteFault>
        requires { 0 < length piece.now }
        ensures never_fails { result ≢ Err WriteFault.Failed }
        ensures whole { IfOk result (λ n. n ≡ length piece.now) }
        ensures writes { Writes
            (sure_sink_state self.old) (sure_sink_state self.new) piece.now result }
    {
        if let Err(want) = self.sent.extend_from_slice(piece) {
            count(&mut self.wants);
            return Err(WriteFault::OutOfMemory(want.into()));
        }
        Ok(piece.len())
    }
}

/// Files in memory as a folder that fails at a missing name alone.
#[derive(Drop)]
pub struct SureFolder {
    shelf: Shelf,
    selected: Option<Selected>,
    missing: u64,
}

impl Model for SureFolder {
    ghost use Rattle.std.specs.Prelude.{option_map};
    ghost use Rattle.route_io.specs.Forms.{SureFolder};

    ghost Value = { SureFolder };

    ghost view = { λ f. record {
      files = f.shelf.files;
      selected = option_map (λ selected. selected.name) f.selected;
      left = f.shelf.left;
      missing = f.missing;
    } };
}

impl SureFolder {
    /// A folder of these files, of which none is selected yet.
    pub fn new(files: Vec<NamedFile>) -> Self
        ensures files { result.files ≡ files.items }
        ensures unasked { result.selected ≡ None }
        ensures closed { result.left ≡ [] }
        ensures missing { result.missing ≡ 0 }
    {
        SureFolder {
            shelf: Shelf::new(files),
            selected: None,
            missing: 0,
        }
    }
}

impl Source for SureFolder {
    ghost state = { sure_folder_state };

    fn read(&mut self, buf: &mut [u8]) -> Result<usize, Failed>
        ensures never_fails { result ≡ Ok (min (length self.old.left) (length buf.old)) }
        ensures same_files { self.new.files ≡ self.old.files }
        ensures same_count { self.new.missing ≡ self.old.missing }
        ensures reads { Reads
            (sure_folder_state self.old) (sure_folder_state self.new) result buf.new }
    {
        Ok(self.shelf.give(buf))
    }
}

impl Folder for SureFolder {
    ghost admits = { λ _. Unit {0} };

    fn select(&mut self, name: &str) -> Result<(), Failed>
        ensures missing { IsErr result ↔ (first_of_name self.old.files name.now ≡ None) }
        ensures counted { OnErr result (self.new.missing ≡ count_up self.old.missing) }
        ensures same_files { self.new.files ≡ self.old.files }
        ensures selects { Selects
            (sure_folder_state self.old) (sure_folder_state self.new) name.now result }
    {
        self.selected = Some(Selected::of(name.as_bytes()));
        let opened = self.shelf.open(name);
        if opened.is_err() {
            count(&mut self.missing);
        }
        opened
    }
}
