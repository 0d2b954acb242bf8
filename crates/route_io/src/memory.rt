//! Forms in memory, which tell their bytes to contracts. Each fails at the calls whose numbers, from 0, it was given,
//! and a call gives or takes as many bytes as there are, or at most as many as `with_piece` says.
ghost use Rattle.std.specs.Prelude.{◌≡◌, ◌<◌, ◌≤◌, ◌↔◌, ◌⊎◌, [], Some, None, length, min, Err, IsErr, IfOk, OnOk};
ghost use Rattle.std.specs.Prelude.{OnErr};
ghost use Rattle.route_io.specs.Calls.{IsToFail, after_call, after_write, none_made};
ghost use Rattle.route_io.specs.Files.{first_of_name};
ghost use Rattle.route_io.specs.Forms.{IsFull, memory_folder_state, memory_sink_state, memory_source_state, room};
ghost use Rattle.route_io.specs.Sinks.{Writes};
ghost use Rattle.route_io.specs.Sources.{Reads, Selects};

use crate::calls::CallList;
use crate::selected::Selected;
pub use crate::shelf::NamedFile;
use crate::shelf::Shelf;
use crate::sure::{SureSink, SureSource};
use crate::{Failed, Folder, Sink, Source, WriteFault};
use std::alloc::Global;
use std::marker::Model;

/// Bytes in memory as a source.
#[derive(Drop)]
pub struct MemorySource {
    source: SureSource,
    piece: usize,
    calls: CallList,
}

impl Model for MemorySource {
    ghost use Rattle.std.specs.Prelude.{◌≤◌};
    ghost use Rattle.route_io.specs.Forms.{MemorySource};

    ghost Value = { MemorySource };

    ghost view = { λ s. record { left = s.source; piece = s.piece; calls = s.calls } };

    ghost invariant = { λ s. 1 ≤ s.piece };
}

impl MemorySource {
    /// A source of these bytes, whose calls of these numbers fail.
    pub fn new(bytes: Vec<u8>, fails: Vec<u64>) -> Self
        ensures left { result.left ≡ bytes.items }
        ensures piece { result.piece ≡ usize.MAX }
        ensures calls { result.calls ≡ none_made fails.items }
    {
        MemorySource {
            source: SureSource::new(bytes),
            piece: usize::MAX,
            calls: CallList::new(fails),
        }
    }

    /// The same source, whose reads give at most so many bytes.
    pub fn with_piece(mut self, size: usize) -> Self
        requires { 1 ≤ size }
        ensures { result ≡ record self { piece = size } }
    {
        self.piece = size;
        self
    }
}

impl Source for MemorySource {
    ghost state = { memory_source_state };

    fn read(&mut self, buf: &mut [u8]) -> Result<usize, Failed>
        ensures listed { IsErr result ↔ IsToFail self.old.calls }
        ensures counted { self.new.calls ≡ after_call self.old.calls result }
        ensures count { IfOk result (λ n. n
            ≡ min (min (length self.old.left) (length buf.old)) self.old.piece) }
        ensures same_piece { self.new.piece ≡ self.old.piece }
        ensures reads { Reads
            (memory_source_state self.old) (memory_source_state self.new) result buf.new }
    {
        self.calls.make()?;
        let fits = buf.len().min(self.piece);
        self.source.read(&mut buf[..fits])
    }
}

/// A sink in memory that takes no more bytes in all than its bound.
#[derive(Drop)]
pub struct MemorySink {
    sink: SureSink,
    bound: u64,
    piece: usize,
    calls: CallList,
}

impl Model for MemorySink {
    ghost use Rattle.std.specs.Prelude.{◌≤◌, length};
    ghost use Rattle.route_io.specs.Forms.{MemorySink};

    ghost Value = { MemorySink };

    ghost view = { λ s. record {
      sent = s.sink.sent;
      bound = s.bound;
      piece = s.piece;
      wants = s.sink.wants;
      calls = s.calls;
    } };

    ghost invariant = { λ s. (length s.sink.sent ≤ s.bound) × (1 ≤ s.piece) };
}

impl MemorySink {
    /// A sink whose calls of these numbers fail, and each call once it took `bound` bytes.
    pub fn new(alloc: Global, bound: u64, fails: Vec<u64>) -> Self
        ensures sent { result.sent ≡ [] }
        ensures bound { result.bound ≡ bound }
        ensures piece { result.piece ≡ usize.MAX }
        ensures wants { result.wants ≡ 0 }
        ensures calls { result.calls ≡ none_made fails.items }
    {
        MemorySink {
            sink: SureSink::new(alloc),
            bound,
            piece: usize::MAX,
            calls: CallList::new(fails),
        }
    }

    /// The same sink, whose writes take at most so many bytes.
    pub fn with_piece(mut self, size: usize) -> Self
        requires { 1 ≤ size }
        ensures { result ≡ record self { piece = size } }
    {
        self.piece = size;
        self
    }

    /// The bytes that it took.
    pub fn sent(&self) -> &[u8]
        ensures { result.now ≡ self.now.sent }
    {
        self.sink.sent()
    }
}

impl Sink for MemorySink {
    ghost state = { memory_sink_state };

    fn write(&mut self, piece: &[u8]) -> Result<usize, WriteFault>
        requires { 0 < length piece.now }
        ensures failed { (result ≡ Err WriteFault.Failed) ↔
            (IsToFail self.old.calls ⊎ IsFull self.old) }
        ensures counted { self.new.calls ≡ after_write self.old.calls result }

        // It takes what fits.
        ensures count { IfOk result (λ n. n ≡ min (length piece.now) (room self.old)) }
        ensures within_bound { length self.new.sent ≤ self.new.bound }
        ensures same_bound { self.new.bound ≡ self.old.bound }
        ensures same_piece { self.new.piece ≡ self.old.piece }
        ensures writes { Writes
            (memory_sink_state self.old) (memory_sink_state self.new) piece.now result }
    {
        if self.calls.make().is_err() {
            return Err(WriteFault::Failed);
        }
        let room = self.bound - self.sink.sent().len() as u64;
        if room == 0 {
            self.calls.fail();
            return Err(WriteFault::Failed);
        }
        let fits = piece.len().min(room as usize).min(self.piece);
        self.sink.write(&piece[..fits])
    }
}

/// Files in memory as a folder. Selections and reads are numbered together.
#[derive(Drop)]
pub struct MemoryFolder {
    shelf: Shelf,
    selected: Option<Selected>,
    piece: usize,
    calls: CallList,
}

impl Model for MemoryFolder {
    ghost use Rattle.std.specs.Prelude.{◌≤◌, option_map};
    ghost use Rattle.route_io.specs.Forms.{MemoryFolder};

    ghost Value = { MemoryFolder };

    ghost view = { λ f. record {
      files = f.shelf.files;
      selected = option_map (λ selected. selected.name) f.selected;
      left = f.shelf.left;
      piece = f.piece;
      calls = f.calls;
    } };

    ghost invariant = { λ f. 1 ≤ f.piece };
}

impl MemoryFolder {
    /// A folder of these files, whose calls of these numbers fail.
    pub fn new(files: Vec<NamedFile>, fails: Vec<u64>) -> Self
        ensures files { result.files ≡ files.items }
        ensures unasked { result.selected ≡ None }
        ensures closed { result.left ≡ [] }
        ensures piece { result.piece ≡ usize.MAX }
        ensures calls { result.calls ≡ none_made fails.items }
    {
        MemoryFolder {
            shelf: Shelf::new(files),
            selected: None,
            piece: usize::MAX,
            calls: CallList::new(fails),
        }
    }

    /// The same folder, whose reads give at most so many bytes.
    pub fn with_piece(mut self, size: usize) -> Self
        requires { 1 ≤ size }
        ensures { result ≡ record self { piece = size } }
    {
        self.piece = size;
        self
    }
}

impl Source for MemoryFolder {
    ghost state = { memory_folder_state };

    fn read(&mut self, buf: &mut [u8]) -> Result<usize, Failed>
        ensures listed { IsErr result ↔ IsToFail self.old.calls }
        ensures counted { self.new.calls ≡ after_call self.old.calls result }
        ensures count { IfOk result (λ n. n
            ≡ min (min (length self.old.left) (length buf.old)) self.old.piece) }
        ensures same_files { self.new.files ≡ self.old.files }
        ensures same_piece { self.new.piece ≡ self.old.piece }
        ensures reads { Reads
            (memory_folder_state self.old) (memory_folder_state self.new) result buf.new }
    {
        self.calls.make()?;
        let fits = buf.len().min(self.piece);
        Ok(self.shelf.give(&mut buf[..fits]))
    }
}

impl Folder for MemoryFolder {
    ghost admits = { λ _. Unit {0} };

    fn select(&mut self, name: &str) -> Result<(), Failed>
        ensures failed { IsErr result ↔
            (IsToFail self.old.calls ⊎ (first_of_name self.old.files name.now ≡ None)) }
        ensures counted { self.new.calls ≡ after_call self.old.calls result }
        ensures same_files { self.new.files ≡ self.old.files }
        ensures same_piece { self.new.piece ≡ self.old.piece }
        ensures selects { Selects
            (memory_folder_state self.old) (memory_folder_state self.new) name.now result }
    {
        self.selected = Some(Selected::of(name.as_bytes()));
        self.shelf.close();
        self.calls.make()?;
        if self.shelf.open(name).is_err() {
            self.calls.fail();
            return Err(Failed);
        }
        Ok(())
    }
}
