use route_io::host::{HostFolder, HostSink};
use route_io::memory::{MemoryFolder, MemorySink, MemorySource, NamedFile};
use route_io::sure::{SureFolder, SureSink, SureSource};
use route_io::{Folder, Sink, Source, WriteFault, put_all};
use std::alloc::{AllocError, Global};
use std::fmt::Display;
use std::fs::{self, File, OpenOptions};
use std::io::{self, Print, Write};

fn file(alloc: Global, name: &str, bytes: &[u8]) -> Result<NamedFile, AllocError> {
    Ok(NamedFile {
        name: String::from_str(alloc, name)?,
        bytes: bytes.to_vec(alloc)?,
    })
}

fn two_files(alloc: Global) -> Result<Vec<NamedFile>, AllocError> {
    Ok(vec![in alloc; file(alloc, "a", &[1, 2, 3])?, file(alloc, "b", &[4])?]?)
}

/// How many bytes each of three reads gives into a buffer of two, with `None` for a failure.
fn three_reads<S: Source>(source: &mut S) -> [Option<usize>; 3] {
    let mut buf = [0; 2];
    let first = source.read(&mut buf).ok();
    let second = source.read(&mut buf).ok();
    [first, second, source.read(&mut buf).ok()]
}

/// Whether there is a file of a name, and what three reads give then.
type Reads = (bool, [Option<usize>; 3]);

fn reads_of<F: Folder>(folder: &mut F, name: &str) -> Reads
    requires { F.admits name.now }
{
    let is_there = folder.select(name).is_ok();
    (is_there, three_reads(folder))
}

/// The reads of the file of this name in a folder that gives pieces of this size.
fn reads_in_pieces(alloc: Global, piece: usize, name: &str) -> Result<Reads, AllocError> {
    let folder = MemoryFolder::new(two_files(alloc)?, Vec::new(alloc));
    Ok(reads_of(&mut folder.with_piece(piece.max(1)), name))
}

/// The reads of two files of a folder, one after the other.
fn reads_of_two(alloc: Global) -> Result<[Reads; 2], AllocError> {
    let mut folder = MemoryFolder::new(two_files(alloc)?, Vec::new(alloc));
    let first = reads_of(&mut folder, "a");
    Ok([first, reads_of(&mut folder, "b")])
}

#[test]
fn a_folder_gives_its_files_in_pieces(rt: HostRuntime) {
    let wanted = [
        (true, [Some(2), Some(1), Some(0)]),
        (true, [Some(1), Some(0), Some(0)]),
    ];
    assert!(rt; reads_of_two(rt.alloc()) == Ok(wanted), "two bytes a read");
    let wanted = (true, [Some(1), Some(1), Some(1)]);
    assert!(rt;
        reads_in_pieces(rt.alloc(), 1, "a") == Ok(wanted),
        "a byte a read"
    );
}

/// The reads of a source of three bytes in pieces of this size, of which that of this number fails.
fn source_reads(
    alloc: Global,
    piece: usize,
    failing: u64,
) -> Result<[Option<usize>; 3], AllocError> {
    let fails = vec![in alloc; failing]?;
    let source = MemorySource::new([7, 8, 9].to_vec(alloc)?, fails);
    Ok(three_reads(&mut source.with_piece(piece.max(1))))
}

#[test]
fn a_source_gives_pieces_and_fails_where_it_is_told(rt: HostRuntime) {
    let alloc = rt.alloc();
    assert!(rt;
        source_reads(alloc, 1, 9) == Ok([Some(1); 3]),
        "a byte a read"
    );
    assert!(rt;
        source_reads(alloc, 8, 1) == Ok([Some(2), None, Some(1)]),
        "the second fails"
    );
}

/// The reads of a file that is there, and then of one that isn't.
fn sure_folder_reads(alloc: Global) -> Result<[Reads; 2], AllocError> {
    let mut folder = SureFolder::new(two_files(alloc)?);
    let first = reads_of(&mut folder, "a");
    Ok([first, reads_of(&mut folder, "c")])
}

#[test]
fn a_missing_name_leaves_nothing(rt: HostRuntime) {
    let wanted = [
        (true, [Some(2), Some(1), Some(0)]),
        (false, [Some(0), Some(0), Some(0)]),
    ];
    assert!(rt;
        sure_folder_reads(rt.alloc()) == Ok(wanted),
        "the second name is missing"
    );
}

fn sure_reads(alloc: Global) -> Result<[Option<usize>; 3], AllocError> {
    Ok(three_reads(&mut SureSource::new([7].to_vec(alloc)?)))
}

#[test]
fn a_sure_source_ends(rt: HostRuntime) {
    assert!(rt;
        sure_reads(rt.alloc()) == Ok([Some(1), Some(0), Some(0)]),
        "a byte"
    );
}

fn takes<S: Sink>(sink: &mut S, text: &[u8]) -> bool {
    put_all(sink, text).is_ok()
}

fn fails<S: Sink>(sink: &mut S, text: &[u8]) -> bool {
    put_all(sink, text) == Err(WriteFault::Failed)
}

#[test]
fn pieces_of_a_sink_have_their_size(rt: HostRuntime) {
    let mut sink = MemorySink::new(rt.alloc(), 5, Vec::new(rt.alloc())).with_piece(2);
    assert!(rt; matches!(sink.write(b"abc"), Ok(2)), "two bytes of three");
    assert!(rt; takes(&mut sink, b"cde"), "the rest");
    assert!(rt; sink.sent() == b"abcde".as_slice(), "all bytes");
}

#[test]
fn a_bound_cuts_the_text(rt: HostRuntime) {
    let mut sink = MemorySink::new(rt.alloc(), 3, Vec::new(rt.alloc()));
    assert!(rt; fails(&mut sink, b"abcde"), "five bytes");
    assert!(rt; sink.sent() == b"abc".as_slice(), "three are taken");
}

#[test]
fn a_sure_sink_takes_the_whole_text(rt: HostRuntime) {
    let mut sink = SureSink::new(rt.alloc());
    assert!(rt; takes(&mut sink, b"ab"), "two bytes");
    assert!(rt; takes(&mut sink, b"c"), "a third");
    assert!(rt; sink.sent() == b"abc".as_slice(), "all three");
}

fn writes(rt: &HostRuntime, name: &str, text: &str) -> bool {
    fs::write(rt, name, text).is_ok()
}

fn removes(rt: &HostRuntime, name: &str) -> bool {
    fs::remove_file(rt, name).is_ok()
}

#[test]
fn a_file_of_the_host_is_read(rt: HostRuntime) {
    let name = "route_io_host.txt";
    let mut folder = HostFolder::new(rt);
    assert!(rt; writes(&rt, name, "abc"), "written");
    let wanted = (true, [Some(2), Some(1), Some(0)]);
    assert!(rt; reads_of(&mut folder, name) == wanted, "while it is there");
    assert!(rt; removes(&rt, name), "removed");
    let wanted = (false, [Some(0), Some(0), Some(0)]);
    assert!(rt; reads_of(&mut folder, name) == wanted, "when it is gone");
}

/// Whether a read of the file of this name gives this byte alone.
fn has_byte<F: Folder>(folder: &mut F, name: &str, byte: u8) -> bool
    requires { F.admits name.now }
{
    let mut buf = [0; 2];
    let is_there = folder.select(name).is_ok();
    let got = folder.read(&mut buf);
    is_there && got == Ok(1) && buf == [byte, 0]
}

#[test]
fn the_named_file_of_the_host_is_opened(rt: HostRuntime) {
    let (one, other) = ("route_io_a.txt", "route_io_b.txt");
    assert!(rt; writes(&rt, one, "a"), "the first is written");
    assert!(rt; writes(&rt, other, "b"), "the second is written");
    let mut folder = HostFolder::new(rt);
    assert!(rt;
        has_byte(&mut folder, one, b'a'),
        "the first has its own byte"
    );
    assert!(rt;
        has_byte(&mut folder, other, b'b'),
        "the second has its own byte"
    );
    assert!(rt; removes(&rt, one), "the first is removed");
    assert!(rt; removes(&rt, other), "the second is removed");
}

#[test]
fn a_folder_in_place_of_a_file_is_a_fault(rt: HostRuntime) {
    let got = reads_of(&mut HostFolder::new(rt), ".");
    assert!(rt; got == (true, [None, None, None]), "each read fails");
}

/// Prints at most so many bytes at a time.
#[derive(Drop)]
struct Narrow(usize);

impl Print for Narrow {
    fn print<D: Display + Drop>(&self, _value: D) -> io::Result<()> {
        Ok(())
    }

    fn println<D: Display + Drop>(&self, _value: D) -> io::Result<()> {
        Ok(())
    }

    fn write_all(&self, _bytes: &[u8]) -> io::Result<()> {
        Ok(())
    }

    fn write_some(&self, bytes: &[u8]) -> io::Result<usize> {
        Ok(bytes.len().min(self.0))
    }
}

#[test]
fn a_print_of_no_bytes_is_a_fault(rt: HostRuntime) {
    assert!(rt;
        takes(&mut HostSink::new(Narrow(2)), b"abc"),
        "two bytes a print"
    );
    assert!(rt;
        fails(&mut HostSink::new(Narrow(0)), b"abc"),
        "no bytes a print"
    );
}

/// Prints to a file.
#[derive(Drop)]
struct ToFile(File);

impl Print for ToFile {
    fn print<D: Display + Drop>(&self, _value: D) -> io::Result<()> {
        Ok(())
    }

    fn println<D: Display + Drop>(&self, _value: D) -> io::Result<()> {
        Ok(())
    }

    fn write_all(&self, bytes: &[u8]) -> io::Result<()> {
        (&self.0).write_all(bytes)
    }

    fn write_some(&self, bytes: &[u8]) -> io::Result<usize> {
        (&self.0).write(bytes)
    }
}

/// Whether the file of this name has the text.
fn has_text(rt: &HostRuntime, name: &str) -> bool {
    match fs::read(rt, name) {
        Ok(got) => got.as_slice() == b"abc".as_slice(),
        Err(_) => false,
    }
}

/// Whether a sink to a file takes the text, and the file has it while the sink is open.
fn is_kept_at_once(rt: &HostRuntime, name: &str) -> io::Result<bool> {
    let mut sink = HostSink::new(ToFile(File::create(rt, name)?));
    let is_taken = takes(&mut sink, b"abc");
    Ok(has_text(rt, name) && is_taken)
}

#[test]
fn what_the_host_took_is_kept_at_once(rt: HostRuntime) {
    let name = "route_io_sink.txt";
    assert!(rt;
        matches!(is_kept_at_once(&rt, name), Ok(true)),
        "the file has the text"
    );
    assert!(rt; removes(&rt, name), "the file is removed");
}

#[test]
fn a_full_device_is_a_fault(rt: HostRuntime) {
    let is_fault = match OpenOptions::new().write(true).open(&rt, "/dev/full") {
        Ok(full) => fails(&mut HostSink::new(ToFile(full)), b"abc"),
        Err(_) => false,
    };
    assert!(rt; is_fault, "nothing is taken");
}

fn takes_sent<T: Send + Drop>(_value: T) {}

#[test]
fn sources_and_sinks_can_go_to_threads(rt: HostRuntime) {
    let alloc = rt.alloc();
    takes_sent(MemorySource::new(Vec::new(alloc), Vec::new(alloc)));
    takes_sent(MemorySink::new(alloc, 3, Vec::new(alloc)));
}
