//! The host's streams as links. What they give and take is the network's, of which contracts know nothing.
ghost use Rattle.std.specs.Prelude.{◌≡◌, ◌<◌, None, IfErr, IfOk, OnErr, length};
ghost use Rattle.route_io.specs.Causes.{count_up};
ghost use Rattle.route_io.specs.Forms.{reader_state, writer_state};
ghost use Rattle.route_io.specs.Sinks.{Writes};
ghost use Rattle.route_io.specs.Sources.{Reads};

use route_io::host::{read_some, write_some};
use route_io::{Failed, Link, Sink, Source, WriteFault};
use std::io;
use std::marker::Model;
use std::net::{Shutdown, TcpStream};
use std::os::unix::net::UnixStream;
use std::time::Duration;

/// A connection, by what it was asked for.
#[derive(Drop)]
pub(crate) enum HostStream {
    Tcp(TcpStream),
    SocketFile(UnixStream),
}

impl HostStream {
    /// Has a read or a write that takes longer than this fail.
    pub(crate) fn set_patience(&self, patience: Option<Duration>) -> io::Result<()> {
        match self {
            HostStream::Tcp(stream) => {
                stream.set_read_timeout(patience)?;
                stream.set_write_timeout(patience)
            }
            HostStream::SocketFile(stream) => {
                stream.set_read_timeout(patience)?;
                stream.set_write_timeout(patience)
            }
        }
    }

    fn try_clone(&self) -> io::Result<HostStream> {
        match self {
            HostStream::Tcp(stream) => Ok(HostStream::Tcp(stream.try_clone()?)),
            HostStream::SocketFile(stream) => Ok(HostStream::SocketFile(stream.try_clone()?)),
        }
    }
}

/// What a peer sends. It counts each error of the system, of whatever kind.
#[derive(Drop)]
pub struct StreamSource {
    stream: HostStream,
    faults: u64,
}

impl Model for StreamSource {
    ghost use Rattle.std.specs.Prelude.{ℕ};

    ghost Value = { ℕ };

    ghost view = { λ s. s.faults };
}

impl Source for StreamSource {
    ghost state = { reader_state None };

    fn read(&mut self, buf: &mut [u8]) -> Result<usize, Failed>
        ensures counted { OnErr result (self.new ≡ count_up self.old) }
        ensures reads { Reads
            (reader_state None self.old) (reader_state None self.new) result buf.new }
    {
        match &mut self.stream {
            HostStream::Tcp(stream) => read_some(stream, &mut self.faults, buf),
            HostStream::SocketFile(stream) => read_some(stream, &mut self.faults, buf),
        }
    }
}

/// What is sent to a peer. It counts each error of the system, of whatever kind.
#[derive(Drop)]
pub struct StreamSink {
    stream: HostStream,
    faults: u64,
}

impl Model for StreamSink {
    ghost use Rattle.std.specs.Prelude.{ℕ};

    ghost Value = { ℕ };

    ghost view = { λ s. s.faults };
}

impl Sink for StreamSink {
    ghost state = { writer_state None };

    fn write(&mut self, piece: &[u8]) -> Result<usize, WriteFault>
        requires { 0 < length piece.now }
        ensures never_wants { IfErr result (λ fault. fault ≡ WriteFault.Failed) }
        ensures counted { OnErr result (self.new ≡ count_up self.old) }
        ensures writes { Writes
            (writer_state None self.old) (writer_state None self.new) piece.now result }
    {
        match &mut self.stream {
            HostStream::Tcp(stream) => write_some(stream, &mut self.faults, piece),
            HostStream::SocketFile(stream) => write_some(stream, &mut self.faults, piece),
        }
    }
}

/// A connection, whose halves share its stream.
pub type HostLink = Link<StreamSource, StreamSink>;

/// A link over this stream.
pub(crate) fn link_over(stream: HostStream) -> io::Result<HostLink>
    ensures { IfOk result (λ link. (link.from ≡ 0) × (link.to ≡ 0)) }
{
    let to = stream.try_clone()?;
    Ok(Link {
        from: StreamSource { stream, faults: 0 },
        to: StreamSink {
            stream: to,
            faults: 0,
        },
    })
}

/// Tells the peer that nothing more is sent, so that it reads to the end, and lets go of the stream.
pub(crate) fn close(link: HostLink) {
    let _ = match &link.to.stream {
        HostStream::Tcp(stream) => stream.shutdown(Shutdown::Write),
        HostStream::SocketFile(stream) => stream.shutdown(Shutdown::Write),
    };
}
