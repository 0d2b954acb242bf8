//! The addresses of the host: a host's name or number and a port of TCP's, or the path of a socket file.
ghost use Rattle.std.specs.Prelude.{◌≡◌, IfOk};

use crate::stream::{HostLink, HostStream, link_over};
use std::alloc::Global;
use std::fs::{self, Files, Permissions};
use std::io;
use std::net::{Net, TcpListener, TcpStream};
use std::os::unix::fs::{FileTypeExt, PermissionsExt};
use std::os::unix::net::{UnixListener, UnixStream};
use std::time::Duration;

/// What an address of a socket file begins with; its path comes behind it.
const SOCKET_FILE: &str = "unix:";

/// Who may ask a socket file for a link: its owner alone.
const OWNER_ALONE: u32 = 0o600;

/// What listens at an address.
#[derive(Drop)]
pub(crate) enum HostListener {
    Tcp(TcpListener),
    SocketFile(UnixListener),
}

impl HostListener {
    /// Listens at an address, and lists the socket file that it made.
    pub(crate) fn bind<R: Net<Listener = TcpListener, Stream = TcpStream> + Files>(
        rt: &R,
        alloc: Global,
        address: &str,
        made: &mut Vec<String>,
    ) -> io::Result<HostListener> {
        match address.strip_prefix(SOCKET_FILE) {
            Some(path) => {
                let path = String::from_str(alloc, path)?;
                Ok(HostListener::SocketFile(bind_file(rt, path, made)?))
            }
            None => Ok(HostListener::Tcp(TcpListener::bind(rt, address)?)),
        }
    }

    /// The same listener once more.
    pub(crate) fn try_clone(&self) -> io::Result<HostListener> {
        match self {
            HostListener::Tcp(listener) => Ok(HostListener::Tcp(listener.try_clone()?)),
            HostListener::SocketFile(listener) => Ok(HostListener::SocketFile(
                listener.try_clone()?,
            )),
        }
    }

    /// Waits for a connection, of which a read or a write that takes longer than this fails. Short replies leave it at once.
    pub(crate) fn accept(&self, patience: Option<Duration>) -> io::Result<HostLink>
        ensures { IfOk result (λ link. (link.from ≡ 0) × (link.to ≡ 0)) }
    {
        let stream = match self {
            HostListener::Tcp(listener) => {
                let (stream, _) = listener.accept()?;
                stream.set_nodelay(true)?;
                HostStream::Tcp(stream)
            }
            HostListener::SocketFile(listener) => HostStream::SocketFile(listener.accept()?.0),
        };
        stream.set_patience(patience)?;
        link_over(stream)
    }
}

/// Removes the socket files that were made. One that can't be removed stays.
pub(crate) fn remove_files<R: Files>(rt: &R, made: &mut Vec<String>) {
    for path in made.iter() {
        let _ = fs::remove_file(rt, &**path);
    }
    made.clear();
}

/// Makes a socket file and listens there. One that a killed server left behind is replaced.
fn bind_file<R: Net + Files>(
    rt: &R,
    path: String,
    made: &mut Vec<String>,
) -> io::Result<UnixListener> {
    made.reserve(1)?;
    if is_left_behind(rt, &path) {
        fs::remove_file(rt, &*path)?;
    }
    let listener = UnixListener::bind(rt, &*path)?;
    let restricted = fs::set_permissions(rt, &*path, Permissions::from_mode(OWNER_ALONE));
    made.push_reserved(path);
    restricted?;
    Ok(listener)
}

/// Whether there is a socket file at which nobody listens.
fn is_left_behind<R: Net + Files>(rt: &R, path: &str) -> bool {
    match fs::symlink_metadata(rt, path) {
        Ok(found) if found.file_type().is_socket() => is_refused(UnixStream::connect(rt, path)),
        _ => false,
    }
}

/// Whether nobody listened where a connection was asked for.
fn is_refused(asked: io::Result<UnixStream>) -> bool {
    match asked {
        Ok(_) => false,
        Err(fault) => fault.kind() == io::ErrorKind::ConnectionRefused,
    }
}
