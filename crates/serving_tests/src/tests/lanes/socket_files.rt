//! Socket files as addresses of a town.
use link_doors::{HostTown, Town};
use std::alloc::Global;
use std::fs::{self, File, Files};
use std::net::{Net, TcpListener, TcpStream};
use std::os::unix::fs::{FileTypeExt, PermissionsExt};
use std::os::unix::net::UnixListener;
use std::test::Fail;

/// Whether a town listens at these addresses.
fn is_heard<R: Net<Listener = TcpListener, Stream = TcpStream> + Files>(
    rt: &R,
    alloc: Global,
    sessions: &str,
    operator: &str,
) -> bool {
    HostTown::new(alloc, rt)
        .listen(sessions, operator, 1, 1)
        .is_ok()
}

#[test]
fn socket_files_are_their_owners(rt: HostRuntime) -> Result<(), Fail> {
    let alloc = rt.alloc();
    // A killed server leaves its file behind, at which nobody listens.
    drop(UnixListener::bind(&rt, "left.socket")?);
    let mut town = HostTown::new(alloc, &rt);
    let heard = town.listen("unix:sessions.socket", "unix:left.socket", 1, 1);
    assert!(rt; heard.is_ok(), "a file that was left behind is replaced");
    for path in ["sessions.socket", "left.socket"] {
        let found = fs::symlink_metadata(&rt, path)?;
        assert!(rt; found.file_type().is_socket(), "there is a socket file");
        assert!(rt;
            found.permissions().mode() & 0o777 == 0o600,
            "it is its owner's alone"
        );
    }
    // A second server takes neither the first one's file nor one that isn't a socket's.
    drop(File::create(&rt, "plain")?);
    assert!(rt; !is_heard(&rt, alloc, "unix:third.socket", "unix:left.socket"));
    assert!(rt; !is_heard(&rt, alloc, "unix:third.socket", "unix:plain"));
    assert!(rt;
        fs::symlink_metadata(&rt, "left.socket")?
            .file_type()
            .is_socket()
    );
    assert!(rt; fs::symlink_metadata(&rt, "plain")?.is_file());
    // What it made before it was refused is removed.
    assert!(rt; !is_heard(&rt, alloc, "unix:plain", "unix:third.socket"));
    assert!(rt; fs::symlink_metadata(&rt, "third.socket").is_err());
    drop(heard);
    Ok(())
}
