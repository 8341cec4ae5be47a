//! Ports and sockets that are listened on, without waiting.
use crate::connection::Listener;
use std::fs::{self, Files, Permissions};
use std::io::{self, ErrorKind};
use std::net::{Net, TcpListener, TcpStream};
use std::os::fd::{AsFd, AsRawFd};
use std::os::unix::fs::{FileTypeExt, PermissionsExt};
use std::os::unix::net::{SocketAddr, UnixListener, UnixStream};

/// Who owns the file of a socket may use it, and nobody else.
const OWNER_ALONE: u32 = 0o600;

/// So many connections may wait until they are accepted.
const MOST_WAITING: i32 = 128;

/// What listens on a port of this machine, or on any port where that is 0, and which port that is.
pub(crate) fn on_port<R: Net<Listener = TcpListener, Stream = TcpStream>>(
    rt: &R,
    port: u16,
) -> io::Result<(Listener, u16)> {
    let listener = TcpListener::bind(rt, ("127.0.0.1", port))?;
    listener.set_nonblocking(true)?;
    let bound = listener.local_addr()?.port();
    Ok((Listener::Port(listener), bound))
}

/// What listens on a socket that is made at a path, for its owner alone. It listens only once nobody else may connect.
pub(crate) fn on_socket<R: Net + Files>(rt: &R, path: &str) -> io::Result<Listener> {
    clear(rt, path)?;
    let address = SocketAddr::from_pathname(path)?;
    let socket = rt.unix_socket()?;
    rt.bind_unix(socket.as_fd(), &address)?;
    fs::set_permissions(rt, path, Permissions::from_mode(OWNER_ALONE))?;
    if libc::net::listen(socket.as_raw_fd(), MOST_WAITING) != 0 {
        return Err(ErrorKind::Other.into());
    }
    let listener = UnixListener::from(socket);
    listener.set_nonblocking(true)?;
    Ok(Listener::Socket(listener))
}

// Takes away the socket of a desk that ended by force: one on which nobody listens. Any other file stays.
fn clear<R: Net + Files>(rt: &R, path: &str) -> io::Result<()> {
    let Ok(found) = fs::symlink_metadata(rt, path) else {
        return Ok(());
    };
    if !found.file_type().is_socket() {
        return Ok(());
    }
    match UnixStream::connect(rt, path) {
        Err(error) if error.kind() == ErrorKind::ConnectionRefused => fs::remove_file(rt, path),
        _ => Ok(()),
    }
}
