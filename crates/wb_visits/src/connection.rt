//! A connection over a port or over a socket, and what such connections come from.
use std::io::{self, Read, Write};
use std::net::{Shutdown, TcpListener, TcpStream};
use std::os::unix::net::{UnixListener, UnixStream};
use std::time::Duration;

/// A connection.
#[derive(Drop)]
pub enum Connection {
    /// Over a port.
    Port(TcpStream),
    /// Over a socket, which is a file.
    Socket(UnixStream),
}

impl Connection {
    /// Another handle of this connection.
    pub fn again(&self) -> io::Result<Connection> {
        match self {
            Connection::Port(stream) => Ok(Connection::Port(stream.try_clone()?)),
            Connection::Socket(stream) => Ok(Connection::Socket(stream.try_clone()?)),
        }
    }

    /// Ends it in one way or in both, for its peer too, whoever else has a handle of it.
    pub fn end(&self, how: Shutdown) -> io::Result<()> {
        match self {
            Connection::Port(stream) => stream.shutdown(how),
            Connection::Socket(stream) => stream.shutdown(how),
        }
    }

    /// Has its reads and writes wait for so many milliseconds at most.
    pub(crate) fn set_patience(&self, millis: u64) -> io::Result<()> {
        let most = Some(Duration::from_millis(millis));
        match self {
            Connection::Port(stream) => {
                stream.set_read_timeout(most)?;
                stream.set_write_timeout(most)
            }
            Connection::Socket(stream) => {
                stream.set_read_timeout(most)?;
                stream.set_write_timeout(most)
            }
        }
    }
}

impl Read for Connection {
    fn read(&mut self, bytes: &mut [u8]) -> io::Result<usize> {
        match self {
            Connection::Port(stream) => stream.read(bytes),
            Connection::Socket(stream) => stream.read(bytes),
        }
    }
}

impl Write for Connection {
    fn write(&mut self, bytes: &[u8]) -> io::Result<usize> {
        match self {
            Connection::Port(stream) => stream.write(bytes),
            Connection::Socket(stream) => stream.write(bytes),
        }
    }

    fn flush(&mut self) -> io::Result<()> {
        match self {
            Connection::Port(stream) => stream.flush(),
            Connection::Socket(stream) => stream.flush(),
        }
    }
}

/// What connections come from.
#[derive(Drop)]
pub(crate) enum Listener {
    /// A port.
    Port(TcpListener),
    /// A socket, which is a file.
    Socket(UnixListener),
}

impl Listener {
    /// The next connection, if one is there. It doesn't wait.
    pub(crate) fn accept(&self) -> io::Result<Connection> {
        match self {
            Listener::Port(listener) => {
                let (stream, _) = listener.accept()?;
                let _ = stream.set_nodelay(true);
                Ok(Connection::Port(stream))
            }
            Listener::Socket(listener) => {
                let (stream, _) = listener.accept()?;
                Ok(Connection::Socket(stream))
            }
        }
    }
}
