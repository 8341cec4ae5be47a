//! The writer of a connection for which no seat is free.
use crate::connection::Connection;
use std::io::{self, Read, Write};
use std::net::Shutdown;

/// How many blocks of what a peer sent are read away at most.
const MOST_BLOCKS: usize = 16;

/// A writer of a connection that ends once it was told why: what the peer has sent is read away then, since a system ends a connection
/// with bytes that were not read in such a way that the peer may not read what it was told.
pub struct Parting {
    connection: Connection,
}

impl Parting {
    /// The writer of this connection.
    pub fn of(connection: Connection) -> Parting {
        Parting { connection }
    }
}

impl Drop for Parting {
    fn drop(self) {
        let Parting { connection } = self;
        read_away(connection);
    }
}

// Ends a connection: nothing more is sent, and what came is read away.
fn read_away(connection: Connection) {
    let mut connection = connection;
    if connection.end(Shutdown::Write).is_err() {
        return;
    }
    let mut block = [0u8; 4096];
    for _ in 0..MOST_BLOCKS {
        match connection.read(&mut block) {
            Ok(0) | Err(_) => return,
            Ok(_) => {}
        }
    }
}

impl Write for Parting {
    fn write(&mut self, bytes: &[u8]) -> io::Result<usize> {
        self.connection.write(bytes)
    }

    fn flush(&mut self) -> io::Result<()> {
        self.connection.flush()
    }
}
