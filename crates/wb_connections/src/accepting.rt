//! What the connections of a desk come from: a port of this machine.
ghost use Rattle.std.specs.Prelude.{◌≡◌, ◌+◌, ◌<◌, ℕ, Bool, true, IfOk, OnOk};

use std::alloc::Global;
use std::io::{self, BufWriter, ErrorKind};
use std::net::{Net, TcpListener, TcpStream};
use std::thread::SpawnError;
use wb_lines::{Input, Output};

/// Why no connection came.
#[derive(Clone, Copy, Debug, PartialEq, Eq)]
pub enum AcceptErr {
    /// It could not be had.
    Failed,
    /// A growth was refused.
    NoMemory,
}

/// What connections come from, one after another, each a reader and a writer.
pub trait Accepts<I, O> {
    ghost use Rattle.wb_connections.specs.Accepting.{is_failed};

    // The connection of this number, from 0, came as this reader and this writer.
    ghost came: { Self → ℕ → I → O → Type 0 };

    // How many came.
    ghost accepted: { Self → ℕ };

    // Whether what was done last failed: to accept a connection, or to start a thread for it.
    ghost failed: { Self → Bool };

    /// Waits for the next connection.
    fn accept(&mut self, alloc: Global) -> Result<(I, O), AcceptErr>
        ensures came { IfOk result (λ c. came self.new (accepted self.old) c.0 c.1) }
        ensures counted { OnOk result (accepted self.new ≡ accepted self.old + 1) }
        ensures kept { (k : ℕ) (i : I) (o : O) → came self.old k i o → came self.new k i o }
        ensures cause { failed self.new ≡ is_failed result };

    /// Tells that no thread could be had for the connection that came last.
    fn note_refused<F>(&mut self, refused: &SpawnError<F>)
        ensures { failed self.new ≡ true };
}

/// The connections of a listener. It alone says what a failed accept is: where the listener's own, or a second handle of the
/// stream that it gave, answers an error.
#[derive(Drop)]
pub struct Connections {
    listener: TcpListener,
    accepted: u64,
    has_failed: bool,
}

impl Connections {
    /// The connections that a listener gives from here on.
    pub fn of(listener: TcpListener) -> Connections
        ensures { result.accepted ≡ 0 }
    {
        Connections {
            listener,
            accepted: 0,
            has_failed: false,
        }
    }
}

// The next connection of a listener, as a reader and a writer.
fn both_ways(
    alloc: Global,
    listener: &TcpListener,
) -> Result<(Input<TcpStream>, Output<BufWriter<TcpStream>>), AcceptErr> {
    let Ok((stream, _)) = listener.accept() else {
        return Err(AcceptErr::Failed);
    };
    let _ = stream.set_nodelay(true);
    let Ok(reader) = stream.try_clone() else {
        return Err(AcceptErr::Failed);
    };
    match BufWriter::new(alloc, stream) {
        Ok(writer) => Ok((Input::new(reader), Output::new(writer))),
        Err(_) => Err(AcceptErr::NoMemory),
    }
}

impl Accepts<Input<TcpStream>, Output<BufWriter<TcpStream>>> for Connections {
    ghost came = { λ s k i o. k < s.accepted };

    ghost accepted = { λ s. s.accepted };

    ghost failed = { λ s. s.has_failed };

    fn accept(
        &mut self,
        alloc: Global,
    ) -> Result<(Input<TcpStream>, Output<BufWriter<TcpStream>>), AcceptErr> {
        self.has_failed = true;
        let Some(accepted) = self.accepted.checked_add(1) else {
            return Err(AcceptErr::Failed);
        };
        match both_ways(alloc, &self.listener) {
            Ok(came) => {
                self.accepted = accepted;
                self.has_failed = false;
                Ok(came)
            }
            Err(AcceptErr::Failed) => Err(AcceptErr::Failed),
            Err(AcceptErr::NoMemory) => {
                self.has_failed = false;
                Err(AcceptErr::NoMemory)
            }
        }
    }

    fn note_refused<F>(&mut self, refused: &SpawnError<F>) {
        // Only that a thread was refused counts, not why.
        let _ = refused;
        self.has_failed = true;
    }
}

/// What listens for connections on a port.
pub trait Binds<N: Accepts<I, O>, I, O> {
    ghost use Rattle.wb_connections.specs.Accepting.{is_failed};

    // Whether the port that was asked for last could not be had.
    ghost failed: { Self → Bool };

    /// Listens on a port, or on any port where that is 0: what connections come from, and the port.
    fn bind(&mut self, port: u16) -> Result<(N, u16), AcceptErr>
        ensures first { IfOk result (λ b. N.accepted b.0 ≡ 0) }
        ensures cause { failed self.new ≡ is_failed result };
}

/// The ports of this machine. It alone says what a failed bind is: where the system answers an error that is not want of memory.
#[derive(Drop)]
pub struct Ports<'a, R> {
    rt: &'a R,
    has_failed: bool,
    cause: Option<io::Error>,
}

impl<'a, R> Ports<'a, R> {
    /// The ports, by a handle of the network.
    pub fn of(rt: &'a R) -> Ports<'a, R> {
        Ports {
            rt,
            has_failed: false,
            cause: None,
        }
    }

    /// Why a port could not be had, in the system's words.
    pub fn cause(&self) -> Option<io::Error> {
        self.cause
    }
}

// Listens on a port of this machine, and notes why that fails.
fn listening<R: Net<Listener = TcpListener, Stream = TcpStream>>(
    rt: &R,
    port: u16,
    cause: &mut Option<io::Error>,
) -> Result<(Connections, u16), AcceptErr>
    ensures { IfOk result (λ b. b.0.accepted ≡ 0) }
{
    let listener = match TcpListener::bind(rt, ("127.0.0.1", port)) {
        Ok(listener) => listener,
        Err(error) => return Err(noted(error, cause)),
    };
    match listener.local_addr() {
        Ok(address) => Ok((Connections::of(listener), address.port())),
        Err(error) => Err(noted(error, cause)),
    }
}

// Whether memory was refused, or something failed, which is noted.
fn noted(error: io::Error, cause: &mut Option<io::Error>) -> AcceptErr {
    match error.kind() {
        ErrorKind::OutOfMemory => AcceptErr::NoMemory,
        _ => {
            *cause = Some(error);
            AcceptErr::Failed
        }
    }
}

impl<'a, R: Net<Listener = TcpListener, Stream = TcpStream>> Binds<
    Connections,
    Input<TcpStream>,
    Output<BufWriter<TcpStream>>,
> for Ports<'a, R> {
    ghost failed = { λ s. s.has_failed };

    fn bind(&mut self, port: u16) -> Result<(Connections, u16), AcceptErr> {
        let rt = self.rt;
        let bound = listening(rt, port, &mut self.cause);
        self.has_failed = matches!(bound, Err(AcceptErr::Failed));
        bound
    }
}
