//! Connections that come over a port of this machine or over a socket, for as many seats as a desk has.
ghost use Rattle.std.specs.Prelude.{◌≡◌, ◌-◌, ◌<◌, ◌↔◌, ℕ, Bool, true, IfOk};

use crate::binding::{on_port, on_socket};
use crate::connection::Listener;
use crate::parting::Parting;
use crate::patience::{Ear, Mouth};
use crate::stop::Stop;
use crate::trace::Trace;
use crate::visit::{Left, Surplus, Visit};
use std::alloc::Global;
use std::fs::{self, Files};
use std::io::{self, BufWriter, ErrorKind};
use std::net::{Net, TcpListener, TcpStream};
use std::thread::SpawnError;
use wb_lending::{Guests, Next};
use wb_lines::{Input, Output};

/// How many milliseconds a read or a write of a connection waits before it looks whether the desk is to end.
const WAIT: u64 = 200;

/// So many waits are a second.
const WAITS_A_SECOND: u64 = 5;

/// How many milliseconds a connection is heard that was told that no seat is free.
const FAREWELL: u64 = 50;

/// A reader of a connection.
type Hearing = Input<Ear>;

/// A writer of a connection.
type Telling = Output<BufWriter<Mouth>>;

/// The connections of a listener, for as many seats as there are.
#[derive(Drop)]
pub struct Visits {
    alloc: Global,
    listener: Listener,
    stop: Stop,
    most_waits: u64,
    counted: u64,
    inside: u64,
    places: u64,
    is_over: bool,
    has_failed: bool,
}

impl Visits {
    // Whether the desk is to end, which is noted.
    fn is_over(&mut self) -> bool
        ensures over { result ≡ true → self.new.is_over ≡ true }
        ensures counted { self.new.counted ≡ self.old.counted }
        ensures inside { self.new.inside ≡ self.old.inside }
        ensures places { self.new.places ≡ self.old.places }
    {
        if self.stop.is_told() {
            self.is_over = true;
        }
        self.is_over
    }

    // A connection that was served leaves; where it is the last, the desk is told to end.
    fn take_leave(&mut self, served: Left)
        ensures counted { self.new.counted ≡ self.old.counted }
        ensures inside { self.new.inside ≡ self.old.inside - 1 }
        ensures places { self.new.places ≡ self.old.places }
    {
        if served.leave() {
            self.stop.tell();
        }
        self.inside = self.inside.saturating_sub(1);
    }

    // The next connection, if one is there, and it can be had in both ways.
    fn visit(&self) -> Option<Visit<Hearing, Telling>> {
        let connection = self.listener.accept().ok()?;
        // (without these the connection could not be ended)
        connection.set_patience(WAIT).ok()?;
        let again = connection.again().ok()?;
        let trace = Trace::new(self.alloc).ok()?;
        let stop = self.stop.again().ok()?;
        let ear = Ear::of(connection, stop, self.most_waits, trace.again().ok()?);
        let stop = self.stop.again().ok()?;
        let mouth = Mouth::of(again, stop, self.most_waits, trace.again().ok()?);
        let writer = BufWriter::new(self.alloc, mouth).ok()?;
        Some(Visit::traced(Input::new(ear), Output::new(writer), trace))
    }

    // The next connection, if one is there, as one that is told something and then ended.
    fn farewell(&self) -> Option<Surplus<Output<Parting>>> {
        let connection = self.listener.accept().ok()?;
        connection.set_patience(FAREWELL).ok()?;
        Some(Surplus::of(Output::new(Parting::of(connection))))
    }
}

impl Guests<Visit<Hearing, Telling>, Surplus<Output<Parting>>, Left> for Visits {
    ghost came = { λ s n c. n < s.counted };

    ghost counted = { λ s. s.counted };

    ghost inside = { λ s. s.inside };

    ghost places = { λ s. s.places };

    ghost over = { λ s. s.is_over ≡ true };

    ghost failed = { λ s. s.has_failed };

    fn next(&mut self) -> Next<Visit<Hearing, Telling>> {
        if self.is_over() {
            return Next::Over;
        }
        let Some(counted) = self.counted.checked_add(1) else {
            return Next::Nobody;
        };
        let Some(inside) = self.inside.checked_add(1) else {
            return Next::Nobody;
        };
        match self.visit() {
            Some(visit) => {
                self.counted = counted;
                self.inside = inside;
                Next::Came(visit)
            }
            None => Next::Nobody,
        }
    }

    fn surplus(&mut self) -> Next<Surplus<Output<Parting>>> {
        if self.is_over() {
            return Next::Over;
        }
        if self.inside < self.places {
            return Next::Nobody;
        }
        match self.farewell() {
            Some(surplus) => Next::Came(surplus),
            None => Next::Nobody,
        }
    }

    fn leave(&mut self, served: Left) {
        self.take_leave(served);
    }

    fn retire(&mut self, served: Left) {
        self.take_leave(served);
        self.places = self.places.saturating_sub(1);
    }

    fn note_refused<F>(&mut self, refused: &SpawnError<F>) {
        // Only that a thread was refused counts, not why.
        let _ = refused;
        self.has_failed = true;
        self.is_over = true;
        self.stop.tell();
    }
}

/// Why no port or socket could be had.
#[derive(Clone, Copy, Debug, PartialEq, Eq)]
pub enum BindErr {
    /// The system refused it.
    Failed,
    /// A growth was refused.
    NoMemory,
}

/// What gives a port or a socket, whose connections come for so many seats.
pub trait Lands<G: Guests<C, D, E>, C, D, E> {
    ghost use Rattle.wb_visits.specs.Binding.{is_failed};

    // Whether what was asked for last could not be had.
    ghost failed: { Self → Bool };

    /// Listens on a port, or on any port where that is 0: the connections that come for so many seats, and the port.
    fn land(&mut self, port: u16, seats: u8) -> Result<(G, u16), BindErr>
        ensures first { IfOk result (λ b. (G.inside b.0 ≡ 0) × (G.places b.0 ≡ seats)) }
        ensures cause { failed self.new ≡ is_failed result };

    /// Listens on a socket that is made at a path: the connections that come for so many seats.
    fn land_at(&mut self, path: &str, seats: u8) -> Result<G, BindErr>
        ensures first { IfOk result (λ g. (G.inside g ≡ 0) × (G.places g ≡ seats)) }
        ensures cause { failed self.new ≡ is_failed result };
}

/// The ports and the sockets of this machine, for desks that end where they are told to. A connection that is idle for so many seconds is ended, none
/// where that is 0.
#[derive(Drop)]
pub struct Landings<'a, R> {
    rt: &'a R,
    alloc: Global,
    stop: Stop,
    idle: u32,
    has_failed: bool,
    has_socket: bool,
    cause: Option<io::Error>,
}

impl<'a, R> Landings<'a, R> {
    /// The ports and the sockets, by a handle of the network and the files.
    pub fn of(rt: &'a R, alloc: Global, stop: Stop, idle: u32) -> Landings<'a, R> {
        Landings {
            rt,
            alloc,
            stop,
            idle,
            has_failed: false,
            has_socket: false,
            cause: None,
        }
    }

    /// Why a port or a socket could not be had, in the system's words.
    pub fn cause(&self) -> Option<io::Error> {
        self.cause
    }

    // Whether memory was refused, or something failed, which is noted.
    fn noted(&mut self, error: io::Error) -> BindErr
        ensures { (result ≡ BindErr.Failed) ↔ (self.new.has_failed ≡ true) }
    {
        match error.kind() {
            ErrorKind::OutOfMemory => {
                self.has_failed = false;
                BindErr::NoMemory
            }
            _ => {
                self.has_failed = true;
                self.cause = Some(error);
                BindErr::Failed
            }
        }
    }

    // The connections of a listener, of which none came yet.
    fn visits(&self, listener: Listener, stop: Stop, seats: u8) -> Visits
        ensures { (result.inside ≡ 0) × (result.places ≡ seats) }
    {
        Visits {
            alloc: self.alloc,
            listener,
            stop,
            most_waits: waits_of(self.idle),
            counted: 0,
            inside: 0,
            places: seats as u64,
            is_over: false,
            has_failed: false,
        }
    }
}

impl<'a, R: Files> Landings<'a, R> {
    /// Takes away the socket at a path, if one was made there, once no desk listens on it.
    pub fn take_away(&self, path: &str) {
        if self.has_socket {
            let _ = fs::remove_file(self.rt, path);
        }
    }
}

// After how many waits a connection is idle for so many seconds.
fn waits_of(idle: u32) -> u64 {
    if idle == 0 {
        return u64::MAX;
    }
    (idle as u64) * WAITS_A_SECOND
}

impl<'a, R: Net<Listener = TcpListener, Stream = TcpStream> + Files> Lands<
    Visits,
    Visit<Hearing, Telling>,
    Surplus<Output<Parting>>,
    Left,
> for Landings<'a, R> {
    ghost failed = { λ s. s.has_failed };

    fn land(&mut self, port: u16, seats: u8) -> Result<(Visits, u16), BindErr> {
        self.has_failed = false;
        let Ok(stop) = self.stop.again() else {
            return Err(BindErr::NoMemory);
        };
        match on_port(self.rt, port) {
            Ok((listener, bound)) => Ok((self.visits(listener, stop, seats), bound)),
            Err(error) => Err(self.noted(error)),
        }
    }

    fn land_at(&mut self, path: &str, seats: u8) -> Result<Visits, BindErr> {
        self.has_failed = false;
        let Ok(stop) = self.stop.again() else {
            return Err(BindErr::NoMemory);
        };
        match on_socket(self.rt, path) {
            Ok(listener) => {
                self.has_socket = true;
                Ok(self.visits(listener, stop, seats))
            }
            Err(error) => Err(self.noted(error)),
        }
    }
}
