//! A desk on a port, which is told before its day.
ghost use Rattle.std.specs.Prelude.{◌≡◌, ◌⊎◌, ℕ, List, true, false, IfOk, IfErr, take};
ghost use Rattle.std.specs.Io.KnownBytes.{Appends};
ghost use Rattle.wb_desk.specs.Openings.{nothing_done};
ghost use Rattle.wb_statuses.specs.Statuses.{IsFault};
ghost use Rattle.wb_seats.specs.Hosting.{FailsToHost, Hosts, listening};

use crate::serving::{serve_history, serve_on};
use std::alloc::Global;
use std::sync::Wait;
use std::thread::Threads;
use wb_arrays::Mover;
use wb_connections::{AcceptErr, Accepts, Binds};
use wb_history::History;
use wb_lines::{Sink, Source};
use wb_statuses::{DONE, INPUT_OR_OUTPUT_FAILED, NO_MEMORY, tell};

/// Listens on a port and tells which one: what connections come from, or the exit status after a fault.
pub fn listen<B: Binds<N, I, O>, N: Accepts<I, O> + Drop, I, O, W: Sink>(
    alloc: Global,
    ports: &mut B,
    port: u16,
    writer: &mut W,
) -> Result<N, u8>
    ensures first { IfOk result (λ n. N.accepted n ≡ 0) }
    ensures told { IfOk result (λ _. (bound : ℕ) × Appends (W.contents writer.old) (W.contents writer.new) (listening bound)) }
    ensures fault { IfErr result (λ status. IsFault status × ((bound count : ℕ)
        × Appends (W.contents writer.old) (W.contents writer.new) (take count (listening bound)))) }
    ensures failed { IfErr result (λ status. status ≡ 3 → (B.failed ports.new ≡ true) ⊎ (W.failed writer.new ≡ true)) }
{
    let (connections, bound) = match ports.bind(port) {
        Ok(bound) => bound,
        Err(AcceptErr::Failed) => return Err(INPUT_OR_OUTPUT_FAILED),
        Err(AcceptErr::NoMemory) => return Err(NO_MEMORY),
    };
    let Ok(line) = format!(in alloc; "listening on 127.0.0.1:{bound}\n") else {
        return Err(NO_MEMORY);
    };
    let told = tell(line.as_str(), writer);
    if told == DONE {
        return Ok(connections);
    }
    Err(told)
}

/// A desk of so many seats on a port, on an empty workbook: tells the port, and serves the desk's day as `serve_on` does. The exit status.
pub fn host<
    R: Threads + Wait + Sync,
    B: Binds<N, I, O>,
    N: Accepts<I, O> + Drop,
    I: Source + Send + Drop,
    O: Sink + Send + Drop,
    W: Sink,
    M: Mover + Sync,
>(rt: &R, alloc: Global, ports: &mut B, port: u16, seats: u8, writer: &mut W, mover: &M) -> u8
    ensures hosts { (text : List ℕ) × Appends (W.contents writer.old) (W.contents writer.new) text
        × Hosts I.Source O.Sink N.Accepts false nothing_done seats result text }
    ensures flushed { result ≡ 0 → W.flushed writer.new ≡ true }
    ensures failed { result ≡ 3 → FailsToHost I.Source O.Sink N.Accepts nothing_done seats (B.failed ports.new) (W.failed writer.new) }
{
    match listen(alloc, ports, port, writer) {
        Ok(connections) => serve_on(rt, alloc, connections, seats as usize, writer, mover),
        Err(status) => status,
    }
}

/// A desk of so many seats on a port, on the workbook of a history: tells the port, and serves the desk's day as `serve_history` does. The
/// exit status.
pub fn host_history<
    R: Threads + Wait + Sync,
    B: Binds<N, I, O>,
    N: Accepts<I, O> + Drop,
    I: Source + Send + Drop,
    O: Sink + Send + Drop,
    W: Sink,
    M: Mover + Sync,
>(
    rt: &R,
    alloc: Global,
    ports: &mut B,
    port: u16,
    seats: u8,
    history: History,
    writer: &mut W,
    mover: &M,
) -> u8
    ensures hosts { (text : List ℕ) × Appends (W.contents writer.old) (W.contents writer.new) text
        × Hosts I.Source O.Sink N.Accepts true history seats result text }
    ensures flushed { result ≡ 0 → W.flushed writer.new ≡ true }
    ensures failed { result ≡ 3 → FailsToHost I.Source O.Sink N.Accepts history seats (B.failed ports.new) (W.failed writer.new) }
{
    match listen(alloc, ports, port, writer) {
        Ok(connections) => serve_history(
            rt,
            alloc,
            connections,
            seats as usize,
            history,
            writer,
            mover,
        ),
        Err(status) => status,
    }
}
