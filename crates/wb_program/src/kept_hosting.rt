//! A desk on a port whose changes are kept in the journal at a path.
ghost use Rattle.std.specs.Prelude.{◌≡◌, ◌⊎◌, ℕ, List, true};
ghost use Rattle.std.specs.Io.KnownBytes.{Appends};
ghost use Rattle.wb_desk.specs.Openings.{whole_from};
ghost use Rattle.wb_keep.specs.Disk.Device.{Only};
ghost use Rattle.wb_sessions.specs.Keeping.{IsKeptHistory, writer_alone};
ghost use Rattle.wb_program.specs.KeptDays.{FailsKeptDay, HostsKept, RunsDesk, UsesDesk};

use crate::kept_serving::serve_kept_on;
use std::alloc::Global;
use std::sync::Wait;
use std::thread::Threads;
use wb_arrays::Mover;
use wb_connections::{Accepts, Binds};
use wb_history::History;
use wb_keep::disk::{Device, Replaces};
use wb_kept::Kept;
use wb_lines::{Sink, Source};
use wb_seats::listen;
use wb_sessions::{FileFault, KeptRun, OpensFiles, opened, turned_away};
use wb_statuses::{INPUT_OR_OUTPUT_FAILED, NO_MEMORY};

// A desk on a port, on the history of a journal that was opened.
fn host_kept<
    R: Threads + Wait + Sync,
    B: Binds<N, I, O>,
    N: Accepts<I, O> + Drop,
    I: Source + Send + Drop,
    O: Sink + Send + Drop,
    D: Device + Send + Drop,
    W: Sink,
    M: Mover + Sync,
>(
    rt: &R,
    alloc: Global,
    ports: &mut B,
    port: u16,
    seats: u8,
    kept: Kept<History, D>,
    writer: &mut W,
    mover: &M,
) -> KeptRun<D>
    requires kept { IsKeptHistory D.Device kept }
    ensures hosts { (text : List ℕ) × Appends (W.contents writer.old) (W.contents writer.new) text
        × HostsKept I.Source O.Sink N.Accepts D.Device (whole_from kept.state) (D.moment kept.log.device) seats kept.log.device result text }
    ensures flushed { result.status ≡ 0 → W.flushed writer.new ≡ true }
    ensures failed { result.status ≡ 3 → (B.failed ports.new ≡ true)
        ⊎ FailsKeptDay I.Source O.Sink N.Accepts D.Device (whole_from kept.state) seats result (W.failed writer.new) }
{
    match listen(alloc, ports, port, writer) {
        Ok(connections) => {
            serve_kept_on::<R, N, I, O, D, W, M>(
                rt,
                alloc,
                connections,
                seats as usize,
                kept,
                writer,
                mover,
            )
        }
        Err(status) => KeptRun {
            status,
            fault: None,
            file: kept.log.device,
        },
    }
}

/// A desk of so many seats on a port, on the history that a journal has, whose file holds these bytes. It opens the journal first, as
/// `run_kept_with` does: where the file has a line that is not granted, it prints `refused`, with status 1; that file, and one of
/// another kind, stays as it was. Then it tells the port, and serves the desk as `serve_kept_on` does.
pub fn host_kept_with<
    R: Threads + Wait + Sync,
    B: Binds<N, I, O>,
    N: Accepts<I, O> + Drop,
    I: Source + Send + Drop,
    O: Sink + Send + Drop,
    D: Device + Send + Drop,
    W: Sink,
    M: Mover + Sync,
>(
    rt: &R,
    alloc: Global,
    ports: &mut B,
    port: u16,
    seats: u8,
    file: D,
    held: &[u8],
    writer: &mut W,
    mover: &M,
) -> KeptRun<D>
    requires read { D.seen file ≡ held.now }
    requires durable { Only (D.seen file) (D.may_leave file) }
    ensures runs { RunsDesk I.Source O.Sink N.Accepts D.Device file held.now seats result (B.failed ports.new) (writer_alone W.Sink writer.old writer.new) }
    ensures flushed { result.status ≡ 0 → W.flushed writer.new ≡ true }
{
    match opened(alloc, file, held, mover) {
        Ok(kept) => host_kept::<R, B, N, I, O, D, W, M>(
            rt, alloc, ports, port, seats, kept, writer, mover,
        ),
        Err((why, file)) => turned_away(alloc, why, file, writer),
    }
}

/// A desk of so many seats on a port, on the history that the journal at a path has, as `host_kept_with` serves it; the file is
/// given back.
pub(crate) fn serve_kept<
    R: Threads + Wait + Sync,
    B: Binds<N, I, O>,
    N: Accepts<I, O> + Drop,
    I: Source + Send + Drop,
    O: Sink + Send + Drop,
    D: Replaces + Send + Drop,
    J: OpensFiles<D>,
    W: Sink,
    M: Mover + Sync,
>(
    rt: &R,
    alloc: Global,
    ports: &mut B,
    files: &mut J,
    path: &str,
    port: u16,
    seats: u8,
    writer: &mut W,
    mover: &M,
) -> u8
    ensures keeps { UsesDesk I.Source O.Sink N.Accepts D.Device J.OpensFiles path.now seats result (B.failed ports.new) files.new
        (writer_alone W.Sink writer.old writer.new) }
    ensures flushed { result ≡ 0 → W.flushed writer.new ≡ true }
{
    match files.open(path) {
        Ok((file, held)) => {
            let KeptRun {
                status,
                fault,
                file,
            } = host_kept_with::<R, B, N, I, O, D, W, M>(
                rt, alloc, ports, port, seats, file, &held, writer, mover,
            );
            files.close(file, fault);
            status
        }
        Err(FileFault::NoMemory) => NO_MEMORY,
        Err(_) => INPUT_OR_OUTPUT_FAILED,
    }
}
