//! A desk on connections whose changes are kept in a journal: a day of it, and the file that is given back.
ghost use Rattle.std.specs.Prelude.{◌≡◌, ◌⊎◌, ℕ, List, [], false, true, None, Some, IfOk, IfErr};
ghost use Rattle.std.specs.Io.KnownBytes.{Appends};
ghost use Rattle.wb_desk.specs.Openings.{whole_from};
ghost use Rattle.wb_desk.specs.Serving.{new_passes};
ghost use Rattle.wb_keep.specs.Lines.{recovered};
ghost use Rattle.wb_statuses.specs.Statuses.{IsFault};
ghost use Rattle.wb_seats.specs.Days.{AllBack, ServedOn};
ghost use Rattle.wb_sessions.specs.Keeping.{IsKeptHistory};
ghost use Rattle.wb_program.specs.KeptDays.{BreaksOff, EndsKeptDay, FailsKeptDay, LeavesDesk, SettlesKept, TellsOfFile};
ghost use Rattle.wb_program.specs.KeptSeats.{FailsOnce};

use crate::kept_seat::{Failing, KeptDesk, serve_kept_seat};
use std::alloc::Global;
use std::marker::Brand;
use std::snapshot::Snapshot;
use std::sync::Wait;
use std::sync::ledger::Blank;
use std::thread;
use std::thread::Threads;
use wb_arrays::Mover;
use wb_connections::{AcceptErr, Accepts, Door};
use wb_desk::{Cause, DeskErr, Pass};
use wb_history::History;
use wb_keep::LineLog;
use wb_keep::disk::Device;
use wb_kept::{Changes, Kept};
use wb_kept_group::group::Opened;
use wb_kept_seats::{Desk, KeptOpening, Seats, SettleErr, Settled, Unsettled, settle};
use wb_lines::{Sink, Source};
use wb_seats::{Promised, Settlings, WithItsDesk, print_settled};
use wb_sessions::{FileFault, KeptRun};
use wb_statuses::{BAD_COMMAND_LINE, INPUT_OR_OUTPUT_FAILED, NO_MEMORY};

// The exit status of a day that was not settled, and what is told of the file: where it failed, that is the cause.
fn blamed<D: Device + Drop>(failing: &Failing<D>, status: u8) -> (u8, Option<FileFault>)
    requires fault { IsFault status }
    ensures fault { IsFault result.0 }
    ensures told { TellsOfFile D.Device result.0 result.1 }
    ensures cause { result.0 ≡ 3 → (status ≡ 3) ⊎ ((result.1 ≡ Some FileFault.Failed) × FailsOnce D.faults) }
{
    if failing.has_failed() {
        return (INPUT_OR_OUTPUT_FAILED, Some(FileFault::Failed));
    }
    (status, None)
}

/// How a day comes out that never begins.
pub(crate) fn never_begun<D: Device + Drop>(status: u8, kept: Kept<History, D>) -> KeptRun<D>
    ensures { result ≡ record { status = status; fault = None; file = kept.log.device } }
{
    KeptRun {
        status,
        fault: None,
        file: kept.log.device,
    }
}

/// How a day comes out that was not settled.
pub(crate) fn broken_off<L: KeptOpening, D: Device + Drop>(
    seats: &Seats<L>,
    log: LineLog<D>,
    failing: &Failing<D>,
    status: u8,
) -> KeptRun<D>
    requires fault { IsFault status }
    requires leaves { LeavesDesk D.Device L.opening L.begun L.seats seats.now log log.device }
    ensures off { BreaksOff D.Device L.opening L.begun L.seats result [] }
    ensures cause { result.status ≡ 3 → (status ≡ 3) ⊎ ((result.fault ≡ Some FileFault.Failed) × FailsOnce D.faults) }
{
    // The seats are there for the contract alone.
    let _ = seats;
    let (status, fault) = blamed(failing, status);
    KeptRun {
        status,
        fault,
        file: log.device,
    }
}

/// How a day comes out where no connection or thread could be had.
pub(crate) fn left_off<L: KeptOpening, D: Device + Drop>(
    alloc: Global,
    desk: KeptDesk<L, D>,
    status: u8,
) -> KeptRun<D>
    requires fault { IsFault status }
    ensures off { BreaksOff D.Device L.opening L.begun L.seats result [] }
    ensures cause { result.status ≡ 3 → (status ≡ 3) ⊎ ((result.fault ≡ Some FileFault.Failed) × FailsOnce D.faults) }
{
    let (desk, failing) = desk.into_parts();
    match settle(desk, Vec::new(alloc)) {
        Ok(done) => {
            let Settled { seats, log } = done;
            broken_off(&seats, log, &failing, status)
        }
        Err(left) => {
            let Unsettled {
                seats,
                log,
                cause,
                ..
            } = left;
            broken_off(&seats, log, &failing.after(cause), status)
        }
    }
}

/// The exit status of a day that was not settled, if its file did not fail. (A desk or a keeper that is closed had no memory
/// then.)
pub(crate) fn status_of_cause(cause: SettleErr) -> u8
    ensures fault { IsFault result }
    ensures passes { result ≡ 3 → ((why : Cause) × (cause ≡ SettleErr.Passes why)) }
{
    match cause {
        SettleErr::Passes(_) => INPUT_OR_OUTPUT_FAILED,
        SettleErr::NotKept(_) => NO_MEMORY,
    }
}

// Settles a desk whose passes came back, and prints how many entries there are and the workbook.
fn settled<L: KeptOpening, N: Accepts<I, O>, I: Source, O: Sink, D: Device + Drop, W: Sink>(
    alloc: Global,
    desk: KeptDesk<L, D>,
    passes: Vec<Pass<L>>,
    writer: &mut W,
) -> KeptRun<D>
    requires back { (from : N) × AllBack I.Source O.Sink N.Accepts L.opening from (new_passes L.seats) passes.items }
    ensures ends { (text : List ℕ) × Appends (W.contents writer.old) (W.contents writer.new) text
        × (SettlesKept I.Source O.Sink N.Accepts D.Device L.opening L.begun L.seats result text
        ⊎ BreaksOff D.Device L.opening L.begun L.seats result text) }
    ensures flushed { result.status ≡ 0 → W.flushed writer.new ≡ true }
    ensures failed { result.status ≡ 3 → FailsKeptDay I.Source O.Sink N.Accepts D.Device L.opening L.seats result (W.failed writer.new) }
{
    let (desk, failing) = desk.into_parts();
    match settle(desk, passes) {
        Ok(done) => {
            let Settled { seats, log } = done;
            let status = print_settled(alloc, seats.shared(), false, writer);
            KeptRun {
                status,
                fault: None,
                file: log.device,
            }
        }
        Err(left) => {
            let Unsettled {
                seats,
                log,
                cause,
                ..
            } = left;
            broken_off(&seats, log, &failing.after(cause), status_of_cause(cause))
        }
    }
}

/// Answers what is heard of a connection at a seat until its end or a fault, and gives the pass back.
pub(crate) fn serve_kept_connection<
    L: KeptOpening,
    S: Settlings<L>,
    D: Device + Drop,
    R: Wait,
    I: Source + Drop,
    O: Sink + Drop,
    M: Mover,
>(
    rt: &R,
    alloc: Global,
    desk: &KeptDesk<L, D>,
    settlings: &S,
    pass: Pass<L>,
    reader: I,
    writer: O,
    mover: &M,
) -> Pass<L>
    ensures { ServedOn I.Source O.Sink S.answers pass reader writer result }
{
    let mut door = Door::of(reader);
    let mut writer = writer;
    serve_kept_seat(
        rt,
        alloc,
        desk,
        settlings,
        pass,
        &mut door,
        &mut writer,
        mover,
    )
}

// Accepts a connection for each pass, serves it there in a thread of its own, and joins them all: the passes, or the exit
// status that is left.
fn serve_all_kept<
    L: KeptOpening + Send + Sync,
    R: Threads + Wait + Sync,
    N: Accepts<I, O> + Drop,
    I: Source + Send + Drop,
    O: Sink + Send + Drop,
    D: Device + Send + Drop,
    M: Mover + Sync,
>(
    rt: &R,
    alloc: Global,
    connections: N,
    desk: &KeptDesk<L, D>,
    passes: Vec<Pass<L>>,
    mover: &M,
) -> Result<Vec<Pass<L>>, u8>
    requires { N.accepted connections ≡ 0 }
    ensures ok { IfOk result (λ ks. (from : N) × AllBack I.Source O.Sink N.Accepts L.opening from passes.items ks.items) }
    ensures fault { IfErr result (λ status. IsFault status) }
    ensures failed { IfErr result (λ status. status ≡ 3 → (from : N) × (N.failed from ≡ true)) }
{
    thread::scope(
        thread::scope_env(),
        rt,
        move |scope| -> Result<Vec<Pass<L>>, u8>
            requires { N.accepted connections ≡ 0 }
            ensures ok { IfOk result (λ ks. (from : N) × AllBack I.Source O.Sink N.Accepts L.opening from passes.items ks.items) }
            ensures fault { IfErr result (λ status. IsFault status) }
            ensures failed { IfErr result (λ status. status ≡ 3 → (from : N) × (N.failed from ≡ true)) }
        {
            let mut connections = connections;
            let mut handles = Vec::new(alloc);
            for pass in passes {
                let (reader, writer) = match connections.accept(alloc) {
                    Ok(came) => came,
                    Err(AcceptErr::Failed) => return Err(INPUT_OR_OUTPUT_FAILED),
                    Err(AcceptErr::NoMemory) => return Err(NO_MEMORY),
                };
                let promise = Promised {
                    pass: Snapshot::of(&pass),
                    reader: Snapshot::of(&reader),
                    writer: Snapshot::of(&writer),
                };
                match scope.spawn_with(promise, move || {
                    serve_kept_connection::<L, WithItsDesk, D, R, I, O, M>(
                        rt,
                        alloc,
                        desk,
                        &WithItsDesk,
                        pass,
                        reader,
                        writer,
                        mover,
                    )
                }) {
                    Ok(handle) => {
                        if handles.push(handle).is_err() {
                            return Err(NO_MEMORY);
                        }
                    }
                    Err(refused) => {
                        connections.note_refused(&refused);
                        return Err(INPUT_OR_OUTPUT_FAILED);
                    }
                }
            }
            match thread::join_promised(rt, handles) {
                Ok(passes) => Ok(passes),
                Err(_) => Err(NO_MEMORY),
            }
        },
    )
}

// A day of a desk whose changes are kept: opened, served and settled.
fn serve_kept_day<
    L: KeptOpening + Send + Sync,
    R: Threads + Wait + Sync,
    N: Accepts<I, O> + Drop,
    I: Source + Send + Drop,
    O: Sink + Send + Drop,
    D: Device + Send + Drop,
    W: Sink,
    M: Mover + Sync,
>(
    rt: &R,
    alloc: Global,
    opened: Opened<Changes>,
    blank: Blank,
    taking: Blank,
    connections: N,
    seats: usize,
    kept: Kept<History, D>,
    writer: &mut W,
    mover: &M,
) -> KeptRun<D>
    // Two new ledgers and a new book, which are the desk's.
    requires name { blank.name ≡ L.name }
    requires parts { blank.parts ≡ L.parts }
    requires sixteen { blank.parts ≡ 16 }
    requires book { opened.seen.book ≡ L.book }
    requires taking { (taking.name ≡ L.taking) × (taking.parts ≡ 1) }

    // What the desk is opened on: the history that the file stands for, at this moment.
    requires opening { L.opening.history ≡ kept.state }
    requires seats { L.seats ≡ seats }
    requires begun { L.begun ≡ D.moment kept.log.device }
    requires lines { L.lines ≡ recovered (D.seen kept.log.device) }
    requires kept { IsKeptHistory D.Device kept }

    // No connection came yet.
    requires first { N.accepted connections ≡ 0 }

    // How the day ends, and what the exit statuses 0 and 3 tell.
    ensures ends { (text : List ℕ) × Appends (W.contents writer.old) (W.contents writer.new) text
        × EndsKeptDay I.Source O.Sink N.Accepts D.Device L.opening L.begun L.seats kept.log.device result text }
    ensures flushed { result.status ≡ 0 → W.flushed writer.new ≡ true }
    ensures failed { result.status ≡ 3 → FailsKeptDay I.Source O.Sink N.Accepts D.Device L.opening L.seats result (W.failed writer.new) }
{
    let opening = Desk::<L, D>::open_at(alloc, opened, blank, taking, seats, kept);
    let (desk, passes) = match opening {
        Ok(made) => made,
        Err((kept, DeskErr::BadSeats)) => return never_begun(BAD_COMMAND_LINE, kept),
        Err((kept, DeskErr::NoMemory)) => return never_begun(NO_MEMORY, kept),
    };
    let desk = KeptDesk::of(desk);
    match serve_all_kept::<L, R, N, I, O, D, M>(rt, alloc, connections, &desk, passes, mover) {
        Ok(passes) => settled::<L, N, I, O, D, W>(alloc, desk, passes, writer),
        Err(status) => left_off(alloc, desk, status),
    }
}

/// Serves a desk of so many seats on the history of a journal, whose file it gives back: accepts a connection for each seat,
/// serves the seat's pass on it, where a reply is told only after the changes of its turn are in the file, joins them all, settles,
/// and prints the number of entries and the workbook. The file stands for the history then, and a crash at any moment leaves
/// the history after the first so many entries. The exit status is as that of a desk without a journal; 3 comes also where the
/// file failed, which is told: nothing more is replied then on any connection.
pub fn serve_kept_on<
    R: Threads + Wait + Sync,
    N: Accepts<I, O> + Drop,
    I: Source + Send + Drop,
    O: Sink + Send + Drop,
    D: Device + Send + Drop,
    W: Sink,
    M: Mover + Sync,
>(
    rt: &R,
    alloc: Global,
    connections: N,
    seats: usize,
    kept: Kept<History, D>,
    writer: &mut W,
    mover: &M,
) -> KeptRun<D>
    requires kept { IsKeptHistory D.Device kept }
    requires first { N.accepted connections ≡ 0 }
    ensures ends { (text : List ℕ) × Appends (W.contents writer.old) (W.contents writer.new) text
        × EndsKeptDay I.Source O.Sink N.Accepts D.Device (whole_from kept.state) (D.moment kept.log.device) seats kept.log.device result text }
    ensures flushed { result.status ≡ 0 → W.flushed writer.new ≡ true }
    ensures failed { result.status ≡ 3 → FailsKeptDay I.Source O.Sink N.Accepts D.Device (whole_from kept.state) seats result (W.failed writer.new) }
{
    serve_kept_day::<Brand, R, N, I, O, D, W, M>(
        rt,
        alloc,
        Opened::new(),
        Blank::new(16),
        Blank::new(1),
        connections,
        seats,
        kept,
        writer,
        mover,
    )
}
