//! A desk on connections: each seat's lines come on a connection of its own, in a thread of its own.
ghost use Rattle.std.specs.Prelude.{◌≡◌, ℕ, List, IfOk, IfErr, string_bytes, true, false};
ghost use Rattle.std.specs.Io.KnownBytes.{Appends};
ghost use Rattle.wb_desk.specs.Openings.{nothing_done, whole_from};
ghost use Rattle.wb_statuses.specs.Statuses.{IsFault, IsPrinted};
ghost use Rattle.wb_seats.specs.Early.{PrintsAll};
ghost use Rattle.wb_seats.specs.Serving.{AnswersSeat, shown, settled_text, PrintsSettled};
ghost use Rattle.wb_seats.specs.Days.{ServedOn, AllBack, EndsDay, FailsDay};

use crate::early::{Settlings, WithItsDesk};
use crate::seat::serve_seat;
use std::alloc::Global;
use std::marker::Brand;
use std::snapshot::Snapshot;
use std::sync::Wait;
use std::sync::ledger::Blank;
use std::thread;
use std::thread::{Promise, Threads};
use wb_arrays::Mover;
use wb_connections::{AcceptErr, Accepts, Door};
use wb_desk::{Desk, DeskErr, Opening, Pass, Shared, settle};
use wb_history::History;
use wb_lines::{Sink, Source};
use wb_machine::encoding::print_history;
use wb_range::NoMemory;
use wb_reading::print_book;
use wb_statuses::{BAD_COMMAND_LINE, INPUT_OR_OUTPUT_FAILED, NO_MEMORY, tell};

/// What the thread of a seat promises: its pass, served on the connection.
pub struct Promised<L: Opening, I, O> {
    /// The pass.
    pub pass: Snapshot<Pass<L>>,
    /// The connection's reader.
    pub reader: Snapshot<I>,
    /// The connection's writer.
    pub writer: Snapshot<O>,
}

impl<L: Opening, I, O> Drop for Promised<L, I, O> {
    fn drop(self) {
        let Promised {
            pass: _,
            reader: _,
            writer: _,
        } = self;
    }
}

impl<L: Opening, I: Source, O: Sink> Promise<Pass<L>> for Promised<L, I, O> {
    ghost kept_by = { λ p k. ServedOn I.Source O.Sink (AnswersSeat L.opening) p.pass.value p.reader.value p.writer.value k };
}

/// Answers what is heard of a connection at a seat until its end or a fault, and gives the pass back. Replies are gathered while
/// more lines lie ahead.
pub fn serve_connection<
    L: Opening,
    S: Settlings<L>,
    R: Wait,
    I: Source + Drop,
    O: Sink + Drop,
    M: Mover,
>(
    rt: &R,
    alloc: Global,
    desk: &Desk<L>,
    settlings: &S,
    pass: Pass<L>,
    reader: I,
    writer: O,
    mover: &M,
) -> Pass<L>
    ensures { ServedOn I.Source O.Sink S.answers pass reader writer result }
{
    let mut door = Door::of(reader);
    let mut writer = writer;
    serve_seat(
        rt,
        alloc,
        desk,
        settlings,
        pass,
        &mut door,
        &mut writer,
        mover,
    )
}

// Accepts a connection for each pass, serves it there in a thread of its own, and joins them all: the passes, or the exit
// status that is left.
fn serve_all<
    L: Opening + Send + Sync,
    R: Threads + Wait + Sync,
    N: Accepts<I, O> + Drop,
    I: Source + Send + Drop,
    O: Sink + Send + Drop,
    M: Mover + Sync,
>(
    rt: &R,
    alloc: Global,
    connections: N,
    desk: &Desk<L>,
    passes: Vec<Pass<L>>,
    mover: &M,
) -> Result<Vec<Pass<L>>, u8>
    requires { N.accepted connections ≡ 0 }
    ensures ok { IfOk result (λ ks. (from : N) × AllBack I.Source O.Sink N.Accepts L.opening from passes.items ks.items) }
    ensures fault { IfErr result (λ status. IsFault status) }
    ensures failed { IfErr result (λ status. status ≡ 3 → (from : N) × (N.failed from ≡ true)) }
{
    thread::scope(
        thread::scope_env(),
        rt,
        move |scope| -> Result<Vec<Pass<L>>, u8>
            requires { N.accepted connections ≡ 0 }
            ensures ok { IfOk result (λ ks. (from : N) × AllBack I.Source O.Sink N.Accepts L.opening from passes.items ks.items) }
            ensures fault { IfErr result (λ status. IsFault status) }
            ensures failed { IfErr result (λ status. status ≡ 3 → (from : N) × (N.failed from ≡ true)) }
        {
            let mut connections = connections;
            let mut handles = Vec::new(alloc);
            for pass in passes {
                let (reader, writer) = match connections.accept(alloc) {
                    Ok(came) => came,
                    Err(AcceptErr::Failed) => return Err(INPUT_OR_OUTPUT_FAILED),
                    Err(AcceptErr::NoMemory) => return Err(NO_MEMORY),
                };
                let promise = Promised {
                    pass: Snapshot::of(&pass),
                    reader: Snapshot::of(&reader),
                    writer: Snapshot::of(&writer),
                };
                match scope.spawn_with(promise, move || {
                    serve_connection::<L, WithItsDesk, R, I, O, M>(
                        rt,
                        alloc,
                        desk,
                        &WithItsDesk,
                        pass,
                        reader,
                        writer,
                        mover,
                    )
                }) {
                    Ok(handle) => {
                        if handles.push(handle).is_err() {
                            return Err(NO_MEMORY);
                        }
                    }
                    Err(refused) => {
                        connections.note_refused(&refused);
                        return Err(INPUT_OR_OUTPUT_FAILED);
                    }
                }
            }
            match thread::join_promised(rt, handles) {
                Ok(passes) => Ok(passes),
                Err(_) => Err(NO_MEMORY),
            }
        },
    )
}

// The text of the workbook, or of the whole history.
fn shown(alloc: Global, history: &History, whole: bool) -> Result<String, NoMemory>
    ensures { IfOk result (λ t. string_bytes t ≡ shown whole history.now.entries) }
{
    if whole {
        print_history(alloc, history)
    } else {
        print_book(alloc, history.book())
    }
}

// A number of entries, and the text of the workbook or of the whole history.
fn settled_text(
    alloc: Global,
    count: u64,
    history: &History,
    whole: bool,
) -> Result<String, NoMemory>
    ensures { IfOk result (λ t. string_bytes t ≡ settled_text whole count history.now.entries) }
{
    let text = shown(alloc, history, whole)?;
    Ok(format!(in alloc; "settled {count}\n{text}")?)
}

// Prints a number of entries, and the workbook or the history: the exit status.
fn tell_settled<W: Sink>(
    alloc: Global,
    count: u64,
    history: &History,
    whole: bool,
    writer: &mut W,
) -> u8
    ensures prints { (text : List ℕ) × Appends (W.contents writer.old) (W.contents writer.new) text
        × IsPrinted (settled_text whole count history.now.entries) result text }
    ensures flushed { result ≡ 0 → W.flushed writer.new ≡ true }
    ensures failed { result ≡ 3 → W.failed writer.new ≡ true }
{
    let text = match settled_text(alloc, count, history, whole) {
        Ok(text) => text,
        Err(NoMemory) => return NO_MEMORY,
    };
    tell(text.as_str(), writer)
}

/// Prints how many entries are kept, and the workbook or the history: the exit status.
pub fn print_settled<L: Opening, W: Sink>(
    alloc: Global,
    shared: &Shared<L>,
    whole: bool,
    writer: &mut W,
) -> u8
    ensures prints { (text : List ℕ) × Appends (W.contents writer.old) (W.contents writer.new) text × PrintsSettled whole shared.now.course result text }
    ensures flushed { result ≡ 0 → W.flushed writer.new ≡ true }
    ensures failed { result ≡ 3 → W.failed writer.new ≡ true }
{
    let count = shared.entries() as u64;
    tell_settled(alloc, count, shared.history(), whole, writer)
}

/// Prints how many entries there are, those too that were settled early, and the workbook: the exit status.
pub fn print_all<L: Opening, W: Sink>(alloc: Global, shared: &Shared<L>, writer: &mut W) -> u8
    ensures prints { (text : List ℕ) × Appends (W.contents writer.old) (W.contents writer.new) text × PrintsAll shared.now.course result text }
    ensures flushed { result ≡ 0 → W.flushed writer.new ≡ true }
    ensures failed { result ≡ 3 → W.failed writer.new ≡ true }
{
    let kept = shared.entries() as u64;
    let count = shared.settled().saturating_add(kept);
    tell_settled(alloc, count, shared.history(), false, writer)
}

// A day of a desk: opened, served and settled. The exit status.
fn serve_day<
    L: Opening + Send + Sync,
    R: Threads + Wait + Sync,
    N: Accepts<I, O> + Drop,
    I: Source + Send + Drop,
    O: Sink + Send + Drop,
    W: Sink,
    M: Mover + Sync,
>(
    rt: &R,
    alloc: Global,
    blank: Blank,
    connections: N,
    seats: usize,
    history: History,
    whole: bool,
    writer: &mut W,
    mover: &M,
) -> u8
    // A new ledger of sixteen parts, and what the desk is opened on; no connection came yet.
    requires name { blank.name ≡ L.name }
    requires parts { blank.parts ≡ L.parts }
    requires sixteen { blank.parts ≡ 16 }
    requires opening { L.opening.history ≡ history }
    requires seats { L.seats ≡ seats }
    requires first { N.accepted connections ≡ 0 }

    // What is printed, and what the exit statuses 0 and 3 tell.
    ensures prints { (text : List ℕ) × Appends (W.contents writer.old) (W.contents writer.new) text
        × EndsDay I.Source O.Sink N.Accepts whole L.opening seats result text }
    ensures flushed { result ≡ 0 → W.flushed writer.new ≡ true }
    ensures failed { result ≡ 3 → FailsDay I.Source O.Sink N.Accepts L.opening seats (W.failed writer.new) }
{
    let (desk, passes) = match Desk::<L>::open_at(alloc, blank, seats, history) {
        Ok(made) => made,
        Err((_, DeskErr::BadSeats)) => return BAD_COMMAND_LINE,
        Err((_, DeskErr::NoMemory)) => return NO_MEMORY,
    };
    let passes = match serve_all::<L, R, N, I, O, M>(rt, alloc, connections, &desk, passes, mover) {
        Ok(passes) => passes,
        Err(status) => return status,
    };
    match settle(desk, passes) {
        Ok(shared) => print_settled(alloc, &shared, whole, writer),
        Err(_) => INPUT_OR_OUTPUT_FAILED,
    }
}

/// Serves a desk of so many seats: accepts a connection for each seat, serves the seat's pass on it, joins them all, settles, and
/// prints the number of entries and the workbook. The exit status: 0, and what is printed is the length of a journal that runs
/// from the empty workbook and has each seat's entries, and the text of the workbook that it makes, flushed; 2 for a number of
/// seats that no desk can have; 3 only where a connection or a thread could not be had, the desk did not settle or output
/// failed; 4 where a growth was refused.
pub fn serve_on<
    R: Threads + Wait + Sync,
    N: Accepts<I, O> + Drop,
    I: Source + Send + Drop,
    O: Sink + Send + Drop,
    W: Sink,
    M: Mover + Sync,
>(rt: &R, alloc: Global, connections: N, seats: usize, writer: &mut W, mover: &M) -> u8
    requires { N.accepted connections ≡ 0 }
    ensures prints { (text : List ℕ) × Appends (W.contents writer.old) (W.contents writer.new) text
        × EndsDay I.Source O.Sink N.Accepts false (whole_from nothing_done) seats result text }
    ensures flushed { result ≡ 0 → W.flushed writer.new ≡ true }
    ensures failed { result ≡ 3 → FailsDay I.Source O.Sink N.Accepts (whole_from nothing_done) seats (W.failed writer.new) }
{
    let history = History::new(alloc);
    serve_day::<Brand, R, N, I, O, W, M>(
        rt,
        alloc,
        Blank::new(16),
        connections,
        seats,
        history,
        false,
        writer,
        mover,
    )
}

/// Serves a desk of so many seats as `serve_on` does, with its exit statuses, but on the workbook of a history: the journal runs
/// from that history, and the text of the whole history is printed in the place of the workbook's.
pub fn serve_history<
    R: Threads + Wait + Sync,
    N: Accepts<I, O> + Drop,
    I: Source + Send + Drop,
    O: Sink + Send + Drop,
    W: Sink,
    M: Mover + Sync,
>(
    rt: &R,
    alloc: Global,
    connections: N,
    seats: usize,
    history: History,
    writer: &mut W,
    mover: &M,
) -> u8
    requires { N.accepted connections ≡ 0 }
    ensures prints { (text : List ℕ) × Appends (W.contents writer.old) (W.contents writer.new) text
        × EndsDay I.Source O.Sink N.Accepts true (whole_from history) seats result text }
    ensures flushed { result ≡ 0 → W.flushed writer.new ≡ true }
    ensures failed { result ≡ 3 → FailsDay I.Source O.Sink N.Accepts (whole_from history) seats (W.failed writer.new) }
{
    serve_day::<Brand, R, N, I, O, W, M>(
        rt,
        alloc,
        Blank::new(16),
        connections,
        seats,
        history,
        true,
        writer,
        mover,
    )
}
