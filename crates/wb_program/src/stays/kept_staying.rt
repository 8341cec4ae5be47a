//! A desk that stays, whose changes are kept in a journal.
ghost use Rattle.std.specs.Prelude.{◌≡◌, ◌⊎◌, ℕ, List, IfOk, IfErr, length, true};
ghost use Rattle.std.specs.Io.KnownBytes.{Appends};
ghost use Rattle.wb_desk.specs.Serving.{new_passes};
ghost use Rattle.wb_keep.specs.Disk.Device.{Only};
ghost use Rattle.wb_keep.specs.Lines.{recovered};
ghost use Rattle.wb_lending.specs.Lending.{AllLent};
ghost use Rattle.wb_statuses.specs.Statuses.{IsFault};
ghost use Rattle.wb_sessions.specs.Keeping.{IsKeptHistory, writer_alone};
ghost use Rattle.wb_seats.specs.Early.{early_from};
ghost use Rattle.wb_program.specs.KeptDays.{BreaksOff};
ghost use Rattle.wb_program.specs.Stays.{hosts_at};
ghost use Rattle.wb_program.specs.KeptStays.{EndsKeptStay, FailsKeptStay, HostsKeptStay, RunsStay, SettlesKept, UsesStay};

use crate::kept_seat::KeptDesk;
use crate::kept_serving::{broken_off, left_off, never_begun, status_of_cause};
use crate::stays::kept_seating::lend_kept_seats;
use crate::stays::landing::land;
use crate::stays::staying::status_of;
use std::alloc::Global;
use std::fs::{File, Files};
use std::marker::Brand;
use std::sync::ledger::Blank;
use std::sync::{Mutex, Wait};
use std::thread::Threads;
use std::time::Clock;
use wb_arrays::Mover;
use wb_command::Stay;
use wb_company::Company;
use wb_desk::{DeskErr, Pass};
use wb_history::History;
use wb_keep::disk::{Device, Replaces};
use wb_kept::{Changes, Kept};
use wb_kept_group::group::Opened;
use wb_kept_seats::{Desk, KeptOpening, Settled, Unsettled, settle};
use wb_lending::Guests;
use wb_lines::{Sink, Source};
use wb_seats::{Early, print_all};
use wb_sessions::{FileFault, KeptRun, OpensFiles, opened, turned_away};
use wb_statuses::{BAD_COMMAND_LINE, INPUT_OR_OUTPUT_FAILED, NO_MEMORY};
use wb_visits::{Lands, Left, Surplus, Visit};

// Lends each seat to one connection after another, until nobody comes any more: the passes, or the exit status that is left.
fn lend_all_kept<
    L: KeptOpening + Send + Sync,
    R: Threads + Wait + Clock + Eprint + Sync,
    G: Guests<Visit<I, O>, Surplus<T>, Left> + Send + Drop,
    I: Source + Send + Drop,
    O: Sink + Send + Drop,
    T: Sink + Send + Drop,
    D: Device + Send + Drop,
    M: Mover + Sync,
>(
    rt: &R,
    alloc: Global,
    guests: G,
    desk: &KeptDesk<L, D>,
    company: &Company,
    passes: Vec<Pass<L>>,
    mover: &M,
) -> Result<Vec<Pass<L>>, u8>
    requires early { L.opening.early ≡ true }
    ensures ok { IfOk result (λ ks. AllLent G.Guests (hosts_at I.Source O.Sink G.Guests L.seats L.opening) passes.items ks.items) }
    ensures fault { IfErr result (λ status. IsFault status) }
    ensures failed { IfErr result (λ status. status ≡ 3 → (from : G) × (G.failed from ≡ true)) }
{
    let guests = Mutex::new(guests);
    let early = Early::<L>::allowed();
    match lend_kept_seats::<L, R, G, I, O, T, D, M>(
        rt, alloc, desk, &early, company, &guests, passes, mover,
    ) {
        Ok(passes) => Ok(passes),
        Err(why) => Err(status_of(why)),
    }
}

// Settles a desk whose passes came back, and prints how many entries there are and the workbook.
fn settled<
    L: KeptOpening,
    G: Guests<Visit<I, O>, Surplus<T>, Left>,
    I: Source,
    O: Sink,
    T,
    D: Device + Drop,
    W: Sink,
>(alloc: Global, desk: KeptDesk<L, D>, passes: Vec<Pass<L>>, writer: &mut W) -> KeptRun<D>
    requires back { AllLent G.Guests (hosts_at I.Source O.Sink G.Guests L.seats L.opening) (new_passes L.seats) passes.items }
    ensures ends { (text : List ℕ) × Appends (W.contents writer.old) (W.contents writer.new) text
        × (SettlesKept I.Source O.Sink G.Guests D.Device L.opening L.begun L.seats result text
        ⊎ BreaksOff D.Device L.opening L.begun L.seats result text) }
    ensures flushed { result.status ≡ 0 → W.flushed writer.new ≡ true }
    ensures failed { result.status ≡ 3 → FailsKeptStay I.Source O.Sink G.Guests D.Device L.opening L.seats result (W.failed writer.new) }
{
    let (desk, failing) = desk.into_parts();
    match settle(desk, passes) {
        Ok(done) => {
            let Settled { seats, log } = done;
            let status = print_all(alloc, seats.shared(), writer);
            KeptRun {
                status,
                fault: None,
                file: log.device,
            }
        }
        Err(left) => {
            let Unsettled {
                seats,
                log,
                cause,
                ..
            } = left;
            broken_off(&seats, log, &failing.after(cause), status_of_cause(cause))
        }
    }
}

// A desk that stays, whose changes are kept: opened, lent and settled.
fn lend_kept_desk<
    L: KeptOpening + Send + Sync,
    R: Threads + Wait + Clock + Eprint + Sync,
    G: Guests<Visit<I, O>, Surplus<T>, Left> + Send + Drop,
    I: Source + Send + Drop,
    O: Sink + Send + Drop,
    T: Sink + Send + Drop,
    D: Device + Send + Drop,
    W: Sink,
    M: Mover + Sync,
>(
    rt: &R,
    alloc: Global,
    opened: Opened<Changes>,
    blank: Blank,
    taking: Blank,
    guests: G,
    company: &Company,
    seats: usize,
    kept: Kept<History, D>,
    writer: &mut W,
    mover: &M,
) -> KeptRun<D>
    // Two new ledgers and a new book, which are the desk's.
    requires name { blank.name ≡ L.name }
    requires parts { blank.parts ≡ L.parts }
    requires sixteen { blank.parts ≡ 16 }
    requires book { opened.seen.book ≡ L.book }
    requires taking { (taking.name ≡ L.taking) × (taking.parts ≡ 1) }

    // What the desk is opened on: the history that the file stands for, at this moment.
    requires opening { L.opening.history ≡ kept.state }
    requires early { L.opening.early ≡ true }
    requires seats { L.seats ≡ seats }
    requires begun { L.begun ≡ D.moment kept.log.device }
    requires lines { L.lines ≡ recovered (D.seen kept.log.device) }
    requires kept { IsKeptHistory D.Device kept }

    // Nobody came yet.
    requires places { G.places guests ≡ seats }
    requires first { G.inside guests ≡ 0 }

    // How it ends, and what the exit statuses 0 and 3 tell.
    ensures ends { (text : List ℕ) × Appends (W.contents writer.old) (W.contents writer.new) text
        × EndsKeptStay I.Source O.Sink G.Guests D.Device L.opening L.begun L.seats kept.log.device result text }
    ensures flushed { result.status ≡ 0 → W.flushed writer.new ≡ true }
    ensures failed { result.status ≡ 3 → FailsKeptStay I.Source O.Sink G.Guests D.Device L.opening L.seats result (W.failed writer.new) }
{
    let opening = Desk::<L, D>::open_at(alloc, opened, blank, taking, seats, kept);
    let (desk, passes) = match opening {
        Ok(made) => made,
        Err((kept, DeskErr::BadSeats)) => return never_begun(BAD_COMMAND_LINE, kept),
        Err((kept, DeskErr::NoMemory)) => return never_begun(NO_MEMORY, kept),
    };
    let desk = KeptDesk::of(desk);
    match lend_all_kept::<L, R, G, I, O, T, D, M>(
        rt, alloc, guests, &desk, company, passes, mover,
    ) {
        Ok(passes) => settled::<L, G, I, O, T, D, W>(alloc, desk, passes, writer),
        Err(status) => left_off(alloc, desk, status),
    }
}

/// Lends the seats of a desk on the history of a journal, whose file it gives back, as `lend_on` does, where a reply is told only after
/// the changes of its turn are in the file. The file stands for the history in the end, and a crash at any moment leaves the history
/// after the first so many entries. The exit status is as that of a day's desk (`serve_kept_on`).
pub fn lend_kept_on<
    R: Threads + Wait + Clock + Eprint + Sync,
    G: Guests<Visit<I, O>, Surplus<T>, Left> + Send + Drop,
    I: Source + Send + Drop,
    O: Sink + Send + Drop,
    T: Sink + Send + Drop,
    D: Device + Send + Drop,
    W: Sink,
    M: Mover + Sync,
>(
    rt: &R,
    alloc: Global,
    guests: G,
    company: &Company,
    seats: usize,
    kept: Kept<History, D>,
    writer: &mut W,
    mover: &M,
) -> KeptRun<D>
    requires kept { IsKeptHistory D.Device kept }
    requires places { G.places guests ≡ seats }
    requires first { G.inside guests ≡ 0 }
    ensures ends { (text : List ℕ) × Appends (W.contents writer.old) (W.contents writer.new) text
        × EndsKeptStay I.Source O.Sink G.Guests D.Device (early_from kept.state) (D.moment kept.log.device) seats kept.log.device result text }
    ensures flushed { result.status ≡ 0 → W.flushed writer.new ≡ true }
    ensures failed { result.status ≡ 3 → FailsKeptStay I.Source O.Sink G.Guests D.Device (early_from kept.state) seats result (W.failed writer.new) }
{
    lend_kept_desk::<Brand, R, G, I, O, T, D, W, M>(
        rt,
        alloc,
        Opened::new(),
        Blank::new(16),
        Blank::new(1),
        guests,
        company,
        seats,
        kept,
        writer,
        mover,
    )
}

// A desk that stays, on the history of a journal that was opened.
fn host_stay<
    R: Threads + Wait + Clock + Eprint + Sync,
    B: Lands<G, Visit<I, O>, Surplus<T>, Left>,
    G: Guests<Visit<I, O>, Surplus<T>, Left> + Send + Drop,
    I: Source + Send + Drop,
    O: Sink + Send + Drop,
    T: Sink + Send + Drop,
    D: Device + Send + Drop,
    W: Sink,
    M: Mover + Sync,
>(
    rt: &R,
    alloc: Global,
    ports: &mut B,
    company: &Company,
    asked: &Stay<'_>,
    kept: Kept<History, D>,
    writer: &mut W,
    mover: &M,
) -> KeptRun<D>
    requires kept { IsKeptHistory D.Device kept }
    ensures hosts { (text : List ℕ) × Appends (W.contents writer.old) (W.contents writer.new) text
        × HostsKeptStay I.Source O.Sink G.Guests D.Device (early_from kept.state) (D.moment kept.log.device) asked.now.place asked.now.seats kept.log.device result text }
    ensures flushed { result.status ≡ 0 → W.flushed writer.new ≡ true }
    ensures failed { result.status ≡ 3 → (B.failed ports.new ≡ true)
        ⊎ FailsKeptStay I.Source O.Sink G.Guests D.Device (early_from kept.state) asked.now.seats result (W.failed writer.new) }
{
    match land(alloc, ports, &asked.place, asked.seats, writer) {
        Ok(guests) => lend_kept_on::<R, G, I, O, T, D, W, M>(
            rt,
            alloc,
            guests,
            company,
            asked.seats as usize,
            kept,
            writer,
            mover,
        ),
        Err(status) => KeptRun {
            status,
            fault: None,
            file: kept.log.device,
        },
    }
}

/// A desk that stays, on the history that a journal has, whose file holds these bytes. It opens the journal first, as
/// `host_kept_with` does, then tells where it listens, and then lends its seats as `lend_kept_on` does.
pub fn stay_kept_with<
    R: Threads + Wait + Clock + Eprint + Sync,
    B: Lands<G, Visit<I, O>, Surplus<T>, Left>,
    G: Guests<Visit<I, O>, Surplus<T>, Left> + Send + Drop,
    I: Source + Send + Drop,
    O: Sink + Send + Drop,
    T: Sink + Send + Drop,
    D: Device + Send + Drop,
    W: Sink,
    M: Mover + Sync,
>(
    rt: &R,
    alloc: Global,
    ports: &mut B,
    company: &Company,
    asked: &Stay<'_>,
    file: D,
    held: &[u8],
    writer: &mut W,
    mover: &M,
) -> KeptRun<D>
    requires read { D.seen file ≡ held.now }
    requires durable { Only (D.seen file) (D.may_leave file) }
    ensures runs { RunsStay I.Source O.Sink G.Guests D.Device file held.now asked.now.place asked.now.seats result (B.failed ports.new) (writer_alone W.Sink writer.old writer.new) }
    ensures flushed { result.status ≡ 0 → W.flushed writer.new ≡ true }
{
    match opened(alloc, file, held, mover) {
        Ok(kept) => host_stay::<R, B, G, I, O, T, D, W, M>(
            rt, alloc, ports, company, asked, kept, writer, mover,
        ),
        Err((why, file)) => turned_away(alloc, why, file, writer),
    }
}

/// A desk that stays, on the history that the journal at a path has, as `stay_kept_with` has it; the file is given back.
pub fn stay_kept<
    R: Threads + Wait + Clock + Eprint + Files<File = File> + Sync,
    B: Lands<G, Visit<I, O>, Surplus<T>, Left>,
    G: Guests<Visit<I, O>, Surplus<T>, Left> + Send + Drop,
    I: Source + Send + Drop,
    O: Sink + Send + Drop,
    T: Sink + Send + Drop,
    D: Replaces + Send + Drop,
    J: OpensFiles<D>,
    W: Sink,
    M: Mover + Sync,
>(
    rt: &R,
    alloc: Global,
    ports: &mut B,
    files: &mut J,
    path: &str,
    company: &Company,
    asked: &Stay<'_>,
    writer: &mut W,
    mover: &M,
) -> u8
    ensures keeps { UsesStay I.Source O.Sink G.Guests D.Device J.OpensFiles path.now asked.now.place asked.now.seats result (B.failed ports.new) files.new
        (writer_alone W.Sink writer.old writer.new) }
    ensures flushed { result ≡ 0 → W.flushed writer.new ≡ true }
{
    match files.open(path) {
        Ok((file, held)) => {
            company.watch(rt, path);
            let KeptRun {
                status,
                fault,
                file,
            } = stay_kept_with::<R, B, G, I, O, T, D, W, M>(
                rt, alloc, ports, company, asked, file, &held, writer, mover,
            );
            files.close(file, fault);
            status
        }
        Err(FileFault::NoMemory) => NO_MEMORY,
        Err(_) => INPUT_OR_OUTPUT_FAILED,
    }
}
