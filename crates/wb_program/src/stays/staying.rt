//! A desk that stays, whose changes aren't kept.
ghost use Rattle.std.specs.Prelude.{◌≡◌, ◌⊎◌, ℕ, List, IfOk, IfErr, length, true};
ghost use Rattle.std.specs.Io.KnownBytes.{Appends};
ghost use Rattle.wb_desk.specs.Openings.{nothing_done};
ghost use Rattle.wb_lending.specs.Lending.{AllLent};
ghost use Rattle.wb_seats.specs.Early.{early_from};
ghost use Rattle.wb_statuses.specs.Statuses.{IsFault};
ghost use Rattle.wb_program.specs.Stays.{hosts_at, EndsStay, FailsStay, HostsStay};

use crate::stays::landing::land;
use crate::stays::seating::lend_seats;
use std::alloc::Global;
use std::marker::Brand;
use std::sync::ledger::Blank;
use std::sync::{Mutex, Wait};
use std::thread::Threads;
use std::time::Clock;
use wb_arrays::Mover;
use wb_command::Stay;
use wb_company::Company;
use wb_desk::{Desk, DeskErr, Opening, Pass, settle};
use wb_history::History;
use wb_lending::{Guests, LendErr};
use wb_lines::{Sink, Source};
use wb_seats::{Early, print_all};
use wb_statuses::{BAD_COMMAND_LINE, INPUT_OR_OUTPUT_FAILED, NO_MEMORY};
use wb_visits::{Lands, Left, Surplus, Visit};

/// Why seats are not lent: the exit status.
pub(crate) fn status_of(why: LendErr) -> u8
    ensures fault { IsFault result }
    ensures thread { result ≡ 3 → why ≡ LendErr.NoThread }
{
    match why {
        LendErr::NoThread => INPUT_OR_OUTPUT_FAILED,
        LendErr::NoMemory => NO_MEMORY,
    }
}

// Lends each seat of a desk to one connection after another, until nobody comes any more: the passes, or the exit status that is
// left.
fn lend_all<
    L: Opening + Send + Sync,
    R: Threads + Wait + Clock + Eprint + Sync,
    G: Guests<Visit<I, O>, Surplus<T>, Left> + Send + Drop,
    I: Source + Send + Drop,
    O: Sink + Send + Drop,
    T: Sink + Send + Drop,
    M: Mover + Sync,
>(
    rt: &R,
    alloc: Global,
    guests: G,
    desk: &Desk<L>,
    company: &Company,
    passes: Vec<Pass<L>>,
    mover: &M,
) -> Result<Vec<Pass<L>>, u8>
    requires early { L.opening.early ≡ true }
    ensures ok { IfOk result (λ ks. AllLent G.Guests (hosts_at I.Source O.Sink G.Guests L.seats L.opening) passes.items ks.items) }
    ensures fault { IfErr result (λ status. IsFault status) }
    ensures failed { IfErr result (λ status. status ≡ 3 → (from : G) × (G.failed from ≡ true)) }
{
    let guests = Mutex::new(guests);
    let early = Early::<L>::allowed();
    match lend_seats::<L, R, G, I, O, T, M>(
        rt, alloc, desk, &early, company, &guests, passes, mover,
    ) {
        Ok(passes) => Ok(passes),
        Err(why) => Err(status_of(why)),
    }
}

// A desk that stays: opened, lent and settled. The exit status.
fn lend_desk<
    L: Opening + Send + Sync,
    R: Threads + Wait + Clock + Eprint + Sync,
    G: Guests<Visit<I, O>, Surplus<T>, Left> + Send + Drop,
    I: Source + Send + Drop,
    O: Sink + Send + Drop,
    T: Sink + Send + Drop,
    W: Sink,
    M: Mover + Sync,
>(
    rt: &R,
    alloc: Global,
    blank: Blank,
    guests: G,
    company: &Company,
    seats: usize,
    history: History,
    writer: &mut W,
    mover: &M,
) -> u8
    // A new ledger of sixteen parts, and what the desk is opened on; nobody came yet.
    requires name { blank.name ≡ L.name }
    requires parts { blank.parts ≡ L.parts }
    requires sixteen { blank.parts ≡ 16 }
    requires opening { L.opening.history ≡ history }
    requires early { L.opening.early ≡ true }
    requires seats { L.seats ≡ seats }
    requires places { G.places guests ≡ seats }
    requires first { G.inside guests ≡ 0 }

    // What is printed, and what the exit statuses 0 and 3 tell.
    ensures prints { (text : List ℕ) × Appends (W.contents writer.old) (W.contents writer.new) text
        × EndsStay I.Source O.Sink G.Guests L.opening seats result text }
    ensures flushed { result ≡ 0 → W.flushed writer.new ≡ true }
    ensures failed { result ≡ 3 → FailsStay I.Source O.Sink G.Guests L.opening seats (W.failed writer.new) }
{
    let (desk, passes) = match Desk::<L>::open_at(alloc, blank, seats, history) {
        Ok(made) => made,
        Err((_, DeskErr::BadSeats)) => return BAD_COMMAND_LINE,
        Err((_, DeskErr::NoMemory)) => return NO_MEMORY,
    };
    let passes = match lend_all::<L, R, G, I, O, T, M>(
        rt, alloc, guests, &desk, company, passes, mover,
    ) {
        Ok(passes) => passes,
        Err(status) => return status,
    };
    match settle(desk, passes) {
        Ok(shared) => print_all(alloc, &shared, writer),
        Err(_) => INPUT_OR_OUTPUT_FAILED,
    }
}

/// Lends the seats of a desk to the connections that come, each seat to one after another, until nobody comes any more; settles, and
/// prints the number of entries, with those that were settled early, and the workbook. A seat is settled early after each connection,
/// and before a line that finds 64 entries or more, or a long reply. One whose pass and the desk differ is lent no more, which is told on
/// standard error.
/// The exit status is as that of a day's desk (`serve_on` of `wb_seats`).
pub fn lend_on<
    R: Threads + Wait + Clock + Eprint + Sync,
    G: Guests<Visit<I, O>, Surplus<T>, Left> + Send + Drop,
    I: Source + Send + Drop,
    O: Sink + Send + Drop,
    T: Sink + Send + Drop,
    W: Sink,
    M: Mover + Sync,
>(
    rt: &R,
    alloc: Global,
    guests: G,
    company: &Company,
    seats: usize,
    writer: &mut W,
    mover: &M,
) -> u8
    requires places { G.places guests ≡ seats }
    requires first { G.inside guests ≡ 0 }
    ensures prints { (text : List ℕ) × Appends (W.contents writer.old) (W.contents writer.new) text
        × EndsStay I.Source O.Sink G.Guests (early_from nothing_done) seats result text }
    ensures flushed { result ≡ 0 → W.flushed writer.new ≡ true }
    ensures failed { result ≡ 3 → FailsStay I.Source O.Sink G.Guests (early_from nothing_done) seats (W.failed writer.new) }
{
    let history = History::new(alloc);
    lend_desk::<Brand, R, G, I, O, T, W, M>(
        rt,
        alloc,
        Blank::new(16),
        guests,
        company,
        seats,
        history,
        writer,
        mover,
    )
}

/// A desk that stays, on an empty workbook: it tells where it listens, and lends its seats as `lend_on` does. The exit status.
pub fn stay<
    R: Threads + Wait + Clock + Eprint + Sync,
    B: Lands<G, Visit<I, O>, Surplus<T>, Left>,
    G: Guests<Visit<I, O>, Surplus<T>, Left> + Send + Drop,
    I: Source + Send + Drop,
    O: Sink + Send + Drop,
    T: Sink + Send + Drop,
    W: Sink,
    M: Mover + Sync,
>(
    rt: &R,
    alloc: Global,
    ports: &mut B,
    company: &Company,
    asked: &Stay<'_>,
    writer: &mut W,
    mover: &M,
) -> u8
    ensures hosts { (text : List ℕ) × Appends (W.contents writer.old) (W.contents writer.new) text
        × HostsStay I.Source O.Sink G.Guests (early_from nothing_done) asked.now.place asked.now.seats result text }
    ensures flushed { result ≡ 0 → W.flushed writer.new ≡ true }
    ensures failed { result ≡ 3 → (B.failed ports.new ≡ true)
        ⊎ FailsStay I.Source O.Sink G.Guests (early_from nothing_done) asked.now.seats (W.failed writer.new) }
{
    match land(alloc, ports, &asked.place, asked.seats, writer) {
        Ok(guests) => lend_on::<R, G, I, O, T, W, M>(
            rt,
            alloc,
            guests,
            company,
            asked.seats as usize,
            writer,
            mover,
        ),
        Err(status) => status,
    }
}
