//! Where a desk that stays listens.
ghost use Rattle.std.specs.Prelude.{◌≡◌, ◌⊎◌, ℕ, true, IfOk, IfErr, string_bytes, take};
ghost use Rattle.std.specs.Io.KnownBytes.{Appends};
ghost use Rattle.wb_statuses.specs.Statuses.{IsFault};
ghost use Rattle.wb_program.specs.Stays.{listening_at};

use std::alloc::Global;
use wb_command::Place;
use wb_lending::Guests;
use wb_lines::Sink;
use wb_statuses::{DONE, INPUT_OR_OUTPUT_FAILED, NO_MEMORY, tell};
use wb_visits::{BindErr, Lands};

// The exit status where a place could not be had.
fn status_of(why: BindErr) -> u8
    ensures fault { IsFault result }
    ensures failed { result ≡ 3 → why ≡ BindErr.Failed }
{
    match why {
        BindErr::Failed => INPUT_OR_OUTPUT_FAILED,
        BindErr::NoMemory => NO_MEMORY,
    }
}

// Listens at a place: what connections come from, and the line that tells where.
fn landed<B: Lands<G, C, D, E>, G: Guests<C, D, E> + Drop, C, D, E>(
    alloc: Global,
    ports: &mut B,
    place: &Place<'_>,
    seats: u8,
) -> Result<(G, String), u8>
    ensures first { IfOk result (λ b. (G.inside b.0 ≡ 0) × (G.places b.0 ≡ seats)) }
    ensures line { IfOk result (λ b. (bound : ℕ) × (string_bytes b.1 ≡ listening_at place.now bound)) }
    ensures fault { IfErr result (λ status. IsFault status) }
    ensures failed { IfErr result (λ status. status ≡ 3 → B.failed ports.new ≡ true) }
{
    match place {
        Place::Port(port) => match ports.land(*port, seats) {
            Ok((guests, bound)) => match format!(in alloc; "listening on 127.0.0.1:{bound}\n") {
                Ok(line) => Ok((guests, line)),
                Err(_) => Err(NO_MEMORY),
            },
            Err(why) => Err(status_of(why)),
        },
        Place::Socket(path) => match ports.land_at(path.as_str(), seats) {
            Ok(guests) => match format!(in alloc; "listening on {}\n", path.as_str()) {
                Ok(line) => Ok((guests, line)),
                Err(_) => Err(NO_MEMORY),
            },
            Err(why) => Err(status_of(why)),
        },
    }
}

/// Listens at a place and tells where: what connections come from for so many seats, or the exit status after a fault.
pub(crate) fn land<B: Lands<G, C, D, E>, G: Guests<C, D, E> + Drop, C, D, E, W: Sink>(
    alloc: Global,
    ports: &mut B,
    place: &Place<'_>,
    seats: u8,
    writer: &mut W,
) -> Result<G, u8>
    ensures first { IfOk result (λ g. (G.inside g ≡ 0) × (G.places g ≡ seats)) }
    ensures told { IfOk result (λ _. (bound : ℕ) × Appends (W.contents writer.old) (W.contents writer.new) (listening_at place.now bound)) }
    ensures fault { IfErr result (λ status. IsFault status × ((bound count : ℕ)
        × Appends (W.contents writer.old) (W.contents writer.new) (take count (listening_at place.now bound)))) }
    ensures failed { IfErr result (λ status. status ≡ 3 → (B.failed ports.new ≡ true) ⊎ (W.failed writer.new ≡ true)) }
{
    let (guests, line) = match landed(alloc, ports, place, seats) {
        Ok(landed) => landed,
        Err(status) => return Err(status),
    };
    let told = tell(line.as_str(), writer);
    if told == DONE {
        return Ok(guests);
    }
    Err(told)
}
