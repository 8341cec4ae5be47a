//! Who tells connections that no seat is free.
ghost use Rattle.std.specs.Prelude.{◌≡◌, ◌⊎◌, ℕ, List, true};
ghost use Rattle.std.specs.Io.KnownBytes.{Appends};
ghost use Rattle.wb_visits.specs.NoSeat.{IsTurnedAway, IsTold};

use crate::visit::Surplus;
use std::thread;
use std::time::{Clock, Duration};
use wb_lending::TurnsAway;
use wb_lines::{NothingHeld, Sink, send};

/// What is told where no seat is free.
const NO_SEAT: &str = "{\"error\":\"E93\",\"name\":\"no-seat\"}\n";

/// How many milliseconds who finds nobody waits before the next look.
const REST: u64 = 20;

/// Waits for a moment, since nobody came.
pub fn rest(clock: &impl Clock) {
    thread::sleep(clock, Duration::from_millis(REST));
}

/// Who tells connections that no seat is free, and standard error of each of them, where it isn't quiet.
#[derive(Drop)]
pub struct Porter<'a, R> {
    rt: &'a R,
    is_quiet: bool,
}

impl<'a, R> Porter<'a, R> {
    /// A porter, by a handle of the clock and of standard error.
    pub fn of(rt: &'a R, is_quiet: bool) -> Porter<'a, R> {
        Porter { rt, is_quiet }
    }
}

// Tells a writer that no seat is free, as far as it takes that.
fn tell_no_seat<O: Sink>(writer: &mut O)
    ensures { (text : List ℕ) × Appends (O.contents writer.old) (O.contents writer.new) text
        × IsTold (O.flushed writer.new) (O.failed writer.new) text }
{
    if send(writer, &NothingHeld, NO_SEAT.as_bytes()).is_err() {
        return;
    }
    let _ = writer.flush();
}

impl<'a, R: Clock + Eprint, O: Sink + Drop> TurnsAway<Surplus<O>> for Porter<'a, R> {
    ghost turned_away = { λ d. IsTurnedAway O.Sink d.writer };

    fn turn_away(&self, guest: Surplus<O>) {
        let mut writer = guest.into_writer();
        tell_no_seat(&mut writer);
        if !self.is_quiet {
            let _ = eprintln!(self.rt; "workbook: a connection found no seat");
        }
    }

    fn rest(&self) {
        rest(self.rt);
    }
}
