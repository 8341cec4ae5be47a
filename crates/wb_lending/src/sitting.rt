//! The next guest for a place; and those for whom no place is free.
ghost use Rattle.std.specs.Prelude.{◌≡◌, ℕ};
ghost use Rattle.wb_lending.specs.Lending.{Ended};

use crate::guests::{Guests, Next, TurnsAway};
use std::sync::{Mutex, Wait};

/// The next guest for a place, if one is there.
pub fn taken<R: Wait, G: Guests<C, D, E>, C, D, E>(rt: &R, guests: &Mutex<G>) -> Next<C>
    ensures came { (c : C) → result ≡ Next.Came c → (g : G) × (n : ℕ) × G.came g n c }
    ensures over { result ≡ Next.Over → Ended G.Guests }
{
    guests.lock(rt).next()
}

/// Turns away who comes while no place is free, until nobody comes any more.
pub fn turn_away_all<R: Wait, T: TurnsAway<D>, G: Guests<C, D, E>, C, D, E>(
    rt: &R,
    porter: &T,
    guests: &Mutex<G>,
)
    ensures { Ended G.Guests }
{
    for _ in rt.forever() {
        let next = guests.lock(rt).surplus();
        match next {
            Next::Came(guest) => porter.turn_away(guest),
            Next::Nobody => porter.rest(),
            Next::Over => return,
        }
    }
    unreachable!()
}
