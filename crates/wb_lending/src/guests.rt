//! What guests come from, who serves them, and who turns them away.
ghost use Rattle.std.specs.Prelude.{◌≡◌, ◌-◌, ◌≤◌, ℕ, Bool, true};
ghost use Rattle.wb_lending.specs.Coming.{with_one};

use std::thread::SpawnError;

/// What comes next.
pub enum Next<C> {
    /// A guest.
    Came(C),
    /// Nobody yet.
    Nobody,
    /// Nobody any more.
    Over,
}

/// What guests come from, one after another: who comes for a place as `C`, who comes while none is free as `D`; what is left of
/// one who was served is an `E`. None of them can be dropped, so a guest for a place is served and no other is, and who was served
/// leaves.
pub trait Guests<C, D, E> {
    // The guest of this number, from 0, came for a place as this.
    ghost came: { Self → ℕ → C → Type 0 };

    // How many came for a place.
    ghost counted: { Self → ℕ };

    // How many of them have not left.
    ghost inside: { Self → ℕ };

    // How many places there are.
    ghost places: { Self → ℕ };

    // Nobody comes any more.
    ghost over: { Self → Type 0 };

    // Whether a thread for a place could not be had.
    ghost failed: { Self → Bool };

    /// The next guest for a place, if one is there. It doesn't wait.
    fn next(&mut self) -> Next<C>
        ensures came { (c : C) → result ≡ Next.Came c → came self.new (counted self.old) c }
        ensures counted { counted self.new ≡ with_one result (counted self.old) }
        ensures inside { inside self.new ≡ with_one result (inside self.old) }
        ensures places { places self.new ≡ places self.old }
        ensures over { result ≡ Next.Over → over self.new };

    /// The next guest for whom no place is free, if one is there. It doesn't wait.
    fn surplus(&mut self) -> Next<D>
        ensures full { (d : D) → result ≡ Next.Came d → places self.old ≤ inside self.old }
        ensures counted { counted self.new ≡ counted self.old }
        ensures inside { inside self.new ≡ inside self.old }
        ensures places { places self.new ≡ places self.old }
        ensures over { result ≡ Next.Over → over self.new };

    /// A guest who was served leaves.
    fn leave(&mut self, served: E)
        ensures counted { counted self.new ≡ counted self.old }
        ensures inside { inside self.new ≡ inside self.old - 1 }
        ensures places { places self.new ≡ places self.old };

    /// A guest who was served leaves, and the place is there no more.
    fn retire(&mut self, served: E)
        ensures counted { counted self.new ≡ counted self.old }
        ensures inside { inside self.new ≡ inside self.old - 1 }
        ensures places { places self.new ≡ places self.old - 1 };

    /// Tells that no thread could be had for a place: from here on nobody comes any more.
    fn note_refused<F>(&mut self, refused: &SpawnError<F>)
        ensures { failed self.new ≡ true };
}

/// Who serves guests, each on what a place keeps.
pub trait Hosts<P, C, E> {
    // The guest was served, and the place keeps another thing then; and whether it may be lent on.
    ghost served: { P → C → P → Bool → Type 0 };

    /// Serves a guest: what the place keeps then, what is left of the guest, and whether the place may be lent on.
    fn serve(&self, kept: P, guest: C) -> (P, E, bool)
        ensures { served kept guest result.0 result.2 };

    /// Waits a while.
    fn rest(&self);
}

/// Who turns guests away.
pub trait TurnsAway<D> {
    // The guest was told that no place is free, and nothing else.
    ghost turned_away: { D → Type 0 };

    /// Tells a guest so.
    fn turn_away(&self, guest: D)
        ensures { turned_away guest };

    /// Waits a while.
    fn rest(&self);
}
