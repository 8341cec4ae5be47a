//! What is kept, told to those that wait for it without the lock under which it is kept.
ghost use Rattle.std.specs.Prelude.{◌≡◌, true};
ghost use Rattle.wb_kept_group.specs.Group.Keeping.{WasHad};

use crate::group::book::{Front, Group};
use crate::group::ends::{Ends, Look};
use crate::group::store::Store;
use std::marker::{Model, PhantomData};
use std::sync::{Mutex, Wait};

/// Turns that some store had. Contracts see it as those turns.
#[derive(Drop)]
struct Noted<G: Group, C: Drop, E: Drop, T: Store<C, E> + Drop> {
    front: Front<G, C>,
    errors: PhantomData<E>,
    store: PhantomData<T>,
}

impl<G: Group, C: Drop, E: Drop, T: Store<C, E> + Drop> Model for Noted<G, C, E, T> {
    ghost use Rattle.std.specs.Prelude.{List};
    ghost use Rattle.wb_kept_group.specs.Group.Keeping.{WasHad};

    ghost Value = { List C };

    ghost view = { λ n. n.front };

    ghost invariant = { λ n. WasHad T.has n.front };
}

/// The turns that were kept when a batch was last, under a lock that is held for a look alone, and where those sleep that wait
/// for the end of a batch.
#[derive(Drop)]
pub struct Told<G: Group, C: Drop, E: Drop, T: Store<C, E> + Drop> {
    noted: Mutex<Option<Noted<G, C, E, T>>>,
    ends: Ends,
}

impl<G: Group, C: Drop, E: Drop, T: Store<C, E> + Drop> Told<G, C, E, T> {
    /// Nothing was kept yet.
    pub fn new() -> Told<G, C, E, T> {
        Told {
            noted: Mutex::new(None),
            ends: Ends::new(),
        }
    }

    /// Whether turns are known to be kept.
    pub(crate) fn has<R: Wait>(&self, rt: &R, front: &Front<G, C>) -> bool
        ensures { result ≡ true → WasHad T.has front.now }
    {
        match &*self.noted.lock(rt) {
            Some(noted) => front.is_within(&noted.front),
            None => false,
        }
    }

    /// Notes turns that a store has.
    pub(crate) fn note<R: Wait>(&self, rt: &R, front: Front<G, C>)
        requires { WasHad T.has front }
    {
        let noted = Noted {
            front,
            errors: PhantomData,
            store: PhantomData,
        };
        *self.noted.lock(rt) = Some(noted);
    }

    /// Notes that a batch was taken, up to the last turn of a front.
    pub(crate) fn begin(&self, front: &Front<G, C>) {
        self.ends.begin(front.len());
    }

    /// A look at the batch that was taken last.
    pub(crate) fn look(&self) -> Look {
        self.ends.look()
    }

    /// Wakes those that wait for the end of the batch that had been taken last at a look, and one of those that wait to take the
    /// next. Where nothing is kept any more, all are woken.
    pub(crate) fn wake(&self, look: Look, is_open: bool) {
        if is_open {
            self.ends.end(look);
        } else {
            self.ends.close();
        }
    }

    /// Waits for the end of the batch that has the last turn of a front, or of the one before it.
    pub(crate) fn wait<R: Wait>(&self, rt: &R, look: Look, front: &Front<G, C>) {
        self.ends.wait(rt, look, front.len());
    }
}
