//! The seats of a desk that stays, each lent to one connection after another by a thread of its own.
//!
//! `wb_lending` lends any places, by a host who serves. Here the call that serves stands in the loop itself, since no proof is made
//! of a method of a trait that comes to a mover's threads.
ghost use Rattle.std.specs.Prelude.{◌≡◌, IfOk, IfErr, true};
ghost use Rattle.wb_lending.specs.Lending.{AllLent, Lent};
ghost use Rattle.wb_program.specs.Stays.{hosts_at, ServedEarly};

use crate::stays::telling::{tell_left, tell_retired};
use std::alloc::Global;
use std::marker::PhantomData;
use std::snapshot::Snapshot;
use std::sync::{Mutex, Wait};
use std::thread;
use std::thread::{Promise, Threads};
use std::time::{Clock, Instant};
use wb_arrays::Mover;
use wb_company::Company;
use wb_desk::{Desk, Difference, Opening, Pass};
use wb_lending::{Guests, LendErr, Next, taken, turn_away_all};
use wb_lines::{Sink, Source};
use wb_seats::{Early, Staying, serve_connection};
use wb_visits::{Left, Porter, Surplus, Visit, rest};

/// What the thread of a seat promises: its pass, served on connections that came, one after another.
pub(crate) struct Promised<L: Opening, G, I, O, X> {
    pub(crate) pass: Snapshot<Pass<L>>,
    pub(crate) of: PhantomData<(G, I, O, X)>,
}

impl<L: Opening, G, I, O, X> Drop for Promised<L, G, I, O, X> {
    fn drop(self) {
        let Promised { pass: _, of: _ } = self;
    }
}

impl<L: Opening, G: Guests<Visit<I, O>, X, Left>, I: Source, O: Sink, X> Promise<Pass<L>>
    for Promised<L, G, I, O, X> {
    ghost kept_by = { λ p k. Lent G.Guests (hosts_at I.Source O.Sink G.Guests L.seats L.opening) p.pass.value k };
}

// Serves a pass on a connection, and settles its seat then: the pass, and where it and the desk first differ, if they do.
fn serve_visit<L: Opening, R: Wait, I: Source + Drop, O: Sink + Drop, M: Mover>(
    rt: &R,
    alloc: Global,
    desk: &Desk<L>,
    early: &Early<L>,
    company: &Company,
    pass: Pass<L>,
    reader: I,
    writer: O,
    mover: &M,
) -> (Pass<L>, Option<Difference>)
    ensures { ServedEarly I.Source O.Sink L.seats L.opening pass reader writer result.1 result.0 }
{
    let staying = Staying::of(rt, early, company);
    let mut pass = serve_connection(rt, alloc, desk, &staying, pass, reader, writer, mover);
    let told = early.settle_left(rt, desk, &mut pass);
    (pass, told)
}

// Lends a seat to one connection after another, until nobody comes any more, or its pass and the desk differ: its pass then.
fn sit<
    L: Opening,
    R: Wait + Clock + Eprint,
    G: Guests<Visit<I, O>, X, Left>,
    I: Source + Drop,
    O: Sink + Drop,
    X,
    M: Mover,
>(
    rt: &R,
    alloc: Global,
    desk: &Desk<L>,
    early: &Early<L>,
    company: &Company,
    guests: &Mutex<G>,
    pass: Pass<L>,
    mover: &M,
    of: PhantomData<(I, O, X)>,
) -> Pass<L>
    ensures { Lent G.Guests (hosts_at I.Source O.Sink G.Guests L.seats L.opening) pass result }
{
    // It only names types.
    let _ = of;
    let mut now = pass;
    for _ in rt.forever() {
        match taken::<R, G, Visit<I, O>, X, Left>(rt, guests) {
            Next::Came(visit) => {
                let (reader, writer, left) = visit.into_parts();
                let came = Instant::now(rt).ok();
                company.come(rt, now.seat());
                let (pass, told) = serve_visit(
                    rt, alloc, desk, early, company, now, reader, writer, mover,
                );
                tell_left(rt, company, pass.seat(), pass.own().len(), came, &left);
                match told {
                    None => {
                        now = pass;
                        guests.lock(rt).leave(left);
                    }
                    Some(why) => {
                        tell_retired(rt, company, pass.seat(), why);
                        guests.lock(rt).retire(left);
                        return pass;
                    }
                }
            }
            Next::Nobody => rest(rt),
            Next::Over => return now,
        }
    }
    unreachable!()
}

/// Lends each seat of a desk to one connection after another, until nobody comes any more: the passes then. A seat whose pass and the
/// desk differ is retired before that. Who comes while no seat is free is turned away.
pub(crate) fn lend_seats<
    L: Opening + Send + Sync,
    R: Threads + Wait + Clock + Eprint + Sync,
    G: Guests<Visit<I, O>, Surplus<T>, Left> + Send,
    I: Source + Send + Drop,
    O: Sink + Send + Drop,
    T: Sink + Send + Drop,
    M: Mover + Sync,
>(
    rt: &R,
    alloc: Global,
    desk: &Desk<L>,
    early: &Early<L>,
    company: &Company,
    guests: &Mutex<G>,
    passes: Vec<Pass<L>>,
    mover: &M,
) -> Result<Vec<Pass<L>>, LendErr>
    ensures ok { IfOk result (λ ks. AllLent G.Guests (hosts_at I.Source O.Sink G.Guests L.seats L.opening) passes.items ks.items) }
    ensures failed { IfErr result (λ why. why ≡ LendErr.NoThread → (g : G) × (G.failed g ≡ true)) }
{
    thread::scope(
        thread::scope_env(),
        rt,
        move |scope| -> Result<Vec<Pass<L>>, LendErr>
            ensures ok { IfOk result (λ ks. AllLent G.Guests (hosts_at I.Source O.Sink G.Guests L.seats L.opening) passes.items ks.items) }
            ensures failed { IfErr result (λ why. why ≡ LendErr.NoThread → (g : G) × (G.failed g ≡ true)) }
        {
            let Ok(mut handles) = Vec::with_capacity(alloc, passes.len()) else {
                return Err(LendErr::NoMemory);
            };
            for pass in passes {
                let promise = Promised::<L, G, I, O, Surplus<T>> {
                    pass: Snapshot::of(&pass),
                    of: PhantomData,
                };
                let of = PhantomData;
                match scope.spawn_with(promise, move || {
                    sit::<L, R, G, I, O, Surplus<T>, M>(
                        rt, alloc, desk, early, company, guests, pass, mover, of,
                    )
                }) {
                    Ok(handle) => handles.push_reserved(handle),
                    Err(refused) => {
                        guests.lock(rt).note_refused(&refused);
                        return Err(LendErr::NoThread);
                    }
                }
            }
            let porter = Porter::of(rt, company.is_quiet());
            turn_away_all::<R, Porter<'_, R>, G, Visit<I, O>, Surplus<T>, Left>(
                rt, &porter, guests,
            );
            match thread::join_promised(rt, handles) {
                Ok(passes) => Ok(passes),
                Err(_) => Err(LendErr::NoMemory),
            }
        },
    )
}
