//! A seat of a desk that is settled early: what is let go, what is told where the pass and the desk differ, and that both seats
//! stand when the desk settles.
ghost use Rattle.std.specs.Prelude.{◌≡◌, true};
ghost use Rattle.wb_desk.specs.Openings.{nothing_done};

use crate::desk::days::{ask, replaced};
use std::alloc::Global;
use std::marker::Brand;
use std::sync::Wait;
use std::sync::ledger::Blank;
use std::test::Fail;
use wb_arrays::{Crew, Mover};
use wb_desk::{Cause, Desk, Opening, Pass, settle};

const NEW_SET: &str = "{\"op\":\"assoc\",\"d\":\"N\",\"of\":\"int\"}";

const SIZE_OF_SET: &str = "{\"op\":\"size\",\"d\":\"N\"}";

// How many entries a desk of two seats kept and how many were settled early, when it has settled; or the first cause why it
// has not.
type Counts = Result<(usize, u64), Cause>;

// Settles the seat of a pass early, which has so many entries.
fn settle_so_many<L: Opening, R: Wait>(
    rt: &R,
    desk: &Desk<L>,
    pass: &mut Pass<L>,
    count: usize,
) -> Result<(), Fail>
    requires { L.opening.early ≡ true }
{
    match desk.settle_seat(rt, pass) {
        Ok(settled) if settled == count && pass.own().is_empty() => Ok(()),
        _ => Err("a seat that is settled")?,
    }
}

// A day of a desk of two seats: the first asks twice, is settled early and asks again; the second asks once, and is settled
// early where its pass is left as it is.
fn day_of_two<L: Opening, R: Wait, M: Mover>(
    rt: &R,
    alloc: Global,
    blank: Blank,
    changed: bool,
    mover: &M,
) -> Result<Counts, Fail>
    requires name { blank.name ≡ L.name }
    requires parts { blank.parts ≡ L.parts }
    requires sixteen { blank.parts ≡ 16 }
    requires opening { L.opening.history ≡ nothing_done }
    requires early { L.opening.early ≡ true }
    requires seats { L.seats ≡ 2 }
{
    let Ok((desk, mut passes)) = Desk::<L>::new(alloc, blank, 2) else {
        return Err("a desk")?;
    };
    let mut second = passes.pop().ok_or("a pass")?;
    let mut first = passes.pop().ok_or("a pass")?;
    let _ = ask(rt, alloc, &desk, &mut first, NEW_SET, mover);
    let _ = ask(rt, alloc, &desk, &mut second, SIZE_OF_SET, mover);
    let _ = ask(rt, alloc, &desk, &mut first, SIZE_OF_SET, mover);
    settle_so_many(rt, &desk, &mut first, 2)?;
    let _ = ask(rt, alloc, &desk, &mut first, SIZE_OF_SET, mover);
    if changed {
        second = replaced(alloc, second);
        match desk.settle_seat(rt, &mut second) {
            Err(why) if why.place == 0 && second.own().len() == 1 => {}
            _ => return Err("a seat that differs")?,
        }
    } else {
        settle_so_many(rt, &desk, &mut second, 1)?;
    }
    passes.push(first)?;
    passes.push(second)?;
    match settle(desk, passes) {
        Ok(shared) => Ok(Ok((shared.entries(), shared.settled()))),
        Err(left) => Ok(Err(left.cause)),
    }
}

#[test]
fn seats_settled_early(rt: HostRuntime) -> Result<(), Fail> {
    let alloc = rt.alloc();
    let alone = Crew::alone(&rt);
    let told = day_of_two::<Brand, HostRuntime, Crew<&HostRuntime>>(
        &rt,
        alloc,
        Blank::new(16),
        false,
        &alone,
    )?;
    assert!(rt; told == Ok((1, 3)));
    Ok(())
}

#[test]
fn seat_that_differs_is_not_settled_early(rt: HostRuntime) -> Result<(), Fail> {
    let alloc = rt.alloc();
    let alone = Crew::alone(&rt);
    let told = day_of_two::<Brand, HostRuntime, Crew<&HostRuntime>>(
        &rt,
        alloc,
        Blank::new(16),
        true,
        &alone,
    )?;
    assert!(rt; told == Err(Cause::Differs { seat: 1, place: 0 }));
    Ok(())
}
