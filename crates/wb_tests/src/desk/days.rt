//! Days of a desk: what is done there before, by all seats at once, and after, and how it is settled.
ghost use Rattle.std.specs.Prelude.{◌≡◌};
ghost use Rattle.wb_desk.specs.Openings.{nothing_done};

use crate::desk::threads::{Work, all_at_once};
use std::alloc::Global;
use std::marker::Brand;
use std::sync::Wait;
use std::sync::ledger::Blank;
use std::test::Fail;
use std::thread::Threads;
use wb_arrays::{Crew, Mover};
use wb_desk::{Cause, Desk, DeskErr, Opening, Pass, Records, settle};
use wb_machine::{Reply, reply_text};
use wb_requests::{Request, read_request};

const NEW_SET: &str = "{\"op\":\"assoc\",\"d\":\"N\",\"of\":\"int\"}";

const FIRST_EDIT: &str = "{\"edit\":1,\"n\":1}";

const NEW_RECTANGLE: &str = "{\"op\":\"domain\",\"d\":\"D\",\"is\":\"{1..2}\"}";

const SIZE_OF_RECTANGLE: &str = "{\"op\":\"size\",\"d\":\"D\"}";

const SIZE_OF_SET: &str = "{\"op\":\"size\",\"d\":\"N\"}";

const STRANGE: &str = "{\"error\":\"E92\",\"name\":\"strange-pass\"}";

// What is done with a pass: a line is asked and has this reply, the pass gets the number of another seat, or its first
// request is replaced.
#[derive(Clone, Copy)]
enum Act {
    Ask(&'static str, &'static str),
    Renumber(usize),
    Replace,
}

// What is done with the pass at a place.
#[derive(Clone, Copy)]
struct Move {
    place: usize,
    act: Act,
}

// Why a day ends early.
#[derive(Clone, Copy, Debug, PartialEq, Eq)]
enum Early {
    NoDesk(DeskErr),
    OtherReply,
    NoPass,
}

// A day of a desk, of which so many passes are handed in at its end.
#[derive(Clone, Copy)]
struct Day<'a> {
    seats: usize,
    before: &'a [Move],
    work: Work,
    after: &'a [Move],
    handed_in: usize,
}

// Asks one line at a desk: the reply.
pub fn ask<L: Opening, R: Wait, M: Mover>(
    rt: &R,
    alloc: Global,
    desk: &Desk<L>,
    pass: &mut Pass<L>,
    line: &str,
    mover: &M,
) -> Reply {
    match read_request(alloc, line.as_bytes()) {
        Ok(request) => desk.call(rt, pass, request, mover),
        Err(why) => Reply::Refused(why),
    }
}

// Whether a line that is asked has this reply.
fn is_told<L: Opening, R: Wait, M: Mover>(
    rt: &R,
    alloc: Global,
    desk: &Desk<L>,
    pass: &mut Pass<L>,
    line: &str,
    told: &str,
    mover: &M,
) -> bool {
    let reply = ask(rt, alloc, desk, pass, line, mover);
    match reply_text(alloc, &reply) {
        Ok(text) => text.as_str() == told,
        Err(_) => false,
    }
}

// The pass under the number of another seat.
fn renumbered<L: Opening>(pass: Pass<L>, seat: usize) -> Pass<L> {
    let (_, own, share) = pass.into_parts();
    Pass::of_parts(seat, own, share)
}

// The list with another first request.
fn with_first_replaced(alloc: Global, own: &Records, seat: usize) -> Option<Records> {
    let mut list = Records::new(alloc, seat);
    for place in 0..own.len() {
        let mut entry = own.get(place)?.copy(alloc).ok()?;
        entry.seat = seat;
        if place == 0 {
            entry.request = Request::Print;
        }
        list.push(alloc, entry).ok()?;
    }
    Some(list)
}

// The pass with another first request.
pub fn replaced<L: Opening>(alloc: Global, pass: Pass<L>) -> Pass<L> {
    let (seat, own, share) = pass.into_parts();
    match with_first_replaced(alloc, &own, seat) {
        Some(list) if list.len() == own.len() => Pass::of_parts(seat, list, share),
        _ => Pass::of_parts(seat, own, share),
    }
}

// Does one thing with a pass: the pass then, or nothing where a reply was another one.
fn done<L: Opening, R: Wait, M: Mover>(
    rt: &R,
    alloc: Global,
    desk: &Desk<L>,
    pass: Pass<L>,
    act: &Act,
    mover: &M,
) -> Option<Pass<L>> {
    match act {
        Act::Ask(line, told) => {
            let mut pass = pass;
            if is_told(rt, alloc, desk, &mut pass, line, told, mover) {
                Some(pass)
            } else {
                None
            }
        }
        Act::Renumber(seat) => Some(renumbered(pass, *seat)),
        Act::Replace => Some(replaced(alloc, pass)),
    }
}

// Does each of these, in order.
fn all_done<L: Opening, R: Wait, M: Mover>(
    rt: &R,
    alloc: Global,
    desk: &Desk<L>,
    passes: &mut Vec<Pass<L>>,
    moves: &[Move],
    mover: &M,
) -> Result<(), Early> {
    for step in moves {
        if step.place >= passes.len() {
            return Err(Early::NoPass);
        }
        let pass = passes.remove(step.place);
        let Some(pass) = done(rt, alloc, desk, pass, &step.act, mover) else {
            return Err(Early::OtherReply);
        };
        if passes.insert(step.place, pass).is_err() {
            return Err(Early::NoPass);
        }
    }
    Ok(())
}

// A day from its opening to its settling: how many entries there are, or why it is not settled.
fn day_of<L: Opening + Send + Sync, R: Threads + Wait + Sync, M: Mover + Sync>(
    rt: &R,
    alloc: Global,
    blank: Blank,
    day: &Day,
    mover: &M,
) -> Result<Result<usize, Cause>, Early>
    requires name { blank.name ≡ L.name }
    requires parts { blank.parts ≡ L.parts }
    requires sixteen { blank.parts ≡ 16 }
    requires opening { L.opening.history ≡ nothing_done }
    requires seats { L.seats ≡ day.now.seats }
{
    let (desk, mut passes) = match Desk::<L>::new(alloc, blank, day.seats) {
        Ok(made) => made,
        Err(why) => return Err(Early::NoDesk(why)),
    };
    all_done(rt, alloc, &desk, &mut passes, day.before, mover)?;
    let mut passes = match all_at_once(rt, alloc, &desk, passes, day.work, mover) {
        Some(passes) => passes,
        None => return Err(Early::NoPass),
    };
    all_done(rt, alloc, &desk, &mut passes, day.after, mover)?;
    passes.truncate(day.handed_in);
    match settle(desk, passes) {
        Ok(shared) => Ok(Ok(shared.entries())),
        Err(left) => Ok(Err(left.cause)),
    }
}

const fn asked(place: usize, line: &'static str, told: &'static str) -> Move {
    Move {
        place,
        act: Act::Ask(line, told),
    }
}

// What is done with the pass at a place.
const fn changed(place: usize, act: Act) -> Move {
    Move { place, act }
}

// A day with nothing after the work.
fn plain_day(seats: usize, before: &[Move], work: Work, handed_in: usize) -> Day<'_> {
    Day {
        seats,
        before,
        work,
        after: &[],
        handed_in,
    }
}

// One seat asks for what another made.
const CROSS_READ: [Move; 2] = [
    Move {
        place: 0,
        act: Act::Ask(NEW_RECTANGLE, "{\"edit\":1,\"n\":3}"),
    },
    Move {
        place: 1,
        act: Act::Ask(SIZE_OF_RECTANGLE, "{\"size\":2}"),
    },
];

// One seat takes back what another set, with the copy that a third made of it.
const CASCADE: [Move; 8] = [
    Move {
        place: 0,
        act: Act::Ask(NEW_RECTANGLE, "{\"edit\":1,\"n\":3}"),
    },
    Move {
        place: 0,
        act: Act::Ask(
            "{\"op\":\"array\",\"a\":\"A\",\"d\":\"D\"}",
            "{\"edit\":2,\"n\":5}",
        ),
    },
    Move {
        place: 0,
        act: Act::Ask(
            "{\"op\":\"set\",\"a\":\"A\",\"i\":1,\"v\":5}",
            "{\"edit\":3,\"n\":1}",
        ),
    },
    Move {
        place: 1,
        act: Act::Ask(
            "{\"op\":\"copy\",\"a\":\"A\",\"i\":2,\"b\":\"A\",\"j\":1,\"c\":1}",
            "{\"edit\":4,\"n\":1}",
        ),
    },
    Move {
        place: 2,
        act: Act::Ask("{\"op\":\"dependents\",\"k\":3}", "{\"dependents\":[4,3]}"),
    },
    Move {
        place: 2,
        act: Act::Ask("{\"op\":\"cascade\",\"k\":3}", "{\"n\":2,\"undone\":[4,3]}"),
    },
    Move {
        place: 2,
        act: Act::Ask(
            "{\"op\":\"cascade\",\"k\":3}",
            "{\"error\":\"E12\",\"name\":\"not-in-force\"}",
        ),
    },
    Move {
        place: 1,
        act: Act::Ask("{\"op\":\"get\",\"a\":\"A\",\"i\":2}", "{\"value\":0}"),
    },
];

// Two seats with a domain, an array and 48 sets each, also with the pass of the second one withheld; an entry of a pass that
// is replaced; a pass that is renumbered to another seat, and to none; numbers of seats that no desk can have; and seats that
// ask for what others made.
#[test]
fn desk_of_two_seats(rt: HostRuntime) -> Result<(), Fail> {
    let alone = Crew::alone(&rt);
    let replaced = [asked(0, NEW_SET, FIRST_EDIT), changed(0, Act::Replace)];
    let renumbered = [
        asked(0, NEW_SET, FIRST_EDIT),
        changed(1, Act::Renumber(0)),
        asked(1, SIZE_OF_SET, STRANGE),
        changed(1, Act::Renumber(2)),
        asked(1, SIZE_OF_SET, STRANGE),
        changed(1, Act::Renumber(1)),
        asked(1, SIZE_OF_SET, "{\"size\":0}"),
    ];
    let missing = Cause::MissingPass { seat: 1 };
    let differs = Cause::Differs { seat: 0, place: 0 };
    let no_desk = Early::NoDesk(DeskErr::BadSeats);
    let days = [
        (plain_day(2, &[], Work::Sets, 2), Ok(Ok(102))),
        (plain_day(2, &[], Work::Sets, 1), Ok(Err(missing))),
        (plain_day(1, &replaced, Work::Nothing, 1), Ok(Err(differs))),
        (plain_day(2, &renumbered, Work::Nothing, 2), Ok(Ok(2))),
        (plain_day(0, &[], Work::Nothing, 0), Err(no_desk)),
        (plain_day(17, &[], Work::Nothing, 17), Err(no_desk)),
        (plain_day(16, &[], Work::Nothing, 16), Ok(Ok(0))),
        (plain_day(2, &CROSS_READ, Work::Nothing, 2), Ok(Ok(2))),
        (plain_day(3, &CASCADE, Work::Nothing, 3), Ok(Ok(8))),
    ];
    for (one, end) in &days {
        assert_eq!(rt;
            day_of::<Brand, HostRuntime, Crew<&HostRuntime>>(
                &rt,
                rt.alloc(),
                Blank::new(16),
                one,
                &alone,
            ),
            *end
        );
    }
    Ok(())
}

// Four seats add a hundred numbers each to one set, and undo their own add of each number that 10 divides.
#[test]
fn mixed_load(rt: HostRuntime) -> Result<(), Fail> {
    let alone = Crew::alone(&rt);
    let before = [asked(0, NEW_SET, FIRST_EDIT)];
    let after = [asked(0, SIZE_OF_SET, "{\"size\":360}")];
    let day = Day {
        seats: 4,
        before: &before,
        work: Work::Adds,
        after: &after,
        handed_in: 4,
    };
    assert_eq!(rt;
        day_of::<Brand, HostRuntime, Crew<&HostRuntime>>(
            &rt,
            rt.alloc(),
            Blank::new(16),
            &day,
            &alone,
        ),
        Ok(Ok(442))
    );
    Ok(())
}
