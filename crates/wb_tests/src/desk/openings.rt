//! A desk that goes on from a history: opened, asked once and settled; and a desk of too many seats, which gives the history back.
ghost use Rattle.std.specs.Prelude.{◌≡◌};

use crate::desk::days::ask;
use std::alloc::Global;
use std::marker::Brand;
use std::sync::Wait;
use std::sync::ledger::Blank;
use std::test::Fail;
use wb_arrays::{Crew, Mover};
use wb_desk::{Desk, DeskErr, Opening, settle};
use wb_history::History;
use wb_machine::encoding::print_history;
use wb_machine::histories::read_history;
use wb_machine::reply_text;

const TEXT: &str =
    "chapel-workbook 2\narray A over D [0, 0, 0, 0]\nrect D {1..4} none\nhistory 3\n+ {\"d\":\"D\",\"is\":\"{1..4}\",\"map\":\"none\",\"op\":\"domain\"}\n+ {\"a\":\"A\",\"d\":\"D\",\"op\":\"array\"}\n- {\"a\":\"A\",\"i\":4,\"op\":\"set\",\"v\":9}\nend\n";

const ELEMENT: &str = "{\"op\":\"get\",\"a\":\"A\",\"i\":4}";

// The history of the text.
fn history_of_the_text<M: Mover>(alloc: Global, mover: &M) -> Result<History, Fail> {
    match read_history(alloc, TEXT, mover) {
        Ok(history) => Ok(history),
        Err(_) => Err("a history")?,
    }
}

// How many entries a desk of one seat has when it has settled that began with the history of the text, and was asked for an
// element. The reply is the element, and the history is that of the text.
fn day_from<L: Opening, R: Wait, M: Mover>(
    rt: &R,
    alloc: Global,
    blank: Blank,
    history: History,
    mover: &M,
) -> Result<usize, Fail>
    requires name { blank.name ≡ L.name }
    requires parts { blank.parts ≡ L.parts }
    requires sixteen { blank.parts ≡ 16 }
    requires opening { L.opening.history ≡ history }
    requires seats { L.seats ≡ 1 }
{
    let Ok((desk, mut passes)) = Desk::<L>::open_at(alloc, blank, 1, history) else {
        return Err("a desk")?;
    };
    let mut pass = passes.pop().ok_or("a pass")?;
    let reply = ask(rt, alloc, &desk, &mut pass, ELEMENT, mover);
    let told = reply_text(alloc, &reply)?;
    if told.as_str() != "{\"value\":0}" {
        return Err("the element")?;
    }
    passes.push(pass)?;
    let Ok(shared) = settle(desk, passes) else {
        return Err("a desk that settles")?;
    };
    let text = print_history(alloc, shared.history())?;
    if text.as_str() != TEXT {
        return Err("the history of the text")?;
    }
    Ok(shared.entries())
}

#[test]
fn resumed_desk_settles(rt: HostRuntime) -> Result<(), Fail> {
    let alloc = rt.alloc();
    let alone = Crew::alone(&rt);
    let history = history_of_the_text(alloc, &alone)?;
    let entries = day_from::<Brand, HostRuntime, Crew<&HostRuntime>>(
        &rt,
        alloc,
        Blank::new(16),
        history,
        &alone,
    )?;
    assert_eq!(rt; entries, 1);
    Ok(())
}

// What a desk of so many seats that begins with a history is refused with, and the history that it gives back.
fn given_back<L: Opening>(
    alloc: Global,
    blank: Blank,
    seats: usize,
    history: History,
) -> Result<(History, DeskErr), Fail>
    requires name { blank.name ≡ L.name }
    requires parts { blank.parts ≡ L.parts }
    requires sixteen { blank.parts ≡ 16 }
    requires opening { L.opening.history ≡ history }
    requires seats { L.seats ≡ seats }
{
    match Desk::<L>::open_at(alloc, blank, seats, history) {
        Ok(_) => Err("no desk")?,
        Err(back) => Ok(back),
    }
}

#[test]
fn desk_of_too_many_seats(rt: HostRuntime) -> Result<(), Fail> {
    let alloc = rt.alloc();
    let alone = Crew::alone(&rt);
    for seats in [0, 17] {
        let history = history_of_the_text(alloc, &alone)?;
        let (back, why) = given_back::<Brand>(alloc, Blank::new(16), seats, history)?;
        assert!(rt; why == DeskErr::BadSeats);
        assert_eq!(rt; back.len(), 3);
        let text = print_history(alloc, &back)?;
        assert!(rt; text.as_str() == TEXT, "{text}");
    }
    Ok(())
}
