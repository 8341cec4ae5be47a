//! The forms in which a desk keeps its entries: what each shows, and that a difference in any of them is found.
ghost use Rattle.std.specs.Prelude.{◌≡◌, true};
ghost use Rattle.wb_desk.specs.Openings.{nothing_done};

use crate::desk::days::ask;
use std::alloc::Global;
use std::marker::Brand;
use std::sync::Wait;
use std::sync::ledger::Blank;
use std::test::Fail;
use wb_arrays::{Crew, Mover};
use wb_desk::{Desk, Entry, Opening, Pass, Records};
use wb_edit::Refusal;
use wb_history::Answer;
use wb_machine::{Reply, reply_text};
use wb_requests::{Request, read_request};

// What is asked, and its reply.
type Row = (&'static str, &'static str);

// A line of domains and arrays: of rank 1 to 3, and of labels.
const OBJECTS: [Row; 10] = [
    (
        "{\"op\":\"domain\",\"d\":\"D\",\"is\":\"{1..4}\",\"map\":\"blockDist({1..4}, [2])\"}",
        "{\"edit\":1,\"n\":3}",
    ),
    (
        "{\"op\":\"domain\",\"d\":\"M\",\"is\":\"{1..4, 1..4}\",\"map\":\"blockDist({1..4, 1..4}, [2, 2])\"}",
        "{\"edit\":2,\"n\":3}",
    ),
    (
        "{\"op\":\"domain\",\"d\":\"C\",\"is\":\"{0..1, 0..1, 0..1}\"}",
        "{\"edit\":3,\"n\":3}",
    ),
    (
        "{\"op\":\"assoc\",\"d\":\"T\",\"of\":\"text\"}",
        "{\"edit\":4,\"n\":1}",
    ),
    (
        "{\"op\":\"add\",\"d\":\"T\",\"i\":\"red\"}",
        "{\"edit\":5,\"n\":1}",
    ),
    (
        "{\"op\":\"array\",\"a\":\"A\",\"d\":\"D\"}",
        "{\"edit\":6,\"n\":7}",
    ),
    (
        "{\"op\":\"array\",\"a\":\"B\",\"d\":\"M\"}",
        "{\"edit\":7,\"n\":19}",
    ),
    (
        "{\"op\":\"array\",\"a\":\"E\",\"d\":\"C\"}",
        "{\"edit\":8,\"n\":11}",
    ),
    (
        "{\"op\":\"array\",\"a\":\"L\",\"d\":\"T\"}",
        "{\"edit\":9,\"n\":4}",
    ),
    (
        "{\"op\":\"set\",\"a\":\"L\",\"i\":\"red\",\"v\":8}",
        "{\"edit\":10,\"n\":1}",
    ),
];

// A line for each form, with its reply.
const FORMS: [Row; 39] = [
    (
        "{\"op\":\"set\",\"a\":\"A\",\"i\":2,\"v\":-5}",
        "{\"edit\":11,\"n\":1}",
    ),
    (
        "{\"op\":\"set\",\"a\":\"B\",\"i\":[3,2],\"v\":6}",
        "{\"edit\":12,\"n\":1}",
    ),
    (
        "{\"op\":\"set\",\"a\":\"E\",\"i\":[1,0,1],\"v\":7}",
        "{\"edit\":13,\"n\":1}",
    ),
    ("{\"op\":\"get\",\"a\":\"A\",\"i\":2}", "{\"value\":-5}"),
    ("{\"op\":\"get\",\"a\":\"B\",\"i\":[3,2]}", "{\"value\":6}"),
    (
        "{\"op\":\"get\",\"a\":\"E\",\"i\":[1,0,1]}",
        "{\"value\":7}",
    ),
    (
        "{\"op\":\"get\",\"a\":\"L\",\"i\":\"red\"}",
        "{\"value\":8}",
    ),
    ("{\"op\":\"where\",\"d\":\"D\",\"i\":3}", "{\"locale\":1}"),
    (
        "{\"op\":\"where\",\"d\":\"M\",\"i\":[3,2]}",
        "{\"locale\":2}",
    ),
    (
        "{\"op\":\"where\",\"d\":\"C\",\"i\":[1,0,1]}",
        "{\"locale\":0}",
    ),
    (
        "{\"op\":\"where\",\"d\":\"T\",\"i\":\"red\"}",
        "{\"locale\":0}",
    ),
    ("{\"op\":\"size\",\"d\":\"M\"}", "{\"size\":16}"),
    (
        "{\"op\":\"reduce\",\"a\":\"B\",\"how\":\"max\"}",
        "{\"value\":6}",
    ),
    ("{\"op\":\"state\",\"k\":11}", "{\"in_force\":true}"),
    ("{\"op\":\"edits\"}", "{\"edits\":13,\"writes\":56}"),
    (
        "{\"op\":\"get\",\"a\":\"A\",\"i\":9}",
        "{\"error\":\"E06\",\"name\":\"out-of-domain\"}",
    ),
    (
        "{\"op\":\"set\",\"a\":\"A\",\"i\":9,\"v\":1}",
        "{\"error\":\"E06\",\"name\":\"out-of-domain\"}",
    ),
    (
        "{\"op\":\"set\",\"a\":\"B\",\"i\":[2147483648,-2147483649],\"v\":1}",
        "{\"error\":\"E06\",\"name\":\"out-of-domain\"}",
    ),
    ("{\"op\":\"dependents\",\"k\":13}", "{\"dependents\":[13]}"),
    ("{\"op\":\"undo\",\"k\":13}", "{\"n\":1,\"undone\":13}"),
    ("{\"op\":\"redo\",\"k\":13}", "{\"n\":1,\"redone\":13}"),
    ("{\"op\":\"cascade\",\"k\":12}", "{\"n\":1,\"undone\":[12]}"),
    (
        "{\"op\":\"get\",\"a\":\"L\",\"i\":\"rod\"}",
        "{\"error\":\"E06\",\"name\":\"out-of-domain\"}",
    ),
    (
        "{\"op\":\"where\",\"d\":\"T\",\"i\":\"rod\"}",
        "{\"error\":\"E06\",\"name\":\"out-of-domain\"}",
    ),
    (
        "{\"op\":\"where\",\"d\":\"M\",\"i\":[3,7]}",
        "{\"error\":\"E06\",\"name\":\"out-of-domain\"}",
    ),
    (
        "{\"op\":\"get\",\"a\":\"E\",\"i\":[1,0,7]}",
        "{\"error\":\"E06\",\"name\":\"out-of-domain\"}",
    ),
    (
        "{\"op\":\"size\",\"d\":\"Q\"}",
        "{\"error\":\"E04\",\"name\":\"no-such-name\"}",
    ),
    (
        "{\"op\":\"reduce\",\"a\":\"D\",\"how\":\"+\"}",
        "{\"error\":\"E05\",\"name\":\"wrong-kind\"}",
    ),
    (
        "{\"op\":\"piece\",\"a\":\"A\",\"l\":1}",
        "{\"piece\":[[3,0],[4,0]]}",
    ),
    (
        "{\"op\":\"piece\",\"a\":\"A\",\"l\":2}",
        "{\"error\":\"E06\",\"name\":\"out-of-domain\"}",
    ),
    (
        "{\"op\":\"state\",\"k\":99}",
        "{\"error\":\"E11\",\"name\":\"no-such-edit\"}",
    ),
    (
        "{\"op\":\"dependents\",\"k\":99}",
        "{\"error\":\"E11\",\"name\":\"no-such-edit\"}",
    ),
    (
        "{\"op\":\"dependents\",\"k\":12}",
        "{\"error\":\"E12\",\"name\":\"not-in-force\"}",
    ),
    (
        "{\"op\":\"history\",\"from\":13}",
        "{\"edits\":13,\"text\":\"+ {\\\"a\\\":\\\"E\\\",\\\"i\\\":[1,0,1],\\\"op\\\":\\\"set\\\",\\\"v\\\":7}\\n\"}",
    ),
    (
        "{\"op\":\"explain\",\"line\":\"size\"}",
        "{\"wrong\":{\"error\":\"E01\",\"field\":null,\"name\":\"bad-request\",\"rule\":\"JSON in UTF-8\"}}",
    ),
    (
        "{\"op\":\"explain\",\"line\":\"{\\\"op\\\":\\\"edits\\\"}\"}",
        "{\"wrong\":null}",
    ),
    (
        "{\"op\":\"transaction\",\"edits\":[{\"op\":\"set\",\"a\":\"A\",\"i\":1,\"v\":3},{\"op\":\"set\",\"a\":\"A\",\"i\":4,\"v\":4}],\"note\":\"both\"}",
        "{\"edit\":14,\"n\":2}",
    ),
    ("{\"op\":\"note\",\"k\":14}", "{\"note\":\"both\"}"),
    (
        "{\"op\":\"transaction\",\"edits\":[{\"op\":\"set\",\"a\":\"A\",\"i\":1,\"v\":3},{\"op\":\"set\",\"a\":\"A\",\"i\":9,\"v\":4}]}",
        "{\"at\":1,\"error\":\"E06\",\"name\":\"out-of-domain\"}",
    ),
];

// The places of lines in the table of forms, with lines that differ from them in a name or in one number.
const OTHERS: [(usize, &str); 46] = [
    (0, "{\"op\":\"set\",\"a\":\"A\",\"i\":3,\"v\":-5}"),
    (0, "{\"op\":\"set\",\"a\":\"A\",\"i\":2,\"v\":5}"),
    (0, "{\"op\":\"set\",\"a\":\"B\",\"i\":2,\"v\":-5}"),
    (1, "{\"op\":\"set\",\"a\":\"B\",\"i\":[2,2],\"v\":6}"),
    (1, "{\"op\":\"set\",\"a\":\"B\",\"i\":[3,3],\"v\":6}"),
    (1, "{\"op\":\"set\",\"a\":\"B\",\"i\":[3,2],\"v\":7}"),
    (2, "{\"op\":\"set\",\"a\":\"E\",\"i\":[1,0,0],\"v\":7}"),
    (3, "{\"op\":\"get\",\"a\":\"B\",\"i\":2}"),
    (3, "{\"op\":\"get\",\"a\":\"A\",\"i\":1}"),
    (4, "{\"op\":\"get\",\"a\":\"B\",\"i\":[2,3]}"),
    (4, "{\"op\":\"get\",\"a\":\"B\",\"i\":[3,1]}"),
    (5, "{\"op\":\"get\",\"a\":\"E\",\"i\":[0,0,1]}"),
    (5, "{\"op\":\"get\",\"a\":\"E\",\"i\":[1,1,1]}"),
    (5, "{\"op\":\"get\",\"a\":\"E\",\"i\":[1,0,0]}"),
    (6, "{\"op\":\"get\",\"a\":\"L\",\"i\":\"rod\"}"),
    (7, "{\"op\":\"where\",\"d\":\"D\",\"i\":4}"),
    (8, "{\"op\":\"where\",\"d\":\"M\",\"i\":[3,1]}"),
    (9, "{\"op\":\"where\",\"d\":\"C\",\"i\":[1,1,1]}"),
    (11, "{\"op\":\"size\",\"d\":\"D\"}"),
    (12, "{\"op\":\"reduce\",\"a\":\"B\",\"how\":\"min\"}"),
    (13, "{\"op\":\"state\",\"k\":12}"),
    (15, "{\"op\":\"get\",\"a\":\"A\",\"i\":8}"),
    (22, "{\"op\":\"get\",\"a\":\"L\",\"i\":\"red\"}"),
    (22, "{\"op\":\"get\",\"a\":\"A\",\"i\":\"rod\"}"),
    (22, "{\"op\":\"where\",\"d\":\"L\",\"i\":\"rod\"}"),
    (23, "{\"op\":\"where\",\"d\":\"T\",\"i\":\"rood\"}"),
    (24, "{\"op\":\"where\",\"d\":\"M\",\"i\":[7,3]}"),
    (25, "{\"op\":\"get\",\"a\":\"E\",\"i\":[1,7,0]}"),
    (26, "{\"op\":\"size\",\"d\":\"R\"}"),
    (27, "{\"op\":\"reduce\",\"a\":\"D\",\"how\":\"max\"}"),
    (28, "{\"op\":\"piece\",\"a\":\"A\",\"l\":0}"),
    (28, "{\"op\":\"piece\",\"a\":\"B\",\"l\":1}"),
    (29, "{\"op\":\"piece\",\"a\":\"A\",\"l\":3}"),
    (30, "{\"op\":\"state\",\"k\":98}"),
    (30, "{\"op\":\"dependents\",\"k\":99}"),
    (31, "{\"op\":\"state\",\"k\":99}"),
    (32, "{\"op\":\"dependents\",\"k\":13}"),
    (33, "{\"op\":\"history\",\"from\":12}"),
    (33, "{\"op\":\"history\"}"),
    (34, "{\"op\":\"explain\",\"line\":\"sizes\"}"),
    (35, "{\"op\":\"edits\"}"),
    (
        36,
        "{\"op\":\"transaction\",\"edits\":[{\"op\":\"set\",\"a\":\"A\",\"i\":1,\"v\":3},{\"op\":\"set\",\"a\":\"A\",\"i\":4,\"v\":5}],\"note\":\"both\"}",
    ),
    (
        36,
        "{\"op\":\"transaction\",\"edits\":[{\"op\":\"set\",\"a\":\"A\",\"i\":1,\"v\":3},{\"op\":\"set\",\"a\":\"A\",\"i\":4,\"v\":4}]}",
    ),
    (36, "{\"op\":\"set\",\"a\":\"A\",\"i\":1,\"v\":3}"),
    (37, "{\"op\":\"note\",\"k\":13}"),
    (38, "{\"op\":\"set\",\"a\":\"A\",\"i\":9,\"v\":4}"),
];

const NEW_DOMAIN: &str = "{\"op\":\"assoc\",\"d\":\"N#\",\"of\":\"int\"}";

const ITS_SIZE: &str = "{\"op\":\"size\",\"d\":\"N#\"}";

// Why a pass is not as it should be.
const OTHER_ENTRY: &str = "the entry of what was asked";

// A request that a line spells.
fn request_of(alloc: Global, line: &str) -> Result<Request, Fail> {
    match read_request(alloc, line.as_bytes()) {
        Ok(request) => Ok(request),
        Err(_) => Err("a request")?,
    }
}

// Asks a line, and sees to its reply.
fn ask_one<L: Opening, R: Wait, M: Mover>(
    rt: &R,
    alloc: Global,
    desk: &Desk<L>,
    pass: &mut Pass<L>,
    row: (&str, &str),
    mover: &M,
) -> Result<(), Fail> {
    let reply = ask(rt, alloc, desk, pass, row.0, mover);
    if reply_text(alloc, &reply)?.as_str() == row.1 {
        Ok(())
    } else {
        Err("a reply")?
    }
}

// Whether the entry at a place is of this line and this reply.
fn see_one(
    alloc: Global,
    own: &Records,
    place: usize,
    seat: usize,
    row: (&str, &str),
) -> Result<(), Fail> {
    let lent = own.get(place).ok_or(OTHER_ENTRY)?;
    let request = request_of(alloc, row.0)?;
    let text = reply_text(alloc, lent.reply())?;
    if lent.seat() == seat && lent.is_of(&request) && text.as_str() == row.1 {
        Ok(())
    } else {
        Err(OTHER_ENTRY)?
    }
}

// An equal entry.
fn copy_of(alloc: Global, entry: &Entry) -> Result<Entry, Fail> {
    Ok(Entry {
        seat: entry.seat,
        request: entry.request.copy(alloc)?,
        reply: entry.reply.copy(alloc)?,
    })
}

// The list with another entry at a place.
fn with_another(alloc: Global, own: &Records, at: usize, other: &Entry) -> Result<Records, Fail> {
    let mut list = Records::new(alloc, other.seat);
    for place in 0..own.len() {
        let entry = if place == at {
            copy_of(alloc, other)?
        } else {
            own.get(place).ok_or(OTHER_ENTRY)?.copy(alloc)?
        };
        list.push(alloc, entry)?;
    }
    Ok(list)
}

// Another reply.
fn another_reply(reply: &Reply) -> Reply {
    match reply {
        Reply::Edited(number, count) => Reply::Edited(*number, count.wrapping_add(1)),
        Reply::Counted(edits, writes) => Reply::Counted(*edits, writes.wrapping_add(1)),
        Reply::Answered(Answer::Value(value)) => {
            Reply::Answered(Answer::Value(value.wrapping_add(1)))
        }
        Reply::Answered(Answer::Size(size)) => Reply::Answered(Answer::Size(size.wrapping_add(1))),
        Reply::Answered(Answer::Locale(locale)) => {
            Reply::Answered(Answer::Locale(locale.wrapping_add(1)))
        }
        Reply::Answered(Answer::InForce(in_force)) => {
            Reply::Answered(Answer::InForce(!*in_force))
        }
        Reply::Refused(Refusal::NotInForce) => Reply::Refused(Refusal::InForce),
        _ => Reply::Refused(Refusal::NotInForce),
    }
}

// The pass with an entry at a place that differs, which is found there; and then the pass as it was.
fn see_difference<L: Opening, R: Wait>(
    rt: &R,
    alloc: Global,
    desk: &Desk<L>,
    pass: Pass<L>,
    at: usize,
    other: &Entry,
) -> Result<Pass<L>, Fail>
    requires { L.opening.early ≡ true }
{
    let (seat, own, share) = pass.into_parts();
    let changed = with_another(alloc, &own, at, other)?;
    if changed.len() != own.len() {
        return Err(OTHER_ENTRY)?;
    }
    let mut pass = Pass::of_parts(seat, changed, share);
    let Err(why) = desk.settle_seat(rt, &mut pass) else {
        return Err("a seat that differs")?;
    };
    if why.place != at {
        return Err("the place of the difference")?;
    }
    let (seat, _, share) = pass.into_parts();
    Ok(Pass::of_parts(seat, own, share))
}

// What the pass has at a place, with another reply, and with the request of a line.
fn others_at(alloc: Global, own: &Records, at: usize, line: Option<&str>) -> Result<Entry, Fail> {
    let mut entry = own.get(at).ok_or(OTHER_ENTRY)?.copy(alloc)?;
    match line {
        Some(line) => entry.request = request_of(alloc, line)?,
        None => entry.reply = another_reply(&entry.reply),
    }
    Ok(entry)
}

// A day of one seat that asks in each form: each entry is shown as it was asked and replied, each one that differs is found, and
// the seat is settled.
fn day_of_forms<L: Opening, R: Wait, M: Mover>(
    rt: &R,
    alloc: Global,
    blank: Blank,
    mover: &M,
) -> Result<usize, Fail>
    requires name { blank.name ≡ L.name }
    requires parts { blank.parts ≡ L.parts }
    requires sixteen { blank.parts ≡ 16 }
    requires opening { L.opening.history ≡ nothing_done }
    requires early { L.opening.early ≡ true }
    requires seats { L.seats ≡ 1 }
{
    let Ok((desk, mut passes)) = Desk::<L>::new(alloc, blank, 1) else {
        return Err("a desk")?;
    };
    let mut pass = passes.pop().ok_or("a pass")?;
    for row in &OBJECTS {
        ask_one(rt, alloc, &desk, &mut pass, *row, mover)?;
    }
    for row in &FORMS {
        ask_one(rt, alloc, &desk, &mut pass, *row, mover)?;
    }
    for place in 0..FORMS.len() {
        let at = OBJECTS.len() + place;
        see_one(alloc, pass.own(), at, 0, FORMS[place])?;
        let other = others_at(alloc, pass.own(), at, None)?;
        pass = see_difference(rt, alloc, &desk, pass, at, &other)?;
    }
    for (place, line) in &OTHERS {
        let at = OBJECTS.len().wrapping_add(*place);
        let other = others_at(alloc, pass.own(), at, Some(*line))?;
        pass = see_difference(rt, alloc, &desk, pass, at, &other)?;
    }
    match desk.settle_seat(rt, &mut pass) {
        Ok(count) => Ok(count),
        Err(_) => Err("a seat that is settled")?,
    }
}

// A line of a number.
fn numbered(alloc: Global, line: &str, number: usize) -> Result<String, Fail> {
    let number = number.to_string(alloc)?;
    Ok(line.replace(alloc, '#', number.as_str())?)
}

// A day of one seat that makes so many domains and asks for the size of each.
fn day_of_names<L: Opening, R: Wait, M: Mover>(
    rt: &R,
    alloc: Global,
    blank: Blank,
    names: usize,
    mover: &M,
) -> Result<usize, Fail>
    requires name { blank.name ≡ L.name }
    requires parts { blank.parts ≡ L.parts }
    requires sixteen { blank.parts ≡ 16 }
    requires opening { L.opening.history ≡ nothing_done }
    requires early { L.opening.early ≡ true }
    requires seats { L.seats ≡ 1 }
{
    let Ok((desk, mut passes)) = Desk::<L>::new(alloc, blank, 1) else {
        return Err("a desk")?;
    };
    let mut pass = passes.pop().ok_or("a pass")?;
    for number in 0..names {
        let made = numbered(alloc, NEW_DOMAIN, number)?;
        let _ = ask(rt, alloc, &desk, &mut pass, made.as_str(), mover);
    }
    for number in 0..names {
        let asked = numbered(alloc, ITS_SIZE, number)?;
        ask_one(
            rt,
            alloc,
            &desk,
            &mut pass,
            (asked.as_str(), "{\"size\":0}"),
            mover,
        )?;
    }
    for number in 0..names {
        let asked = numbered(alloc, ITS_SIZE, number)?;
        let at = names.wrapping_add(number);
        see_one(alloc, pass.own(), at, 0, (asked.as_str(), "{\"size\":0}"))?;
    }
    match desk.settle_seat(rt, &mut pass) {
        Ok(count) => Ok(count),
        Err(_) => Err("a seat that is settled")?,
    }
}

#[test]
fn entries_in_each_form(rt: HostRuntime) -> Result<(), Fail> {
    let alloc = rt.alloc();
    let alone = Crew::alone(&rt);
    let count = day_of_forms::<Brand, HostRuntime, Crew<&HostRuntime>>(
        &rt,
        alloc,
        Blank::new(16),
        &alone,
    )?;
    assert!(rt; count == 49);
    Ok(())
}

// The latest 256 names of a table are gone through.
#[test]
fn entries_of_more_names_than_are_gone_through(rt: HostRuntime) -> Result<(), Fail> {
    let alloc = rt.alloc();
    let alone = Crew::alone(&rt);
    let count = day_of_names::<Brand, HostRuntime, Crew<&HostRuntime>>(
        &rt,
        alloc,
        Blank::new(16),
        260,
        &alone,
    )?;
    assert!(rt; count == 520);
    Ok(())
}
