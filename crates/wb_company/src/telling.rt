//! The texts of what words for a desk are answered: compact JSON, keys in ascending order.
ghost use Rattle.std.specs.Prelude.{◌≡◌, ◌++◌, codes, decimal, IfOk, OnOk, string_bytes};
ghost use Rattle.std.specs.List.{flat_map, join_by};
ghost use Rattle.wb_company.specs.Texts.{deed_word, name_text, doing_text, guest_text, bytes_text, further, seat_text, told_text, standing_text, answer_text};

use crate::company::{Guest, Standing};
use crate::doings::{Deed, Doing, Told};
use std::alloc::{AllocError, Global};
use std::fmt::Write;
use wb_range::NoMemory;
use wb_sets::Label;

/// What a word for a desk is answered.
#[derive(Drop)]
pub enum Answer {
    /// The number of the seat.
    Seat(usize),
    /// What was done.
    Done(Told),
    /// How the desk stands.
    Desk(Standing),
}

// What was done with an edit, as the op that does it.
fn deed_word(deed: Deed) -> &'static str
    ensures { result.now ≡ deed_word deed }
{
    match deed {
        Deed::Edited => "edit",
        Deed::Undone => "undo",
        Deed::Redone => "redo",
    }
}

// A name, or `null`. A label has nothing that a JSON text has to escape.
fn push_name(out: &mut String, name: &Option<Label>) -> Result<(), AllocError>
    ensures { OnOk result (string_bytes out.new ≡ string_bytes out.old ++ name_text name.now) }
{
    match name {
        None => out.push_str("null"),
        Some(name) => write!(out, "\"{}\"", name.as_str()),
    }
}

// What a seat did with an edit, up to who.
fn push_deed(out: &mut String, doing: &Doing) -> Result<(), AllocError>
    ensures { OnOk result (string_bytes out.new ≡ string_bytes out.old
        ++ (codes "{\"did\":\"" ++ (deed_word doing.now.deed ++ (codes "\",\"edit\":" ++ (decimal doing.now.number ++ codes ",\"name\":"))))) }
{
    let did = deed_word(doing.deed);
    let number = doing.number;
    write!(out, "{{\"did\":\"{did}\",\"edit\":{number},\"name\":")
}

// The seat, and the end of an object.
fn push_seat(out: &mut String, seat: usize) -> Result<(), AllocError>
    ensures { OnOk result (string_bytes out.new ≡ string_bytes out.old ++ (codes ",\"seat\":" ++ (decimal seat ++ codes "}"))) }
{
    write!(out, ",\"seat\":{seat}}}")
}

// The object of what a seat did with an edit.
fn push_doing(out: &mut String, doing: &Doing) -> Result<(), AllocError>
    ensures { OnOk result (string_bytes out.new ≡ string_bytes out.old ++ doing_text doing.now) }
{
    push_deed(out, doing)?;
    push_name(out, &doing.name)?;
    push_seat(out, doing.seat)
}

// The objects of what seats did with further edits, each after a comma.
fn push_more_doings(out: &mut String, rest: &[Doing]) -> Result<(), AllocError>
    ensures { OnOk result (string_bytes out.new ≡ string_bytes out.old ++ flat_map (further doing_text) rest.now) }
{
    for doing in rest {
        push_further_doing(out, doing)?;
    }
    Ok(())
}

// A comma, and the object of what a seat did with an edit.
fn push_further_doing(out: &mut String, doing: &Doing) -> Result<(), AllocError>
    ensures { OnOk result (string_bytes out.new ≡ string_bytes out.old ++ further doing_text doing.now) }
{
    out.push_str(",")?;
    push_doing(out, doing)
}

// The objects of what seats did, separated by commas.
fn push_doings(out: &mut String, doings: &[Doing]) -> Result<(), AllocError>
    ensures { OnOk result (string_bytes out.new ≡ string_bytes out.old ++ join_by doing_text (codes ",") doings.now) }
{
    match doings {
        [] => Ok(()),
        [first, rest @ ..] => {
            push_doing(out, first)?;
            push_more_doings(out, rest)
        }
    }
}

// The object of what was done.
fn told_text(alloc: Global, told: &Told) -> Result<String, AllocError>
    ensures { IfOk result (λ s. string_bytes s ≡ told_text told.now.first told.now.doings.items) }
{
    let mut out = String::new(alloc);
    out.push_str("{\"done\":[")?;
    push_doings(&mut out, told.doings.as_slice())?;
    let first = told.first;
    write!(out, "],\"from\":{first}}}")?;
    Ok(out)
}

// The object of who has a seat.
fn push_guest(out: &mut String, guest: &Guest) -> Result<(), AllocError>
    ensures { OnOk result (string_bytes out.new ≡ string_bytes out.old ++ guest_text guest.now) }
{
    write!(out, "{{\"name\":\"{}\"", guest.name.as_str())?;
    push_seat(out, guest.seat)
}

// The objects of who has further seats, each after a comma.
fn push_more_guests(out: &mut String, rest: &[Guest]) -> Result<(), AllocError>
    ensures { OnOk result (string_bytes out.new ≡ string_bytes out.old ++ flat_map (further guest_text) rest.now) }
{
    for guest in rest {
        push_further_guest(out, guest)?;
    }
    Ok(())
}

// A comma, and the object of who has a seat.
fn push_further_guest(out: &mut String, guest: &Guest) -> Result<(), AllocError>
    ensures { OnOk result (string_bytes out.new ≡ string_bytes out.old ++ further guest_text guest.now) }
{
    out.push_str(",")?;
    push_guest(out, guest)
}

// The objects of who has seats, separated by commas.
fn push_guests(out: &mut String, guests: &[Guest]) -> Result<(), AllocError>
    ensures { OnOk result (string_bytes out.new ≡ string_bytes out.old ++ join_by guest_text (codes ",") guests.now) }
{
    match guests {
        [] => Ok(()),
        [first, rest @ ..] => {
            push_guest(out, first)?;
            push_more_guests(out, rest)
        }
    }
}

// How many bytes a journal has, or `null`.
fn push_bytes(out: &mut String, bytes: Option<u64>) -> Result<(), AllocError>
    ensures { OnOk result (string_bytes out.new ≡ string_bytes out.old ++ bytes_text bytes) }
{
    match bytes {
        None => out.push_str("null"),
        Some(bytes) => write!(out, "{bytes}"),
    }
}

// The object of how a desk stands.
fn standing_text(alloc: Global, desk: &Standing) -> Result<String, AllocError>
    ensures { IfOk result (λ s. string_bytes s
        ≡ standing_text desk.now.entries desk.now.free desk.now.journal desk.now.guests.items desk.now.seats desk.now.since) }
{
    let (entries, free) = (desk.entries, desk.free);
    let mut out = format!(in alloc; "{{\"entries\":{entries},\"free\":{free},\"journal\":")?;
    push_bytes(&mut out, desk.journal)?;
    out.push_str(",\"names\":[")?;
    push_guests(&mut out, desk.guests.as_slice())?;
    let (seats, since) = (desk.seats, desk.since);
    write!(out, "],\"seats\":{seats},\"since\":{since}}}")?;
    Ok(out)
}

// The object of a seat.
fn seat_text(alloc: Global, seat: usize) -> Result<String, AllocError>
    ensures { IfOk result (λ s. string_bytes s ≡ seat_text seat) }
{
    format!(in alloc; "{{\"seat\":{seat}}}")
}

fn text_of(alloc: Global, answer: &Answer) -> Result<String, AllocError>
    ensures { IfOk result (λ s. string_bytes s ≡ answer_text answer.now) }
{
    match answer {
        Answer::Seat(seat) => seat_text(alloc, *seat),
        Answer::Done(told) => told_text(alloc, told),
        Answer::Desk(desk) => standing_text(alloc, desk),
    }
}

/// The text of what a word is answered, without a line end.
pub fn answer_text(alloc: Global, answer: &Answer) -> Result<String, NoMemory>
    ensures { IfOk result (λ s. string_bytes s ≡ answer_text answer.now) }
{
    Ok(text_of(alloc, answer)?)
}
