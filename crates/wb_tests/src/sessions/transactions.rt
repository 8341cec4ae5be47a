//! Several commands as one edit of a history.

use std::alloc::Global;
use std::test::Fail;
use wb_arrays::{Crew, Mover};
use wb_cells::{AnyIndex, AnyLayout, AnyRect, Cell, EditRefusal, Index, Name, Point, Value};
use wb_edit::{AskedRectangle, Command, Edit, Note, Query, Refusal, Transaction};
use wb_history::{Answer, History};
use wb_range::Range;

fn name(text: &str) -> Result<Name, Fail> {
    Ok(Name::new(text)?)
}

fn at(i: i64) -> AnyIndex {
    AnyIndex::new(Index::Point(Point::single(i)))
}

fn line(lo: i64, hi: i64) -> Result<AskedRectangle, Fail> {
    let Ok(range) = Range::new(lo, hi, 1, None) else {
        return Err(Fail::new("no range"));
    };
    let Ok(ranges) = AnyRect::from_ranges(&[range]) else {
        return Err(Fail::new("no rectangle"));
    };
    Ok(AskedRectangle::Ranges(ranges))
}

fn several(commands: Vec<Command>, note: Option<Note>) -> Result<Edit, Fail> {
    match Transaction::new(commands, note) {
        Some(transaction) => Ok(Edit::Transaction(transaction)),
        None => Err(Fail::new("no transaction")),
    }
}

// A domain of 1..4, an array over it, and 7 as its elements 2 and 3.
fn begun(alloc: Global) -> Result<Edit, Fail> {
    let mut commands = Vec::new(alloc);
    commands.push(Command::Domain(name("D")?, line(1, 4)?, AnyLayout::whole()))?;
    commands.push(Command::Array(name("A")?, name("D")?))?;
    commands.push(Command::Fill(name("A")?, line(2, 3)?, 7))?;
    let note = Note::new(String::from_str(alloc, "a plan")?);
    several(commands, note)
}

fn number(history: &History, i: i64) -> Result<Option<i64>, Fail> {
    match history.book().get(&Cell::Element(name("A")?, at(i))) {
        Some(Value::Number(v)) => Ok(Some(v)),
        _ => Ok(None),
    }
}

// Domain, array and fill are one edit with a note: undone and redone as one, with as many cells.
#[test]
fn a_domain_an_array_and_a_fill(rt: HostRuntime) -> Result<(), Fail> {
    let alloc = rt.alloc();
    let alone = Crew::alone(&rt);
    let mut history = History::new(alloc);
    let made = history.edit(begun(alloc)?, &alone);
    assert!(rt; matches!(made, Ok((1, _))));
    assert!(rt; number(&history, 1)? == Some(0) && number(&history, 2)? == Some(7));
    assert!(rt; number(&history, 3)? == Some(7) && number(&history, 4)? == Some(0));
    let note = history.query(&Query::Note(1), &alone);
    assert!(rt; matches!(&note, Ok(Answer::Note(Some(text))) if text.as_str() == "a plan"));
    assert!(rt;
        matches!(
            history.query(&Query::Note(2), &alone),
            Err(Refusal::NoSuchEdit)
        )
    );
    let Ok((_, count)) = made else {
        return Err(Fail::new("not made"));
    };
    assert!(rt; matches!(history.undo(1, &alone), Ok(n) if n == count));
    assert!(rt; history.book().objects() == 0 && number(&history, 2)? == None);
    assert!(rt; matches!(history.redo(1, &alone), Ok(n) if n == count));
    assert!(rt; number(&history, 2)? == Some(7));
    Ok(())
}

// The third command sets an element outside: nothing is made, and its place is told.
#[test]
fn the_third_is_refused(rt: HostRuntime) -> Result<(), Fail> {
    let alloc = rt.alloc();
    let alone = Crew::alone(&rt);
    let mut history = History::new(alloc);
    let mut commands = Vec::new(alloc);
    commands.push(Command::Domain(name("D")?, line(1, 4)?, AnyLayout::whole()))?;
    commands.push(Command::Array(name("A")?, name("D")?))?;
    commands.push(Command::Set(name("A")?, at(5), 1))?;
    commands.push(Command::Set(name("A")?, at(1), 1))?;
    let refused = history.edit(several(commands, None)?, &alone);
    assert!(rt;
        matches!(
            refused,
            Err(Refusal::Refused(EditRefusal {
                why: wb_cells::WhyRefused::OutOfDomain,
                at: Some(2),
            }))
        )
    );
    assert!(rt; history.len() == 0 && history.book().objects() == 0);
    Ok(())
}

// An element that is set twice is counted once, and an undo brings back its first value.
#[test]
fn a_cell_that_is_set_twice(rt: HostRuntime) -> Result<(), Fail> {
    let alloc = rt.alloc();
    let alone = Crew::alone(&rt);
    let mut history = History::new(alloc);
    assert!(rt; history.edit(begun(alloc)?, &alone).is_ok());
    let mut commands = Vec::new(alloc);
    commands.push(Command::Set(name("A")?, at(2), 8))?;
    commands.push(Command::Set(name("A")?, at(1), 5))?;
    commands.push(Command::Copy(name("A")?, at(2), name("A")?, at(1), 4))?;
    let made = history.edit(several(commands, None)?, &alone);
    assert!(rt; matches!(made, Ok((2, 2))));
    assert!(rt; number(&history, 1)? == Some(5) && number(&history, 2)? == Some(9));
    assert!(rt; matches!(history.undo(2, &alone), Ok(2)));
    assert!(rt; number(&history, 1)? == Some(0) && number(&history, 2)? == Some(7));
    let single = history.edit(Edit::Command(Command::Set(name("A")?, at(9), 1)), &alone);
    assert!(rt;
        matches!(
            single,
            Err(Refusal::Refused(EditRefusal {
                why: wb_cells::WhyRefused::OutOfDomain,
                at: None,
            }))
        )
    );
    Ok(())
}

// No commands make no transaction, nor do 4,097; 4,096 do.
#[test]
fn how_many_commands(rt: HostRuntime) -> Result<(), Fail> {
    let alloc = rt.alloc();
    assert!(rt; Transaction::new(Vec::new(alloc), None).is_none());
    let mut commands = Vec::new(alloc);
    for i in 0..4096 {
        commands.push(Command::Set(name("A")?, at(i), 1))?;
    }
    let Some(whole) = Transaction::new(commands, None) else {
        return Err(Fail::new("4,096 are no transaction"));
    };
    let copy = whole.copy(alloc)?;
    assert!(rt; whole.is_same(&copy) && copy.commands().len() == 4096);
    let mut commands = Vec::new(alloc);
    for i in 0..4097 {
        commands.push(Command::Set(name("A")?, at(i), 1))?;
    }
    assert!(rt; Transaction::new(commands, None).is_none());
    Ok(())
}
