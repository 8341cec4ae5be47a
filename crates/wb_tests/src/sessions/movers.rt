//! A domain gets another mapping by a mover without threads, which is refused, and then by one thread; and an array that was
//! read from a text is moved.

use crate::index_sets::movers::Threadless;
use crate::sessions::scripts::play;
use std::marker::PhantomData;
use std::test::Fail;
use wb_arrays::Crew;
use wb_book::Book;
use wb_cells::Name;
use wb_history::History;
use wb_range::NoMemory;

const MADE: &str = r#"
{"op":"domain","d":"D","is":"{0..5}","map":"blockDist({0..5}, [2])"} -> {"edit":1,"n":3}
{"op":"array","a":"B","d":"D"} -> {"edit":2,"n":9}
"#;

const REMAP_REFUSED: &str = r#"
{"op":"remap","d":"D","map":"cyclicDist(0, [2])"} -> {"error":"E90","name":"no-memory"}
{"op":"edits"} -> {"edits":2,"writes":12}
{"op":"piece","a":"B","l":0} -> {"piece":[[0,0],[1,0],[2,0]]}
"#;

const REMAPPED: &str = r#"
{"op":"remap","d":"D","map":"cyclicDist(0, [2])"} -> {"edit":3,"n":1}
{"op":"piece","a":"B","l":0} -> {"piece":[[0,0],[2,0],[4,0]]}
"#;

const UNDO_REFUSED: &str = r#"
{"op":"undo"} -> {"error":"E90","name":"no-memory"}
{"op":"state","k":3} -> {"in_force":true}
"#;

const UNDONE: &str = r#"
{"op":"undo"} -> {"n":1,"undone":3}
{"op":"piece","a":"B","l":0} -> {"piece":[[0,0],[1,0],[2,0]]}
"#;

#[test]
fn mover_without_threads(rt: HostRuntime) -> Result<(), Fail> {
    let alloc = rt.alloc();
    let none: Threadless<&HostRuntime> = Threadless { of: PhantomData };
    let alone = Crew::alone(&rt);
    let mut history = History::new(alloc);
    play(&rt, alloc, &mut history, MADE, &alone)?;
    play(&rt, alloc, &mut history, REMAP_REFUSED, &none)?;
    play(&rt, alloc, &mut history, REMAPPED, &alone)?;
    play(&rt, alloc, &mut history, UNDO_REFUSED, &none)?;
    play(&rt, alloc, &mut history, UNDONE, &alone)
}

// An array that is read from a text, and moved.
const MOVED: &str = r#"
{"op":"load","text":"chapel-workbook 1\narray A over D [10, 20, 30]\nrect D {1..3} blockDist({1..3}, [2])\nend\n"} -> {"edit":1,"n":9}
{"op":"remap","d":"D","map":"cyclicDist(1, [2])"} -> {"edit":2,"n":1}
{"op":"piece","a":"A","l":0} -> {"piece":[[1,10],[3,30]]}
"#;

// That an array knows the rectangle that it stands at; else there was no memory to look, once it was made.
fn knows_its_rectangle(book: &Book, array: &Name) -> Result<(), NoMemory> {
    match book.rectangle(array) {
        Some(_) => Ok(()),
        None => Err(NoMemory),
    }
}

#[test]
fn rectangle_after_a_move(rt: HostRuntime) -> Result<(), Fail> {
    let mut history = History::new(rt.alloc());
    play(&rt, rt.alloc(), &mut history, MOVED, &Crew::alone(&rt))?;
    knows_its_rectangle(history.book(), &Name::new("A")?)?;
    Ok(())
}
