//! Labels, associative sets and sparse sets.

use crate::index_sets::rectangles::rectangle;
use crate::index_sets::rows::{Subject, Words, place, play, runs, shown, unknown};
use std::alloc::Global;
use std::test::Fail;
use wb_range::NoMemory;
use wb_rect::Rect;
use wb_sets::{Assoc, BadLabel, Label, Sparse, SparseErr};

// Whether a label has its text, or nothing where the text is no label.
fn kept(text: &str) -> Option<bool> {
    match Label::new(text) {
        Ok(label) => Some(label.as_str() == text),
        Err(BadLabel) => None,
    }
}

// The bounds of texts, and what else is no label.
#[test]
fn bounds_of_texts(rt: HostRuntime) {
    for (text, is_label) in [
        ("", true),
        ("a b", true),
        ("~", true),
        ("é", true),
        (
            "0123456789012345678901234567890123456789012345678901234567890123",
            true,
        ),
        (
            "01234567890123456789012345678901234567890123456789012345678901234",
            false,
        ),
        ("\"", false),
        ("\\", false),
        ("a\nb", false),
        ("\u{1f}", false),
        ("\u{7f}", false),
    ] {
        assert!(rt; kept(text) == is_label.then_some(true), "{text:?}");
    }
}

// Two sets, each of so many integers.
const OPERATIONS: &str = r"
union 4 5 1 3 5 2 3 7 -> [1, 3, 5, 7]
symmetric 4 5 1 3 5 2 3 7 -> [1, 5, 7]
difference 4 5 1 3 5 2 3 7 -> [1, 5]
intersection 4 5 1 3 5 2 3 7 -> [3]
copy 4 5 1 3 5 2 3 7 -> [1, 3, 5]
";

/// The set of so many integers.
pub fn integers(alloc: Global, words: &mut Words<'_>) -> Result<Assoc<i64>, NoMemory> {
    let mut integers = Vec::new(alloc);
    for _ in 0..words.number::<u32>() {
        if integers.push(words.number()).is_err() {
            return Err(NoMemory);
        }
    }
    Assoc::from_slice(alloc, integers.as_slice())
}

// The set that an operation makes of two.
fn combined(
    alloc: Global,
    call: &str,
    one: &Assoc<i64>,
    other: &Assoc<i64>,
) -> Result<Assoc<i64>, NoMemory> {
    match call {
        "union" => one.union(other),
        "symmetric" => one.symmetric(other),
        "difference" => one.difference(other),
        "intersection" => one.intersection(other),
        _ => one.copy(alloc),
    }
}

#[derive(Drop)]
struct Operations;

impl Subject for Operations {
    fn answer(&mut self, alloc: Global, call: &str, words: &mut Words<'_>) -> Result<String, Fail> {
        let one = integers(alloc, words)?;
        let other = integers(alloc, words)?;
        shown(alloc, &combined(alloc, call, &one, &other)?.as_slice())
    }
}

// Texts, one by one.
const TEXTS: &str = r#"
add é -> Ok(1)
add b -> Ok(1)
add ab -> Ok(1)
add b -> Ok(0)
runs -> ["ab", "b", "é"]
place é -> (Some(2), true)
remove b -> 1
remove b -> 0
place b -> (None, false)
runs -> ["ab", "é"]
"#;

#[derive(Drop)]
struct Texts {
    names: Assoc<Label>,
}

impl Subject for Texts {
    fn answer(&mut self, alloc: Global, call: &str, words: &mut Words<'_>) -> Result<String, Fail> {
        let label = Label::new(words.word())?;
        match call {
            "runs" => runs(alloc, &self.names),
            "add" => shown(alloc, &self.names.add(label)),
            "remove" => shown(alloc, &self.names.remove(label)),
            _ => place(alloc, &self.names, label),
        }
    }
}

// A set in its parent, index by index.
const LINE: &str = r"
empty 1 10 1 _ -> []
add 11 -> Err(OutOfParent)
add 3 -> Ok(1)
add 3 -> Ok(0)
fits 1 3 1 _ -> true
reparent 1 3 1 _ -> Ok(())
fits 4 9 1 _ -> false
reparent 4 9 1 _ -> Err(OutOfParent)
parent 1 3 1 _ -> true
runs -> [[3]]
remove 3 -> 1
remove 3 -> 0
runs -> []
";

// Sets made of lists of so many indices, in a parent whose ranges run downward.
const SQUARE: &str = r"
from 1 4 -1 _ 1 4 -1 _ 4 2 1 1 4 2 1 1 3 -> [[1, 3], [1, 4], [2, 1]]
place 2 1 -> (Some(2), true)
place 2 2 -> (None, false)
from 1 4 -1 _ 1 4 -1 _ 2 1 1 1 5 -> OutOfParent
";

#[derive(Drop)]
struct Members<const R: usize> {
    set: Sparse<R>,
}

/// The set of a parent and of so many indices.
pub fn sparse<const R: usize>(
    alloc: Global,
    words: &mut Words<'_>,
) -> Result<Sparse<R>, SparseErr> {
    let Ok(parent) = rectangle(words) else {
        words.refuse();
        return Err(SparseErr::OutOfParent);
    };
    match words.indices(alloc) {
        Ok(indices) => Sparse::from_slice(alloc, parent, indices.as_slice()),
        Err(_) => Err(SparseErr::NoMemory),
    }
}

impl<const R: usize> Members<R> {
    // What a call answers with a parent.
    fn with_parent(&mut self, alloc: Global, call: &str, parent: Rect<R>) -> Result<String, Fail> {
        match call {
            "empty" => {
                self.set = Sparse::empty(alloc, parent);
                runs(alloc, &self.set)
            }
            "fits" => shown(alloc, &self.set.fits(&parent)),
            "parent" => shown(alloc, &(self.set.parent() == parent)),
            "reparent" => shown(alloc, &self.set.reparent(parent)),
            _ => unknown(),
        }
    }
}

impl<const R: usize> Subject for Members<R> {
    fn answer(&mut self, alloc: Global, call: &str, words: &mut Words<'_>) -> Result<String, Fail> {
        match call {
            "from" => match sparse(alloc, words) {
                Ok(set) => {
                    self.set = set;
                    runs(alloc, &self.set)
                }
                Err(error) => shown(alloc, &error),
            },
            "add" => shown(alloc, &self.set.add(words.index())),
            "remove" => shown(alloc, &self.set.remove(words.index())),
            "place" => place(alloc, &self.set, words.index()),
            "runs" => runs(alloc, &self.set),
            _ => self.with_parent(alloc, call, rectangle(words)?),
        }
    }
}

#[test]
fn rows_of_sets(rt: HostRuntime) -> Result<(), Fail> {
    play(&rt, rt.alloc(), &mut Operations, OPERATIONS)
}

#[test]
fn rows_of_texts(rt: HostRuntime) -> Result<(), Fail> {
    let names = Assoc::empty(rt.alloc());
    play(&rt, rt.alloc(), &mut Texts { names }, TEXTS)
}

#[test]
fn rows_of_a_line(rt: HostRuntime) -> Result<(), Fail> {
    let set: Sparse<1> = sparse(rt.alloc(), &mut Words::of("1 4 1 _ 0"))?;
    play(&rt, rt.alloc(), &mut Members { set }, LINE)
}

#[test]
fn rows_of_a_square(rt: HostRuntime) -> Result<(), Fail> {
    let set: Sparse<2> = sparse(rt.alloc(), &mut Words::of("1 4 1 _ 1 4 1 _ 0"))?;
    play(&rt, rt.alloc(), &mut Members { set }, SQUARE)
}
