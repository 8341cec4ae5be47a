//! What a workbook answers of its names and indices: who is bound to a domain, and which index stands at a place.

use crate::sessions::scripts::play;
use std::process::Abort;
use std::test::Fail;
use wb_arrays::Crew;
use wb_book::Book;
use wb_cells::{AnyIndex, Index, Name, Point};
use wb_history::History;
use wb_sets::Label;

// A rectangle that runs downward, a sparse domain in it, two arrays over the rectangle and one over the sparse domain; and
// labels, whose array is dropped again.
const MADE: &str = r#"
{"op":"domain","d":"D","is":"{1..2, 1..9 by -4}"} -> {"edit":1,"n":3}
{"op":"array","a":"B","d":"D"} -> {"edit":2,"n":9}
{"op":"sparse","d":"S","of":"D"} -> {"edit":3,"n":2}
{"op":"array","a":"A","d":"D"} -> {"edit":4,"n":9}
{"op":"array","a":"C","d":"S"} -> {"edit":5,"n":3}
{"op":"add","d":"S","i":[2,5]} -> {"edit":6,"n":2}
{"op":"add","d":"S","i":[1,9]} -> {"edit":7,"n":2}
{"op":"assoc","d":"T","of":"text"} -> {"edit":8,"n":1}
{"op":"add","d":"T","i":"x"} -> {"edit":9,"n":1}
{"op":"add","d":"T","i":"a"} -> {"edit":10,"n":1}
{"op":"array","a":"E","d":"T"} -> {"edit":11,"n":5}
{"op":"drop_array","a":"E"} -> {"edit":12,"n":5}
"#;

// That these names, and no more, are bound to the domain of a name, in this order.
fn are_users(rt: &impl Abort, book: &Book, domain: &str, users: &[&str]) -> Result<(), Fail> {
    let domain = Name::new(domain)?;
    for (p, user) in users.iter().enumerate() {
        assert!(rt;
            book.user(&domain, p) == Some(Name::new(user)?),
            "{domain:?} {p}"
        );
    }
    assert!(rt; book.user(&domain, users.len()).is_none(), "{domain:?}");
    Ok(())
}

// That the domain of a name has these indices, and no more, in this order.
fn are_indices(rt: &impl Abort, book: &Book, domain: &str, indices: &[Index]) -> Result<(), Fail> {
    let domain = Name::new(domain)?;
    for (p, index) in indices.iter().enumerate() {
        let found = book.index(&domain, p);
        assert!(rt;
            found == Some(AnyIndex::new(*index)),
            "{domain:?} {p} {found:?}"
        );
    }
    assert!(rt; book.index(&domain, indices.len()).is_none(), "{domain:?}");
    Ok(())
}

fn plane(i: i64, j: i64) -> Index {
    Index::Point(Point::pair(i, j))
}

#[test]
fn users_and_indices(rt: HostRuntime) -> Result<(), Fail> {
    let mut history = History::new(rt.alloc());
    play(&rt, rt.alloc(), &mut history, MADE, &Crew::alone(&rt))?;
    let book = history.book();
    are_users(&rt, book, "D", &["A", "B", "S"])?;
    are_users(&rt, book, "S", &["C"])?;
    for name in ["A", "C", "E", "T", "X"] {
        are_users(&rt, book, name, &[])?;
    }
    let rows = [
        plane(1, 9),
        plane(1, 5),
        plane(1, 1),
        plane(2, 9),
        plane(2, 5),
        plane(2, 1),
    ];
    are_indices(&rt, book, "D", &rows)?;
    are_indices(&rt, book, "S", &[plane(1, 9), plane(2, 5)])?;
    let labels = [Label::new("a")?, Label::new("x")?];
    are_indices(
        &rt,
        book,
        "T",
        &[Index::Text(labels[0]), Index::Text(labels[1])],
    )?;
    for name in ["A", "X"] {
        are_indices(&rt, book, name, &[])?;
    }
    Ok(())
}
