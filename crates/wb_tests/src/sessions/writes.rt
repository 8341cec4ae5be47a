//! How many cells were set since the beginning, after each line.

use crate::sessions::scripts::play;
use std::test::Fail;
use wb_arrays::Crew;
use wb_history::History;

// A request with its reply, and how many cells were set then.
const ROWS: [(&str, u128); 10] = [
    (
        r#"{"op":"domain","d":"D","is":"{1..4}"} -> {"edit":1,"n":3}"#,
        3,
    ),
    (r#"{"op":"array","a":"A","d":"D"} -> {"edit":2,"n":7}"#, 10),
    (
        r#"{"op":"set","a":"A","i":4,"v":9} -> {"edit":3,"n":1}"#,
        11,
    ),
    (r#"{"op":"undo"} -> {"n":1,"undone":3}"#, 12),
    (r#"{"op":"get","a":"A","i":4} -> {"value":0}"#, 12),
    (
        r#"{"op":"set","a":"A","i":5,"v":9} -> {"error":"E06","name":"out-of-domain"}"#,
        12,
    ),
    (r#"{"op":"redo","k":3} -> {"n":1,"redone":3}"#, 13),
    (
        r#"{"op":"undo","k":2} -> {"by":3,"error":"E14","name":"blocked"}"#,
        13,
    ),
    (r#"{"op":"cascade","k":2} -> {"n":8,"undone":[3,2]}"#, 21),
    (r#"{"op":"edits"} -> {"edits":3,"writes":21}"#, 21),
];

#[test]
fn counts_each_cell(rt: HostRuntime) -> Result<(), Fail> {
    let alone = Crew::alone(&rt);
    let mut history = History::new(rt.alloc());
    for (row, writes) in ROWS {
        play(&rt, rt.alloc(), &mut history, row, &alone)?;
        assert!(rt; history.book().writes() == writes, "{row}");
    }
    Ok(())
}
